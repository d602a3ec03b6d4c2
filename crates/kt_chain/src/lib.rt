//! The text of certificates, which say for each decided instance who took part, and the chain of messages that shows
//! why.
//!
//! **What to change where:** one record `records.rt`; a text `reading.rt`, faults `fault.rt`; `writing.rt`; laws
//! `laws.rt`. A certificate itself is `Certificate` of kt_spacetime.
#![tactic(auto)]

mod fault;
mod laws;
mod reading;
mod records;
mod writing;

pub use fault::CertTextFault;
pub use laws::{faults_are_real, one_spelling};
pub use reading::{CERTIFICATE_WIDTH, read_certs, read_certs_in};
pub use writing::write_certs;
