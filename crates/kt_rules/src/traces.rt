//! Where the rows of a message stand.

use kt_base::ProcNo;

/// A message, and the places of its send and its receive in the live histories, counted from 1.
#[derive(Clone, Copy, PartialEq, Eq)]
pub struct Trace {
    pub from: ProcNo,
    pub to: ProcNo,
    /// None where the send was undone.
    pub sent: Option<usize>,
    /// None where the message was not received, or the receive was undone.
    pub received: Option<usize>,
}
