//! Which labels there are, and the words of faults.

use crate::faults::refused;
use kt_base::{InstNo, Label, Labels, ProcNo, RowNo};
use kt_merge::{PartFault, RowFault};
use kt_node::{ManagerFault, NodeFault};
use kt_node_text::LoadFault;
use kt_object::{ActFault, CastFault, RestoreFault, SaveFault};
use kt_rules::LegalFault;
use kt_spacetime::{CertFault, Rule};
use std::fmt::Display;
use std::io;

/// The label with this number.
pub(crate) fn label_of(number: u64) -> io::Result<Label> {
    match Label::new(number) {
        Some(label) => Ok(label),
        None => refused(),
    }
}

// Shows the words of faults, a line each.
fn show_words<R: Print, F: Display>(rt: &R, faults: &[F]) -> io::Result<()> {
    for fault in faults {
        println!(rt; "  {fault}")?;
    }
    Ok(())
}

// Shows the words of faults, those of an instance at this one, and those of a process at this one.
fn show_faults<R: Print>(rt: &R, k: InstNo, p: ProcNo) -> io::Result<()> {
    println!(rt; "words of faults")?;
    show_words(rt, &[SaveFault::Unable, SaveFault::Memory])?;
    show_words(rt, &[RestoreFault::Form, RestoreFault::Memory])?;
    show_words(rt, &[ActFault::Unfit, ActFault::Form, ActFault::Memory])?;
    show_words(
        rt,
        &[CastFault::Size, CastFault::Kind(p), CastFault::Object(p)],
    )?;
    show_words(rt, &[LoadFault::Form, LoadFault::Memory])?;
    show_words(rt, &[LegalFault::Broken(RowNo::after(2), Rule::Order)])?;
    show_words(rt, &[CertFault::NoChain(k, p), CertFault::Memory])?;
    show_words(rt, &[ManagerFault::LabelsSpent, ManagerFault::CountsSpent])?;
    show_words(rt, &[NodeFault::ClockSpent])?;
    show_words(rt, &[RowFault::TooManyRows, RowFault::TooManyInstances])?;
    show_words(rt, &[PartFault::TooLong, PartFault::Read])
}

/// Shows which labels a counter gives after the last label but one, and the words of faults.
pub(crate) fn show_limits<R: Print>(rt: &R) -> io::Result<()> {
    let mut labels = Labels::after(label_of(Label::MAX - 1)?);
    let (last, next) = (labels.next(), labels.next());
    println!(rt; "numbers at their ends\n  {last:?}\n  {next:?}")?;
    match InstNo::new(1) {
        Some(k) => show_faults(rt, k, ProcNo::nth(2)),
        None => refused(),
    }
}
