//! Reports.

ghost use Rattle.std.specs.Prelude.{◌≡◌, ◌++◌, OnOk, OnErr, length, map};
ghost use Rattle.std.specs.List.{flat_map};
ghost use Rattle.std.specs.Io.KnownBytes.{Appends};
ghost use Rattle.kt_meaning.specs.Legal.{IsLegal};
ghost use Rattle.kt_report.specs.Exact.{lost_in, report_of};
ghost use Rattle.kt_report.specs.Lines.{instance_lines, refusal_line};
ghost use Rattle.kt_report.specs.Report.{WritesReport, WritesReportFront, report_with};
ghost use Rattle.kt_report.specs.Told.{Tells};
ghost use Rattle.kt_text.specs.Writing.{Sends, WritesFront};

use crate::instances::write_instances;
use crate::losses::{lost, push_losses};
use crate::objects::push_objects;
use crate::offers::Offers;
use crate::refusals::write_refusals;
use crate::replay::Replay;
use crate::told::Told;
use kt_plan::{Names, Plan};
use kt_spacetime::{Certificate, Event, SpaceTime};
use kt_text::WriteFault;
use kt_text::pieces::{new_text, write_rest};
use std::alloc::Global;
use std::io::Write;

/// Writes the report of a run: of its plan, its log and the certificates of its decided instances, in order.
///
/// Each line is ended by a line feed, its words are separated by blanks. The lines are, for each instance,
/// `instance K KIND NAME DECISION`, then after a commit a line `member NAME` for each member, with ` M:S>R` for each
/// message of its chain, and after an abort a line `unwilling NAME CAUSE` for each process that was unwilling; for each
/// refused command `refused NAME VERB CAUSE`; for each process `object NAME up OFFER` or `object NAME down`; and
/// `lost L dropped D`. A process without a name is written as `-`.
///
/// An object's line says what it offers at the end of the log, where it is up then. A message is lost whose send is live
/// at the end, which its receiver's live history does not have, and which was not dropped. Of a log that is not legal,
/// what is written of objects and how many messages it says are lost is left open.
///
/// The text goes out in pieces of some 32 KiB. After a fault, a front part of it is written.
pub fn report<W: Write>(
    alloc: Global,
    plan: &Plan,
    log: &SpaceTime,
    certificates: &[Certificate],
    writer: &mut W,
) -> Result<(), WriteFault>
    ensures written { OnOk result (WritesReport (W.contents writer.old) (W.contents writer.new) plan.now.names
        log.now.rows certificates.now) }
    ensures exact { OnOk result (IsLegal log.now.rows → Appends (W.contents writer.old) (W.contents writer.new)
        (report_of plan.now log.now.rows certificates.now)) }
    ensures stopped { OnErr result (WritesReportFront (W.contents writer.old) (W.contents writer.new)
        plan.now.names log.now.rows certificates.now) }
    ensures front { OnErr result (IsLegal log.now.rows → WritesFront (W.contents writer.old)
        (W.contents writer.new) (report_of plan.now log.now.rows certificates.now)) }
{
    let rows = log.rows();
    let replay = Replay::of_rows(alloc, plan.kinds.as_slice(), rows)?;
    let lost = lost(alloc, rows)?;
    write_parts(
        alloc,
        &plan.names,
        rows,
        certificates,
        replay.objects.as_slice(),
        lost,
        writer,
    )
}

/// Writes the report of a run as `report` does, where its log is legal and no message is lost at its end, as at the end of
/// each run: so the messages are not followed along the log.
pub fn report_of_run<W: Write>(
    alloc: Global,
    plan: &Plan,
    log: &SpaceTime,
    certificates: &[Certificate],
    writer: &mut W,
) -> Result<(), WriteFault>
    requires legal { IsLegal log.now.rows }
    requires none_lost { lost_in log.now.rows ≡ 0 }
    ensures exact { OnOk result (Appends (W.contents writer.old) (W.contents writer.new)
        (report_of plan.now log.now.rows certificates.now)) }
    ensures front { OnErr result (WritesFront (W.contents writer.old) (W.contents writer.new)
        (report_of plan.now log.now.rows certificates.now)) }
{
    let rows = log.rows();
    let replay = Replay::of_rows(alloc, plan.kinds.as_slice(), rows)?;
    write_parts(
        alloc,
        &plan.names,
        rows,
        certificates,
        replay.objects.as_slice(),
        0,
        writer,
    )
}

// Writes a report, whose objects offer this, and which says that so many messages are lost.
fn write_parts<W: Write>(
    alloc: Global,
    names: &Names,
    rows: &[Event],
    certificates: &[Certificate],
    objects: &[Offers],
    lost: usize,
    writer: &mut W,
) -> Result<(), WriteFault>
    requires { length objects.now ≡ length names.now }
    ensures written { OnOk result (Appends (W.contents writer.old) (W.contents writer.new)
        (report_with names.now rows.now certificates.now (map (λ o. o.now) objects.now) lost)) }
    ensures front { OnErr result (WritesFront (W.contents writer.old) (W.contents writer.new)
        (report_with names.now rows.now certificates.now (map (λ o. o.now) objects.now) lost)) }
{
    let mut text = new_text(alloc)?;
    let told = Told::of_rows(alloc, rows)?;
    write_commands(alloc, &mut text, names, rows, &told, certificates, writer)?;
    push_objects(&mut text, names, objects)?;
    push_losses(&mut text, lost, told.dropped)?;
    write_rest(&mut text, writer)
}

// Writes or gathers the lines of instances, and of refused commands where there are any.
fn write_commands<W: Write>(
    alloc: Global,
    text: &mut Vec<u8>,
    names: &Names,
    rows: &[Event],
    told: &Told,
    certificates: &[Certificate],
    writer: &mut W,
) -> Result<(), WriteFault>
    requires { Tells told.now rows.now }
    ensures sent { OnOk result (Sends (W.contents writer.old) (W.contents writer.new) text.old.items text.new.items
        (flat_map (instance_lines names.now rows.now) certificates.now ++ flat_map (refusal_line names.now) rows.now)) }
    ensures stopped { OnErr result (WritesFront (W.contents writer.old) (W.contents writer.new)
        (text.old.items ++ (flat_map (instance_lines names.now rows.now) certificates.now
        ++ flat_map (refusal_line names.now) rows.now))) }
{
    write_instances(
        alloc,
        text,
        names,
        rows,
        &told.unwilling,
        certificates,
        writer,
    )?;
    if !told.refuses {
        return Ok(());
    }
    write_refusals(text, names, rows, writer)
}
