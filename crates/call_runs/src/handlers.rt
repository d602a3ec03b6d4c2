//! The handlers of checkpoints and of rollbacks, each called for two processes: process 0 has sent process 1 a message with
//! label 5.

ghost use Rattle.std.specs.Prelude.{◌≡◌, false, IfOk};

use crate::faults::{refused, value_of};
use crate::limits::label_of;
use crate::tables::{answer, is_there};
use kt_base::{InstNo, Kind, Memory, ProcNo, Standing};
use kt_process::{Action, Asks, Then, checkpoint, rollback};
use kt_tables::Tables;
use std::alloc::Global;
use std::io;

// Shows whom a process asks that joins, and how it goes on.
fn show_join<R: Print>(rt: &R, who: &str, asks: &Asks, goes: Then) -> io::Result<()> {
    for ask in asks.list() {
        println!(rt; "  {who} asks process {}: label {}", ask.0, ask.1.get())?;
    }
    match goes {
        Then::Wait => println!(rt; "  {who} joins and waits"),
        Then::Answer(to) => println!(rt; "  {who} joins and replies to process {to}"),
        Then::Commit => println!(rt; "  {who} joins and commits"),
    }
}

// Shows what follows for a process.
fn show_action<R: Print>(rt: &R, who: &str, action: Action) -> io::Result<()> {
    match action {
        Action::Nothing => println!(rt; "  {who} does nothing"),
        Action::Refuse(cause) => println!(rt; "  {who} refuses: {cause:?}"),
        Action::Join { ask, goes } => show_join(rt, who, &ask, goes),
        Action::Reply { to, willing, cause } => {
            println!(rt; "  {who} replies to process {to}: willing {willing}, {cause:?}")
        }
        Action::Settle { commit, tell } => {
            println!(rt; "  {who} settles: commit {commit}, tells {}", tell.count())
        }
    }
}

// Shows what a handler answered; the part of a process that joined.
fn show_answer<R: Print, S: Drop>(
    rt: &R,
    who: &str,
    answer: Result<(Option<S>, Action), Memory>,
) -> io::Result<Option<S>> {
    let (side, action) = value_of(answer)?;
    show_action(rt, who, action)?;
    Ok(side)
}

// How a process stands that is up, and can be saved: in an instance, or in none.
fn up_in(in_inst: Option<InstNo>, able: bool) -> Standing
    ensures { result.in_inst ≡ in_inst }
{
    let up = true;
    Standing { in_inst, up, able }
}

// The tables of the process that has sent the other one the message, or of the one that has received it.
fn tables_of(alloc: Global, is_sender: bool) -> io::Result<Tables>
    ensures processes { IfOk result (λ t. t.processes ≡ 2) }
    ensures tentative { IfOk result (λ t. t.is_tentative ≡ false) }
{
    let (peer, call) = if is_sender {
        (1, "sent")
    } else {
        (0, "received")
    };
    let mut tables = value_of(Tables::new(alloc, 2))?;
    let is_made = answer(&mut tables, call, ProcNo::nth(peer), label_of(5)?);
    if is_made && !tables.is_tentative() && tables.processes() == 2 {
        return Ok(tables);
    }
    refused()
}

// Process 1 begins a checkpoint, is replied to, and commits it. Then it refuses one, since it can't be saved.
fn show_begun_checkpoint<R: Print>(rt: &R, tables: &mut Tables, inst: InstNo) -> io::Result<()>
    requires { tables.old.is_tentative ≡ false }
{
    let begun = checkpoint::start(tables, inst, up_in(None, true));
    let Some(mut side) = show_answer(rt, "process 1", begun)? else {
        return refused();
    };
    show_action(rt, "process 1", checkpoint::on_reply(&mut side, true))?;
    if !tables.is_tentative() {
        return refused();
    }
    let settled = checkpoint::on_decide(tables, side, true);
    show_action(rt, "process 1", settled)?;
    let again = checkpoint::start(tables, inst, up_in(None, false));
    show_answer(rt, "process 1", again)?;
    Ok(())
}

// Process 0 is asked to join it, and is told the decision.
fn show_joined_checkpoint<R: Print>(rt: &R, tables: &mut Tables, inst: InstNo) -> io::Result<()>
    requires { tables.old.is_tentative ≡ false }
{
    let (from, label) = (ProcNo::nth(1), label_of(5)?);
    if !is_there(tables, from) {
        return refused();
    }
    let joined = checkpoint::on_ask(tables, up_in(None, true), from, inst, label);
    match show_answer(rt, "process 0", joined)? {
        Some(side) if tables.is_tentative() => {
            show_action(rt, "process 0", checkpoint::on_decide(tables, side, true))
        }
        _ => refused(),
    }
}

// Process 0 begins a rollback, is asked in it, is replied to, and commits it. Then it refuses one, since it is in it.
fn show_begun_rollback<R: Print>(rt: &R, tables: &mut Tables, inst: InstNo) -> io::Result<()>
    requires { tables.old.is_tentative ≡ false }
{
    let begun = rollback::start(tables, inst, up_in(None, true));
    let Some(mut side) = show_answer(rt, "process 0", begun)? else {
        return refused();
    };
    let (from, label) = (ProcNo::nth(1), label_of(9)?);
    if !is_there(tables, from) || from.index() >= side.processes() {
        return refused();
    }
    let busy = up_in(Some(inst), true);
    let asked = rollback::on_ask(tables, Some(&mut side), busy, from, inst, label);
    show_answer(rt, "process 0", asked)?;
    println!(rt; "  process 0 noted {:?}", side.noted(from))?;
    show_action(rt, "process 0", rollback::on_reply(&mut side, true))?;
    let settled = rollback::on_decide(tables, side, true);
    show_action(rt, "process 0", settled)?;
    show_answer(rt, "process 0", rollback::start(tables, inst, busy))?;
    Ok(())
}

// Process 1 is asked to join it, and is told the decision.
fn show_joined_rollback<R: Print>(rt: &R, tables: &mut Tables, inst: InstNo) -> io::Result<()>
    requires { tables.old.is_tentative ≡ false }
{
    let (from, label) = (ProcNo::nth(0), label_of(0)?);
    if !is_there(tables, from) {
        return refused();
    }
    let joined = rollback::on_ask(tables, None, up_in(None, true), from, inst, label);
    let Some(side) = show_answer(rt, "process 1", joined)? else {
        return refused();
    };
    println!(rt; "  process 1 noted {:?}", side.noted(from))?;
    show_action(rt, "process 1", rollback::on_decide(tables, side, true))
}

// Shows an instance of a kind at the process that begins it, or at the one that joins it.
fn show_at<R: Print + AllocGlobal>(
    rt: &R,
    inst: InstNo,
    kind: Kind,
    begins: bool,
) -> io::Result<()> {
    let mut tables = tables_of(rt.alloc(), begins == (kind == Kind::Rollback))?;
    match (kind, begins) {
        (Kind::Checkpoint, true) => show_begun_checkpoint(rt, &mut tables, inst),
        (Kind::Checkpoint, false) => show_joined_checkpoint(rt, &mut tables, inst),
        (Kind::Rollback, true) => show_begun_rollback(rt, &mut tables, inst),
        (Kind::Rollback, false) => show_joined_rollback(rt, &mut tables, inst),
    }
}

/// Shows what the handlers of both kinds answer.
pub(crate) fn show_handlers<R: Print + AllocGlobal>(rt: &R) -> io::Result<()> {
    let Some(inst) = InstNo::new(1) else {
        return refused();
    };
    println!(rt; "a checkpoint, by its handlers")?;
    show_at(rt, inst, Kind::Checkpoint, true)?;
    show_at(rt, inst, Kind::Checkpoint, false)?;
    println!(rt; "a rollback, by its handlers")?;
    show_at(rt, inst, Kind::Rollback, true)?;
    show_at(rt, inst, Kind::Rollback, false)
}
