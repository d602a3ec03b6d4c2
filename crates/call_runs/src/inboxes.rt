//! Messages by sender, by stored calls.
//!
//! The first line of a case says how many processes there are. Each other line says a call, the process whose messages are
//! shown after it, and a label, where it has one.

ghost use Rattle.std.specs.Prelude.{◌≡◌, ◌≤◌, ◌<◌, ◌↔◌, IsTrue};
ghost use Rattle.kt_manager.specs.Inboxes.{processes_of};

use crate::cases::Case;
use crate::faults::{refused, value_of};
use crate::node_steps::process_of;
use kt_base::{Label, ProcNo};
use kt_manager::{Inbox, Item};
use kt_spacetime::Count;
use std::alloc::Global;
use std::io;

/// A call, a process, and a label, if there is one.
#[derive(Clone, Copy)]
struct Call<'a> {
    verb: &'a str,
    from: ProcNo,
    label: Option<Label>,
}

// The call that a line says.
fn call_of(line: &str) -> Option<Call<'_>> {
    let mut words = line.split(' ');
    let verb = words.next()?;
    let from = process_of(words.next())?;
    let label = match words.next() {
        Some(word) => Label::new(word.parse().ok()?),
        None => None,
    };
    Some(Call { verb, from, label })
}

// The message with this label.
fn item_of(label: Option<Label>) -> io::Result<Item> {
    match Count::new(label.map_or(0, |label| label.get())) {
        Some(label) => Ok(Item { label, body: 7 }),
        None => refused(),
    }
}

// A message of a process comes: it is kept where that is asked for and none is held before it, and else held.
fn receive(inbox: &mut Inbox, from: ProcNo, item: Item, is_kept: bool) -> io::Result<()>
    requires { from < processes_of inbox.old }
    ensures { processes_of inbox.new ≡ processes_of inbox.old }
{
    if inbox.make_room(from).is_err() {
        return refused();
    }
    if is_kept && inbox.first_held(from).is_none() {
        inbox.keep(from, item);
    } else {
        inbox.hold(from, item);
    }
    Ok(())
}

// Makes a call of all processes.
fn call_all(alloc: Global, inbox: &mut Inbox, call: &Call<'_>) -> io::Result<()>
    ensures { processes_of inbox.new ≡ processes_of inbox.old }
{
    let most = call.label;
    match call.verb {
        "forget" => match inbox.marks(alloc) {
            Ok(marks) => inbox.forget(marks.as_slice()),
            Err(_) => return refused(),
        },
        "put_all_back" => inbox.put_all_back(move |_| most),
        _ => return refused(),
    }
    Ok(())
}

// Makes a call.
fn make(alloc: Global, inbox: &mut Inbox, call: &Call<'_>) -> io::Result<()>
    requires { call.now.from < processes_of inbox.old }
    ensures { processes_of inbox.new ≡ processes_of inbox.old }
{
    match call.verb {
        "keep" => return receive(inbox, call.from, item_of(call.label)?, true),
        "hold" => return receive(inbox, call.from, item_of(call.label)?, false),
        "keep_held" if inbox.holds().has(call.from) => inbox.keep_held(call.from),
        "drop_held" => inbox.drop_held(call.from),
        "put_back" => inbox.put_back(call.from, call.label),
        _ => return call_all(alloc, inbox, call),
    }
    Ok(())
}

// The labels of the messages of a process from one place to another one.
fn labels(
    alloc: Global,
    inbox: &Inbox,
    from: ProcNo,
    first: usize,
    end: usize,
) -> io::Result<Vec<u64>>
    requires { from < processes_of inbox.now }
{
    let mut labels = Vec::new(alloc);
    for place in first..end {
        if let Some(item) = inbox.get(from, place) {
            labels.push(item.label.get())?;
        }
    }
    Ok(labels)
}

// Shows the messages of a process.
fn show_messages<R: Print + AllocGlobal>(
    rt: &R,
    inbox: &Inbox,
    from: ProcNo,
    line: &str,
) -> io::Result<()>
    requires { from < processes_of inbox.now }
{
    let border = inbox.kept_count(from);
    let kept = labels(rt.alloc(), inbox, from, 0, border)?;
    let held = labels(rt.alloc(), inbox, from, border, inbox.len(from))?;
    println!(rt; "  {line}: kept {kept:?}, held {held:?}")
}

// Makes the call of a line, and shows the messages of its process then.
fn show_call<R: Print + AllocGlobal>(rt: &R, inbox: &mut Inbox, line: &str) -> io::Result<()> {
    let Some(call) = call_of(line) else {
        return refused();
    };
    if call.from.index() >= inbox.processes() {
        return refused();
    }
    make(rt.alloc(), inbox, &call)?;
    show_messages(rt, inbox, call.from, line)
}

// Makes calls of the messages of so many processes.
fn show_calls<R: Print + AllocGlobal>(rt: &R, processes: u8, lines: &str) -> io::Result<()>
    requires { processes ≤ 64 }
{
    match Inbox::new(rt.alloc(), usize::from(processes)) {
        Ok(mut inbox) => {
            for line in lines.lines() {
                show_call(rt, &mut inbox, line)?;
            }
            Ok(())
        }
        Err(_) => refused(),
    }
}

/// Shows what is kept and held after the calls of a case.
pub(crate) fn show_inboxes<R: Print + AllocGlobal>(rt: &R, case: &Case) -> io::Result<()> {
    println!(rt; "{}", case.title)?;
    let text = value_of(std::str::from_utf8(case.text))?;
    let (first, lines) = text.split_once('\n').unwrap_or((text, ""));
    match first.parse::<u8>() {
        Ok(processes) if processes <= 64 => show_calls(rt, processes, lines),
        _ => refused(),
    }
}
