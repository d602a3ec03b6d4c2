//! Messages, after the rows so far, and what a decision does to processes and messages.

ghost use Rattle.std.specs.Prelude.{◌≡◌, ◌≢◌, ◌<◌, ◌≤◌, ◌+◌, ℕ, true, if◌then◌else◌, Some, None, Option, length, take, map, slice_get, slice_index_or, Contains, OnOk};
ghost use Rattle.kt_base.specs.Sets.{has};
ghost use Rattle.kt_spacetime.specs.declared.deeds.Deed.TheVariants as deed;
ghost use Rattle.kt_histories.specs.declared.process.Process.{Process};

use crate::messages::Messages;
use crate::process::Process;
use kt_base::{Memory, MsgNo, ProcNo};
use kt_rules::instances::Instance;
use kt_spacetime::Deed;

/// A message, from its `sent` row on. Places in a history count from 0 here.
#[derive(Clone, Copy)]
pub(crate) struct Message {
    pub(crate) from: ProcNo,
    pub(crate) to: ProcNo,
    /// The place of its send in the sender's history, when it was sent.
    pub(crate) sent: usize,
    /// The place of its last receive in the receiver's history, when it was received.
    pub(crate) received: Option<usize>,
    pub(crate) dropped: bool,
}

ghost use Rattle.kt_histories.specs.Standing.{message_at, parties, receiving};
ghost use Rattle.kt_histories.specs.Tables.{promoted, rolled, with_received, with_dropped};

/// Notes at which place a message was received.
pub(crate) fn mark_received(messages: &mut [Option<Message>], msg: MsgNo, place: usize)
    ensures marked { message_at messages.new msg ≡ with_received place (message_at messages.old msg) }
    ensures others { (m : ℕ) → m ≢ msg → message_at messages.new m ≡ message_at messages.old m }
    ensures parties { map parties messages.new ≡ map parties messages.old }
{
    let index = msg.get() as usize - 1;
    if index < messages.len() {
        messages[index] = received_at(messages[index], place);
    }
}

fn received_at(message: Option<Message>, place: usize) -> Option<Message>
    ensures { result ≡ with_received place message }
{
    let message = message?;
    Some(Message {
        received: Some(place),
        ..message
    })
}

/// Notes that a message was dropped.
pub(crate) fn mark_dropped(messages: &mut [Option<Message>], msg: MsgNo)
    ensures marked { message_at messages.new msg ≡ with_dropped (message_at messages.old msg) }
    ensures others { (m : ℕ) → m ≢ msg → message_at messages.new m ≡ message_at messages.old m }
    ensures parties { map parties messages.new ≡ map parties messages.old }
{
    let index = msg.get() as usize - 1;
    if index < messages.len() {
        messages[index] = dropped(messages[index]);
    }
}

fn dropped(message: Option<Message>) -> Option<Message>
    ensures { result ≡ with_dropped message }
{
    let message = message?;
    Some(Message {
        dropped: true,
        ..message
    })
}

/// Makes the members' new positions permanent.
pub(crate) fn make_permanent(processes: &mut [Process], instance: &Instance)
    requires { length processes.old ≡ 64 }
    ensures all { length processes.new ≡ 64 }
    ensures each { (q : ℕ) (v : Process) → slice_get processes.old q ≡ Some v
        → slice_get processes.new q ≡ Some (promoted instance.now q v) }
{
    for number in 0..ProcNo::COUNT {
        if instance.has_joined(number) {
            processes[number as usize].permanent = instance.positions[number as usize];
        }
    }
}

/// Cuts the members' histories back to their permanent positions, and adds the sends that this undoes to a list.
pub(crate) fn roll_back(
    processes: &mut [Process],
    instance: &Instance,
    undone: &mut Messages,
) -> Result<(), Memory>
    requires { length processes.old ≡ 64 }
    ensures all { length processes.new ≡ 64 }
    ensures each { OnOk result ((q : ℕ) (v : Process) → slice_get processes.old q ≡ Some v
        → slice_get processes.new q ≡ Some (rolled instance.now q v)) }
    ensures undone { OnOk result ((q i m to : ℕ) (v : Process) → slice_get processes.old q ≡ Some v
        → has instance.now.joined q ≡ true → slice_get v.history i ≡ Some (deed.Sent m to) → v.permanent ≤ i
        → Contains undone.new m) }
{
    for number in 0..ProcNo::COUNT {
        let is_member = instance.has_joined(number);
        cut_back_if(is_member, &mut processes[number as usize], undone)?;
    }
    Ok(())
}

// Cuts a member's history back.
fn cut_back_if(is_member: bool, process: &mut Process, undone: &mut Messages) -> Result<(), Memory>
    ensures process { OnOk result (process.new ≡ (if is_member then record process.old { history = take process.old.permanent process.old.history } else process.old)) }
    ensures undone { OnOk result ((i m to : ℕ) → is_member ≡ true
        → slice_get process.old.history i ≡ Some (deed.Sent m to) → process.old.permanent ≤ i
        → Contains undone.new m) }
    ensures kept { OnOk result ((m : ℕ) → Contains undone.old m → Contains undone.new m) }
{
    if is_member {
        process.cut_back(undone)?;
    }
    Ok(())
}

// Adds a message that is wanted to a list.
fn push_if(is_wanted: bool, list: &mut Messages, msg: MsgNo) -> Result<(), Memory>
    ensures wanted { OnOk result (is_wanted ≡ true → Contains list.new msg) }
    ensures kept { OnOk result ((m : ℕ) → Contains list.old m → Contains list.new m) }
{
    if is_wanted {
        list.push(msg)?;
    }
    Ok(())
}

/// The place of a message's receive in its receiver's history, if it is there.
pub(crate) fn received_place(
    processes: &[Process],
    messages: &[Option<Message>],
    msg: MsgNo,
) -> Option<usize>
    requires { length processes.now ≡ 64 }
    ensures there { (p i q : ℕ) (v : Process) → receiving (message_at messages.now msg) ≡ Some (p, q, Some i)
        → slice_get processes.now p ≡ Some v → slice_get v.history i ≡ Some (deed.Received msg q)
        → result ≡ Some i }
{
    let message = (*messages.get(msg.get() as usize - 1)?)?;
    let place = message.received?;
    let from = message.from;
    let process = &processes[message.to.get() as usize];
    if process.history.deed(place) == Some(Deed::Received { msg, from }) {
        Some(place)
    } else {
        None
    }
}

/// Adds what of a list of undone messages still stands in its receiver's history to the dead ones.
pub(crate) fn add_undone_received(
    dead: &mut Messages,
    undone: &Messages,
    processes: &[Process],
    messages: &[Option<Message>],
) -> Result<(), Memory>
    requires { length processes.now ≡ 64 }
    ensures kept { OnOk result ((m : ℕ) → Contains dead.old m → Contains dead.new m) }
    ensures buried { OnOk result ((p i m q : ℕ) (v : Process) → Contains undone.now m
        → receiving (message_at messages.now m) ≡ Some (p, q, Some i) → slice_get processes.now p ≡ Some v
        → slice_get v.history i ≡ Some (deed.Received m q) → Contains dead.new m) }
{
    for msg in undone.numbers() {
        let is_received = received_place(processes, messages, *msg).is_some();
        push_if(is_received, dead, *msg)?;
    }
    Ok(())
}
