//! How what comes is met, before the manager takes it.

ghost use Rattle.std.specs.Prelude.{◌≡◌, length};
ghost use Rattle.kt_node.specs.Meetings.{held_label, held_of, is_far, is_far_message, is_leap, is_stale, is_stale_held, last_label, meeting_of, received_label};

use crate::node::{Envelope, Node, NodeFault};
use kt_base::ProcNo;
use kt_manager::NodeParcel;

/// How far a clock or a label may be above the one that a node has: 2^40.
const FAR: u64 = 1_099_511_627_776;

impl Node {
    /// Whether a parcel that comes of a process is the next one, or came before; else why it is refused.
    pub(crate) fn meet(&self, from: ProcNo, envelope: &Envelope) -> Result<bool, NodeFault>
        ensures { result ≡ meeting_of self.now from envelope.now }
    {
        if envelope.from.get() != from.get() || envelope.to.get() != self.manager().me().get() {
            return Err(NodeFault::Astray);
        }
        let next = self.next(from);
        if envelope.number < next {
            return Ok(false);
        }
        if envelope.number > next {
            return Err(NodeFault::Gap(next));
        }
        if self.is_leap(from, envelope) {
            return Err(NodeFault::Leap);
        }
        if is_stale(self.last_label(from), &envelope.parcel) {
            return Err(NodeFault::Stale);
        }
        Ok(true)
    }

    /// Whether the clock of a parcel of a process is too far above its own, or the label of its message above both the last one
    /// of the process and its own.
    fn is_leap(&self, from: ProcNo, envelope: &Envelope) -> bool
        ensures { result ≡ is_leap self.now from envelope.now }
    {
        let had = self
            .last_label(from)
            .max(self.manager().process().used().get());
        is_far(self.clock(), envelope.clock) || is_far_message(had, &envelope.parcel)
    }

    /// Whether the first message that it holds of a process does not rise above those that it received.
    pub(crate) fn is_stale_held(&self, from: ProcNo) -> bool
        ensures { result ≡ is_stale_held self.now from }
    {
        let label = self.held_label(from, 0);
        label != 0 && label <= self.received_label(from)
    }

    /// The last label that it has of a process.
    fn last_label(&self, from: ProcNo) -> u64
        ensures { result ≡ last_label self.now from }
    {
        let last = self.held_count(from).saturating_sub(1);
        self.received_label(from).max(self.held_label(from, last))
    }

    /// The greatest label that its live history received of a process.
    fn received_label(&self, from: ProcNo) -> u64
        ensures { result ≡ received_label self.now from }
    {
        self.reaches().live.received[from.index()]
    }

    /// How many messages it holds of a process.
    fn held_count(&self, from: ProcNo) -> usize
        ensures { result ≡ length (held_of self.now from) }
    {
        let inbox = self.manager().inbox();
        if from.index() >= inbox.processes() {
            return 0;
        }
        inbox.len(from) - inbox.kept_count(from)
    }

    /// The label at a place of what it holds of a process, 0 for none.
    fn held_label(&self, from: ProcNo, place: usize) -> u64
        ensures { result ≡ held_label self.now from place }
    {
        let inbox = self.manager().inbox();
        let held = self.held_count(from);
        if place >= held {
            return 0;
        }
        let kept = inbox.len(from) - held;
        let behind = kept + place;
        match inbox.get(from, behind) {
            Some(item) => item.label.get(),
            None => 0,
        }
    }
}

/// Whether a number is too far above the one that a node has.
fn is_far(had: u64, came: u64) -> bool
    ensures { result ≡ is_far had came }
{
    came.saturating_sub(had) > FAR
}

/// Whether a message has a label that is too far above this one.
fn is_far_message(had: u64, parcel: &NodeParcel) -> bool
    ensures { result ≡ is_far_message had parcel.now }
{
    match parcel {
        NodeParcel::App { label, .. } => is_far(had, label.get()),
        NodeParcel::Ask { .. } | NodeParcel::Reply { .. } | NodeParcel::Decide { .. } => false,
    }
}

/// Whether a message has a label that does not rise above this one.
fn is_stale(last: u64, parcel: &NodeParcel) -> bool
    ensures { result ≡ is_stale last parcel.now }
{
    match parcel {
        NodeParcel::App { label, .. } => label.get() <= last,
        NodeParcel::Ask { .. } | NodeParcel::Reply { .. } | NodeParcel::Decide { .. } => false,
    }
}
