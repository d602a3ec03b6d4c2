//! The least orphan of a cut.

ghost use Rattle.std.specs.Prelude.{◌≡◌, ◌≤◌, ◌<◌, ◌↔◌, ◌==◌, ℕ, true, if◌then◌else◌, Some, None, List, Contains, IsTrue, IfSome, IfNone, find, nat_le, slice_index, slice_get};
ghost use Rattle.kt_spacetime.specs.declared.event.Event.{Event};
ghost use Rattle.kt_spacetime.specs.declared.deeds.Deed.TheVariants as deed;
ghost use Rattle.kt_meaning.specs.Past.{Past, past};
ghost use Rattle.kt_meaning.specs.Legal.{has_deed};
ghost use Rattle.kt_meaning.specs.Cuts.{IsOrphan};
ghost use Rattle.kt_rules.specs.Orphans.{IsOrphanBetween, IsAtMost, earlier, is_within};

use crate::histories::Histories;
use crate::replay::Replay;
use kt_base::{MsgNo, ProcNo};
use kt_rules::Cut;
use kt_rules::orphans::{earlier, if_wanted, is_within};

impl Histories {
    ghost use Rattle.kt_histories.specs.HistoriesOf.{HistoriesOf};

    /// The least orphan of a cut: a message that is received within its receiver's part and not sent within its
    /// sender's. No part is longer than the history.
    pub fn first_orphan(&self, cut: &Cut) -> Option<MsgNo>
        ensures none { IfNone result ((rows : List Event) (msg : ℕ) → HistoriesOf self.now rows
            → IsOrphan (past rows) (slice_index cut.now) msg → ⊥) }
        ensures orphan { IfSome result (λ msg. (rows : List Event) → HistoriesOf self.now rows
            → IsOrphan (past rows) (slice_index cut.now) msg) }
        ensures least { IfSome result (λ msg. (rows : List Event) (other : ℕ) → HistoriesOf self.now rows
            → IsOrphan (past rows) (slice_index cut.now) other → msg ≤ other) }
    {
        self.replay.first_orphan(cut)
    }
}

impl Replay {
    ghost use Rattle.kt_histories.specs.Standing.{ShowsPast};

    fn first_orphan(&self, cut: &Cut) -> Option<MsgNo>
        ensures orphan { IfSome result (λ msg. (s : Past) → ShowsPast self.now s → (p : ℕ) × (q : ℕ)
            × IsOrphanBetween s (slice_index cut.now) p q msg) }
        ensures least { (s : Past) (p q msg : ℕ) → ShowsPast self.now s
            → IsOrphanBetween s (slice_index cut.now) p q msg → IsAtMost result msg }
    {
        let mut least = self.first_dead(cut);
        for number in 0..ProcNo::COUNT {
            least = earlier(least, self.first_of_receiver(cut, ProcNo::nth(number)));
        }
        least
    }

    // The least orphan of those that were undone.
    fn first_dead(&self, cut: &Cut) -> Option<MsgNo>
        ensures orphan { IfSome result (λ msg. (s : Past) → ShowsPast self.now s → (p : ℕ) × (q : ℕ)
            × IsOrphanBetween s (slice_index cut.now) p q msg) }
        ensures least { (s : Past) (p q msg : ℕ) → ShowsPast self.now s → Contains self.now.dead msg
            → IsOrphanBetween s (slice_index cut.now) p q msg → IsAtMost result msg }
    {
        let mut least = None;
        for msg in self.dead.numbers() {
            least = earlier(least, if_wanted(self.is_orphan(cut, *msg), *msg));
        }
        least
    }

    // The least orphan that a process received and whose send is live.
    fn first_of_receiver(&self, cut: &Cut, p: ProcNo) -> Option<MsgNo>
        ensures orphan { IfSome result (λ msg. (s : Past) → ShowsPast self.now s → (q : ℕ)
            × IsOrphanBetween s (slice_index cut.now) p q msg) }
        ensures least { (s : Past) (q msg : ℕ) → ShowsPast self.now s
            → IsOrphanBetween s (slice_index cut.now) p q msg → has_deed (deed.Sent msg p) (s.live q) ≡ true
            → IsAtMost result msg }
    {
        let mut least = None;
        for number in 0..ProcNo::COUNT {
            least = earlier(least, self.first_between(cut, p, ProcNo::nth(number)));
        }
        least
    }

    // The least orphan that a process received from a sender and whose send is live.
    fn first_between(&self, cut: &Cut, p: ProcNo, q: ProcNo) -> Option<MsgNo>
        ensures orphan { IfSome result (λ msg. (s : Past) → ShowsPast self.now s
            → IsOrphanBetween s (slice_index cut.now) p q msg) }
        ensures least { (s : Past) (msg : ℕ) → ShowsPast self.now s
            → IsOrphanBetween s (slice_index cut.now) p q msg → has_deed (deed.Sent msg p) (s.live q) ≡ true
            → IsAtMost result msg }
    {
        let sender = self.process(q);
        let receiver = self.process(p);
        let Some(first_unsent) = sender.history.first_sent_past(cut.length(q)) else {
            return None;
        };
        let Some(msg) = receiver.history.first_received_from(q, first_unsent) else {
            return None;
        };
        if self.is_received_within(cut, p, msg) {
            Some(msg)
        } else {
            None
        }
    }

    // Whether a message stands in the part of its receiver.
    fn is_received_within(&self, cut: &Cut, p: ProcNo, msg: MsgNo) -> bool
        ensures { (s : Past) (q i : ℕ) → ShowsPast self.now s → slice_get (s.live p) i ≡ Some (deed.Received msg q)
            → (IsTrue result ↔ (i < slice_index cut.now p)) }
    {
        let Some(message) = self.message(msg) else {
            return false;
        };
        let Some(place) = message.received else {
            return false;
        };
        place < cut.length(p)
    }

    // Whether a message is an orphan.
    fn is_orphan(&self, cut: &Cut, msg: MsgNo) -> bool
        ensures { (s : Past) → ShowsPast self.now s → (IsTrue result
            ↔ ((p : ℕ) × (q : ℕ) × IsOrphanBetween s (slice_index cut.now) p q msg)) }
    {
        let Some(message) = self.message(msg) else {
            return false;
        };
        let sent = self.sent_place(msg, &message);
        let received = self.received_place(msg, &message);
        let is_received = is_within(received, cut.length(message.to));
        let is_sent = is_within(sent, cut.length(message.from));
        is_received && !is_sent
    }
}
