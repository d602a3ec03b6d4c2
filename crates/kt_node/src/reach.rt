//! How far messages go: the greatest labels.

ghost use Rattle.std.specs.Prelude.{◌≡◌, ◌∷◌, ◌++◌, [], ℕ, List, max};
ghost use Rattle.std.specs.List.{flat_map};
ghost use Rattle.kt_tables.specs.Calls.{Call, sent, received};
ghost use Rattle.kt_manager.specs.ShownActs.{act_shown, acts_shown};
ghost use Rattle.kt_node.specs.NodeHistories.{call_of_row, call_of_act};
ghost use Rattle.kt_node.specs.Reaches.{IsReach, HasReaches};
ghost use Rattle.kt_node.specs.Effects.{calls_of};

use kt_base::{Label, ProcNo};
use kt_manager::Effects;
use kt_plan::Act;
use kt_spacetime::{Count, NamedEvent};

/// How far messages go: the greatest label of its own that a process sent, and by its number the greatest that it received
/// of each process; 0 for none.
#[derive(Clone, Copy)]
pub struct Reach {
    pub sent: u64,
    pub received: [u64; 64],
}

/// How far the messages of a live history go, those that its last tentative checkpoint has, and its permanent one.
#[derive(Clone, Copy)]
pub struct Reaches {
    pub live: Reach,
    pub tentative: Reach,
    pub permanent: Reach,
}

impl Reach {
    /// No message.
    fn none() -> Reach
        ensures { IsReach result [] }
    {
        Reach {
            sent: 0,
            received: [0; 64],
        }
    }

    /// A message with this label is sent.
    fn send(&mut self, label: Count)
        ensures { (calls : List Call) (to : ℕ) → IsReach self.old calls →
            IsReach self.new (calls ++ sent to label ∷ []) }
    {
        self.sent = self.sent.max(label.get());
    }

    /// A message of a process with this label is received.
    fn receive(&mut self, from: ProcNo, label: Count)
        ensures { (calls : List Call) → IsReach self.old calls →
            IsReach self.new (calls ++ received from label ∷ []) }
    {
        let before = self.received[from.index()];
        self.received[from.index()] = before.max(label.get());
    }
}

impl Reaches {
    /// No message.
    pub(crate) fn none() -> Reaches
        ensures { HasReaches result [] }
    {
        let none = Reach::none();
        Reaches {
            live: none,
            tentative: none,
            permanent: none,
        }
    }

    /// How far the messages go that its permanent checkpoint has.
    pub(crate) fn permanent(&self) -> &Reach
        ensures { result.now ≡ self.now.permanent }
    {
        &self.permanent
    }

    /// A row is told.
    fn tell(&mut self, row: &NamedEvent)
        ensures { (calls : List Call) → HasReaches self.old calls →
            HasReaches self.new (calls ++ call_of_row row.now) }
    {
        match row {
            NamedEvent::Sent { label, .. } => self.live.send(*label),
            NamedEvent::Received { from, label } => self.live.receive(*from, *label),
            _ => {}
        }
    }

    /// An act is done.
    fn obey(&mut self, act: &Act)
        ensures { (calls : List Call) → HasReaches self.old calls →
            HasReaches self.new (calls ++ flat_map call_of_act (act_shown act.now)) }
    {
        match act {
            Act::Keep => self.tentative = self.live,
            Act::Promote => self.permanent = self.tentative,
            Act::Restore => self.live = self.permanent,
            Act::Nothing | Act::Apply { .. } | Act::Discard | Act::Drop => {}
        }
    }

    /// Some rows are told.
    fn tell_all(&mut self, rows: &[NamedEvent])
        ensures { (calls : List Call) → HasReaches self.old calls →
            HasReaches self.new (calls ++ flat_map call_of_row rows.now) }
    {
        for row in rows {
            self.tell(row);
        }
    }

    /// Some acts are done.
    fn obey_all(&mut self, acts: &[Act])
        ensures { (calls : List Call) → HasReaches self.old calls →
            HasReaches self.new (calls ++ flat_map call_of_act (acts_shown acts.now)) }
    {
        for act in acts {
            self.obey(act);
        }
    }

    /// A step is made: its rows are told, and then its acts are done.
    pub(crate) fn follow(&mut self, effects: &Effects)
        ensures { (calls : List Call) → HasReaches self.old calls →
            HasReaches self.new (calls ++ calls_of effects.now) }
    {
        self.tell_all(effects.rows());
        self.obey_all(effects.acts());
    }
}
