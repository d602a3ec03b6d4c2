//! Whom a process asks that joins an instance.

ghost use Rattle.std.specs.Prelude.{◌≡◌, ℕ, length};
ghost use Rattle.kt_base.specs.Sets.{has, count_of};
ghost use Rattle.kt_process.specs.Asks.{is_asked_in, AreRisingAsks};

use kt_base::{Label, ProcNo, ProcSet, members_in_range};
use std::marker::Model;

/// The processes to ask, by rising number, each with the label that its ask carries.
#[derive(Drop)]
pub struct Asks {
    pairs: Vec<(ProcNo, Label)>,
}

impl Model for Asks {
    ghost use Rattle.std.specs.Prelude.{List, ℕ};
    ghost use Rattle.kt_process.specs.Asks.{AreRisingAsks};

    ghost Value = { List (ℕ × ℕ) };

    ghost view = { λ a. a.pairs.items };

    ghost invariant = { λ a. AreRisingAsks a.pairs.items };
}

impl Asks {
    /// The asks of these pairs of a process and a label, which stand by rising process.
    pub fn new(pairs: Vec<(ProcNo, Label)>) -> Asks
        requires { AreRisingAsks pairs.items }
        ensures { result ≡ pairs.items }
    {
        Asks { pairs }
    }

    /// The pairs of a process and a label, in the order in which they go out.
    pub fn list(&self) -> &[(ProcNo, Label)]
        ensures asks { result.now ≡ self.now }
        ensures rising { AreRisingAsks result.now }
    {
        self.pairs.as_slice()
    }

    /// The processes that are asked, each once.
    pub(crate) fn targets(&self) -> ProcSet
        ensures members { (q : ℕ) → has result q ≡ is_asked_in self.now q }
        ensures count { count_of result ≡ length self.now }
        ensures rising { AreRisingAsks self.now }
    {
        members_in_range();
        targets_of(self.list())
    }
}

/// The processes of pairs.
fn targets_of(asks: &[(ProcNo, Label)]) -> ProcSet
    ensures { (q : ℕ) → has result q ≡ is_asked_in asks.now q }
{
    let mut targets = ProcSet::empty();
    for ask in asks {
        targets = targets.with(ask.0);
    }
    targets
}
