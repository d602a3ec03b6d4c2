//! What an object offers of its value.

ghost use Rattle.std.specs.Prelude.{◌≡◌, ℕ, ℤ, List};
ghost use Rattle.kt_object.specs.Value.{after, offered};
ghost use Rattle.kt_machine.specs.Values.{Apply, Due, does, does_all, first_due};
ghost use Rattle.kt_report.specs.Exact.{rules_of_kind};
ghost use Rattle.kt_report.specs.Shown.{act_of, offers_of};

use kt_plan::Act;

/// What an object of a kind offers after one more message, from what it offered before.
fn offer_after(kind: u8, offer: i64, body: i64) -> i64
    ensures { (value : List ℤ) (from : ℕ) → offer ≡ offered kind value
        → result ≡ offered kind (after kind value from body) }
{
    match kind {
        0 => offer.saturating_add(body),
        _ => body,
    }
}

/// What the object of a process offers: where it is up, what it offers now; and what its tentative state, where there
/// is one, and its permanent one would offer.
#[derive(Clone, Copy)]
pub(crate) struct Offers {
    pub(crate) kind: u8,
    pub(crate) now: Option<i64>,
    pub(crate) tentative: Option<i64>,
    pub(crate) permanent: i64,
}

impl Offers {
    /// What a new object of a kind offers.
    pub(crate) fn new(kind: u8) -> Offers
        ensures { result ≡ offers_of kind (first_due (rules_of_kind kind)) }
    {
        Offers {
            kind,
            now: Some(0),
            tentative: None,
            permanent: 0,
        }
    }

    /// Its process does an act.
    #[inline(always)]
    pub(crate) fn act(&mut self, act: Act)
        ensures { (kind : ℕ) (d : Due (List ℤ)) → self.old ≡ offers_of kind d
            → self.new ≡ offers_of kind (does_all (rules_of_kind kind) d (act_of act)) }
    {
        match act {
            Act::Nothing => {}
            Act::Apply { body, .. } => self.take_in(body),
            Act::Keep => self.tentative = self.now,
            Act::Promote => {
                self.permanent = self.tentative.unwrap_or(self.permanent);
                self.tentative = None;
            }
            Act::Discard => self.tentative = None,
            Act::Restore => self.now = Some(self.permanent),
            Act::Drop => self.now = None,
        }
    }

    // It takes in a message, where it is up.
    #[inline(always)]
    fn take_in(&mut self, body: i64)
        ensures { (kind : ℕ) (d : Due (List ℤ)) (from : ℕ) → self.old ≡ offers_of kind d
            → self.new ≡ offers_of kind (does (rules_of_kind kind) d (Apply from body)) }
    {
        if let Some(offer) = self.now {
            self.now = Some(offer_after(self.kind, offer, body));
        }
    }
}
