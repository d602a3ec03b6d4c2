//! The saved states that a process keeps.

ghost use Rattle.std.specs.Prelude.{◌≡◌, Some, None, IsSome};
ghost use Rattle.std.specs.Option.{option_map};

use std::marker::Model;

/// A permanent saved state, and perhaps a tentative one.
#[derive(Drop)]
pub struct Depot {
    permanent: Vec<u8>,
    tentative: Option<Vec<u8>>,
}

impl Model for Depot {
    ghost use Rattle.std.specs.Option.{option_map};
    ghost use Rattle.kt_object.specs.SavedStates.{SavedStates};

    ghost Value = { SavedStates };

    ghost view = { λ d. record {
      permanent = d.permanent.items;
      tentative = option_map (λ saved. saved.items) d.tentative;
    } };
}

impl Depot {
    /// A depot with this permanent saved state and no tentative one.
    pub fn new(saved: Vec<u8>) -> Depot
        ensures { result ≡ record { permanent = saved.items; tentative = None } }
    {
        Depot {
            permanent: saved,
            tentative: None,
        }
    }

    /// Keeps a tentative saved state; there is none yet.
    pub fn keep_tentative(&mut self, saved: Vec<u8>)
        requires { self.old.tentative ≡ None }
        ensures { self.new ≡ record self.old { tentative = Some saved.items } }
    {
        self.tentative = Some(saved);
    }

    /// Makes the tentative saved state the permanent one.
    pub fn promote(&mut self)
        requires { IsSome self.old.tentative }
        ensures permanent { self.old.tentative ≡ Some self.new.permanent }
        ensures tentative { self.new.tentative ≡ None }
    {
        if let Some(saved) = self.tentative.take() {
            self.permanent = saved;
        }
    }

    /// Forgets the tentative saved state.
    pub fn discard(&mut self)
        requires { IsSome self.old.tentative }
        ensures { self.new ≡ record self.old { tentative = None } }
    {
        self.tentative = None;
    }

    /// The permanent saved state.
    pub fn permanent(&self) -> &[u8]
        ensures { result.now ≡ self.now.permanent }
    {
        self.permanent.as_slice()
    }

    /// The tentative saved state; None where none is kept.
    pub fn tentative(&self) -> Option<&[u8]>
        ensures { option_map (λ saved. saved.now) result ≡ self.now.tentative }
    {
        self.tentative.as_ref().map(|saved| saved.as_slice())
    }
}
