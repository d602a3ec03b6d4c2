//! What was received before, in little room.

ghost use Rattle.std.specs.Prelude.{◌≡◌};

use kt_base::MsgNo;
use std::marker::Model;

/// A message's number, or none. It takes half the room of an `Option` of one.
#[derive(Clone, Copy)]
pub(crate) struct OptMsgNo {
    // 0 stands for none.
    number: u32,
}

impl Model for OptMsgNo {
    ghost use Rattle.std.specs.Prelude.{ℕ, Option, unwrap_or, ◌≤◌, ◌^◌};
    ghost use Rattle.kt_walk.specs.Positive.{if_positive};

    ghost Value = { Option ℕ };

    ghost view = { λ e. if_positive e.number };

    ghost invariant = { λ e. e.number ≤ 2 ^ 24 };

    ghost inverse = { λ o. record { number = unwrap_or o 0 } };
}

impl OptMsgNo {
    /// The number of this message, if there is one.
    pub(crate) fn of(msg: Option<MsgNo>) -> OptMsgNo
        ensures { result ≡ msg }
    {
        match msg {
            Some(msg) => OptMsgNo { number: msg.get() },
            None => OptMsgNo { number: 0 },
        }
    }

    /// The message, if there is one.
    pub(crate) fn get(self) -> Option<MsgNo>
        ensures { result ≡ self }
    {
        MsgNo::new(self.number)
    }
}
