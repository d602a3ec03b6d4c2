//! The rules of a legal log.

ghost use Rattle.std.specs.Prelude.{◌≡◌};
ghost use Rattle.kt_spacetime.specs.Rules.{number_of};

use std::fmt;

/// The rules that each row of a legal log keeps, in the order in which they are tested.
#[derive(Clone, Copy, Debug, PartialEq, Eq)]
pub enum Rule {
    /// An instance that is named has begun, one that begins takes the next number; a peer is another process.
    Numbers,
    /// What is received or dropped was sent to this process, is live, and was neither received nor dropped.
    Message,
    /// A sender's messages are taken in the order in which they were sent.
    Order,
    /// Who sends is up and in no open instance.
    Sending,
    /// Who receives is up, who drops is down, and neither is in an open rollback.
    Receiving,
    /// Who joins is in no open instance, joins once, before the decision, as the kind asks; who begins joins first.
    Joining,
    /// The initiator decides once, while it is in its instance.
    Deciding,
    /// Who closes is in the instance, and that is decided.
    Closing,
    /// A failure and a refusal have the cause that they name.
    Causes,
}

impl Rule {
    /// The rule's number, 1 to 9.
    pub fn number(self) -> u8
        ensures { result ≡ number_of self }
    {
        match self {
            Rule::Numbers => 1,
            Rule::Message => 2,
            Rule::Order => 3,
            Rule::Sending => 4,
            Rule::Receiving => 5,
            Rule::Joining => 6,
            Rule::Deciding => 7,
            Rule::Closing => 8,
            Rule::Causes => 9,
        }
    }
}

impl fmt::Display for Rule {
    ghost use Rattle.std.specs.Prelude.{Some};
    ghost use Rattle.std.specs.Fmt.{decimal};
    ghost use Rattle.kt_spacetime.specs.Rules.{number_of};

    ghost output = { λ rule. Some (decimal (number_of rule)) };

    fn fmt<W: fmt::Write>(&self, f: &mut fmt::Formatter<W>) -> fmt::Result {
        self.number().fmt(f)
    }
}
