//! What comes to a node, in numbers.

ghost use Rattle.std.specs.Prelude.{◌≡◌};
ghost use Rattle.koo_toueg_c.specs.NodeNumbers.{input_meant, truth_meant};

use crate::node::parcel::{KtParcel, kind_meant, process_meant};
use kt_node::Input;

/// What comes to a node, in numbers. Those that its kind does not name are not read; where one says yes or no, 0 is no.
#[repr(C)]
#[derive(Clone, Copy)]
pub struct KtInput {
    /// 1 it is to send a message, 2 it is to begin an instance, 3 its object fails, 4 it is to take the first message that it
    /// holds of a process, 5 a parcel of a process comes.
    pub kind: u32,
    /// The process, 0 to 63: to which it sends, of which it takes, or of which a parcel comes.
    pub peer: u32,
    /// Whether the instance that it begins is a rollback.
    pub rollback: u32,
    /// Whether its object can be saved, where it begins an instance or a parcel comes.
    pub able: u32,
    /// The body of the message that it sends.
    pub body: i64,
    /// The parcel.
    pub parcel: KtParcel,
}

impl KtInput {
    /// What its numbers mean, if they mean something.
    pub(crate) fn meant(&self) -> Option<Input>
        ensures { result ≡ input_meant self.now }
    {
        match self.kind {
            1 => Some(Input::Send {
                to: process_meant(self.peer)?,
                body: self.body,
            }),
            2 => Some(Input::Begin(kind_meant(self.rollback))),
            3 => Some(Input::Fail),
            4 => Some(Input::Redeliver(process_meant(self.peer)?)),
            5 => Some(Input::Deliver {
                from: process_meant(self.peer)?,
                envelope: self.parcel.envelope()?,
            }),
            _ => None,
        }
    }

    /// Whether its object can be saved.
    pub(crate) fn is_able(&self) -> bool
        ensures { result ≡ truth_meant self.now.able }
    {
        self.able != 0
    }
}
