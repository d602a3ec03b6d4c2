//! What a live history is made of.

use kt_base::{MsgNo, ProcNo};

/// A send or a receive in a process's live history: the message, by the number of its `sent` row, and the other
/// process.
#[derive(Clone, Copy, PartialEq, Eq)]
pub enum Deed {
    Sent { msg: MsgNo, to: ProcNo },
    Received { msg: MsgNo, from: ProcNo },
}
