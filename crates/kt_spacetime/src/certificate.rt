//! What a certificate says.

ghost use Rattle.std.specs.Prelude.{◌≡◌, [], ◌∷◌, ◌++◌, map, IfOk, OnOk, OnErr};

use kt_base::{InstNo, Kind, Memory, MsgNo, ProcNo};
use std::alloc::Global;
use std::marker::Model;

/// The numbers of the messages that lead from the initiator of an instance to a member.
#[derive(Debug, Drop)]
pub struct Chain {
    messages: Vec<MsgNo>,
}

impl Model for Chain {
    ghost use Rattle.std.specs.Prelude.{List, ℕ};

    ghost Value = { List ℕ };

    ghost view = { λ c. c.messages.items };
}

impl Chain {
    /// The chain with no message, as the initiator has it. It takes no memory.
    pub fn new(alloc: Global) -> Chain
        ensures { result ≡ [] }
    {
        Chain {
            messages: Vec::new(alloc),
        }
    }

    /// The chain with no message, which takes no more memory until it has more messages than `capacity`.
    pub fn with_capacity(alloc: Global, capacity: u32) -> Result<Chain, Memory>
        ensures { IfOk result (λ chain. chain ≡ []) }
    {
        Ok(Chain {
            messages: Vec::with_capacity(alloc, capacity as usize)?,
        })
    }

    /// Adds a message at the end.
    pub fn push(&mut self, msg: MsgNo) -> Result<(), Memory>
        ensures ok { OnOk result (self.new ≡ self.old ++ msg ∷ []) }
        ensures err { OnErr result (self.new ≡ self.old) }
    {
        self.messages.push(msg)?;
        Ok(())
    }

    /// This chain and one more message at its end, with room for no more.
    pub fn longer(&self, alloc: Global, msg: MsgNo) -> Result<Chain, Memory>
        ensures { IfOk result (λ longer. longer ≡ self.now ++ msg ∷ []) }
    {
        let mut messages = Vec::with_capacity(alloc, self.messages.len().saturating_add(1))?;
        messages.extend_from_slice(self.messages.as_slice())?;
        messages.push(msg)?;
        Ok(Chain { messages })
    }

    /// The messages in order.
    pub fn messages(&self) -> &[MsgNo]
        ensures { result.now ≡ self.now }
    {
        self.messages.as_slice()
    }
}

/// The members that a certificate lists, each with its chain.
#[derive(Debug, Drop)]
pub struct Members {
    list: Vec<(ProcNo, Chain)>,
}

impl Model for Members {
    ghost use Rattle.std.specs.Prelude.{List, ℕ};

    ghost Value = { List (ℕ × List ℕ) };

    ghost view = { λ m. m.list.items };
}

impl Members {
    /// No members, as an aborted instance has them. It takes no memory.
    pub fn new(alloc: Global) -> Members
        ensures { result ≡ [] }
    {
        Members {
            list: Vec::new(alloc),
        }
    }

    /// No members, with room for so many.
    pub fn with_capacity(alloc: Global, capacity: usize) -> Result<Members, Memory>
        ensures { IfOk result (λ members. members ≡ []) }
    {
        Ok(Members {
            list: Vec::with_capacity(alloc, capacity)?,
        })
    }

    /// Adds a member at the end.
    pub fn push(&mut self, process: ProcNo, chain: Chain) -> Result<(), Memory>
        ensures ok { OnOk result (self.new ≡ self.old ++ (process, chain) ∷ []) }
        ensures err { OnErr result (self.new ≡ self.old) }
    {
        self.list.push((process, chain))?;
        Ok(())
    }

    /// The members in order.
    pub fn list(&self) -> &[(ProcNo, Chain)]
        ensures { result.now ≡ self.now }
    {
        self.list.as_slice()
    }
}

/// What is claimed of one decided instance: what it was, how it was decided and, where it was committed, its members
/// in the order in which they joined, each with its chain.
#[derive(Debug, Drop)]
pub struct Certificate {
    pub inst: InstNo,
    pub kind: Kind,
    pub initiator: ProcNo,
    pub commit: bool,
    pub members: Members,
}
