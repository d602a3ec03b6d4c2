//! Lists of messages.

ghost use Rattle.std.specs.Prelude.{◌≡◌, ◌++◌, ◌∷◌, [], nat_le, nat_lt, find, slice_get, option_to_list, OnOk, OnErr, IfOk, IfNone, All, length};
ghost use Rattle.kt_rules.specs.Lists.{last_of, NumbersRise};

use kt_base::{Memory, MsgNo};
use std::alloc::Global;
use std::marker::Model;

/// A list of messages.
#[derive(Drop)]
pub(crate) struct Messages {
    numbers: Vec<MsgNo>,
}

impl Model for Messages {
    ghost use Rattle.std.specs.Prelude.{List, ℕ};

    ghost Value = { List ℕ };

    ghost view = { λ m. m.numbers.items };
}

impl Messages {
    /// The empty list.
    pub(crate) fn new(alloc: Global) -> Messages
        ensures { result ≡ [] }
    {
        Messages {
            numbers: Vec::new(alloc),
        }
    }

    /// The empty lists of a number of senders.
    pub(crate) fn of_many(alloc: Global, count: usize) -> Result<Vec<Messages>, Memory>
        ensures empty { IfOk result (λ lists. All (λ list. list ≡ []) lists.items) }
        ensures count { IfOk result (λ lists. length lists.items ≡ count) }
    {
        let mut lists = Vec::new(alloc);
        for _number in 0..count {
            lists.push(Messages::new(alloc))?;
        }
        Ok(lists)
    }

    /// Adds a message at the end.
    pub(crate) fn push(&mut self, msg: MsgNo) -> Result<(), Memory>
        ensures ok { OnOk result (self.new ≡ self.old ++ msg ∷ []) }
        ensures err { OnErr result (self.new ≡ self.old) }
    {
        self.numbers.push(msg)?;
        Ok(())
    }

    /// Takes the last message.
    pub(crate) fn pop(&mut self) -> Option<MsgNo>
        ensures last { self.old ≡ self.new ++ option_to_list result }
        ensures none { IfNone result (self.old ≡ []) }
    {
        self.numbers.pop()
    }

    /// The message at an index from 0.
    pub(crate) fn get(&self, index: usize) -> Option<MsgNo>
        ensures { result ≡ slice_get self.now index }
    {
        self.numbers.get(index).copied()
    }

    /// How many messages there are.
    pub(crate) fn len(&self) -> usize
        ensures { result ≡ length self.now }
    {
        self.numbers.len()
    }

    /// The last message.
    pub(crate) fn last(&self) -> Option<MsgNo>
        ensures { result ≡ last_of self.now }
    {
        self.numbers.last().copied()
    }

    /// The first message of a rising list that is not before this one.
    pub(crate) fn first_from(&self, msg: MsgNo) -> Option<MsgNo>
        ensures { NumbersRise self.now → result ≡ find (nat_le msg) self.now }
    {
        let index = self.numbers.as_slice().partition_point(
            |number: &MsgNo| -> bool
                ensures { result ≡ nat_lt number.now msg }
            { number.get() < msg.get() },
        );
        self.get(index)
    }

    /// The messages in order.
    pub(crate) fn numbers(&self) -> &[MsgNo]
        ensures { result.now ≡ self.now }
    {
        self.numbers.as_slice()
    }
}
