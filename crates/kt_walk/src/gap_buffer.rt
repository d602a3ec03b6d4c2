//! Messages in a list with a cursor.

ghost use Rattle.std.specs.Prelude.{◌≡◌, ◌+◌, ◌<◌, ◌≤◌, ◌++◌, ◌∷◌, [], ℕ, true, false, nat_lt, length, remove, insert, take, drop, slice_get, vec_len, vec_capacity, Some, OnOk, OnErr};
ghost use Rattle.std.specs.VecDeque.{deque_len, deque_capacity};
ghost use Rattle.kt_walk.specs.declared.in_transit.Sent.{Sent};
ghost use Rattle.kt_walk.specs.TransitList.{IsBySend, Belongs, AreSentBefore};
ghost use Rattle.kt_walk.specs.Marks.{pick, AreRisingMessages};

use crate::counts::Counts;
use crate::in_transit::Sent;
use kt_base::{Memory, MsgNo};
use std::alloc::Global;
use std::collections::VecDeque;
use std::marker::Model;

// Room for so many messages is kept. Most lists have few at a time, and would give it back and ask for it again.
const FEW: usize = 4;

/// Messages in transit from one process to another, in the order of their sends. There is a cursor among them: what
/// happens just there takes no time that grows with their number.
#[derive(Drop)]
pub(crate) struct GapBuffer {
    // Those before the cursor.
    passed: Vec<Sent>,
    // Those after it, with room for all.
    next: VecDeque<Sent>,
}

impl Model for GapBuffer {
    ghost use Rattle.std.specs.Prelude.{◌+◌, ◌≤◌, ◌++◌, vec_len};
    ghost use Rattle.std.specs.VecDeque.{deque_len, deque_capacity};
    ghost use Rattle.kt_walk.specs.TransitList.{TransitList};

    ghost Value = { TransitList };

    ghost view = { λ w. record { messages = w.passed.items ++ w.next.items; room = deque_capacity w.next } };

    ghost invariant = { λ w. vec_len w.passed + deque_len w.next ≤ deque_capacity w.next };
}

impl GapBuffer {
    /// No messages. It takes no memory.
    pub(crate) fn new(alloc: Global) -> GapBuffer
        ensures { result.messages ≡ [] }
    {
        GapBuffer {
            passed: Vec::new(alloc),
            next: VecDeque::new(alloc),
        }
    }

    /// How many messages there are.
    #[inline(always)]
    pub(crate) fn len(&self) -> usize
        ensures length { result ≡ length self.now.messages }
        ensures room { result ≤ self.now.room }
    {
        self.passed.len() + self.next.len()
    }

    /// The message at this place in their order.
    #[inline(always)]
    pub(crate) fn get(&self, index: usize) -> Option<Sent>
        ensures { result ≡ slice_get self.now.messages index }
    {
        if index < self.passed.len() {
            self.passed.get(index).copied()
        } else {
            self.next.get(index - self.passed.len()).copied()
        }
    }

    /// Makes room for so many more; where there is too little, for twice as many, so that this is seldom.
    #[inline(always)]
    pub(crate) fn reserve(&mut self, additional: usize) -> Result<(), Memory>
        ensures messages { self.new.messages ≡ self.old.messages }
        ensures room { self.old.room ≤ self.new.room }
        ensures ok { OnOk result (length self.new.messages + additional ≤ self.new.room) }
        ensures full { OnErr result (self.old.room < length self.old.messages + additional) }
    {
        let wanted = self.passed.len().saturating_add(additional);
        if self.next.capacity() - self.next.len() < wanted {
            self.next.reserve(wanted.saturating_mul(2))?;
        }
        Ok(())
    }

    /// Gives back the room that is not needed for the messages and so many more, where there is room for more than a few.
    pub(crate) fn shrink(&mut self, additional: usize)
        ensures messages { self.new.messages ≡ self.old.messages }
        ensures room { length self.old.messages + additional ≤ self.old.room
            → length self.new.messages + additional ≤ self.new.room }
    {
        if self.passed.capacity() > FEW {
            self.passed.shrink_to_fit();
        }
        if self.next.capacity() > FEW {
            let wanted = self.len().saturating_add(additional);
            self.next.shrink_to(wanted);
        }
    }

    /// Adds a message at the end, where there is room.
    #[inline(always)]
    pub(crate) fn push(&mut self, message: Sent)
        requires { length self.old.messages < self.old.room }
        ensures { self.new ≡ record self.old { messages = self.old.messages ++ message ∷ [] } }
    {
        self.next.push_back_reserved(message);
    }

    /// Takes the message at this place, and sets the cursor there; unchanged where there is no memory.
    #[inline(always)]
    pub(crate) fn take(&mut self, index: usize) -> Result<(), Memory>
        requires { index < length self.old.messages }
        ensures ok { OnOk result (self.new ≡ record self.old { messages = remove self.old.messages index }) }
        ensures err { OnErr result (self.new ≡ self.old) }
    {
        seek(&mut self.passed, &mut self.next, index)?;
        pop_first(&mut self.next);
        Ok(())
    }

    /// Puts a message at this place, in room made beforehand. The cursor is set there, for those that are put before it;
    /// where there is no memory for that, it stays, and all that stand between are moved.
    pub(crate) fn insert(&mut self, index: usize, message: Sent)
        requires within { index ≤ length self.old.messages }
        requires room { length self.old.messages < self.old.room }
        ensures messages { self.new.messages ≡ insert self.old.messages index message }
        ensures room { self.old.room ≤ self.new.room }
    {
        let _ = seek(&mut self.passed, &mut self.next, index);
        let cursor = self.passed.len();
        if index == cursor {
            self.next.push_front_reserved(message);
        } else {
            self.next.insert(index - cursor, message).unwrap();
        }
    }

    /// Keeps the first so many messages alone.
    pub(crate) fn truncate(&mut self, count: usize)
        ensures { self.new ≡ record self.old { messages = take count self.old.messages } }
    {
        self.next.truncate(count.saturating_sub(self.passed.len()));
        self.passed.truncate(count);
    }

    /// How many messages were sent before this place in their sender's history, which counts from 0.
    pub(crate) fn count_before(&self, place: usize) -> usize
        ensures { IsBySend self.now.messages → AreSentBefore place self.now.messages result }
    {
        let passed = count_sent_before(&self.passed, place);
        if passed < self.passed.len() {
            passed
        } else {
            passed + count_next_sent_before(&self.next, place)
        }
    }

    /// Whether there is room for one more.
    pub(crate) fn has_room(&self) -> bool
        ensures { result ≡ true → length self.now.messages < self.now.room }
    {
        self.len() < self.next.capacity()
    }

    /// Keeps those whose marks are set.
    pub(crate) fn keep(&mut self, marks: &Counts)
        requires { length self.old.messages ≤ length marks.now.marks }
        ensures { self.new ≡ record self.old { messages = pick marks.now.marks self.old.messages } }
    {
        let cursor = self.passed.len();
        move_back(&mut self.passed, &mut self.next, cursor);
        keep_marked(&mut self.next, marks);
    }

    /// Whether the numbers rise.
    pub(crate) fn is_rising(&self) -> bool
        ensures { result ≡ true → AreRisingMessages self.now.messages }
    {
        for index in 1..self.len() {
            if !are_in_order(self.get(index - 1), self.get(index)) {
                return false;
            }
        }
        true
    }

    /// Where a message belongs.
    #[inline(never)]
    pub(crate) fn place_of(&self, msg: MsgNo) -> usize
        ensures within { result ≤ length self.now.messages }
        ensures belongs { AreRisingMessages self.now.messages → Belongs msg self.now.messages result }
    {
        if begins_below(&self.next, msg) {
            self.passed.len() + count_next_below(&self.next, msg)
        } else {
            count_below(&self.passed, msg)
        }
    }
}

// Whether the first message has a lower number.
fn begins_below(messages: &VecDeque<Sent>, msg: MsgNo) -> bool
    ensures below { result ≡ true → (a : Sent) × (slice_get messages.now.items 0 ≡ Some a) × (a.msg < msg) }
    ensures not_below { result ≡ false → (a : Sent) → slice_get messages.now.items 0 ≡ Some a → msg ≤ a.msg }
{
    match messages.front() {
        Some(first) => first.msg.get() < msg.get(),
        None => false,
    }
}

// Whether the last message has a lower number, or there is none.
fn ends_below(messages: &[Sent], msg: MsgNo) -> bool
    ensures { result ≡ true → AreRisingMessages messages.now → (k : ℕ) (a : Sent) → slice_get messages.now k ≡ Some a
        → a.msg < msg }
{
    match messages.last() {
        Some(last) => last.msg.get() < msg.get(),
        None => true,
    }
}

// How many messages have lower numbers.
fn count_next_below(messages: &VecDeque<Sent>, msg: MsgNo) -> usize
    ensures within { result ≤ length messages.now.items }
    ensures belongs { AreRisingMessages messages.now.items → Belongs msg messages.now.items result }
{
    messages.partition_point(
        |message: &Sent| -> bool
            ensures { result ≡ nat_lt message.now.msg msg }
        { message.msg.get() < msg.get() },
    )
}

// The same. It looks at the last one first.
fn count_below(messages: &[Sent], msg: MsgNo) -> usize
    ensures within { result ≤ length messages.now }
    ensures belongs { AreRisingMessages messages.now → Belongs msg messages.now result }
{
    if ends_below(messages, msg) {
        return messages.len();
    }
    messages.partition_point(
        |message: &Sent| -> bool
            ensures { result ≡ nat_lt message.now.msg msg }
        { message.msg.get() < msg.get() },
    )
}

// How many messages were sent before this place.
fn count_sent_before(messages: &[Sent], place: usize) -> usize
    ensures within { result ≤ length messages.now }
    ensures before { IsBySend messages.now → AreSentBefore place messages.now result }
{
    messages.partition_point(
        |message: &Sent| -> bool
            ensures { result ≡ nat_lt message.now.place place }
        { (message.place as usize) < place },
    )
}

// The same.
fn count_next_sent_before(messages: &VecDeque<Sent>, place: usize) -> usize
    ensures within { result ≤ length messages.now.items }
    ensures before { IsBySend messages.now.items → AreSentBefore place messages.now.items result }
{
    messages.partition_point(
        |message: &Sent| -> bool
            ensures { result ≡ nat_lt message.now.place place }
        { (message.place as usize) < place },
    )
}

// Sets the cursor to this place; where there is no memory, it stays.
#[inline(always)]
fn seek(passed: &mut Vec<Sent>, next: &mut VecDeque<Sent>, index: usize) -> Result<(), Memory>
    requires within { index ≤ vec_len passed.old + deque_len next.old }
    requires room { vec_len passed.old + deque_len next.old ≤ deque_capacity next.old }
    ensures messages { passed.new.items ++ next.new.items ≡ passed.old.items ++ next.old.items }
    ensures cursor { OnOk result (vec_len passed.new ≡ index) }
    ensures before { vec_len passed.new ≤ index }
    ensures count { vec_len passed.new + deque_len next.new ≡ vec_len passed.old + deque_len next.old }
    ensures capacity { deque_capacity next.new ≡ deque_capacity next.old }
{
    let cursor = passed.len();
    if index == cursor {
        return Ok(());
    }
    if index < cursor {
        move_back(passed, next, cursor - index);
    } else {
        passed.reserve(index - cursor)?;
        move_on(passed, next, index - cursor);
    }
    Ok(())
}

// Takes the first message. A lone one is taken as the last, so that the next one comes to its place in memory.
#[inline(always)]
fn pop_first(next: &mut VecDeque<Sent>)
    requires { 0 < deque_len next.old }
    ensures rest { next.new.items ≡ drop 1 next.old.items }
    ensures len { deque_len next.new + 1 ≡ deque_len next.old }
    ensures capacity { deque_capacity next.new ≡ deque_capacity next.old }
{
    if next.len() == 1 {
        next.pop_back();
    } else {
        next.pop_front();
    }
}

// Moves the cursor on past so many messages.
fn move_on(passed: &mut Vec<Sent>, next: &mut VecDeque<Sent>, count: usize)
    requires within { count ≤ deque_len next.old }
    requires room { vec_len passed.old + count ≤ vec_capacity passed.old }
    ensures messages { passed.new.items ++ next.new.items ≡ passed.old.items ++ next.old.items }
    ensures cursor { vec_len passed.new ≡ vec_len passed.old + count }
    ensures rest { deque_len next.new + count ≡ deque_len next.old }
    ensures capacity { deque_capacity next.new ≡ deque_capacity next.old }
{
    for _ in 0..count {
        if let Some(message) = next.pop_front() {
            passed.push_reserved(message);
        }
    }
}

// Moves the cursor back over so many messages.
fn move_back(passed: &mut Vec<Sent>, next: &mut VecDeque<Sent>, count: usize)
    requires within { count ≤ vec_len passed.old }
    requires room { deque_len next.old + count ≤ deque_capacity next.old }
    ensures messages { passed.new.items ++ next.new.items ≡ passed.old.items ++ next.old.items }
    ensures cursor { vec_len passed.new + count ≡ vec_len passed.old }
    ensures rest { deque_len next.new ≡ deque_len next.old + count }
    ensures capacity { deque_capacity next.new ≡ deque_capacity next.old }
{
    for _ in 0..count {
        if let Some(message) = passed.pop() {
            next.push_front_reserved(message);
        }
    }
}

// Whether the first number is the lower one.
fn are_in_order(first: Option<Sent>, second: Option<Sent>) -> bool
    ensures { result ≡ true → (a b : Sent) → first ≡ Some a → second ≡ Some b → a.msg < b.msg }
{
    match (first, second) {
        (Some(first), Some(second)) => first.msg.get() < second.msg.get(),
        _ => true,
    }
}

// Keeps those whose marks are set.
fn keep_marked(messages: &mut VecDeque<Sent>, marks: &Counts)
    requires { deque_len messages.old ≤ length marks.now.marks }
    ensures messages { messages.new.items ≡ pick marks.now.marks messages.old.items }
    ensures len { deque_len messages.new ≤ deque_len messages.old }
    ensures capacity { deque_capacity messages.new ≡ deque_capacity messages.old }
{
    for index in 0..messages.len() {
        if let Some(message) = messages.pop_front() {
            if marks.get(index) {
                messages.push_back_reserved(message);
            }
        }
    }
}
