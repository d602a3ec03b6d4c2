//! Messages in transit.

ghost use Rattle.std.specs.Prelude.{◌≡◌, ◌+◌, ◌<◌, ◌≤◌, ◌++◌, ◌∷◌, [], ℕ, true, false, length, remove, take, slice_get, slice_index_or, Some, IfSome, IfNone, OnOk, OnErr};
ghost use Rattle.kt_walk.specs.declared.in_transit.Sent.{Sent};
ghost use Rattle.kt_walk.specs.Marks.{pick, shown, HasMarkOfEach, AreRisingMessages};
ghost use Rattle.kt_walk.specs.TransitList.{IsBySend, Belongs, IsPutBack, AreSentBefore};

use crate::counts::Counts;
use crate::gap_buffer::GapBuffer;
use kt_base::{Memory, MsgNo};
use std::alloc::Global;
use std::marker::Model;

/// A message in transit, and the place of its send in the sender's live history, which counts from 0.
#[derive(Clone, Copy)]
pub struct Sent {
    pub msg: MsgNo,
    pub place: u32,
}

// So many slots are not marked; they are more than messages have numbers.
const MOST_MARKED: usize = 100_000_000;

/// Messages in transit from one process to another, in the order of their sends. While they are taken from the front,
/// a call takes no time that grows with their number. Once one is taken out of its turn, a call takes a logarithm of
/// it: what is taken leaves its slot then, and is put back there.
#[derive(Drop)]
pub struct InTransit {
    slots: GapBuffer,
    // A mark for each slot that has a message in transit. No marks: all have.
    marks: Counts,
}

impl Model for InTransit {
    ghost use Rattle.std.specs.Prelude.{◌<◌, length};
    ghost use Rattle.kt_walk.specs.TransitList.{TransitList};
    ghost use Rattle.kt_walk.specs.Marks.{shown, HasMarkOfEach};

    ghost Value = { TransitList };

    ghost view = { λ w. record { messages = shown w.marks.marks w.slots.messages; room = w.slots.room } };

    ghost invariant = { λ w. 0 < length w.marks.marks → HasMarkOfEach w.marks.marks w.slots.messages };
}

impl InTransit {
    /// No messages. It takes no memory.
    pub fn new(alloc: Global) -> InTransit
        ensures { result.messages ≡ [] }
    {
        InTransit {
            slots: GapBuffer::new(alloc),
            marks: Counts::new(alloc),
        }
    }

    /// How many messages there are.
    #[inline(always)]
    pub fn len(&self) -> usize
        ensures length { result ≡ length self.now.messages }
        ensures room { result ≤ self.now.room }
    {
        let slots = self.slots.len();
        if self.marks.is_empty() {
            slots
        } else {
            self.marks.total()
        }
    }

    /// The message at this place in their order.
    #[inline(always)]
    pub fn get(&self, index: usize) -> Option<Sent>
        ensures { result ≡ slice_get self.now.messages index }
    {
        if self.marks.is_empty() {
            self.slots.get(index)
        } else {
            get_marked(&self.slots, &self.marks, index)
        }
    }

    /// Makes room for so many more; where there is too little, for twice as many, so that this is seldom.
    #[inline(always)]
    pub fn reserve(&mut self, additional: usize) -> Result<(), Memory>
        ensures messages { self.new.messages ≡ self.old.messages }
        ensures room { self.old.room ≤ self.new.room }
        ensures ok { OnOk result (length self.new.messages + additional ≤ self.new.room) }
        ensures full { OnErr result (self.old.room < length self.old.messages + additional) }
    {
        if !self.marks.is_empty() && reserve_marked(&mut self.slots, &mut self.marks, additional) {
            return Ok(());
        }
        self.slots.reserve(additional)
    }

    /// Gives back the room that is not needed for the messages and so many more, where there is room for more than a few.
    pub fn shrink(&mut self, additional: usize)
        ensures messages { self.new.messages ≡ self.old.messages }
        ensures room { length self.old.messages + additional ≤ self.old.room
            → length self.new.messages + additional ≤ self.new.room }
    {
        if !self.marks.is_empty() {
            drop_taken(&mut self.slots, &mut self.marks);
        }
        self.slots.shrink(additional);
    }

    /// Adds a message at the end, where there is room.
    #[inline(always)]
    pub fn push(&mut self, message: Sent)
        requires { length self.old.messages < self.old.room }
        ensures { self.new ≡ record self.old { messages = self.old.messages ++ message ∷ [] } }
    {
        if !self.marks.is_empty() {
            mark_next(&mut self.slots, &mut self.marks, message.msg);
        }
        self.slots.push(message);
    }

    /// The place of a message in their order.
    #[inline(always)]
    pub fn find(&self, msg: MsgNo) -> Option<usize>
        ensures within { IfSome result (λ index. index < length self.now.messages) }
        ensures found { IfSome result (λ index. (a : Sent) × (slice_get self.now.messages index ≡ Some a)
            × (a.msg ≡ msg)) }
        ensures none { IfNone result (IsBySend self.now.messages → (k : ℕ) (a : Sent)
            → slice_get self.now.messages k ≡ Some a → a.msg ≡ msg → ⊥) }
    {
        let index = self.place_of(msg);
        let message = self.get(index)?;
        if message.msg.get() == msg.get() {
            Some(index)
        } else {
            None
        }
    }

    /// Takes the message at this place; unchanged where there is no memory.
    pub fn take(&mut self, index: usize) -> Result<(), Memory>
        requires { index < length self.old.messages }
        ensures ok { OnOk result (self.new ≡ record self.old { messages = remove self.old.messages index }) }
        ensures err { OnErr result (self.new ≡ self.old) }
    {
        begin_marks(&self.slots, &mut self.marks, index)?;
        if self.marks.is_empty() {
            self.slots.take(index)
        } else {
            let slot = self.marks.place_of(index);
            self.marks.put(slot, false);
            Ok(())
        }
    }

    /// Puts a message back where it belongs, in room made beforehand.
    pub fn put_back(&mut self, message: Sent)
        requires { length self.old.messages < self.old.room }
        ensures messages { IsPutBack message self.old.messages self.new.messages }
        ensures room { self.old.room ≤ self.new.room }
    {
        if !self.marks.is_empty() {
            put_back_marked(&mut self.slots, &mut self.marks, message);
        } else {
            let index = self.slots.place_of(message.msg);
            self.slots.insert(index, message);
        }
    }

    /// Keeps the first so many messages alone.
    pub fn truncate(&mut self, count: usize)
        ensures { self.new ≡ record self.old { messages = take count self.old.messages } }
    {
        if self.marks.is_empty() {
            self.slots.truncate(count);
        } else if count < self.marks.total() {
            let slot = self.marks.place_of(count);
            cut_marks(&mut self.marks, slot, self.slots.len());
            self.slots.truncate(slot);
        }
    }

    /// How many messages were sent before this place in their sender's history, which counts from 0.
    pub fn count_before(&self, place: usize) -> usize
        ensures { IsBySend self.now.messages → AreSentBefore place self.now.messages result }
    {
        if self.marks.is_empty() {
            self.slots.count_before(place)
        } else {
            count_marked_before(&self.slots, &self.marks, place)
        }
    }

    // Where a message belongs.
    #[inline(always)]
    fn place_of(&self, msg: MsgNo) -> usize
        ensures within { result ≤ length self.now.messages }
        ensures belongs { IsBySend self.now.messages → Belongs msg self.now.messages result }
    {
        let slot = self.slots.place_of(msg);
        if self.marks.is_empty() {
            slot
        } else {
            self.marks.count_before(slot)
        }
    }
}

// The marked message before which so many are marked.
#[cold]
fn get_marked(slots: &GapBuffer, marks: &Counts, index: usize) -> Option<Sent>
    requires some { 0 < length marks.now.marks }
    requires marked { HasMarkOfEach marks.now.marks slots.now.messages }
    ensures { result ≡ slice_get (pick marks.now.marks slots.now.messages) index }
{
    if index < marks.total() {
        slots.get(marks.place_of(index))
    } else {
        None
    }
}

// Where there are no marks, and a message with this index is not taken in its turn, marks all slots, if the numbers of
// their messages rise and there are not too many.
#[inline(always)]
fn begin_marks(slots: &GapBuffer, marks: &mut Counts, index: usize) -> Result<(), Memory>
    requires { 0 < length marks.old.marks → HasMarkOfEach marks.old.marks slots.now.messages }
    ensures marked { 0 < length marks.new.marks → HasMarkOfEach marks.new.marks slots.now.messages }
    ensures shown { shown marks.new.marks slots.now.messages ≡ shown marks.old.marks slots.now.messages }
{
    if index > 0 && marks.is_empty() {
        mark_slots(slots, marks)?;
    }
    Ok(())
}

// Marks all slots, if the numbers of their messages rise and there are not too many.
#[cold]
fn mark_slots(slots: &GapBuffer, marks: &mut Counts) -> Result<(), Memory>
    requires { marks.old.marks ≡ [] }
    ensures marked { 0 < length marks.new.marks → HasMarkOfEach marks.new.marks slots.now.messages }
    ensures shown { shown marks.new.marks slots.now.messages ≡ slots.now.messages }
{
    let count = slots.len();
    if count < MOST_MARKED && slots.is_rising() {
        let spare = count / 8 + 8;
        marks.begin(spare, count + spare)?;
        mark_all(marks, count);
    }
    Ok(())
}

// Sets the first so many marks, of which none is set.
fn mark_all(marks: &mut Counts, count: usize)
    requires within { count ≤ length marks.old.marks }
    requires unset { (k : ℕ) → slice_index_or marks.old.marks k false ≡ false }
    ensures len { length marks.new.marks ≡ length marks.old.marks }
    ensures set { (k : ℕ) → k < count → slice_index_or marks.new.marks k false ≡ true }
    ensures past { (k : ℕ) → count ≤ k → slice_index_or marks.new.marks k false ≡ false }
{
    for slot in 0..count {
        marks.put(slot, true);
    }
}

// Takes back the marks from one slot to another.
fn cut_marks(marks: &mut Counts, from: usize, until: usize)
    requires order { from ≤ until }
    requires within { until < length marks.old.marks }
    ensures len { length marks.new.marks ≡ length marks.old.marks }
    ensures kept { (k : ℕ) → k < from → slice_index_or marks.new.marks k false ≡ slice_index_or marks.old.marks k false }
    ensures cut { (k : ℕ) → from ≤ k → k < until → slice_index_or marks.new.marks k false ≡ false }
    ensures past { (k : ℕ) → until ≤ k → slice_index_or marks.new.marks k false ≡ slice_index_or marks.old.marks k false }
{
    for slot in from..until {
        marks.put(slot, false);
    }
}

// Drops the slots of what was taken.
#[cold]
fn drop_taken(slots: &mut GapBuffer, marks: &mut Counts)
    requires some { 0 < length marks.old.marks }
    requires marked { HasMarkOfEach marks.old.marks slots.old.messages }
    ensures slots { slots.new ≡ record slots.old { messages = pick marks.old.marks slots.old.messages } }
    ensures marks { marks.new.marks ≡ [] }
{
    slots.keep(marks);
    marks.end();
}

// Makes room for so many more messages, and for one more slot at the end and those that can be put before all. Where
// there is no memory, or more was taken than can be put back and is held, drops the slots of what was taken.
#[cold]
fn reserve_marked(slots: &mut GapBuffer, marks: &mut Counts, additional: usize) -> bool
    requires some { 0 < length marks.old.marks }
    requires marked { HasMarkOfEach marks.old.marks slots.old.messages }
    ensures marked { 0 < length marks.new.marks → HasMarkOfEach marks.new.marks slots.new.messages }
    ensures shown { shown marks.new.marks slots.new.messages ≡ pick marks.old.marks slots.old.messages }
    ensures room { slots.old.room ≤ slots.new.room }
    ensures dropped { result ≡ false → marks.new.marks ≡ [] }
    ensures enough { result ≡ true
        → length (pick marks.old.marks slots.old.messages) + additional ≤ slots.new.room }
{
    let taken = slots.len() - marks.total();
    let next = marks.before().min(additional).saturating_add(1);
    let missing = additional.saturating_sub(taken).max(next);
    if is_crowded(slots, marks, additional) || slots.reserve(missing).is_err() {
        drop_taken(slots, marks);
        return false;
    }
    true
}

// Whether more was taken than is held and can be put back, or there is no mark for one more slot.
fn is_crowded(slots: &GapBuffer, marks: &Counts, additional: usize) -> bool
    requires some { 0 < length marks.now.marks }
    requires marked { HasMarkOfEach marks.now.marks slots.now.messages }
{
    let held = marks.total();
    slots.len() - held > held.saturating_add(additional) || marks.len() - slots.len() <= 1
}

// Marks the next slot, or drops those of what was taken where the next one cannot be marked.
#[cold]
fn mark_next(slots: &mut GapBuffer, marks: &mut Counts, msg: MsgNo)
    requires some { 0 < length marks.old.marks }
    requires marked { HasMarkOfEach marks.old.marks slots.old.messages }
    requires room { length (pick marks.old.marks slots.old.messages) < slots.old.room }
    ensures room { slots.new.room ≡ slots.old.room }
    ensures next { length slots.new.messages < slots.new.room }
    ensures marked { (a : Sent) → a.msg ≡ msg → 0 < length marks.new.marks → HasMarkOfEach marks.new.marks (slots.new.messages ++ a ∷ []) }
    ensures shown { (a : Sent) → a.msg ≡ msg → shown marks.new.marks (slots.new.messages ++ a ∷ []) ≡ pick marks.old.marks slots.old.messages ++ a ∷ [] }
{
    let marked = marks.len();
    let next = slots.len();
    if next + 1 < marked && slots.has_room() && is_above(slots, msg) {
        marks.put(next, true);
    } else {
        drop_taken(slots, marks);
    }
}

// Whether this number is above that of the last message.
fn is_above(slots: &GapBuffer, msg: MsgNo) -> bool
    ensures { result ≡ true → AreRisingMessages slots.now.messages → (k : ℕ) (a : Sent)
        → slice_get slots.now.messages k ≡ Some a → a.msg < msg }
{
    let count = slots.len();
    if count == 0 {
        return true;
    }
    match slots.get(count - 1) {
        Some(last) => last.msg.get() < msg.get(),
        None => true,
    }
}

// Whether a message of this number can be put and marked before all others.
fn has_first(slots: &GapBuffer, marks: &Counts, msg: MsgNo) -> bool
    ensures before { result ≡ true → 0 < marks.now.before }
    ensures room { result ≡ true → length slots.now.messages < slots.now.room }
    ensures below { result ≡ true → AreRisingMessages slots.now.messages → (k : ℕ) (a : Sent)
        → slice_get slots.now.messages k ≡ Some a → msg < a.msg }
{
    marks.before() > 0 && slots.has_room() && is_below(slots, msg)
}

// Whether this number is below that of the first message.
fn is_below(slots: &GapBuffer, msg: MsgNo) -> bool
    ensures { result ≡ true → AreRisingMessages slots.now.messages → (k : ℕ) (a : Sent)
        → slice_get slots.now.messages k ≡ Some a → msg < a.msg }
{
    match slots.get(0) {
        Some(first) => msg.get() < first.msg.get(),
        None => true,
    }
}

// The slot that this message was taken from, if it is still there.
fn taken_slot(slots: &GapBuffer, marks: &Counts, message: &Sent) -> Option<usize>
    requires { HasMarkOfEach marks.now.marks slots.now.messages }
    ensures there { IfSome result (λ slot. slice_get slots.now.messages slot ≡ Some message.now) }
    ensures unset { IfSome result (λ slot. slice_index_or marks.now.marks slot false ≡ false) }
    ensures belongs { IfSome result (λ slot. Belongs message.now.msg slots.now.messages slot) }
{
    let slot = slots.place_of(message.msg);
    let there = slots.get(slot)?;
    if there.msg.get() == message.msg.get() && there.place == message.place && !marks.get(slot) {
        Some(slot)
    } else {
        None
    }
}

// Puts a message back, where there are marks.
#[cold]
fn put_back_marked(slots: &mut GapBuffer, marks: &mut Counts, message: Sent)
    requires some { 0 < length marks.old.marks }
    requires marked { HasMarkOfEach marks.old.marks slots.old.messages }
    requires room { length (pick marks.old.marks slots.old.messages) < slots.old.room }
    ensures marked { 0 < length marks.new.marks → HasMarkOfEach marks.new.marks slots.new.messages }
    ensures messages { IsPutBack message (pick marks.old.marks slots.old.messages) (shown marks.new.marks slots.new.messages) }
    ensures room { slots.old.room ≤ slots.new.room }
{
    if let Some(slot) = taken_slot(slots, marks, &message) {
        marks.put(slot, true);
    } else {
        put_back_without_slot(slots, marks, message);
    }
}

// Puts a message back that has no slot: it was taken before the marks were begun, or its slot was dropped. Where it is
// not the first, the slots of what was taken are dropped, which takes time that grows with the messages; what a receiver
// rolls back comes in descending order, so this is once for all of them.
fn put_back_without_slot(slots: &mut GapBuffer, marks: &mut Counts, message: Sent)
    requires some { 0 < length marks.old.marks }
    requires marked { HasMarkOfEach marks.old.marks slots.old.messages }
    requires room { length (pick marks.old.marks slots.old.messages) < slots.old.room }
    ensures marked { 0 < length marks.new.marks → HasMarkOfEach marks.new.marks slots.new.messages }
    ensures messages { IsPutBack message (pick marks.old.marks slots.old.messages) (shown marks.new.marks slots.new.messages) }
    ensures room { slots.old.room ≤ slots.new.room }
{
    if has_first(slots, marks, message.msg) {
        marks.push_front();
        slots.insert(0, message);
    } else {
        drop_taken(slots, marks);
        let index = slots.place_of(message.msg);
        slots.insert(index, message);
    }
}

// How many marked messages were sent before this place.
#[cold]
fn count_marked_before(slots: &GapBuffer, marks: &Counts, place: usize) -> usize
    requires some { 0 < length marks.now.marks }
    requires marked { HasMarkOfEach marks.now.marks slots.now.messages }
    ensures { IsBySend (pick marks.now.marks slots.now.messages)
        → AreSentBefore place (pick marks.now.marks slots.now.messages) result }
{
    let mut low = 0;
    let mut high = marks.total();
    while low < high {
        let middle = low + (high - low) / 2;
        if is_sent_before(get_marked(slots, marks, middle), place) {
            low = middle + 1;
        } else {
            high = middle;
        }
    }
    low
}

// Whether this message was sent before this place.
fn is_sent_before(message: Option<Sent>, place: usize) -> bool
    ensures before { result ≡ true → (a : Sent) → message ≡ Some a → a.place < place }
    ensures not_before { result ≡ false → (a : Sent) → message ≡ Some a → place ≤ a.place }
{
    match message {
        Some(message) => (message.place as usize) < place,
        None => true,
    }
}
