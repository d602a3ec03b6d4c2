//! The messages of a node, of numbers.

ghost use Rattle.std.specs.Prelude.{◌≡◌, ◌≢◌, ◌<◌, ◌≤◌, ◌∷◌, ◌++◌, [], ℕ, List, length, All, IfOk, IsErrOf};
ghost use Rattle.kt_manager.specs.declared.received.Item.{Item};
ghost use Rattle.kt_manager.specs.Inboxes.{processes_of, kept_of, held_of};
ghost use Rattle.kt_node_text.specs.Form.{of_item, of_lists, counted};
ghost use Rattle.kt_node_text.specs.Ranges.{IsItem, AreLists};
ghost use Rattle.kt_node_text.specs.Reading.{IsRead, IsReadAs};
ghost use Rattle.kt_node_text.specs.declared.fault.LoadFault.TheVariants as fault;

use crate::fault::LoadFault;
use crate::numbers::Numbers;
use kt_base::ProcNo;
use kt_manager::{Inbox, Item};
use std::alloc::Global;

/// A message.
fn item(numbers: &mut Numbers) -> Result<Item, LoadFault>
    ensures { (x : Item) (after : List ℕ) → IsItem x →
        numbers.old.rest.now ≡ of_item x ++ after → IsRead x after result numbers.new.rest.now }
{
    let _kind = numbers.up_to(0)?;
    let label = numbers.count_of_one()?;
    let _number = numbers.up_to(1)?;
    let body = numbers.body()?;
    Ok(Item { label, body })
}

/// Passes over a list of messages, after how many there are.
fn skip_items(numbers: &mut Numbers) -> Result<(), LoadFault>
    ensures read { (xs : List Item) (after : List ℕ) → All IsItem xs →
        numbers.old.rest.now ≡ counted of_item xs ++ after →
        IsReadAs (λ _. numbers.new.rest.now ≡ after) after result numbers.new.rest.now }
    ensures few { (n : ℕ) (after : List ℕ) → length after < n →
        numbers.old.rest.now ≡ n ∷ after → IsErrOf result fault.Form }
{
    let count = numbers.count()?;
    for _ in 0..count {
        let _item = item(numbers)?;
    }
    Ok(())
}

/// Passes over the messages of so many processes.
fn skip_lists(size: usize, numbers: &mut Numbers) -> Result<(), LoadFault>
    ensures { (lists : ℕ → List Item) (after : List ℕ) → AreLists size lists →
        numbers.old.rest.now ≡ of_lists size lists ++ after →
        IsReadAs (λ _. numbers.new.rest.now ≡ after) after result numbers.new.rest.now }
{
    for _number in 0..size {
        skip_items(numbers)?;
    }
    Ok(())
}

/// Keeps a list of messages of a process, after how many there are.
fn keep_items(inbox: &mut Inbox, from: ProcNo, numbers: &mut Numbers) -> Result<(), LoadFault>
    requires from { from < processes_of inbox.old }
    requires none { held_of inbox.old from ≡ [] }
    ensures processes { processes_of inbox.new ≡ processes_of inbox.old }
    ensures held { held_of inbox.new ≡ held_of inbox.old }
    ensures others { (q : ℕ) → q ≢ from → kept_of inbox.new q ≡ kept_of inbox.old q }
    ensures read { (xs : List Item) (after : List ℕ) → All IsItem xs →
        numbers.old.rest.now ≡ counted of_item xs ++ after →
        IsReadAs (λ _. kept_of inbox.new from ≡ kept_of inbox.old from ++ xs)
        after result numbers.new.rest.now }
    ensures few { (n : ℕ) (after : List ℕ) → length after < n →
        numbers.old.rest.now ≡ n ∷ after → IsErrOf result fault.Form }
{
    let count = numbers.count()?;
    for _ in 0..count {
        let item = item(numbers)?;
        inbox.make_room(from)?;
        inbox.keep(from, item);
    }
    Ok(())
}

/// Holds a list of messages of a process, after how many there are.
fn hold_items(inbox: &mut Inbox, from: ProcNo, numbers: &mut Numbers) -> Result<(), LoadFault>
    requires { from < processes_of inbox.old }
    ensures processes { processes_of inbox.new ≡ processes_of inbox.old }
    ensures kept { kept_of inbox.new ≡ kept_of inbox.old }
    ensures others { (q : ℕ) → q ≢ from → held_of inbox.new q ≡ held_of inbox.old q }
    ensures read { (xs : List Item) (after : List ℕ) → All IsItem xs →
        numbers.old.rest.now ≡ counted of_item xs ++ after →
        IsReadAs (λ _. held_of inbox.new from ≡ held_of inbox.old from ++ xs)
        after result numbers.new.rest.now }
    ensures few { (n : ℕ) (after : List ℕ) → length after < n →
        numbers.old.rest.now ≡ n ∷ after → IsErrOf result fault.Form }
{
    let count = numbers.count()?;
    for _ in 0..count {
        let item = item(numbers)?;
        inbox.make_room(from)?;
        inbox.hold(from, item);
    }
    Ok(())
}

/// The messages of so many processes: those that are held of each, and behind them those that are kept. They are kept
/// before others are held, so they are found first.
pub(crate) fn inbox(alloc: Global, size: usize, numbers: &mut Numbers) -> Result<Inbox, LoadFault>
    requires { size ≤ 64 }
    ensures processes { IfOk result (λ b. processes_of b ≡ size) }
    ensures read { (held kept : ℕ → List Item) (after : List ℕ) → AreLists size held → AreLists size kept →
        numbers.old.rest.now ≡ of_lists size held ++ (of_lists size kept ++ after) →
        IsReadAs (λ b. (q : ℕ) → q < size → (held_of b q ≡ held q) × (kept_of b q ≡ kept q))
        after result numbers.new.rest.now }
{
    let mut inbox = Inbox::new(alloc, size)?;
    let mut held = numbers.again();
    skip_lists(size, numbers)?;
    for number in 0..size as u8 {
        let from = ProcNo::nth(number);
        keep_items(&mut inbox, from, numbers)?;
        hold_items(&mut inbox, from, &mut held)?;
    }
    Ok(inbox)
}
