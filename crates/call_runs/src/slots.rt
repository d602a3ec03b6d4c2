//! A book of slots: which slots are freed when objects are dropped, and used again.

use crate::faults::value_of;
use kt_object::{Recoverable, SlotBook, Sum};
use std::alloc::Global;
use std::io;

// The orders in which eight objects are dropped.
const ORDERS: [[usize; 8]; 4] = [
    [0, 1, 2, 3, 4, 5, 6, 7],
    [7, 6, 5, 4, 3, 2, 1, 0],
    [0, 7, 1, 6, 2, 5, 3, 4],
    [3, 4, 0, 7, 6, 1, 2, 5],
];

// Opens eight slots, each for an object.
fn open_eight(book: &mut SlotBook, objects: &mut Vec<Option<Sum>>) -> io::Result<()> {
    for _ in 0..8 {
        value_of(objects.push(Some(Sum::new(value_of(book.open())?))))?;
    }
    Ok(())
}

// Drops four objects in this order; after how many drops one slot is freed, and none once more.
fn drop_four(book: &mut SlotBook, objects: &mut Vec<Option<Sum>>, order: &[usize]) -> u32 {
    let mut count: u32 = 0;
    for place in order.iter().take(4) {
        if let Some(object) = objects.get_mut(*place) {
            *object = None;
        }
        let (freed, again) = (book.collect(), book.collect());
        count = count.saturating_add(u32::from(freed == 1 && again == 0));
    }
    count
}

// The slots of the objects that are kept.
fn slots_of(alloc: Global, objects: &[Option<Sum>]) -> io::Result<Vec<usize>> {
    let mut slots = Vec::new(alloc);
    for object in objects.iter().flatten() {
        slots.push(object.slot())?;
    }
    Ok(slots)
}

// Drops four of eight objects in this order, opens eight more, and drops all: shows after how many of the four drops a slot
// is freed, who has which slots then, and how many are freed at the end.
fn show_order<R: Print + AllocGlobal>(
    rt: &R,
    book: &mut SlotBook,
    objects: &mut Vec<Option<Sum>>,
    order: &[usize],
) -> io::Result<()> {
    open_eight(book, objects)?;
    let count = drop_four(book, objects, order);
    open_eight(book, objects)?;
    let slots = slots_of(rt.alloc(), objects.as_slice())?;
    objects.clear();
    let (freed, out) = (book.collect(), book.out());
    println!(rt;
        "objects are dropped in the order {order:?}: {count} free a slot\n  slots {slots:?}, freed {freed}, out {out}"
    )
}

/// Shows which slots are freed, and used again, where objects are dropped in some orders.
pub(crate) fn show_slots<R: Print + AllocGlobal>(rt: &R) -> io::Result<()> {
    let mut book = SlotBook::new(rt.alloc());
    let mut objects = Vec::new(rt.alloc());
    for order in &ORDERS {
        show_order(rt, &mut book, &mut objects, order)?;
    }
    Ok(())
}
