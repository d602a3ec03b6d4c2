//! Who notes the history, and who did what stands there.

ghost use Rattle.std.specs.Prelude.{◌≡◌, ◌++◌, ◌∷◌, [], true, false, IfNone, IfSome};
ghost use Rattle.kt_threads.specs.Books.{entry, errands_by};

use crate::asked::{Entry, Errand};
use crate::book::{Book, Front, Naming, Opened};
use kt_base::ProcNo;
use std::marker::Model;
use std::snapshot::Snapshot;

/// The longest history.
const MOST: u64 = 1 << 62;

/// Who notes the history, beneath a lock: all of it, and how much each process has there. Contracts see it as its entries.
#[derive(Drop)]
pub struct Recorder<J: Naming> {
    book: Book<J>,
    front: Front<J>,
    counts: [u64; 64],
}

impl<J: Naming> Model for Recorder<J> {
    ghost use Rattle.std.specs.Prelude.{List};
    ghost use Rattle.kt_threads.specs.declared.asked.Entry.{Entry};
    ghost use Rattle.kt_threads.specs.Books.{AreCounted};

    ghost Value = { List Entry };

    ghost view = { λ r. r.front };

    ghost invariant = { λ r. AreCounted r.counts r.front };
}

impl<J: Naming> Recorder<J> {
    /// Nothing is noted.
    pub fn new(opened: Opened) -> Recorder<J>
        requires { opened.book ≡ J.book }
        ensures { result ≡ [] }
    {
        let (book, front) = opened.named::<J>();
        Recorder {
            book,
            front,
            counts: [0; 64],
        }
    }

    /// Notes what a step of a process asked; None where there is no room.
    pub fn note(&mut self, by: ProcNo, errand: Errand) -> Option<Receipt<J>>
        ensures noted { IfSome result (λ receipt. self.new ≡ self.old ++ receipt ∷ []) }
        ensures is { IfSome result (λ receipt. receipt ≡ entry by errand) }
        ensures none { IfNone result (self.new ≡ self.old) }
    {
        let count = self.counts[by.index()];
        if self.front.len() >= MOST || count >= MOST {
            return None;
        }
        let noted = Entry { by, errand };
        let mut front = self.front.again();
        if !front.add(&self.book, noted) {
            return None;
        }
        let receipt = Receipt {
            front: front.again(),
            entry: Snapshot::of(&noted),
            count: count + 1,
        };
        self.counts[by.index()] = count + 1;
        self.front = front;
        Some(receipt)
    }

    /// Whether a process did as much as is noted of it: then it did just that.
    pub fn agrees(&self, done: &Done<J>) -> bool
        ensures { result ≡ true → errands_by done.now.by self.now ≡ done.now.errands }
    {
        self.front.begins_with(&done.front);
        self.counts[done.me.index()] == done.count
    }
}

/// That something was noted, and how much there is of its process by then. Contracts see it as the entry.
#[derive(Drop)]
pub struct Receipt<J: Naming> {
    front: Front<J>,
    entry: Snapshot<Entry>,
    count: u64,
}

impl<J: Naming> Model for Receipt<J> {
    ghost use Rattle.kt_threads.specs.declared.asked.Entry.{Entry};
    ghost use Rattle.kt_threads.specs.Books.{IsLast};

    ghost Value = { Entry };

    ghost view = { λ r. r.entry.value };

    ghost invariant = { λ r. IsLast r.front r.entry.value r.count };
}

/// What a process did of what is noted, in its own thread. Contracts see it as the process and its errands.
#[derive(Drop)]
pub struct Done<J: Naming> {
    me: ProcNo,
    front: Front<J>,
    count: u64,
}

impl<J: Naming> Model for Done<J> {
    ghost use Rattle.std.specs.Prelude.{◌≡◌, length};
    ghost use Rattle.kt_threads.specs.Books.{DoneBy, errands_by};

    ghost Value = { DoneBy };

    ghost view = { λ d. record { by = d.me; errands = errands_by d.me d.front } };

    ghost invariant = { λ d. d.count ≡ length (errands_by d.me d.front) };
}

impl<J: Naming> Done<J> {
    /// Nothing is done, and nothing noted.
    pub fn new(me: ProcNo, recorder: &Recorder<J>) -> Done<J>
        requires { recorder.now ≡ [] }
        ensures { result ≡ record { by = me; errands = [] } }
    {
        Done {
            me,
            front: recorder.front.again(),
            count: 0,
        }
    }

    /// The process.
    pub fn me(&self) -> ProcNo
        ensures { result ≡ self.now.by }
    {
        self.me
    }

    /// Takes in what was noted, if it comes next, and says whether it did.
    pub fn take(&mut self, receipt: &Receipt<J>) -> bool
        requires { receipt.now.by ≡ self.old.by }
        ensures took { result ≡ true →
            self.new ≡ record self.old { errands = self.old.errands ++ receipt.now.errand ∷ [] } }
        ensures left { result ≡ false → self.new ≡ self.old }
    {
        if receipt.count.checked_sub(1) != Some(self.count) {
            return false;
        }
        self.front.begins_with(&receipt.front);
        self.front = receipt.front.again();
        self.count = receipt.count;
        true
    }
}
