//! A history that only grows, and fronts of it.

ghost use Rattle.std.specs.Prelude.{◌≡◌, ◌+◌, ◌==◌, ◌<◌, ◌^◌, ◌++◌, ◌∷◌, [], true, length};
ghost use mathlib.Core.List.{IsPrefix};
ghost use Rattle.kt_threads.specs.BookRules.{head_of};

use crate::asked::Entry;
use logbook::{Gain, Offer, Plain, Play, Rule, Seen, Start, Word};
use std::marker::{Brand, Model, PhantomData};

/// The rule of the book.
pub struct Law;

impl Rule<Entry, u64> for Law {
    ghost use Rattle.std.specs.Prelude.{[]};
    ghost use base.Fml.{ftrue};
    ghost use Rattle.kt_threads.specs.BookRules.{IsKept};

    ghost holds = { λ cells log. IsKept cells log };

    ghost first = { [] };

    ghost hinted = { λ n log. Unit {0} };

    ghost shows = { λ log. [] };

    ghost keeps = { λ names log. ftrue };

    ghost moves = { λ ask before after answer. Unit {0} };
}

/// Callers trade nothing.
pub struct Nothing;

impl Gain<Entry, u64> for Nothing {
    ghost use base.Fml.{ftrue};

    ghost after = { λ names about answer. ftrue };
}

/// A step that adds an entry.
pub struct Add;

impl Play<Entry, u64> for Add {
    ghost use Rattle.kt_threads.specs.BookRules.{Adds};

    ghost then = { Adds };
}

impl Plain<Entry, Entry, u64> for Add {
    ghost use Rattle.std.specs.Prelude.{None};

    ghost ask = { λ entry. entry };

    ghost state = { λ entry. None };
}

/// Which book it is. Each call of a program picks it.
pub trait Naming {
    ghost use Rattle.logbook.specs.Pages.{Book};

    ghost book: { Book };
}

impl Naming for Brand {
    ghost book = { record { number = 0; log_name = 0; cells_name = 0 } };
}

/// A book with an empty history, which has no name yet. Contracts see which one it is, and that it is empty.
pub struct Opened {
    head: Word<Entry, u64, Law>,
    seen: Seen<Entry, u64, Law>,
}

impl Model for Opened {
    ghost use Rattle.std.specs.Prelude.{◌≡◌, []};
    ghost use Rattle.kt_threads.specs.BookRules.{Opening, head_of};

    ghost Value = { Opening };

    ghost view = { λ o. record { book = o.seen.book; entries = o.seen.log } };

    ghost invariant = { λ o. (o.seen.log ≡ []) × (o.head ≡ head_of o.seen.book) };
}

impl Opened {
    /// A new book.
    pub fn new() -> Opened
        ensures { result.entries ≡ [] }
    {
        let (seen, mut first, _second) = Seen::open(Start::alone(), 0, 0);
        Opened {
            head: Word::tracked(0, &mut first),
            seen,
        }
    }

    /// The book's word under a name, and the front that has seen nothing.
    pub(crate) fn named<J: Naming>(self) -> (Book<J>, Front<J>)
        requires { self.book ≡ J.book }
        ensures { result.1 ≡ [] }
    {
        let Opened { head, seen } = self;
        (
            Book {
                head,
                of: PhantomData,
            },
            Front {
                entries: 0,
                seen,
                of: PhantomData,
            },
        )
    }
}

/// The history's length.
#[derive(Drop)]
pub(crate) struct Book<J: Naming> {
    head: Word<Entry, u64, Law>,
    of: PhantomData<J>,
    ghost head_is: { head ≡ head_of J.book },
}

/// A beginning of the history that was seen. Contracts see it as its entries.
#[derive(Drop)]
pub(crate) struct Front<J: Naming> {
    entries: u64,
    seen: Seen<Entry, u64, Law>,
    of: PhantomData<J>,
}

impl<J: Naming> Model for Front<J> {
    ghost use Rattle.std.specs.Prelude.{◌≡◌, List, length};
    ghost use Rattle.kt_threads.specs.declared.asked.Entry.{Entry};

    ghost Value = { List Entry };

    ghost view = { λ f. f.seen.log };

    ghost invariant = { λ f. (f.entries ≡ length f.seen.log) × (f.seen.book ≡ J.book) };
}

impl<J: Naming> Front<J> {
    /// How many entries it has.
    pub(crate) fn len(&self) -> u64
        ensures { result ≡ length self.now }
    {
        self.entries
    }

    /// A copy.
    pub(crate) fn again(&self) -> Front<J>
        ensures { result ≡ self.now }
    {
        Front {
            entries: self.entries,
            seen: self.seen.again(),
            of: PhantomData,
        }
    }

    /// Of one history all fronts are beginnings.
    pub(crate) fn begins_with(&self, other: &Front<J>)
        ensures { (all : _) × IsPrefix self.now all × IsPrefix other.now all }
    {
        let mut both = self.seen.again();
        both.learn(&other.seen);
    }

    /// Adds an entry to all that was seen, and says whether it did. It did not where the history is longer.
    pub(crate) fn add(&mut self, book: &Book<J>, entry: Entry) -> bool
        requires room { length self.old < 2 ^ 62 }
        ensures { result ≡ true → self.new ≡ self.old ++ entry ∷ [] }
    {
        let mut offer: Offer<Entry, u64, Law, Nothing> = self
            .seen
            .plain::<Nothing, Entry, Add>(&entry);
        let mut pen = self.seen.no_pen();
        let entries = self.entries;
        let found = book
            .head
            .compare_exchange::<Add, Nothing>(
                entries,
                entries + 1,
                &mut self.seen,
                &mut offer,
                &mut pen,
            );
        self.entries = if found == entries { entries + 1 } else { found };
        found == entries
    }
}
