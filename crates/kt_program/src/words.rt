//! The words of a command line.

ghost use Rattle.std.specs.Prelude.{◌≡◌, [], ◌∷◌, ◌++◌, map, string_bytes, OnOk, OnErr};

use kt_base::Memory;
use std::alloc::Global;
use std::marker::Model;

/// The words of a command line, the program's name first.
#[derive(Drop)]
pub struct Words {
    alloc: Global,
    list: Vec<String>,
}

impl Model for Words {
    ghost use Rattle.std.specs.Prelude.{List, ℕ, map, string_bytes};

    ghost Value = { List (List ℕ) };

    ghost view = { λ w. map string_bytes w.list.items };
}

impl Words {
    /// No words. It takes no memory.
    pub fn new(alloc: Global) -> Words
        ensures { result ≡ [] }
    {
        Words {
            alloc,
            list: Vec::new(alloc),
        }
    }

    /// Adds a word at the end.
    pub fn push(&mut self, word: &str) -> Result<(), Memory>
        ensures ok { OnOk result (self.new ≡ self.old ++ word.now ∷ []) }
        ensures err { OnErr result (self.new ≡ self.old) }
    {
        let word = String::from_str(self.alloc, word)?;
        self.list.push(word)?;
        Ok(())
    }

    /// The words in order.
    pub(crate) fn list(&self) -> &[String]
        ensures { map string_bytes result.now ≡ self.now }
    {
        self.list.as_slice()
    }

    /// Whether the words ask for what is told below a fault's line: `--hints` stands among them.
    pub(crate) fn ask_for_hints(&self) -> bool {
        self.list().iter().any(|word| word.as_str() == "--hints")
    }
}
