//! The names of processes, numbered in order.

ghost use Rattle.std.specs.Prelude.{◌≡◌, ◌≢◌, ◌<◌, ◌≤◌, ◌↔◌, ◌++◌, ◌∷◌, [], ℕ, List, Some, None, true, false, OnOk, OnErr, IfOk, IfSome, IfNone, length, map, position, Contains, slice_get, string_bytes, IsTrue};
ghost use Rattle.std.specs.Str.{bytes_eq};
ghost use Rattle.std.specs.List.{list_all};
ghost use Rattle.kt_plan.specs.Names.{is_name, is_name_byte, number_in, most_names, AreNames};

use indexmap::IndexSet;
use kt_base::{Memory, ProcNo};
use std::alloc::Global;
use std::marker::Model;

/// Whether a word may name a process: 1 to 16 of `a` to `z`, `0` to `9` and `_`, beginning with a letter.
pub fn is_name(word: &[u8]) -> bool
    ensures { result ≡ is_name word.now }
{
    let [first, rest @ ..] = word else {
        return false;
    };
    rest.len() <= 15 && first.is_ascii_lowercase() && are_name_bytes(rest)
}

// Whether all bytes may stand in a name.
fn are_name_bytes(bytes: &[u8]) -> bool
    ensures { result ≡ list_all is_name_byte bytes.now }
{
    bytes.iter().all(|byte| is_name_byte(*byte))
}

// Whether a byte may stand in a name.
fn is_name_byte(byte: u8) -> bool
    ensures { result ≡ is_name_byte byte }
{
    byte.is_ascii_lowercase() || byte.is_ascii_digit() || byte == b'_'
}

/// The name that a word is, if it may name a process.
pub fn name_in(word: &[u8]) -> Option<&str>
    ensures found { IfSome result (λ name. (name.now ≡ word.now) × (is_name word.now ≡ true)) }
    ensures none { IfNone result (is_name word.now ≡ false) }
{
    if !is_name(word) {
        return None;
    }
    match std::str::from_utf8(word) {
        Ok(name) => Some(name),
        Err(_) => None,
    }
}

// The place of the first text that a word is.
fn place_among(texts: &[String], word: &[u8]) -> Option<usize>
    ensures place { result ≡ position (λ text. bytes_eq word.now (string_bytes text)) texts.now }
    ensures within { IfSome result (λ place. place < length texts.now) }
{
    texts.iter().position(
        |text: &String| -> bool
            ensures { result ≡ bytes_eq word.entry.now (string_bytes text.entry.now) }
        { word == text.as_str().as_bytes() },
    )
}

// So few names are looked through in a fraction of the time that it takes to look one up.
const FEW: usize = 8;

/// At most 64 names of processes, all different, numbered from 0 in the order in which they came.
#[derive(Drop)]
pub struct Names {
    set: IndexSet<String>,
}

impl Model for Names {
    ghost use Rattle.std.specs.Prelude.{List, ℕ, map, string_bytes};
    ghost use Rattle.kt_plan.specs.Names.{AreNames};

    ghost Value = { List (List ℕ) };

    ghost view = { λ a. map string_bytes a.set.keys };

    ghost invariant = { λ a. AreNames (map string_bytes a.set.keys) };
}

impl Names {
    /// No names. It takes no memory.
    pub fn new(alloc: Global) -> Names
        ensures { result ≡ [] }
    {
        Names {
            set: IndexSet::new(alloc),
        }
    }

    /// How many names there are, at most 64.
    pub fn len(&self) -> usize
        ensures length { result ≡ length self.now }
        ensures names { AreNames self.now }
    {
        self.set.len()
    }

    /// The names in order.
    pub fn list(&self) -> &[String]
        ensures list { map string_bytes result.now ≡ self.now }
        ensures names { AreNames self.now }
    {
        self.set.as_slice()
    }

    /// The number of the process that a word names, if there is one.
    pub fn number_of(&self, word: &[u8]) -> Option<ProcNo>
        ensures number { result ≡ number_in self.now word.now }
    {
        let set = &self.set;
        if set.len() <= FEW {
            let number = place_among(set.as_slice(), word)?;
            return Some(ProcNo::nth(number as u8));
        }
        let Ok(text) = std::str::from_utf8(word) else {
            return None;
        };
        let number = set.get_index_of(text)?;
        Some(ProcNo::nth(number as u8))
    }

    /// Adds a new name at the end, where there are fewer than 64.
    pub fn add(&mut self, alloc: Global, name: &str) -> Result<(), Memory>
        requires proper { is_name name.now ≡ true }
        requires unknown { number_in self.old name.now ≡ None }
        requires room { length self.old < most_names }
        ensures ok { OnOk result (self.new ≡ self.old ++ name.now ∷ []) }
        ensures err { OnErr result (self.new ≡ self.old) }
    {
        self.set.insert(String::from_str(alloc, name)?)?;
        Ok(())
    }

    /// The same names.
    pub fn copy(&self, alloc: Global) -> Result<Names, Memory>
        ensures { IfOk result (λ names. names ≡ self.now) }
    {
        let mut names = Names::new(alloc);
        for name in self.list() {
            names.add(alloc, name.as_str())?;
        }
        Ok(names)
    }
}
