//! Names of messages and instances, clocks and counts, as they are spelled.

ghost use Rattle.std.specs.Prelude.{◌≡◌, ◌≢◌, ◌<◌, ◌≤◌, ◌+◌, ◌^◌, ℕ, List, [], ◌∷◌, ◌++◌, length, true, false, IfSome, IfNone};
ghost use Rattle.std.specs.Fmt.{decimal};
ghost use Rattle.kt_base.specs.Numbers.{IsProcNo};
ghost use Rattle.kt_text.specs.Words.{BeginsAsNumber};
ghost use Rattle.kt_spacetime.specs.Counts.{IsCount};
ghost use Rattle.kt_spacetime.specs.NamedRows.{IsInstNameInRange};
ghost use Rattle.kt_spacetime.specs.declared.names.InstName.{InstName as inst_names};
ghost use Rattle.kt_merge.specs.Spelling.{name_word, instance_word};

use kt_spacetime::{Count, InstName};
use kt_text::fields::{number_of, process_of};

/// The number below 2^64 that a text spells, if it spells one.
#[inline(always)]
pub(crate) fn clock_of(text: &[u8]) -> Option<u64>
    ensures found { IfSome result (λ n. (n < 2 ^ 64) × (text.now ≡ decimal n)) }
    ensures none { IfNone result ((n : ℕ) → n < 2 ^ 64 → text.now ≢ decimal n) }
{
    // Most numbers are small: to read them so takes less time.
    if let Some(number) = number_of(text) {
        return Some(u64::from(number));
    }
    any_number_of(text)
}

// The number below 2^64 that a text spells, if it spells one.
fn any_number_of(text: &[u8]) -> Option<u64>
    ensures found { IfSome result (λ n. (n < 2 ^ 64) × (text.now ≡ decimal n)) }
    ensures none { IfNone result ((n : ℕ) → n < 2 ^ 64 → text.now ≢ decimal n) }
{
    if !begins_as_number(text) {
        return None;
    }
    let Ok(digits) = std::str::from_utf8(text) else {
        return None;
    };
    let Ok(number) = digits.parse::<u64>() else {
        return None;
    };
    Some(number)
}

// Whether a text begins with a digit other than `0`, or is `0`.
fn begins_as_number(text: &[u8]) -> bool
    ensures number { result ≡ true → BeginsAsNumber text.now }
    ensures none { result ≡ false → (n : ℕ) → n < 2 ^ 64 → text.now ≢ decimal n }
{
    match text.first() {
        Some(b'0') => text.len() == 1,
        Some(first) => first.is_ascii_digit(),
        None => false,
    }
}

/// The count that a text spells, if it spells a number from 1 to 2^48 - 1.
#[inline(always)]
fn count_of(text: &[u8]) -> Option<Count>
    ensures found { IfSome result (λ n. IsCount n × (text.now ≡ decimal n)) }
    ensures none { IfNone result ((n : ℕ) → IsCount n → text.now ≢ decimal n) }
{
    let count = Count::new(clock_of(text)?)?;
    count.get();
    Some(count)
}

// What follows a beginning of a text, if the text has it.
#[inline(always)]
fn after<'a>(text: &'a [u8], beginning: &[u8]) -> Option<&'a [u8]>
    ensures found { IfSome result (λ rest. text.now ≡ beginning.now ++ rest.now) }
    ensures none { IfNone result ((rest : List ℕ) → text.now ≢ beginning.now ++ rest) }
{
    text.strip_prefix(beginning)
}

// What follows a first byte of a text, if the text has it.
#[inline(always)]
fn after_byte(text: &[u8], byte: u8) -> Option<&[u8]>
    ensures found { IfSome result (λ rest. text.now ≡ byte ∷ rest.now) }
    ensures none { IfNone result ((rest : List ℕ) → text.now ≢ byte ∷ rest) }
{
    let (first, rest) = text.split_first()?;
    if *first != byte {
        return None;
    }
    Some(rest)
}

/// The count in a name of a process's own, if a text is one: a mark, the process as it is spelled, a dot, the count.
#[inline(always)]
pub(crate) fn own_count(text: &[u8], mark: u8, process: &[u8]) -> Option<Count>
    ensures found { IfSome result (λ n. IsCount n × (text.now ≡ name_word mark process.now n)) }
    ensures none { IfNone result ((n : ℕ) → IsCount n → text.now ≢ name_word mark process.now n) }
{
    let name = after_byte(text, mark)?;
    let dotted = after(name, process)?;
    let digits = after_byte(dotted, b'.')?;
    count_of(digits)
}

/// The instance that a text names, if it names one.
#[inline(always)]
pub(crate) fn instance_of(text: &[u8]) -> Option<InstName>
    ensures found { IfSome result (λ i. IsInstNameInRange i × (text.now ≡ instance_word i)) }
    ensures none { IfNone result ((i : inst_names) → IsInstNameInRange i → text.now ≢ instance_word i) }
{
    let name = after_byte(text, b'i')?;
    // A process has one digit or two.
    if let Some(inst) = instance_after(name, 1) {
        return Some(inst);
    }
    instance_after(name, 2)
}

// The instance that follows its mark, where its initiator has so many digits.
#[inline(always)]
fn instance_after(name: &[u8], digits: usize) -> Option<InstName>
    requires { digits ≤ 2 }
    ensures found { IfSome result (λ i. IsInstNameInRange i
        × (name.now ≡ decimal i.initiator ++ 46 ∷ decimal i.count)) }
    ensures none { IfNone result ((i : inst_names) → IsInstNameInRange i → length (decimal i.initiator) ≡ digits
        → name.now ≢ decimal i.initiator ++ 46 ∷ decimal i.count) }
{
    if name.len() <= digits || name[digits] != b'.' {
        return None;
    }
    instance_in(&name[..digits], &name[digits + 1..])
}

// The instance of an initiator and a count, as they are spelled.
#[inline(always)]
fn instance_in(process: &[u8], digits: &[u8]) -> Option<InstName>
    ensures found { IfSome result (λ i. IsInstNameInRange i × (process.now ≡ decimal i.initiator)
        × (digits.now ≡ decimal i.count)) }
    ensures none { IfNone result ((i : inst_names) → IsInstNameInRange i → process.now ≡ decimal i.initiator
        → digits.now ≢ decimal i.count) }
{
    let initiator = process_of(process)?;
    let count = count_of(digits)?;
    Some(InstName { initiator, count })
}
