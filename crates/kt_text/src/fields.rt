//! Fields of records: numbers and words as they are spelled in logs and certificates.
//!
//! A number is spelled by its decimal digits with no sign and no leading zero; a body may have a `-` before it.

ghost use Rattle.std.specs.Prelude.{◌≡◌, ◌≢◌, ◌<◌, ◌≤◌, ◌+◌, ◌^◌, ℕ, ℤ, length, Bool, true, false, IfSome, IfNone, IfOk, IfErr, FitsSigned};
ghost use Rattle.std.specs.Int.{w64, IsInRange};
ghost use Rattle.std.specs.Fmt.{decimal, signed_decimal};
ghost use Rattle.std.specs.Str.Parse.{AllDigits, digits_value};
ghost use Rattle.kt_base.specs.Numbers.{IsProcNo, IsMsgNo, IsInstNo};
ghost use Rattle.kt_base.specs.declared.words.Kind.{Kind};
ghost use Rattle.kt_text.specs.Words.{BeginsAsNumber, BeginsAsBody, kind_word, decision_word};

use kt_base::{InstNo, Kind, MsgNo, ProcNo};

/// The number below 2^32 that a text spells, if it spells one.
pub fn number_of(text: &[u8]) -> Option<u32>
    ensures found { IfSome result (λ n. text.now ≡ decimal n) }
    ensures none { IfNone result ((n : ℕ) → n < 2 ^ 32 → text.now ≢ decimal n) }
{
    // A number below 2^32 has at most 10 digits.
    if text.len() > 10 || !begins_as_number(text) {
        return None;
    }
    u32::try_from(value_of(text)?).ok()
}

// The number that at most 10 digits write, where a text has no other bytes.
fn value_of(text: &[u8]) -> Option<u64>
    requires { length text.now ≤ 10 }
    ensures found { IfSome result (λ n. AllDigits 10 text.now × (n ≡ digits_value 10 text.now)) }
    ensures none { IfNone result (AllDigits 10 text.now → ⊥) }
{
    let mut number = 0;
    for byte in text {
        number = number * 10 + u64::from(digit_of(*byte)?);
    }
    Some(number)
}

// The digit that a byte is, 0 to 9, if it is one.
fn digit_of(byte: u8) -> Option<u8>
    ensures found { IfSome result (λ digit. (byte ≡ 48 + digit) × (digit < 10)) }
    ensures none { IfNone result (IsInRange 48 57 byte → ⊥) }
{
    if !byte.is_ascii_digit() {
        return None;
    }
    Some(byte - b'0')
}

// Whether a text begins with a digit other than `0`, or is `0`.
fn begins_as_number(text: &[u8]) -> bool
    ensures number { result ≡ true → BeginsAsNumber text.now }
    ensures none { result ≡ false → (n : ℕ) → n < 2 ^ 64 → text.now ≢ decimal n }
{
    match text.first() {
        Some(b'0') => text.len() == 1,
        Some(first) => first.is_ascii_digit(),
        None => false,
    }
}

/// The body, a whole number of 64 bits, that a text spells, if it spells one.
pub fn body_of(text: &[u8]) -> Option<i64>
    ensures found { IfSome result (λ z. text.now ≡ signed_decimal z) }
    ensures none { IfNone result ((z : ℤ) → FitsSigned w64 z → text.now ≢ signed_decimal z) }
{
    // Most bodies are small and have no sign: to read them so takes a third of the time.
    if let Some(number) = number_of(text) {
        return Some(i64::from(number));
    }
    any_body_of(text)
}

// The body, a whole number of 64 bits, that a text spells, if it spells one.
fn any_body_of(text: &[u8]) -> Option<i64>
    ensures found { IfSome result (λ z. text.now ≡ signed_decimal z) }
    ensures none { IfNone result ((z : ℤ) → FitsSigned w64 z → text.now ≢ signed_decimal z) }
{
    if !begins_as_body(text) {
        return None;
    }
    let Ok(digits) = std::str::from_utf8(text) else {
        return None;
    };
    let Ok(body) = digits.parse::<i64>() else {
        return None;
    };
    Some(body)
}

// Whether a text begins as a number does, or with a `-` and then as a number other than 0.
fn begins_as_body(text: &[u8]) -> bool
    ensures body { result ≡ true → BeginsAsBody text.now }
    ensures none { result ≡ false → (z : ℤ) → FitsSigned w64 z → text.now ≢ signed_decimal z }
{
    match text.split_first() {
        Some((b'-', digits)) => begins_as_number(digits) && digits[0] != b'0',
        _ => begins_as_number(text),
    }
}

/// The process that a text spells, if it spells a number from 0 to 63.
pub fn process_of(text: &[u8]) -> Option<ProcNo>
    ensures found { IfSome result (λ p. IsProcNo p × (text.now ≡ decimal p)) }
    ensures none { IfNone result ((p : ℕ) → IsProcNo p → text.now ≢ decimal p) }
{
    match text {
        [units] => ProcNo::new(digit_of(*units)?),
        [b'0', _] => None,
        [tens, units] => ProcNo::new(digit_of(*tens)? * 10 + digit_of(*units)?),
        _ => None,
    }
}

/// The instance that a text spells, if it spells a number from 1 to 4,096.
pub fn instance_of(text: &[u8]) -> Option<InstNo>
    ensures found { IfSome result (λ k. IsInstNo k × (text.now ≡ decimal k)) }
    ensures none { IfNone result ((k : ℕ) → IsInstNo k → text.now ≢ decimal k) }
{
    let number = number_of(text)?;
    let instance = InstNo::new(u16::try_from(number).ok()?)?;
    instance.get();
    Some(instance)
}

/// The message that a text spells, if it spells a number from 1 to 2^24.
pub fn message_of(text: &[u8]) -> Option<MsgNo>
    ensures found { IfSome result (λ m. IsMsgNo m × (text.now ≡ decimal m)) }
    ensures none { IfNone result ((m : ℕ) → IsMsgNo m → text.now ≢ decimal m) }
{
    let message = MsgNo::new(number_of(text)?)?;
    message.get();
    Some(message)
}

/// The kind of instance that a text names: `checkpoint` or `rollback`.
pub fn kind_of(text: &[u8]) -> Option<Kind>
    ensures found { IfSome result (λ kind. text.now ≡ kind_word kind) }
    ensures none { IfNone result ((kind : Kind) → text.now ≢ kind_word kind) }
{
    if text == b"checkpoint".as_slice() {
        return Some(Kind::Checkpoint);
    }
    if text == b"rollback".as_slice() {
        return Some(Kind::Rollback);
    }
    None
}

/// Whether a text names a commit (`commit`) or an abort (`abort`).
pub fn decision_of(text: &[u8]) -> Option<bool>
    ensures found { IfSome result (λ commit. text.now ≡ decision_word commit) }
    ensures none { IfNone result ((commit : Bool) → text.now ≢ decision_word commit) }
{
    if text == b"commit".as_slice() {
        return Some(true);
    }
    if text == b"abort".as_slice() {
        return Some(false);
    }
    None
}

/// The word of a kind of instance: `checkpoint` or `rollback`.
pub fn kind_text(kind: Kind) -> &'static [u8]
    ensures { result.now ≡ kind_word kind }
{
    match kind {
        Kind::Checkpoint => b"checkpoint",
        Kind::Rollback => b"rollback",
    }
}

/// The word of a decision: `commit` or `abort`.
pub fn decision_text(commit: bool) -> &'static [u8]
    ensures { result.now ≡ decision_word commit }
{
    if commit { b"commit" } else { b"abort" }
}
