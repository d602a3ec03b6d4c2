//! What was said of a scenario so far.

ghost use Rattle.std.specs.Prelude.{Some, true, ◌≡◌, ◌≢◌, ◌<◌, ◌≤◌, ◌+◌, ◌-◌, ◌^◌, ◌∷◌, [], ℕ, ℤ, Option, IfOk, IfErr, IfSome, IfNone, OnOk, length};
ghost use Rattle.kt_scenario.specs.declared.fault.LineFault.TheVariants as line;
ghost use Rattle.kt_scenario.specs.Lines.{words_of, SaysLine, IsWrongLine};
ghost use Rattle.kt_plan.specs.Limits.{most_commands};
ghost use Rattle.kt_plan.specs.Names.{number_in};
ghost use Rattle.kt_scenario.specs.Said.{word_in, kind_in, settled, with_command};
ghost use Rattle.kt_scenario.specs.Scenario.{Says, SaysAfter, IsObject, IsSend, IsOrder, IsBodyWord, IsWordsFault, IsWrongAfter, IsWrongObject, IsWrongSend, IsWrongOrder};
ghost use Rattle.kt_scenario.specs.Draft.{said_of};

use crate::fault::LineFault;
use crate::words::{is_comment, next_word, one_word, three_words, two_words};
use kt_base::ProcNo;
use kt_plan::{Command, Job, Names, name_in};
use kt_text::fields::body_of;
use std::alloc::Global;

/// The words that a line may begin with.
#[derive(Clone, Copy)]
pub(crate) enum Word {
    Object,
    Send,
    Checkpoint,
    Rollback,
    Fail,
    Settle,
}

/// What was said so far: the parts of a plan, and the phase of the commands that follow.
#[derive(Drop)]
pub(crate) struct Draft {
    pub(crate) names: Names,
    pub(crate) kinds: Vec<u8>,
    pub(crate) commands: Vec<Command>,
    pub(crate) phase: u32,
    // By the end of a word, the number of the process that it may name.
    pub(crate) guesses: [u8; GUESSES],
}

/// How many ends of words are told apart.
pub(crate) const GUESSES: usize = 256;

// The place of the guess for a word.
fn guess_of(word: &[u8]) -> usize
    ensures { result < 256 }
{
    match word {
        [.., one, last] => usize::from(*one % 16) * 16 + usize::from(*last % 16),
        [last] => usize::from(*last),
        [] => 0,
    }
}

// Whether a word names the process of this number.
#[inline(always)]
fn is_named(names: &Names, number: u8, word: &[u8]) -> bool
    ensures named { result ≡ true → number_in names.now word.now ≡ Some number }
    ensures process { result ≡ true → number < 64 }
{
    match names.list().get(usize::from(number)) {
        Some(name) => name.as_str().as_bytes() == word,
        None => false,
    }
}

// The number of the process that a word names, if there is one. A guess is tried first, which takes a quarter of the time
// that it takes to look the name up.
fn number_of(draft: &Draft, word: &[u8]) -> Option<ProcNo>
    ensures { result ≡ number_in draft.now.names word.now }
{
    let guess = draft.guesses[guess_of(word)];
    if is_named(&draft.names, guess, word) {
        return Some(ProcNo::nth(guess));
    }
    draft.names.number_of(word)
}

// Which of the first words a word is.
fn word_in(word: &[u8]) -> Option<Word>
    ensures { result ≡ word_in word.now }
{
    match word {
        [b'o', b'b', b'j', b'e', b'c', b't'] => Some(Word::Object),
        [b's', b'e', b'n', b'd'] => Some(Word::Send),
        [b'c', b'h', b'e', b'c', b'k', b'p', b'o', b'i', b'n', b't'] => Some(Word::Checkpoint),
        [b'r', b'o', b'l', b'l', b'b', b'a', b'c', b'k'] => Some(Word::Rollback),
        [b'f', b'a', b'i', b'l'] => Some(Word::Fail),
        [b's', b'e', b't', b't', b'l', b'e'] => Some(Word::Settle),
        _ => None,
    }
}

// Which kind of object a word names.
fn kind_in(word: &[u8]) -> Option<u8>
    ensures { result ≡ kind_in word.now }
{
    if word == b"sum".as_slice() {
        return Some(0);
    }
    if word == b"last".as_slice() {
        return Some(1);
    }
    if word == b"tail".as_slice() {
        return Some(2);
    }
    None
}

// The body that a word is; None for the one that the object offers.
fn body_in(word: &[u8]) -> Result<Option<i64>, LineFault>
    ensures found { IfOk result (λ body. IsBodyWord word.now body) }
    ensures fault { IfErr result (λ f. (f ≡ LineFault.Number) × ((body : Option ℤ) → IsBodyWord word.now body → ⊥)) }
{
    if let [b'.'] = word {
        return Ok(None);
    }
    match body_of(word) {
        Some(body) => Ok(Some(body)),
        None => Err(LineFault::Number),
    }
}

// Notes `object NAME KIND`.
fn note_object(draft: &mut Draft, alloc: Global, name: &[u8], kind: &[u8]) -> Result<(), LineFault>
    ensures ok { OnOk result (IsObject (said_of draft.old) name.now kind.now (said_of draft.new)) }
    ensures fault { IfErr result (λ f. f ≢ LineFault.Memory → IsWrongObject (said_of draft.old) name.now kind.now f) }
{
    let Some(proper) = name_in(name) else {
        return Err(LineFault::Name);
    };
    if number_of(draft, name).is_some() {
        return Err(LineFault::Twice);
    }
    let Some(number) = kind_in(kind) else {
        return Err(LineFault::KindWord);
    };
    if draft.names.len() >= 64 {
        return Err(LineFault::TooManyObjects);
    }
    draft.guesses[guess_of(name)] = draft.names.len() as u8;
    draft.names.add(alloc, proper)?;
    draft.kinds.push(number)?;
    Ok(())
}

// Notes a command of a process that is there.
fn note_command(draft: &mut Draft, by: ProcNo, job: Job) -> Result<(), LineFault>
    ensures ok { OnOk result ((length draft.old.commands.items < most_commands) × (said_of draft.new ≡ with_command (said_of draft.old) by job)) }
    ensures fault { IfErr result (λ f. f ≢ LineFault.Memory → (f ≡ LineFault.TooManyCommands) × (most_commands ≤ length draft.old.commands.items)) }
{
    if draft.commands.len() >= 4096 {
        return Err(LineFault::TooManyCommands);
    }
    draft.commands.push(Command {
        by,
        phase: draft.phase,
        job,
    })?;
    Ok(())
}

// Notes `send A B BODY`.
fn note_send(draft: &mut Draft, from: &[u8], to: &[u8], body: &[u8]) -> Result<(), LineFault>
    ensures ok { OnOk result (IsSend (said_of draft.old) from.now to.now body.now (said_of draft.new)) }
    ensures fault { IfErr result (λ f. f ≢ LineFault.Memory → IsWrongSend (said_of draft.old) from.now to.now body.now f) }
{
    let Some(by) = number_of(draft, from) else {
        return Err(LineFault::Unknown);
    };
    let Some(to) = number_of(draft, to) else {
        return Err(LineFault::Unknown);
    };
    if by == to {
        return Err(LineFault::Itself);
    }
    let body = body_in(body)?;
    note_command(draft, by, Job::Send { to, body })
}

// Notes a job and the process that does it.
fn note_order(draft: &mut Draft, job: Job, name: &[u8]) -> Result<(), LineFault>
    ensures ok { OnOk result (IsOrder (said_of draft.old) job name.now (said_of draft.new)) }
    ensures fault { IfErr result (λ f. f ≢ LineFault.Memory → IsWrongOrder (said_of draft.old) name.now f) }
{
    let Some(by) = number_of(draft, name) else {
        return Err(LineFault::Unknown);
    };
    note_command(draft, by, job)
}

// Notes what a line says whose first word is one of the seven.
fn note_words(draft: &mut Draft, alloc: Global, word: Word, rest: &[u8]) -> Result<(), LineFault>
    requires { draft.old.phase < 2 ^ 32 - 1 }
    ensures ok { OnOk result (SaysAfter (Some word) (said_of draft.old) (words_of rest.now) (said_of draft.new)) }
    ensures phase { OnOk result (draft.new.phase ≤ draft.old.phase + 1) }
    ensures fault { IfErr result (λ f. f ≢ LineFault.Memory → IsWrongAfter (Some word) (said_of draft.old) (words_of rest.now) f) }
{
    match word {
        Word::Object => {
            let (name, kind) = two_words(rest).ok_or(LineFault::Words)?;
            note_object(draft, alloc, name, kind)
        }
        Word::Send => {
            let (from, to, body) = three_words(rest).ok_or(LineFault::Words)?;
            note_send(draft, from, to, body)
        }
        Word::Checkpoint => note_order(
            draft,
            Job::Checkpoint,
            one_word(rest).ok_or(LineFault::Words)?,
        ),
        Word::Rollback => note_order(
            draft,
            Job::Rollback,
            one_word(rest).ok_or(LineFault::Words)?,
        ),
        Word::Fail => note_order(draft, Job::Fail, one_word(rest).ok_or(LineFault::Words)?),
        Word::Settle => {
            if next_word(rest).is_some() {
                return Err(LineFault::Words);
            }
            draft.phase += 1;
            Ok(())
        }
    }
}

/// Notes what a line says.
pub(crate) fn note_line(draft: &mut Draft, alloc: Global, line: &[u8]) -> Result<(), LineFault>
    requires { draft.old.phase < 2 ^ 32 - 1 }
    ensures ok { OnOk result (SaysLine Says (said_of draft.old) line.now (said_of draft.new)) }
    ensures phase { OnOk result (draft.new.phase ≤ draft.old.phase + 1) }
    ensures fault { IfErr result (λ f. f ≢ LineFault.Memory → IsWrongLine IsWordsFault (said_of draft.old) line.now f) }
{
    let Some((first, rest)) = next_word(line) else {
        return Ok(());
    };
    if is_comment(first) {
        return Ok(());
    }
    let Some(word) = word_in(first) else {
        return Err(LineFault::Command);
    };
    note_words(draft, alloc, word, rest)
}
