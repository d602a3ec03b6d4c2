//! The lines of a text and the words of a line.

ghost use Rattle.std.specs.Prelude.{◌≡◌, ◌≢◌, ◌<◌, ◌≤◌, ◌+◌, ◌==◌, [], ◌∷◌, length, not, position, option_map, IfSome, IfNone};
ghost use Rattle.std.specs.Str.Lines.{strip_carriage_return};
ghost use Rattle.kt_scenario.specs.Lines.{is_blank, BeginsWord, words_of, lines_of, lines_left, is_comment};

/// The first line of a text, and the text after its line feed, if it has one.
pub(crate) fn split_line(text: &[u8]) -> (&[u8], Option<&[u8]>)
    ensures line { lines_of text.now ≡ result.0.now ∷ lines_left (option_map (λ rest. rest.now) result.1) }
    ensures shorter { IfSome result.1 (λ rest. length rest.now < length text.now) }
{
    match line_end(text) {
        Some(end) => (without_return(&text[..end]), Some(&text[end + 1..])),
        None => (text, None),
    }
}

// Where the first line feed of a text is.
fn line_end(text: &[u8]) -> Option<usize>
    ensures place { result ≡ position (λ b. b == 10) text.now }
    ensures within { IfSome result (λ place. place < length text.now) }
{
    text.iter().position(|byte| *byte == b'\n')
}

// A line without the one carriage return at its end, if it has one.
fn without_return(line: &[u8]) -> &[u8]
    ensures { result.now ≡ strip_carriage_return line.now }
{
    match line {
        [front @ .., b'\r'] => front,
        _ => line,
    }
}

// Whether a byte is a space or a tab.
fn is_blank(byte: u8) -> bool
    ensures { result ≡ is_blank byte }
{
    byte == b' ' || byte == b'\t'
}

// Where the first byte that is no blank is.
fn word_start(line: &[u8]) -> Option<usize>
    ensures place { result ≡ position (λ b. not (is_blank b)) line.now }
    ensures within { IfSome result (λ place. place < length line.now) }
{
    line.iter().position(|byte| !is_blank(*byte))
}

// Where the first blank is.
fn word_end(line: &[u8]) -> Option<usize>
    ensures place { result ≡ position is_blank line.now }
    ensures within { IfSome result (λ place. place < length line.now) }
{
    line.iter().position(|byte| is_blank(*byte))
}

/// The first word of a line, and the rest of the line.
pub(crate) fn next_word(line: &[u8]) -> Option<(&[u8], &[u8])>
    ensures found { IfSome result (λ split. words_of line.now ≡ split.0.now ∷ words_of split.1.now) }
    ensures none { IfNone result (words_of line.now ≡ []) }
{
    let start = word_start(line)?;
    Some(split_word(&line[start..]))
}

// The word that a line begins with, and the rest of the line.
fn split_word(line: &[u8]) -> (&[u8], &[u8])
    requires begins { BeginsWord line.now }
    requires some { 0 < length line.now }
    ensures { words_of line.now ≡ result.0.now ∷ words_of result.1.now }
{
    match word_end(line) {
        Some(end) => line.split_at(end),
        None => line.split_at(line.len()),
    }
}

/// The one word of a line.
pub(crate) fn one_word(line: &[u8]) -> Option<&[u8]>
    ensures found { IfSome result (λ word. words_of line.now ≡ word.now ∷ []) }
    ensures none { IfNone result (length (words_of line.now) ≢ 1) }
{
    let (word, rest) = next_word(line)?;
    if next_word(rest).is_some() {
        return None;
    }
    Some(word)
}

/// The two words of a line.
pub(crate) fn two_words(line: &[u8]) -> Option<(&[u8], &[u8])>
    ensures found { IfSome result (λ pair. words_of line.now ≡ pair.0.now ∷ pair.1.now ∷ []) }
    ensures none { IfNone result (length (words_of line.now) ≢ 2) }
{
    let (first, rest) = next_word(line)?;
    let second = one_word(rest)?;
    Some((first, second))
}

/// The three words of a line.
pub(crate) fn three_words(line: &[u8]) -> Option<(&[u8], &[u8], &[u8])>
    ensures found { IfSome result (λ three. words_of line.now ≡ three.0.now ∷ three.1.now ∷ three.2.now ∷ []) }
    ensures none { IfNone result (length (words_of line.now) ≢ 3) }
{
    let (first, rest) = next_word(line)?;
    let (second, third) = two_words(rest)?;
    Some((first, second, third))
}

/// Whether a word begins a comment.
pub(crate) fn is_comment(word: &[u8]) -> bool
    ensures { result ≡ is_comment word.now }
{
    match word {
        [first, ..] => *first == b'#',
        [] => false,
    }
}
