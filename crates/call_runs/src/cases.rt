//! The cases of a file: each a title, a text under it, and behind that a line feed and a line that ends the case.

const CASE_END: &[u8] = b"\n----\n";

/// What ends a piece, where a text is made of pieces.
pub(crate) const PIECE_END: &[u8] = b"====\n";

/// A text and what it shows.
#[derive(Clone, Copy)]
pub(crate) struct Case<'a> {
    pub(crate) title: &'a str,
    pub(crate) text: &'a [u8],
}

// What stands before the first mark in these bytes, and what stands behind it; none where there is no mark.
fn split_at_mark<'a>(bytes: &'a [u8], mark: &[u8]) -> Option<(&'a [u8], &'a [u8])> {
    for place in 0..bytes.len() {
        let (before, left) = bytes.split_at(place);
        if let Some(behind) = left.strip_prefix(mark) {
            return Some((before, behind));
        }
    }
    None
}

/// The first case of a file, and what stands behind it; none where there is no more.
pub(crate) fn next_case(bytes: &[u8]) -> Option<(Case<'_>, &[u8])> {
    let (whole, behind) = split_at_mark(bytes, CASE_END)?;
    let (title, text) = split_at_mark(whole, b"\n")?;
    let title = std::str::from_utf8(title).ok()?;
    Some((Case { title, text }, behind))
}

/// The first piece of a text, and the others; none where there is no more.
pub(crate) fn next_piece(pieces: &[u8]) -> Option<(&[u8], &[u8])> {
    split_at_mark(pieces, PIECE_END)
}
