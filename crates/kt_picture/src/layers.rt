//! The layers of a picture: lanes, cuts, arrows, what shows each row at its place, and words.

ghost use Rattle.std.specs.Prelude.{◌≡◌, ◌≤◌, ◌<◌, ◌^◌, ◌+◌, ◌++◌, IfOk, OnOk, length, string_bytes};
ghost use Rattle.std.specs.List.{flat_map};
ghost use Rattle.kt_picture.specs.Escaping.{escaped, escaped_byte};
ghost use Rattle.kt_picture.specs.Layers.{breach_text, cut_text, lane_mark, lanes_text, marks_text, opening, picture_text, row_mark, rows_text, rule_of, stretch_text, titled_text, top_of, words_text};
ghost use Rattle.kt_picture.specs.Legend.{signs_of};
ghost use Rattle.kt_picture.specs.Pages.{view_in};

use crate::legend::{Sign, push_legend, signs_of};
use crate::looks::{HEADS, Look, Outline, Path, Place, STYLE, x_of, y_of};
use crate::rows::{Page, arrow_at, figure_at, number_at, word_at};
use crate::window::{CutMark, Shown, Stretch};
use crate::words::{Saying, Word, fields_of, push_name, push_reason, push_word};
use kt_base::{Memory, ProcNo};
use std::alloc::Global;
use std::fmt::Write;

/// The picture of a page, with what is said below.
pub(crate) fn text_of(alloc: Global, page: &Page<'_>, caption: &[u8]) -> Result<Vec<u8>, Memory>
    requires { page.now.sheet.now.before + page.now.columns < 2 ^ 25 }
    ensures { IfOk result (λ t. t.items ≡ picture_text (view_in page.now) caption.now) }
{
    let signs = signs_of(alloc, page)?;
    let mut text = String::new(alloc);
    push_opening(&mut text, page, signs.len() as u64, caption.len())?;
    push_marks(&mut text, page)?;
    push_words(&mut text, page, signs.as_slice())?;
    let mut text = text.into_bytes();
    push_escaped(&mut text, caption)?;
    text.extend_from_slice(b"</text>\n</g>\n</svg>\n")?;
    Ok(text)
}

// Gathers how a document begins, with so many lines of the legend and a line of text of this length: its size, its style, and
// its background.
fn push_opening(text: &mut String, page: &Page<'_>, signs: u64, line: usize) -> Result<(), Memory>
    requires exact { signs ≡ length (signs_of (view_in page.now)) }
    requires few { signs ≤ 13 }
    ensures { OnOk result (string_bytes text.new ≡ string_bytes text.old ++ opening (view_in page.now) line) }
{
    let wide = x_of(page.columns) + 120;
    // Of more than 4096 bytes no more counts.
    let line = 24 + 8 * line.min(4096) as u64;
    let width = wide.max(line.max(560));
    let height = top_of(page) + 18 * ((signs + 1) / 2);
    writeln!(
        text,
        "<svg xmlns='http://www.w3.org/2000/svg' viewBox='0 0 {width} {height}' width='{width}'>"
    )?;
    writeln!(text, "{STYLE}{HEADS}")?;
    Ok(writeln!(
        text,
        "<rect class='paper' width='{width}' height='{height}' fill='#fff'/>"
    )?)
}

// Gathers the lanes and marks of a picture.
fn push_marks(text: &mut String, page: &Page<'_>) -> Result<(), Memory>
    requires { page.now.sheet.now.before + page.now.columns < 2 ^ 25 }
    ensures { OnOk result (string_bytes text.new ≡ string_bytes text.old ++ marks_text (view_in page.now)) }
{
    writeln!(text, "<g fill='none' stroke='#1d232b'>")?;
    push_rows(text, page, Layer::Stretches)?;
    push_lanes(text, page, &Thread::Ends)?;
    push_cuts(text, page)?;
    push_rows(text, page, Layer::Arrows)?;
    push_rows(text, page, Layer::Figures)?;
    push_breach(text, page)
}

// Gathers the words of a picture with these lines of the legend, up to what is said below.
fn push_words(text: &mut String, page: &Page<'_>, signs: &[Sign]) -> Result<(), Memory>
    requires signs { signs.now ≡ signs_of (view_in page.now) }
    requires few { length signs.now ≤ 13 }
    ensures { OnOk result (string_bytes text.new ≡ string_bytes text.old ++ words_text (view_in page.now)) }
{
    writeln!(text, "</g>\n<g fill='#1d232b'>")?;
    push_lanes(text, page, &Thread::Names)?;
    push_rows(text, page, Layer::Words)?;
    push_word(text, rule_of(page))?;
    push_legend(text, signs, top_of(page))?;
    let y = y_of(page.lanes.count());
    Ok(write!(text, "<text x='12' y='{y}' dy='10'>")?)
}

// Where the legend begins, below the line of text.
fn top_of(page: &Page<'_>) -> u64
    ensures exact { result ≡ top_of (view_in page.now) }
    ensures few { result < 2 ^ 32 }
{
    y_of(page.lanes.count()) + 34
}

// The layers of rows.
#[derive(Clone, Copy)]
pub(crate) enum Layer {
    Stretches,
    Arrows,
    Figures,
    Words,
}

// Gathers the marks of all rows in a layer.
fn push_rows(text: &mut String, page: &Page<'_>, layer: Layer) -> Result<(), Memory>
    ensures { OnOk result (string_bytes text.new ≡ string_bytes text.old ++ rows_text layer (view_in page.now)) }
{
    for row in &page.sheet.shown {
        push_row(text, page, layer, row)?;
    }
    Ok(())
}

// Gathers the marks of a row in a layer.
fn push_row(text: &mut String, page: &Page<'_>, layer: Layer, s: &Shown) -> Result<(), Memory>
    ensures { OnOk result (string_bytes text.new ≡ string_bytes text.old ++ row_mark layer (view_in page.now) s.now) }
{
    match layer {
        Layer::Stretches => {
            let from = page.place(s.stretch.since, s.event.process());
            push_stretch(text, s.stretch, from, s.column)
        }
        Layer::Arrows => match arrow_at(page, s, s.event) {
            Some(arrow) => push_path(text, page, s, arrow),
            None => Ok(()),
        },
        Layer::Figures => {
            let at = page.place(s.column, s.event.process());
            push_path(text, page, s, figure_at(at, s))
        }
        Layer::Words => {
            push_word(text, number_at(s))?;
            push_word(text, word_at(page, s, s.event))
        }
    }
}

// Gathers a stretch of a lane from this place on to a column, over a bar while its process is in an instance.
fn push_stretch(text: &mut String, s: Stretch, from: Place, until: u32) -> Result<(), Memory>
    ensures { OnOk result (string_bytes text.new ≡ string_bytes text.old ++ stretch_text s from until) }
{
    let look = if s.up { Look::Up } else { Look::Down };
    let lane = Path::at(from, look, None, Outline::Along(until));
    match s.open_in {
        Some(inst) => {
            let bar = Path::at(from, Look::Bar, Some(inst.get()), Outline::Along(until));
            Ok(writeln!(text, "{bar}\n{lane}")?)
        }
        None => Ok(writeln!(text, "{lane}")?),
    }
}

// Gathers what is drawn of a row, under its tooltip, which says why its process took part.
fn push_path(text: &mut String, page: &Page<'_>, s: &Shown, path: Path) -> Result<(), Memory>
    ensures { OnOk result (string_bytes text.new ≡ string_bytes text.old ++ titled_text (view_in page.now) s.now path) }
{
    let fields = fields_of(page.alloc, s.event)?;
    write!(text, "<g><title>row {}: {fields}", s.row)?;
    push_reason(text, page, s.event)?;
    Ok(writeln!(text, "</title>{path}</g>")?)
}

// What follows lanes.
#[derive(Clone, Copy)]
pub(crate) enum Thread {
    /// How they go on to the right end.
    Ends,
    /// A permanent cut.
    Cut(CutMark),
    Names,
}

// Gathers the marks of all lanes.
fn push_lanes(text: &mut String, page: &Page<'_>, thread: &Thread) -> Result<(), Memory>
    ensures { OnOk result (string_bytes text.new ≡ string_bytes text.old ++ lanes_text thread.now (view_in page.now)) }
{
    for p in page.lanes.processes() {
        push_lane(text, page, thread, *p)?;
    }
    Ok(())
}

// Gathers the marks of a process's lane.
fn push_lane(text: &mut String, page: &Page<'_>, thread: &Thread, p: ProcNo) -> Result<(), Memory>
    ensures { OnOk result (string_bytes text.new ≡ string_bytes text.old ++ lane_mark thread.now (view_in page.now) p) }
{
    let y = y_of(page.lanes.of(p));
    match thread {
        Thread::Ends => match page.sheet.ends.get(p.index()) {
            Some(end) => push_stretch(text, *end, page.place(end.since, p), page.right),
            None => Ok(()),
        },
        Thread::Cut(cut) => {
            // Cuts of instances that follow each other lie side by side.
            let aside = 3 * (u64::from(cut.inst.get()) % 4);
            let x = x_of(cut.columns[p.index()]) - aside;
            Ok(write!(text, "{x},{} {x},{} ", y - 15, y + 15)?)
        }
        Thread::Names => {
            write!(text, "<text class='name' x='124' y='{y}' dy='4'>")?;
            push_name(text, page.names, p)?;
            Ok(writeln!(text, "</text>")?)
        }
    }
}

// Gathers the permanent cuts that differ from the one before.
fn push_cuts(text: &mut String, page: &Page<'_>) -> Result<(), Memory>
    ensures { OnOk result (string_bytes text.new ≡ string_bytes text.old
        ++ flat_map (cut_text (view_in page.now)) page.now.sheet.now.cuts.items) }
{
    for cut in &page.sheet.cuts {
        if cut.is_new {
            let inst = cut.inst.get();
            write!(text, "<polyline class='cut c{}' points='", inst % 6)?;
            push_lanes(text, page, &Thread::Cut(*cut))?;
            writeln!(
                text,
                "'><title>permanent cut after instance {inst}</title></polyline>"
            )?;
        }
    }
    Ok(())
}

// Gathers the row that breaks a rule, where there is one, as what it says in the colour of a warning.
fn push_breach(text: &mut String, page: &Page<'_>) -> Result<(), Memory>
    requires { page.now.sheet.now.before + page.now.columns < 2 ^ 25 }
    ensures { OnOk result (string_bytes text.new ≡ string_bytes text.old ++ breach_text (view_in page.now)) }
{
    let Some(breach) = page.breach else {
        return Ok(());
    };
    let s = breach.shown(page.sheet.before + page.columns, page.columns);
    write!(text, "<g class='wrong'>")?;
    push_row(text, page, Layer::Arrows, &s)?;
    push_row(text, page, Layer::Figures, &s)?;
    Ok(writeln!(text, "</g>")?)
}

// Which rule it breaks, above the lanes.
fn rule_of(page: &Page<'_>) -> Option<Word>
    ensures { result ≡ rule_of (view_in page.now) }
{
    let x = x_of(page.columns);
    match page.breach {
        Some(breach) => {
            let saying = Saying::Rule(breach.rule);
            Some(Word { x, y: 34, saying })
        }
        None => None,
    }
}

// Gathers a text of others, in which nothing is read as a mark.
fn push_escaped(text: &mut Vec<u8>, other: &[u8]) -> Result<(), Memory>
    ensures { OnOk result (text.new.items ≡ text.old.items ++ escaped other.now) }
{
    for byte in other {
        push_byte(text, *byte)?;
    }
    Ok(())
}

// Gathers a byte of such a text.
fn push_byte(text: &mut Vec<u8>, byte: u8) -> Result<(), Memory>
    ensures { OnOk result (text.new.items ≡ text.old.items ++ escaped_byte byte) }
{
    match byte {
        b'"' => Ok(text.extend_from_slice(b"&quot;")?),
        b'&' => Ok(text.extend_from_slice(b"&amp;")?),
        b'\'' => Ok(text.extend_from_slice(b"&apos;")?),
        b'<' => Ok(text.extend_from_slice(b"&lt;")?),
        b'>' => Ok(text.extend_from_slice(b"&gt;")?),
        _ => Ok(text.push(byte)?),
    }
}
