//! The legend of a picture: of the marks that it has, and of no others.

ghost use Rattle.std.specs.Prelude.{◌≡◌, ◌≤◌, ◌<◌, ◌^◌, ◌++◌, IfOk, OnOk, length, string_bytes};
ghost use Rattle.kt_picture.specs.Layers.{legend_text};
ghost use Rattle.kt_picture.specs.Legend.{row_shows, has_sign, signs_of};
ghost use Rattle.kt_picture.specs.Pages.{view_in};
ghost use Rattle.kt_picture.specs.Signs.{sign_path, sign_words};

use crate::looks::{Look, Outline, Path, Place};
use crate::rows::Page;
use crate::window::Shown;
use kt_base::Memory;
use kt_spacetime::Event;
use std::alloc::Global;
use std::fmt::Write;

/// A mark of the legend.
#[derive(Clone, Copy)]
pub(crate) enum Sign {
    Message,
    Undone,
    Chain,
    Transit,
    Dropped,
    Instance,
    Checkpoint,
    Rollback,
    Decision,
    Cut,
    Failure,
    Refusal,
    /// The row that breaks a rule, or the orphan that stands out.
    Wrong,
}

// The marks in their order.
pub(crate) const SIGNS: [Sign; 13] = [
    Sign::Message,
    Sign::Undone,
    Sign::Chain,
    Sign::Transit,
    Sign::Dropped,
    Sign::Instance,
    Sign::Checkpoint,
    Sign::Rollback,
    Sign::Decision,
    Sign::Cut,
    Sign::Failure,
    Sign::Refusal,
    Sign::Wrong,
];

impl Sign {
    // How it looks.
    fn path(self) -> Path
        ensures { result ≡ sign_path self }
    {
        let at = Place { x: 24, y: 0 };
        let square = Outline::Square { crossed: false };
        let triangle = Outline::Triangle { crossed: false };
        let diamond = Outline::Diamond { crossed: false };
        match self {
            Sign::Message => Path::at(at, Look::Message, None, Outline::Line),
            Sign::Undone => Path::at(at, Look::Unsent, None, Outline::Line),
            Sign::Chain => Path::at(at, Look::Linked, Some(1), Outline::Line),
            Sign::Transit => Path::at(at, Look::Way, None, Outline::Line),
            Sign::Dropped => Path::at(at, Look::Dropped, None, Outline::Cross),
            Sign::Instance => Path::at(at, Look::Bar, Some(1), Outline::Line),
            Sign::Checkpoint => Path::at(at, Look::Full, Some(1), square),
            Sign::Rollback => Path::at(at, Look::Full, Some(1), triangle),
            Sign::Decision => Path::at(at, Look::Full, Some(1), diamond),
            Sign::Cut => Path::at(at, Look::Cut, Some(1), Outline::Line),
            Sign::Failure => Path::at(at, Look::Failed, None, Outline::Bolt),
            Sign::Refusal => Path::at(at, Look::Refused, None, Outline::Ban),
            Sign::Wrong => Path::at(at, Look::Orphan, None, Outline::Line),
        }
    }

    // What the legend says of it.
    fn words(self) -> &'static str
        ensures { result.now ≡ sign_words self }
    {
        match self {
            Sign::Message => "message, sent and received",
            Sign::Undone => "its send or its receive is undone",
            Sign::Chain => "message by which a process joined",
            Sign::Transit => "message in transit",
            Sign::Dropped => "message dropped",
            Sign::Instance => "in an instance, begun at C or R",
            Sign::Checkpoint => "checkpoint: full if committed",
            Sign::Rollback => "rollback: full if committed",
            Sign::Decision => "decision: full for commit",
            Sign::Cut => "permanent cut after a commit",
            Sign::Failure => "failure; dashed while down",
            Sign::Refusal => "unwilling or refused, and why",
            Sign::Wrong => "what breaks a rule, or the orphan",
        }
    }
}

// Whether a row has a mark.
fn row_shows(page: &Page<'_>, sign: Sign, s: &Shown) -> bool
    ensures { result ≡ row_shows (view_in page.now) sign s.now }
{
    match sign {
        Sign::Message => matches!(s.event, Event::Sent { .. } | Event::Received { .. }),
        Sign::Undone => s.is_undone || s.is_taken_back,
        Sign::Chain => match s.event {
            Event::Received { msg, .. } | Event::Dropped { msg, .. } => page.link(msg).is_some(),
            _ => false,
        },
        Sign::Transit => s.is_in_transit,
        Sign::Dropped => matches!(s.event, Event::Dropped { .. }),
        Sign::Instance => matches!(s.event, Event::Began { .. }) || s.stretch.open_in.is_some(),
        Sign::Checkpoint => matches!(s.event, Event::Took { .. }),
        Sign::Rollback => matches!(s.event, Event::Ready { .. }),
        Sign::Decision => matches!(s.event, Event::Decided { .. }),
        Sign::Failure => matches!(s.event, Event::Failed { .. }),
        Sign::Refusal => matches!(s.event, Event::Unwilling { .. } | Event::Refused { .. }),
        Sign::Cut | Sign::Wrong => false,
    }
}

// Whether a picture has a mark.
fn has_sign(page: &Page<'_>, sign: Sign) -> bool
    ensures { result ≡ has_sign (view_in page.now) sign }
{
    match sign {
        Sign::Cut => page.sheet.cuts.iter().any(|c| c.is_new),
        Sign::Wrong => page.breach.is_some() || page.orphan.is_some(),
        _ => page.sheet.shown.iter().any(|s| row_shows(page, sign, s)),
    }
}

/// The marks that a picture has, in their order.
pub(crate) fn signs_of(alloc: Global, page: &Page<'_>) -> Result<Vec<Sign>, Memory>
    ensures exact { IfOk result (λ signs. signs.items ≡ signs_of (view_in page.now)) }
    ensures few { IfOk result (λ signs. length signs.items ≤ 13) }
{
    let signs = SIGNS.iter().copied().filter(|sign| has_sign(page, *sign));
    Ok(signs.collect(alloc)?)
}

/// Gathers the legend of these marks, whose lines come two by two from this height on.
pub(crate) fn push_legend(text: &mut String, signs: &[Sign], top: u64) -> Result<(), Memory>
    requires top { top < 2 ^ 32 }
    requires few { length signs.now ≤ 13 }
    ensures { OnOk result (string_bytes text.new ≡ string_bytes text.old ++ legend_text signs.now top) }
{
    for (place, sign) in signs.iter().enumerate() {
        let x = 260 * (place as u64 % 2);
        let y = top + 18 * (place as u64 / 2);
        let path = sign.path();
        let words = sign.words();
        writeln!(
            text,
            "<g transform='translate({x} {y})'>{path}<text x='44' y='4'>{words}</text></g>"
        )?;
    }
    Ok(())
}
