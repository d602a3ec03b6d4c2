//! How marks look, and where they stand; the style sheet of a picture, with nothing from outside it.

ghost use Rattle.std.specs.Prelude.{◌≡◌};
ghost use Rattle.kt_picture.specs.Looks.{path_at, x_of, y_of};

use std::fmt;

/// The class of a mark, as the style sheet names it.
#[derive(Clone, Copy)]
pub(crate) enum Look {
    /// A lane while its process is up.
    Up,
    /// A lane while its process is down.
    Down,
    /// The bar of an instance.
    Bar,
    /// The arrow of a message.
    Message,
    /// The arrow of a message whose send is undone.
    Unsent,
    /// The arrow of a message whose receive is undone.
    Unreceived,
    /// The arrow of a message of which both are undone.
    Vanished,
    /// The arrow of a message of a chain.
    Linked,
    /// The arrow of the orphan that stands out.
    Orphan,
    /// The arrow of a message in transit.
    Way,
    Dot,
    /// The send of a message, undone.
    PaleDot,
    Tick,
    /// The receive of a message, undone.
    PaleTick,
    Dropped,
    Failed,
    /// A process did not do what it was asked.
    Refused,
    Open,
    /// What is filled, after a commit.
    Full,
    /// A permanent cut.
    Cut,
}

impl fmt::Display for Look {
    ghost use Rattle.std.specs.Prelude.{Some};
    ghost use Rattle.kt_picture.specs.Looks.{class_text};

    ghost output = { λ look. Some (class_text look) };

    fn fmt<W: fmt::Write>(&self, f: &mut fmt::Formatter<W>) -> fmt::Result {
        match self {
            Look::Up => write!(f, "lane"),
            Look::Down => write!(f, "lane down"),
            Look::Bar => write!(f, "in"),
            Look::Message => write!(f, "m"),
            Look::Unsent => write!(f, "m gone"),
            Look::Unreceived => write!(f, "m back"),
            Look::Vanished => write!(f, "m gone back"),
            Look::Linked => write!(f, "m link"),
            Look::Orphan => write!(f, "m orphan"),
            Look::Way => write!(f, "m way"),
            Look::Dot => write!(f, "dot"),
            Look::PaleDot => write!(f, "dot pale"),
            Look::Tick => write!(f, "open"),
            Look::PaleTick => write!(f, "open faint"),
            Look::Dropped => write!(f, "x"),
            Look::Failed => write!(f, "bolt"),
            Look::Refused => write!(f, "w"),
            Look::Open => write!(f, "f"),
            Look::Full => write!(f, "f full"),
            Look::Cut => write!(f, "cut"),
        }
    }
}

/// The outline of a mark, which begins at the middle of its place.
#[derive(Clone, Copy)]
pub(crate) enum Outline {
    /// A message is sent.
    Dot,
    /// A message is received.
    Tick,
    /// A message is dropped.
    Cross,
    /// A process fails.
    Bolt,
    /// A process did not do what it was asked.
    Ban,
    /// A line.
    Line,
    /// An instance begins.
    Beginning,
    /// A process closes.
    Ending,
    /// A checkpoint, crossed after an abort.
    Square { crossed: bool },
    /// A process is ready to roll back; crossed after an abort.
    Triangle { crossed: bool },
    /// A decision, crossed for an abort.
    Diamond { crossed: bool },
    /// The way of a message in transit, down or else up.
    Way { down: bool },
    /// The way of a message to where it is taken.
    To(Place),
    /// Along a lane to a column.
    Along(u32),
}

impl fmt::Display for Outline {
    ghost use Rattle.std.specs.Prelude.{Some};
    ghost use Rattle.kt_picture.specs.Looks.{outline_text};

    ghost output = { λ outline. Some (outline_text outline) };

    fn fmt<W: fmt::Write>(&self, f: &mut fmt::Formatter<W>) -> fmt::Result {
        match *self {
            Outline::Dot => write!(f, "m-3 0a3 3 0 1 0 6 0a3 3 0 1 0 -6 0"),
            Outline::Tick => write!(f, "m0 -4v8"),
            Outline::Cross => write!(f, "m-5 -5l10 10m0 -10l-10 10"),
            Outline::Bolt => write!(f, "m3 -11l-9 12h5l-2 10l9 -12h-5z"),
            Outline::Ban => write!(f, "m-6 0a6 6 0 1 0 12 0a6 6 0 1 0 -12 0m2 -4l8 8"),
            Outline::Line => write!(f, "m-12 0h24"),
            Outline::Beginning => write!(f, "m-5 0h10"),
            Outline::Ending => write!(f, "m0 -5v10"),
            Outline::Square { crossed: false } => write!(f, "m-7 -7h14v14h-14z"),
            Outline::Square { crossed: true } => write!(f, "m-7 -7h14v14h-14zl14 14"),
            Outline::Triangle { crossed: false } => write!(f, "m7 -8v16l-15 -8z"),
            Outline::Triangle { crossed: true } => write!(f, "m7 -8v16l-15 -8zm-10 3l8 10"),
            Outline::Diamond { crossed: false } => write!(f, "m0 -8l8 8l-8 8l-8 -8z"),
            Outline::Diamond { crossed: true } => write!(f, "m0 -8l8 8l-8 8l-8 -8zm-4 4l8 8"),
            Outline::Way { down: true } => write!(f, "l9 11"),
            Outline::Way { down: false } => write!(f, "l9 -11"),
            Outline::To(Place { x, y }) => write!(f, "L{x} {y}"),
            Outline::Along(column) => write!(f, "H{}", x_of(column)),
        }
    }
}

/// What is drawn from a place on: its class, the number of the instance whose colour it has, one of six, and its outline.
#[derive(Clone, Copy)]
pub(crate) struct Path {
    pub(crate) from: Place,
    pub(crate) look: Look,
    pub(crate) inst: Option<u16>,
    pub(crate) outline: Outline,
}

impl Path {
    /// The path from a place on.
    pub(crate) fn at(from: Place, look: Look, inst: Option<u16>, outline: Outline) -> Path
        ensures { result ≡ path_at from look inst outline }
    {
        Path {
            from,
            look,
            inst,
            outline,
        }
    }
}

impl fmt::Display for Path {
    ghost use Rattle.std.specs.Prelude.{Some};
    ghost use Rattle.kt_picture.specs.Looks.{drawn_path};

    ghost output = { λ path. Some (drawn_path path.from path.look path.inst path.outline) };

    fn fmt<W: fmt::Write>(&self, f: &mut fmt::Formatter<W>) -> fmt::Result {
        let Place { x, y } = self.from;
        let look = self.look;
        let outline = self.outline;
        match self.inst {
            Some(inst) => {
                let colour = inst % 6;
                write!(f, "<path class='{look} c{colour}' d='M{x} {y}{outline}'/>")
            }
            None => write!(f, "<path class='{look}' d='M{x} {y}{outline}'/>"),
        }
    }
}

/// Where a column is.
pub(crate) fn x_of(column: u32) -> u64
    ensures { result ≡ x_of column }
{
    136 + 26 * u64::from(column)
}

/// Where a lane is.
pub(crate) fn y_of(lane: u8) -> u64
    ensures { result ≡ y_of lane }
{
    90 + 64 * u64::from(lane)
}

/// A place, so far from the left and from above, in units of the picture.
#[derive(Clone, Copy)]
pub(crate) struct Place {
    pub(crate) x: u64,
    pub(crate) y: u64,
}

/// How marks look, and what differs where a dark page is asked for.
pub(crate) const STYLE: &str = "<style>svg{font:12px system-ui,sans-serif}path,polyline{fill:none}
text{paint-order:stroke;stroke-width:3px;stroke-linejoin:round}
.num,.say,.bad,.top,.rule,.inst{font-size:10px}.top{text-anchor:middle}.name,.rule{text-anchor:end}
.name{font-family:monospace}.inst{font-weight:600}.lane,.m,.open{stroke-width:1.4}.down{stroke-dasharray:2 5}
.in{stroke-width:10;stroke-opacity:.28}.f,.w{stroke-width:1.6}.x{stroke-width:2.4}
.m{marker-end:url(#a)}.way{marker-end:url(#o)}.gone{stroke-dasharray:6 4}.back{stroke-width:.8}
.gone,.back{marker-end:url(#g)}.link{stroke-width:2.6}.orphan{stroke-width:4}
.orphan,.wrong .m{marker-end:url(#x)}.dot,.tip{stroke:none}
.cut{stroke-width:2;stroke-dasharray:1 5;stroke-linecap:round}
.link.c0{marker-end:url(#k0)}.link.c1{marker-end:url(#k1)}.link.c2{marker-end:url(#k2)}
.link.c3{marker-end:url(#k3)}.link.c4{marker-end:url(#k4)}.link.c5{marker-end:url(#k5)}
.paper,.f,.w{fill:#fff}text{fill:#1d232b;stroke:#fff}.num,.top{fill:#5c6672}.lane{stroke:#7a8490}
.m,.open{stroke:#1d232b}.dot,.tip{fill:#1d232b}.gone,.back,.faint{stroke:#a3abb5}
.pale{fill:#a3abb5}.x,.w,.bolt,.orphan{stroke:#a8201a}.bolt,.hot,.bad,.rule{fill:#a8201a}
.c0{stroke:#0b3d75}.c1{stroke:#d9771f}.c2{stroke:#7a1f5c}
.c3{stroke:#2f9e6a}.c4{stroke:#5b3a9e}.c5{stroke:#c4612e}
.full.c0,.k0{fill:#0b3d75}.full.c1,.k1{fill:#d9771f}.full.c2,.k2{fill:#7a1f5c}
.full.c3,.k3{fill:#2f9e6a}.full.c4,.k4{fill:#5b3a9e}.full.c5,.k5{fill:#c4612e}
.wrong path{stroke:#a8201a}.wrong .dot,.wrong .full,.wrong .bolt{fill:#a8201a}
@media(prefers-color-scheme:dark){.paper,.f,.w{fill:#14181d}text{fill:#e6eaef;stroke:#14181d}
.num,.top{fill:#98a3ae}.lane{stroke:#87919c}.m,.open{stroke:#e6eaef}.dot,.tip{fill:#e6eaef}
.gone,.back,.faint{stroke:#5d6772}.pale{fill:#5d6772}
.x,.w,.bolt,.orphan{stroke:#ff7a70}.bolt,.hot,.bad,.rule{fill:#ff7a70}
.c0{stroke:#7db4f0}.c1{stroke:#c9701f}.c2{stroke:#8fe0b4}
.c3{stroke:#b06fd8}.c4{stroke:#f2d16b}.c5{stroke:#d9557f}
.full.c0,.k0{fill:#7db4f0}.full.c1,.k1{fill:#c9701f}.full.c2,.k2{fill:#8fe0b4}
.full.c3,.k3{fill:#b06fd8}.full.c4,.k4{fill:#f2d16b}.full.c5,.k5{fill:#d9557f}
.wrong path{stroke:#ff7a70}.wrong .dot,.wrong .full,.wrong .bolt{fill:#ff7a70}}</style>
";

/// The heads of arrows, each in its arrow's colour: of a message that was taken, of one that is undone, of what is wrong, of the
/// messages of chains, and of one in transit.
pub(crate) const HEADS: &str = "<defs>
<marker id='a' viewBox='0 0 8 8' refX='8' refY='4' markerUnits='userSpaceOnUse' markerWidth='9' markerHeight='9' orient='auto'><path class='tip' d='M0 0L8 4L0 8z'/></marker>
<marker id='g' viewBox='0 0 8 8' refX='8' refY='4' markerUnits='userSpaceOnUse' markerWidth='9' markerHeight='9' orient='auto'><path class='tip pale' d='M0 0L8 4L0 8z'/></marker>
<marker id='x' viewBox='0 0 8 8' refX='8' refY='4' markerUnits='userSpaceOnUse' markerWidth='9' markerHeight='9' orient='auto'><path class='tip hot' d='M0 0L8 4L0 8z'/></marker>
<marker id='k0' viewBox='0 0 8 8' refX='8' refY='4' markerUnits='userSpaceOnUse' markerWidth='9' markerHeight='9' orient='auto'><path class='tip k0' d='M0 0L8 4L0 8z'/></marker>
<marker id='k1' viewBox='0 0 8 8' refX='8' refY='4' markerUnits='userSpaceOnUse' markerWidth='9' markerHeight='9' orient='auto'><path class='tip k1' d='M0 0L8 4L0 8z'/></marker>
<marker id='k2' viewBox='0 0 8 8' refX='8' refY='4' markerUnits='userSpaceOnUse' markerWidth='9' markerHeight='9' orient='auto'><path class='tip k2' d='M0 0L8 4L0 8z'/></marker>
<marker id='k3' viewBox='0 0 8 8' refX='8' refY='4' markerUnits='userSpaceOnUse' markerWidth='9' markerHeight='9' orient='auto'><path class='tip k3' d='M0 0L8 4L0 8z'/></marker>
<marker id='k4' viewBox='0 0 8 8' refX='8' refY='4' markerUnits='userSpaceOnUse' markerWidth='9' markerHeight='9' orient='auto'><path class='tip k4' d='M0 0L8 4L0 8z'/></marker>
<marker id='k5' viewBox='0 0 8 8' refX='8' refY='4' markerUnits='userSpaceOnUse' markerWidth='9' markerHeight='9' orient='auto'><path class='tip k5' d='M0 0L8 4L0 8z'/></marker>
<marker id='o' viewBox='0 0 8 8' refX='8' refY='4' markerUnits='userSpaceOnUse' markerWidth='9' markerHeight='9' orient='auto'><path class='open' d='M0 0L8 4L0 8'/></marker></defs>";
