//! Parcels in numbers.

ghost use Rattle.std.specs.Prelude.{◌≡◌, Some};
ghost use Rattle.koo_toueg_c.specs.NodeNumbers.{envelope_meant, inst_meant, kind_meant, no_parcel, of_kind, parcel_meant, parcel_numbers, parcel_told, process_meant};

use kt_base::{Kind, Label, ProcNo};
use kt_node::{Envelope, NodeParcel};
use kt_spacetime::{Count, InstName};

/// A parcel in numbers, as it travels. A number is 0 where nothing is named, and where it says no.
#[repr(C)]
#[derive(Clone, Copy)]
pub struct KtParcel {
    /// 1 a message, 2 an ask, 3 a reply, 4 a decision; 0 no parcel.
    pub kind: u32,
    /// Its sender, 0 to 63.
    pub from: u32,
    /// Its receiver, 0 to 63.
    pub to: u32,
    /// Who began the instance, 0 to 63.
    pub initiator: u32,
    /// Whether an ask is of a rollback.
    pub rollback: u32,
    /// Whether a reply is willing, or a decision commits.
    pub yes: u32,
    /// Which one of those from its sender to its receiver, from 1.
    pub number: u64,
    /// The clock of the step that put it.
    pub clock: u64,
    /// Which one of those that its initiator began the instance is, 1 to 2^48 - 1.
    pub count: u64,
    /// The label of a message, 1 to 2^48 - 1, or of an ask, where it may be 0.
    pub label: u64,
    /// The body of a message.
    pub body: i64,
}

/// The process with this number, 0 to 63.
pub(crate) fn process_meant(number: u32) -> Option<ProcNo>
    ensures { result ≡ process_meant number }
{
    ProcNo::new(u8::try_from(number).ok()?)
}

/// The instance with these numbers.
pub(crate) fn inst_meant(initiator: u32, count: u64) -> Option<InstName>
    ensures { result ≡ inst_meant initiator count }
{
    let initiator = process_meant(initiator)?;
    let count = Count::new(count)?;
    Some(InstName { initiator, count })
}

/// The kind of an instance that is a rollback, or is none.
pub(crate) fn kind_meant(rollback: u32) -> Kind
    ensures { result ≡ kind_meant rollback }
{
    if rollback == 0 {
        Kind::Checkpoint
    } else {
        Kind::Rollback
    }
}

/// Whether a kind is that of a rollback.
pub(crate) fn kind_number(kind: Kind) -> u32
    ensures { result ≡ of_kind kind }
{
    match kind {
        Kind::Checkpoint => 0,
        Kind::Rollback => 1,
    }
}

impl KtParcel {
    /// No parcel.
    pub(crate) fn none() -> KtParcel
        ensures { result ≡ no_parcel }
    {
        KtParcel {
            kind: 0,
            from: 0,
            to: 0,
            initiator: 0,
            rollback: 0,
            yes: 0,
            number: 0,
            clock: 0,
            count: 0,
            label: 0,
            body: 0,
        }
    }

    /// A parcel in numbers, or no parcel.
    pub(crate) fn of(envelope: Option<Envelope>) -> KtParcel
        ensures numbers { result ≡ parcel_numbers envelope }
        ensures meant { envelope_meant result ≡ envelope }
    {
        match envelope {
            Some(envelope) => KtParcel {
                from: u32::from(envelope.from.get()),
                to: u32::from(envelope.to.get()),
                number: envelope.number,
                clock: envelope.clock,
                ..KtParcel::told(&envelope.parcel)
            },
            None => KtParcel::none(),
        }
    }

    // What a parcel says, in numbers.
    fn told(parcel: &NodeParcel) -> KtParcel
        ensures numbers { result ≡ parcel_told parcel.now }
        ensures meant { parcel_meant result ≡ Some parcel.now }
    {
        match parcel {
            NodeParcel::App { label, body } => KtParcel {
                kind: 1,
                label: label.get(),
                body: *body,
                ..KtParcel::none()
            },
            NodeParcel::Ask { inst, kind, label } => KtParcel {
                kind: 2,
                initiator: u32::from(inst.initiator.get()),
                rollback: kind_number(*kind),
                count: inst.count.get(),
                label: label.get(),
                ..KtParcel::none()
            },
            NodeParcel::Reply { inst, willing } => KtParcel {
                kind: 3,
                initiator: u32::from(inst.initiator.get()),
                yes: u32::from(*willing),
                count: inst.count.get(),
                ..KtParcel::none()
            },
            NodeParcel::Decide { inst, commit } => KtParcel {
                kind: 4,
                initiator: u32::from(inst.initiator.get()),
                yes: u32::from(*commit),
                count: inst.count.get(),
                ..KtParcel::none()
            },
        }
    }

    /// The parcel that its numbers mean, if they mean one.
    pub(crate) fn envelope(&self) -> Option<Envelope>
        ensures { result ≡ envelope_meant self.now }
    {
        let from = process_meant(self.from)?;
        let to = process_meant(self.to)?;
        let parcel = self.meant()?;
        Some(Envelope {
            from,
            to,
            number: self.number,
            clock: self.clock,
            parcel,
        })
    }

    // What its numbers mean.
    fn meant(&self) -> Option<NodeParcel>
        ensures { result ≡ parcel_meant self.now }
    {
        match self.kind {
            1 => Some(NodeParcel::App {
                label: Count::new(self.label)?,
                body: self.body,
            }),
            2 => Some(NodeParcel::Ask {
                inst: inst_meant(self.initiator, self.count)?,
                kind: kind_meant(self.rollback),
                label: Label::new(self.label)?,
            }),
            3 => Some(NodeParcel::Reply {
                inst: inst_meant(self.initiator, self.count)?,
                willing: self.yes != 0,
            }),
            4 => Some(NodeParcel::Decide {
                inst: inst_meant(self.initiator, self.count)?,
                commit: self.yes != 0,
            }),
            _ => None,
        }
    }
}
