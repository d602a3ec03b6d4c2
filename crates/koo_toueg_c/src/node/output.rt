//! What a step puts out, in numbers.

ghost use Rattle.std.specs.Prelude.{◌≡◌, ◌<◌, ℕ, slice_get, Some};
ghost use Rattle.koo_toueg_c.specs.NodeNumbers.{act_numbers, act_told, no_act, no_output, or_one_more, output_of_refusal, output_too_long, parcel_numbers, row_numbers};
ghost use Rattle.koo_toueg_c.specs.Nodes.{TellsOutput, parcel_for};

use crate::node::parcel::KtParcel;
use crate::node::refusal::Refusal;
use crate::node::row::KtRow;
use kt_base::ProcNo;
use kt_node::{Node, Output, Parcels};
use kt_plan::Act;
use kt_spacetime::NamedEvent;

/// What is to be done to an object, in numbers. A number is 0 where nothing is named.
#[repr(C)]
#[derive(Clone, Copy)]
pub struct KtAct {
    /// 1 the object takes in a message's body, 2 the state that was saved is kept as the tentative one, 3 the tentative state
    /// becomes the permanent one, 4 the tentative state is dropped, 5 the object is restored from the permanent state, 6 the
    /// object is dropped; 0 nothing.
    pub kind: u32,
    /// The sender of the message, 0 to 63.
    pub from: u32,
    /// The body of the message.
    pub body: i64,
}

/// What became of an input, in numbers: what a step puts out, or why there is none. A number is 0 where nothing is named.
#[repr(C)]
#[derive(Clone, Copy)]
pub struct KtOutput {
    /// Why there is no step: 1 the bytes are those of no node, 2 the numbers mean no input, 3 `Unknown`, 4 `Itself`, 5 `Waits`,
    /// 6 `HeldFirst`, 7 `HoldsNone`, 8 `LabelsSpent`, 9 `CountsSpent`, 10 `ClockSpent`, 11 `Gap`, 12 there was no memory,
    /// 13 `Astray`, 14 `Leap`, 15 `Stale`, 16 `NotBegun`.
    pub fault: u32,
    /// Which process it is of, 0 to 63.
    pub process: u32,
    /// How many processes there are.
    pub processes: u32,
    /// One more than the process of which it is to take a message next that it holds.
    pub held: u32,
    /// Whether it is in an open instance by now, so that a send waits.
    pub busy: u32,
    /// Whether its object is up by now.
    pub up: u32,
    /// The number of the parcel that has to come first, of `Gap`.
    pub expected: u64,
    /// How many bytes the state would take, where it did not fit.
    pub needed: u64,
    /// The clock of the step.
    pub clock: u64,
    /// The rows that it told, in order.
    pub rows: [KtRow; 4],
    /// What is to be done to its object, in order.
    pub acts: [KtAct; 2],
    /// The parcel that it put for each process.
    pub parcels: [KtParcel; 64],
}

impl KtAct {
    /// Nothing.
    pub(crate) fn none() -> KtAct
        ensures { result ≡ no_act }
    {
        KtAct {
            kind: 0,
            from: 0,
            body: 0,
        }
    }

    // An act in numbers, or nothing.
    fn of(act: Option<Act>) -> KtAct
        ensures { result ≡ act_told act }
    {
        match act {
            Some(act) => KtAct::told(&act),
            None => KtAct::none(),
        }
    }

    // An act in numbers.
    fn told(act: &Act) -> KtAct
        ensures { result ≡ act_numbers act.now }
    {
        let kind = match act {
            Act::Nothing => 0,
            Act::Apply { from, body } => {
                return KtAct {
                    kind: 1,
                    from: u32::from(from.get()),
                    body: *body,
                };
            }
            Act::Keep => 2,
            Act::Promote => 3,
            Act::Discard => 4,
            Act::Restore => 5,
            Act::Drop => 6,
        };
        KtAct {
            kind,
            ..KtAct::none()
        }
    }
}

impl KtOutput {
    /// Nothing.
    pub(crate) fn none() -> KtOutput
        ensures { result ≡ no_output }
    {
        KtOutput {
            fault: 0,
            process: 0,
            processes: 0,
            held: 0,
            busy: 0,
            up: 0,
            expected: 0,
            needed: 0,
            clock: 0,
            rows: [KtRow::none(); 4],
            acts: [KtAct::none(); 2],
            parcels: [KtParcel::none(); 64],
        }
    }

    /// Nothing.
    pub(crate) fn clear(&mut self)
        ensures { self.new ≡ no_output }
    {
        *self = KtOutput::none();
    }

    /// Why there is no step.
    pub(crate) fn tell_refusal(&mut self, why: &Refusal)
        ensures { self.new ≡ output_of_refusal why.now }
    {
        self.clear();
        self.fault = why.number();
        self.expected = why.expected();
    }

    /// How many bytes a state would take.
    pub(crate) fn tell_needed(&mut self, needed: usize)
        ensures { self.new ≡ output_too_long needed }
    {
        self.clear();
        self.needed = needed as u64;
    }

    /// What a step puts out, and how its node stands by then.
    pub(crate) fn tell(&mut self, node: &Node, out: &Output)
        ensures { TellsOutput node.now out.now self.new }
    {
        self.clear();
        let manager = node.manager();
        self.process = u32::from(manager.me().get());
        self.processes = manager.size() as u32;
        self.held = or_one_more(manager.next_held());
        self.busy = u32::from(manager.in_inst().is_some());
        self.up = u32::from(manager.is_up());
        self.clock = out.clock;
        tell_rows(&mut self.rows, out.effects.rows());
        tell_acts(&mut self.acts, out.effects.acts());
        tell_parcels(&mut self.parcels, out);
    }
}

// One more than a process, or 0.
fn or_one_more(process: Option<ProcNo>) -> u32
    ensures { result ≡ or_one_more process }
{
    match process {
        Some(process) => u32::from(process.get()) + 1,
        None => 0,
    }
}

// Rows in numbers, in order, and no rows behind them.
fn tell_rows(told: &mut [KtRow; 4], rows: &[NamedEvent])
    ensures { (i : ℕ) → i < 4 → slice_get told.new i ≡ Some (row_numbers (slice_get rows.now i)) }
{
    for place in 0..4 {
        told[place] = KtRow::of(rows.get(place).copied());
    }
}

// Acts in numbers, in order, and nothing behind them.
fn tell_acts(told: &mut [KtAct; 2], acts: &[Act])
    ensures { (i : ℕ) → i < 2 → slice_get told.new i ≡ Some (act_told (slice_get acts.now i)) }
{
    for place in 0..2 {
        told[place] = KtAct::of(acts.get(place).copied());
    }
}

// The parcel for each process, in numbers, where there was none.
fn tell_parcels(told: &mut [KtParcel; 64], out: &Output)
    requires { told.old ≡ no_output.parcels }
    ensures { (q : ℕ) → q < 64 →
        slice_get told.new q ≡ Some (parcel_numbers (parcel_for out.now q)) }
{
    match out.effects.parcels() {
        Parcels::Nothing => {}
        Parcels::One { to, .. } => told[to.index()] = parcel_to(out, *to),
        Parcels::Asks { .. } | Parcels::Decisions { .. } => tell_each(told, out),
    }
}

// The same, where there may be parcels for many.
fn tell_each(told: &mut [KtParcel; 64], out: &Output)
    ensures { (q : ℕ) → q < 64 →
        slice_get told.new q ≡ Some (parcel_numbers (parcel_for out.now q)) }
{
    for number in 0..ProcNo::COUNT {
        let to = ProcNo::nth(number);
        told[to.index()] = parcel_to(out, to);
    }
}

// The parcel for a process, in numbers.
fn parcel_to(out: &Output, to: ProcNo) -> KtParcel
    ensures { result ≡ parcel_numbers (parcel_for out.now to) }
{
    KtParcel::of(out.to(to))
}
