//! One process's manager as bytes: what has to be durable of it, and what leads from one state to the next one.

ghost use Rattle.std.specs.Prelude.{◌≡◌, ◌≢◌, ◌≤◌, ◌<◌, ◌+◌, ◌↔◌, ℕ, List, take, length, Some, None, IfOk, IfErr};
ghost use Rattle.kt_node.specs.Links.{NodeLinks};
ghost use Rattle.kt_node.specs.declared.inputs.Input.{Input as Inputs};
ghost use Rattle.kt_node.specs.declared.node.Output.{Output as Outputs};
ghost use Rattle.koo_toueg_c.specs.declared.node.refusal.Refusal.{Refusal as Refusals};
ghost use Rattle.koo_toueg_c.specs.declared.node.refusal.Refusal.TheVariants as refusal;
ghost use Rattle.koo_toueg_c.specs.Buffers.{IsLeft, IsPut};
ghost use Rattle.koo_toueg_c.specs.NodeNumbers.{input_meant, look_status, no_output, output_of_refusal, output_too_long, part_row_meant, refusal_status};
ghost use Rattle.koo_toueg_c.specs.Nodes.{IsAgainOf, IsLookOf, IsNoNewNode, IsNoStep, IsRowText, IsSealed, IsStepOf, SaysNewNode, SaysNode, TellsOutput, TellsStep};

use crate::buffers::put;
use kt_base::Label;
use kt_merge::write_part;
use kt_node::{Node, Output};
use kt_node_text::load;
use kt_plan::Look;
use kt_spacetime::{ClockedRow, NamedRow};
use std::alloc::Global;

pub(crate) mod input;
pub(crate) mod output;
pub(crate) mod parcel;
pub(crate) mod refusal;
pub(crate) mod row;
mod stepping;
#[cfg(test)]
mod tests;

use input::KtInput;
use output::KtOutput;
use parcel::process_meant;
use refusal::Refusal;
use row::KtRow;
use stepping::{Step, bytes_of, stepped};

/// The status of what is no input, no process or no row.
const REFUSED: u32 = 2;

/// The status of want of memory.
const MEMORY: u32 = 4;

/// The status of a state that does not fit into its buffer.
const TOO_SHORT: u32 = 5;

/// Makes the node of a process among so many, at most 64, that is up and has done nothing.
///
/// The status is 0 where `state` begins with its bytes, and `len` is their length; 5 where `state` is too short for them, and
/// `len` is the length that they need. It is 2 where there is no such process, and 4 for want of memory, where `len` is 0.
#[unsafe(no_mangle)]
pub extern "C" fn kt_node_new(
    alloc: Global,
    me: u32,
    processes: u32,
    state: &mut [u8],
    len: &mut usize,
) -> u32
    ensures made { result ≡ 0 → (bytes : List ℕ) × SaysNewNode me processes bytes
        × IsPut bytes state.old state.new len.new }
    ensures short { result ≡ 5 → (bytes : List ℕ) × SaysNewNode me processes bytes
        × IsLeft bytes state.old state.new len.new }
    ensures refused { (result ≡ 2) ↔ ((me < processes) × (processes ≤ 64) → ⊥) }
    ensures none { 2 ≤ result → result ≢ 5 → (state.new ≡ state.old) × (len.new ≡ 0) }
    ensures status { result ≤ 5 }
    ensures other { (result ≢ 1) × (result ≢ 3) }
{
    let bytes = match opening(alloc, me, processes) {
        Ok(bytes) => bytes,
        Err(why) => {
            *len = 0;
            return why.status();
        }
    };
    put(bytes.as_slice(), state, len)
}

/// Gives a node an input: it makes the step, and becomes what it is after it, or it is as it was.
///
/// The first `len` bytes of `state` are the node's, before and after. Whatever the status, `output` is written whole. It is 0
/// where the step was made, and `output` has what it puts out; 1 where a parcel came before, which changes nothing. It is 2 where
/// the input is refused, 4 for want of memory, and `output` says why; 5 where `state` is too short for the state after the
/// step, and `output` says which length that has. At each but 0 `state` and `len` are as they were.
#[unsafe(no_mangle)]
pub extern "C" fn kt_node_step(
    alloc: Global,
    state: &mut [u8],
    len: &mut usize,
    input: &KtInput,
    output: &mut KtOutput,
) -> u32
    // Each status has a condition, and none of these goes with another. Its bytes say what the rule makes of the state that
    // they said, and what the rule puts out is told.
    ensures step { result ≡ 0 → (bytes : List ℕ)
        × TellsStep (take len.old state.old) input.now bytes output.new
        × IsPut bytes state.old state.new len.new }
    ensures again { result ≡ 1 → IsAgainOf (take len.old state.old) input.now
        × (output.new ≡ no_output) }
    ensures short { result ≡ 5 → (bytes : List ℕ) × (put : Outputs)
        × IsStepOf (take len.old state.old) input.now bytes put
        × (length state.old < length bytes) × (output.new ≡ output_too_long (length bytes)) }
    ensures refused { 2 ≤ result → result ≢ 5 → (why : Refusals)
        × (len.old ≤ length state.old → IsNoStep (take len.old state.old) input.now why)
        × (output.new ≡ output_of_refusal why) × (result ≡ refusal_status why) }
    ensures longer { length state.old < len.old →
        (result ≡ 2) × (output.new ≡ output_of_refusal refusal.State) }
    ensures same { result ≢ 0 → (state.new ≡ state.old) × (len.new ≡ len.old) }
    ensures status { result ≤ 5 }
    ensures other { result ≢ 3 }
{
    if *len > state.len() {
        return refuse(&Refusal::State, output);
    }
    let mut out = Output::new();
    match stepped(alloc, &state[..*len], input, &mut out) {
        Ok(Some(step)) => tell_step(&step, &out, state, len, output),
        Ok(None) => {
            output.clear();
            1
        }
        Err(why) => refuse(&why, output),
    }
}

/// Whether the object has to be saved before a node is given an input: so it is where the step takes a checkpoint.
///
/// The status is 0 where it has to be, and 1 where it need not be. It is 2 where there is no step, as the input is refused or the
/// parcel came before, and 4 for want of memory.
#[unsafe(no_mangle)]
pub extern "C" fn kt_node_look(alloc: Global, state: &[u8], input: &KtInput) -> u32
    ensures look { result ≢ 4 → (x : Inputs) → input_meant input.now ≡ Some x →
        IsLookOf state.now x result }
    ensures none { result ≤ 1 → input_meant input.now ≡ None → ⊥ }
    ensures node { result ≤ 1 → (node : NodeLinks) × SaysNode state.now node }
    ensures memory { result ≡ 4 → IsSealed state.now }
    ensures status { result ≤ 4 }
    ensures other { result ≢ 3 }
{
    match look(alloc, state, input) {
        Ok(Look::NeedsSave) => 0,
        Ok(Look::Plain) => 1,
        Ok(Look::NeedsBody) => 1,
        Ok(Look::Idle) => REFUSED,
        Err(why) => why.status(),
    }
}

/// Makes the line of a row in the log of its process, with the clock of its step: what `koo_toueg merge` reads.
///
/// The status is 0 where `out` begins with the line, and `len` is its length; 5 where `out` is too short for it, and `len` is the
/// length that it needs. It is 2 where there is no such row or process, and 4 for want of memory, where `len` is 0.
#[unsafe(no_mangle)]
pub extern "C" fn kt_row_text(
    alloc: Global,
    row: &KtRow,
    clock: u64,
    process: u32,
    out: &mut [u8],
    len: &mut usize,
) -> u32
    ensures written { result ≡ 0 → (text : List ℕ) × IsRowText row.now clock process text
        × IsPut text out.old out.new len.new }
    ensures short { result ≡ 5 → (text : List ℕ) × IsRowText row.now clock process text
        × IsLeft text out.old out.new len.new }
    ensures refused { (result ≡ 2) ↔ (part_row_meant row.now clock process ≡ None) }
    ensures none { 2 ≤ result → result ≢ 5 → (out.new ≡ out.old) × (len.new ≡ 0) }
    ensures status { result ≤ 5 }
    ensures other { (result ≢ 1) × (result ≢ 3) }
{
    let row = match row_in(row, clock, process) {
        Some(row) => row,
        None => {
            *len = 0;
            return REFUSED;
        }
    };
    let mut text = Vec::new(alloc);
    if write_part(alloc, &[row], &mut text).is_err() {
        *len = 0;
        return MEMORY;
    }
    put(text.as_slice(), out, len)
}

// The bytes of the node of a process that has done nothing.
fn opening(alloc: Global, me: u32, processes: u32) -> Result<Vec<u8>, Refusal>
    ensures made { IfOk result (λ bytes. SaysNewNode me processes bytes.items) }
    ensures refused { IfErr result (IsNoNewNode me processes) }
{
    let (Some(me), Some(none)) = (process_meant(me), Label::new(0)) else {
        return Err(Refusal::Input);
    };
    if processes > 64 || u32::from(me.get()) >= processes {
        return Err(Refusal::Input);
    }
    let node = Node::new(alloc, me, processes as usize, none)?;
    Ok(bytes_of(alloc, &node)?)
}

// Tells a step that was made, and what it put out; its status.
fn tell_step(
    step: &Step,
    out: &Output,
    state: &mut [u8],
    len: &mut usize,
    output: &mut KtOutput,
) -> u32
    ensures told { result ≡ 0 → TellsOutput step.now.node out.now output.new
        × IsPut step.now.bytes.items state.old state.new len.new }
    ensures short { result ≢ 0 → (result ≡ 5) × (length state.old < length step.now.bytes.items)
        × (output.new ≡ output_too_long (length step.now.bytes.items)) }
    ensures same { result ≢ 0 → (state.new ≡ state.old) × (len.new ≡ len.old) }
{
    let bytes = step.bytes.as_slice();
    if bytes.len() > state.len() {
        output.tell_needed(bytes.len());
        return TOO_SHORT;
    }
    output.tell(&step.node, out);
    put(bytes, state, len)
}

// Tells why there is no step; its status.
fn refuse(why: &Refusal, output: &mut KtOutput) -> u32
    ensures told { output.new ≡ output_of_refusal why.now }
    ensures status { result ≡ refusal_status why.now }
    ensures refused { 2 ≤ result }
    ensures few { result ≤ 4 }
    ensures other { result ≢ 3 }
{
    output.tell_refusal(why);
    why.status()
}

// What the step at the input that numbers mean needs of the object.
fn look(alloc: Global, state: &[u8], numbers: &KtInput) -> Result<Look, Refusal>
    ensures look { (x : Inputs) → input_meant numbers.now ≡ Some x →
        IfOk result (λ look. IsLookOf state.now x (look_status look)) }
    ensures meant { IfOk result (λ _. input_meant numbers.now ≡ None → ⊥) }
    ensures node { IfOk result (λ _. (node : NodeLinks) × SaysNode state.now node) }
    ensures refused { IfErr result (λ why. refusal_status why ≡ 2 →
        (x : Inputs) → input_meant numbers.now ≡ Some x → IsLookOf state.now x 2) }
    ensures memory { IfErr result (λ why. refusal_status why ≡ 4 → IsSealed state.now) }
{
    let node = load(alloc, state)?;
    let Some(input) = numbers.meant() else {
        return Err(Refusal::Input);
    };
    Ok(node.look(&input))
}

// The row of a part that numbers mean, if they mean one.
fn row_in(row: &KtRow, clock: u64, process: u32) -> Option<ClockedRow>
    ensures { result ≡ part_row_meant row.now clock process }
{
    let p = process_meant(process)?;
    let event = row.event()?;
    Some(ClockedRow {
        clock,
        row: NamedRow { p, event },
    })
}
