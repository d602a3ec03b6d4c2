//! One log of many processes' stored logs.

ghost use Rattle.std.specs.Prelude.{◌≡◌, ◌≢◌, ◌≤◌, ◌<◌, ℕ, List, IfOk, IfErr, length, map};
ghost use Rattle.kt_merge.specs.Merging.{ArePartsUnread};
ghost use Rattle.kt_merge.specs.declared.fault.MergeFault.{MergeFault as MergeFaults};
ghost use Rattle.koo_toueg_c.specs.Buffers.{IsGiven, IsTooLong};
ghost use Rattle.koo_toueg_c.specs.Merged.{AreReaders, IsTextOfParts, IsUnmerged};
ghost use Rattle.koo_toueg_c.specs.Numbers.{merge_numbers, merge_status, too_many_parts};

use crate::buffers::give;
use crate::fault::KtFault;
use kt_base::Memory;
use kt_merge::{MergeFault, Parts, merge_parts};
use std::alloc::Global;

/// Makes one log of the logs of processes 0, 1 and so on, as `koo_toueg merge PART..` writes it. There are at most 64.
///
/// The status is 0 where `out` begins with the log's text, and `len` is its length; 5 where `out` is too short for the text, and
/// `len` is the length that it needs. It is 2 to 4 at a fault, as that of `kt_check`: the first one in the order of the log. Where
/// there is no text, `len` is 0, and `fault` says why.
#[unsafe(no_mangle)]
pub extern "C" fn kt_merge(
    alloc: Global,
    parts: &[&[u8]],
    out: &mut [u8],
    len: &mut usize,
    fault: &mut KtFault,
) -> u32
    ensures written { result ≡ 0 → (text : List ℕ) × IsTextOfParts (map (λ part. part.now) parts.now) text
        × IsGiven text out.old out.new len.new fault.new }
    ensures short { result ≡ 5 → (text : List ℕ) × IsTextOfParts (map (λ part. part.now) parts.now) text
        × IsTooLong text out.old out.new len.new fault.new }
    ensures refused { 2 ≤ result → result ≢ 5 → length parts.now ≤ 64
        → (why : MergeFaults) × IsUnmerged (map (λ part. part.now) parts.now) why
        × (fault.new ≡ merge_numbers why) × (result ≡ merge_status why) }
    ensures many { 64 < length parts.now → (result ≡ 2) × (fault.new ≡ too_many_parts) }
    ensures none { 2 ≤ result → result ≢ 5 → (out.new ≡ out.old) × (len.new ≡ 0) }
    ensures status { result ≢ 1 }
{
    if parts.len() > 64 {
        *len = 0;
        *fault = KtFault::of_many_parts();
        return 2;
    }
    match merged(alloc, parts) {
        Ok(text) => give(text.as_slice(), 0, out, len, fault),
        Err(why) => tell_unmerged(&why, len, fault),
    }
}

// Tells why parts have no log, and that there is no text; its status.
fn tell_unmerged(why: &MergeFault, len: &mut usize, fault: &mut KtFault) -> u32
    ensures told { fault.new ≡ merge_numbers why.now }
    ensures none { len.new ≡ 0 }
    ensures status { result ≡ merge_status why.now }
    ensures refused { 2 ≤ result }
    ensures few { result ≤ 4 }
{
    *len = 0;
    *fault = KtFault::of_merge(why);
    KtFault::status_of_merge(why)
}

// The text of the log of these parts.
fn merged(alloc: Global, texts: &[&[u8]]) -> Result<Vec<u8>, MergeFault>
    requires { length texts.now ≤ 64 }
    ensures text { IfOk result (λ text. IsTextOfParts (map (λ part. part.now) texts.now) text.items) }
    ensures fault { IfErr result (IsUnmerged (map (λ part. part.now) texts.now)) }
{
    let mut parts = parts_in(alloc, texts)?;
    let mut text = Vec::new(alloc);
    merge_parts(alloc, &mut parts, &mut text)?;
    Ok(text)
}

// The parts in these texts, of which none was read.
fn parts_in<'a>(alloc: Global, texts: &[&'a [u8]]) -> Result<Parts<&'a [u8]>, Memory>
    requires { length texts.now ≤ 64 }
    ensures { IfOk result (λ parts. ArePartsUnread parts × AreReaders (map (λ part. part.now) texts.now) parts) }
{
    let mut parts = Parts::new(alloc);
    for text in texts {
        parts.push(alloc, *text)?;
    }
    Ok(parts)
}
