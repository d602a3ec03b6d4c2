//! Texts put into buffers that callers lend.

ghost use Rattle.std.specs.Prelude.{◌≡◌, ◌≢◌, ◌≤◌};
ghost use Rattle.koo_toueg_c.specs.Buffers.{IsGiven, IsLeft, IsPut, IsTooLong};
ghost use Rattle.koo_toueg_c.specs.Numbers.{TellsFault};

use crate::fault::{Fault, KtFault};

/// The status of a text that does not fit into the buffer that was lent for it.
const TOO_SHORT: u32 = 5;

/// Puts bytes at the front of a buffer, and tells their length. It answers 0; or 5, where the buffer is too short, and leaves
/// the buffer as it was.
pub(crate) fn put(bytes: &[u8], out: &mut [u8], len: &mut usize) -> u32
    ensures put { result ≡ 0 → IsPut bytes.now out.old out.new len.new }
    ensures short { result ≢ 0 → (result ≡ 5) × IsLeft bytes.now out.old out.new len.new }
{
    *len = bytes.len();
    if bytes.len() > out.len() {
        return TOO_SHORT;
    }
    out[..bytes.len()].copy_from_slice(bytes);
    0
}

/// Puts a text at the front of a buffer, and tells its length, and no fault. It answers this status; or 5, where the buffer is
/// too short, and leaves the buffer as it was.
pub(crate) fn give(
    text: &[u8],
    status: u32,
    out: &mut [u8],
    len: &mut usize,
    fault: &mut KtFault,
) -> u32
    ensures given { result ≢ 5 → IsGiven text.now out.old out.new len.new fault.new }
    ensures status { result ≢ 5 → result ≡ status }
    ensures short { status ≢ 5 → result ≡ 5 → IsTooLong text.now out.old out.new len.new fault.new }
{
    *fault = KtFault::none();
    if put(text, out, len) == TOO_SHORT {
        return TOO_SHORT;
    }
    status
}

/// Tells a fault, and that there is no text; its status.
pub(crate) fn refuse(why: &Fault, len: &mut usize, fault: &mut KtFault) -> u32
    ensures told { TellsFault why.now result fault.new }
    ensures none { len.new ≡ 0 }
    ensures refused { 2 ≤ result }
    ensures few { result ≤ 4 }
{
    *len = 0;
    *fault = KtFault::of(why);
    why.status()
}
