//! What a caller compares with its header.

ghost use Rattle.std.specs.Prelude.{◌≡◌, ◌≤◌, ◌<◌, length};
ghost use Rattle.koo_toueg_c.specs.Buffers.{Holds};
ghost use Rattle.koo_toueg_c.specs.Numbers.{struct_sizes};

use crate::answer::KtAnswer;
use crate::fault::KtFault;
use crate::node::input::KtInput;
use crate::node::output::{KtAct, KtOutput};
use crate::node::parcel::KtParcel;
use crate::node::row::KtRow;
use std::mem::size_of;

/// The version of these calls. It rises where a call, a struct or a number changes its meaning.
#[unsafe(no_mangle)]
pub extern "C" fn kt_version() -> u32
    ensures { result ≡ 3 }
{
    3
}

/// The sizes, in bytes, of an answer, a fault and a length, and of a node's parcel, input, row, act and output; how many sizes
/// there are. Where there is no room for all of them, none is written.
#[unsafe(no_mangle)]
pub extern "C" fn kt_sizes(sizes: &mut [u32]) -> u32
    ensures count { result ≡ length struct_sizes }
    ensures told { 8 ≤ length sizes.old → Holds struct_sizes sizes.old sizes.new }
    ensures short { length sizes.old < 8 → sizes.new ≡ sizes.old }
{
    let all: [u32; 8] = [
        size_of::<KtAnswer>() as u32,
        size_of::<KtFault>() as u32,
        size_of::<usize>() as u32,
        size_of::<KtParcel>() as u32,
        size_of::<KtInput>() as u32,
        size_of::<KtRow>() as u32,
        size_of::<KtAct>() as u32,
        size_of::<KtOutput>() as u32,
    ];
    if sizes.len() >= 8 {
        sizes[..8].copy_from_slice(&all);
    }
    8
}
