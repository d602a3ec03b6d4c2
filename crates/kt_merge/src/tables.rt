//! The tables of what rows gave.

ghost use Rattle.std.specs.Prelude.{◌≡◌, ◌≤◌, ◌^◌, vec_len};

use kt_base::{InstNo, MsgNo};

/// What one process gave: the numbers of its messages and of its instances, in order.
#[derive(Drop)]
pub(crate) struct Gave {
    pub(crate) sent: Vec<MsgNo>,
    pub(crate) begun: Vec<InstNo>,
}

/// What all processes gave, and how many rows and instances there are.
#[derive(Drop)]
pub(crate) struct Numbers {
    pub(crate) rows: u32,
    pub(crate) begun: u16,
    pub(crate) gave: Vec<Gave>,
    ghost few_rows: { rows ≤ 2 ^ 24 },
    ghost few_begun: { begun ≤ 4096 },
    ghost all: { vec_len gave ≡ 64 },
}
