//! The checksum, eight bytes at a time.

ghost use Rattle.std.specs.Prelude.{◌≡◌, ◌≤◌, length, take, bit_xor};
ghost use Rattle.std.specs.Int.{w64, from_le_bytes};
ghost use Rattle.kt_checksum.specs.Checksums.{after_byte, after_bits, checksum, AreBytes};

use crate::table::TABLES;

/// A register after a byte.
fn after_byte(register: u32, byte: u8) -> u32
    ensures { result ≡ after_byte register byte }
{
    let mixed = register ^ u32::from(byte);
    (mixed >> 8) ^ TABLES[0][(mixed & 0xff) as usize]
}

/// A register after the eight bytes of a number, the lowest first.
fn after_word(register: u32, word: u64) -> u32
    ensures { result ≡ after_bits 64 (bit_xor register word) }
{
    let mixed = u64::from(register) ^ word;
    TABLES[0][(mixed >> 56) as usize]
        ^ TABLES[1][((mixed >> 48) & 0xff) as usize]
        ^ TABLES[2][((mixed >> 40) & 0xff) as usize]
        ^ TABLES[3][((mixed >> 32) & 0xff) as usize]
        ^ TABLES[4][((mixed >> 24) & 0xff) as usize]
        ^ TABLES[5][((mixed >> 16) & 0xff) as usize]
        ^ TABLES[6][((mixed >> 8) & 0xff) as usize]
        ^ TABLES[7][(mixed & 0xff) as usize]
}

/// What is so of all bytes.
pub(crate) fn bytes_fit(bytes: &[u8])
    ensures { AreBytes bytes.now }
{
    let _count = bytes.len();
}

/// The number of the first eight bytes.
fn first_word(bytes: &[u8]) -> u64
    requires { 8 ≤ length bytes.now }
    ensures { result ≡ from_le_bytes w64 (take 8 bytes.now) }
{
    let (front, _) = bytes.split_at(8);
    u64::from_le_bytes([
        front[0], front[1], front[2], front[3], front[4], front[5], front[6], front[7],
    ])
}

/// The checksum CRC-32C of bytes.
pub fn checksum(bytes: &[u8]) -> u32
    ensures { result ≡ checksum bytes.now }
{
    let mut register = u32::MAX;
    let mut rest = bytes;
    while rest.len() >= 8 {
        bytes_fit(rest);
        register = after_word(register, first_word(rest));
        let (_, after) = rest.split_at(8);
        rest = after;
    }
    for byte in rest {
        register = after_byte(register, *byte);
    }
    register ^ u32::MAX
}
