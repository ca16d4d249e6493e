// CRC-32 by a table: an update of a state by a part of the bytes, 16 bytes at a time where the part is long.
#![tactic(auto)]

ghost use Rattle.std.specs.Prelude.{◌≡◌, ◌%◌};
ghost use Rattle.std.specs.Int.Bits.{bit_xor};
ghost use Rattle.rules.specs.Checksum.{all_ones, crc_bits, crc_byte, crc_over};

mod rows;
mod table;

use table::TABLE;

// The entry of the table for the low byte of x.
fn entry(x: u32) -> u32
    ensures { result ≡ crc_bits 8 (x % 256) }
{
    TABLE[(x % 256) as usize]
}

// The state after one byte.
pub(crate) fn step(state: u32, b: u8) -> u32
    ensures { result ≡ crc_byte state b }
{
    let x = (b as u32) ^ state;
    entry(x) ^ (x / 256)
}

// The state after the bytes of a part.
#[tactic(auto, using(crate::proofs::Passing::pass_step, crate::proofs::Passing::pass_rest))]
pub fn update(state: u32, part: &[u8]) -> u32
    ensures { result ≡ crc_over state part.now }
{
    let begun = rows::begin(state, part);
    let mut c = begun.state;
    for &b in &part[begun.at..] {
        c = step(c, b);
    }
    c
}

// The state to start with.
pub fn start() -> u32
    ensures { result ≡ all_ones }
{
    4294967295
}

// The checksum that a state stands for.
pub fn finish(state: u32) -> u32
    ensures { result ≡ bit_xor state all_ones }
{
    state ^ 0xffff_ffff
}
