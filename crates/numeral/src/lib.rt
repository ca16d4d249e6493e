// Integers of up to 8 bytes as text, decimal and hexadecimal, once over the width; and bytes as pairs of hex digits.
#![tactic(auto)]

ghost use Rattle.std.specs.Prelude.{◌≡◌, ◌+◌, ◌^◌, length, take};
ghost use Rattle.output.specs.Output.{Wrote};
ghost use Rattle.rules.specs.Bytes.{number};
ghost use Rattle.rules.specs.Numerals.{upper_hex, unsigned, signed, all_hex, hex_pairs};

// The width that a number of these bytes is read with: all of them, up to 8.
fn width(src: &[u8]) -> usize
    ensures { result ≡ length (take 8 src.now) }
{
    src.len().min(8)
}

// The number that the bytes hold, of 8 bytes at most.
fn number_of(src: &[u8]) -> u64
    ensures { result ≡ number (take 8 src.now) }
{
    octets::number_at(src, 0, 8)
}

// The largest number of that width.
#[tactic(auto, using(crate::proofs::Integers::larger))]
fn largest(src: &[u8]) -> u64
    ensures { result + 1 ≡ 256 ^ length (take 8 src.now) }
{
    let mut top: u64 = 0;
    for _ in 0..width(src) {
        top = top * 256 + 255;
    }
    top
}

// An unsigned integer of up to 8 bytes.
pub fn put_unsigned(out: &mut [u8], at: usize, src: &[u8]) -> usize
    ensures { Wrote out.old at (unsigned (take 8 src.now)) out.new result }
{
    digits::put_decimal(out, at, number_of(src))
}

// A signed integer of up to 8 bytes: the top bit of its width is the sign.
pub fn put_signed(out: &mut [u8], at: usize, src: &[u8]) -> usize
    ensures { Wrote out.old at (signed (take 8 src.now)) out.new result }
{
    let n = number_of(src);
    let top = largest(src);
    if n <= top / 2 {
        return digits::put_decimal(out, at, n);
    }
    let place = output::put(out, at, b'-');
    digits::put_decimal(out, place, top - n + 1)
}

// `0x` and all hex digits of up to 8 bytes.
pub fn put_all_hex(out: &mut [u8], at: usize, src: &[u8]) -> usize
    ensures { Wrote out.old at (all_hex (take 8 src.now)) out.new result }
{
    digits::put_hex(out, at, 2 * width(src), number_of(src))
}

// The upper-case hex digits.
const HEX: &[u8; 16] = b"0123456789ABCDEF";

// A byte as two hex digits, out of the table of upper-case ones.
fn put_pair(out: &mut [u8], at: usize, b: u8) -> usize
    ensures { Wrote out.old at (upper_hex 2 b) out.new result }
{
    let n = b as usize;
    let place = output::put(out, at, HEX[n / 16]);
    output::put(out, place, HEX[n % 16])
}

// Each byte as a pair of upper-case hex digits.
pub fn put_pairs(out: &mut [u8], at: usize, src: &[u8]) -> usize
    ensures { Wrote out.old at (hex_pairs src.now) out.new result }
{
    if out.len() <= at {
        return output::skip(out.len(), at, 2 * src.len());
    }
    let mut place = at;
    for &b in src {
        place = put_pair(out, place, b);
    }
    place
}
