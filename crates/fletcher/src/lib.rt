// Fletcher's checksum over words of 64 bits: the sum of the words, and the sum of these sums after each word, both modulo 2^64. It depends on
// each byte and on their order, and a word costs two additions, so that a listing can afford it for all that it reads and writes.
#![tactic(auto)]

ghost use Rattle.std.specs.Prelude.{◌≡◌};
ghost use Rattle.fletcher.specs.Sums.{with_number, summed};

#[derive(Clone, Copy)]
pub struct Sums {
    pub first: u64,
    pub second: u64,
}

// The sums after one more number.
fn with(sums: Sums, n: u64) -> Sums
    ensures { result ≡ with_number sums n }
{
    let first = std::num::wrapping_add_u64(sums.first, n);
    Sums {
        first,
        second: std::num::wrapping_add_u64(sums.second, first),
    }
}

// The sums after some more bytes: over their full words, what is left of them as one number, and their length.
fn over(sums: Sums, bytes: &[u8]) -> Sums
    ensures { result ≡ summed sums bytes.now }
{
    let words = bytes.chunks_exact(8);
    let rest = words.remainder();
    let mut s = sums;
    for word in words {
        s = with(s, octets::eight(word, 0));
    }
    with(with(s, octets::eight(rest, 0)), bytes.len() as u64)
}

// The sums after some more bytes, and then a number.
pub fn add(sums: Sums, bytes: &[u8], last: u64) -> Sums
    ensures { result ≡ with_number (summed sums bytes.now) last }
{
    with(over(sums, bytes), last)
}
