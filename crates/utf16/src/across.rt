// A string that lies in two slices, one behind the other. It is written without a copy, also where a unit lies across both.
ghost use Rattle.std.specs.Prelude.{◌≡◌, ◌++◌, ◌+◌, ◌<◌, length, get_or};
ghost use Rattle.output.specs.Output.{Wrote};
ghost use Rattle.rules.specs.Names.{units};
ghost use Rattle.rules.specs.Strings.{string_text};

use crate::{Bytes, put_bytes};

// Bytes in two slices, one behind the other. A unit may lie across both.
#[derive(Clone, Copy)]
struct Across<'a> {
    first: &'a [u8],
    second: &'a [u8],
}

impl Across<'_> {
    fn byte(&self, i: usize) -> u64
        requires { i < length self.now.first.now + length self.now.second.now }
        ensures { (result ≡ get_or (self.now.first.now ++ self.now.second.now) i 0) × (result < 256) }
    {
        if i < self.first.len() {
            return octets::wide(self.first[i]);
        }
        octets::wide(self.second[i - self.first.len()])
    }
}

impl Bytes for Across<'_> {
    ghost bytes = { λ s. s.first.now ++ s.second.now };

    fn len(&self) -> usize {
        self.first.len() + self.second.len()
    }

    fn unit(&self, i: usize) -> u32 {
        (self.byte(i) + 256 * self.byte(i + 1)) as u32
    }
}

// The string in the bytes of two slices, one behind the other, as `put_string` writes one that lies in one piece. A unit may lie across both.
pub fn put_across(out: &mut [u8], at: usize, first: &[u8], second: &[u8]) -> usize
    ensures { Wrote out.old at (string_text (units (first.now ++ second.now))) out.new result }
{
    put_bytes(out, at, &Across { first, second })
}
