// The zeros at the end of bytes, which are dropped before some values are written.
#![tactic(auto)]

ghost use Rattle.std.specs.Prelude.{◌≡◌, length};
ghost use Rattle.rules.specs.Strings.{without_zeros};
ghost use Rattle.zeros.specs.Dropped.{Dropped};

// Passes zeros from the end, eight in a turn.
fn pass_eights(s: &[u8]) -> usize
    ensures { Dropped s.now result }
{
    let mut n = s.len();
    for word in s.rchunks_exact(8) {
        if octets::eight(word, 0) != 0 {
            return n;
        }
        n -= 8;
    }
    n
}

// How many bytes come before the zeros at the end.
#[tactic(auto, using(crate::proofs::Dropped::dropped_byte, crate::proofs::Dropped::kept_at, crate::proofs::Dropped::kept_nothing))]
pub fn kept(s: &[u8]) -> usize
    ensures { result ≡ length (without_zeros s.now) }
{
    for i in (0..pass_eights(s)).rev() {
        if s[i] != 0 {
            return i + 1;
        }
    }
    0
}
