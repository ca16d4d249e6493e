// A plain loop that only looks for the first 2a. The benchmark of the search measures it beside the same loop in C (bench/search.c).
#![tactic(auto)]

ghost use Rattle.std.specs.Prelude.{◌≡◌};
ghost use Rattle.plain_c.specs.First.{before_star};

// How many bytes stand before the first 2a; all of them where there is none.
#[unsafe(no_mangle)]
pub extern "C" fn plain_first_star(bytes: &[u8]) -> usize
    ensures { result ≡ before_star bytes.now }
{
    let mut i = 0;
    while i < bytes.len() {
        if bytes[i] == 0x2a {
            return i;
        }
        i += 1;
    }
    i
}
