// The digits of a number as text, once over the base and the count of digits. The base is a constant of each caller, so that no division is by a
// variable.
#![tactic(auto)]

ghost use Rattle.std.specs.Prelude.{◌≡◌, [], ◌++◌, ◌<◌};
ghost use Rattle.output.specs.Output.{Wrote};
ghost use Rattle.rules.specs.Bytes.{ascii};
ghost use Rattle.rules.specs.Numerals.{lower, digits, decimal, short_hex, last_digits, padded, upper_hex};
ghost use Rattle.digits.specs.Digits.{Base, cased};

// A digit below 16, in upper case if asked.
fn digit(upper: bool, d: u64) -> u8
    requires { d < 16 }
    ensures { result ≡ cased upper d }
{
    if d < 10 {
        return b'0' + d as u8;
    }
    if upper {
        return b'A' - 10 + d as u8;
    }
    b'a' - 10 + d as u8
}

// How many digits n has. The powers of the base are compared with n / BASE, so that none is too large.
fn count<const BASE: u64>(n: u64) -> usize
    requires { Base BASE }
    ensures { digits BASE n n [] ≡ last_digits lower BASE result n }
{
    let most = n / BASE;
    let mut power: u64 = 1;
    let mut k = 1;
    while power <= most {
        power = power * BASE;
        k += 1;
    }
    k
}

// The last k digits, from the last one backwards. Those that do not fit are only counted.
fn put_last<const BASE: u64>(out: &mut [u8], at: usize, upper: bool, k: usize, n: u64) -> usize
    requires { Base BASE }
    ensures { Wrote out.old at (last_digits (cased upper) BASE k n) out.new result }
{
    if out.len() <= at {
        return output::skip(out.len(), at, k);
    }
    let room = out.len() - at;
    let mut left = n;
    for i in (0..k).rev() {
        let before = left / BASE;
        let d = digit(upper, left - before * BASE);
        if i < room {
            out[at + i] = d;
        }
        left = before;
    }
    output::skip(out.len(), at, k)
}

// As few decimal digits as there can be.
pub fn put_decimal(out: &mut [u8], at: usize, n: u64) -> usize
    ensures { Wrote out.old at (decimal n) out.new result }
{
    put_last::<10>(out, at, false, count::<10>(n), n)
}

// k decimal digits.
pub fn put_padded(out: &mut [u8], at: usize, k: u8, n: u64) -> usize
    ensures { Wrote out.old at (padded k n) out.new result }
{
    put_last::<10>(out, at, false, k as usize, n)
}

// k upper-case hex digits.
pub fn put_upper_hex(out: &mut [u8], at: usize, k: u8, n: u64) -> usize
    ensures { Wrote out.old at (upper_hex k n) out.new result }
{
    put_last::<16>(out, at, true, k as usize, n)
}

// `0x` and k lower-case hex digits.
pub fn put_hex(out: &mut [u8], at: usize, k: usize, n: u64) -> usize
    ensures { Wrote out.old at (ascii "0x" ++ last_digits lower 16 k n) out.new result }
{
    let place = output::put_text(out, at, b"0x");
    put_last::<16>(out, place, false, k, n)
}

// `0x` and as few lower-case hex digits as there can be.
pub fn put_short_hex(out: &mut [u8], at: usize, n: u64) -> usize
    ensures { Wrote out.old at (short_hex n) out.new result }
{
    put_hex(out, at, count::<16>(n), n)
}
