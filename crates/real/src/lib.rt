// Real numbers as decimals with three places, out of their bits; no instruction for real numbers is used. Real32 is widened to a significand of
// 53 bits, so that one rounding serves both formats.
#![tactic(auto)]

ghost use Rattle.std.specs.Prelude.{◌≡◌, true, ◌+◌, ◌*◌, ◌^◌, ◌≤◌, ◌<◌, take};
ghost use Rattle.output.specs.Output.{Wrote};
ghost use Rattle.rules.specs.Reals.{exponent_of, is_negative, nearest, thousandths, sign_text, places_text, is_decimal, real_text, real_in};
ghost use Rattle.real.specs.Forms.{format_of, form_of, scaled_of};

// The form in which real numbers are asked for.
#[derive(Clone, Copy)]
pub enum Reals {
    Decimal,
    Bits,
}

// The whole number nearest to n / 2^s; of two, the even one.
fn rounded(n: u64, s: u64) -> u64
    requires { n < 2 ^ 63 }
    ensures { result ≡ nearest n (2 ^ s) }
{
    if 63 < s {
        return 0;
    }
    let whole = n >> s;
    let rest = n - (whole << s);
    let divisor = 1u64 << s;
    if rest + rest < divisor {
        return whole;
    }
    if divisor < rest + rest {
        return whole + 1;
    }
    whole + whole % 2
}

// Thousandths by exponent and fraction, out of a significand of 53 bits. An exponent of 0 counts as 1, without the bit before the fraction.
fn scaled(exponent: u64, fraction: u64, top: u64) -> u64
    requires { (fraction < 2 ^ 52) × (exponent ≤ top) × (0 < top) }
    ensures { result ≡ scaled_of exponent fraction top }
{
    if exponent == 0 {
        return rounded(1000 * fraction, top - 1);
    }
    rounded(1000 * (4503599627370496 + fraction), top - exponent)
}

fn exponent(double: bool, bits: u64) -> u64
    ensures { result ≡ exponent_of (format_of double) bits }
{
    if double {
        return bits / 4503599627370496 % 2048;
    }
    bits / 8388608 % 256
}

fn is_negative(double: bool, bits: u64) -> bool
    ensures { result ≡ is_negative (format_of double) bits }
{
    if double {
        return bits / 9223372036854775808 % 2 == 1;
    }
    bits / 2147483648 % 2 == 1
}

// Finite magnitudes below 2^40.
fn is_decimal(double: bool, bits: u64) -> bool
    ensures { result ≡ is_decimal (format_of double) bits }
{
    if double {
        return exponent(double, bits) < 1063;
    }
    exponent(double, bits) < 167
}

fn in_thousandths(double: bool, bits: u64) -> u64
    requires { is_decimal (format_of double) bits ≡ true }
    ensures { result ≡ thousandths (format_of double) bits }
{
    if double {
        return scaled(exponent(double, bits), bits % 4503599627370496, 1075);
    }
    scaled(exponent(double, bits), bits % 8388608 * 536870912, 179)
}

// The minus sign; none where all digits are zero.
fn put_sign(out: &mut [u8], at: usize, negative: bool, t: u64) -> usize
    ensures { Wrote out.old at (sign_text negative t) out.new result }
{
    if negative && t != 0 {
        output::put(out, at, b'-')
    } else {
        at
    }
}

// Three places.
fn put_places(out: &mut [u8], at: usize, negative: bool, t: u64) -> usize
    ensures { Wrote out.old at (places_text negative t) out.new result }
{
    let place = put_sign(out, at, negative, t);
    let point = digits::put_decimal(out, place, t / 1000);
    let after = output::put(out, point, b'.');
    digits::put_padded(out, after, 3, t % 1000)
}

// A real number of 8 bytes, or of 4, as a decimal; the bits form where it has none.
fn put_decimal_if_any(out: &mut [u8], at: usize, double: bool, src: &[u8]) -> usize
    ensures { Wrote out.old at (real_text (format_of double) (take 8 src.now)) out.new result }
{
    let bits = octets::number_at(src, 0, 8);
    if is_decimal(double, bits) {
        return put_places(
            out,
            at,
            is_negative(double, bits),
            in_thousandths(double, bits),
        );
    }
    numeral::put_all_hex(out, at, src)
}

// A real number of 8 bytes, or of 4, in the form that is asked for.
pub fn put_real(out: &mut [u8], at: usize, reals: Reals, double: bool, src: &[u8]) -> usize
    ensures { Wrote out.old at (real_in (form_of reals) (format_of double) (take 8 src.now)) out.new result }
{
    match reals {
        Reals::Decimal => put_decimal_if_any(out, at, double, src),
        Reals::Bits => numeral::put_all_hex(out, at, src),
    }
}
