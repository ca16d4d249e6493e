// Strings: UTF-16 to UTF-8, with the characters of XML escaped. A step for one unit, with a high surrogate carried over to the
// next, and a loop over it, which is one for a string in one slice and for one that lies in two (`across`).
#![tactic(auto)]

ghost use Rattle.std.specs.Prelude.{◌≡◌, List, ℕ, ◌+◌, ◌<◌, length, IfSome};
ghost use Rattle.output.specs.Output.{Wrote};
ghost use Rattle.rules.specs.Names.{units};
ghost use Rattle.rules.specs.Strings.{is_low, all_shown, string_text};
ghost use Rattle.utf16.specs.Carry.{carried, unless_high, completed, left_over, IsHigh, IsUnit};
ghost use Rattle.utf16.specs.Shown.{PlainlyIf};

mod across;

pub use across::put_across;

// The bytes of a string, wherever they lie.
trait Bytes {
    ghost bytes: { Self → List ℕ };

    fn len(&self) -> usize
        ensures { result ≡ length (bytes self.now) };

    // The unit in the two bytes at i.
    fn unit(&self, i: usize) -> u32
        requires { i + 1 < length (bytes self.now) }
        ensures { IsUnit (bytes self.now) i result };
}

// Bytes in one slice.
#[derive(Clone, Copy)]
struct Whole<'a> {
    src: &'a [u8],
}

impl Bytes for Whole<'_> {
    ghost bytes = { λ s. s.src.now };

    fn len(&self) -> usize {
        self.src.len()
    }

    fn unit(&self, i: usize) -> u32 {
        (octets::wide(self.src[i]) + 256 * octets::wide(self.src[i + 1])) as u32
    }
}

// What is carried over after a unit: a high surrogate.
fn high(u: u32) -> Option<u32>
    ensures { result ≡ carried u }
{
    match u {
        0xd800..=0xdbff => Some(u),
        _ => None,
    }
}

// Whether a unit is a low surrogate.
fn is_low(u: u32) -> bool
    ensures { result ≡ is_low u }
{
    matches!(u, 0xdc00..=0xdfff)
}

// The unit, unless it is carried over.
#[tactic(auto, using(crate::proofs::Carry::itself_none), unfolding(rules::specs::Strings::all_shown))]
fn put_unless_high(out: &mut [u8], at: usize, u: u32) -> usize
    ensures { Wrote out.old at (all_shown (unless_high u)) out.new result }
{
    match high(u) {
        Some(_) => at,
        None => character::put_shown(out, at, u),
    }
}

// What was carried over, if anything.
#[tactic(auto, using(crate::proofs::Carry::shown_one), unfolding(rules::specs::Strings::all_shown))]
fn put_carried(out: &mut [u8], at: usize, carry: Option<u32>) -> usize
    ensures { Wrote out.old at (all_shown (left_over carry)) out.new result }
{
    match carry {
        Some(h) => character::put_shown(out, at, h),
        None => at,
    }
}

// The characters that a unit completes after a high surrogate: one, if the two are a pair.
fn put_after_high(out: &mut [u8], at: usize, h: u32, u: u32) -> usize
    requires { IsHigh h }
    ensures { Wrote out.old at (all_shown (completed (Some h) u)) out.new result }
{
    if is_low(u) {
        return character::put_shown(out, at, 0x10000 + 0x400 * (h - 0xd800) + (u - 0xdc00));
    }
    let place = character::put_shown(out, at, h);
    put_unless_high(out, place, u)
}

// The characters that a unit completes, after what was carried over.
fn put_unit(out: &mut [u8], at: usize, carry: Option<u32>, u: u32) -> usize
    requires { IfSome carry IsHigh }
    ensures { Wrote out.old at (all_shown (completed carry u)) out.new result }
{
    match carry {
        Some(h) => put_after_high(out, at, h, u),
        None => put_unless_high(out, at, u),
    }
}

// `1` for each character of ASCII that is written as itself.
const PLAIN: &[u8; 128] =
    b"00000000000000000000000000000000110111001111111111111111111101011111111111111111111111111111111111111111111111111111111111111111";

// Whether the unit, with nothing carried over, is written as itself. Most units of a log are.
fn plain(carry: Option<u32>, u: u32) -> bool
    ensures { PlainlyIf result carry u }
{
    if carry.is_some() {
        return false;
    }
    if 127 < u {
        return false;
    }
    PLAIN[u as usize] == b'1'
}

// The string in bytes; of an odd count of bytes the last is not read. Where the place has stopped, the string is not looked at.
fn put_bytes<B: Bytes>(out: &mut [u8], at: usize, src: &B) -> usize
    ensures { Wrote out.old at (string_text (units (B.bytes src.now))) out.new result }
{
    if output::stopped(out.len(), at) {
        return at;
    }
    let mut place = at;
    let mut carry = None;
    for i in 0..src.len() / 2 {
        let u = src.unit(2 * i);
        if plain(carry, u) {
            place = output::put(out, place, u as u8);
            continue;
        }
        place = put_unit(out, place, carry, u);
        carry = high(u);
    }
    put_carried(out, place, carry)
}

// The string in the bytes of src; of an odd count of bytes the last is not read. Where the place has stopped, the string is not looked at.
pub fn put_string(out: &mut [u8], at: usize, src: &[u8]) -> usize
    ensures { Wrote out.old at (string_text (units src.now)) out.new result }
{
    put_bytes(out, at, &Whole { src })
}
