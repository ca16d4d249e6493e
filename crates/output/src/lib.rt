// Text into lent memory that may be too small: a byte is stored only where it fits, and the place counts on by one byte more than there is
// room for. A run with an empty part of the memory, `&mut out[..0]`, only counts.
#![tactic(auto)]

ghost use Rattle.std.specs.Prelude.{◌≡◌, [], ◌∷◌, leb, length, replicate};
ghost use Rattle.output.specs.Output.{Wrote, top as top_of, adv};

// The place that a count stops at, in a memory of so many bytes: one more than these, or 2^63 where there are none.
fn top(room: usize) -> usize
    ensures { result ≡ top_of room }
{
    if room == 0 {
        return 9223372036854775808;
    }
    if room < 9223372036854775808 {
        return room + 1;
    }
    9223372036854775808
}

// Whether the place has come to where it stops, so that nothing more is stored or counted.
pub fn stopped(room: usize, at: usize) -> bool
    ensures { result ≡ leb (top_of room) at }
{
    top(room) <= at
}

// The place after n more bytes, of which none is stored.
pub fn skip(room: usize, at: usize, n: usize) -> usize
    ensures { result ≡ adv room at n }
{
    let end = top(room);
    if end <= at {
        return at;
    }
    if n <= end - at {
        return at + n;
    }
    end
}

// The byte b at place `at`, and the next place.
pub fn put(out: &mut [u8], at: usize, b: u8) -> usize
    ensures { Wrote out.old at (b ∷ []) out.new result }
{
    if at < out.len() {
        out[at] = b;
        return at + 1;
    }
    skip(out.len(), at, 1)
}

// The bytes of src as they are.
pub fn put_text(out: &mut [u8], at: usize, src: &[u8]) -> usize
    ensures { Wrote out.old at src.now out.new result }
{
    let mut place = at;
    for &b in src {
        place = put(out, place, b);
    }
    place
}

// A zero in the place of every byte.
pub fn clear(out: &mut [u8])
    ensures { out.new ≡ replicate (length out.old) 0 }
{
    out.fill(0);
}
