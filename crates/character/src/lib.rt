// A character as it is written: in UTF-8, with the characters of XML escaped.
#![tactic(auto)]

ghost use Rattle.std.specs.Prelude.{◌≡◌, [], ◌∷◌, ◌+◌, ◌/◌, ◌%◌, ◌<◌, if◌then◌else◌};
ghost use Rattle.output.specs.Output.{Wrote};
ghost use Rattle.rules.specs.Strings.{utf8, is_xml, shown};

// The byte `first`, and then the last twelve bits of c in two.
fn put_three(out: &mut [u8], at: usize, first: u32, c: u32) -> usize
    requires { first < 256 }
    ensures { Wrote out.old at (first ∷ (128 + c / 64 % 64) ∷ (128 + c % 64) ∷ []) out.new result }
{
    let second = output::put(out, at, first as u8);
    let third = output::put(out, second, (128 + c / 64 % 64) as u8);
    output::put(out, third, (128 + c % 64) as u8)
}

// A character in UTF-8.
fn put_utf8(out: &mut [u8], at: usize, c: u32) -> usize
    requires { c < 1114112 }
    ensures { Wrote out.old at (utf8 c) out.new result }
{
    if c < 0x80 {
        return output::put(out, at, c as u8);
    }
    if c < 0x800 {
        let second = output::put(out, at, (0xc0 + c / 64) as u8);
        return output::put(out, second, (0x80 + c % 64) as u8);
    }
    if c < 0x10000 {
        return put_three(out, at, 0xe0 + c / 4096, c);
    }
    let second = output::put(out, at, (0xf0 + c / 262144) as u8);
    put_three(out, second, 0x80 + c / 4096 % 64, c)
}

// A character of XML 1.0 as it is, and U+FFFD for any other.
fn xml(c: u32) -> u32
    ensures { (result ≡ (if is_xml c then c else 0xfffd)) × (result < 1114112) }
{
    match c {
        9 | 10 | 13 | 0x20..=0xd7ff | 0xe000..=0xfffd | 0x10000..=0x10ffff => c,
        _ => 0xfffd,
    }
}

// A character as it is written.
#[tactic(auto, using(crate::proofs::Escapes::not_escaped), unfolding(rules::specs::Strings::shown, rules::specs::Strings::escapes))]
pub fn put_shown(out: &mut [u8], at: usize, c: u32) -> usize
    ensures { Wrote out.old at (shown c) out.new result }
{
    match c {
        38 => output::put_text(out, at, b"&amp;"),
        60 => output::put_text(out, at, b"&lt;"),
        62 => output::put_text(out, at, b"&gt;"),
        34 => output::put_text(out, at, b"&quot;"),
        39 => output::put_text(out, at, b"&apos;"),
        9 => output::put_text(out, at, b"&#9;"),
        10 => output::put_text(out, at, b"&#10;"),
        13 => output::put_text(out, at, b"&#13;"),
        _ => put_utf8(out, at, xml(c)),
    }
}
