// Little-endian numbers from a slice, and comparison with known bytes. A byte that the slice does not have reads as 0, as the definition of
// `number_at` has it, so that every function here answers for every offset.
#![tactic(auto)]

ghost use Rattle.std.specs.Prelude.{◌≡◌, ◌+◌, ◌≤◌, ◌<◌, min, length, get_or};
ghost use Rattle.rules.specs.Bytes.{part, number_at, same};

// The byte at i.
pub fn octet(s: &[u8], i: usize) -> u64
    ensures { (result ≡ get_or s.now i 0) × (result < 256) }
{
    if i < s.len() { s[i] as u64 } else { 0 }
}

// A byte as a number.
pub fn wide(b: u8) -> u64
    ensures { (result ≡ b) × (result < 256) }
{
    b as u64
}

// The number in the 2 bytes at i, which are there.
fn two_in(s: &[u8], i: usize) -> u64
    requires { i + 2 ≤ length s.now }
    ensures { (result ≡ number_at i 2 s.now) × (result < 65536) }
{
    wide(s[i]) + 256 * wide(s[i + 1])
}

// The number in the 4 bytes at i, which are there.
fn four_in(s: &[u8], i: usize) -> u64
    requires { i + 4 ≤ length s.now }
    ensures { (result ≡ number_at i 4 s.now) × (result < 4294967296) }
{
    two_in(s, i) + 65536 * two_in(s, i + 2)
}

// The number in the 8 bytes at i, which are there.
fn eight_in(s: &[u8], i: usize) -> u64
    requires { i + 8 ≤ length s.now }
    ensures { result ≡ number_at i 8 s.now }
{
    four_in(s, i) + 4294967296 * four_in(s, i + 4)
}

// The number in the w bytes at p, which are there.
fn some_in(s: &[u8], p: usize, w: usize) -> u64
    requires { (w ≤ 8) × (p + w ≤ length s.now) }
    ensures { result ≡ number_at p w s.now }
{
    let mut v: u64 = 0;
    for i in (0..w).rev() {
        v = wide(s[p + i]) + v * 256;
    }
    v
}

// The number in the n bytes at p, or in 8 where n is more.
pub fn number_at(s: &[u8], p: usize, n: u8) -> u64
    ensures { result ≡ number_at p (min 8 n) s.now }
{
    if s.len() <= p {
        return 0;
    }
    match 8.min(n as usize).min(s.len() - p) {
        2 => two_in(s, p),
        4 => four_in(s, p),
        8 => eight_in(s, p),
        w => some_in(s, p, w),
    }
}

// The number in the 2 bytes at i.
pub fn two(s: &[u8], i: usize) -> u64
    ensures { (result ≡ number_at i 2 s.now) × (result < 65536) }
{
    if i < s.len() {
        if 2 <= s.len() - i {
            return two_in(s, i);
        }
    }
    number_at(s, i, 2)
}

// The number in the 4 bytes at i.
pub fn four(s: &[u8], i: usize) -> u64
    ensures { (result ≡ number_at i 4 s.now) × (result < 4294967296) }
{
    if i < s.len() {
        if 4 <= s.len() - i {
            return four_in(s, i);
        }
    }
    number_at(s, i, 4)
}

// The number in the 8 bytes at i.
pub fn eight(s: &[u8], i: usize) -> u64
    ensures { result ≡ number_at i 8 s.now }
{
    if i < s.len() {
        if 8 <= s.len() - i {
            return eight_in(s, i);
        }
    }
    number_at(s, i, 8)
}

// Whether the bytes of `known` stand at i.
pub fn same_at(s: &[u8], i: usize, known: &[u8]) -> bool
    ensures { result ≡ same (part i (length known.now) s.now) known.now }
{
    if s.len() < i {
        return known.len() == 0;
    }
    if s.len() - i < known.len() {
        return false;
    }
    for (k, &b) in known.iter().enumerate() {
        if s[i + k] != b {
            return false;
        }
    }
    true
}
