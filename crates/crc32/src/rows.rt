// Slicing by 16: sixteen bytes of a part in one turn of a loop, by rows of entries that are made from the table.
ghost use Rattle.std.specs.Prelude.{◌≡◌, ◌+◌, ◌*◌, ◌%◌, ◌≤◌, ◌<◌, length};
ghost use Rattle.rules.specs.Bytes.{number_at};
ghost use Rattle.rules.specs.Checksum.{crc_bits, crc_over};
ghost use Rattle.crc32.specs.Passing.{Passing};
ghost use Rattle.crc32.specs.Rows.{Rows};

use crate::step;

// A state, and how many bytes of a part it has passed.
#[derive(Drop)]
pub(crate) struct Passed {
    pub(crate) state: u32,
    pub(crate) at: usize,
}

// Makes the rows: each entry from the entry one row before by a byte of zero, and those of the first row from the bytes themselves.
fn fill(rows: &mut [u32; 4096])
    requires { length rows.old ≡ 4096 }
    ensures { Rows rows.new 4096 }
{
    for k in 0..4096 {
        let before = if k < 256 { k as u32 } else { rows[k - 256] };
        rows[k] = step(before, 0);
    }
}

// The entry of row r for the low byte of x.
fn row_entry(rows: &[u32; 4096], r: usize, x: u32) -> u32
    requires { Rows rows.now 4096 × (r < 16) }
    ensures { result ≡ crc_bits (8 * (r + 1)) (x % 256) }
{
    rows[r * 256 + (x % 256) as usize]
}

// The state after the 32 bits of x and k bytes of zero behind them, from a state of zero.
fn word(rows: &[u32; 4096], k: usize, x: u32) -> u32
    requires { Rows rows.now 4096 × (k ≤ 12) }
    ensures { result ≡ crc_bits (8 * k + 32) x }
{
    let b = x / 256;
    let c = b / 256;
    let d = c / 256;
    row_entry(rows, k, d)
        ^ row_entry(rows, k + 1, c)
        ^ row_entry(rows, k + 2, b)
        ^ row_entry(rows, k + 3, x)
}

// The number in the 4 bytes at i.
fn four(part: &[u8], i: usize) -> u32
    ensures { result ≡ number_at i 4 part.now }
{
    octets::four(part, i) as u32
}

// The state after 16 bytes. The word that waits for the state is added last, so that the others are ready by then.
fn sixteen(rows: &[u32; 4096], state: u32, bytes: &[u8]) -> u32
    requires { Rows rows.now 4096 × (length bytes.now ≡ 16) }
    ensures { result ≡ crc_over state bytes.now }
{
    let last = word(rows, 0, four(bytes, 12));
    let third = word(rows, 4, four(bytes, 8));
    let second = word(rows, 8, four(bytes, 4));
    last ^ third ^ second ^ word(rows, 12, state ^ four(bytes, 0))
}

// The state after the sixteens of a part.
fn sixteens(state: u32, part: &[u8]) -> Passed
    ensures { (result.at ≤ length part.now) × Passing state part.now result.state result.at }
{
    let mut rows = [0u32; 4096];
    fill(&mut rows);
    let mut c = state;
    for bytes in part.chunks_exact(16) {
        c = sixteen(&rows, c, bytes);
    }
    Passed {
        state: c,
        at: part.len() - part.len() % 16,
    }
}

// The state after the sixteens of a long part. The rows take as long to make as some 1,200 bytes do one at a time, so a short part goes
// without them.
pub(crate) fn begin(state: u32, part: &[u8]) -> Passed
    ensures { (result.at ≤ length part.now) × Passing state part.now result.state result.at }
{
    if part.len() < 2048 {
        return Passed { state, at: 0 };
    }
    sixteens(state, part)
}
