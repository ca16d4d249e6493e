// Where a program writes, and what it says of a read or a write that failed: its own name, what failed, and the reason.
ghost use Rattle.std.specs.Prelude.{◌≡◌, ◌≤◌, length, IsTrue};
ghost use Rattle.std.specs.Io.KnownBytes.{Appends};

use std::io::{Cursor, Error, ErrorKind, Write};

// Where a program writes what it was asked for, and where it says what failed: its own name stands before that.
#[derive(Drop)]
pub struct Console<'a, W, E> {
    pub output: W,
    pub errors: E,
    pub program: &'a [u8],
}

// How many bytes stand before the number of an error that std writes after the system's own words.
fn before_number(text: &[u8]) -> usize
    ensures { result ≤ length text.now }
{
    for i in 0..text.len() {
        if text[i..].starts_with(b" (os error ") {
            return i;
        }
    }
    text.len()
}

// Writes the reason in the system's own words. No reason is longer than the memory here.
fn put_reason<E: Write>(errors: &mut E, reason: &Error) {
    let mut memory = [0u8; 512];
    let mut words = Cursor::new(memory.as_mut_slice());
    let _ = write!(words, "{reason}");
    let end = (words.position() as usize).min(512);
    let end = before_number(&memory[..end]);
    let _ = errors.write_all(&memory[..end]);
}

// Says what failed, after the program's own name, and why. Where that cannot be written, nobody can be told. What stands on standard output stays.
pub fn tell<W, E: Write>(console: &mut Console<'_, W, E>, what: &[u8], reason: &Error)
    ensures output { console.new.output ≡ console.old.output }
    ensures program { console.new.program ≡ console.old.program }
{
    let _ = console.errors.write_all(console.program);
    let _ = console.errors.write_all(what);
    let _ = console.errors.write_all(b": ");
    put_reason(&mut console.errors, reason);
    let _ = console.errors.write_all(b"\n");
}

// Writes to standard output, and answers whether all bytes were taken. A failure is told, but not that nobody reads a pipe any more: there the
// program says nothing, as one that the system ends for it.
pub fn say<W: Write, E: Write>(console: &mut Console<'_, W, E>, text: &[u8]) -> bool
    ensures { IsTrue result → Appends (W.contents console.old.output) (W.contents console.new.output) text.now }
{
    match console.output.write_all(text) {
        Ok(()) => true,
        Err(reason) => {
            if reason.kind() != ErrorKind::BrokenPipe {
                tell(console, b"standard output", &reason);
            }
            false
        }
    }
}
