// Reads of an input, and what is said of one that fails. Of an input whose bytes are known, a read brings the next ones; of a file or a stream of the
// system no contract can say which they are: only that they stand in what was lent.
#![tactic(auto)]

mod messages;
#[cfg(test)]
mod tests;

ghost use Rattle.std.specs.Prelude.{◌≡◌, ◌+◌, ◌≤◌, length, take, drop};
ghost use Rattle.std.specs.Io.KnownBytes.{Consumes};
ghost use Rattle.reads.specs.Counts.{IsPrefixLen};
ghost use Rattle.reads.specs.Descriptors.{descriptor_of};

pub use crate::messages::{Console, say, tell};
use std::io::{Read, Write};

// The system's descriptor of an input; one that no file has where the number is none.
pub fn descriptor(input: u64) -> i32
    ensures { result ≡ descriptor_of input }
{
    i32::try_from(input).unwrap_or(-1)
}

// One read into the memory from a place on. A read that fails is told, and is then like the end of the input.
fn read_from<R: Read, W, E: Write>(
    memory: &mut [u8],
    from: usize,
    input: &mut R,
    console: &mut Console<'_, W, E>,
    name: &[u8],
) -> usize
    requires { from ≤ length memory.old }
    ensures inside { from + result ≤ length memory.old }
    ensures kept { take from memory.new ≡ take from memory.old }
    ensures output { console.new.output ≡ console.old.output }
    ensures program { console.new.program ≡ console.old.program }
    ensures bytes { Consumes (R.remaining input.old) (R.remaining input.new) (take result (drop from memory.new)) }
{
    match input.read(&mut memory[from..]) {
        Ok(count) => count,
        Err(reason) => {
            tell(console, name, &reason);
            0
        }
    }
}

// One read into the front of the memory.
pub fn read<R: Read, W, E: Write>(
    memory: &mut [u8],
    input: &mut R,
    console: &mut Console<'_, W, E>,
    name: &[u8],
) -> usize
    ensures inside { IsPrefixLen result memory.new }
    ensures output { console.new.output ≡ console.old.output }
    ensures program { console.new.program ≡ console.old.program }
    ensures bytes { Consumes (R.remaining input.old) (R.remaining input.new) (take result memory.new) }
{
    read_from(memory, 0, input, console, name)
}

// Reads until the memory is full or the input ends, and answers how many bytes then stand at its front. After the end nothing more is read,
// so that a terminal ends its input once.
pub fn fill<R: Read, W, E: Write>(
    memory: &mut [u8],
    input: &mut R,
    console: &mut Console<'_, W, E>,
    name: &[u8],
) -> usize
    ensures inside { IsPrefixLen result memory.new }
    ensures output { console.new.output ≡ console.old.output }
    ensures program { console.new.program ≡ console.old.program }
    ensures bytes { Consumes (R.remaining input.old) (R.remaining input.new) (take result memory.new) }
{
    let mut count = 0;
    while count < memory.len() {
        let more = read_from(memory, count, input, console, name);
        if more == 0 {
            return count;
        }
        count += more;
    }
    count
}
