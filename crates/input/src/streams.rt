// The reads and the writes of a listing. No other file of the listing has bytes read from an input, so that what no contract can say is said here:
// that a read takes the next bytes of its input, and that a write hands its bytes on.
//
// A listing has five numbers for its streams: a checksum of the bytes that were taken from reads, each with the room it had and the number of the
// input it was made of, and one of those that were handed to writes, each with what it answered, of two sums each; and 1 if some write was not
// done, else 0. So no read and no write can go unsaid, nor an answer be taken for another, nor one input for another. No other file stores into
// them.
ghost use Rattle.std.specs.Prelude.{◌≡◌, ◌≤◌, length, take};
ghost use Rattle.reads.specs.Counts.{IsPrefixLen};
ghost use Rattle.input.specs.Streams.{nothing, after_read, after_write, took_all};
ghost use Rattle.input.specs.Tally.{numbers};

use fletcher::Sums;
use reads::Console;
use std::io::{Read, Write};

// What is kept of the bytes that went through the streams: the sums of those that were taken from reads, and of those that were handed to writes; and
// whether some write was not done.
#[derive(Clone, Copy)]
pub(crate) struct Tally {
    taken: Sums,
    handed: Sums,
    undone: bool,
}

impl Tally {
    // Nothing has been read or written.
    fn new() -> Tally
        ensures { numbers result ≡ nothing }
    {
        let none = Sums {
            first: 0,
            second: 0,
        };
        Tally {
            taken: none,
            handed: none,
            undone: false,
        }
    }

    // These bytes more were taken from a read of an input with so much room.
    fn take(&mut self, input: u64, room: u64, bytes: &[u8])
        ensures { numbers self.new ≡ after_read (numbers self.old) input room bytes.now }
    {
        let taken = fletcher::add(self.taken, bytes, room);
        self.taken = fletcher::add(taken, b"", input);
    }

    // These bytes more were handed to a write, which was done or not.
    fn hand(&mut self, bytes: &[u8], done: bool)
        ensures { numbers self.new ≡ after_write (numbers self.old) bytes.now done }
    {
        self.handed = fletcher::add(self.handed, bytes, u64::from(done));
        if !done {
            self.undone = true;
        }
    }

    pub(crate) fn numbers(self) -> [u64; 5]
        ensures { result ≡ numbers self }
    {
        [
            self.taken.first,
            self.taken.second,
            self.handed.first,
            self.handed.second,
            u64::from(self.undone),
        ]
    }
}

// Whether standard output took all that was handed to it, by the numbers after a listing.
pub fn took_all(numbers: [u64; 5]) -> bool
    ensures { result ≡ took_all numbers }
{
    numbers[4] == 0
}

// What a listing reads and where it writes: its input, which is known by its number and, where something of it has to be told, by a name.
#[derive(Drop)]
pub(crate) struct Io<'a, 'b, R, W, E> {
    source: &'a mut R,
    console: &'a mut Console<'b, W, E>,
    pub(crate) input: u64,
    name: &'a [u8],
    pub(crate) tally: Tally,
}

impl<'a, 'b, R: Read, W: Write, E: Write> Io<'a, 'b, R, W, E> {
    pub(crate) fn new(
        source: &'a mut R,
        console: &'a mut Console<'b, W, E>,
        input: u64,
        name: &'a [u8],
    ) -> Self
        ensures input { result.input ≡ input }
        ensures untouched { numbers result.tally ≡ nothing }
    {
        Io {
            source,
            console,
            input,
            name,
            tally: Tally::new(),
        }
    }

    // Fills the memory from the input, as far as there is any, and answers how many bytes then stand at its front.
    pub(crate) fn read_in(&mut self, memory: &mut [u8]) -> usize
        ensures prefix_len { IsPrefixLen result memory.new }
        ensures same_input { self.new.input ≡ self.old.input }
        ensures numbers_after { numbers self.new.tally ≡ after_read (numbers self.old.tally) self.old.input (length memory.old) (take result memory.new) }
    {
        let room = memory.len() as u64;
        let count = reads::fill(memory, self.source, self.console, self.name);
        self.tally.take(self.input, room, &memory[..count]);
        count
    }

    // Writes to standard output, and answers whether all bytes were taken.
    pub(crate) fn write_out(&mut self, bytes: &[u8]) -> bool
        ensures same_input { self.new.input ≡ self.old.input }
        ensures numbers_after { numbers self.new.tally ≡ after_write (numbers self.old.tally) bytes.now result }
    {
        let done = reads::say(self.console, bytes);
        self.tally.hand(bytes, done);
        done
    }
}
