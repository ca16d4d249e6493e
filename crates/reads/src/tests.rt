// Reads that bring little at a time, and reads that fail: what is then answered, and what is said.
use crate::{Console, fill, read, tell};
use std::io;
use std::io::{Cursor, Error, ErrorKind, Read};

// EIO, which the system calls "Input/output error".
const INPUT_OUTPUT: i32 = 5;

// Gives two bytes at most, until so many were given; the read after these fails, and the ones after that go on.
#[derive(Drop)]
struct Slow {
    given: u8,
    fails_at: u8,
}

impl Read for Slow {
    fn read(&mut self, buf: &mut [u8]) -> io::Result<usize> {
        if self.given == self.fails_at {
            self.fails_at = 255;
            return Err(Error::from_raw_os_error(INPUT_OUTPUT));
        }
        let n = buf.len().min(2);
        for byte in &mut buf[..n] {
            *byte = self.given;
            self.given = self.given.wrapping_add(1);
        }
        Ok(n)
    }
}

// A console whose output takes nothing.
fn console() -> Console<'static, Cursor<[u8; 0]>, Cursor<[u8; 64]>> {
    Console {
        output: Cursor::new([]),
        errors: Cursor::new([0u8; 64]),
        program: b"p: ",
    }
}

#[test]
fn short_reads_fill_the_memory(rt: HostRuntime) {
    let mut input = Slow {
        given: 10,
        fails_at: 255,
    };
    let mut console = console();
    let mut memory = [0u8; 5];
    let count = fill(&mut memory, &mut input, &mut console, b"name");
    assert_eq!(rt; count, 5);
    assert_eq!(rt; memory, [10, 11, 12, 13, 14]);
    let count = read(&mut memory, &mut input, &mut console, b"name");
    assert_eq!(rt; count, 2);
    assert_eq!(rt; memory, [15, 16, 12, 13, 14]);
    assert_eq!(rt; console.errors.position(), 0);
}

#[test]
fn a_failed_read_is_told_and_ends_the_input(rt: HostRuntime) {
    let mut input = Slow {
        given: 0,
        fails_at: 4,
    };
    let mut console = console();
    let mut memory = [9u8; 7];
    let count = fill(&mut memory, &mut input, &mut console, b"name");
    assert_eq!(rt; count, 4);
    assert_eq!(rt; memory, [0, 1, 2, 3, 9, 9, 9]);
    assert!(rt;
        console
            .errors
            .get_ref()
            .starts_with(b"p: name: Input/output error\n\0")
    );
    let count = read(&mut memory, &mut input, &mut console, b"name");
    assert_eq!(rt; count, 2);
}

#[test]
fn the_end_of_the_input_is_no_failure(rt: HostRuntime) {
    let mut input = Cursor::new(b"abc");
    let mut console = console();
    let mut memory = [9u8; 5];
    let count = fill(&mut memory, &mut input, &mut console, b"name");
    assert_eq!(rt; count, 3);
    assert_eq!(rt; memory, [97, 98, 99, 9, 9]);
    assert_eq!(rt; console.errors.position(), 0);
}

#[test]
fn a_reason_without_a_number_is_told_whole(rt: HostRuntime) {
    let mut console = console();
    let reason = Error::new(ErrorKind::Other, "no (os) error");
    tell(&mut console, b"x", &reason);
    assert!(rt;
        console
            .errors
            .get_ref()
            .starts_with(b"p: x: no (os) error\n\0")
    );
}
