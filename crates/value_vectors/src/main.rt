// Writes the text of each value of a list, for comparison with a stored one. Standard input holds the values, each as its type (1
// byte), its size (2 bytes, little-endian) and its bytes. For each a line is written: the text, or `refused 11` and the cause.
#![tactic(auto)]

use std::io::{Read, Write};
use value::WrongValue;

// The text of one value, or its refusal. A value of 65,535 bytes has a text below 262,144, so out is never too small.
fn show<W: Write>(kind: u8, src: &[u8], out: &mut [u8], output: &mut W) {
    let _ = match value::put_value(out, 0, kind, src) {
        Ok(at) => {
            if at <= out.len() {
                output.write_all(&out[..at])
            } else {
                Ok(())
            }
        }
        Err(WrongValue::Type) => output.write_all(b"refused 11 type"),
        Err(WrongValue::Size) => output.write_all(b"refused 11 size"),
        Err(WrongValue::Content) => output.write_all(b"refused 11 content"),
    };
}

// Reads one value, writes its line, and answers whether there was one.
fn next<R: Read, W: Write>(buf: &mut [u8], out: &mut [u8], input: &mut R, output: &mut W) -> bool {
    let mut head = [0u8; 3];
    if input.read_exact(&mut head).is_err() {
        return false;
    }
    let kind = head[0];
    let size = octets::two(&head, 1) as usize;
    if buf.len() < size {
        return false;
    }
    if input.read_exact(&mut buf[..size]).is_err() {
        return false;
    }
    show(kind, &buf[..size], out, output);
    output.write_all(b"\n").is_ok()
}

// A proved loop has to end, and nothing says that the input does: so it counts to a number that no run uses up.
fn run<R: Read, W: Write>(buf: &mut [u8], out: &mut [u8], input: &mut R, output: &mut W) {
    for _ in 0..u64::MAX {
        if !next(buf, out, input, output) {
            return;
        }
    }
}

fn main(rt: HostRuntime) {
    let mut buf = [0u8; 65536];
    let mut out = [0u8; 262144];
    run(&mut buf, &mut out, &mut rt.stdin(), &mut rt.stdout());
}
