// The C interface, of headers and single records: each call under its C name, with its answer as a struct of numbers. include/evtx.h declares it.
// The crates of the other calls use its structs, so it is a library: what C calls are the exports of records_for_c, each of which is one of these calls.
#![tactic(auto)]

ghost use Rattle.std.specs.Prelude.{◌≡◌};
ghost use Rattle.rules.specs.Headers.{check_file_header, check_chunk, free_space_of};
ghost use Rattle.rules.specs.Records.{next_in_chunk, next_in_bytes, size_in_chunk, size_in_bytes, stretch_of, fields_of};
ghost use Rattle.refusal.specs.Refusals.{outcome, answer_number};
ghost use Rattle.records_c.specs.Answers.{checked, size_in, found_of, stretch_in, fields_in};

use refusal::Refusal;

#[repr(C)]
#[derive(Clone, Copy)]
pub struct EvtxAnswer {
    pub number: u32,
    pub length: u64,
}

#[repr(C)]
#[derive(Clone, Copy)]
pub struct EvtxText {
    pub number: u32,
    pub length: u64,
}

#[repr(C)]
#[derive(Clone, Copy)]
pub struct EvtxFound {
    pub number: u32,
    pub offset: u64,
}

#[repr(C)]
#[derive(Clone, Copy)]
pub struct EvtxStretch {
    pub number: u32,
    pub offset: u64,
    pub length: u64,
}

#[repr(C)]
#[derive(Clone, Copy)]
pub struct EvtxFields {
    pub number: u32,
    pub record_number: u64,
    pub written_time: u64,
}

// The answer of a check, which has a number and no length.
fn answer_of(check: Result<(), Refusal>) -> EvtxAnswer
    ensures { result ≡ checked (answer_number check) }
{
    let number = refusal::number_of(check);
    EvtxAnswer { number, length: 0 }
}

// The answer that tells where the next record stands, or the free space.
fn found_at(offset: Result<u64, Refusal>) -> EvtxFound
    ensures { result ≡ found_of (outcome offset) }
{
    EvtxFound {
        number: refusal::number_of(offset),
        offset: offset.unwrap_or(0),
    }
}

// The answer that tells the size of a record.
fn size_answer(size: Result<usize, Refusal>) -> EvtxAnswer
    ensures { result ≡ size_in (outcome size) }
{
    EvtxAnswer {
        number: refusal::number_of(size),
        length: size.unwrap_or(0) as u64,
    }
}

// An offset in the width that C has for it.
fn wide(offset: Result<usize, Refusal>) -> Result<u64, Refusal>
    ensures { result ≡ offset }
{
    offset.map(|at| at as u64)
}

// Checks a file header.
pub fn evtx_check_file_header(header: &[u8]) -> EvtxAnswer
    ensures { result ≡ checked (check_file_header header.now) }
{
    answer_of(header::check_file_header(header))
}

// Checks a chunk.
pub fn evtx_check_chunk(chunk: &[u8]) -> EvtxAnswer
    ensures { result ≡ checked (check_chunk chunk.now) }
{
    answer_of(header::check_chunk(chunk))
}

// Where a chunk says that its free space begins.
pub fn evtx_free_space_offset(chunk: &[u8]) -> EvtxFound
    ensures { result ≡ found_of (free_space_of chunk.now) }
{
    found_at(header::free_space(chunk))
}

// The next record of a chunk.
pub fn evtx_next_in_chunk(chunk: &[u8], from: u64) -> EvtxFound
    ensures { result ≡ found_of (next_in_chunk chunk.now from) }
{
    found_at(wide(record::next_in_chunk(chunk, from as usize)))
}

// The next record of loose bytes.
pub fn evtx_next_in_bytes(bytes: &[u8], from: u64) -> EvtxFound
    ensures { result ≡ found_of (next_in_bytes bytes.now from) }
{
    found_at(wide(record::next_in_bytes(bytes, from as usize)))
}

// The size of a record of a chunk.
pub fn evtx_size_in_chunk(chunk: &[u8], offset: u64) -> EvtxAnswer
    ensures { result ≡ size_in (size_in_chunk chunk.now offset) }
{
    size_answer(record::size_in_chunk(chunk, offset as usize))
}

// The size of a record of loose bytes.
pub fn evtx_size_in_bytes(bytes: &[u8], offset: u64) -> EvtxAnswer
    ensures { result ≡ size_in (size_in_bytes bytes.now offset) }
{
    size_answer(record::size_in_bytes(bytes, offset as usize))
}

// Where a record's binary XML lies.
pub fn evtx_record_stretch(chunk: &[u8], offset: u64) -> EvtxStretch
    ensures { result ≡ stretch_in (stretch_of chunk.now offset) }
{
    match record::record_stretch(chunk, offset as usize) {
        Ok(stretch) => EvtxStretch {
            number: 0,
            offset: stretch.offset as u64,
            length: stretch.len as u64,
        },
        Err(refusal) => EvtxStretch {
            number: u32::from(refusal),
            offset: 0,
            length: 0,
        },
    }
}

// A record's number and written time.
pub fn evtx_record_fields(chunk: &[u8], offset: u64) -> EvtxFields
    ensures { result ≡ fields_in (fields_of chunk.now offset) }
{
    match record::record_fields(chunk, offset as usize) {
        Ok(fields) => EvtxFields {
            number: 0,
            record_number: fields.record_number,
            written_time: fields.written_time,
        },
        Err(refusal) => EvtxFields {
            number: u32::from(refusal),
            record_number: 0,
            written_time: 0,
        },
    }
}
