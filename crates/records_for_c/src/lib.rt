// The C interface, of headers and single records, as C calls it: each call is that of records_c, whose structs the other crates of the C interface
// use too. include/evtx.h declares it.
#![tactic(auto)]

ghost use Rattle.std.specs.Prelude.{◌≡◌};
ghost use Rattle.rules.specs.Headers.{check_file_header, check_chunk, free_space_of};
ghost use Rattle.rules.specs.Records.{next_in_chunk, next_in_bytes, size_in_chunk, size_in_bytes, stretch_of, fields_of};
ghost use Rattle.records_c.specs.Answers.{checked, size_in, found_of, stretch_in, fields_in};

use records_c::{EvtxAnswer, EvtxFields, EvtxFound, EvtxStretch};

// Checks a file header.
#[unsafe(no_mangle)]
pub extern "C" fn evtx_check_file_header(header: &[u8]) -> EvtxAnswer
    ensures { result ≡ checked (check_file_header header.now) }
{
    records_c::evtx_check_file_header(header)
}

// Checks a chunk.
#[unsafe(no_mangle)]
pub extern "C" fn evtx_check_chunk(chunk: &[u8]) -> EvtxAnswer
    ensures { result ≡ checked (check_chunk chunk.now) }
{
    records_c::evtx_check_chunk(chunk)
}

// Where a chunk says that its free space begins.
#[unsafe(no_mangle)]
pub extern "C" fn evtx_free_space_offset(chunk: &[u8]) -> EvtxFound
    ensures { result ≡ found_of (free_space_of chunk.now) }
{
    records_c::evtx_free_space_offset(chunk)
}

// The next record of a chunk.
#[unsafe(no_mangle)]
pub extern "C" fn evtx_next_in_chunk(chunk: &[u8], from: u64) -> EvtxFound
    ensures { result ≡ found_of (next_in_chunk chunk.now from) }
{
    records_c::evtx_next_in_chunk(chunk, from)
}

// The next record of loose bytes.
#[unsafe(no_mangle)]
pub extern "C" fn evtx_next_in_bytes(bytes: &[u8], from: u64) -> EvtxFound
    ensures { result ≡ found_of (next_in_bytes bytes.now from) }
{
    records_c::evtx_next_in_bytes(bytes, from)
}

// The size of a record of a chunk.
#[unsafe(no_mangle)]
pub extern "C" fn evtx_size_in_chunk(chunk: &[u8], offset: u64) -> EvtxAnswer
    ensures { result ≡ size_in (size_in_chunk chunk.now offset) }
{
    records_c::evtx_size_in_chunk(chunk, offset)
}

// The size of a record of loose bytes.
#[unsafe(no_mangle)]
pub extern "C" fn evtx_size_in_bytes(bytes: &[u8], offset: u64) -> EvtxAnswer
    ensures { result ≡ size_in (size_in_bytes bytes.now offset) }
{
    records_c::evtx_size_in_bytes(bytes, offset)
}

// Where a record's binary XML lies.
#[unsafe(no_mangle)]
pub extern "C" fn evtx_record_stretch(chunk: &[u8], offset: u64) -> EvtxStretch
    ensures { result ≡ stretch_in (stretch_of chunk.now offset) }
{
    records_c::evtx_record_stretch(chunk, offset)
}

// A record's number and written time.
#[unsafe(no_mangle)]
pub extern "C" fn evtx_record_fields(chunk: &[u8], offset: u64) -> EvtxFields
    ensures { result ≡ fields_in (fields_of chunk.now offset) }
{
    records_c::evtx_record_fields(chunk, offset)
}
