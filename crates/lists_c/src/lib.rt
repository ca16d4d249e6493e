// The C interface, of lists: the searches, the calls on a stream, and what is asked of an index. Each call has its C name, and its answer is a struct of
// numbers. include/evtx.h declares it.
#![tactic(auto)]

ghost use Rattle.std.specs.Prelude.{◌≡◌, ◌/◌, length};
ghost use Rattle.rules.specs.Answers.{Answered};
ghost use Rattle.rules.specs.Records.{search_chunk, search_bytes};
ghost use Rattle.rules.specs.Stream.{feed, close, StreamAnswered};
ghost use Rattle.rules.specs.Index.{old, entry_at, find};
ghost use Rattle.refusal.specs.Refusals.{outcome_by, answer_number, answer_length};
ghost use Rattle.entries.specs.Answers.{placed_of};
ghost use Rattle.lists_c.specs.Answers.{entry_in};

use entries::{Form, Found};
use records_c::EvtxAnswer;
use refusal::Refusal;

#[repr(C)]
#[derive(Clone, Copy)]
pub struct EvtxEntry {
    pub number: u32,
    pub position: u64,
    pub chunk_number: u64,
    pub offset: u64,
    pub size: u64,
    pub record_number: u64,
    pub refusal: u32,
}

// The answer of a search, or of a call on a stream: how many records it listed.
fn counted(count: Result<usize, Refusal>) -> EvtxAnswer
    ensures { (result.number ≡ answer_number count) × (result.length ≡ answer_length count) }
{
    let (number, length) = refusal::in_numbers(count);
    EvtxAnswer { number, length }
}

// Lists the records of a chunk.
#[unsafe(no_mangle)]
pub extern "C" fn evtx_search_chunk(chunk: &[u8], offsets: &mut [u32]) -> EvtxAnswer
    ensures { Answered (search_chunk chunk.now (length offsets.old)) offsets.old offsets.new result.number
        result.length }
{
    counted(search::search_chunk(chunk, offsets))
}

// Lists the records of loose bytes.
#[unsafe(no_mangle)]
pub extern "C" fn evtx_search_bytes(bytes: &[u8], offsets: &mut [u32]) -> EvtxAnswer
    ensures { Answered (search_bytes bytes.now (length offsets.old)) offsets.old offsets.new result.number
        result.length }
{
    counted(search::search_bytes(bytes, offsets))
}

// Takes a packet of a stream, and lists the records that no later bytes can undo.
#[unsafe(no_mangle)]
pub extern "C" fn evtx_feed(packet: &[u8], store: &mut [u8], list: &mut [u64]) -> EvtxAnswer
    ensures { StreamAnswered (feed store.old packet.now (length list.old / 2)) list.old
        list.new store.old store.new result.number result.length }
{
    counted(stream::feed(packet, store, list))
}

// Closes a stream, and lists the rest of its records.
#[unsafe(no_mangle)]
pub extern "C" fn evtx_close(store: &mut [u8], list: &mut [u64]) -> EvtxAnswer
    ensures { StreamAnswered (close store.old (length list.old / 2)) list.old list.new
        store.old store.new result.number result.length }
{
    counted(stream::close(store, list))
}

// The answer that tells an entry.
fn entry_answer(found: Result<Found, Refusal>) -> EvtxEntry
    ensures { result ≡ entry_in (outcome_by placed_of found) }
{
    match found {
        Ok(entry) => EvtxEntry {
            number: 0,
            position: entry.position as u64,
            chunk_number: entry.chunk,
            offset: entry.offset,
            size: entry.size,
            record_number: entry.record_number,
            refusal: entry.refusal,
        },
        Err(refusal) => EvtxEntry {
            number: u32::from(refusal),
            position: 0,
            chunk_number: 0,
            offset: 0,
            size: 0,
            record_number: 0,
            refusal: 0,
        },
    }
}

// The entry at a position of an index.
#[unsafe(no_mangle)]
pub extern "C" fn evtx_index_entry(index: &[u8], position: u64) -> EvtxEntry
    ensures { result ≡ entry_in (entry_at old index.now position) }
{
    entry_answer(entries::entry_at(index, Form::Old, position as usize))
}

// The first entry of an index with a record number.
#[unsafe(no_mangle)]
pub extern "C" fn evtx_index_find(index: &[u8], record_number: u64) -> EvtxEntry
    ensures { result ≡ entry_in (find old index.now record_number) }
{
    entry_answer(entries::find(index, Form::Old, record_number))
}
