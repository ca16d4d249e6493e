// The C interface, of EVT logs: each call under its C name, with its answer as a struct of numbers. include/evtx.h declares it.
#![tactic(auto)]

ghost use Rattle.std.specs.Prelude.{◌≡◌, length};
ghost use Rattle.rules.specs.Answers.{Answered};
ghost use Rattle.rules.specs.Evt.{evt_header, evt_text, evt_fields};
ghost use Rattle.refusal.specs.Refusals.{outcome_by};
ghost use Rattle.evt.specs.Stands.{seen_fields};
ghost use Rattle.evt_c.specs.Answers.{seen_in};

use evt::Seen;
use records_c::{EvtxAnswer, EvtxText};
use refusal::Refusal;

#[repr(C)]
#[derive(Clone, Copy)]
pub struct EvtxEvtSeen {
    pub number: u32,
    pub length: u64,
    pub record_number: u64,
    pub written_time: u64,
    pub next: u64,
}

// The header of a log, repaired where the dirty flag is set.
#[unsafe(no_mangle)]
pub extern "C" fn evtx_evt_header(file: &[u8], out: &mut [u8]) -> EvtxAnswer
    ensures { Answered (evt_header file.now (length out.old)) out.old out.new result.number result.length }
{
    let (number, length) = refusal::in_numbers(repair::header(file, out));
    EvtxAnswer { number, length }
}

// The text of the record at an offset.
#[unsafe(no_mangle)]
pub extern "C" fn evtx_evt_text(file: &[u8], offset: u64, out: &mut [u8]) -> EvtxText
    ensures { Answered (evt_text file.now offset (length out.old)) out.old out.new result.number result.length }
{
    let (number, length) = refusal::in_numbers(evt::text(file, offset as usize, out));
    EvtxText { number, length }
}

// The answer that tells what a record shows of itself.
fn seen_answer(seen: Result<Seen, Refusal>) -> EvtxEvtSeen
    ensures { result ≡ seen_in (outcome_by seen_fields seen) }
{
    match seen {
        Ok(seen) => EvtxEvtSeen {
            number: 0,
            length: seen.length as u64,
            record_number: seen.record_number,
            written_time: seen.written_time,
            next: seen.next as u64,
        },
        Err(refusal) => EvtxEvtSeen {
            number: u32::from(refusal),
            length: 0,
            record_number: 0,
            written_time: 0,
            next: 0,
        },
    }
}

// What the record at an offset shows of itself.
#[unsafe(no_mangle)]
pub extern "C" fn evtx_evt_record(file: &[u8], offset: u64) -> EvtxEvtSeen
    ensures { result ≡ seen_in (evt_fields file.now offset) }
{
    seen_answer(evt::record(file, offset as usize))
}
