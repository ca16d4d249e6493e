// The C interface, of texts: the text of a record, and an index, whose entries say whether there is one. The other calls are in records_c and
// lists_c; the archive has all. include/evtx.h declares it.
#![tactic(auto)]

ghost use Rattle.std.specs.Prelude.{◌≡◌, length};
ghost use Rattle.rules.specs.Answers.{Answered};
ghost use Rattle.rules.specs.RecordText.{text_of};
ghost use Rattle.rules.specs.Index.{old, build, add};
ghost use Rattle.refusal.specs.Refusals.{answer_number, answer_length};
ghost use Rattle.binxml.specs.Text.{whole_text};
ghost use Rattle.evtx.specs.Texts.{Counted};

use records_c::{EvtxAnswer, EvtxText};
use refusal::{Refusal, in_numbers};

// The answer about a text.
fn text_answer(text: Result<usize, Refusal>) -> EvtxText
    ensures { (result.number ≡ answer_number text) × (result.length ≡ answer_length text) }
{
    let (number, length) = in_numbers(text);
    EvtxText { number, length }
}

// The text of a record.
#[unsafe(no_mangle)]
pub extern "C" fn evtx_record_text(chunk: &[u8], offset: u64, out: &mut [u8]) -> EvtxText
    ensures { Answered (text_of chunk.now offset (length out.old)) out.old out.new result.number result.length }
{
    text_answer(evtx::record_text(chunk, offset as usize, out))
}

// How long the text of a record is.
#[unsafe(no_mangle)]
pub extern "C" fn evtx_text_length(chunk: &[u8], offset: u64) -> EvtxText
    ensures { Counted (whole_text chunk.now offset) result.number result.length }
{
    text_answer(evtx::text_length(chunk, offset as usize))
}

// The answer about an index that is written.
fn index_answer(built: Result<usize, Refusal>) -> EvtxAnswer
    ensures { (result.number ≡ answer_number built) × (result.length ≡ answer_length built) }
{
    let (number, length) = in_numbers(built);
    EvtxAnswer { number, length }
}

// Builds the index of a chunk.
#[unsafe(no_mangle)]
pub extern "C" fn evtx_index_build(chunk: &[u8], out: &mut [u8]) -> EvtxAnswer
    ensures { Answered (build old 0 chunk.now (length out.old)) out.old out.new result.number result.length }
{
    index_answer(index::build(chunk, out))
}

// Writes an index with one entry more.
#[unsafe(no_mangle)]
pub extern "C" fn evtx_index_add(chunk: &[u8], index: &[u8], out: &mut [u8]) -> EvtxAnswer
    ensures { Answered (add old 0 chunk.now index.now (length out.old)) out.old out.new
        result.number result.length }
{
    index_answer(index::add(chunk, index, out))
}
