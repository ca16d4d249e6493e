// The text of a value, for C: number, length, and the text at the front of the memory lent.
#![tactic(auto)]

ghost use Rattle.std.specs.Prelude.{length};
ghost use Rattle.rules.specs.Answers.{Answered};
ghost use Rattle.rules.specs.Values.{value_text};
ghost use Rattle.refusal.specs.Refusals.{answer_number, answer_length};
ghost use Rattle.value_c.specs.Call.{outcome};

use refusal::Refusal;

// What a call answers: a number of document 01, and the length of the text.
#[repr(C)]
#[derive(Clone, Copy)]
pub struct EvtxValue {
    pub number: u32,
    pub length: u64,
}

// The value is written twice: first with no room, to learn whether it is refused and how long its text is, and then, if that
// fits, with all of out. So a refused call leaves out as it was.
fn put(kind: u8, src: &[u8], out: &mut [u8]) -> Result<usize, Refusal>
    ensures { Answered (outcome (length out.old) (value_text kind src.now))
        out.old out.new (answer_number result) (answer_length result) }
{
    let length = value::put_value(&mut out[..0], 0, kind, src)?;
    if out.len() < length {
        return Err(Refusal::RoomTooSmall);
    }
    let _ = value::put_value(out, 0, kind, src);
    Ok(length)
}

// The text of a value by its type, to the front of out.
#[unsafe(no_mangle)]
pub extern "C" fn evtx_put_value(kind: u8, src: &[u8], out: &mut [u8]) -> EvtxValue
    ensures { Answered (outcome (length out.old) (value_text kind src.now))
        out.old out.new result.number result.length }
{
    let (number, length) = refusal::in_numbers(put(kind, src, out));
    EvtxValue { number, length }
}
