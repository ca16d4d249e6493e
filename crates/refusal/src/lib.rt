// Why a call is refused, and where: the errors of every crate that can refuse. What each refusal is about stands with its number in `Answers`
// (rules); C and the programs get the number.
#![tactic(auto)]

ghost use Rattle.std.specs.Prelude.{◌≡◌};
ghost use Rattle.refusal.specs.Refusals.{answer_number, answer_length};

// The refusals of the papers, in the order of their numbers, which begin with 1.
#[derive(Clone, Copy, Debug, PartialEq, Eq)]
pub enum Refusal {
    WrongLength,
    WrongMagic,
    WrongVersion,
    WrongField,
    WrongHeaderSum,
    WrongDataSum,
    NoRecord,
    Malformed,
    LeavesChunk,
    NoSuchValue,
    WrongValue,
    OverLimit,
    RoomTooSmall,
    AfterClosing,
    NumberTooLarge,
    NotAnIndex,
    NoTrailer,
    NoEvtRecord,
}

impl From<Refusal> for u32 {
    ghost use Rattle.std.specs.Prelude.{◌≡◌};
    ghost use Rattle.refusal.specs.Refusals.{number};

    ghost from_gives = { λ r n. n ≡ number r };

    fn from(refusal: Refusal) -> u32 {
        match refusal {
            Refusal::WrongLength => 1,
            Refusal::WrongMagic => 2,
            Refusal::WrongVersion => 3,
            Refusal::WrongField => 4,
            Refusal::WrongHeaderSum => 5,
            Refusal::WrongDataSum => 6,
            Refusal::NoRecord => 7,
            Refusal::Malformed => 8,
            Refusal::LeavesChunk => 9,
            Refusal::NoSuchValue => 10,
            Refusal::WrongValue => 11,
            Refusal::OverLimit => 12,
            Refusal::RoomTooSmall => 13,
            Refusal::AfterClosing => 14,
            Refusal::NumberTooLarge => 15,
            Refusal::NotAnIndex => 16,
            Refusal::NoTrailer => 17,
            Refusal::NoEvtRecord => 18,
        }
    }
}

// A refusal with its place: the chunk's offset of the field whose test failed, or 0 where the refusal has none.
#[derive(Clone, Copy, Debug, PartialEq, Eq)]
pub struct Refused {
    pub refusal: Refusal,
    pub place: usize,
}

// A refusal outside a record's binary XML has no place.
impl From<Refusal> for Refused {
    ghost use Rattle.std.specs.Prelude.{◌≡◌};

    ghost from_gives = { λ r e. e ≡ record { refusal = r; place = 0 } };

    fn from(refusal: Refusal) -> Refused {
        Refused { refusal, place: 0 }
    }
}

// The number that an answer stands for: 0, or that of its refusal.
pub fn number_of<T: Copy>(answer: Result<T, Refusal>) -> u32
    ensures { result ≡ answer_number answer }
{
    match answer {
        Ok(_) => 0,
        Err(refusal) => u32::from(refusal),
    }
}

// The same beside the length that an answer stands for, which is 0 in a refusal.
pub fn in_numbers(answer: Result<usize, Refusal>) -> (u32, u64)
    ensures { (result.0 ≡ answer_number answer) × (result.1 ≡ answer_length answer) }
{
    match answer {
        Ok(length) => (0, length as u64),
        Err(refusal) => (u32::from(refusal), 0),
    }
}
