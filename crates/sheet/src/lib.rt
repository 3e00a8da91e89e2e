// The refusal sheet: one variant for each number, with its condition; it is given where no earlier check has refused. Also what a caller is told of an answer.

#![tactic(auto)]

ghost use Rattle.std.specs.Prelude.{◌≡◌};
ghost use Rattle.sheet.specs.Number.{number_of, outcome_number, plainly, told_of, outcome_told, outcome_of};

#[derive(Clone, Copy)]
pub enum Refusal {
    // 1: m is not 3 to 10.
    FieldSize,
    // 2: t is not listed for m.
    NotListed,
    // 3: the message is not k long; a received or edited word is not n long.
    InputLength,
    // 4: an output buffer has the wrong length.
    OutputLength,
    // 5: a bit of a lent message, word or stretch is above 1. The buffer is 1 for the stretch of Edit and 0 for any other; the place is the first such one.
    BitAboveOne { buffer: u32, place: usize },
    // 6: no code word within t; no set of places with the kept sums.
    NothingNear,
    // 7: in a kept record one of the first n bits is above 1 or one of the first t sums is 2^m or more.
    RecordContents,
    // 8 is struck, and no refusal gets it again.
    // 9: a frame is not 32 bytes; the frames to be written to a book are no multiple of 32 bytes.
    FrameLength,
    // 10: a frame's last bit is 1.
    PadBit,
    // 11: a decoded frame's lead bits are wrong.
    LeadBits,
    // 12: a stretch runs past the end.
    StretchEnd,
    // 13: a book is shorter than 16 bytes, or its mark or its last number is wrong.
    NoTrailer,
    // 14: a book's count is above 1,000, its distance is not 32 times the count, or it reaches before the start;
    // the frames to be written are above 32,000 bytes.
    BookSize,
    // 15: a book has no frame with this number.
    NoSuchFrame,
}

// What a caller is told: the number, 0 where nothing is refused; with 5 the buffer and the place, and 0 and 0 with any other number.
#[repr(C)]
#[derive(Clone, Copy)]
pub struct Told {
    pub number: u32,
    pub buffer: u32,
    pub place: usize,
}

// Told of any answer, whatever value it has where nothing is refused.
pub fn tell_outcome<T>(answer: &Result<T, Refusal>) -> Told
    ensures { result ≡ outcome_told (outcome_of answer.now) }
{
    match answer {
        Ok(_) => plain(0),
        Err(r) => tell(*r),
    }
}

fn tell(r: Refusal) -> Told
    ensures { result ≡ told_of r }
{
    let number = u32::from(r);
    match r {
        Refusal::BitAboveOne { buffer, place } => Told {
            number,
            buffer,
            place,
        },
        _ => plain(number),
    }
}

fn plain(number: u32) -> Told
    ensures { result ≡ plainly number }
{
    Told {
        number,
        buffer: 0,
        place: 0,
    }
}

// Where only the number is asked for.
pub fn outcome_number<T>(answer: &Result<T, Refusal>) -> u32
    ensures { result ≡ outcome_number (outcome_of answer.now) }
{
    match answer {
        Ok(_) => 0,
        Err(r) => u32::from(*r),
    }
}

impl From<Refusal> for u32 {
    ghost from_gives = { λ r number. number ≡ number_of r };

    fn from(r: Refusal) -> u32 {
        match r {
            Refusal::FieldSize => 1,
            Refusal::NotListed => 2,
            Refusal::InputLength => 3,
            Refusal::OutputLength => 4,
            Refusal::BitAboveOne { .. } => 5,
            Refusal::NothingNear => 6,
            Refusal::RecordContents => 7,
            Refusal::FrameLength => 9,
            Refusal::PadBit => 10,
            Refusal::LeadBits => 11,
            Refusal::StretchEnd => 12,
            Refusal::NoTrailer => 13,
            Refusal::BookSize => 14,
            Refusal::NoSuchFrame => 15,
        }
    }
}
