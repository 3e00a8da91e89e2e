// The operations under C names, each a thin layer over the proved one; blentovar_c exports them. What C would pad is a field that holds 0.
// C has no Result, so its structs have the number of the refusal beside the value, and 0 where nothing is refused.

#![tactic(auto)]

ghost use Rattle.std.specs.Prelude.{◌≡◌, ◌≤◌};
ghost use Rattle.blentovar.specs.Answers.{SizesAs, DescribesAs, EncodesAs, DecodesAs, EditsAs, OpensAs, SplicesAs, DecodesKeptAs, MakesAs, ReadsAs};
ghost use Rattle.blentovar.specs.Answers.{LooksAs, ReadsBookAs, WritesBookAs};
ghost use Rattle.blentovar.specs.Layout.{sizes_answer, decode_answer, laid_out, kept_of, told_beside, kept_answer, decode_kept_answer};
ghost use Rattle.blentovar.specs.Layout.{read_answer, look_answer, part_answer};
ghost use Rattle.book.specs.Read.{span_of};

use book::Found;
use codec::Described;
use frame::ReadFrame;
use kept::Kept;
use layout::Reading;
use sheet::{Refusal, Told};

// The sheet's number, 0 where nothing is refused, and n and k.
#[repr(C)]
#[derive(Clone, Copy)]
pub struct SizesAnswer {
    pub number: u32,
    pub zero_after_number: u32,
    pub n: usize,
    pub k: usize,
}

// What is told, and the number of wrong places.
#[repr(C)]
#[derive(Clone, Copy)]
pub struct DecodeAnswer {
    pub number: u32,
    pub buffer: u32,
    pub place: usize,
    pub wrong: usize,
}

// A kept record.
#[repr(C)]
#[derive(Clone, Copy)]
pub struct Record {
    pub m: usize,
    pub t: usize,
    pub bits: [u8; 1023],
    pub zero_after_bits: u8,
    pub sums: [u16; 255],
    pub zero_after_sums: u16,
}

// What is told, and the record.
#[repr(C)]
#[derive(Clone, Copy)]
pub struct KeptAnswer {
    pub number: u32,
    pub buffer: u32,
    pub place: usize,
    pub record: Record,
}

// The sheet's number, 0 where nothing is refused, and the number of wrong places.
#[repr(C)]
#[derive(Clone, Copy)]
pub struct DecodeKeptAnswer {
    pub number: u32,
    pub zero_after_number: u32,
    pub wrong: usize,
}

// The sheet's number, 0 where nothing is refused, the reading, and the number of wrong places.
#[repr(C)]
#[derive(Clone, Copy)]
pub struct ReadAnswer {
    pub number: u32,
    pub house: u16,
    pub poll: u16,
    pub counter: u64,
    pub wrong: usize,
}

// The sheet's number, 0 where nothing is refused, and the count of frames.
#[repr(C)]
#[derive(Clone, Copy)]
pub struct LookAnswer {
    pub number: u32,
    pub zero_after_number: u32,
    pub count: usize,
}

// The sheet's number, 0 where nothing is refused, and the part of the book: where it starts and how long it is.
#[repr(C)]
#[derive(Clone, Copy)]
pub struct PartAnswer {
    pub number: u32,
    pub zero_after_number: u32,
    pub offset: usize,
    pub length: usize,
}

impl From<Result<Described, Refusal>> for SizesAnswer {
    ghost from_gives = { λ given answer. answer ≡ sizes_answer given };

    fn from(given: Result<Described, Refusal>) -> SizesAnswer {
        let number = sheet::outcome_number(&given);
        let Described { n, k } = given.unwrap_or(Described { n: 0, k: 0 });
        SizesAnswer {
            number,
            zero_after_number: 0,
            n,
            k,
        }
    }
}

impl From<Result<usize, Refusal>> for DecodeAnswer {
    ghost from_gives = { λ given answer. answer ≡ decode_answer given };

    fn from(given: Result<usize, Refusal>) -> DecodeAnswer {
        let told = sheet::tell_outcome(&given);
        DecodeAnswer {
            number: told.number,
            buffer: told.buffer,
            place: told.place,
            wrong: given.unwrap_or(0),
        }
    }
}

impl From<Kept> for Record {
    ghost from_gives = { λ kept laid. laid ≡ laid_out kept };

    fn from(kept: Kept) -> Record {
        let Kept { m, t, bits, sums } = kept;
        Record {
            m,
            t,
            bits,
            zero_after_bits: 0,
            sums,
            zero_after_sums: 0,
        }
    }
}

impl From<Record> for Kept {
    ghost from_gives = { λ stored kept. kept ≡ kept_of stored };

    // What stands in the fields that come back as 0 is not looked at.
    fn from(stored: Record) -> Kept {
        let Record {
            m,
            t,
            bits,
            sums,
            ..
        } = stored;
        Kept { m, t, bits, sums }
    }
}

fn told_beside(told: Told, kept: Kept) -> KeptAnswer
    ensures { result ≡ told_beside told kept }
{
    KeptAnswer {
        number: told.number,
        buffer: told.buffer,
        place: told.place,
        record: Record::from(kept),
    }
}

// `otherwise` is the record that comes back where there is no new one.
fn kept_answer(otherwise: Kept, given: Result<Kept, Refusal>) -> KeptAnswer
    ensures { result ≡ kept_answer otherwise given }
{
    told_beside(sheet::tell_outcome(&given), given.unwrap_or(otherwise))
}

impl From<Result<usize, Refusal>> for DecodeKeptAnswer {
    ghost from_gives = { λ given answer. answer ≡ decode_kept_answer given };

    fn from(given: Result<usize, Refusal>) -> DecodeKeptAnswer {
        DecodeKeptAnswer {
            number: sheet::outcome_number(&given),
            zero_after_number: 0,
            wrong: given.unwrap_or(0),
        }
    }
}

impl From<Result<ReadFrame, Refusal>> for ReadAnswer {
    ghost from_gives = { λ given answer. answer ≡ read_answer given };

    fn from(given: Result<ReadFrame, Refusal>) -> ReadAnswer {
        let number = sheet::outcome_number(&given);
        let ReadFrame { reading, wrong } = given.unwrap_or(NO_READING);
        ReadAnswer {
            number,
            house: reading.house,
            poll: reading.poll,
            counter: reading.counter,
            wrong,
        }
    }
}

// What stands for the reading of a refused frame.
const NO_READING: ReadFrame = ReadFrame {
    reading: Reading {
        house: 0,
        poll: 0,
        counter: 0,
    },
    wrong: 0,
};

impl From<Result<usize, Refusal>> for LookAnswer {
    ghost from_gives = { λ given answer. answer ≡ look_answer given };

    fn from(given: Result<usize, Refusal>) -> LookAnswer {
        LookAnswer {
            number: sheet::outcome_number(&given),
            zero_after_number: 0,
            count: given.unwrap_or(0),
        }
    }
}

fn part_answer(given: Result<Found, Refusal>) -> PartAnswer
    requires { (span_of given).from ≤ (span_of given).to }
    ensures { result ≡ part_answer given }
{
    let number = sheet::outcome_number(&given);
    let Found { from, to } = given.unwrap_or(Found { from: 0, to: 0 });
    PartAnswer {
        number,
        zero_after_number: 0,
        offset: from,
        length: to - from,
    }
}

pub fn blentovar_sizes(m: usize, t: usize) -> SizesAnswer
    ensures { SizesAs m t result }
{
    SizesAnswer::from(codec::sizes(m, t))
}

pub fn blentovar_describe(m: usize, t: usize, generator: &mut [u8]) -> SizesAnswer
    ensures { DescribesAs m t generator.old result generator.new }
{
    SizesAnswer::from(codec::describe(m, t, generator))
}

pub fn blentovar_encode(m: usize, t: usize, message: &[u8], word: &mut [u8]) -> Told
    ensures { EncodesAs m t message.now word.old result word.new }
{
    sheet::tell_outcome(&codec::encode(m, t, message, word))
}

pub fn blentovar_decode(
    m: usize,
    t: usize,
    received: &[u8],
    word: &mut [u8],
    list: &mut [u16],
) -> DecodeAnswer
    ensures { DecodesAs m t received.now word.old list.old result word.new list.new }
{
    DecodeAnswer::from(decode::decode(m, t, received, word, list))
}

pub fn blentovar_edit(m: usize, t: usize, word: &mut [u8], start: usize, stretch: &[u8]) -> Told
    ensures { EditsAs m t word.old start stretch.now result word.new }
{
    sheet::tell_outcome(&codec::edit(m, t, word, start, stretch))
}

pub fn blentovar_open(m: usize, t: usize, word: &[u8]) -> KeptAnswer
    ensures { OpensAs m t word.now result }
{
    // As `kept::open` does it, without a Result that holds the record.
    let checked = kept::checks(m, t, word);
    let told = sheet::tell_outcome(&checked);
    match checked {
        Ok(code) => told_beside(told, kept::opened(code, word)),
        Err(_) => told_beside(
            told,
            Kept {
                m: 0,
                t: 0,
                bits: [0; 1023],
                sums: [0; 255],
            },
        ),
    }
}

pub fn blentovar_splice(stored: Record, start: usize, stretch: &[u8]) -> KeptAnswer
    ensures { SplicesAs stored start stretch.now result }
{
    let kept = Kept::from(stored);
    kept_answer(kept, splice::splice(kept, start, stretch))
}

pub fn blentovar_decode_kept(stored: Record, word: &mut [u8], list: &mut [u16]) -> DecodeKeptAnswer
    ensures { DecodesKeptAs stored word.old list.old result word.new list.new }
{
    DecodeKeptAnswer::from(decode_kept::decode_kept(Kept::from(stored), word, list))
}

pub fn blentovar_make_frame(house: u16, poll: u16, counter: u64, frame: &mut [u8]) -> u32
    ensures { MakesAs house poll counter frame.old result frame.new }
{
    let reading = Reading {
        house,
        poll,
        counter,
    };
    sheet::outcome_number(&frame::make(reading, frame))
}

pub fn blentovar_read_frame(frame: &[u8]) -> ReadAnswer
    ensures { ReadsAs frame.now result }
{
    ReadAnswer::from(frame::read(frame))
}

pub fn blentovar_look_at_book(book: &[u8]) -> LookAnswer
    ensures { LooksAs book.now result }
{
    LookAnswer::from(book::look(book))
}

pub fn blentovar_read_book(book: &[u8], i: usize) -> PartAnswer
    ensures { ReadsBookAs book.now i result }
{
    part_answer(book::find(book, i))
}

pub fn blentovar_write_book(frames: &[u8], book: &mut [u8]) -> u32
    ensures { WritesBookAs frames.now book.old result book.new }
{
    sheet::outcome_number(&book::write(frames, book))
}
