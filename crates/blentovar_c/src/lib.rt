// The operations for C: each export calls the function of blentovar that has its name, and promises the same.
// A crate is a library or exports for C, so each name stands twice.

#![tactic(auto)]

ghost use Rattle.blentovar.specs.Answers.{SizesAs, DescribesAs, EncodesAs, DecodesAs, EditsAs, OpensAs, SplicesAs, DecodesKeptAs, MakesAs, ReadsAs};
ghost use Rattle.blentovar.specs.Answers.{LooksAs, ReadsBookAs, WritesBookAs};

use blentovar::{
    DecodeAnswer, DecodeKeptAnswer, KeptAnswer, LookAnswer, PartAnswer, ReadAnswer, Record,
    SizesAnswer,
};
use sheet::Told;

#[unsafe(no_mangle)]
pub extern "C" fn blentovar_sizes(m: usize, t: usize) -> SizesAnswer
    ensures { SizesAs m t result }
{
    blentovar::blentovar_sizes(m, t)
}

#[unsafe(no_mangle)]
pub extern "C" fn blentovar_describe(m: usize, t: usize, generator: &mut [u8]) -> SizesAnswer
    ensures { DescribesAs m t generator.old result generator.new }
{
    blentovar::blentovar_describe(m, t, generator)
}

#[unsafe(no_mangle)]
pub extern "C" fn blentovar_encode(m: usize, t: usize, message: &[u8], word: &mut [u8]) -> Told
    ensures { EncodesAs m t message.now word.old result word.new }
{
    blentovar::blentovar_encode(m, t, message, word)
}

#[unsafe(no_mangle)]
pub extern "C" fn blentovar_decode(
    m: usize,
    t: usize,
    received: &[u8],
    word: &mut [u8],
    list: &mut [u16],
) -> DecodeAnswer
    ensures { DecodesAs m t received.now word.old list.old result word.new list.new }
{
    blentovar::blentovar_decode(m, t, received, word, list)
}

#[unsafe(no_mangle)]
pub extern "C" fn blentovar_edit(
    m: usize,
    t: usize,
    word: &mut [u8],
    start: usize,
    stretch: &[u8],
) -> Told
    ensures { EditsAs m t word.old start stretch.now result word.new }
{
    blentovar::blentovar_edit(m, t, word, start, stretch)
}

#[unsafe(no_mangle)]
pub extern "C" fn blentovar_open(m: usize, t: usize, word: &[u8]) -> KeptAnswer
    ensures { OpensAs m t word.now result }
{
    blentovar::blentovar_open(m, t, word)
}

#[unsafe(no_mangle)]
pub extern "C" fn blentovar_splice(stored: Record, start: usize, stretch: &[u8]) -> KeptAnswer
    ensures { SplicesAs stored start stretch.now result }
{
    blentovar::blentovar_splice(stored, start, stretch)
}

#[unsafe(no_mangle)]
pub extern "C" fn blentovar_decode_kept(
    stored: Record,
    word: &mut [u8],
    list: &mut [u16],
) -> DecodeKeptAnswer
    ensures { DecodesKeptAs stored word.old list.old result word.new list.new }
{
    blentovar::blentovar_decode_kept(stored, word, list)
}

#[unsafe(no_mangle)]
pub extern "C" fn blentovar_make_frame(house: u16, poll: u16, counter: u64, frame: &mut [u8]) -> u32
    ensures { MakesAs house poll counter frame.old result frame.new }
{
    blentovar::blentovar_make_frame(house, poll, counter, frame)
}

#[unsafe(no_mangle)]
pub extern "C" fn blentovar_read_frame(frame: &[u8]) -> ReadAnswer
    ensures { ReadsAs frame.now result }
{
    blentovar::blentovar_read_frame(frame)
}

#[unsafe(no_mangle)]
pub extern "C" fn blentovar_look_at_book(book: &[u8]) -> LookAnswer
    ensures { LooksAs book.now result }
{
    blentovar::blentovar_look_at_book(book)
}

#[unsafe(no_mangle)]
pub extern "C" fn blentovar_read_book(book: &[u8], i: usize) -> PartAnswer
    ensures { ReadsBookAs book.now i result }
{
    blentovar::blentovar_read_book(book, i)
}

#[unsafe(no_mangle)]
pub extern "C" fn blentovar_write_book(frames: &[u8], book: &mut [u8]) -> u32
    ensures { WritesBookAs frames.now book.old result book.new }
{
    blentovar::blentovar_write_book(frames, book)
}
