// Looking at a book, and reading a frame of it.

ghost use Rattle.std.specs.Prelude.{◌≡◌, ◌+◌, ◌*◌, ◌≤◌, ◌<◌, length};
ghost use Rattle.sheet.specs.Number.{outcome_of};
ghost use Rattle.sheet.specs.Verdict.{Promise, Always};
ghost use Rattle.book.specs.Read.{has_mark, number_at, lacks_trailer, size_is_wrong, number_checks, Looks, FrameSpan, span_of, empty_span, Finds, ReadsPart};

use crate::mark::mark_bytes;
use sheet::Refusal;

// Where a frame of a book starts and ends.
#[derive(Clone, Copy)]
pub struct Found {
    pub from: usize,
    pub to: usize,
}

// Gives how many frames a book has.
pub fn look(book: &[u8]) -> Result<usize, Refusal>
    ensures { Looks book.now result }
{
    if lacks_trailer(book) {
        return Err(Refusal::NoTrailer);
    }
    let end = book.len() - 16;
    let trailer = &book[end..];
    let count = number_at(trailer, 4);
    let distance = number_at(trailer, 8);
    if size_is_wrong(count, distance, end) {
        return Err(Refusal::BookSize);
    }
    Ok(count)
}

fn lacks_trailer(book: &[u8]) -> bool
    ensures { result ≡ lacks_trailer book.now }
{
    if book.len() < 16 {
        return true;
    }
    let end = book.len() - 16;
    let trailer = &book[end..];
    let marked = has_mark(trailer);
    if !marked {
        return true;
    }
    let last = number_at(trailer, 12);
    last != 0
}

// `end` is where the trailer begins. Nothing is multiplied before the count is known to be small.
fn size_is_wrong(count: usize, distance: usize, end: usize) -> bool
    ensures { result ≡ size_is_wrong count distance end }
{
    if 1000 < count {
        return true;
    }
    if distance != 32 * count {
        return true;
    }
    end < distance
}

fn has_mark(trailer: &[u8]) -> bool
    requires { length trailer.now ≡ 16 }
    ensures { result ≡ has_mark trailer.now }
{
    let mark = mark_bytes();
    trailer.starts_with(&mark)
}

// The 32-bit number in four bytes, highest byte first.
fn number_at(bytes: &[u8], at: usize) -> usize
    requires { at + 4 ≤ length bytes.now }
    ensures { result ≡ number_at bytes.now at }
{
    let four = [bytes[at], bytes[at + 1], bytes[at + 2], bytes[at + 3]];
    u32::from_be_bytes(four) as usize
}

// Where frame `i` stands in a book.
pub fn find(book: &[u8], i: usize) -> Result<Found, Refusal>
    ensures { Finds book.now i result }
{
    let count = look(book)?;
    find_frame(book, count, i)
}

// Past the checks of the book, which has `count` frames.
fn find_frame(book: &[u8], count: usize, i: usize) -> Result<Found, Refusal>
    requires { 32 * count + 16 ≤ length book.now }
    ensures { Promise (number_checks count i) (Always (FrameSpan book.now count i)) empty_span (outcome_of result) (span_of result) }
{
    if count <= i {
        return Err(Refusal::NoSuchFrame);
    }
    let first = book.len() - 16 - 32 * count;
    let from = first + 32 * i;
    let to = from + 32;
    Ok(Found { from, to })
}

// The very bytes of frame `i` in the lent book; where `find` refuses, the empty part at its front.
pub fn frame<'a>(book: &'a [u8], i: usize) -> &'a [u8]
    ensures { ReadsPart book.entry i result }
{
    let Found { from, to } = find(book, i).unwrap_or(Found { from: 0, to: 0 });
    &book[from..to]
}
