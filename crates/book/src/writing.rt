// Writing a book: the frames, then the trailer.

ghost use Rattle.std.specs.Prelude.{◌≡◌, ◌++◌, ◌+◌, ◌*◌, ◌/◌, ◌%◌, ◌^◌, ◌≤◌, ◌<◌, length, take};
ghost use Rattle.book.specs.Book.{four_bytes, trailer};
ghost use Rattle.book.specs.Write.{WritesBook};

use crate::mark::mark_bytes;
use sheet::Refusal;

pub fn write(frames: &[u8], book: &mut [u8]) -> Result<(), Refusal>
    ensures { WritesBook frames.now book.old result book.new }
{
    if 32000 < frames.len() {
        return Err(Refusal::BookSize);
    }
    if frames.len() % 32 != 0 {
        return Err(Refusal::FrameLength);
    }
    let count = frames.len() / 32;
    if book.len() != 32 * count + 16 {
        return Err(Refusal::OutputLength);
    }
    bits::copy_at(book, 0, frames);
    put_trailer(book, count);
    Ok(())
}

// The trailer of `count` frames, after them.
fn put_trailer(book: &mut [u8], count: usize)
    requires { length book.old ≡ 32 * count + 16 }
    ensures { book.new ≡ take (32 * count) book.old ++ trailer count }
{
    let mark = mark_bytes();
    let numbers = number_bytes(count);
    let end = 32 * count;
    bits::copy_at(book, end, &mark);
    let after_mark = end + 4;
    bits::copy_at(book, after_mark, &numbers);
}

// The three numbers of the trailer, each highest byte first.
fn number_bytes(count: usize) -> [u8; 12]
    requires { 32 * count < 2 ^ 64 }
    ensures { result ≡ four_bytes count ++ four_bytes (32 * count) ++ four_bytes 0 }
{
    let distance = 32 * count;
    [
        byte_above(count, 24),
        byte_above(count, 16),
        byte_above(count, 8),
        byte_above(count, 0),
        byte_above(distance, 24),
        byte_above(distance, 16),
        byte_above(distance, 8),
        byte_above(distance, 0),
        0,
        0,
        0,
        0,
    ]
}

// The byte above the lowest `bits` bits.
fn byte_above(n: usize, bits: usize) -> u8
    requires { bits ≤ 24 }
    ensures { result ≡ n / 2 ^ bits % 256 }
{
    ((n >> bits) % 256) as u8
}
