// Lists the frames of a book that comes in on standard input, as the listing lists frames.

ghost use Rattle.std.specs.Prelude.{◌≡◌, length};
ghost use Rattle.lister.specs.Listing.{ListsFirst, frames_in, ListsBook};
ghost use Rattle.lister.specs.Work.{Counts};

use crate::{put_line, write_or_say};
use input::STDERR_FILENO;
use std::io::Read;

// Lists a book of at most 65,536 bytes, when all of it has come.
pub fn list_book<R: Read>(reader: &mut R) {
    // One byte more than may come, so that a longer input shows.
    let mut bytes = [0; 65537];
    // Room for the lines of 1,000 frames.
    let mut lines = [0; 128000];
    let came = input::read_whole(reader, &mut bytes);
    if came.failed {
        io::write_all(
            STDERR_FILENO,
            b"book_listing: reading standard input failed\n",
        );
        return;
    }
    list_input(&bytes[..came.count], &mut lines);
}

fn list_input(bytes: &[u8], lines: &mut [u8])
    requires { length lines.old ≡ 128000 }
{
    if 65536 < bytes.len() {
        io::write_all(
            STDERR_FILENO,
            b"book_listing: the input is longer than 65,536 bytes; nothing is listed\n",
        );
        return;
    }
    let end = fill_book(bytes, lines);
    write_or_say(
        &lines[..end],
        b"book_listing: writing standard output failed\n",
    );
}

// The lines of a book's frames, or the line of its refusal. Gives their length.
fn fill_book(book: &[u8], lines: &mut [u8]) -> usize
    requires { length lines.old ≡ 128000 }
    ensures { ListsBook book.now lines.old lines.new result }
{
    match book::look(book) {
        Ok(count) => list_book_frames(book, count, lines),
        Err(refusal) => line::write_refusal(refusal, lines),
    }
}

// The lines of a book's frames, numbered from 1.
fn list_book_frames(book: &[u8], count: usize, lines: &mut [u8]) -> usize
    requires { Counts book.now count × (length lines.old ≡ 128000) }
    ensures { ListsFirst 1 count (frames_in book.now count) lines.old lines.new result }
{
    let mut end = 0;
    for i in 0..count {
        end = put_line(i as u64 + 1, book::frame(book, i), end, lines);
    }
    end
}
