// Lists the readings of frames that come in on standard input, a line for each on standard output. What has come is listed before more is waited for.

#![tactic(auto)]

mod books;

ghost use Rattle.std.specs.Prelude.{◌≡◌, ◌+◌, ◌≤◌, length};
ghost use Rattle.lister.specs.Listing.{Lists, TakesIn};
ghost use Rattle.lister.specs.Work.{Room, AddsLine};

pub use books::list_book;
use input::{STDERR_FILENO, STDOUT_FILENO};
use std::io::Read;

// How far the work is: the frames listed, the bytes held of a frame that has come in part, and the bytes of lines to write.
#[derive(Clone, Copy)]
struct Progress {
    listed: u64,
    held: usize,
    end: usize,
}

// The listing between two reads: how far it is, and the buffers for frames and for lines.
#[derive(Drop)]
struct Lister {
    at: Progress,
    frames: [u8; 16000],
    lines: [u8; 64000],
    ghost frames_long: { length frames ≡ 16000 },
    ghost lines_long: { length lines ≡ 64000 },
    ghost within: { (at.held ≤ 16000) × (at.end ≤ 64000) },
}

// Lists frames until the input ends, a read or a write fails, or 1,000,000 frames are listed.
pub fn list<R: Read>(reader: &mut R) {
    let mut lister = Lister::new();
    // What follows the millionth frame is not read. A `while`, since a read moves `left` by what has come.
    let mut left = 32000000;
    while left > 0 {
        let Ok(count) = input::read_after(reader, lister.at.held, left, &mut lister.frames) else {
            // The rest of a frame that has come in part may still come, so it gets no line.
            io::write_all(STDERR_FILENO, b"listing: reading standard input failed\n");
            return;
        };
        if count == 0 {
            lister.end_input();
            return;
        }
        lister.take_in(count);
        if !write_out(&lister.lines[..lister.at.end]) {
            return;
        }
        left -= count;
    }
}

impl Lister {
    fn new() -> Lister
        ensures { (result.at.listed ≡ 0) × (result.at.held ≡ 0) }
    {
        Lister {
            at: Progress {
                listed: 0,
                held: 0,
                end: 0,
            },
            frames: [0; 16000],
            lines: [0; 64000],
        }
    }

    // Lists the frames that are whole, and moves what is left to the front of the buffer.
    fn take_in(&mut self, came: usize)
        requires { (self.old.at.listed ≤ 1000000) × (self.old.at.held + came ≤ 16000) }
        ensures { TakesIn self.old.at came self.old.frames self.old.lines self.new.frames self.new.lines self.new.at }
    {
        let got = self.at.held + came;
        let whole = got - got % 32;
        let end = fill_lines(self.at.listed, &self.frames[..whole], &mut self.lines);
        self.frames.copy_within(whole..got, 0);
        self.at = Progress {
            listed: self.at.listed + (whole / 32) as u64,
            held: got - whole,
            end,
        };
    }

    // A frame that has come in part at the end of the input is short.
    fn end_input(&mut self)
        requires { self.old.at.listed ≤ 1000000 }
    {
        let end = fill_lines(
            self.at.listed,
            &self.frames[..self.at.held],
            &mut self.lines,
        );
        write_out(&self.lines[..end]);
    }
}

fn write_out(lines: &[u8]) -> bool {
    write_or_say(lines, b"listing: writing standard output failed\n")
}

// Writes the lines, or says that it failed.
pub(crate) fn write_or_say(lines: &[u8], failure: &[u8]) -> bool {
    let written = io::write_all(STDOUT_FILENO, lines);
    if !written {
        io::write_all(STDERR_FILENO, failure);
    }
    written
}

// A line for every 32 bytes, and one for what is left. Gives their length.
fn fill_lines(before: u64, frames: &[u8], lines: &mut [u8]) -> usize
    requires { Room before frames.now lines.old }
    ensures { Lists (before + 1) frames.now lines.old lines.new result }
{
    let mut number = before;
    let mut end = 0;
    for frame in frames.chunks(32) {
        number += 1;
        end = put_line(number, frame, end, lines);
    }
    end
}

// Puts the line of a frame after the first `end` bytes. Gives where it ends.
pub(crate) fn put_line(number: u64, frame: &[u8], end: usize, lines: &mut [u8]) -> usize
    requires { end + 128 ≤ length lines.old }
    ensures { AddsLine number frame.now lines.old end lines.new result }
{
    end + line::write_line(number, frame::read(frame), &mut lines[end..end + 128])
}
