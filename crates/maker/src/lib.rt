// Makes frames of typed lines that come in on standard input, 32 bytes each on standard output; a line that says no reading is named on standard error.

#![tactic(auto)]

ghost use Rattle.std.specs.Prelude.{◌≡◌, [], ◌∷◌, ◌+◌, ◌≤◌, length};
ghost use Rattle.maker.specs.Making.{Fills, FillsLast};
ghost use Rattle.maker.specs.Work.{Room, Ready, StepReady, Steps, Keeps, PutFrame, PutName, emptied};

use input::{STDERR_FILENO, STDOUT_FILENO};
use layout::Reading;
use std::io::Read;

// How far the work is: the lines that have ended, the bytes held of the line that has not, and the bytes of frames and of names that stand in their buffers.
// Public, since theorems of another crate speak of it.
#[derive(Clone, Copy)]
pub struct Progress {
    pub lines: u64,
    pub held: usize,
    pub frames: usize,
    pub names: usize,
}

// The making between two bytes: how far it is, the front of the line that has begun, and the buffers for frames and for names.
// A line that says a reading has at most 62 bytes, so the first 63 tell what a line says.
#[derive(Drop)]
struct Maker {
    at: Progress,
    line: [u8; 63],
    frames: [u8; 65536],
    names: [u8; 65536],
    ghost room: { Room line frames names },
    ghost within: { (at.held ≤ 63) × (at.frames ≤ 65536) × (at.names ≤ 65536) },
}

// Makes frames until the input ends, a read or a write fails, or 64,000,000 bytes are read.
// A line that is cut off by the last byte read or by a failure is not taken: its counter may be cut too.
pub fn make_frames<R: Read>(reader: &mut R) {
    // A block of 1,000 bytes ends at most 1,000 lines, and the buffers have room for their frames and names.
    let mut block = [0; 1000];
    let mut maker = Maker::new();
    // A `while`, since a read moves `left` by what has come.
    let mut left = 64000000;
    while left > 0 {
        let Ok(count) = input::read_after(reader, 0, left, &mut block) else {
            io::write_all(STDERR_FILENO, b"making: reading standard input failed\n");
            return;
        };
        if count == 0 {
            maker.fill_last();
            maker.write_out();
            return;
        }
        maker.fill(&block[..count]);
        if !maker.write_out() {
            return;
        }
        left -= count;
    }
}

impl Maker {
    fn new() -> Maker
        ensures { (result.at.lines ≡ 0) × (result.at.held ≡ 0) }
    {
        Maker {
            at: Progress {
                lines: 0,
                held: 0,
                frames: 0,
                names: 0,
            },
            line: [0; 63],
            frames: [0; 65536],
            names: [0; 65536],
        }
    }

    // Writes the frames, then the names. Gives whether both were written.
    fn write_out(&self) -> bool {
        if !io::write_all(STDOUT_FILENO, &self.frames[..self.at.frames]) {
            io::write_all(STDERR_FILENO, b"making: writing standard output failed\n");
            return false;
        }
        io::write_all(STDERR_FILENO, &self.names[..self.at.names])
    }

    // Fills both buffers from the front with what the bytes give.
    fn fill(&mut self, bytes: &[u8])
        requires { Ready (length bytes.now) self.old.at }
        ensures { Fills self.old.at self.old.line bytes.now self.old.frames self.old.names
            self.new.at self.new.line self.new.frames self.new.names }
    {
        self.empty_buffers();
        for byte in bytes {
            self.take_byte(*byte);
        }
    }

    // The same at the end of the input: what stands after the last newline is a line too, unless it is empty.
    fn fill_last(&mut self)
        requires { Ready 1 self.old.at }
        ensures { FillsLast self.old.at self.old.line self.old.frames self.old.names
            self.new.at self.new.frames self.new.names }
    {
        self.empty_buffers();
        if self.at.held == 0 {
            return;
        }
        self.end_line();
    }

    fn empty_buffers(&mut self)
        ensures at { self.new.at ≡ emptied self.old.at }
        ensures line { self.new.line ≡ self.old.line }
        ensures frames { self.new.frames ≡ self.old.frames }
        ensures names { self.new.names ≡ self.old.names }
    {
        self.at.frames = 0;
        self.at.names = 0;
    }

    fn take_byte(&mut self, byte: u8)
        requires { StepReady self.old.at }
        ensures { Steps self.old.at self.old.line (byte ∷ []) self.old.frames self.old.names
            self.new.at self.new.line self.new.frames self.new.names }
    {
        if byte == b'\n' {
            self.end_line();
            return;
        }
        self.keep(byte);
    }

    // Keeps one byte more of the line. If there is no room, the byte is dropped.
    fn keep(&mut self, byte: u8)
        ensures kept { Keeps self.old.line self.old.at byte self.new.line self.new.at }
        ensures frames { self.new.frames ≡ self.old.frames }
        ensures names { self.new.names ≡ self.old.names }
    {
        if self.at.held < self.line.len() {
            self.line[self.at.held] = byte;
            self.at.held += 1;
        }
    }

    fn end_line(&mut self)
        requires { StepReady self.old.at }
        ensures { Steps self.old.at self.old.line (10 ∷ []) self.old.frames self.old.names
            self.new.at self.new.line self.new.frames self.new.names }
    {
        let answer = typed::read(&self.line[..self.at.held]);
        self.at.lines += 1;
        self.at.held = 0;
        match answer {
            Some(reading) => {
                self.at.frames = put_frame(reading, self.at.frames, &mut self.frames);
            }
            None => {
                self.at.names = put_name(self.at.lines, self.at.names, &mut self.names);
            }
        }
    }
}

// A frame, from index `at` on. Gives the index past it.
fn put_frame(reading: Reading, at: usize, frames: &mut [u8]) -> usize
    requires { at + 32 ≤ length frames.old }
    ensures { PutFrame reading frames.old at frames.new result }
{
    let next = at + 32;
    frame::make(reading, &mut frames[at..next]).unwrap();
    next
}

// The name of a line, from index `at` on. Gives the index past it.
fn put_name(number: u64, at: usize, names: &mut [u8]) -> usize
    requires { (number ≤ 64000000) × (at + 68 ≤ length names.old) }
    ensures { PutName number names.old at names.new result }
{
    bits::copy_at(names, at, b"line ");
    line::put_field(
        names,
        at + 5,
        number,
        b": not a house, a poll number and a counter\n",
    )
}
