// Makes a book of frames, 32 bytes each and at most 1,000 of them.

#![tactic(auto)]

use input::{STDERR_FILENO, STDOUT_FILENO};
use sheet::Refusal;

fn say_refused(refusal: Refusal) {
    let mut line = [0; 128];
    let end = line::write_refusal(refusal, &mut line);
    io::write_all(STDERR_FILENO, &line[..end]);
}

fn write_out(book: &[u8]) {
    if !io::write_all(STDOUT_FILENO, book) {
        io::write_all(STDERR_FILENO, b"booking: writing standard output failed\n");
    }
}

// Writes the book, or says why there is none.
fn make_book(frames: &[u8], book: &mut [u8]) {
    match book::write(frames, book) {
        Ok(()) => write_out(book),
        Err(refusal) => say_refused(refusal),
    }
}

fn main(rt: HostRuntime) {
    // One byte more than 1,000 frames have, so that a longer input is refused.
    let mut frames = [0; 32001];
    // Room for the longest book, and for a refused input and a trailer.
    let mut book = [0; 32017];
    let came = input::read_whole(&mut rt.stdin(), &mut frames);
    if came.failed {
        io::write_all(STDERR_FILENO, b"booking: reading standard input failed\n");
        return;
    }
    make_book(&frames[..came.count], &mut book[..came.count + 16]);
}
