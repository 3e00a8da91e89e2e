// Writing down answers and what lent buffers hold after a call.

ghost use Rattle.std.specs.Prelude.{◌≤◌, length};

use crate::room::{NO_BIT, NO_PLACE};
use blentovar::KeptAnswer;
use input::STDOUT_FILENO;

pub(crate) fn print(words: &[u8]) {
    io::write_all(STDOUT_FILENO, words);
}

pub(crate) fn end_line() {
    print(b"\n");
}

// A number with a blank before it.
pub(crate) fn print_number(x: u64) {
    print(b" ");
    io::print_decimal(STDOUT_FILENO, x);
}

pub(crate) fn not_understood(line: u64) {
    io::print_decimal(STDOUT_FILENO, line);
    print(b" not understood\n");
}

// The line's number and the sheet's.
pub(crate) fn show_number(line: u64, number: u32) {
    io::print_decimal(STDOUT_FILENO, line);
    print_number(u64::from(number));
}

// The same, with the buffer and the place that come with it.
pub(crate) fn show_told(line: u64, number: u32, buffer: u32, place: usize) {
    show_number(line, number);
    print_number(u64::from(buffer));
    print_number(place as u64);
}

fn show_place(place: usize, value: u64) {
    if value != 0 {
        print_number(place as u64);
        print(b"=");
        io::print_decimal(STDOUT_FILENO, value);
    }
}

// The places of bytes or of 16-bit entries that do not hold 0.
pub(crate) fn show_all<T: Copy>(values: &[T])
where
    u64: From<T>,
{
    for (place, value) in values.iter().enumerate() {
        show_place(place, u64::from(*value));
    }
}

// The same of a lent buffer, unless it holds at every place what it was lent with.
fn show_lent<T: Copy + PartialEq>(lent: &[T], before: T)
where
    u64: From<T>,
{
    if lent.iter().all(|value| *value == before) {
        print(b" kept");
    } else {
        show_all(lent);
    }
}

pub(crate) fn show_lent_bytes(lent: &[u8]) {
    show_lent(lent, NO_BIT);
}

// The rest of a line on decoding: how many places were wrong, and both buffers.
pub(crate) fn show_mended(wrong: usize, word: &[u8], list: &[u16]) {
    print_number(wrong as u64);
    print(b" word");
    show_lent_bytes(word);
    print(b" list");
    show_lent(list, NO_PLACE);
    end_line();
}

pub(crate) fn show_record(line: u64, answer: KeptAnswer) {
    let record = answer.record;
    let bits = record.bits;
    let sums = record.sums;
    show_told(line, answer.number, answer.buffer, answer.place);
    print_number(record.m as u64);
    print_number(record.t as u64);
    print(b" bits");
    show_all(&bits);
    print(b" sums");
    show_all(&sums);
    end_line();
}
