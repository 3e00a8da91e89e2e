// A text run line by line, with what is lent from one line to the next.

ghost use Rattle.std.specs.Prelude.{◌≡◌, ◌≤◌, length};

use crate::keeping::keep;
use crate::room::NO_BIT;
use crate::setting::{set_all, set_places};
use crate::showing::not_understood;
use blentovar::Record;
use commands::names::{Command, command_of};
use commands::numbers::fill_numbers;
use commands::scan;

// How much of the room for words and stretches is lent, and the record.
#[derive(Clone, Copy)]
struct Bench {
    word: usize,
    stretch: usize,
    record: Record,
}

fn nothing_lent() -> Bench
    ensures { (result.word ≤ 32768) × (result.stretch ≤ 32768) }
{
    let record = Record {
        m: 0,
        t: 0,
        bits: [0; 1023],
        zero_after_bits: 0,
        sums: [0; 255],
        zero_after_sums: 0,
    };
    Bench {
        word: 0,
        stretch: 0,
        record,
    }
}

fn run_command(
    line: u64,
    command: Command,
    numbers: &[usize],
    word: &mut [u8],
    stretch: &mut [u8],
    bench: Bench,
) -> Bench
    requires { (bench.word ≤ length word.old) × (bench.stretch ≤ length stretch.old) }
    ensures { (result.word ≤ length word.new) × (result.stretch ≤ length stretch.new) }
{
    let mut after = bench;
    let n = bench.word;
    let long = bench.stretch;
    match command {
        Command::Word => {
            after.word = set_places(line, numbers, word);
            after
        }
        Command::Fill => {
            after.word = set_all(line, numbers, word);
            after
        }
        Command::Stretch => {
            after.stretch = set_places(line, numbers, stretch);
            after
        }
        _ => {
            let held = bench.record;
            after.record = keep(line, command, numbers, &word[..n], &stretch[..long], held);
            after
        }
    }
}

// A line that starts with # is a comment, and an empty one says nothing.
fn run_line(line: u64, text: &[u8], word: &mut [u8], stretch: &mut [u8], bench: Bench) -> Bench
    requires { (bench.word ≤ length word.old) × (bench.stretch ≤ length stretch.old) }
    ensures { (result.word ≤ length word.new) × (result.stretch ≤ length stretch.new) }
{
    if let None | Some(b'#') = text.first() {
        return bench;
    }
    let end = scan::find(text, 0, b' ');
    // A length, and a place and a value 2,048 times.
    let mut numbers = [0; 4097];
    let (Some(command), Some(count)) = (
        command_of(&text[..end]),
        fill_numbers(text, end, &mut numbers),
    ) else {
        not_understood(line);
        return bench;
    };
    run_command(line, command, &numbers[..count], word, stretch, bench)
}

fn run_lines(text: &[u8], word: &mut [u8], stretch: &mut [u8])
    requires { (length word.old ≡ 32768) × (length stretch.old ≡ 32768) }
{
    let mut bench = nothing_lent();
    for (i, line) in text.split(|byte| *byte == b'\n').enumerate() {
        bench = run_line(i as u64 + 1, line, word, stretch, bench);
    }
}

pub(crate) fn run_text(text: &[u8]) {
    let mut word = [NO_BIT; 32768];
    let mut stretch = [NO_BIT; 32768];
    run_lines(text, &mut word, &mut stretch);
}
