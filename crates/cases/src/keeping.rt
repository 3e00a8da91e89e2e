// The record: opened, spliced, and changed by hand.

use crate::calling::call;
use crate::showing::{not_understood, show_record};
use blentovar::Record;
use commands::names::Command;
use commands::numbers::number_at;

fn open(line: u64, numbers: &[usize], word: &[u8], record: Record) -> Record {
    if numbers.len() != 2 {
        not_understood(line);
        return record;
    }
    let m = number_at(numbers, 0);
    let t = number_at(numbers, 1);
    let answer = blentovar::blentovar_open(m, t, word);
    show_record(line, answer);
    answer.record
}

fn splice(line: u64, numbers: &[usize], stretch: &[u8], record: Record) -> Record {
    if numbers.len() != 1 {
        not_understood(line);
        return record;
    }
    let start = number_at(numbers, 0);
    let answer = blentovar::blentovar_splice(record, start, stretch);
    show_record(line, answer);
    answer.record
}

fn with_code(line: u64, numbers: &[usize], record: Record) -> Record {
    if numbers.len() != 2 {
        not_understood(line);
        return record;
    }
    let mut changed = record;
    changed.m = number_at(numbers, 0);
    changed.t = number_at(numbers, 1);
    changed
}

fn with_bit(line: u64, numbers: &[usize], record: Record) -> Record {
    let place = number_at(numbers, 0);
    let value = number_at(numbers, 1);
    if numbers.len() != 2 || place > 1022 || value > 255 {
        not_understood(line);
        return record;
    }
    let mut changed = record;
    changed.bits[place] = value as u8;
    changed
}

fn with_sum(line: u64, numbers: &[usize], record: Record) -> Record {
    let place = number_at(numbers, 0);
    let value = number_at(numbers, 1);
    if numbers.len() != 2 || place > 254 || value > 65535 {
        not_understood(line);
        return record;
    }
    let mut changed = record;
    changed.sums[place] = value as u16;
    changed
}

// The record after a line that lends no new word or stretch.
pub(crate) fn keep(
    line: u64,
    command: Command,
    numbers: &[usize],
    word: &[u8],
    stretch: &[u8],
    record: Record,
) -> Record {
    match command {
        Command::Open => open(line, numbers, word, record),
        Command::Splice => splice(line, numbers, stretch, record),
        Command::Code => with_code(line, numbers, record),
        Command::Bit => with_bit(line, numbers, record),
        Command::Sum => with_sum(line, numbers, record),
        _ => {
            call(line, command, numbers, word, stretch, record);
            record
        }
    }
}
