// The calls that change neither the lent word nor the record. Each operation is called by its C name.

ghost use Rattle.std.specs.Prelude.{◌≤◌, length};

use crate::room::{NO_BIT, NO_PLACE};
use crate::showing::{
    end_line, not_understood, print, print_number, show_all, show_lent_bytes, show_mended,
    show_number, show_told,
};
use blentovar::Record;
use commands::names::Command;
use commands::numbers::number_at;

fn sizes(line: u64, numbers: &[usize]) {
    if numbers.len() != 2 {
        not_understood(line);
        return;
    }
    let answer = blentovar::blentovar_sizes(number_at(numbers, 0), number_at(numbers, 1));
    show_number(line, answer.number);
    print_number(answer.n as u64);
    print_number(answer.k as u64);
    end_line();
}

fn describe_into(line: u64, m: usize, t: usize, generator: &mut [u8]) {
    let answer = blentovar::blentovar_describe(m, t, generator);
    show_number(line, answer.number);
    print_number(answer.n as u64);
    print_number(answer.k as u64);
    print(b" generator");
    show_lent_bytes(generator);
    end_line();
}

fn describe(line: u64, numbers: &[usize]) {
    let m = number_at(numbers, 0);
    let t = number_at(numbers, 1);
    let places = number_at(numbers, 2);
    if numbers.len() != 3 || places > 32768 {
        not_understood(line);
        return;
    }
    let mut generator = [NO_BIT; 32768];
    describe_into(line, m, t, &mut generator[..places]);
}

fn encode_into(line: u64, m: usize, t: usize, message: &[u8], word: &mut [u8]) {
    let told = blentovar::blentovar_encode(m, t, message, word);
    show_told(line, told.number, told.buffer, told.place);
    print(b" word");
    show_lent_bytes(word);
    end_line();
}

fn encode(line: u64, numbers: &[usize], message: &[u8]) {
    let m = number_at(numbers, 0);
    let t = number_at(numbers, 1);
    let places = number_at(numbers, 2);
    if numbers.len() != 3 || places > 32768 {
        not_understood(line);
        return;
    }
    let mut word = [NO_BIT; 32768];
    encode_into(line, m, t, message, &mut word[..places]);
}

fn decode_into(line: u64, m: usize, t: usize, received: &[u8], word: &mut [u8], list: &mut [u16]) {
    let answer = blentovar::blentovar_decode(m, t, received, word, list);
    show_told(line, answer.number, answer.buffer, answer.place);
    show_mended(answer.wrong, word, list);
}

fn decode(line: u64, numbers: &[usize], received: &[u8]) {
    let m = number_at(numbers, 0);
    let t = number_at(numbers, 1);
    let places = number_at(numbers, 2);
    let listing = number_at(numbers, 3);
    if numbers.len() != 4 || places > 32768 || listing > 1024 {
        not_understood(line);
        return;
    }
    let mut word = [NO_BIT; 32768];
    let mut list = [NO_PLACE; 1024];
    decode_into(
        line,
        m,
        t,
        received,
        &mut word[..places],
        &mut list[..listing],
    );
}

fn edit_copy(
    line: u64,
    m: usize,
    t: usize,
    start: usize,
    word: &[u8],
    stretch: &[u8],
    copy: &mut [u8],
)
    requires { length word.now ≤ length copy.old }
{
    let n = word.len();
    copy[..n].copy_from_slice(word);
    let told = blentovar::blentovar_edit(m, t, copy, start, stretch);
    show_told(line, told.number, told.buffer, told.place);
    print(b" word");
    if copy[..] == word[..] {
        print(b" kept");
    } else {
        show_all(copy);
    }
    end_line();
}

// A copy is edited, so that the lent word stays for later calls.
fn edit(line: u64, numbers: &[usize], word: &[u8], stretch: &[u8]) {
    let m = number_at(numbers, 0);
    let t = number_at(numbers, 1);
    let start = number_at(numbers, 2);
    let n = word.len();
    if numbers.len() != 3 || n > 32768 {
        not_understood(line);
        return;
    }
    let mut copy = [NO_BIT; 32768];
    edit_copy(line, m, t, start, word, stretch, &mut copy[..n]);
}

fn decode_kept_into(line: u64, record: Record, word: &mut [u8], list: &mut [u16]) {
    let answer = blentovar::blentovar_decode_kept(record, word, list);
    show_number(line, answer.number);
    show_mended(answer.wrong, word, list);
}

fn decode_kept(line: u64, numbers: &[usize], record: Record) {
    let places = number_at(numbers, 0);
    let listing = number_at(numbers, 1);
    if numbers.len() != 2 || places > 32768 || listing > 1024 {
        not_understood(line);
        return;
    }
    let mut word = [NO_BIT; 32768];
    let mut list = [NO_PLACE; 1024];
    decode_kept_into(line, record, &mut word[..places], &mut list[..listing]);
}

fn make_into(line: u64, house: u16, poll: u16, counter: u64, frame: &mut [u8]) {
    let number = blentovar::blentovar_make_frame(house, poll, counter, frame);
    show_number(line, number);
    print(b" frame");
    show_lent_bytes(frame);
    end_line();
}

fn make(line: u64, numbers: &[usize]) {
    let house = number_at(numbers, 0);
    let poll = number_at(numbers, 1);
    let counter = number_at(numbers, 2) as u64;
    let places = number_at(numbers, 3);
    if numbers.len() != 4 || house > 65535 || poll > 65535 || places > 32768 {
        not_understood(line);
        return;
    }
    let mut frame = [NO_BIT; 32768];
    make_into(
        line,
        house as u16,
        poll as u16,
        counter,
        &mut frame[..places],
    );
}

fn read(line: u64, numbers: &[usize], frame: &[u8]) {
    if numbers.len() != 0 {
        not_understood(line);
        return;
    }
    let answer = blentovar::blentovar_read_frame(frame);
    show_number(line, answer.number);
    print_number(u64::from(answer.house));
    print_number(u64::from(answer.poll));
    print_number(answer.counter);
    print_number(answer.wrong as u64);
    end_line();
}

fn look(line: u64, numbers: &[usize], book: &[u8]) {
    if numbers.len() != 0 {
        not_understood(line);
        return;
    }
    let answer = blentovar::blentovar_look_at_book(book);
    show_number(line, answer.number);
    print_number(answer.count as u64);
    end_line();
}

fn part(line: u64, numbers: &[usize], book: &[u8]) {
    if numbers.len() != 1 {
        not_understood(line);
        return;
    }
    let answer = blentovar::blentovar_read_book(book, number_at(numbers, 0));
    show_number(line, answer.number);
    print_number(answer.offset as u64);
    print_number(answer.length as u64);
    end_line();
}

fn book_into(line: u64, frames: &[u8], book: &mut [u8]) {
    let number = blentovar::blentovar_write_book(frames, book);
    show_number(line, number);
    print(b" book");
    show_lent_bytes(book);
    end_line();
}

fn book(line: u64, numbers: &[usize], frames: &[u8]) {
    let places = number_at(numbers, 0);
    if numbers.len() != 1 || places > 32768 {
        not_understood(line);
        return;
    }
    let mut room = [NO_BIT; 32768];
    book_into(line, frames, &mut room[..places]);
}

pub(crate) fn call(
    line: u64,
    command: Command,
    numbers: &[usize],
    word: &[u8],
    stretch: &[u8],
    record: Record,
) {
    match command {
        Command::Sizes => sizes(line, numbers),
        Command::Describe => describe(line, numbers),
        Command::Encode => encode(line, numbers, word),
        Command::Decode => decode(line, numbers, word),
        Command::Edit => edit(line, numbers, word, stretch),
        Command::DecodeKept => decode_kept(line, numbers, record),
        Command::Make => make(line, numbers),
        Command::Read => read(line, numbers, word),
        Command::Look => look(line, numbers, word),
        Command::Part => part(line, numbers, word),
        Command::Book => book(line, numbers, word),
        _ => not_understood(line),
    }
}
