// The line of a code: m, t, n and k, its generator, and the word of a message.

use crate::listed::Listed;
use crate::room::NO_BIT;
use crate::text::{print_bits, print_number};
use crate::{tally, words};
use codec::Described;
use input::STDOUT_FILENO;

// A refusal would show as zeros and question marks, here and below.
fn print_generator(listed: Listed, generator: &mut [u8]) {
    let none = Described { n: 0, k: 0 };
    let Described { n, k } = codec::describe(listed.code.m, listed.code.t, generator).unwrap_or(
        none,
    );
    print_number(n as u64);
    print_number(k as u64);
    print_bits(generator);
}

fn print_word(listed: Listed, message: &mut [u8], word: &mut [u8]) {
    words::send(listed, message, word, tally::nothing_yet(listed));
    print_bits(word);
}

pub(crate) fn print_described(listed: Listed) {
    let n = listed.code.n;
    let k = listed.code.k;
    let places = n - k + 1;
    let mut generator = [NO_BIT; 1024];
    let mut message = [NO_BIT; 1024];
    let mut word = [NO_BIT; 1024];
    io::print_decimal(STDOUT_FILENO, listed.code.m as u64);
    print_number(listed.code.t as u64);
    print_generator(listed, &mut generator[..places]);
    print_word(listed, &mut message[..k], &mut word[..n]);
    io::write_all(STDOUT_FILENO, b"\n");
}
