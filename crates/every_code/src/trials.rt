// What is done with a code again and again, and the lines on what came of it.

ghost use Rattle.std.specs.Prelude.{◌≡◌, ◌≤◌, length};

use crate::listed::Listed;
use crate::room::NO_BIT;
use crate::tally::Tally;
use crate::text::print_number;
use crate::{keeping, mending, tally, words};
use input::STDOUT_FILENO;

// An enum and no closures: the lengths of the three parts of room are asked for once, in `turn_with`, and not of each closure on its way there.
#[derive(Clone, Copy)]
enum Trial {
    // The word whose bits are the number of the turn is decoded.
    EachWord,
    // A sent word decoded with wrong places.
    Mending,
    // A sent word edited, kept, spliced and decoded.
    Keeping,
}

fn turn_with(
    trial: Trial,
    listed: Listed,
    number: usize,
    message: &mut [u8],
    sent: &mut [u8],
    word: &mut [u8],
    tally: Tally,
) -> Tally
    requires { (length sent.old ≡ length word.old) × (listed.code.n ≡ length word.old) }
{
    match trial {
        Trial::EachWord => {
            words::fill_bits(number, word);
            mending::decode(listed, word, tally)
        }
        Trial::Mending => {
            let after = words::send(listed, message, sent, tally);
            mending::decode_round(listed, sent, word, after)
        }
        Trial::Keeping => {
            let after = words::send(listed, message, word, tally);
            keeping::keep_round(listed, word, after)
        }
    }
}

// One turn, with room for a message, the word that carries it, and a word that is changed.
fn turn(trial: Trial, listed: Listed, number: usize, tally: Tally) -> Tally {
    let n = listed.code.n;
    let k = listed.code.k;
    let mut message = [NO_BIT; 1024];
    let mut sent = [NO_BIT; 1024];
    let mut word = [NO_BIT; 1024];
    turn_with(
        trial,
        listed,
        number,
        &mut message[..k],
        &mut sent[..n],
        &mut word[..n],
        tally,
    )
}

// So many turns, numbered from the first on.
fn turns(trial: Trial, listed: Listed, first: usize, count: usize) -> Tally
    requires { (first ≤ 32768) × (count ≤ 256) }
{
    let mut tally = tally::nothing_yet(listed);
    for number in first..first + count {
        tally = turn(trial, listed, number, tally);
    }
    tally
}

// The name, m, t, the number, how many were refused, the number of wrong places and the sum.
fn print_line(name: &[u8], listed: Listed, number: u64, tally: Tally) {
    io::write_all(STDOUT_FILENO, name);
    print_number(listed.code.m as u64);
    print_number(listed.code.t as u64);
    print_number(number);
    print_number(tally.refused);
    print_number(tally.wrong);
    print_number(tally.sum);
    io::write_all(STDOUT_FILENO, b"\n");
}

// Decodes the words with the numbers below `end` in blocks of `size`. Each block has a line, and the number in it is that of the block's first word.
fn print_blocks(listed: Listed, size: usize, end: usize)
    requires { (1 ≤ size) × (size ≤ 256) × (end ≤ 32768) }
{
    for first in (0..end).step_by(size) {
        let tally = turns(Trial::EachWord, listed, first, size);
        print_line(b"block", listed, first as u64, tally);
    }
}

// The line of `count` turns. The number in it is how many words were mended.
fn print_rounds(name: &[u8], trial: Trial, listed: Listed, count: usize)
    requires { count ≤ 256 }
{
    let tally = turns(trial, listed, 0, count);
    print_line(name, listed, tally.mended, tally);
}

// Every word of m 3 and m 4, and 1,000 words of every other code.
pub(crate) fn print_decoded(listed: Listed) {
    let m = listed.code.m;
    match m {
        3 => print_blocks(listed, 128, 128),
        4 => print_blocks(listed, 256, 32768),
        _ => print_rounds(b"code", Trial::Mending, listed, 100),
    }
}

pub(crate) fn print_kept(listed: Listed) {
    print_rounds(b"keep", Trial::Keeping, listed, 20);
}
