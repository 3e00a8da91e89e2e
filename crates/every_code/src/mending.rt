// A sent word decoded as it is and with places turned over.

ghost use Rattle.std.specs.Prelude.{◌≡◌, length};

use crate::listed::Listed;
use crate::room::{NO_BIT, NO_PLACE};
use crate::tally::Tally;
use crate::{made_up, tally};

fn decode_into(
    listed: Listed,
    received: &[u8],
    word: &mut [u8],
    list: &mut [u16],
    tally: Tally,
) -> Tally {
    let answer = decode::decode(listed.code.m, listed.code.t, received, word, list);
    tally::with_decoded(tally, answer, word, list)
}

pub(crate) fn decode(listed: Listed, received: &[u8], tally: Tally) -> Tally {
    let n = listed.code.n;
    let t = listed.code.t;
    let mut word = [NO_BIT; 1024];
    let mut list = [NO_PLACE; 256];
    decode_into(listed, received, &mut word[..n], &mut list[..t], tally)
}

// The sent word with so many places turned over.
fn decode_flipped(
    listed: Listed,
    count: usize,
    sent: &[u8],
    word: &mut [u8],
    mut tally: Tally,
) -> Tally
    requires { length sent.now ≡ length word.old }
{
    word.copy_from_slice(sent);
    made_up::flip(&mut tally.state, count, word);
    decode(listed, word, tally)
}

// The sent word with at most t places turned over.
fn decode_mendable(listed: Listed, sent: &[u8], word: &mut [u8], mut tally: Tally) -> Tally
    requires { length sent.now ≡ length word.old }
{
    let count = made_up::below(&mut tally.state, listed.code.t + 1);
    decode_flipped(listed, count, sent, word, tally)
}

// The sent word as it is, with t places turned over, and with one and two more.
fn decode_around(listed: Listed, sent: &[u8], word: &mut [u8], tally: Tally) -> Tally
    requires { length sent.now ≡ length word.old }
{
    let t = listed.code.t;
    let one = decode(listed, sent, tally);
    let two = decode_flipped(listed, t, sent, word, one);
    let three = decode_flipped(listed, t + 1, sent, word, two);
    decode_flipped(listed, t + 2, sent, word, three)
}

// The sent word with at most t places turned over, three times.
fn decode_within(listed: Listed, sent: &[u8], word: &mut [u8], tally: Tally) -> Tally
    requires { length sent.now ≡ length word.old }
{
    let five = decode_mendable(listed, sent, word, tally);
    let six = decode_mendable(listed, sent, word, five);
    decode_mendable(listed, sent, word, six)
}

// Three more places turned over, which S_1 does not show.
fn decode_hidden(listed: Listed, word: &mut [u8], mut tally: Tally) -> Tally
    requires { listed.code.n ≡ length word.old }
{
    made_up::flip_hidden(&mut tally.state, listed, word);
    decode(listed, word, tally)
}

// The sent word with three such places and with six, and a word of made-up bits.
fn decode_far(listed: Listed, sent: &[u8], word: &mut [u8], tally: Tally) -> Tally
    requires { (length sent.now ≡ length word.old) × (listed.code.n ≡ length word.old) }
{
    word.copy_from_slice(sent);
    let eight = decode_hidden(listed, word, tally);
    let mut nine = decode_hidden(listed, word, eight);
    made_up::fill(&mut nine.state, word);
    decode(listed, word, nine)
}

// Ten words.
pub(crate) fn decode_round(listed: Listed, sent: &[u8], word: &mut [u8], tally: Tally) -> Tally
    requires { (length sent.now ≡ length word.old) × (listed.code.n ≡ length word.old) }
{
    let four = decode_around(listed, sent, word, tally);
    let seven = decode_within(listed, sent, word, four);
    decode_far(listed, sent, word, seven)
}
