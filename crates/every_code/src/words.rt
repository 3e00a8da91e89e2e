// Words of n bits: the code word of a made-up message, and the word with a given number.

use crate::listed::Listed;
use crate::made_up;
use crate::tally::Tally;

// The code word of a made-up message. If the message is refused, the word stays as lent, and the lines show that.
pub(crate) fn send(listed: Listed, message: &mut [u8], word: &mut [u8], mut tally: Tally) -> Tally {
    made_up::fill(&mut tally.state, message);
    let _ = codec::encode(listed.code.m, listed.code.t, message, word);
    tally
}

// The bits of a number, the lowest at place 0.
pub(crate) fn fill_bits(number: usize, word: &mut [u8]) {
    let mut rest = number;
    for bit in word.iter_mut() {
        *bit = (rest % 2) as u8;
        rest /= 2;
    }
}
