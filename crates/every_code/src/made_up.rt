// Made-up numbers, bits, places and stretches, by a linear generator of numbers below 2^31.

ghost use Rattle.std.specs.Prelude.{◌≡◌, ◌≤◌, ◌<◌, length};
ghost use Rattle.io.specs.Counts.{IsPrefixLen};

use crate::listed::Listed;
use crate::room::NO_BIT;

// A number below the bound. The low bits of the state repeat too soon to be used.
pub(crate) fn below(state: &mut u64, bound: usize) -> usize
    requires { 0 < bound }
    ensures { result < bound }
{
    let next = (*state % 2147483648 * 1103515245 + 12345) % 2147483648;
    *state = next;
    let high = (next / 65536) as usize;
    high % bound
}

pub(crate) fn fill(state: &mut u64, bits: &mut [u8]) {
    for bit in bits.iter_mut() {
        *bit = below(state, 2) as u8;
    }
}

// Turns over exactly so many places, every such set about as likely as any other.
pub(crate) fn flip(state: &mut u64, count: usize, word: &mut [u8]) {
    let n = word.len();
    let mut left = count;
    for (i, bit) in word.iter_mut().enumerate() {
        if below(state, n - i) < left {
            *bit ^= 1;
            left -= 1;
        }
    }
}

fn flip_hidden_by(state: &mut u64, powers: &[u16], word: &mut [u8])
    requires { (0 < length word.old) × (length word.old ≤ length powers.now) }
{
    let n = word.len();
    let i = below(state, n);
    let j = below(state, n);
    let x = powers[i] ^ powers[j];
    word[i] ^= 1;
    word[j] ^= 1;
    if let Some(l) = powers[..n].iter().position(|power| *power == x) {
        word[l] ^= 1;
    }
}

// Turns over places i, j and l where a^i + a^j + a^l = 0, so that S_1 stays what it was; where i = j there is no l, and nothing changes.
pub(crate) fn flip_hidden(state: &mut u64, listed: Listed, word: &mut [u8])
    requires { listed.code.n ≡ length word.old }
{
    let mut powers = [0; 2046];
    field::fill_powers(listed.code.m, &mut powers);
    flip_hidden_by(state, &powers, word);
}

// The bits of a stretch stand at the front of the room for them.
#[derive(Clone, Copy)]
pub(crate) struct Stretch {
    pub(crate) start: usize,
    pub(crate) long: usize,
    pub(crate) bits: [u8; 1024],
}

// A stretch that does not run past the end and is at most `longest` long.
pub(crate) fn make_stretch(state: &mut u64, end: usize, longest: usize) -> Stretch
    requires { end ≤ 1023 }
    ensures { IsPrefixLen result.long result.bits }
{
    let start = below(state, end + 1);
    let most = longest.min(end - start);
    let long = below(state, most + 1);
    let mut bits = [NO_BIT; 1024];
    fill(state, &mut bits[..long]);
    Stretch { start, long, bits }
}
