// What a line says of many answers. The sum depends on every answer and on every place of every buffer after it.

ghost use Rattle.std.specs.Prelude.{◌≤◌, length};

use crate::listed::Listed;
use sheet::Refusal;

// `state` is the state of the generator of made-up numbers.
#[derive(Clone, Copy)]
pub(crate) struct Tally {
    pub(crate) state: u64,
    pub(crate) mended: u64,
    pub(crate) refused: u64,
    pub(crate) wrong: u64,
    pub(crate) sum: u64,
}

// Every code has words of its own.
pub(crate) fn nothing_yet(listed: Listed) -> Tally {
    let start = listed.code.m * 1000 + listed.code.t;
    Tally {
        state: start as u64,
        mended: 0,
        refused: 0,
        wrong: 0,
        sum: 0,
    }
}

fn with_number(mut tally: Tally, number: u64) -> Tally {
    tally.sum = (tally.sum % 65521 * 31 + number % 65536) % 65521;
    tally
}

// The number, the buffer and the place.
pub(crate) fn with_outcome<T>(tally: Tally, answer: &Result<T, Refusal>) -> Tally {
    let told = sheet::tell_outcome(answer);
    let numbered = with_number(tally, u64::from(told.number));
    let buffered = with_number(numbered, u64::from(told.buffer));
    with_number(buffered, told.place as u64)
}

// The bits of a word, or the entries of a list.
pub(crate) fn with_all<T: Copy>(tally: Tally, numbers: &[T]) -> Tally
where
    u64: From<T>,
{
    let mut mixed = tally;
    for number in numbers {
        mixed = with_number(mixed, u64::from(*number));
    }
    mixed
}

// No count comes near a million; the remainders are there so that nothing can run over.
fn plus(x: u64, y: u64) -> u64 {
    (x % 1000000 + y % 1000000) % 1000000
}

fn with_answer(mut tally: Tally, answer: Result<usize, Refusal>) -> Tally {
    let wrong = answer.unwrap_or(0) as u64;
    tally.wrong = plus(tally.wrong, wrong);
    match answer {
        Ok(_) => tally.mended = plus(tally.mended, 1),
        Err(_) => tally.refused = plus(tally.refused, 1),
    }
    with_number(with_outcome(tally, &answer), wrong)
}

pub(crate) fn with_decoded(
    tally: Tally,
    answer: Result<usize, Refusal>,
    word: &[u8],
    list: &[u16],
) -> Tally {
    with_all(with_all(with_answer(tally, answer), word), list)
}
