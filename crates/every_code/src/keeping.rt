// The keeping trial: a sent word is edited, damaged, edited again and opened; its record is spliced, three times accepted and twice refused, and decoded twice.

use crate::listed::Listed;
use crate::room::{NO_BIT, NO_PLACE};
use crate::tally::Tally;
use crate::{made_up, tally};
use kept::Kept;
use sheet::Refusal;

// A record and what has been answered so far.
#[derive(Clone, Copy)]
struct Step {
    record: Kept,
    tally: Tally,
}

// What the answer tells and the first t sums of its record are mixed in; `otherwise` is the record where the answer has none.
fn noted(listed: Listed, otherwise: Kept, answer: Result<Kept, Refusal>, tally: Tally) -> Step {
    let told = tally::with_outcome(tally, &answer);
    let record = answer.unwrap_or(otherwise);
    let sums = record.sums;
    let t = listed.code.t;
    let mixed = tally::with_all(told, &sums[..t]);
    Step {
        record,
        tally: mixed,
    }
}

fn splice(listed: Listed, step: Step, start: usize, stretch: &[u8]) -> Step {
    let answer = splice::splice(step.record, start, stretch);
    noted(listed, step.record, answer, step.tally)
}

// A made-up stretch of at most 32 places put at a made-up place.
fn splice_some(listed: Listed, step: Step) -> Step {
    let record = step.record;
    let mut tally = step.tally;
    let stretch = made_up::make_stretch(&mut tally.state, listed.code.n, 32);
    let long = stretch.long;
    let bits = stretch.bits;
    splice(listed, Step { record, tally }, stretch.start, &bits[..long])
}

// Opens the word and splices five times. The last two splices are refused: one runs a bit past the end, and the other has a bit above 1 at its place 2.
fn open_and_splice(listed: Listed, word: &[u8], tally: Tally) -> Step {
    let none = Kept {
        m: 0,
        t: 0,
        bits: [0; 1023],
        sums: [0; 255],
    };
    let mut step = noted(
        listed,
        none,
        kept::open(listed.code.m, listed.code.t, word),
        tally,
    );
    step = splice_some(listed, step);
    step = splice_some(listed, step);
    step = splice_some(listed, step);
    step = splice(listed, step, listed.code.n, b"\x01");
    splice(listed, step, 4, b"\x01\x00\x02")
}

fn decode_into(record: Kept, word: &mut [u8], list: &mut [u16], tally: Tally) -> Tally {
    let answer = decode_kept::decode_kept(record, word, list);
    tally::with_decoded(tally, answer, word, list)
}

fn decode(listed: Listed, record: Kept, tally: Tally) -> Tally {
    let n = listed.code.n;
    let t = listed.code.t;
    let mut word = [NO_BIT; 1024];
    let mut list = [NO_PLACE; 256];
    decode_into(record, &mut word[..n], &mut list[..t], tally)
}

// Decodes the record as it is, and then with one stored sum changed by hand to another element.
fn decode_twice(listed: Listed, step: Step) -> Tally {
    let mut record = step.record;
    let mut tally = decode(listed, record, step.tally);
    let place = made_up::below(&mut tally.state, listed.code.t);
    record.sums[place] = made_up::below(&mut tally.state, listed.code.n + 1) as u16;
    decode(listed, record, tally)
}

// A made-up stretch put at a made-up message place.
fn edit_some(listed: Listed, word: &mut [u8], mut tally: Tally) -> Tally {
    let stretch = made_up::make_stretch(&mut tally.state, listed.code.k, listed.code.k);
    let long = stretch.long;
    let bits = stretch.bits;
    let answer = codec::edit(
        listed.code.m,
        listed.code.t,
        word,
        stretch.start,
        &bits[..long],
    );
    tally::with_all(tally::with_outcome(tally, &answer), word)
}

// Up to t + 1 places turned over.
fn damage(listed: Listed, word: &mut [u8], mut tally: Tally) -> Tally {
    let count = made_up::below(&mut tally.state, listed.code.t + 2);
    made_up::flip(&mut tally.state, count, word);
    tally
}

fn edit_and_damage(listed: Listed, word: &mut [u8], tally: Tally) -> Tally {
    let edited = edit_some(listed, word, tally);
    let damaged = damage(listed, word, edited);
    edit_some(listed, word, damaged)
}

pub(crate) fn keep_round(listed: Listed, word: &mut [u8], tally: Tally) -> Tally {
    let edited = edit_and_damage(listed, word, tally);
    let kept = open_and_splice(listed, word, edited);
    decode_twice(listed, kept)
}
