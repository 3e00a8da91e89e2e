// Decode: the code word within t of what came in.

#![tactic(auto)]

ghost use Rattle.sheet.specs.Number.{outcome_of};
ghost use Rattle.codes.specs.Work.{Checked};
ghost use Rattle.decode.specs.Decode.{Decodes, MendsWithin, decode_checks, left_by};
ghost use Rattle.decode.specs.Work.{DecodeReady, CanPut, PutDown};

use codes::Code;
use sheet::Refusal;

// Gives the number of wrong places.
pub fn decode(
    m: usize,
    t: usize,
    received: &[u8],
    word: &mut [u8],
    list: &mut [u16],
) -> Result<usize, Refusal>
    ensures { Decodes m t received.now word.old list.old result word.new list.new }
{
    let code = checks(m, t, received, word, list)?;
    mend_received(code, received, word, list)
}

fn checks(m: usize, t: usize, received: &[u8], word: &[u8], list: &[u16]) -> Result<Code, Refusal>
    ensures { Checked m t (decode_checks received.now word.now list.now) result }
{
    let code = codes::look_up(m, t)?;
    if received.len() != code.n {
        return Err(Refusal::InputLength);
    }
    if word.len() != code.n {
        return Err(Refusal::OutputLength);
    }
    if list.len() != code.t {
        return Err(Refusal::OutputLength);
    }
    if let Some(place) = bits::first_above_one(received) {
        return Err(Refusal::BitAboveOne { buffer: 0, place });
    }
    Ok(code)
}

// Past the checks.
fn mend_received(
    code: Code,
    received: &[u8],
    word: &mut [u8],
    list: &mut [u16],
) -> Result<usize, Refusal>
    requires { DecodeReady code received.now word.old list.old }
    ensures { MendsWithin code code.t received.now word.old list.old (outcome_of result)
        (left_by result word.new list.new) }
{
    let Some(places) = locate::of_word(code.m, code.t, received) else {
        return Err(Refusal::NothingNear);
    };
    Ok(put_down(received, places.as_slice(), word, list))
}

// Writes the bits with these places turned over, and the places as the list. Gives how many they are.
pub fn put_down(bits: &[u8], places: &[u16], word: &mut [u8], list: &mut [u16]) -> usize
    requires { CanPut bits.now places.now word.old list.old }
    ensures { PutDown bits.now places.now list.old result word.new list.new }
{
    bits::copy_at(word, 0, bits);
    bits::flip_all(word, places);
    entries::put_list(places, list);
    places.len()
}
