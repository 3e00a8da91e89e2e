// Edit: a stretch of message bits replaced in a word, and what that changes of the parity.

ghost use Rattle.codes.specs.Work.{Checked};
ghost use Rattle.codec.specs.Edit.{Edits, Editing, edit_checks};
ghost use Rattle.codec.specs.Work.{EditReady};

use codes::Code;
use sheet::Refusal;

pub fn edit(
    m: usize,
    t: usize,
    word: &mut [u8],
    start: usize,
    stretch: &[u8],
) -> Result<(), Refusal>
    ensures { Edits m t word.old start stretch.now result word.new }
{
    let code = checks(m, t, word, start, stretch)?;
    put_stretch(code, word, start, stretch);
    Ok(())
}

fn checks(m: usize, t: usize, word: &[u8], start: usize, stretch: &[u8]) -> Result<Code, Refusal>
    ensures { Checked m t (edit_checks word.now start stretch.now) result }
{
    let code = codes::look_up(m, t)?;
    if word.len() != code.n {
        return Err(Refusal::InputLength);
    }
    if bits::runs_past(start, stretch.len(), code.k) {
        return Err(Refusal::StretchEnd);
    }
    if let Some(place) = bits::first_above_one(word) {
        return Err(Refusal::BitAboveOne { buffer: 0, place });
    }
    if let Some(place) = bits::first_above_one(stretch) {
        return Err(Refusal::BitAboveOne { buffer: 1, place });
    }
    Ok(code)
}

// Into the word the code word that carries the change of the message is added.
fn put_stretch(code: Code, word: &mut [u8], start: usize, stretch: &[u8])
    requires { EditReady code word.old start stretch.now }
    ensures { Editing code word.old start stretch.now word.new }
{
    let n = code.n;
    let k = code.k;
    let change = parity::message_change(word, n - k + start, start, stretch);
    let carrier = parity::code_word(code, &change[..k]);
    bits::add_at(word, 0, &carrier[..n]);
}
