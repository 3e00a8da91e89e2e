// Encode: the code word that carries a message in its top places.

ghost use Rattle.codes.specs.Work.{Checked};
ghost use Rattle.codec.specs.Encode.{Encodes, encode_checks};

use codes::Code;
use sheet::Refusal;

pub fn encode(m: usize, t: usize, message: &[u8], word: &mut [u8]) -> Result<(), Refusal>
    ensures { Encodes m t message.now word.old result word.new }
{
    let code = checks(m, t, message, word)?;
    parity::fill_word(code, message, word);
    Ok(())
}

fn checks(m: usize, t: usize, message: &[u8], word: &[u8]) -> Result<Code, Refusal>
    ensures { Checked m t (encode_checks message.now word.now) result }
{
    let code = codes::look_up(m, t)?;
    if message.len() != code.k {
        return Err(Refusal::InputLength);
    }
    if word.len() != code.n {
        return Err(Refusal::OutputLength);
    }
    if let Some(place) = bits::first_above_one(message) {
        return Err(Refusal::BitAboveOne { buffer: 0, place });
    }
    Ok(code)
}
