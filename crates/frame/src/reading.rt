// Reading a frame: the reading that was sent, and the number of wrong places.

ghost use Rattle.std.specs.Prelude.{◌≡◌, length};
ghost use Rattle.sheet.specs.Number.{outcome_of};
ghost use Rattle.bits.specs.Bits.{AreBits};
ghost use Rattle.layout.specs.Frame.{word_of};
ghost use Rattle.frame.specs.Read.{Reads, ReadsWord, ReadsReceived, given_by};

use layout::{Reading, Sent};
use sheet::Refusal;

// A reading, and the number of wrong places that its frame had.
#[derive(Clone, Copy)]
pub struct ReadFrame {
    pub reading: Reading,
    pub wrong: usize,
}

pub fn read(frame: &[u8]) -> Result<ReadFrame, Refusal>
    ensures { Reads frame.now result }
{
    if frame.len() != 32 {
        return Err(Refusal::FrameLength);
    }
    let pad = layout::sent_bit(frame, Sent { number: 255 });
    if pad != 0 {
        return Err(Refusal::PadBit);
    }
    read_received(frame)
}

// Past the checks: the code word near the frame's word, and what it says.
fn read_received(frame: &[u8]) -> Result<ReadFrame, Refusal>
    requires { length frame.now ≡ 32 }
    ensures { ReadsReceived (word_of frame.now) (outcome_of result) (given_by result) }
{
    let mut received = [0; 255];
    let mut word = [0; 255];
    let mut list = [0; 23];
    layout::unpack(frame, &mut received);
    let wrong = decode::decode(8, 23, &received, &mut word, &mut list)?;
    read_word(&word, wrong)
}

// What a mended word says. `wrong` is the number of wrong places that it had.
fn read_word(word: &[u8], wrong: usize) -> Result<ReadFrame, Refusal>
    requires { AreBits word.now × (length word.now ≡ 255) }
    ensures { ReadsWord word.now wrong (outcome_of result) (given_by result) }
{
    if layout::lead_is_wrong(word) {
        return Err(Refusal::LeadBits);
    }
    let reading = layout::reading_of(word);
    Ok(ReadFrame { reading, wrong })
}
