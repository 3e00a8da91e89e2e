// Making a frame: the exact encoding of a reading.

ghost use Rattle.std.specs.Prelude.{◌≡◌, length};
ghost use Rattle.frame.specs.Make.{Made, Makes};

use layout::Reading;
use sheet::Refusal;

pub fn make(reading: Reading, frame: &mut [u8]) -> Result<(), Refusal>
    ensures { Makes reading frame.old result frame.new }
{
    if frame.len() != 32 {
        return Err(Refusal::FrameLength);
    }
    fill_frame(reading, frame);
    Ok(())
}

// Encode refuses nothing here: the code is listed and the lengths are its own.
fn fill_frame(reading: Reading, frame: &mut [u8])
    requires { length frame.old ≡ 32 }
    ensures { Made reading frame.new }
{
    let mut message = [0; 99];
    let mut word = [0; 255];
    layout::fill_message(reading, &mut message);
    codec::encode(8, 23, &message, &mut word).unwrap();
    layout::pack(&word, frame);
}
