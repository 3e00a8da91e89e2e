// The bytes of a frame and the word in them.

ghost use Rattle.std.specs.Prelude.{◌≡◌, length};
ghost use Rattle.bits.specs.Bits.{AreBits};
ghost use Rattle.layout.specs.Frame.{word_of};
ghost use Rattle.layout.specs.Work.{Packed};

use crate::places;
use crate::places::{Place, Sent};

// A word into the bytes of a frame, with the pad.
pub fn pack(word: &[u8], frame: &mut [u8])
    requires { AreBits word.now × (length word.now ≡ 255) × (length frame.old ≡ 32) }
    ensures { Packed word.now frame.new }
{
    for (b, byte) in frame.iter_mut().enumerate() {
        *byte = places::gather(word, Sent { number: 8 * b }, 8) as u8;
    }
}

pub fn unpack(frame: &[u8], word: &mut [u8])
    requires { (length frame.now ≡ 32) × (length word.old ≡ 255) }
    ensures { word.new ≡ word_of frame.now }
{
    for (number, bit) in word.iter_mut().enumerate() {
        *bit = places::sent_bit(frame, places::sent_of(Place { number }));
    }
}
