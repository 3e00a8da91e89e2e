// Places of the word, sent numbers, and the bits that stand there.

ghost use Rattle.std.specs.Prelude.{◌≡◌, ◌+◌, ◌-◌, ◌≤◌, length};
ghost use Rattle.bits.specs.Bits.{AreBits};
ghost use Rattle.layout.specs.Frame.{sent_bit};
ghost use Rattle.layout.specs.Work.{air_bit, Gathered};

// Counts powers of x from the low end, 0 to 254.
#[derive(Clone, Copy)]
pub struct Place {
    pub number: usize,
}

// Counts bits from the first on the air, 0 to 255; the last is the pad, which has no place.
#[derive(Clone, Copy)]
pub struct Sent {
    pub number: usize,
}

pub fn place_of(sent: Sent) -> Place
    requires { sent.number ≤ 254 }
    ensures { result.number ≡ 254 - sent.number }
{
    Place {
        number: 254 - sent.number,
    }
}

pub fn sent_of(place: Place) -> Sent
    requires { place.number ≤ 254 }
    ensures { result.number ≡ 254 - place.number }
{
    Sent {
        number: 254 - place.number,
    }
}

// The bit of a frame with this sent number.
pub fn sent_bit(frame: &[u8], sent: Sent) -> u8
    requires { (length frame.now ≡ 32) × (sent.number ≤ 255) }
    ensures { result ≡ sent_bit frame.now sent.number }
{
    let q = sent.number;
    let byte = frame[q / 8];
    let shift = 7 - q % 8;
    (byte >> shift) % 2
}

// The bit that a word sends under this number, 0 for the pad.
pub(crate) fn air_bit(word: &[u8], sent: Sent) -> u8
    requires { length word.now ≡ 255 }
    ensures { result ≡ air_bit word.now sent.number }
{
    if sent.number < 255 {
        word[place_of(sent).number]
    } else {
        0
    }
}

// The number whose `count` bits a word sends from this sent number on, highest first.
pub(crate) fn gather(word: &[u8], from: Sent, count: usize) -> u64
    requires { AreBits word.now × (length word.now ≡ 255) × (from.number + count ≤ 256) × (count ≤ 64) }
    ensures { Gathered word.now from.number count result }
{
    let mut v = 0;
    for i in 0..count {
        let number = from.number + i;
        v = 2 * v + u64::from(air_bit(word, Sent { number }));
    }
    v
}
