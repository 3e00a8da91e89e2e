// A reading and its message: the lead and the fields into bits, and back.

ghost use Rattle.std.specs.Prelude.{◌≡◌, false, ◌<◌, length, get_or};
ghost use Rattle.bits.specs.Bits.{AreBits};
ghost use Rattle.layout.specs.Frame.{lead, message_bit, message_of, lead_is_wrong, Carries};

use crate::places;
use crate::places::Sent;

// The bits of the lead, first sent first.
const LEAD: [u8; 3] = [1, 0, 1];

// What a frame carries.
#[derive(Clone, Copy)]
pub struct Reading {
    pub house: u16,
    pub poll: u16,
    pub counter: u64,
}

pub fn fill_message(reading: Reading, message: &mut [u8])
    requires { length message.old ≡ 99 }
    ensures { message.new ≡ message_of reading }
{
    for (i, bit) in message.iter_mut().enumerate() {
        *bit = message_bit(reading, i);
    }
}

fn message_bit(reading: Reading, i: usize) -> u8
    requires { i < 99 }
    ensures { result ≡ message_bit reading i }
{
    match i {
        0..=63 => ((reading.counter >> i) % 2) as u8,
        64..=79 => ((reading.poll >> (i - 64)) % 2) as u8,
        80..=95 => ((reading.house >> (i - 80)) % 2) as u8,
        _ => lead_bit(Sent { number: 98 - i }),
    }
}

// The bit of the lead that every frame sends under this number.
fn lead_bit(sent: Sent) -> u8
    requires { sent.number < 3 }
    ensures { result ≡ get_or lead sent.number 0 }
{
    LEAD[sent.number]
}

// Whether a word sends another lead.
pub fn lead_is_wrong(word: &[u8]) -> bool
    requires { length word.now ≡ 255 }
    ensures { result ≡ lead_is_wrong word.now }
{
    for number in 0..3 {
        if places::air_bit(word, Sent { number }) != lead_bit(Sent { number }) {
            return true;
        }
    }
    false
}

// The fields of a word whose lead is right, each highest bit first.
pub fn reading_of(word: &[u8]) -> Reading
    requires { AreBits word.now × (length word.now ≡ 255) × (lead_is_wrong word.now ≡ false) }
    ensures { Carries result word.now }
{
    let house = places::gather(word, Sent { number: 3 }, 16);
    let poll = places::gather(word, Sent { number: 19 }, 16);
    let counter = places::gather(word, Sent { number: 35 }, 64);
    Reading {
        house: house as u16,
        poll: poll as u16,
        counter,
    }
}
