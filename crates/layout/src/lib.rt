// Where the bits of a reading stand: in its message, in the places of the word, in the bytes of a frame.

#![tactic(auto)]

mod bytes;
mod message;
mod places;

pub use bytes::{pack, unpack};
pub use message::{Reading, fill_message, lead_is_wrong, reading_of};
pub use places::{Place, Sent, place_of, sent_bit, sent_of};
