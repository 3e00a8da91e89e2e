// The reading frame: one reading as a word of the code (255, 99, 23) in 32 bytes.

#![tactic(auto)]

mod making;
mod reading;

pub use making::make;
pub use reading::{ReadFrame, read};
