// The poll book: frames of 32 bytes one after another, and a trailer that points back to the first of them.

#![tactic(auto)]

mod mark;
mod reading;
mod writing;

pub use reading::{Found, find, frame, look};
pub use writing::write;
