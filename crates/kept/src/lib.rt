// The kept record, and Open.

#![tactic(auto)]

mod checking;
mod opening;

pub use checking::is_bad;
pub use opening::{checks, open, opened};

// A received word, place by place, kept with its odd sums.
#[derive(Clone, Copy)]
pub struct Kept {
    pub m: usize,
    pub t: usize,
    pub bits: [u8; 1023],
    pub sums: [u16; 255],
}
