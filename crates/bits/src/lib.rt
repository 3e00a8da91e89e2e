// Bits lent one to a byte: finding one above 1, adding, copying, clearing, turning over, and telling whether a stretch runs past the end.

#![tactic(auto)]

ghost use Rattle.std.specs.Prelude.{◌≡◌, true, false, MatchOption, ℕ, ◌+◌, ◌≤◌, ◌<◌, length, take, replicate};
ghost use mathlib.Core.List.{Memᴰ};
ghost use Rattle.std.proofs.Math.Seq.{paste};
ghost use Rattle.bits.specs.Bits.{AreBits, first_above, has_bad_bit, runs_past, flipped};
ghost use Rattle.bits.specs.Work.{added_at};

// The first place that holds more than 1, if there is one.
pub fn first_above_one(s: &[u8]) -> Option<usize>
    ensures { MatchOption result (has_bad_bit s.now ≡ false) (λ place. (has_bad_bit s.now ≡ true) × (place ≡ first_above s.now)) }
{
    s.iter().position(|bit| 1 < *bit)
}

// Adds src into dst from place `at` on.
pub fn add_at(dst: &mut [u8], at: usize, src: &[u8])
    requires { at + length src.now ≤ length dst.old }
    ensures { dst.new ≡ added_at dst.old at src.now }
{
    for (i, bit) in src.iter().enumerate() {
        dst[at + i] ^= *bit;
    }
}

// Copies src into dst from place `at` on. Between two lent buffers `copy_from_slice` would call `memmove`, which the library for C does not need.
pub fn copy_at(dst: &mut [u8], at: usize, src: &[u8])
    requires { at + length src.now ≤ length dst.old }
    ensures { dst.new ≡ paste dst.old at src.now (length src.now) }
{
    for (i, bit) in src.iter().enumerate() {
        dst[at + i] = *bit;
    }
}

pub fn clear(dst: &mut [u8])
    ensures { dst.new ≡ replicate (length dst.old) 0 }
{
    dst.fill(0);
}

// Turns over the bits at the places.
pub fn flip_all(dst: &mut [u8], places: &[u16])
    requires { AreBits dst.old × ((p : ℕ) → Memᴰ p places.now → p < length dst.old) }
    ensures { dst.new ≡ flipped dst.old places.now }
{
    for place in places {
        let p = usize::from(*place);
        dst[p] = 1 - dst[p];
    }
}

// Whether a stretch of `long` places from `start` on runs past the end. `start` and `long` are not added, since the sum could wrap.
pub fn runs_past(start: usize, long: usize, end: usize) -> bool
    ensures { result ≡ runs_past start long end }
{
    if end < start {
        return true;
    }
    let room = end - start;
    room < long
}
