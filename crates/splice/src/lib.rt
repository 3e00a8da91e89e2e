// Splice: a stretch of a kept word replaced, and its sums brought up to date by the places that changed.

#![tactic(auto)]

ghost use Rattle.std.specs.Prelude.{length};
ghost use Rattle.codes.specs.Work.{Checked};
ghost use Rattle.splice.specs.Splice.{Splices, Spliced, splice_checks};
ghost use Rattle.splice.specs.Work.{SpliceReady, StretchReady, PlaceReady, PlaceSpliced, StretchSpliced};

use codes::Code;
use field::PowerTable;
use kept::Kept;
use sheet::Refusal;

// The record that it got stays with the caller, who goes on with it where the splice is refused.
pub fn splice(stored: Kept, start: usize, stretch: &[u8]) -> Result<Kept, Refusal>
    ensures { Splices stored start stretch.now result }
{
    let code = checks(stored, start, stretch)?;
    Ok(spliced(code, stored, start, stretch))
}

fn checks(stored: Kept, start: usize, stretch: &[u8]) -> Result<Code, Refusal>
    ensures { Checked stored.m stored.t (splice_checks stored start stretch.now) result }
{
    let code = codes::look_up(stored.m, stored.t)?;
    if kept::is_bad(code, stored) {
        return Err(Refusal::RecordContents);
    }
    if bits::runs_past(start, stretch.len(), code.n) {
        return Err(Refusal::StretchEnd);
    }
    if let Some(place) = bits::first_above_one(stretch) {
        return Err(Refusal::BitAboveOne { buffer: 0, place });
    }
    Ok(code)
}

// Past the checks: the powers of a for this m, and the work.
fn spliced(code: Code, stored: Kept, start: usize, stretch: &[u8]) -> Kept
    requires { SpliceReady code stored start stretch.now }
    ensures { Spliced code stored start stretch.now result }
{
    let m = stored.m;
    let t = stored.t;
    let mut bits = stored.bits;
    let mut sums = stored.sums;
    let mut powers = [0; 2046];
    field::fill_powers(code.m, &mut powers);
    let powers = PowerTable {
        m: code.m,
        powers: &powers,
    };
    splice_stretch(&powers, code.t, start, stretch, &mut bits, &mut sums);
    Kept { m, t, bits, sums }
}

fn splice_stretch(
    powers: &PowerTable,
    t: usize,
    start: usize,
    stretch: &[u8],
    bits: &mut [u8],
    sums: &mut [u16],
)
    requires { StretchReady powers.now.m t start stretch.now bits.old sums.old }
    ensures { StretchSpliced powers.now.m t start stretch.now bits.old sums.old
        bits.new sums.new (length stretch.now) }
{
    for (i, b) in stretch.iter().enumerate() {
        splice_place(powers, t, *b, start + i, bits, sums);
    }
}

// Where place p does not hold b yet, b is written there and the place is added to the sums.
fn splice_place(powers: &PowerTable, t: usize, b: u8, p: usize, bits: &mut [u8], sums: &mut [u16])
    requires { PlaceReady powers.now.m t p bits.old sums.old }
    ensures { PlaceSpliced powers.now.m t b p bits.old sums.old bits.new sums.new }
{
    let old = bits[p];
    if old != b {
        bits[p] = b;
        sums::add_place(powers.m, powers.powers, p, t, sums);
    }
}
