// Decode kept: the places that have the stored sums, turned over in the stored bits.

#![tactic(auto)]

ghost use Rattle.sheet.specs.Number.{outcome_of};
ghost use Rattle.sheet.specs.Verdict.{Searches};
ghost use Rattle.codes.specs.Work.{Checked};
ghost use Rattle.decode.specs.Decode.{as_lent, left_by};
ghost use Rattle.decode_kept.specs.DecodeKept.{DecodesKept, MendsKept, NoSet, decode_kept_checks};
ghost use Rattle.decode_kept.specs.Work.{KeptReady, CanPutStored};

use codes::Code;
use kept::Kept;
use sheet::Refusal;

// Gives the number of wrong places.
pub fn decode_kept(stored: Kept, word: &mut [u8], list: &mut [u16]) -> Result<usize, Refusal>
    ensures { DecodesKept stored word.old list.old result word.new list.new }
{
    let code = checks(stored, word, list)?;
    mend_stored(code, stored, word, list)
}

fn checks(stored: Kept, word: &[u8], list: &[u16]) -> Result<Code, Refusal>
    ensures { Checked stored.m stored.t (decode_kept_checks stored word.now list.now) result }
{
    let code = codes::look_up(stored.m, stored.t)?;
    if kept::is_bad(code, stored) {
        return Err(Refusal::RecordContents);
    }
    if word.len() != code.n {
        return Err(Refusal::OutputLength);
    }
    if list.len() != code.t {
        return Err(Refusal::OutputLength);
    }
    Ok(code)
}

// Past the checks.
fn mend_stored(
    code: Code,
    stored: Kept,
    word: &mut [u8],
    list: &mut [u16],
) -> Result<usize, Refusal>
    requires { KeptReady code stored word.old list.old }
    ensures { Searches (MendsKept code stored) (NoSet code stored) (as_lent word.old list.old)
        (outcome_of result) (left_by result word.new list.new) }
{
    let Some(places) = locate::of_sums(code.m, code.t, &stored.sums) else {
        return Err(Refusal::NothingNear);
    };
    Ok(put_stored(code, stored, places.as_slice(), word, list))
}

// The stored bits with these places turned over, and the list.
fn put_stored(code: Code, stored: Kept, places: &[u16], word: &mut [u8], list: &mut [u16]) -> usize
    requires { CanPutStored code stored places.now word.old list.old }
    ensures { MendsKept code stored (left_by (Ok result) word.new list.new) }
{
    let n = code.n;
    let bits = stored.bits;
    decode::put_down(&bits[..n], places, word, list)
}
