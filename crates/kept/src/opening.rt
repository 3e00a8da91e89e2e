// Open: a received word and its odd sums become a kept record.

ghost use Rattle.std.specs.Prelude.{◌≡◌, ◌++◌, ◌-◌, ◌≤◌, length, replicate};
ghost use Rattle.codes.specs.Work.{Checked};
ghost use Rattle.kept.specs.Open.{Opens, Opened, open_checks};
ghost use Rattle.kept.specs.Work.{OpenReady};

use crate::Kept;
use codes::Code;
use sheet::Refusal;

pub fn open(m: usize, t: usize, word: &[u8]) -> Result<Kept, Refusal>
    ensures { Opens m t word.now result }
{
    let code = checks(m, t, word)?;
    Ok(opened(code, word))
}

// The checks of Open. A caller that lays the record out goes on with `opened` itself, since a record in a Result is copied wherever it goes.
pub fn checks(m: usize, t: usize, word: &[u8]) -> Result<Code, Refusal>
    ensures { Checked m t (open_checks word.now) result }
{
    let code = codes::look_up(m, t)?;
    if word.len() != code.n {
        return Err(Refusal::InputLength);
    }
    if let Some(place) = bits::first_above_one(word) {
        return Err(Refusal::BitAboveOne { buffer: 0, place });
    }
    Ok(code)
}

// Past the checks.
pub fn opened(code: Code, word: &[u8]) -> Kept
    requires { OpenReady code word.now }
    ensures { Opened word.now code result }
{
    let Code { m, t, .. } = code;
    Kept {
        m,
        t,
        bits: padded(word),
        sums: locate::odd_sums(m, t, word),
    }
}

// The word, then zeros.
fn padded(word: &[u8]) -> [u8; 1023]
    requires { length word.now ≤ 1023 }
    ensures { result ≡ word.now ++ replicate (1023 - length word.now) 0 }
{
    let mut space = [0; 1023];
    let end = word.len();
    space[..end].copy_from_slice(word);
    space
}
