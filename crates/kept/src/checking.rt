// Check 7 of a kept record.

ghost use Rattle.std.specs.Prelude.{◌≡◌};
ghost use Rattle.codes.specs.Work.{Known};
ghost use Rattle.kept.specs.Record.{some_at_least, bad_record};

use crate::Kept;
use codes::Code;

// Whether one of the entries is the bound or more.
fn some_at_least(bound: usize, entries: &[u16]) -> bool
    ensures { result ≡ some_at_least bound entries.now }
{
    entries.iter().any(|entry| bound <= usize::from(*entry))
}

// Whether check 7 refuses the record. `code` is the code of the record's m and t.
pub fn is_bad(code: Code, stored: Kept) -> bool
    requires { Known code }
    ensures { result ≡ bad_record code stored }
{
    let Code { n, t, .. } = code;
    let Kept { bits, sums, .. } = stored;
    bits::first_above_one(&bits[..n]).is_some() || some_at_least(n + 1, &sums[..t])
}
