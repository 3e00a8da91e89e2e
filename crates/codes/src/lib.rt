// The listed codes: looking one up.

#![tactic(auto)]

ghost use Rattle.std.specs.Prelude.{◌≡◌, ◌-◌, ◌≤◌};
ghost use Rattle.codes.specs.Table.{ts as Table·ts};
ghost use Rattle.codes.specs.Look.{row_from};
ghost use Rattle.codes.specs.Work.{no_more, Checked};

mod table;

use sheet::Refusal;
pub use table::first_row;

// A listed code: what it is named by, its row of the table, and its sizes.
#[derive(Clone, Copy)]
pub struct Code {
    pub m: usize,
    pub t: usize,
    pub row: usize,
    pub n: usize,
    pub k: usize,
}

// The row that has t, from `from` up to, not including, `to`; and `to` if none has it.
// A number and no Option, since `row_from`, by which `look_up` promises what it does, is `to` for none.
fn find_row(ts: &[u16], from: usize, to: usize, t: usize) -> usize
    requires { (ts.now ≡ Table·ts) × (from ≤ to) × (to ≤ 232) }
    ensures { result ≡ row_from (to - from) from t }
{
    let rows = &ts[from..to];
    let at = rows.iter().position(|listed| usize::from(*listed) == t);
    from + at.unwrap_or(rows.len())
}

// The first two checks of every operation.
pub fn look_up(m: usize, t: usize) -> Result<Code, Refusal>
    ensures { Checked m t no_more result }
{
    if m < 3 {
        return Err(Refusal::FieldSize);
    }
    if 10 < m {
        return Err(Refusal::FieldSize);
    }
    let from = table::first_row(m);
    let to = table::first_row(m + 1);
    let ts = table::ts();
    let row = find_row(&ts, from, to, t);
    if row < to {
        let ks = table::ks();
        let k = usize::from(ks[row]);
        let n = field::n_of(m);
        Ok(Code { m, t, row, n, k })
    } else {
        Err(Refusal::NotListed)
    }
}
