// From a word or its kept sums to the wrong places, with the powers of a made for the one call that needs them.

#![tactic(auto)]

ghost use Rattle.std.specs.Prelude.{◌≡◌, ℕ, ◌+◌, ◌^◌, ◌≤◌, ◌<◌, length, get_or, take, replicate};
ghost use Rattle.bits.specs.Bits.{AreBits};
ghost use Rattle.entries.specs.Entries.{Filled};
ghost use Rattle.field.specs.Product.{IsField};
ghost use Rattle.field.specs.Power.{n_of};
ghost use Rattle.sums.specs.OddSums.{OddSums};
ghost use Rattle.key.specs.Work.{UpTo};
ghost use Rattle.locate.specs.Search.{Searched, WordSearched};
ghost use Rattle.locate.specs.Work.{plus_term, tried, NotedOne, Tried, Agrees, Sought};

use field::{FieldTables, PowerTable};

mod places;

pub use places::Places;

// Adds the term with coefficient s at place j to the values of all places. Place i is tried at a^(n-i), so from one place to the next
// the term is multiplied by a^(n-j).
fn add_term(tables: &FieldTables, s: u16, j: usize, values: &mut [u16])
    requires { let m = tables.now.m in (s < 2 ^ m) × (n_of m ≤ length values.old) }
    ensures { let m = tables.now.m in Filled (plus_term m s j values.old) (n_of m) values.old values.new }
{
    let n = field::n_of(tables.m);
    let down = j % n;
    let step = n - down;
    walks::add_multiples(tables.m, tables.powers, tables.logs, s, step, n, values);
}

// The first n entries become the values of the polynomial with these coefficients, each where its place is tried.
fn all_values(tables: &FieldTables, sigma: &[u16], values: &mut [u16])
    requires { let m = tables.now.m in ((i : ℕ) → i < length sigma.now → get_or sigma.now i 0 < 2 ^ m) × (n_of m ≤ length values.old) }
    ensures { let m = tables.now.m in Filled (tried m sigma.now (length sigma.now)) (n_of m) values.old values.new }
{
    let n = field::n_of(tables.m);
    values[..n].fill(0);
    for (j, s) in sigma.iter().enumerate() {
        add_term(tables, *s, j, values);
    }
}

// Counts place i if the value v there is 0, and writes it down if there is room. Answers how many are found then; t + 1 means that the room was full.
fn note(v: u16, i: usize, t: usize, found: usize, places: &mut [u16]) -> usize
    requires { (i < 1024) × (found ≤ t) × (t ≤ length places.old) }
    ensures { NotedOne v i t found places.old result places.new }
{
    if v != 0 {
        return found;
    }
    if found < t {
        places[found] = i as u16;
        return found + 1;
    }
    found + 1
}

// Writes down all places at which sigma is zero, ascending, and answers how many there are. The search stops when more than t are found.
fn try_all(tables: &FieldTables, t: usize, sigma: &[u16], places: &mut [u16]) -> Option<usize>
    requires { let m = tables.now.m in ((i : ℕ) → i < length sigma.now → get_or sigma.now i 0 < 2 ^ m) × (t ≤ length places.old) }
    ensures { UpTo t (λ found. Tried tables.now.m t sigma.now (length sigma.now) found places.new) result }
{
    let mut values = [0; 1023];
    all_values(tables, sigma, &mut values);
    let n = field::n_of(tables.m);
    let mut found = 0;
    for (i, v) in values[..n].iter().enumerate() {
        found = note(*v, i, t, found, places);
        if t < found {
            return None;
        }
    }
    Some(found)
}

// Whether the sums of the places are the given ones.
fn compare(tables: &FieldTables, t: usize, places: &[u16], sums: &[u16]) -> bool
    requires { (t ≤ 255) × ((i : ℕ) → i < length places.now → get_or places.now i 0 < n_of tables.now.m)
        × (t ≤ length sums.now) }
    ensures { Agrees tables.now.m t places.now sums.now result }
{
    let mut own = [0; 255];
    sums::place_sums(tables.m, tables.powers, t, places, &mut own);
    own[..t] == sums[..t]
}

// Writes down the places that have these sums, and answers how many there are, if a set of at most t places has them.
fn find_places(
    tables: &FieldTables,
    t: usize,
    sums: &[u16],
    sigma: &mut [u16],
    places: &mut [u16],
) -> Option<usize>
    requires { let m = tables.now.m in (t ≤ 255) × (t ≤ length sums.now) × ((i : ℕ) → i < t → get_or sums.now i 0 < 2 ^ m)
        × (sigma.old ≡ replicate 257 0) × (t ≤ length places.old) }
    ensures { Sought tables.now.m t sums.now result places.new }
{
    let l = key::solve(tables.m, tables.powers, tables.logs, t, sums, sigma)?;
    let found = try_all(tables, t, &sigma[..=l], places)?;
    if compare(tables, t, &places[..found], sums) {
        return Some(found);
    }
    None
}

// The set of at most t places whose first t odd sums are the given ones, if there is one. Logarithms are made only where something is wrong.
fn locate(table: &PowerTable, t: usize, sums: &[u16]) -> Option<Places>
    requires { (t ≤ 255) × (t ≤ length sums.now) × ((i : ℕ) → i < t → get_or sums.now i 0 < 2 ^ table.now.m) }
    ensures { Searched table.now.m t sums.now result }
{
    let mut room = [0; 255];
    if entries::all_zero(&sums[..t]) {
        return Some(Places { room, count: 0 });
    }
    let mut logs = [0; 1024];
    field::fill_logs(table.m, table.powers, &mut logs);
    let tables = FieldTables {
        m: table.m,
        powers: table.powers,
        logs: &logs,
    };
    let mut sigma = [0; 257];
    let count = find_places(&tables, t, sums, &mut sigma, &mut room)?;
    Some(Places { room, count })
}

// S_1, S_3, .. S_(2t-1) of a word, then zeros.
pub fn odd_sums(m: usize, t: usize, word: &[u8]) -> [u16; 255]
    requires { IsField m × AreBits word.now × (length word.now ≡ n_of m) × (t ≤ 255) }
    ensures { OddSums m t word.now result }
{
    let mut powers = [0; 2046];
    field::fill_powers(m, &mut powers);
    sums::odd_sums(m, t, &powers, word)
}

// The places with the sums of a word.
pub fn of_word(m: usize, t: usize, word: &[u8]) -> Option<Places>
    requires { IsField m × AreBits word.now × (length word.now ≡ n_of m) × (t ≤ 255) }
    ensures { WordSearched m t word.now result }
{
    let mut powers = [0; 2046];
    field::fill_powers(m, &mut powers);
    let sums = sums::odd_sums(m, t, &powers, word);
    let table = PowerTable { m, powers: &powers };
    locate(&table, t, &sums)
}

// The places with these sums.
pub fn of_sums(m: usize, t: usize, sums: &[u16]) -> Option<Places>
    requires { IsField m × (t ≤ 255) × (t ≤ length sums.now) × ((i : ℕ) → i < t → get_or sums.now i 0 < 2 ^ m) }
    ensures { Searched m t sums.now result }
{
    let mut powers = [0; 2046];
    field::fill_powers(m, &mut powers);
    let table = PowerTable { m, powers: &powers };
    locate(&table, t, sums)
}
