// Walking through the powers of a: multiples of them added to a row of entries.

#![tactic(auto)]

ghost use Rattle.std.specs.Prelude.{◌≡◌, ◌+◌, ◌^◌, ◌≤◌, ◌<◌, length, get_or};
ghost use Rattle.entries.specs.Entries.{Filled};
ghost use Rattle.field.specs.Product.{IsField};
ghost use Rattle.field.specs.Power.{n_of};
ghost use Rattle.field.specs.Tables.{Powers, Tables};
ghost use Rattle.walks.specs.Multiples.{plus_multiple, plus_walk, plus_at, plus_four, Walked};

// Here and in `sums` the tables are taken bare, as in `field`, and for the same reason.

// Adds s, s times a^step, s times a^(2 step), .. to the first `count` entries.
pub fn add_multiples(
    m: usize,
    powers: &[u16],
    logs: &[u16],
    s: u16,
    step: usize,
    count: usize,
    entries: &mut [u16],
)
    requires { (Tables m powers.now logs.now) × (s < 2 ^ m) × (step ≤ n_of m) × (count ≤ length entries.old) }
    ensures { Filled (plus_multiple m s step entries.old) count entries.old entries.new }
{
    if s != 0 {
        let from = usize::from(logs[usize::from(s)]);
        add_walk(m, powers, from, step, count, entries);
    }
}

// Adds the powers of a with the exponents `from`, `from` + `step`, .. to the first `count` entries, with one look into the table for each.
// After the first few, the entries are taken four at a time, since none of the four looks has to wait for another.
pub fn add_walk(
    m: usize,
    powers: &[u16],
    from: usize,
    step: usize,
    count: usize,
    entries: &mut [u16],
)
    requires { (IsField m) × (Powers m powers.now) × (from < n_of m) × (step ≤ n_of m) × (count ≤ length entries.old) }
    ensures { Filled (plus_walk m from step entries.old) count entries.old entries.new }
{
    let n = field::n_of(m);
    let one = field::around(n, step);
    let two = field::around(n, 2 * one);
    let three = field::around(n, two + one);
    let four = field::around(n, 2 * two);
    let first = count % 4;
    let mut e = add_first(m, powers, from, one, first, entries);
    for i in 0..count / 4 {
        let j = first + 4 * i;
        add_four(powers, e, e + one, e + two, e + three, j, entries);
        e = field::around(n, e + four);
    }
}

// Adds to the first `count` entries one by one and keeps the exponents below n. Gives the exponent for the next entry.
fn add_first(
    m: usize,
    powers: &[u16],
    from: usize,
    step: usize,
    count: usize,
    entries: &mut [u16],
) -> usize
    requires { (IsField m) × (Powers m powers.now) × (from < n_of m) × (step < n_of m) × (count ≤ length entries.old) }
    ensures { Walked m from step 0 count entries.old result entries.new }
{
    let n = field::n_of(m);
    let mut e = from;
    for j in 0..count {
        add_at(powers, e, j, entries);
        e = field::around(n, e + step);
    }
    e
}

// Adds the powers with these exponents to the four entries from place j on.
fn add_four(powers: &[u16], e: usize, f: usize, g: usize, h: usize, j: usize, entries: &mut [u16])
    requires { (e < length powers.now) × (f < length powers.now) × (g < length powers.now) × (h < length powers.now)
        × (j + 4 ≤ length entries.old) }
    ensures { entries.new ≡ plus_four powers.now e f g h j entries.old }
{
    add_at(powers, e, j, entries);
    add_at(powers, f, j + 1, entries);
    add_at(powers, g, j + 2, entries);
    add_at(powers, h, j + 3, entries);
}

// Adds the power with exponent e to entry j.
fn add_at(powers: &[u16], e: usize, j: usize, entries: &mut [u16])
    requires { (e < length powers.now) × (j < length entries.old) }
    ensures { entries.new ≡ plus_at entries.old j (get_or powers.now e 0) }
{
    entries[j] ^= powers[e];
}
