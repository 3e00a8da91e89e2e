// The run of the key equation: from the odd sums to the polynomial whose zeros tell the wrong places.

#![tactic(auto)]

ghost use Rattle.std.specs.Prelude.{◌≡◌, ℕ, ◌+◌, ◌*◌, ◌^◌, ◌≤◌, ◌<◌, length, get_or, replicate};
ghost use Rattle.entries.specs.Entries.{Filled, entry};
ghost use Rattle.field.specs.Tables.{Tables};
ghost use Rattle.key.specs.Work.{UpTo, plus_moved, Squared, crossed};
ghost use Rattle.key.specs.Held.{Held, Stepped, Solved, SolvedFor};

use field::FieldTables;

// All 2t sums from the t odd ones.
fn square_sums(tables: &FieldTables, t: usize, sums: &[u16], all: &mut [u16])
    requires { let m = tables.now.m in (t ≤ length sums.now) × ((i : ℕ) → i < t → get_or sums.now i 0 < 2 ^ m) × (t ≤ 255)
        × (2 * t ≤ length all.old) }
    ensures { Squared tables.now.m t sums.now all.new }
{
    for i in 0..t {
        all[2 * i] = sums[i];
        let s = all[i];
        let square = tables.product(s, s);
        all[2 * i + 1] = square;
    }
}

// The numbers that go with the arrays: l bounds sigma's degree, and B is q times b moved up by gap places.
#[derive(Clone, Copy)]
struct At {
    l: usize,
    gap: usize,
    q: u16,
}

// By how much sigma times the sums misses zero at place r.
fn missed(tables: &FieldTables, sigma: &[u16], all: &[u16], r: usize, l: usize) -> u16
    requires { let m = tables.now.m in (l ≤ r) × (l < length sigma.now) × (r < length all.now)
        × ((i : ℕ) → i ≤ l → get_or sigma.now i 0 < 2 ^ m) × ((i : ℕ) → i ≤ r → get_or all.now i 0 < 2 ^ m) }
    ensures { result ≡ crossed tables.now.m sigma.now all.now r (l + 1) }
{
    let mut d = 0;
    for i in 0..=l {
        d ^= tables.product(sigma[i], all[r - i]);
    }
    d
}

// Adds factor times b, moved up by gap places, to the first `count` entries of sigma.
fn mend(tables: &FieldTables, factor: u16, gap: usize, count: usize, b: &[u16], sigma: &mut [u16])
    requires { let m = tables.now.m in (factor < 2 ^ m) × (count ≤ length b.now) × (count ≤ length sigma.old)
        × ((i : ℕ) → i < count → get_or b.now i 0 < 2 ^ m) }
    ensures { Filled (plus_moved tables.now.m factor gap b.now sigma.old) count sigma.old sigma.new }
{
    for i in gap..count {
        sigma[i] ^= tables.product(factor, b[i - gap]);
    }
}

// Mends the first `count` entries of sigma, and copies the first `whole` entries of the old sigma into b.
fn renew(
    tables: &FieldTables,
    factor: u16,
    gap: usize,
    count: usize,
    whole: usize,
    sigma: &mut [u16],
    b: &mut [u16],
)
    requires { let m = tables.now.m in (factor < 2 ^ m) × (count ≤ whole) × (whole ≤ 257) × (whole ≤ length b.old)
        × (whole ≤ length sigma.old) × ((i : ℕ) → i < count → get_or b.old i 0 < 2 ^ m) }
    ensures { Filled (plus_moved tables.now.m factor gap b.old sigma.old) count sigma.old sigma.new
        × Filled (entry sigma.old) whole b.old b.new }
{
    let mut old = [0; 257];
    old[..whole].copy_from_slice(&sigma[..whole]);
    mend(tables, factor, gap, count, b, sigma);
    b[..whole].copy_from_slice(&old[..whole]);
}

// Step r of the run. Where l passes t, sigma and b stay as they are.
fn step(
    tables: &FieldTables,
    t: usize,
    all: &[u16],
    r: usize,
    at: At,
    sigma: &mut [u16],
    b: &mut [u16],
) -> At
    requires { let m = tables.now.m in (t ≤ 255) × (2 * t ≤ length all.now) × (r < 2 * t)
        × Held m t all.now r at.l at.gap at.q sigma.old b.old }
    ensures { Stepped tables.now.m t all.now (r + 1) result.l result.gap result.q sigma.new b.new }
{
    let l = at.l;
    let gap = at.gap;
    let q = at.q;
    let more = gap + 1;
    let d = missed(tables, sigma, all, r, l);
    if d == 0 {
        return At { l, gap: more, q };
    }
    let factor = tables.product(d, q);
    if r < 2 * l {
        mend(tables, factor, gap, l + 1, b, sigma);
        return At { l, gap: more, q };
    }
    let next = r + 1 - l;
    if t < next {
        return At { l: next, gap, q };
    }
    renew(tables, factor, gap, next + 1, t + 2, sigma, b);
    let inverse = tables.inverse(d);
    At {
        l: next,
        gap: 1,
        q: inverse,
    }
}

// The whole run, from arrays that are clear. Gives l, and nothing as soon as l passes t.
fn run_all(
    tables: &FieldTables,
    t: usize,
    all: &[u16],
    sigma: &mut [u16],
    b: &mut [u16],
) -> Option<usize>
    requires { let m = tables.now.m in (t ≤ 255) × (2 * t ≤ length all.now)
        × ((i : ℕ) → i < 2 * t → get_or all.now i 0 < 2 ^ m) × (sigma.old ≡ replicate 257 0) × (b.old ≡ replicate 257 0) }
    ensures { UpTo t (λ l. Solved tables.now.m t all.now l sigma.new) result }
{
    sigma[0] = 1;
    b[0] = 1;
    let mut at = At { l: 0, gap: 1, q: 1 };
    for r in 0..2 * t {
        at = step(tables, t, all, r, at, sigma, b);
        if t < at.l {
            return None;
        }
    }
    Some(at.l)
}

// From the odd sums to sigma and the bound of its degree; nothing where that passes t. It takes the tables bare, as the functions of `field` do.
pub fn solve(
    m: usize,
    powers: &[u16],
    logs: &[u16],
    t: usize,
    sums: &[u16],
    sigma: &mut [u16],
) -> Option<usize>
    requires { (Tables m powers.now logs.now) × (t ≤ 255) × (t ≤ length sums.now) × ((i : ℕ) → i < t → get_or sums.now i 0 < 2 ^ m)
        × (sigma.old ≡ replicate 257 0) }
    ensures { UpTo t (λ l. SolvedFor m t sums.now l sigma.new) result }
{
    let tables = FieldTables { m, powers, logs };
    let mut all = [0; 510];
    square_sums(&tables, t, sums, &mut all);
    let mut b = [0; 257];
    run_all(&tables, t, &all, sigma, &mut b)
}
