// The generator of a listed code, and division by it.

#![tactic(auto)]

ghost use Rattle.std.specs.Prelude.{◌≡◌, ◌+◌, ◌-◌, ◌≤◌, ◌<◌, length, get_or, take, replicate};
ghost use Rattle.bits.specs.Bits.{AreBits};
ghost use Rattle.field.specs.Power.{n_of};
ghost use Rattle.codes.specs.Table.{ts as Table·ts, ks};
ghost use Rattle.codes.specs.Rows.{RowOf};
ghost use Rattle.generator.specs.Minimals.{minimals as Table·minimals};
ghost use Rattle.generator.specs.Generator.{Generator};
ghost use Rattle.generator.specs.Factors.{product_of};
ghost use Rattle.generator.specs.Work.{Tapped, Multiplied, Cut, TakenAway, Reduced};

mod table;

// If p's digit e is 1, adds old, moved up by e places, into g, as far as g reaches.
fn add_tap(g: &mut [u8], old: &[u8], e: usize, p: u16)
    requires { AreBits g.old × AreBits old.now × (length old.now ≡ length g.old) × (e < 16) }
    ensures { Tapped p e old.now g.old g.new }
{
    if (p >> e) % 2 == 0 {
        return;
    }
    if g.len() <= e {
        return;
    }
    let end = g.len() - e;
    bits::add_at(g, e, &old[..end]);
}

// Fills g, which is clear, with old times the polynomial p of at most 11 digits, as far as g reaches.
fn add_taps(g: &mut [u8], old: &[u8], p: u16)
    requires { (g.old ≡ replicate (length old.now) 0) × AreBits old.now }
    ensures { Multiplied p old.now g.new }
{
    for e in 0..11 {
        add_tap(g, old, e, p);
    }
}

// Multiplies g by the polynomial p, as far as g reaches.
fn multiply(g: &mut [u8], p: u16)
    requires { AreBits g.old × (length g.old ≤ 1024) }
    ensures { Multiplied p g.old g.new }
{
    let n = g.len();
    let mut space = [0; 1024];
    bits::copy_at(&mut space, 0, g);
    bits::clear(g);
    add_taps(g, &space[..n], p);
}

// The polynomial 1.
fn set_one(g: &mut [u8])
    requires { 0 < length g.old }
    ensures { Cut (replicate 1 1) (length g.old) g.new }
{
    bits::clear(g);
    g[0] = 1;
}

// The product of the minimal polynomials of the rows from `from` up to, not including, `to`, as far as g reaches.
fn multiply_rows(g: &mut [u8], minimals: &[u16], from: usize, to: usize)
    requires { Cut (replicate 1 1) (length g.old) g.old × (length g.old ≤ 1024) × (minimals.now ≡ Table·minimals) × (from ≤ to) × (to ≤ 232) }
    ensures { Cut (product_of from (to - from)) (length g.old) g.new }
{
    for minimal in &minimals[from..to] {
        multiply(g, *minimal);
    }
}

// The generator of a row of m: the product of the minimal polynomials of the rows of m up to it.
pub fn fill_generator(m: usize, row: usize, g: &mut [u8])
    requires { RowOf m row × (length g.old ≡ n_of m - get_or ks row 0 + 1) }
    ensures { Generator m (get_or Table·ts row 0) (n_of m - get_or ks row 0) g.new }
{
    let minimals = table::minimals();
    let from = codes::first_row(m);
    set_one(g);
    multiply_rows(g, &minimals, from, row + 1);
}

// The generator of a row of m, at the front of room for any generator. d is its degree.
pub fn generator(m: usize, row: usize, d: usize) -> [u8; 1024]
    requires { RowOf m row × (d ≡ n_of m - get_or ks row 0) }
    ensures { Generator m (get_or Table·ts row 0) d (take (d + 1) result) × (1024 ≡ length result) }
{
    let mut space = [0; 1024];
    let end = d + 1;
    fill_generator(m, row, &mut space[..end]);
    space
}

// If the word holds 1 at place i, takes g away from it, moved up so that g's top place d stands at place i.
fn take_away(word: &mut [u8], g: &[u8], d: usize, i: usize)
    requires { AreBits word.old × AreBits g.now × (length g.now ≡ d + 1) × (get_or g.now d 0 ≡ 1) × (d ≤ i) × (i < length word.old) }
    ensures { TakenAway d g.now i word.old word.new }
{
    if word[i] == 1 {
        bits::add_at(word, i - d, g);
    }
}

// Division by g of degree d: what is left of the word stands below place d.
pub fn reduce(word: &mut [u8], g: &[u8], d: usize)
    requires { AreBits word.old × AreBits g.now × (length g.now ≡ d + 1) × (get_or g.now d 0 ≡ 1) }
    ensures { Reduced d g.now word.old word.new }
{
    for i in (d..word.len()).rev() {
        take_away(word, g, d, i);
    }
}
