// The field of 2^m elements, m from 3 to 10. An element is a number below 2^m whose bit i is the coefficient of a^i.

#![tactic(auto)]

ghost use Rattle.std.specs.Prelude.{◌≡◌, ◌+◌, ◌*◌, ◌%◌, ◌^◌, ◌<◌, length};
ghost use Rattle.field.specs.Product.{IsField, polynomial, ◌⊗⟨◌⟩◌};
ghost use Rattle.field.specs.Power.{a, n_of, power, inverse};
ghost use Rattle.field.specs.Tables.{Powers, Tables};

mod tables;

pub use tables::{FieldTables, PowerTable};

// The field polynomials for m = 3 to 10, as docs/SCOPE.md 2 has them.
const POLYNOMIALS: [u16; 8] = [11, 19, 37, 67, 131, 285, 529, 1033];

pub fn polynomial(m: usize) -> u16
    requires { IsField m }
    ensures { result ≡ polynomial m }
{
    POLYNOMIALS[m - 3]
}

// n, the number of nonzero elements and of a word's places.
pub fn n_of(m: usize) -> usize
    requires { IsField m }
    ensures { result ≡ n_of m }
{
    (1 << m) - 1
}

// x times a: its digits move up one place, and the polynomial p is taken away where place m then holds 1.
pub fn times_a(m: usize, p: u16, x: u16) -> u16
    requires { (IsField m) × (p ≡ polynomial m) × (x < 2 ^ m) }
    ensures { result ≡ a ⊗⟨ m ⟩ x }
{
    let twice = 2 * x;
    let n = n_of(m);
    if usize::from(twice) > n {
        return twice ^ p;
    }
    twice
}

// The functions by the two tables take them bare: docs/ARCHITECTURE.md names these functions, and a struct would ask more of who calls them.
// `FieldTables` has them as methods.

// Fills the places 0 to 2n - 1 with the powers of a. Since a^n is 1, each power stands at two places.
pub fn fill_powers(m: usize, powers: &mut [u16])
    requires { (IsField m) × (2046 ≡ length powers.old) }
    ensures { Powers m powers.new }
{
    let p = polynomial(m);
    let n = n_of(m);
    let mut x = 1;
    for i in 0..n {
        powers[i] = x;
        powers[n + i] = x;
        x = times_a(m, p, x);
    }
}

pub fn fill_logs(m: usize, powers: &[u16], logs: &mut [u16])
    requires { (IsField m) × (Powers m powers.now) × (1024 ≡ length logs.old) }
    ensures { Tables m powers.now logs.new }
{
    let n = n_of(m);
    for (i, x) in powers[..n].iter().enumerate() {
        logs[usize::from(*x)] = i as u16;
    }
}

// The product by the two tables: the logarithms of the factors are added. 0 has no logarithm, and a product with 0 is 0.
pub fn product(m: usize, powers: &[u16], logs: &[u16], x: u16, y: u16) -> u16
    requires { (Tables m powers.now logs.now) × (x < 2 ^ m) × (y < 2 ^ m) }
    ensures { result ≡ x ⊗⟨ m ⟩ y }
{
    if x == 0 {
        return 0;
    }
    if y == 0 {
        return 0;
    }
    let log_x = usize::from(logs[usize::from(x)]);
    let log_y = usize::from(logs[usize::from(y)]);
    powers[log_x + log_y]
}

// The power e is the square of the power e/2, times x if e is odd.
pub fn power(m: usize, powers: &[u16], logs: &[u16], x: u16, e: usize) -> u16
    requires { (Tables m powers.now logs.now) × (x < 2 ^ m) }
    ensures { result ≡ power m x e }
{
    if e == 0 {
        return 1;
    }
    let half = power(m, powers, logs, x, e / 2);
    let square = product(m, powers, logs, half, half);
    if e % 2 == 0 {
        square
    } else {
        product(m, powers, logs, square, x)
    }
}

// The inverse of a nonzero element is its power 2^m - 2.
pub fn inverse(m: usize, powers: &[u16], logs: &[u16], x: u16) -> u16
    requires { (Tables m powers.now logs.now) × (x < 2 ^ m) }
    ensures { result ≡ inverse m x }
{
    power(m, powers, logs, x, (1 << m) - 2)
}

// The exponent e, which is below 2n, brought below n. The power of a stays the same.
pub fn around(n: usize, e: usize) -> usize
    requires { e < 2 * n }
    ensures { result ≡ e % n }
{
    if e < n {
        return e;
    }
    e - n
}
