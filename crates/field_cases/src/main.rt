// A test: writes values of the field that can be worked out without this code.

#![tactic(auto)]

ghost use Rattle.std.specs.Prelude.{◌≡◌, ◌^◌, ◌<◌};
ghost use Rattle.field.specs.Product.{IsField};

use field::FieldTables;
use input::STDOUT_FILENO;

fn print(x: u16) {
    io::write_all(STDOUT_FILENO, b" ");
    io::print_decimal(STDOUT_FILENO, u64::from(x));
}

fn end_line() {
    io::write_all(STDOUT_FILENO, b"\n");
}

// The value at x of the polynomial over bits that the number p stands for.
fn value(tables: &FieldTables, p: u16, x: u16) -> u16
    requires { x < 2 ^ tables.now.m }
    ensures { result < 2 ^ tables.now.m }
{
    let mut sum = 0;
    for i in (0..16usize).rev() {
        sum = tables.product(sum, x) ^ (p >> i) % 2;
    }
    sum
}

// The powers of a in GF(16), from a^0 to a^15.
fn powers_line(tables: &FieldTables)
    requires { tables.now.m ≡ 4 }
{
    io::write_all(STDOUT_FILENO, b"powers");
    for i in 0..16 {
        print(tables.power(2, i));
    }
    end_line();
}

// The minimal polynomials of a, a^3 and a^5 in GF(16) at their roots, and the first at a^3, where it does not vanish.
fn roots_line(tables: &FieldTables)
    requires { tables.now.m ≡ 4 }
{
    io::write_all(STDOUT_FILENO, b"roots");
    print(value(tables, 19, 2));
    print(value(tables, 31, 8));
    print(value(tables, 7, 6));
    print(value(tables, 19, 8));
    end_line();
}

// The sums S_1, S_3, S_5 of the places 0, 1, 2, 3 and S_1, S_3 of place 3, in GF(16).
fn sums_line(tables: &FieldTables)
    requires { tables.now.m ≡ 4 }
{
    io::write_all(STDOUT_FILENO, b"sums");
    print(value(tables, 15, 2));
    print(value(tables, 15, 8));
    print(value(tables, 15, 6));
    print(value(tables, 8, 2));
    print(value(tables, 8, 8));
    end_line();
}

fn gf16() {
    let mut powers = [0; 2046];
    let mut logs = [0; 1024];
    field::fill_powers(4, &mut powers);
    field::fill_logs(4, &powers, &mut logs);
    let tables = FieldTables {
        m: 4,
        powers: &powers,
        logs: &logs,
    };
    powers_line(&tables);
    roots_line(&tables);
    sums_line(&tables);
}

// a^m, the inverses of a and of 3, and the square of the largest element.
fn values_line(tables: &FieldTables) {
    let m = tables.m;
    let largest = field::n_of(m) as u16;
    let a_to_m = tables.power(2, m);
    let inverse_of_a = tables.inverse(2);
    let inverse_of_3 = tables.inverse(3);
    let square = tables.product(largest, largest);
    io::print_decimal(STDOUT_FILENO, m as u64);
    print(a_to_m);
    print(inverse_of_a);
    print(inverse_of_3);
    print(square);
    end_line();
}

fn field_line(m: usize)
    requires { IsField m }
{
    let mut powers = [0; 2046];
    let mut logs = [0; 1024];
    field::fill_powers(m, &mut powers);
    field::fill_logs(m, &powers, &mut logs);
    let tables = FieldTables {
        m,
        powers: &powers,
        logs: &logs,
    };
    values_line(&tables);
}

fn main() {
    gf16();
    for m in 3..=10 {
        field_line(m);
    }
}
