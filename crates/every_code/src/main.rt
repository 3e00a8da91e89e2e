// A test: calls the operations with every one of the 232 codes and writes what comes of it; the second program writes the same.

#![tactic(auto)]

ghost use Rattle.std.specs.Prelude.{◌≤◌};

mod describing;
mod keeping;
mod listed;
mod made_up;
mod mending;
mod room;
mod tally;
mod text;
mod trials;
mod words;

use input::STDOUT_FILENO;
use listed::Listed;
use text::print_number;

fn print_code(listed: Listed) {
    describing::print_described(listed);
    trials::print_decoded(listed);
    trials::print_kept(listed);
}

// Writes the lines of (m, t) if it is a listed code. Gives 1 if it is, and 0 if not.
fn print_if_listed(m: usize, t: usize) -> usize
    ensures { result ≤ 1 }
{
    match codes::look_up(m, t) {
        Ok(code) => {
            print_code(Listed { code });
            1
        }
        Err(_) => 0,
    }
}

// Every m from 3 to 10 with every t from 0 to 256: 8 times 257 pairs.
fn print_all() -> usize {
    let mut listed = 0;
    for pair in 0..2056 {
        listed += print_if_listed(3 + pair / 257, pair % 257);
    }
    listed
}

fn main() {
    let listed = print_all();
    io::write_all(STDOUT_FILENO, b"codes");
    print_number(listed as u64);
    io::write_all(STDOUT_FILENO, b"\n");
}
