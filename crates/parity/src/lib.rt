// The one code word that carries a message in its top places: the message put there, and its parity below. Also the change of a message.

#![tactic(auto)]

ghost use Rattle.std.specs.Prelude.{◌≡◌, ◌+◌, ◌≤◌, length, take, replicate};
ghost use Rattle.std.proofs.Math.Seq.{paste};
ghost use Rattle.codes.specs.Encoding.{Encoding};
ghost use Rattle.parity.specs.Work.{MessageOf, Divisible, WithParity, StretchFits, MessageChange};

use codes::Code;

// The code word that carries the message.
pub fn fill_word(code: Code, message: &[u8], word: &mut [u8])
    requires { MessageOf code message.now × (length word.old ≡ code.n) }
    ensures { Encoding code.m code.t code.k message.now word.new }
{
    let d = code.n - code.k;
    let g = generator::generator(code.m, code.row, d);
    let end = d + 1;
    place_message(d, message, word);
    add_parity(word, &g[..end], d);
}

// The message from place d on, and zeros everywhere else.
fn place_message(d: usize, message: &[u8], word: &mut [u8])
    requires { d + length message.now ≤ length word.old }
    ensures { word.new ≡ paste (replicate (length word.old) 0) d message.now (length message.now) }
{
    bits::clear(word);
    bits::copy_at(word, d, message);
}

// Adds to the word, which is clear below place d, what is left of it after division by g of degree d.
fn add_parity(word: &mut [u8], g: &[u8], d: usize)
    requires { Divisible d g.now word.old }
    ensures { WithParity d g.now word.old word.new }
{
    let n = word.len();
    let mut space = [0; 1024];
    bits::copy_at(&mut space, 0, word);
    generator::reduce(&mut space[..n], g, d);
    bits::add_at(word, 0, &space[..d]);
}

// The code word that carries the message, at the front of room for any word.
pub fn code_word(code: Code, message: &[u8]) -> [u8; 1024]
    requires { MessageOf code message.now }
    ensures { Encoding code.m code.t code.k message.now (take code.n result) × (1024 ≡ length result) }
{
    let n = code.n;
    let mut space = [0; 1024];
    fill_word(code, message, &mut space[..n]);
    space
}

// The change of a message: from `start` on, the sum of the stretch and the old bits, which stand in the word from place `at` on; zeros elsewhere.
pub fn message_change(word: &[u8], at: usize, start: usize, stretch: &[u8]) -> [u8; 1024]
    requires { StretchFits word.now at start stretch.now }
    ensures { MessageChange word.now at start stretch.now result }
{
    let end = at + stretch.len();
    let mut change = [0; 1024];
    bits::add_at(&mut change, start, stretch);
    bits::add_at(&mut change, start, &word[at..end]);
    change
}
