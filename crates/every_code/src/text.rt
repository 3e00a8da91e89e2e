// Writing to standard output: numbers and bits.

use input::STDOUT_FILENO;

// A number with a blank before it.
pub(crate) fn print_number(x: u64) {
    io::write_all(STDOUT_FILENO, b" ");
    io::print_decimal(STDOUT_FILENO, x);
}

// The digit of a bit. A value above 1 shows as a question mark.
fn digit(bit: u8) -> u8 {
    match bit {
        0 => b'0',
        1 => b'1',
        _ => b'?',
    }
}

fn make_digits(bits: &mut [u8]) {
    for bit in bits.iter_mut() {
        *bit = digit(*bit);
    }
}

// The digits of a word with a blank before them, place 0 first. They stand where the bits stood.
pub(crate) fn print_bits(bits: &mut [u8]) {
    make_digits(bits);
    io::write_all(STDOUT_FILENO, b" ");
    io::write_all(STDOUT_FILENO, bits);
}
