// Reading the decimal numbers of a line.

ghost use Rattle.std.specs.Prelude.{◌≤◌, length, IfSome};

// The number that the digits spell, if they are one and it fits.
fn value_of(digits: &[u8]) -> Option<usize> {
    if digits.is_empty() {
        return None;
    }
    let mut value: usize = 0;
    for digit in digits {
        if !digit.is_ascii_digit() {
            return None;
        }
        let units = usize::from(*digit - b'0');
        value = value.checked_mul(10)?.checked_add(units)?;
    }
    Some(value)
}

// The numbers of a line from the blank there on, each after one blank. Gives how many there are, if they are all numbers and there is room for them.
pub fn fill_numbers(line: &[u8], from: usize, numbers: &mut [usize]) -> Option<usize>
    requires { from ≤ length line.now }
    ensures { IfSome result (λ count. count ≤ length numbers.new) }
{
    let mut count = 0;
    for digits in line[from..].split(|byte| *byte == b' ').skip(1) {
        *numbers.get_mut(count)? = value_of(digits)?;
        count += 1;
    }
    Some(count)
}

// The number there, or 0 where there is none.
pub fn number_at(numbers: &[usize], place: usize) -> usize {
    numbers.get(place).copied().unwrap_or(0)
}
