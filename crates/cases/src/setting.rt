// The lent word and the lent stretch.

ghost use Rattle.std.specs.Prelude.{◌≡◌, ◌≤◌, length};

use crate::showing::not_understood;
use commands::numbers::number_at;

fn put_byte(word: &mut [u8], place: usize, value: usize) -> bool
    ensures { length word.new ≡ length word.old }
{
    if place < word.len() && value < 256 {
        word[place] = value as u8;
        return true;
    }
    false
}

// Zeros but for the pairs of a place and a value that follow the first number. Whether they are pairs, each of a place that is there and a byte.
fn put_pairs(numbers: &[usize], word: &mut [u8]) -> bool {
    word.fill(0);
    for i in (1..numbers.len()).step_by(2) {
        if !put_byte(word, numbers[i], number_at(numbers, i + 1)) {
            return false;
        }
    }
    numbers.len() % 2 == 1
}

// A word of zeros but for some places, at the front of the room. Gives its length, which is 0 where the line is not understood, here and below:
// the lent word is then a word of no places, so that no caller has a case for it.
pub(crate) fn set_places(line: u64, numbers: &[usize], room: &mut [u8]) -> usize
    ensures { result ≤ length room.old }
{
    let n = number_at(numbers, 0);
    if n > room.len() {
        not_understood(line);
        return 0;
    }
    if !put_pairs(numbers, &mut room[..n]) {
        not_understood(line);
        return 0;
    }
    n
}

// A word that holds the same at every place.
pub(crate) fn set_all(line: u64, numbers: &[usize], room: &mut [u8]) -> usize
    ensures { result ≤ length room.old }
{
    let n = number_at(numbers, 0);
    let value = number_at(numbers, 1);
    if numbers.len() == 2 && n <= room.len() && value < 256 {
        room[..n].fill(value as u8);
        return n;
    }
    not_understood(line);
    0
}
