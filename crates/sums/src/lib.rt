// The sums of words and of places: S_1, S_3, .. S_(2t-1) in a row of t entries.

#![tactic(auto)]

ghost use Rattle.std.specs.Prelude.{◌≡◌, ℕ, ◌≤◌, ◌<◌, length, get_or, take, replicate};
ghost use Rattle.bits.specs.Bits.{AreBits};
ghost use Rattle.entries.specs.Entries.{Filled};
ghost use Rattle.field.specs.Product.{IsField};
ghost use Rattle.field.specs.Power.{a, n_of, power};
ghost use Rattle.field.specs.Tables.{Powers};
ghost use Rattle.sums.specs.Rows.{plus_power, word_sum, place_sum, Ones};
ghost use Rattle.sums.specs.OddSums.{OddSums};

// Adds x, x^3, x^5, .. to the first t entries, where x is a^p. The exponents of a are p, 3p, 5p, ..
pub fn add_place(m: usize, powers: &[u16], p: usize, t: usize, sums: &mut [u16])
    requires { (IsField m) × (Powers m powers.now) × (p < n_of m) × (t ≤ length sums.old) }
    ensures { Filled (plus_power m (power m a p) sums.old) t sums.old sums.new }
{
    let n = field::n_of(m);
    let step = field::around(n, 2 * p);
    walks::add_walk(m, powers, p, step, t, sums);
}

// The first t entries become the odd sums of the places.
pub fn place_sums(m: usize, powers: &[u16], t: usize, places: &[u16], sums: &mut [u16])
    requires { (IsField m) × (Powers m powers.now) × ((i : ℕ) → i < length places.now → get_or places.now i 0 < n_of m)
        × (t ≤ length sums.old) }
    ensures { Filled (place_sum m places.now) t sums.old sums.new }
{
    sums[..t].fill(0);
    for place in places {
        add_place(m, powers, usize::from(*place), t, sums);
    }
}

// Writes down the places of a word that hold 1, and answers how many there are. It does not branch on the bits, since a processor cannot predict them.
fn list_ones(word: &[u8], places: &mut [u16]) -> usize
    requires { (AreBits word.now) × (length word.now ≤ 1023) × (1023 ≡ length places.old) }
    ensures { Ones word.now result places.new }
{
    let mut count = 0;
    for (i, bit) in word.iter().enumerate() {
        places[count] = i as u16;
        count += usize::from(*bit);
    }
    count
}

// The first t entries become the odd sums S_1, S_3, .. of the word.
fn word_sums(m: usize, powers: &[u16], t: usize, word: &[u8], sums: &mut [u16])
    requires { (IsField m) × (Powers m powers.now) × (AreBits word.now) × (length word.now ≡ n_of m) × (t ≤ length sums.old) }
    ensures { Filled (word_sum m word.now) t sums.old sums.new }
{
    let mut places = [0; 1023];
    let count = list_ones(word, &mut places);
    place_sums(m, powers, t, &places[..count], sums);
}

// S_1, S_3, .. S_(2t-1) of a word, in room of their own, then zeros.
pub fn odd_sums(m: usize, t: usize, powers: &[u16], word: &[u8]) -> [u16; 255]
    requires { IsField m × Powers m powers.now × AreBits word.now × (length word.now ≡ n_of m) × (t ≤ 255) }
    ensures { OddSums m t word.now result }
{
    let mut sums = [0; 255];
    word_sums(m, powers, t, word, &mut sums);
    sums
}
