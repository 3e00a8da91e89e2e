// Finding a byte in a text.

ghost use Rattle.std.specs.Prelude.{◌≡◌, ◌≢◌, ◌≤◌, ◌<◌, ℕ, length, slice_index};

// The first place from `start` on that holds the byte, or the end of the text where none does.
// The end and no Option: who asks wants to know how far a word goes, and one that nothing ends goes to the end of the text.
pub fn find(text: &[u8], start: usize, byte: u8) -> usize
    requires { start ≤ length text.now }
    ensures low { start ≤ result }
    ensures high { result ≤ length text.now }
    ensures found { result < length text.now → slice_index text.now result ≡ byte }
    ensures first { (k : ℕ) → start ≤ k → k < result → slice_index text.now k ≢ byte }
{
    start + first(&text[start..], byte)
}

fn first(text: &[u8], byte: u8) -> usize
    ensures high { result ≤ length text.now }
    ensures found { result < length text.now → slice_index text.now result ≡ byte }
    ensures none { (k : ℕ) → k < result → slice_index text.now k ≢ byte }
{
    text.iter().position(|b| *b == byte).unwrap_or(text.len())
}
