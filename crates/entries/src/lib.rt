// Rows of 16-bit entries: looking at them, and writing down a list of places.

#![tactic(auto)]

ghost use Rattle.std.specs.Prelude.{◌≡◌, ◌++◌, ◌-◌, ◌≤◌, length, replicate};
ghost use Rattle.entries.specs.Entries.{AllZero};

pub fn all_zero(entries: &[u16]) -> bool
    ensures { AllZero (length entries.now) entries.now result }
{
    entries.iter().all(|entry| *entry == 0)
}

// The list becomes the places, then zeros.
pub fn put_list(places: &[u16], list: &mut [u16])
    requires { length places.now ≤ length list.old }
    ensures { list.new ≡ places.now ++ replicate (length list.old - length places.now) 0 }
{
    let end = places.len();
    list[..end].copy_from_slice(places);
    list[end..].fill(0);
}
