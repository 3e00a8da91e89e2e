// The places that a search has found.

ghost use Rattle.std.specs.Prelude.{◌≡◌, ◌≤◌, take};

// Wrong places of a word, at the front of room for as many as any code can mend.
#[derive(Clone, Copy)]
pub struct Places {
    pub room: [u16; 255],
    pub count: usize,
    pub ghost within: { count ≤ 255 },
}

impl Places {
    pub fn as_slice(&self) -> &[u16]
        ensures { result.now ≡ take self.now.count self.now.room }
    {
        &self.room[..self.count]
    }
}
