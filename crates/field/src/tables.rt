// The tables of a field with what they hold, for functions that hand them on.

ghost use Rattle.std.specs.Prelude.{◌≡◌, ◌^◌, ◌<◌};
ghost use Rattle.field.specs.Product.{IsField, ◌⊗⟨◌⟩◌};
ghost use Rattle.field.specs.Power.{power, inverse};
ghost use Rattle.field.specs.Tables.{Powers, Tables};

// The powers of a in the field of 2^m elements.
#[derive(Clone, Copy)]
pub struct PowerTable<'a> {
    pub m: usize,
    pub powers: &'a [u16],
    pub ghost is_field: { IsField m },
    pub ghost hold: { Powers m powers.now },
}

// The powers of a and the logarithms, by which elements are multiplied.
#[derive(Clone, Copy)]
pub struct FieldTables<'a> {
    pub m: usize,
    pub powers: &'a [u16],
    pub logs: &'a [u16],
    pub ghost hold: { Tables m powers.now logs.now },
}

impl<'a> FieldTables<'a> {
    pub fn product(&self, x: u16, y: u16) -> u16
        requires { (x < 2 ^ self.now.m) × (y < 2 ^ self.now.m) }
        ensures { result ≡ x ⊗⟨ self.now.m ⟩ y }
    {
        crate::product(self.m, self.powers, self.logs, x, y)
    }

    pub fn power(&self, x: u16, e: usize) -> u16
        requires { x < 2 ^ self.now.m }
        ensures { result ≡ power self.now.m x e }
    {
        crate::power(self.m, self.powers, self.logs, x, e)
    }

    pub fn inverse(&self, x: u16) -> u16
        requires { x < 2 ^ self.now.m }
        ensures { result ≡ inverse self.now.m x }
    {
        crate::inverse(self.m, self.powers, self.logs, x)
    }
}
