// What room is filled with before it is lent: no operation writes it, so that what is written is seen.

// No bit.
pub(crate) const NO_BIT: u8 = 170;

// No place.
pub(crate) const NO_PLACE: u16 = 43690;
