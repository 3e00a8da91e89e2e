// The mark of a trailer: the writer puts it down, and the reader compares with it.

ghost use Rattle.std.specs.Prelude.{◌≡◌};
ghost use Rattle.book.specs.Book.{mark};

pub(crate) fn mark_bytes() -> [u8; 4]
    ensures { result ≡ mark }
{
    [b'P', b'O', b'L', b'L']
}
