// The commands and their names.

#[derive(Clone, Copy)]
pub enum Command {
    Word,
    Fill,
    Stretch,
    Code,
    Bit,
    Sum,
    Sizes,
    Describe,
    Encode,
    Decode,
    Edit,
    Open,
    Splice,
    DecodeKept,
    Make,
    Read,
    Look,
    Part,
    Book,
}

pub fn command_of(name: &[u8]) -> Option<Command> {
    match name {
        b"word" => Some(Command::Word),
        b"fill" => Some(Command::Fill),
        b"stretch" => Some(Command::Stretch),
        b"code" => Some(Command::Code),
        b"bit" => Some(Command::Bit),
        b"sum" => Some(Command::Sum),
        b"sizes" => Some(Command::Sizes),
        b"describe" => Some(Command::Describe),
        b"encode" => Some(Command::Encode),
        b"decode" => Some(Command::Decode),
        b"edit" => Some(Command::Edit),
        b"open" => Some(Command::Open),
        b"splice" => Some(Command::Splice),
        b"kept" => Some(Command::DecodeKept),
        b"make" => Some(Command::Make),
        b"read" => Some(Command::Read),
        b"look" => Some(Command::Look),
        b"part" => Some(Command::Part),
        b"book" => Some(Command::Book),
        _ => None,
    }
}
