// Reading standard input: one read into a buffer that may hold bytes already, and all of it as far as there is room.

#![tactic(auto)]

ghost use Rattle.std.specs.Prelude.{◌≤◌, length};
ghost use Rattle.std.specs.Result.{result_unwrap_or};
ghost use Rattle.input.specs.Reads.{ReadsAfter, ReadsOn};

use std::io;
use std::io::Read;

// The numbers that the system gives the streams a program writes on.
pub const STDOUT_FILENO: i32 = 1;

pub const STDERR_FILENO: i32 = 2;

// Reads at most `left` bytes into the buffer, after the bytes that it holds. 0 bytes are the end of the input, or no room.
pub fn read_after<R: Read>(
    reader: &mut R,
    held: usize,
    left: usize,
    buffer: &mut [u8],
) -> io::Result<usize>
    requires { held ≤ length buffer.old }
    ensures { ReadsAfter held left buffer.old buffer.new (result_unwrap_or result 0) }
{
    let most = held + left.min(buffer.len() - held);
    reader.read(&mut buffer[held..most])
}

// What came, and whether a read failed after it: a caller may use what came before a failure, so that the two stand side by side.
#[derive(Clone, Copy)]
pub struct Came {
    pub count: usize,
    pub failed: bool,
}

// Reads until the buffer is full, the input ends or a read fails.
pub fn read_whole<R: Read>(reader: &mut R, buffer: &mut [u8]) -> Came
    ensures { ReadsOn buffer.old result.count buffer.new × (result.count ≤ length buffer.new) }
{
    let room = buffer.len();
    let mut held = 0;
    // A `while`, since a read moves `held` by what has come.
    while held < room {
        match read_after(reader, held, room, buffer) {
            Ok(0) => break,
            Ok(count) => held += count,
            Err(_) => {
                return Came {
                    count: held,
                    failed: true,
                };
            }
        }
    }
    Came {
        count: held,
        failed: false,
    }
}
