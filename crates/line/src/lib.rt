// One line of the listing, or the line of an input that is refused as a whole, into a lent buffer.

#![tactic(auto)]

ghost use Rattle.std.specs.Prelude.{◌+◌, ◌≤◌, length};
ghost use Rattle.line.specs.Line.{decimal, read_line, refused_line, refusal_line, line_of, Writes};
ghost use Rattle.line.specs.Work.{Put, PutField};

use frame::ReadFrame;
use layout::Reading;
use sheet::Refusal;

// The line of frame `number`; any line fits into 128 bytes. Gives its length.
pub fn write_line(number: u64, answer: Result<ReadFrame, Refusal>, out: &mut [u8]) -> usize
    requires { 128 ≤ length out.old }
    ensures { Writes (line_of number answer) out.old out.new result }
{
    match answer {
        Ok(ReadFrame { reading, wrong }) => write_read(number, reading, wrong, out),
        Err(refusal) => write_refused(number, refusal, out),
    }
}

fn write_read(number: u64, reading: Reading, wrong: usize, out: &mut [u8]) -> usize
    requires { 128 ≤ length out.old }
    ensures { Writes (read_line number reading wrong) out.old out.new result }
{
    let house_at = put_field(out, 0, number, b" read ");
    let poll_at = put_field(out, house_at, u64::from(reading.house), b" ");
    let counter_at = put_field(out, poll_at, u64::from(reading.poll), b" ");
    let wrong_at = put_field(out, counter_at, reading.counter, b" ");
    put_field(out, wrong_at, wrong as u64, b"\n")
}

fn write_refused(number: u64, refusal: Refusal, out: &mut [u8]) -> usize
    requires { 128 ≤ length out.old }
    ensures { Writes (refused_line number refusal) out.old out.new result }
{
    let at = put_field(out, 0, number, b" refused ");
    put_field(out, at, u64::from(u32::from(refusal)), b"\n")
}

// The line of an input that is refused as a whole. Gives its length.
pub fn write_refusal(refusal: Refusal, out: &mut [u8]) -> usize
    requires { 128 ≤ length out.old }
    ensures { Writes (refusal_line refusal) out.old out.new result }
{
    bits::copy_at(out, 0, b"refused ");
    put_field(out, 8, u64::from(u32::from(refusal)), b"\n")
}

// A number and the text after it, from index `at` on. Gives the index past them. `write!` would give a `Result` here, for an error that cannot come:
// that there is room is proved.
pub fn put_field(out: &mut [u8], at: usize, n: u64, after: &[u8]) -> usize
    requires { at + 20 + length after.now ≤ length out.old }
    ensures { PutField out.old at n after.now out.new result }
{
    let end = put_decimal(out, at, n);
    bits::copy_at(out, end, after);
    end + after.len()
}

// The same for a number alone: first the digits before its last one, then the last one.
fn put_decimal(out: &mut [u8], at: usize, n: u64) -> usize
    requires { at + length (decimal n) ≤ length out.old }
    ensures { Put out.old at (decimal n) out.new result }
{
    if n < 10 {
        out[at] = b'0' + n as u8;
        return at + 1;
    }
    let last = put_decimal(out, at, n / 10);
    out[last] = b'0' + (n % 10) as u8;
    last + 1
}
