// A typed line, `house poll counter`, read into a reading.

#![tactic(auto)]

ghost use Rattle.std.specs.Prelude.{◌^◌, ◌-◌, ◌≡◌, ◌==◌, position};
ghost use Rattle.typed.specs.Says.{Answers};
ghost use Rattle.typed.specs.Work.{AnswersThen, AnswersNumber, AnswersDigit};

use layout::Reading;

// The line comes without its end.
pub fn read(line: &[u8]) -> Option<Reading>
    ensures { Answers line.now result }
{
    let (house, rest) = number_then(line)?;
    let (poll, rest) = number_then(rest)?;
    let counter = number(rest)?;
    Some(Reading {
        house,
        poll,
        counter,
    })
}

// A number below 65,536, and what follows the blank after it.
fn number_then(line: &[u8]) -> Option<(u16, &[u8])>
    ensures { AnswersThen line.now result }
{
    let end = first_blank(line)?;
    let number = u16::try_from(number(&line[..end])?).ok()?;
    let rest = &line[end + 1..];
    Some((number, rest))
}

fn first_blank(line: &[u8]) -> Option<usize>
    ensures { result ≡ position (λ b. b == 32) line.now }
{
    line.iter().position(|byte| *byte == b' ')
}

// A number of 1 to 20 digits that 64 bits hold.
fn number(text: &[u8]) -> Option<u64>
    ensures { AnswersNumber text.now (2 ^ 64) result }
{
    if text.is_empty() || 20 < text.len() {
        return None;
    }
    let mut value = 0;
    for byte in text {
        value = with_digit(value, *byte)?;
    }
    Some(value)
}

// A number with one more digit after it.
fn with_digit(value: u64, byte: u8) -> Option<u64>
    ensures { AnswersDigit value byte (2 ^ 64 - 1) result }
{
    if !byte.is_ascii_digit() {
        return None;
    }
    value.checked_mul(10)?.checked_add(u64::from(byte - b'0'))
}
