// Numbers in a line of input, and the lines that a reader gives.
#![tactic(auto)]

mod lines;

ghost use Rattle.std.specs.Prelude.{◌≡◌, ◌≤◌};
ghost use Rattle.line_input.specs.Fields.{digit_of, appended, some_digit, number_at, field_at};

pub use lines::{InputError, LineError, read_line};

// A number of a line, and where it ends.
#[derive(Clone, Copy, Debug, PartialEq, Eq)]
pub struct Number {
    pub value: usize,
    pub end: usize,
}

// Numbers above 32 bits count as this one.
const GREATEST: usize = 4294967296;

// The value of a digit of this base, in either case of its letter.
#[tactic(auto, unfolding(crate::specs::Fields::digit_value))]
fn digit(byte: u8, base: u8) -> Option<u8>
    ensures { result ≡ digit_of base byte }
{
    let value = match byte {
        b'0'..=b'9' => byte - b'0',
        b'A'..=b'F' => byte - b'A' + 10,
        b'a'..=b'f' => byte - b'a' + 10,
        _ => return None,
    };
    (value < base).then_some(value)
}

// The number one digit on.
#[tactic(auto, unfolding(crate::specs::Fields::appended))]
fn append(number: usize, base: u8, digit: u8) -> usize
    requires { number ≤ 4294967296 }
    ensures value { result ≡ appended number base digit }
    ensures upper_bound { result ≤ 4294967296 }
{
    GREATEST.min(number * usize::from(base) + usize::from(digit))
}

// A number without a digit is none.
fn some_digit(first: usize, number: Number) -> Option<Number>
    ensures { result ≡ some_digit first number }
{
    (number.end != first).then_some(number)
}

// The number at a place of the line: the digits of this base up to the next byte that is none.
pub fn number_at(line: &[u8], at: usize, base: u8) -> Option<Number>
    ensures { result ≡ number_at line.now at base }
{
    let mut number = Number { value: 0, end: at };
    for &byte in line.get(at..)? {
        let Some(digit) = digit(byte, base) else {
            return some_digit(at, number);
        };
        number.value = append(number.value, base, digit);
        number.end += 1;
    }
    some_digit(at, number)
}

// The field at a place of the line: one space and a number.
#[tactic(auto, unfolding(crate::specs::Fields::field_at))]
pub fn field_at(line: &[u8], at: usize, base: u8) -> Option<Number>
    ensures { result ≡ field_at line.now at base }
{
    match line.get(at)? {
        b' ' => number_at(line, at + 1, base),
        _ => None,
    }
}
