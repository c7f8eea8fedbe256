// The input, line by line.
ghost use Rattle.std.specs.Prelude.{◌≡◌, ◌≤◌, length, IfOk, IfSome};
ghost use Rattle.line_input.specs.Input.{byte_got, byte_of_line, ending_by, input_error};

use std::io::Read;
use std::{fmt, io};

// Why no line was read, although the input has not ended.
#[derive(Clone, Copy, Debug, PartialEq, Eq)]
pub enum LineError {
    // The line did not end in the bytes lent for it.
    TooLong,
    // A read failed: what came before it is no line.
    Unreadable,
}

impl fmt::Display for LineError {
    fn fmt<W: fmt::Write>(&self, f: &mut fmt::Formatter<W>) -> fmt::Result {
        match self {
            LineError::TooLong => write!(f, "a line is too long"),
            LineError::Unreadable => write!(f, "the input cannot be read"),
        }
    }
}

// Why the input says nothing that a program takes.
#[derive(Clone, Copy, Debug, PartialEq, Eq)]
pub enum InputError {
    // A line that is too long is one too.
    Malformed,
    Unreadable,
}

impl From<LineError> for InputError {
    ghost from_gives = { λ error given. given ≡ input_error error };

    fn from(error: LineError) -> InputError {
        match error {
            LineError::TooLong => InputError::Malformed,
            LineError::Unreadable => InputError::Unreadable,
        }
    }
}

impl fmt::Display for InputError {
    fn fmt<W: fmt::Write>(&self, f: &mut fmt::Formatter<W>) -> fmt::Result {
        match self {
            InputError::Malformed => write!(f, "malformed line"),
            InputError::Unreadable => write!(f, "the input cannot be read"),
        }
    }
}

// What a read of one byte gave that answered so: none at the end of the input.
fn byte_got(got: io::Result<usize>, byte: u8) -> Result<Option<u8>, LineError>
    ensures { result ≡ byte_got got byte }
{
    match got {
        Ok(0) => Ok(None),
        Ok(1) => Ok(Some(byte)),
        _ => Err(LineError::Unreadable),
    }
}

fn read_byte(reader: &mut impl Read) -> Result<Option<u8>, LineError> {
    let mut byte = [0u8; 1];
    let got = reader.read(&mut byte);
    byte_got(got, byte[0])
}

// The byte with which a line goes on; none where what comes next ends it.
fn byte_of_line(next: Result<Option<u8>, LineError>) -> Option<u8>
    ensures { result ≡ byte_of_line next }
{
    match next {
        Ok(Some(byte)) if byte != b'\n' => Some(byte),
        _ => None,
    }
}

// How a line of this length ends by what comes next: its length, or none if the input had ended before it. A byte is one too many.
fn ending_by(next: Result<Option<u8>, LineError>, length: usize) -> Result<Option<usize>, LineError>
    ensures { result ≡ ending_by next length }
{
    match next? {
        Some(b'\n') => Ok(Some(length)),
        Some(_) => Err(LineError::TooLong),
        None => Ok((length != 0).then_some(length)),
    }
}

// Reads the next line, which ends with a newline, or with the input after one byte at least, and answers its length without the
// newline, which must come before the slice is full. None if the input had ended. It takes no byte after the newline.
pub fn read_line(reader: &mut impl Read, line: &mut [u8]) -> Result<Option<usize>, LineError>
    ensures { IfOk result (λ read. IfSome read (λ n. n ≤ length line.new)) }
{
    for (length, place) in line.iter_mut().enumerate() {
        let next = read_byte(reader);
        match byte_of_line(next) {
            Some(byte) => *place = byte,
            None => return ending_by(next, length),
        }
    }
    Err(LineError::TooLong)
}
