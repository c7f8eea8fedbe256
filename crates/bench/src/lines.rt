// The lines of the bench's input.
ghost use Rattle.std.specs.Prelude.{◌≡◌, ◌≤◌, length, IfOk, IfSome};
ghost use Rattle.bench.specs.Lines.{ending, erasing, reading, writing, parsed, line_of};

use bench_requests::Request;
use line_input::{InputError, LineError};
use std::io::Read;

// The request, if its last field ends the line.
fn end_line(line: &[u8], end: usize, request: Request) -> Option<Request>
    ensures { result ≡ ending line.now end request }
{
    (end == line.len()).then_some(request)
}

#[tactic(auto, unfolding(crate::specs::Lines::erasing))]
fn parse_erase(line: &[u8]) -> Option<Request>
    ensures { result ≡ erasing line.now }
{
    let block = line_input::field_at(line, 1, 10)?;
    end_line(line, block.end, Request::Erase(block.value))
}

#[tactic(auto, unfolding(crate::specs::Lines::reading))]
fn parse_read(line: &[u8]) -> Option<Request>
    ensures { result ≡ reading line.now }
{
    let block = line_input::field_at(line, 1, 10)?;
    let page = line_input::field_at(line, block.end, 10)?;
    end_line(line, page.end, Request::Read(block.value, page.value))
}

#[tactic(auto, unfolding(crate::specs::Lines::writing))]
fn parse_write(line: &[u8]) -> Option<Request>
    ensures { result ≡ writing line.now }
{
    let block = line_input::field_at(line, 1, 10)?;
    let page = line_input::field_at(line, block.end, 10)?;
    let byte = line_input::field_at(line, page.end, 16)?;
    let filling = u8::try_from(byte.value).ok()?;
    end_line(
        line,
        byte.end,
        Request::Write(block.value, page.value, filling),
    )
}

// A request is its letter and its fields, each after one space, and nothing else. Block and page are decimal, the byte
// is hexadecimal. Any other line is malformed, and ends the run.
#[tactic(auto, unfolding(crate::specs::Lines::parsed, crate::specs::Lines::by_letter))]
fn parse(line: &[u8]) -> Option<Request>
    ensures { result ≡ parsed line.now }
{
    match line.first()? {
        b'F' => end_line(line, 1, Request::Format),
        b'W' => parse_write(line),
        b'R' => parse_read(line),
        b'E' => parse_erase(line),
        _ => None,
    }
}

// What a read says that gave a line in these bytes so.
fn line_of(
    read: Result<Option<usize>, LineError>,
    bytes: &[u8],
) -> Result<Option<Request>, InputError>
    requires { IfOk read (λ given. IfSome given (λ n. n ≤ length bytes.now)) }
    ensures { result ≡ line_of read bytes.now }
{
    match read? {
        Some(length) => match parse(&bytes[..length]) {
            Some(request) => Ok(Some(request)),
            None => Err(InputError::Malformed),
        },
        None => Ok(None),
    }
}

// The next request, none at the end of the input.
pub(crate) fn next_request(reader: &mut impl Read) -> Result<Option<Request>, InputError> {
    let mut bytes = [0u8; 64];
    let read = line_input::read_line(reader, &mut bytes);
    line_of(read, &bytes)
}
