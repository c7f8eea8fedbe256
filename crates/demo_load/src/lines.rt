// The line that asks for a load: seed and count.
ghost use Rattle.std.specs.Prelude.{◌≡◌, ◌≤◌, length, IfOk, IfSome};
ghost use Rattle.demo_load.specs.Lines.{fitting, parsed, line_of};

use line_input::{InputError, LineError};
use std::io::Read;

#[derive(Clone, Copy, Debug, PartialEq, Eq)]
pub struct Load {
    pub seed: u32,
    pub count: u32,
}

// Both numbers, where they fit 32 bits.
fn fit(seed: usize, count: usize) -> Option<Load>
    ensures { result ≡ fitting seed count }
{
    Some(Load {
        seed: u32::try_from(seed).ok()?,
        count: u32::try_from(count).ok()?,
    })
}

// A decimal seed, one space and a decimal count, and nothing else.
#[tactic(auto, unfolding(crate::specs::Lines::parsed))]
fn parse(line: &[u8]) -> Option<Load>
    ensures { result ≡ parsed line.now }
{
    let seed = line_input::number_at(line, 0, 10)?;
    let count = line_input::field_at(line, seed.end, 10)?;
    if count.end != line.len() {
        return None;
    }
    fit(seed.value, count.value)
}

// What a read says that gave a line in these bytes so. The end of the input is malformed too: it asks for no load.
fn line_of(read: Result<Option<usize>, LineError>, bytes: &[u8]) -> Result<Load, InputError>
    requires { IfOk read (λ given. IfSome given (λ n. n ≤ length bytes.now)) }
    ensures { result ≡ line_of read bytes.now }
{
    match read? {
        Some(length) => parse(&bytes[..length]).ok_or(InputError::Malformed),
        None => Err(InputError::Malformed),
    }
}

pub(crate) fn next_load(reader: &mut impl Read) -> Result<Load, InputError> {
    let mut bytes = [0u8; 64];
    let read = line_input::read_line(reader, &mut bytes);
    line_of(read, &bytes)
}
