// The lines of sales: selection, count, price in cents, and the number of the record that is replaced.
ghost use Rattle.std.specs.Prelude.{◌≡◌, ◌≤◌, length, IfOk, IfSome};
ghost use Rattle.demo_journal.specs.Lines.{fitting, parsed, line_of};

use journal::Sale;
use line_input::LineError;
use std::io::Read;

// The sale, where its numbers fit a record.
#[tactic(auto, unfolding(crate::specs::Lines::fitting))]
fn fit(selection: usize, count: usize, price: usize, replaces: usize) -> Option<Sale>
    ensures { result ≡ fitting selection count price replaces }
{
    Some(Sale {
        selection: u8::try_from(selection).ok()?,
        count: u16::try_from(count).ok()?,
        price: u32::try_from(price).ok()?,
        replaces: u16::try_from(replaces).ok()?,
    })
}

// Four decimal numbers with one space between each two, and nothing else.
#[tactic(auto, unfolding(crate::specs::Lines::parsed))]
fn parse(line: &[u8]) -> Option<Sale>
    ensures { result ≡ parsed line.now }
{
    let selection = line_input::number_at(line, 0, 10)?;
    let count = line_input::field_at(line, selection.end, 10)?;
    let price = line_input::field_at(line, count.end, 10)?;
    let replaces = line_input::field_at(line, price.end, 10)?;
    if replaces.end != line.len() {
        return None;
    }
    fit(selection.value, count.value, price.value, replaces.value)
}

// What a read says that gave a line in these bytes so: none at the end of the input, and no sale in a malformed line.
fn line_of(
    read: Result<Option<usize>, LineError>,
    bytes: &[u8],
) -> Result<Option<Option<Sale>>, LineError>
    requires { IfOk read (λ given. IfSome given (λ n. n ≤ length bytes.now)) }
    ensures { result ≡ line_of read bytes.now }
{
    match read? {
        Some(length) => Ok(Some(parse(&bytes[..length]))),
        None => Ok(None),
    }
}

pub(crate) fn next_line(reader: &mut impl Read) -> Result<Option<Option<Sale>>, LineError> {
    let mut bytes = [0u8; 64];
    let read = line_input::read_line(reader, &mut bytes);
    line_of(read, &bytes)
}
