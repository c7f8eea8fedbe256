// The cycles of an operation one by one, as a logic analyser shows them: the i-th cycle of a reset, a status read, a read, a
// program and an erase, from the numbers that tell the operation.
#![tactic(auto, unfolding(crate::specs::Capture::cycle_at))]

ghost use Rattle.std.specs.Prelude.{◌≡◌};
ghost use Rattle.bus_sequences.specs.Cycles.{reset_cycles, status_cycles, address_cycles, row_cycles};
ghost use Rattle.capture.specs.Capture.{cycle_at, polled_cycles, output_cycles, fetch_capture, read_capture, program_capture, erase_capture};

// One cycle of the bus. The byte of a data output cycle and of a status read is the chip's.
#[derive(Clone, Copy, Debug, PartialEq, Eq)]
pub enum Captured {
    Command(u8),
    Address(u8),
    DataIn(u8),
    DataOut,
    Status,
}

// Three row bytes.
fn row_byte(row: usize, i: usize) -> Option<Captured>
    ensures { result ≡ cycle_at (row_cycles row) i }
{
    let middle = geometry::high_part(row);
    match i {
        0 => Some(Captured::Address(geometry::low_byte(row))),
        1 => Some(Captured::Address(geometry::low_byte(middle))),
        2 => Some(Captured::Address(geometry::low_byte(geometry::high_part(middle)))),
        _ => None,
    }
}

// Two column bytes and three row bytes.
fn address_byte(column: usize, row: usize, i: usize) -> Option<Captured>
    ensures { result ≡ cycle_at (address_cycles column row) i }
{
    match i {
        0 => Some(Captured::Address(geometry::low_byte(column))),
        1 => Some(Captured::Address(geometry::low_byte(geometry::high_part(column)))),
        _ => row_byte(row, i - 2),
    }
}

// The confirm cycle, 70h and the status reads.
fn polled_cycle(code: u8, polls: usize, i: usize) -> Option<Captured>
    ensures { result ≡ cycle_at (polled_cycles code polls) i }
{
    match i {
        0 => Some(Captured::Command(code)),
        1 => Some(Captured::Command(0x70)),
        _ => (i - 2 < polls).then_some(Captured::Status),
    }
}

// 00h and the bytes that are put out.
fn output_cycle(moved: usize, i: usize) -> Option<Captured>
    ensures { result ≡ cycle_at (output_cycles moved) i }
{
    match i {
        0 => Some(Captured::Command(0x00)),
        _ => (i - 1 < moved).then_some(Captured::DataOut),
    }
}

// Reset: FFh, 70h, one status read. None past the last cycle, here and below.
pub fn reset_cycle(i: usize) -> Option<Captured>
    ensures { result ≡ cycle_at reset_cycles i }
{
    match i {
        0 => Some(Captured::Command(0xff)),
        1 => Some(Captured::Command(0x70)),
        2 => Some(Captured::Status),
        _ => None,
    }
}

// The status: 70h, one status read.
pub fn status_cycle(i: usize) -> Option<Captured>
    ensures { result ≡ cycle_at status_cycles i }
{
    match i {
        0 => Some(Captured::Command(0x70)),
        1 => Some(Captured::Status),
        _ => None,
    }
}

// A read up to its last status read: 00h, five address bytes, 30h, 70h, the status reads.
pub fn fetch_cycle(row: usize, column: usize, polls: usize, i: usize) -> Option<Captured>
    ensures { result ≡ cycle_at (fetch_capture row column polls) i }
{
    match i {
        0 => Some(Captured::Command(0x00)),
        1..=5 => address_byte(column, row, i - 1),
        _ => polled_cycle(0x30, polls, i - 6),
    }
}

// A read that passed: after that 00h and the bytes moved.
pub fn read_cycle(
    row: usize,
    column: usize,
    moved: usize,
    polls: usize,
    i: usize,
) -> Option<Captured>
    ensures { result ≡ cycle_at (read_capture row column moved polls) i }
{
    if i < 8 || i - 8 < polls {
        return fetch_cycle(row, column, polls, i);
    }
    output_cycle(moved, i - 8 - polls)
}

// Program: 80h, five address bytes, the data, 10h, 70h, the status reads.
pub fn program_cycle(row: usize, data: &[u8], polls: usize, i: usize) -> Option<Captured>
    ensures { result ≡ cycle_at (program_capture row «data».now polls) i }
{
    match i {
        0 => Some(Captured::Command(0x80)),
        1..=5 => address_byte(0, row, i - 1),
        _ => match data.get(i - 6) {
            Some(&byte) => Some(Captured::DataIn(byte)),
            None => polled_cycle(0x10, polls, i - 6 - data.len()),
        },
    }
}

// Erase: 60h, three row bytes, D0h, 70h, the status reads.
pub fn erase_cycle(row: usize, polls: usize, i: usize) -> Option<Captured>
    ensures { result ≡ cycle_at (erase_capture row polls) i }
{
    match i {
        0 => Some(Captured::Command(0x60)),
        1..=3 => row_byte(row, i - 1),
        _ => polled_cycle(0xd0, polls, i - 4),
    }
}
