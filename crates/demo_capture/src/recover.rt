// The operations of a request, each recovered from what the request leaves where it is cut.
use crate::runs::Call;
use capture::Captured;
use demo_store::Store;

// What an operation does, as its cycles tell.
#[derive(Clone, Copy)]
pub enum Kind {
    Reset,
    Status,
    // The bytes moved.
    Read { moved: usize },
    // The data, `count` bytes from the start.
    Program { bytes: [u8; 48], count: usize },
    Erase,
}

#[derive(Clone, Copy)]
pub struct Operation {
    pub kind: Kind,
    pub row: usize,
    pub column: usize,
    // Status reads.
    pub polls: usize,
}

fn plain(kind: Kind) -> Operation {
    Operation {
        kind,
        row: 0,
        column: 0,
        polls: 0,
    }
}

impl Operation {
    // The i-th cycle.
    pub(crate) fn cycle(self, i: usize) -> Option<Captured> {
        match self.kind {
            Kind::Reset => capture::reset_cycle(i),
            Kind::Status => capture::status_cycle(i),
            Kind::Read { moved } => {
                capture::read_cycle(self.row, self.column, moved, self.polls, i)
            }
            Kind::Program { bytes, count } => {
                capture::program_cycle(self.row, bytes.get(..count)?, self.polls, i)
            }
            Kind::Erase => capture::erase_cycle(self.row, self.polls, i),
        }
    }
}

fn phase_after(call: Call, sent: usize) -> usize {
    call.left_after(sent).interface.phase
}

fn column_after(call: Call, sent: usize) -> usize {
    call.left_after(sent).interface.column
}

// The cycles sent up to the first confirm cycle after `sent`: the chip is busy then.
fn confirmed_after(call: Call, sent: usize, total: usize) -> usize {
    for at in sent..total {
        if phase_after(call, at + 1) == chip_interface::BUSY {
            return at + 1;
        }
    }
    total
}

// Data output cycles after `sent`: each moves the column on, and no cycle that begins an operation does.
fn moved_after(call: Call, sent: usize, total: usize) -> usize {
    let mut column = column_after(call, sent);
    for moved in 0..total {
        let next = column_after(call, later(sent, moved + 1, total));
        if next <= column {
            return moved;
        }
        column = next;
    }
    total
}

// Status reads up to the one that reports ready.
fn polls_for(busy: usize) -> usize {
    if busy < 256 { busy + 1 } else { 256 }
}

// So many cycles later, the last at most.
fn later(sent: usize, cycles: usize, total: usize) -> usize {
    total.min(sent.saturating_add(cycles))
}

// The operation whose first cycle comes after `sent` cycles. FFh leaves the chip ready, and 70h showing its status; any other
// is told by the chip that its confirm cycle leaves, and a read's bytes follow 70h, the status reads and 00h.
pub(crate) fn operation_after(call: Call, sent: usize, total: usize) -> Option<Operation> {
    let phase = phase_after(call, later(sent, 1, total));
    if phase == chip_interface::READY {
        return Some(plain(Kind::Reset));
    }
    if phase == chip_interface::STATUS {
        return Some(plain(Kind::Status));
    }
    let at = confirmed_after(call, sent, total);
    let left = call.left_after(at);
    let i = left.interface;
    if i.phase != chip_interface::BUSY {
        return None;
    }
    let polls = polls_for(i.busy);
    Some(Operation {
        kind: kind_of(call, left, later(at, polls, total), total)?,
        row: chip_interface::row_of_address(i.address),
        column: i.first,
        polls,
    })
}

// The kind of the operation that a chip is busy with, up to its last status read after `waited` cycles. The data of a program is
// what the register took from the address's column on.
fn kind_of(call: Call, left: Store, waited: usize, total: usize) -> Option<Kind> {
    let i = left.interface;
    // An array of a field goes into a literal by a variable: the proof is not made otherwise.
    let bytes = left.register;
    match i.operation {
        chip_interface::READ => Some(Kind::Read {
            moved: moved_after(call, later(waited, 2, total), total),
        }),
        chip_interface::PROGRAM => Some(Kind::Program {
            bytes,
            count: i.column.saturating_sub(i.first),
        }),
        chip_interface::ERASE => Some(Kind::Erase),
        _ => None,
    }
}
