// One captured cycle on the chip: the byte that the chip puts out, and whether the cycle leaves the interface that the request
// leaves.
use crate::print;
use crate::runs::{FATES, MASK};
use capture::Captured;
use chip::Shown;
use chip_interface::Interface;
use demo_store::Store;
use std::io;

fn command(mut before: Store, code: u8) -> Interface {
    chip::command(
        before.interface,
        before.geometry,
        &mut before.array,
        &mut before.register,
        &mut before.history,
        &MASK,
        &FATES,
        code,
    )
}

fn data_in(mut before: Store, byte: u8) -> Interface {
    chip::data_in(before.interface, &mut before.register, byte)
}

fn data_out(before: Store) -> Shown {
    chip::data_out(before.interface, &before.register)
}

fn status(mut before: Store) -> Shown {
    chip::status(
        before.interface,
        before.geometry,
        &mut before.array,
        &before.register,
        &mut before.history,
    )
}

fn is_same(a: Interface, b: Interface) -> bool {
    a.phase == b.phase
        && a.count == b.count
        && a.address == b.address
        && a.first == b.first
        && a.column == b.column
        && a.operation == b.operation
        && a.busy == b.busy
        && a.failed == b.failed
        && a.loaded == b.loaded
        && a.fate == b.fate
        && a.illegal == b.illegal
        && a.protected == b.protected
}

// The kind of a cycle as it is printed, its byte, and the interface that it leads to.
fn taken(cycle: Captured, before: Store) -> (&'static str, u8, Interface) {
    match cycle {
        Captured::Command(code) => ("command ", code, command(before, code)),
        Captured::Address(byte) => {
            let reached = before.interface.address(before.geometry, byte);
            ("address ", byte, reached)
        }
        Captured::DataIn(byte) => ("data in ", byte, data_in(before, byte)),
        Captured::DataOut => {
            let shown = data_out(before);
            ("data out", shown.byte, shown.interface)
        }
        Captured::Status => {
            let shown = status(before);
            ("status  ", shown.byte, shown.interface)
        }
    }
}

// Prints a cycle, from the chip that it finds and the interface that the request leaves after it.
pub(crate) fn show(
    rt: &impl Print,
    number: usize,
    cycle: Captured,
    before: Store,
    after: Interface,
) -> io::Result<()> {
    let (kind, byte, reached) = taken(cycle, before);
    print::cycle(rt, number, kind, byte)?;
    if !is_same(reached, after) {
        print::misfit(rt, number)?;
    }
    Ok(())
}
