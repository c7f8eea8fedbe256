// The chip's operations as cycles on the bus: reset, status, read, program and erase.
#![tactic(auto)]

ghost use Rattle.std.specs.Prelude.{◌≡◌, length};
ghost use Rattle.cells.specs.Cells.{over};
ghost use Rattle.chip_array.specs.Device.{setting};
ghost use Rattle.bus.specs.Line.{line, send_all};
ghost use Rattle.bus_polling.specs.Polling.{answer_of, ended_as};
ghost use Rattle.bus_sequences.specs.Cycles.{reset_cycles, status_cycles, read_cycles, read_outcome, read_outputs, program_cycles, erase_cycles};
ghost use Rattle.operations.specs.Ends.{reset_status, status_end};

use bus::Bus;
use bus_polling::{Done, Outcome};
use geometry::Geometry;

// The bus after a reset, how it ended, and the status byte read: 0 where it was not reached.
#[derive(Clone, Copy)]
pub struct ResetDone {
    pub bus: Bus,
    pub outcome: Outcome,
    pub status: u8,
}

// Reset: FFh, 70h, one status read.
pub fn reset(
    from: Bus,
    g: Geometry,
    array: &mut [u8],
    register: &mut [u8],
    history: &mut [u8],
    mask: &[u8],
    fates: &[u32],
) -> ResetDone
    ensures history_after { line result.bus array.new register.new history.new ≡ send_all (setting g mask.now fates.now) (line from array.old register.old history.old) reset_cycles }
    ensures outcome_value { result.outcome ≡ ended_as (line result.bus array.new register.new history.new) }
    ensures status_value { result.status ≡ reset_status (setting g mask.now fates.now) (line from array.old register.old history.old) }
{
    let b = bus_sequences::confirm(from, g, array, register, history, mask, fates, 0xff);
    let out = bus::status(b, g, array, register, history);
    let c = out.bus;
    let status = out.byte;
    ResetDone {
        bus: c,
        outcome: bus_polling::ended(c),
        status,
    }
}

// 70h, one status read: bit 7 tells a protected chip, and no fate word is taken.
pub fn read_status(
    from: Bus,
    g: Geometry,
    array: &mut [u8],
    register: &mut [u8],
    history: &mut [u8],
    mask: &[u8],
    fates: &[u32],
) -> Done
    ensures history_after { line result.bus array.new register.new history.new ≡ send_all (setting g mask.now fates.now) (line from array.old register.old history.old) status_cycles }
    ensures outcome_value { result.outcome ≡ status_end (line result.bus array.new register.new history.new) }
{
    let b = bus::command(from, g, array, register, history, mask, fates, 0x70);
    let out = bus::status(b, g, array, register, history);
    let c = out.bus;
    let ended = bus_polling::ended(c);
    Done {
        bus: c,
        outcome: bus_polling::answer(ended, out.byte),
    }
}

// Erase: 60h, three row bytes, D0h, 70h, status reads; bit 7 of the last tells a protected chip.
pub fn erase(
    from: Bus,
    g: Geometry,
    array: &mut [u8],
    register: &mut [u8],
    history: &mut [u8],
    mask: &[u8],
    fates: &[u32],
    row: usize,
) -> Done
    ensures history_after { line result.bus array.new register.new history.new ≡ send_all (setting g mask.now fates.now) (line from array.old register.old history.old) (erase_cycles (setting g mask.now fates.now) (line from array.old register.old history.old) row) }
    ensures outcome_value { result.outcome ≡ answer_of (line result.bus array.new register.new history.new) }
{
    let b = bus::command(from, g, array, register, history, mask, fates, 0x60);
    let c = bus_sequences::send_row(b, g, row);
    let d = bus_sequences::confirm(c, g, array, register, history, mask, fates, 0xd0);
    let p = bus_polling::poll(d, g, array, register, history);
    let last = p.bus;
    let outcome = p.outcome;
    Done {
        bus: last,
        outcome: bus_polling::answer(outcome, p.status),
    }
}

// Program: 80h, five address bytes, the data, 10h, 70h, status reads; bit 7 of the last tells a protected chip.
pub fn program(
    from: Bus,
    g: Geometry,
    array: &mut [u8],
    register: &mut [u8],
    history: &mut [u8],
    mask: &[u8],
    fates: &[u32],
    row: usize,
    data: &[u8],
) -> Done
    ensures history_after { line result.bus array.new register.new history.new ≡ send_all (setting g mask.now fates.now) (line from array.old register.old history.old) (program_cycles (setting g mask.now fates.now) (line from array.old register.old history.old) row «data».now) }
    ensures outcome_value { result.outcome ≡ answer_of (line result.bus array.new register.new history.new) }
{
    let b = bus::command(from, g, array, register, history, mask, fates, 0x80);
    let c = bus_sequences::send_address(b, g, 0, row);
    let d = bus_sequences::send_data(c, register, data);
    let e = bus_sequences::confirm(d, g, array, register, history, mask, fates, 0x10);
    let p = bus_polling::poll(e, g, array, register, history);
    let last = p.bus;
    let outcome = p.outcome;
    Done {
        bus: last,
        outcome: bus_polling::answer(outcome, p.status),
    }
}

// Read: 00h, five address bytes, 30h, 70h, status reads, 00h, and a data output for each byte of the buffer.
pub fn read(
    from: Bus,
    g: Geometry,
    array: &mut [u8],
    register: &mut [u8],
    history: &mut [u8],
    mask: &[u8],
    fates: &[u32],
    row: usize,
    column: usize,
    buffer: &mut [u8],
) -> Done
    ensures history_after { line result.bus array.new register.new history.new ≡ send_all (setting g mask.now fates.now) (line from array.old register.old history.old) (read_cycles (setting g mask.now fates.now) (line from array.old register.old history.old) row column (length buffer.old)) }
    ensures outcome_value { result.outcome ≡ read_outcome (setting g mask.now fates.now) (line from array.old register.old history.old) row column (length buffer.old) }
    ensures buffer_after { buffer.new ≡ over (read_outputs (setting g mask.now fates.now) (line from array.old register.old history.old) row column (length buffer.old)) buffer.old }
{
    let b = bus::command(from, g, array, register, history, mask, fates, 0x00);
    let c = bus_sequences::send_address(b, g, column, row);
    let d = bus_sequences::confirm(c, g, array, register, history, mask, fates, 0x30);
    let loaded = bus_polling::poll(d, g, array, register, history);
    let e = loaded.bus;
    let outcome = loaded.outcome;
    let Outcome::Passed = outcome else {
        return Done { bus: e, outcome };
    };
    let f = bus::command(e, g, array, register, history, mask, fates, 0x00);
    let last = bus_sequences::take_data(f, register, buffer);
    Done {
        bus: last,
        outcome: bus_polling::ended(last),
    }
}
