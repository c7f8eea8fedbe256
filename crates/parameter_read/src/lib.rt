// The operation that reads the chip's parameter page: ECh, its address byte, status reads, and the bytes of the page.
#![tactic(auto)]

ghost use Rattle.std.specs.Prelude.{◌≡◌, List, ℕ, length, replicate};
ghost use Rattle.cells.specs.Cells.{over};
ghost use Rattle.chip_array.specs.Device.{Setting, setting};
ghost use Rattle.chip.specs.Chip.{Cycle};
ghost use Rattle.bus.specs.Line.{line, send_all};
ghost use Rattle.parameter_read.specs.Cycles.{page_outputs, parameter_cycles, parameter_outcome, parameter_outputs};

use bus::Bus;
use bus_polling::{Done, Outcome};
use geometry::Geometry;

// One output cycle of the page for each byte of the buffer.
fn take_parameters(from: Bus, page: &[u8], buffer: &mut [u8]) -> Bus
    ensures h_value { (s : Setting) (a p h : List ℕ) → line result a p h ≡ send_all s (line from a p h) (replicate (length buffer.old) (Cycle.parameter_out page.now)) }
    ensures buffer_after { (s : Setting) (a p h : List ℕ) → buffer.new ≡ over (page_outputs s page.now (length buffer.old) (line from a p h)) buffer.old }
{
    let mut b = from;
    let mut i = 0;
    while i < buffer.len() {
        let out = bus::parameter_out(b, page);
        b = out.bus;
        if !bus::goes_on(b) {
            return b;
        }
        buffer[i] = out.byte;
        i += 1;
    }
    b
}

// ECh, 00h, 70h, status reads, 00h, and an output of the page for each byte of the buffer. Geometry and mask are not looked at.
pub fn read_parameters(
    from: Bus,
    g: Geometry,
    array: &mut [u8],
    register: &mut [u8],
    history: &mut [u8],
    mask: &[u8],
    fates: &[u32],
    page: &[u8],
    buffer: &mut [u8],
) -> Done
    ensures history_after { line result.bus array.new register.new history.new ≡ send_all (setting g mask.now fates.now) (line from array.old register.old history.old) (parameter_cycles (setting g mask.now fates.now) (line from array.old register.old history.old) page.now (length buffer.old)) }
    ensures outcome_value { result.outcome ≡ parameter_outcome (setting g mask.now fates.now) (line from array.old register.old history.old) page.now (length buffer.old) }
    ensures buffer_after { buffer.new ≡ over (parameter_outputs (setting g mask.now fates.now) (line from array.old register.old history.old) page.now (length buffer.old)) buffer.old }
{
    let b = bus::command(from, g, array, register, history, mask, fates, 0xec);
    let c = bus::parameter_address(b, fates, 0x00);
    let d = bus::command(c, g, array, register, history, mask, fates, 0x70);
    let loaded = bus_polling::poll(d, g, array, register, history);
    let e = loaded.bus;
    let outcome = loaded.outcome;
    let Outcome::Passed = outcome else {
        return Done { bus: e, outcome };
    };
    let f = bus::command(e, g, array, register, history, mask, fates, 0x00);
    let last = take_parameters(f, page, buffer);
    Done {
        bus: last,
        outcome: bus_polling::ended(last),
    }
}
