// The pieces that operations are made of, but the status reads: address bytes, data cycles and the confirm cycle.
#![tactic(auto)]

ghost use Rattle.std.specs.Prelude.{◌≡◌, List, map, ℕ, length, replicate};
ghost use Rattle.cells.specs.Cells.{over};
ghost use Rattle.chip_array.specs.Device.{Setting, setting};
ghost use Rattle.chip.specs.Chip.{Cycle};
ghost use Rattle.bus.specs.Line.{line, send_all};
ghost use Rattle.bus_sequences.specs.Cycles.{row_cycles, address_cycles, confirm_cycles, outputs};

use bus::Bus;
use geometry::Geometry;

// Three row bytes.
pub fn send_row(from: Bus, g: Geometry, row: usize) -> Bus
    ensures { (m f a p h : List ℕ) → line result a p h ≡ send_all (setting g m f) (line from a p h) (row_cycles row) }
{
    let middle = geometry::high_part(row);
    let high = geometry::high_part(middle);
    let b = bus::address(from, g, geometry::low_byte(row));
    let c = bus::address(b, g, geometry::low_byte(middle));
    bus::address(c, g, geometry::low_byte(high))
}

// Two column bytes and three row bytes.
pub fn send_address(from: Bus, g: Geometry, column: usize, row: usize) -> Bus
    ensures { (m f a p h : List ℕ) → line result a p h ≡ send_all (setting g m f) (line from a p h) (address_cycles column row) }
{
    let high = geometry::high_part(column);
    let b = bus::address(from, g, geometry::low_byte(column));
    let c = bus::address(b, g, geometry::low_byte(high));
    send_row(c, g, row)
}

// One data input cycle for each byte.
pub fn send_data(from: Bus, register: &mut [u8], data: &[u8]) -> Bus
    ensures { (s : Setting) (a h : List ℕ) → line result a register.new h ≡ send_all s (line from a register.old h) (map Cycle.data_in «data».now) }
{
    let mut b = from;
    let mut i = 0;
    while i < data.len() {
        b = bus::data_in(b, register, data[i]);
        if !bus::goes_on(b) {
            return b;
        }
        i += 1;
    }
    b
}

// One data output cycle for each byte of the buffer.
pub fn take_data(from: Bus, register: &[u8], buffer: &mut [u8]) -> Bus
    ensures h_value { (s : Setting) (a h : List ℕ) → line result a register.now h ≡ send_all s (line from a register.now h) (replicate (length buffer.old) Cycle.data_out) }
    ensures buffer_after { (s : Setting) (a h : List ℕ) → buffer.new ≡ over (outputs s (length buffer.old) (line from a register.now h)) buffer.old }
{
    let mut b = from;
    let mut i = 0;
    while i < buffer.len() {
        let out = bus::data_out(b, register);
        b = out.bus;
        if !bus::goes_on(b) {
            return b;
        }
        buffer[i] = out.byte;
        i += 1;
    }
    b
}

// The confirm cycle and 70h.
pub fn confirm(
    from: Bus,
    g: Geometry,
    array: &mut [u8],
    register: &mut [u8],
    history: &mut [u8],
    mask: &[u8],
    fates: &[u32],
    code: u8,
) -> Bus
    ensures { line result array.new register.new history.new ≡ send_all (setting g mask.now fates.now) (line from array.old register.old history.old) (confirm_cycles code) }
{
    let b = bus::command(from, g, array, register, history, mask, fates, code);
    bus::command(b, g, array, register, history, mask, fates, 0x70)
}
