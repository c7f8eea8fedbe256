// The chip's bus cycles: command, address, data in, data out and status. A cycle that the data sheet does not allow in the
// present state is answered illegal and changes nothing else.
#![tactic(auto)]

ghost use Rattle.std.specs.Prelude.{◌≡◌, cond, List, ℕ, ◌<◌, ltb, length, get_or};
ghost use Rattle.geometry.specs.Sizes.{block_size, row_count};
ghost use Rattle.chip_array.specs.Device.{device, setting, fitting, Fitting, row_at};
ghost use Rattle.chip_interface.specs.Interface.{refused};
ghost use Rattle.chip.specs.Chip.{next_column, is_confirm, confirmable, confirmed, commanded, data_taken, data_given, data_byte, parameter_given, parameter_byte, less_busy, finished, status_read, status_shown};

use chip_interface::Interface;
use geometry::Geometry;

// The interface after an output cycle, and the byte put out.
#[derive(Clone, Copy)]
pub struct Shown {
    pub interface: Interface,
    pub byte: u8,
}

// Whether array, register and history have the lengths that a valid geometry asks.
pub fn is_fitting(g: Geometry, array: usize, register: usize, history: usize) -> bool
    ensures { result ≡ fitting g array register history }
{
    if geometry::is_valid(g) {
        if array != geometry::chip_size(g) {
            return false;
        }
        if register != geometry::page_size(g) {
            return false;
        }
        let blocks = g.blocks;
        return history == blocks;
    }
    false
}

fn is_confirm(code: u8) -> bool
    ensures { result ≡ is_confirm code }
{
    if code == 0x30 {
        return true;
    }
    if code == 0x10 {
        return true;
    }
    code == 0xd0
}

// Whether all lengths fit and the address register names a row of the chip.
fn is_confirmable(
    i: Interface,
    g: Geometry,
    array: &[u8],
    register: &[u8],
    history: &[u8],
    mask: &[u8],
) -> bool
    ensures { (f : List ℕ) → result ≡ confirmable (setting g mask.now f) (device i array.now register.now history.now) }
{
    if is_fitting(g, array.len(), register.len(), history.len()) {
        if mask.len() != geometry::block_size(g) {
            return false;
        }
        let address = i.address;
        let rows = geometry::row_count(g);
        return chip_interface::row_of_address(address) < rows;
    }
    false
}

// The confirm cycle of a read, program or erase.
fn confirm(
    i: Interface,
    g: Geometry,
    array: &mut [u8],
    register: &mut [u8],
    history: &mut [u8],
    mask: &[u8],
    fates: &[u32],
    code: u8,
) -> Interface
    requires fitting { Fitting g (length array.old) (length register.old) (length history.old) }
    requires mask_len { length mask.now ≡ block_size g }
    requires i_bound { row_at i < row_count g }
    ensures { device result array.new register.new history.new ≡ confirmed code (setting g mask.now fates.now) (device i array.old register.old history.old) }
{
    if code == 0x30 {
        return chip_array::confirm_read(i, g, array, register, fates);
    }
    if code == 0x10 {
        return chip_array::confirm_program(i, g, array, register, history, mask, fates);
    }
    chip_array::confirm_erase(i, g, array, history, mask, fates)
}

// A command cycle.
pub fn command(
    i: Interface,
    g: Geometry,
    array: &mut [u8],
    register: &mut [u8],
    history: &mut [u8],
    mask: &[u8],
    fates: &[u32],
    code: u8,
) -> Interface
    ensures { device result array.new register.new history.new ≡ commanded code (setting g mask.now fates.now) (device i array.old register.old history.old) }
{
    if is_confirm(code) {
        if is_confirmable(i, g, array, register, history, mask) {
            return confirm(i, g, array, register, history, mask, fates, code);
        }
        return i.refuse();
    }
    i.plain_command(code)
}

// A data input cycle. The interface is changed in place and at one point: data cycles are many, and early returns keep the
// compiler from holding it in registers.
pub fn data_in(mut i: Interface, register: &mut [u8], byte: u8) -> Interface
    ensures { (a h : List ℕ) → device result a register.new h ≡ data_taken byte (device i a register.old h) }
{
    let phase = i.phase;
    let column = i.column;
    let mut next = column;
    let mut illegal: usize = 1;
    if phase == chip_interface::PROGRAM_DATA {
        if column < register.len() {
            register[column] = byte;
            next = column + 1;
            illegal = i.illegal;
        }
    }
    i.column = next;
    i.illegal = illegal;
    i
}

// An output cycle that is refused.
fn nothing(i: Interface) -> Shown
    ensures { result ≡ record { interface = refused i; byte = 0 } }
{
    Shown {
        interface: i.refuse(),
        byte: 0,
    }
}

// The byte of a source at the present column, and on to the next one.
fn put_out(i: Interface, source: &[u8]) -> Shown
    ensures interface_value { result.interface ≡ cond (ltb i.column (length source.now)) (next_column i) (refused i) }
    ensures byte_value { result.byte ≡ get_or source.now i.column 0 }
{
    let column = i.column;
    if source.len() <= column {
        return nothing(i);
    }
    let mut next = i;
    next.column = column + 1;
    Shown {
        interface: next,
        byte: source[column],
    }
}

// A data output cycle.
pub fn data_out(i: Interface, register: &[u8]) -> Shown
    ensures by_index { (a h : List ℕ) → device result.interface a register.now h ≡ data_given (device i a register.now h) }
    ensures by_index_2 { (a h : List ℕ) → result.byte ≡ data_byte (device i a register.now h) }
{
    let phase = i.phase;
    if phase != chip_interface::DATA_OUT {
        return nothing(i);
    }
    let operation = i.operation;
    if operation == chip_interface::PARAMETERS {
        return nothing(i);
    }
    put_out(i, register)
}

// A data output cycle of the parameter page.
pub fn parameter_out(i: Interface, page: &[u8]) -> Shown
    ensures by_index { (a p h : List ℕ) → device result.interface a p h ≡ parameter_given page.now (device i a p h) }
    ensures byte_value { result.byte ≡ parameter_byte page.now i }
{
    let operation = i.operation;
    if operation != chip_interface::PARAMETERS {
        return nothing(i);
    }
    let phase = i.phase;
    if phase == chip_interface::DATA_OUT {
        return put_out(i, page);
    }
    nothing(i)
}

fn less_busy(mut i: Interface) -> Interface
    requires { 0 < i.busy }
    ensures { result ≡ less_busy i }
{
    let busy = i.busy;
    i.busy = busy - 1;
    i
}

fn finish(
    i: Interface,
    g: Geometry,
    array: &mut [u8],
    register: &[u8],
    history: &mut [u8],
) -> Interface
    ensures { device result array.new register.now history.new ≡ finished g (device i array.old register.now history.old) }
{
    let operation = i.operation;
    if operation == chip_interface::PARAMETERS {
        return chip_array::page_loaded(i);
    }
    if is_fitting(g, array.len(), register.len(), history.len()) {
        let address = i.address;
        let rows = geometry::row_count(g);
        if chip_interface::row_of_address(address) < rows {
            return chip_array::complete(i, g, array, register, history);
        }
        return i.refuse();
    }
    i.refuse()
}

// A status read.
pub fn status(
    i: Interface,
    g: Geometry,
    array: &mut [u8],
    register: &[u8],
    history: &mut [u8],
) -> Shown
    ensures history_after { device result.interface array.new register.now history.new ≡ status_read g (device i array.old register.now history.old) }
    ensures byte_value { result.byte ≡ status_shown i }
{
    let phase = i.phase;
    let failed = i.failed;
    let protected = i.protected;
    if phase == chip_interface::STATUS {
        return Shown {
            interface: i,
            byte: chip_interface::status_byte(protected, 1, failed),
        };
    }
    if phase != chip_interface::BUSY_STATUS {
        return Shown {
            interface: i.refuse(),
            byte: 0,
        };
    }
    let busy = i.busy;
    if busy != 0 {
        return Shown {
            interface: less_busy(i),
            byte: chip_interface::status_byte(protected, 0, 0),
        };
    }
    Shown {
        interface: finish(i, g, array, register, history),
        byte: chip_interface::status_byte(protected, 1, failed),
    }
}
