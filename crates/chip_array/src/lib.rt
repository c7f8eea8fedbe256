// The array under way of a read, program or erase: what the confirm cycle starts, and what a ready status completes.
#![tactic(auto)]

ghost use Rattle.std.specs.Prelude.{◌≡◌, List, ℕ, ◌<◌, length};
ghost use Rattle.geometry.specs.Limits.{Valid};
ghost use Rattle.geometry.specs.Sizes.{page_size, block_size, chip_size, row_count};
ghost use Rattle.chip_interface.specs.Interface.{in_phase};
ghost use Rattle.chip_array.specs.Device.{device, setting, Fitting, row_at, read_started, program_started, erase_started, page_loaded, completed};

use chip_interface::Interface;
use geometry::Geometry;

fn wide(x: u8) -> usize
    ensures { result ≡ x }
{
    x as usize
}

// 30h: the page at the address goes to the register.
pub fn confirm_read(
    i: Interface,
    g: Geometry,
    array: &[u8],
    register: &mut [u8],
    fates: &[u32],
) -> Interface
    requires valid { Valid g }
    requires array_len { length array.now ≡ chip_size g }
    requires register_len { length register.old ≡ page_size g }
    requires i_bound { row_at i < row_count g }
    ensures { (m h : List ℕ) → device result array.now register.new h ≡ read_started (setting g m fates.now) (device i array.now register.old h) }
{
    let phase = i.phase;
    if phase != chip_interface::READ_ADDRESS {
        return i.refuse();
    }
    let count = i.count;
    if count != 5 {
        return i.refuse();
    }
    let address = i.address;
    let row = chip_interface::row_of_address(address);
    let at = geometry::row_start(g, row);
    let end = at + geometry::page_size(g);
    cells::copy(&array[at..end], register);
    i.start(chip_interface::READ, fates)
}

// 10h: a page above all that were programmed since the block's erase.
pub fn confirm_program(
    i: Interface,
    g: Geometry,
    array: &mut [u8],
    register: &[u8],
    history: &mut [u8],
    mask: &[u8],
    fates: &[u32],
) -> Interface
    requires fitting { Fitting g (length array.old) (length register.now) (length history.old) }
    requires mask_len { length mask.now ≡ block_size g }
    requires i_bound { row_at i < row_count g }
    ensures { device result array.new register.now history.new ≡ program_started (setting g mask.now fates.now) (device i array.old register.now history.old) }
{
    let phase = i.phase;
    if phase != chip_interface::PROGRAM_DATA {
        return i.refuse();
    }
    let first = i.first;
    if first != 0 {
        return i.refuse();
    }
    let column = i.column;
    if column != geometry::page_size(g) {
        return i.refuse();
    }
    let address = i.address;
    let row = chip_interface::row_of_address(address);
    let block = geometry::block_of_row(g, row);
    let page = geometry::page_of_row(g, row);
    if page < wide(history[block]) {
        return i.refuse();
    }
    let protected = i.protected;
    if protected != 0 {
        return i.stay(chip_interface::PROGRAM);
    }
    chip_effects::program_part(row, g, array, register, mask);
    history[block] = (page + 1) as u8;
    i.start(chip_interface::PROGRAM, fates)
}

// D0h: the block of the row; the row's page bits are ignored.
pub fn confirm_erase(
    i: Interface,
    g: Geometry,
    array: &mut [u8],
    history: &mut [u8],
    mask: &[u8],
    fates: &[u32],
) -> Interface
    requires valid { Valid g }
    requires array_len { length array.old ≡ chip_size g }
    requires history_len { length history.old ≡ g.blocks }
    requires mask_len { length mask.now ≡ block_size g }
    requires i_bound { row_at i < row_count g }
    ensures { (p : List ℕ) → device result array.new p history.new ≡ erase_started (setting g mask.now fates.now) (device i array.old p history.old) }
{
    let phase = i.phase;
    if phase != chip_interface::ERASE_ADDRESS {
        return i.refuse();
    }
    let count = i.count;
    if count != 5 {
        return i.refuse();
    }
    let protected = i.protected;
    if protected != 0 {
        return i.stay(chip_interface::ERASE);
    }
    let address = i.address;
    let row = chip_interface::row_of_address(address);
    let block = geometry::block_of_row(g, row);
    chip_effects::erase_part(block, g, array, mask);
    history[block] = 255;
    i.start(chip_interface::ERASE, fates)
}

// Ready is reported after a read.
pub fn page_loaded(mut i: Interface) -> Interface
    ensures { result ≡ page_loaded i }
{
    i.phase = chip_interface::STATUS;
    i.loaded = 1;
    i
}

fn shows_status(mut i: Interface) -> Interface
    ensures { result ≡ in_phase 1 i }
{
    i.phase = chip_interface::STATUS;
    i
}

// Ready is reported: the rest of the effect of an operation that passed.
pub fn complete(
    i: Interface,
    g: Geometry,
    array: &mut [u8],
    register: &[u8],
    history: &mut [u8],
) -> Interface
    requires fitting { Fitting g (length array.old) (length register.now) (length history.old) }
    requires i_bound { row_at i < row_count g }
    ensures { device result array.new register.now history.new ≡ completed g (device i array.old register.now history.old) }
{
    let operation = i.operation;
    if operation == chip_interface::READ {
        return page_loaded(i);
    }
    let failed = i.failed;
    if failed != 0 {
        return shows_status(i);
    }
    let address = i.address;
    let row = chip_interface::row_of_address(address);
    if operation == chip_interface::PROGRAM {
        chip_effects::program_rest(row, g, array, register);
        return shows_status(i);
    }
    if operation == chip_interface::ERASE {
        let block = geometry::block_of_row(g, row);
        chip_effects::erase_rest(block, g, array);
        history[block] = 0;
        return shows_status(i);
    }
    i.refuse()
}
