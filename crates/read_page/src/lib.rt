// A page of a block read into a buffer that changes only if the read passed, and undone by the kind of its copy.
#![tactic(auto)]

ghost use Rattle.std.specs.Prelude.{◌≡◌, ◌<◌, ◌≤◌, length};
ghost use Rattle.geometry.specs.Limits.{Valid};
ghost use Rattle.chip_array.specs.Device.{device, setting};
ghost use Rattle.bus.specs.Line.{line, send_all};
ghost use Rattle.bus_sequences.specs.Cycles.{read_cycles, read_outcome};
ghost use Rattle.copies.specs.Blocks.{formed};
ghost use Rattle.request.specs.Call.{result_with};
ghost use Rattle.read_page.specs.Fetching.{read_result, fetched, reading_block};

use bus::Bus;
use bus_polling::{Done, Outcome};
use chip_interface::Interface;
use geometry::Geometry;
use request::Returned;
use state::State;

// Undoes the main bytes of a page as a kind stores them.
pub fn undo(form: u8, page: usize, buffer: &mut [u8])
    requires page_bound { page < 64 }
    requires buffer_len_bound { length buffer.old ≤ 4096 }
    ensures { buffer.new ≡ formed form page buffer.old }
{
    if pages::is_white(form) {
        whitening::whiten(page, buffer);
    }
}

// Reads the main bytes of a row into `bytes`, and if the read passed copies them to `buffer` and undoes them there.
fn fetch(
    from: Bus,
    g: Geometry,
    array: &mut [u8],
    register: &mut [u8],
    history: &mut [u8],
    mask: &[u8],
    fates: &[u32],
    row: usize,
    form: u8,
    page: usize,
    bytes: &mut [u8],
    buffer: &mut [u8],
) -> Done
    requires valid { Valid g }
    requires page_lt_pages { page < g.pages }
    requires bytes_len { length bytes.old ≡ g.main }
    requires buffer_len { length buffer.old ≡ g.main }
    ensures history_after { line result.bus array.new register.new history.new ≡ send_all (setting g mask.now fates.now) (line from array.old register.old history.old) (read_cycles (setting g mask.now fates.now) (line from array.old register.old history.old) row 0 g.main) }
    ensures outcome_value { result.outcome ≡ read_outcome (setting g mask.now fates.now) (line from array.old register.old history.old) row 0 g.main }
    ensures buffer_after { buffer.new ≡ fetched (setting g mask.now fates.now) (line from array.old register.old history.old) row form page buffer.old }
{
    let done = operations::read(
        from, g, array, register, history, mask, fates, row, 0, bytes,
    );
    let ended = done.outcome;
    let Outcome::Passed = ended else {
        return done;
    };
    cells::copy(bytes, buffer);
    undo(form, page, buffer);
    done
}

// Reads a page of a block whose copy is of a kind into a buffer of main bytes.
pub fn read_block(
    state: State,
    g: Geometry,
    interface: Interface,
    array: &mut [u8],
    register: &mut [u8],
    history: &mut [u8],
    mask: &[u8],
    fates: &[u32],
    allowed: u32,
    block: usize,
    form: u8,
    page: usize,
    buffer: &mut [u8],
) -> Returned
    requires valid { Valid g }
    requires block_lt_blocks { block < g.blocks }
    requires page_lt_pages { page < g.pages }
    requires buffer_len { length buffer.old ≡ g.main }
    ensures { read_result (result_with result.answer result.state (device result.interface array.new register.new history.new) result.sent) buffer.new ≡ reading_block (setting g mask.now fates.now) (device interface array.old register.old history.old) allowed state block form page buffer.old }
{
    let row = geometry::row_of(g, block, page);
    let from = request::begin(interface, allowed);
    let mut bytes = [0u8; 4096];
    let main = g.main;
    let done = fetch(
        from,
        g,
        array,
        register,
        history,
        mask,
        fates,
        row,
        form,
        page,
        &mut bytes[0..main],
        buffer,
    );
    let bus = done.bus;
    let outcome = done.outcome;
    let Outcome::Passed = outcome else {
        return request::end(request::stop_answer(outcome), State::blank(2), bus, allowed);
    };
    request::end(0, state, bus, allowed)
}
