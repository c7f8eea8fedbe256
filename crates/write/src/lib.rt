// The requests that write one page and erase one logical block.
#![tactic(auto)]

ghost use Rattle.std.specs.Prelude.{List, ◌≡◌, ℕ, ◌*◌, ◌<◌, ◌≤◌, length};
ghost use Rattle.chip_array.specs.Device.{device, setting};
ghost use Rattle.chip.specs.Chip.{Cycle};
ghost use Rattle.bus.specs.Line.{line};
ghost use Rattle.bus_polling.specs.declared.Outcome.TheVariants.{Passed};
ghost use Rattle.operations.specs.Ends.{Lent};
ghost use Rattle.operations.specs.Trace.{ArrayOperation};
ghost use Rattle.progress.specs.Progress.{progress};
ghost use Rattle.request.specs.Call.{result_with, end_at, status_answer, status_state};
ghost use Rattle.fill_tables.specs.Tables.{end_of_run};
ghost use Rattle.write_changes.specs.Changes.{write_update, change_run, writing, erasing_logical};
ghost use Rattle.write.specs.Update.{update, change_from};

use bus::Bus;
use bus_polling::Outcome;
use chip_interface::Interface;
use fill_cursor::{Cursor, Running};
use geometry::Geometry;
use request::Returned;
use state::State;

fn wide(x: u16) -> usize
    ensures { result ≡ x }
{
    x as usize
}

// The new copy of a logical block, once the chip may be written: so many pages from the first on are given, the others
// are kept from the old copy.
fn fill(
    state: State,
    from: Bus,
    g: Geometry,
    array: &mut [u8],
    register: &mut [u8],
    history: &mut [u8],
    mask: &[u8],
    fates: &[u32],
    allowed: u32,
    logical: usize,
    first: usize,
    count: usize,
    old: usize,
    bytes: &[u8],
) -> Returned
    requires lent { Lent (setting g mask.now fates.now) (line from array.old register.old history.old) }
    requires left_le_allowed { from.left ≤ allowed }
    requires last_lt_blocks { state.last < g.blocks }
    requires logical_lt_logical { logical < g.logical }
    requires bytes_len { length bytes.now ≡ count * g.main }
    ensures { (cs : List Cycle) (os : List ArrayOperation) → result_with result.answer result.state (device result.interface array.new register.new history.new) result.sent ≡ end_of_run allowed (change_run (setting g mask.now fates.now) state (update logical old first count bytes.now) (progress (line from array.old register.old history.old) Passed cs os)) }
{
    let mut page = [0u8; 4352];
    let size = geometry::page_size(g);
    let cursor = Cursor::begin(0, logical, first, count, old);
    let start = Running { cursor, state };
    let ran = fill_driver::run(
        from,
        g,
        array,
        register,
        history,
        mask,
        fates,
        start,
        bytes,
        &mut page[0..size],
        fill_driver::PROGRAMS,
    );
    let c = ran.cursor;
    let bus = ran.bus;
    let next = ran.state;
    request::end(c.answer, next, bus, allowed)
}

// The end of a request whose status read did not show that the chip may be written.
fn stop(outcome: Outcome, state: State, bus: Bus, allowed: u32) -> Returned
    requires { bus.left ≤ allowed }
    ensures { (a p h : List ℕ) → result_with result.answer result.state (device result.interface a p h) result.sent ≡ end_at allowed (status_answer outcome) (status_state outcome state) (line bus a p h) }
{
    let answer = request::status_answer(outcome);
    request::end(answer, request::status_state(outcome, state), bus, allowed)
}

// Writes a page of a logical block, in a call that has come to a bus: the status is read, then the new copy is filled.
pub fn write_page(
    state: State,
    from: Bus,
    g: Geometry,
    array: &mut [u8],
    register: &mut [u8],
    history: &mut [u8],
    mask: &[u8],
    fates: &[u32],
    allowed: u32,
    logical: usize,
    page: usize,
    bytes: &[u8],
) -> Returned
    requires lent { Lent (setting g mask.now fates.now) (line from array.old register.old history.old) }
    requires left_le_allowed { from.left ≤ allowed }
    requires last_lt_blocks { state.last < g.blocks }
    requires logical_lt_logical { logical < g.logical }
    requires bytes_len { length bytes.now ≡ g.main }
    ensures { (cs : List Cycle) (os : List ArrayOperation) → result_with result.answer result.state (device result.interface array.new register.new history.new) result.sent ≡ end_of_run allowed (change_from (setting g mask.now fates.now) state (write_update state logical page bytes.now) (progress (line from array.old register.old history.old) Passed cs os)) }
{
    let shown = operations::read_status(from, g, array, register, history, mask, fates);
    let bus = shown.bus;
    let outcome = shown.outcome;
    let Outcome::Passed = outcome else {
        return stop(outcome, state, bus, allowed);
    };
    let map = state.map;
    let old = wide(map[logical]);
    fill(
        state, bus, g, array, register, history, mask, fates, allowed, logical, page, 1, old, bytes,
    )
}

// Writes a page of a logical block.
pub fn write(
    state: State,
    g: Geometry,
    interface: Interface,
    array: &mut [u8],
    register: &mut [u8],
    history: &mut [u8],
    mask: &[u8],
    fates: &[u32],
    allowed: u32,
    logical: usize,
    page: usize,
    bytes: &[u8],
) -> Returned
    ensures { result_with result.answer result.state (device result.interface array.new register.new history.new) result.sent ≡ writing (setting g mask.now fates.now) (device interface array.old register.old history.old) allowed state logical page bytes.now }
{
    let refused = request_refusals::refusal(
        state,
        g,
        array.len(),
        register.len(),
        history.len(),
        mask.len(),
        logical,
        page,
        bytes.len(),
    );
    if refused != 0 {
        return request_refusals::unchanged(refused, state, interface);
    }
    let from = request::begin(interface, allowed);
    let shown = operations::read_status(from, g, array, register, history, mask, fates);
    let bus = shown.bus;
    let outcome = shown.outcome;
    let Outcome::Passed = outcome else {
        return stop(outcome, state, bus, allowed);
    };
    let map = state.map;
    let old = wide(map[logical]);
    fill(
        state, bus, g, array, register, history, mask, fates, allowed, logical, page, 1, old, bytes,
    )
}

// Erases a logical block: every page of its new copy is FFh.
pub fn erase(
    state: State,
    g: Geometry,
    interface: Interface,
    array: &mut [u8],
    register: &mut [u8],
    history: &mut [u8],
    mask: &[u8],
    fates: &[u32],
    allowed: u32,
    logical: usize,
) -> Returned
    ensures { result_with result.answer result.state (device result.interface array.new register.new history.new) result.sent ≡ erasing_logical (setting g mask.now fates.now) (device interface array.old register.old history.old) allowed state logical }
{
    let refused = request_refusals::refusal(
        state,
        g,
        array.len(),
        register.len(),
        history.len(),
        mask.len(),
        logical,
        0,
        g.main,
    );
    if refused != 0 {
        return request_refusals::unchanged(refused, state, interface);
    }
    let from = request::begin(interface, allowed);
    let shown = operations::read_status(from, g, array, register, history, mask, fates);
    let bus = shown.bus;
    let outcome = shown.outcome;
    let Outcome::Passed = outcome else {
        return stop(outcome, state, bus, allowed);
    };
    let none = [0u8; 0];
    fill(
        state, bus, g, array, register, history, mask, fates, allowed, logical, 0, 0, 65535, &none,
    )
}
