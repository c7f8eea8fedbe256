// Formatting: every page is read, then the status; every unmarked block that is not carried over is erased, and a table is filled.
#![tactic(auto)]

ghost use Rattle.std.specs.Prelude.{List, ◌≡◌, ◌<◌, ◌≤◌, max, length};
ghost use Rattle.geometry.specs.Sizes.{page_size};
ghost use Rattle.geometry.specs.Limits.{Valid};
ghost use Rattle.chip_array.specs.Device.{device, setting};
ghost use Rattle.chip.specs.Chip.{Cycle};
ghost use Rattle.bus.specs.Line.{line};
ghost use Rattle.bus_polling.specs.declared.Outcome.TheVariants.{Passed};
ghost use Rattle.operations.specs.Ends.{Called};
ghost use Rattle.operations.specs.Trace.{ArrayOperation};
ghost use Rattle.progress.specs.Progress.{progress};
ghost use Rattle.progress.specs.Steps.{erase_on};
ghost use Rattle.request.specs.Call.{result_with};
ghost use Rattle.fill_tables.specs.Tables.{end_of_run};
ghost use Rattle.format.specs.Fills.{TablesDone};
ghost use Rattle.format.specs.Format.{first_state, tables_from, after_late, tables_run, round_run, status_run, reads_run, formatting};

use bus::Bus;
use bus_polling::Outcome;
use chip_interface::Interface;
use fill_cursor::{Cursor, Running};
use fill_driver::Ran;
use format_scan::Survey;
use geometry::Geometry;
use request::Returned;
use state::State;

// The state before the first table: the search starts at block 0, and no block holds anything current but the old table.
fn first_state(
    g: Geometry,
    marked: [u8; 512],
    invalid: [u8; 512],
    greatest: u64,
    old: usize,
) -> State
    requires { Valid g }
    ensures { result ≡ first_state g marked invalid greatest old }
{
    let last = g.blocks - 1;
    State::mounted_above(
        greatest,
        old,
        last,
        marked,
        invalid,
        [65535; 4096],
        [0; 4096],
    )
}

// Table fills until one passes.
fn fill_tables(
    state: State,
    from: Bus,
    g: Geometry,
    array: &mut [u8],
    register: &mut [u8],
    history: &mut [u8],
    mask: &[u8],
    fates: &[u32],
    page: &mut [u8],
) -> Ran
    requires called { Called (setting g mask.now fates.now) (line from array.old register.old history.old) }
    requires last_lt_blocks { state.last < g.blocks }
    requires page_len { length page.old ≡ page_size g }
    ensures { TablesDone (setting g mask.now fates.now) state (line from array.old register.old history.old) (line result.bus array.new register.new history.new) result.cursor.answer result.state }
{
    let none = [0u8; 0];
    let cursor = Cursor::begin(1, 0, 0, 0, 65535);
    let start = Running { cursor, state };
    fill_driver::run(
        from,
        g,
        array,
        register,
        history,
        mask,
        fates,
        start,
        &none,
        page,
        fill_driver::PROGRAMS,
    )
}

// Table fills until one passes, which end the request.
fn end_with_tables(
    state: State,
    from: Bus,
    g: Geometry,
    array: &mut [u8],
    register: &mut [u8],
    history: &mut [u8],
    mask: &[u8],
    fates: &[u32],
    page: &mut [u8],
    allowed: u32,
) -> Returned
    requires called { Called (setting g mask.now fates.now) (line from array.old register.old history.old) }
    requires last_lt_blocks { state.last < g.blocks }
    requires page_len { length page.old ≡ page_size g }
    requires left_le_allowed { from.left ≤ allowed }
    ensures { (cs : List Cycle) (os : List ArrayOperation) → result_with result.answer result.state (device result.interface array.new register.new history.new) result.sent ≡ end_of_run allowed (tables_from (setting g mask.now fates.now) state (progress (line from array.old register.old history.old) Passed cs os)) }
{
    let ran = fill_tables(state, from, g, array, register, history, mask, fates, page);
    let c = ran.cursor;
    let bus = ran.bus;
    let next = ran.state;
    request::end(c.answer, next, bus, allowed)
}

// The erase of the old table's block; if it fails, another table lists the block.
fn erase_old(
    state: State,
    from: Bus,
    g: Geometry,
    array: &mut [u8],
    register: &mut [u8],
    history: &mut [u8],
    mask: &[u8],
    fates: &[u32],
    old: usize,
    page: &mut [u8],
    allowed: u32,
) -> Returned
    requires called { Called (setting g mask.now fates.now) (line from array.old register.old history.old) }
    requires last_lt_blocks { state.last < g.blocks }
    requires lt_blocks { old < g.blocks }
    requires page_len { length page.old ≡ page_size g }
    requires left_le_allowed { from.left ≤ allowed }
    ensures { (cs : List Cycle) (os : List ArrayOperation) → result_with result.answer result.state (device result.interface array.new register.new history.new) result.sent ≡ end_of_run allowed (after_late (setting g mask.now fates.now) old state (erase_on (setting g mask.now fates.now) old (progress (line from array.old register.old history.old) Passed cs os))) }
{
    let row = geometry::row_of(g, old, 0);
    let erased = operations::erase(from, g, array, register, history, mask, fates, row);
    let b = erased.bus;
    let outcome = erased.outcome;
    match outcome {
        Outcome::Passed => request::end(0, state, b, allowed),
        Outcome::Failed => {
            let listed = state.mark_invalid(old);
            end_with_tables(
                listed, b, g, array, register, history, mask, fates, page, allowed,
            )
        }
        _ => request::end(request::stop_answer(outcome), State::blank(2), b, allowed),
    }
}

// The count of blocks, table fills until one passes, and then the erase of the old table's block.
fn fill_first(
    from: Bus,
    g: Geometry,
    array: &mut [u8],
    register: &mut [u8],
    history: &mut [u8],
    mask: &[u8],
    fates: &[u32],
    marked: [u8; 512],
    invalid: [u8; 512],
    greatest: u64,
    old: usize,
    page: &mut [u8],
    allowed: u32,
) -> Returned
    requires called { Called (setting g mask.now fates.now) (line from array.old register.old history.old) }
    requires page_len { length page.old ≡ page_size g }
    requires left_le_allowed { from.left ≤ allowed }
    ensures { (cs : List Cycle) (os : List ArrayOperation) → result_with result.answer result.state (device result.interface array.new register.new history.new) result.sent ≡ end_of_run allowed (tables_run (setting g mask.now fates.now) marked invalid greatest old (progress (line from array.old register.old history.old) Passed cs os)) }
{
    let held = [0u8; 512];
    if state_choose::count_permitted(&marked, &invalid, &held, g.blocks) < g.logical + 2 {
        return request::end(8, State::blank(2), from, allowed);
    }
    let first = first_state(g, marked, invalid, greatest, old);
    let ran = fill_tables(first, from, g, array, register, history, mask, fates, page);
    let c = ran.cursor;
    let answer = c.answer;
    let bus = ran.bus;
    let next = ran.state;
    if answer != 0 {
        return request::end(answer, next, bus, allowed);
    }
    if old >= g.blocks {
        return request::end(answer, next, bus, allowed);
    }
    erase_old(
        next, bus, g, array, register, history, mask, fates, old, page, allowed,
    )
}

// The greater of two numbers.
fn greater(first: u64, second: u64) -> u64
    ensures { result ≡ max first second }
{
    if first < second {
        return second;
    }
    first
}

// The first round of erases and the table fills; invalid are the blocks carried over and those whose erase failed.
fn erase_and_fill(
    from: Bus,
    g: Geometry,
    array: &mut [u8],
    register: &mut [u8],
    history: &mut [u8],
    mask: &[u8],
    fates: &[u32],
    survey: Survey,
    page: &mut [u8],
    allowed: u32,
) -> Returned
    requires called { Called (setting g mask.now fates.now) (line from array.old register.old history.old) }
    requires page_len { length page.old ≡ page_size g }
    requires left_le_allowed { from.left ≤ allowed }
    ensures { (cs : List Cycle) (os : List ArrayOperation) → result_with result.answer result.state (device result.interface array.new register.new history.new) result.sent ≡ end_of_run allowed (round_run (setting g mask.now fates.now) survey (progress (line from array.old register.old history.old) Passed cs os)) }
{
    let skip = format_scan::passed_over(survey, g);
    let erased = format_erase::erase_all(
        from, g, array, register, history, mask, fates, &skip, page,
    );
    let b = erased.bus;
    let outcome = erased.outcome;
    let Outcome::Passed = outcome else {
        return request::end(request::stop_answer(outcome), State::blank(2), b, allowed);
    };
    let failed = erased.invalid;
    let numbers = erased.numbers;
    let mut invalid = survey.carried;
    format_scan::add_bits(&mut invalid, &failed, g.blocks);
    let marked = survey.marked;
    let greatest = greater(survey.greatest, numbers.greatest);
    fill_first(
        b, g, array, register, history, mask, fates, marked, invalid, greatest, survey.old, page,
        allowed,
    )
}

// The first round of erases and the table fills, if the status shows that the chip may be written.
fn erase_if_writable(
    state: State,
    from: Bus,
    g: Geometry,
    array: &mut [u8],
    register: &mut [u8],
    history: &mut [u8],
    mask: &[u8],
    fates: &[u32],
    survey: Survey,
    allowed: u32,
) -> Returned
    requires called { Called (setting g mask.now fates.now) (line from array.old register.old history.old) }
    requires left_le_allowed { from.left ≤ allowed }
    ensures { (cs : List Cycle) (os : List ArrayOperation) → result_with result.answer result.state (device result.interface array.new register.new history.new) result.sent ≡ end_of_run allowed (status_run (setting g mask.now fates.now) state survey (progress (line from array.old register.old history.old) Passed cs os)) }
{
    let shown = operations::read_status(from, g, array, register, history, mask, fates);
    let b = shown.bus;
    let outcome = shown.outcome;
    let Outcome::Passed = outcome else {
        let answer = request::status_answer(outcome);
        return request::end(answer, request::status_state(outcome, state), b, allowed);
    };
    let mut page = [0u8; 4352];
    let size = geometry::page_size(g);
    erase_and_fill(
        b,
        g,
        array,
        register,
        history,
        mask,
        fates,
        survey,
        &mut page[0..size],
        allowed,
    )
}

// The page reads, the status, the first round of erases and the table fills, once the chip is reset.
fn read_and_erase(
    state: State,
    from: Bus,
    g: Geometry,
    array: &mut [u8],
    register: &mut [u8],
    history: &mut [u8],
    mask: &[u8],
    fates: &[u32],
    allowed: u32,
) -> Returned
    requires called { Called (setting g mask.now fates.now) (line from array.old register.old history.old) }
    requires left_le_allowed { from.left ≤ allowed }
    ensures { (cs : List Cycle) (os : List ArrayOperation) → result_with result.answer result.state (device result.interface array.new register.new history.new) result.sent ≡ end_of_run allowed (reads_run (setting g mask.now fates.now) state (progress (line from array.old register.old history.old) Passed cs os)) }
{
    let found = format_scan::survey_chip(from, g, array, register, history, mask, fates);
    let b = found.bus;
    let outcome = found.outcome;
    let Outcome::Passed = outcome else {
        return request::end(request::stop_answer(outcome), State::blank(2), b, allowed);
    };
    let survey = found.survey;
    erase_if_writable(
        state, b, g, array, register, history, mask, fates, survey, allowed,
    )
}

// The request, of any state, chip, mask, fate words and allowance.
pub fn format(
    state: State,
    g: Geometry,
    interface: Interface,
    array: &mut [u8],
    register: &mut [u8],
    history: &mut [u8],
    mask: &[u8],
    fates: &[u32],
    allowed: u32,
) -> Returned
    ensures { result_with result.answer result.state (device result.interface array.new register.new history.new) result.sent ≡ formatting (setting g mask.now fates.now) (device interface array.old register.old history.old) allowed state }
{
    let begun = request::start(g, interface, array, register, history, mask, fates, allowed);
    let answer = begun.answer;
    let bus = begun.bus;
    if answer == 1 {
        return Returned {
            answer,
            state,
            interface,
            sent: 0,
        };
    }
    if answer != 0 {
        return request::end(answer, State::blank(2), bus, allowed);
    }
    read_and_erase(
        state, bus, g, array, register, history, mask, fates, allowed,
    )
}
