// One loop that performs what a cursor says is due, on the chip.
#![tactic(auto)]

ghost use Rattle.std.specs.Prelude.{◌≡◌, ◌*◌, ◌<◌, length};
ghost use Rattle.geometry.specs.Sizes.{page_size};
ghost use Rattle.chip_array.specs.Device.{setting};
ghost use Rattle.bus.specs.Line.{line};
ghost use Rattle.operations.specs.Ends.{Lent};
ghost use Rattle.progress.specs.Steps.{ComesTo};
ghost use Rattle.fill.specs.Fill.{copy, Fillable, page_filled, data_source, table_copy, table_source};
ghost use Rattle.fill_cursor.specs.Cursor.{Fits, running};
ghost use Rattle.fill_driver.specs.Driver.{content_of, performed, RanAs};

use bus::Bus;
use bus_polling::{Done, Outcome};
use fill::Content;
use fill_cursor::{Cursor, Running};
use geometry::Geometry;
use state::State;

// More page programs than a request can send: 64 for each block, of data fills and of table fills.
pub const PROGRAMS: u64 = 524289;

// Fills one page of a copy: its main bytes, read where they are kept, then its program.
fn fill_page(
    from: Bus,
    g: Geometry,
    array: &mut [u8],
    register: &mut [u8],
    history: &mut [u8],
    mask: &[u8],
    fates: &[u32],
    block: usize,
    place: usize,
    content: Content,
    bytes: &[u8],
    page: &mut [u8],
) -> Done
    requires lent { Lent (setting g mask.now fates.now) (line from array.old register.old history.old) }
    requires fillable { Fillable g block place content.kind content.logical (length page.old) }
    requires bytes_len { length bytes.now ≡ content.count * g.main }
    ensures { ComesTo (setting g mask.now fates.now) (page_filled (setting g mask.now fates.now) block (copy content.kind content.logical content.number) place (data_source g content.old content.form content.first content.count bytes.now place)) (line from array.old register.old history.old) (line result.bus array.new register.new history.new) result.outcome }
{
    let put = fill::put_main(
        from, g, array, register, history, mask, fates, place, content, bytes, page,
    );
    let read = put.outcome;
    let Outcome::Passed = read else {
        return put;
    };
    fill::program_page(
        put.bus, g, array, register, history, mask, fates, block, place, content, page,
    )
}

// Fills one page of a table that lists the invalid blocks.
fn fill_table_page(
    from: Bus,
    g: Geometry,
    array: &mut [u8],
    register: &mut [u8],
    history: &mut [u8],
    mask: &[u8],
    fates: &[u32],
    block: usize,
    place: usize,
    number: u64,
    invalid: &[u8; 512],
    page: &mut [u8],
) -> Done
    requires lent { Lent (setting g mask.now fates.now) (line from array.old register.old history.old) }
    requires block_lt_blocks { block < g.blocks }
    requires place_lt_pages { place < g.pages }
    requires page_len { length page.old ≡ page_size g }
    ensures { ComesTo (setting g mask.now fates.now) (page_filled (setting g mask.now fates.now) block (table_copy number) place (table_source g invalid.now place)) (line from array.old register.old history.old) (line result.bus array.new register.new history.new) result.outcome }
{
    let mut first = [0u8; 4096];
    let main = g.main;
    table::build_first(&mut first[0..main], g.blocks, g.logical, invalid);
    let content = Content {
        kind: pages::TABLE,
        logical: 0,
        number,
        old: 65535,
        form: 0,
        first: 0,
        count: 1,
    };
    fill_page(
        from,
        g,
        array,
        register,
        history,
        mask,
        fates,
        block,
        place,
        content,
        &first[0..main],
        page,
    )
}

// What the data copy of a cursor holds, its old copy of kind `form`.
fn content_of(c: Cursor, form: u8) -> Content
    ensures { result ≡ content_of c form }
{
    Content {
        kind: pages::DATA,
        logical: c.logical,
        number: c.number,
        old: c.old,
        form,
        first: c.first,
        count: c.count,
    }
}

// Performs the erase or the page that is due.
fn perform(
    from: Bus,
    g: Geometry,
    array: &mut [u8],
    register: &mut [u8],
    history: &mut [u8],
    mask: &[u8],
    fates: &[u32],
    c: Cursor,
    form: u8,
    invalid: &[u8; 512],
    bytes: &[u8],
    page: &mut [u8],
) -> Done
    requires lent { Lent (setting g mask.now fates.now) (line from array.old register.old history.old) }
    requires fits { Fits g (length bytes.now) c }
    requires step_nonzero { 0 < c.step }
    requires page_len { length page.old ≡ page_size g }
    ensures { ComesTo (setting g mask.now fates.now) (performed (setting g mask.now fates.now) c form invalid.now bytes.now) (line from array.old register.old history.old) (line result.bus array.new register.new history.new) result.outcome }
{
    let step = c.step;
    if step == 1 {
        let row = geometry::row_of(g, c.block, 0);
        return operations::erase(from, g, array, register, history, mask, fates, row);
    }
    let phase = c.phase;
    if phase != 0 {
        return fill_table_page(
            from, g, array, register, history, mask, fates, c.block, c.page, c.number, invalid,
            page,
        );
    }
    let content = content_of(c, form);
    fill_page(
        from, g, array, register, history, mask, fates, c.block, c.page, content, bytes, page,
    )
}

// Where a request has come to.
#[derive(Clone, Copy)]
pub struct Ran {
    pub bus: Bus,
    pub cursor: Cursor,
    pub state: State,
}

// Performs what is due until the request has ended or so many page programs were sent.
pub fn run(
    from: Bus,
    g: Geometry,
    array: &mut [u8],
    register: &mut [u8],
    history: &mut [u8],
    mask: &[u8],
    fates: &[u32],
    start: Running,
    bytes: &[u8],
    page: &mut [u8],
    most: u64,
) -> Ran
    requires lent { Lent (setting g mask.now fates.now) (line from array.old register.old history.old) }
    requires fits { start.cursor.phase < 2 → Fits g (length bytes.now) start.cursor }
    requires last_lt_blocks { start.cursor.phase < 2 → start.state.last < g.blocks }
    requires page_len { length page.old ≡ page_size g }
    ensures { RanAs (setting g mask.now fates.now) bytes.now most start (line from array.old register.old history.old) (line result.bus array.new register.new history.new) (running result.cursor result.state) }
{
    let mut bus = from;
    let mut cursor = start.cursor;
    let mut state = start.state;
    let mut left = most;
    while cursor.is_open(left) {
        let step = cursor.step;
        if step == 0 {
            let ready = fill_cursor::prepare(cursor, state, g);
            cursor = ready.cursor;
            state = ready.state;
            continue;
        }
        let logical = cursor.logical;
        let form = state.kinds[logical];
        let invalid = state.invalid;
        let done = perform(
            bus, g, array, register, history, mask, fates, cursor, form, &invalid, bytes, page,
        );
        bus = done.bus;
        left -= cursor.programs();
        let outcome = done.outcome;
        let next = cursor.after(g.pages, outcome);
        let due = next.step;
        if due != 2 {
            state = cursor.settle(state, outcome);
        }
        cursor = next;
    }
    Ran { bus, cursor, state }
}
