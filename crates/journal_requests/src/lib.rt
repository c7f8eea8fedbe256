// The requests on the journal: a record appended, and the takings.
#![tactic(auto)]

ghost use Rattle.std.specs.Prelude.{true, List, ◌≡◌, ℕ, ◌≤◌, ◌<◌, length, replicate};
ghost use Rattle.chip_array.specs.Device.{device, setting};
ghost use Rattle.chip.specs.Chip.{Cycle};
ghost use Rattle.bus.specs.Line.{line};
ghost use Rattle.bus_polling.specs.declared.Outcome.TheVariants.{Passed};
ghost use Rattle.operations.specs.Ends.{Lent};
ghost use Rattle.operations.specs.Trace.{ArrayOperation};
ghost use Rattle.progress.specs.Progress.{progress};
ghost use Rattle.state.specs.State.{blank, mounted};
ghost use Rattle.request.specs.Call.{result_with, sized, call_line, stop_answer, end_at};
ghost use Rattle.journal.specs.Records.{Pages, room};
ghost use Rattle.write.specs.Update.{change_from};
ghost use Rattle.journal.specs.Takings.{takings};
ghost use Rattle.journal_read.specs.Reads.{pages_by, amounts_on};
ghost use Rattle.journal_read.specs.Found.{Told, Counted};
ghost use Rattle.journal_requests.specs.Requests.{journal_refusal, takings_result, takings_end, telling_takings, appended, appending, may_replace, append_refusal, sale_update, sale_end};

use bus::Bus;
use bus_polling::Outcome;
use chip_interface::Interface;
use geometry::Geometry;
use journal::Sale;
use journal_read::End;
use request::Returned;
use state::State;

// The answers of an append that is refused after its reads.
const NO_ROOM: usize = 2;

const NOT_IN_FORCE: usize = 16;

// What an append hands back, and the number that the record got, 0 unless it is answered 0.
#[derive(Clone, Copy)]
pub struct Entered {
    pub returned: Returned,
    pub number: usize,
}

// What a request for the takings hands back, and the sum in cents, 0 unless it is answered 0.
#[derive(Clone, Copy)]
pub struct Total {
    pub returned: Returned,
    pub takings: u64,
}

fn wide(x: u16) -> usize
    ensures { (result ≡ x) × (result < 65536) }
{
    x as usize
}

// The refusal that comes before the reads, 0 where there is none. Array, register, history and mask are told by their lengths.
fn refusal(
    state: State,
    g: Geometry,
    array: usize,
    register: usize,
    history: usize,
    mask: usize,
) -> usize
    ensures { result ≡ journal_refusal g (sized g array register history mask) state }
{
    if !request::is_sized(g, array, register, history, mask) {
        return 1;
    }
    if !state.is_mounted(g.blocks, g.logical) {
        return 7;
    }
    0
}

// Whether a record may replace this one: none, or one in force.
fn may_replace(replaced: &[u8], records: usize, target: usize) -> bool
    requires replaced_len { length replaced.now ≡ 8192 }
    requires target_bound { target < 65536 }
    ensures { (pages : Pages) → Told pages records replaced.now → result ≡ may_replace pages records target }
{
    if target == 0 {
        return true;
    }
    if records < target {
        return false;
    }
    !bitmaps::is_set(replaced, target)
}

// The refusal that comes after the reads, 0 where there is none: `target` is the number to replace.
fn append_refusal(replaced: &[u8], records: usize, most: usize, target: usize) -> usize
    requires replaced_len { length replaced.now ≡ 8192 }
    requires target_bound { target < 65536 }
    ensures { (pages : Pages) → Told pages records replaced.now → result ≡ append_refusal pages most records target }
{
    if !may_replace(replaced, records, target) {
        return NOT_IN_FORCE;
    }
    if records < most {
        return 0;
    }
    NO_ROOM
}

// The end of a request whose reads did not all pass.
fn stop(outcome: Outcome, bus: Bus, allowed: u32) -> Returned
    requires { bus.left ≤ allowed }
    ensures { (a p h : List ℕ) → result_with result.answer result.state (device result.interface a p h) result.sent ≡ end_at allowed (stop_answer outcome) (blank 2) (line bus a p h) }
{
    request::end(request::stop_answer(outcome), State::blank(2), bus, allowed)
}

// Writes a record after so many, through a page buffer.
fn write_sale(
    state: State,
    from: Bus,
    g: Geometry,
    array: &mut [u8],
    register: &mut [u8],
    history: &mut [u8],
    mask: &[u8],
    fates: &[u32],
    allowed: u32,
    records: usize,
    sale: Sale,
    page: &mut [u8],
) -> Entered
    requires lent { Lent (setting g mask.now fates.now) (line from array.old register.old history.old) }
    requires left_le_allowed { from.left ≤ allowed }
    requires last_lt_blocks { state.last < g.blocks }
    requires records_bound { records < room g }
    requires page_len { length page.old ≡ g.main }
    ensures { (cs : List Cycle) (os : List ArrayOperation) → appended (result_with result.returned.answer result.returned.state (device result.returned.interface array.new register.new history.new) result.returned.sent) result.number ≡ sale_end allowed records (change_from (setting g mask.now fates.now) state (sale_update g state records sale) (progress (line from array.old register.old history.old) Passed cs os)) }
{
    let number = records + 1;
    journal::write_record(page, number, sale);
    let logical = geometry::block_of_row(g, records);
    let place = geometry::page_of_row(g, records);
    let returned = write::write_page(
        state, from, g, array, register, history, mask, fates, allowed, logical, place, page,
    );
    let answer = returned.answer;
    if answer != 0 {
        return Entered {
            returned,
            number: 0,
        };
    }
    Entered { returned, number }
}

// The same in a call that has come to a bus.
fn enter(
    state: State,
    from: Bus,
    g: Geometry,
    array: &mut [u8],
    register: &mut [u8],
    history: &mut [u8],
    mask: &[u8],
    fates: &[u32],
    allowed: u32,
    records: usize,
    sale: Sale,
) -> Entered
    requires lent { Lent (setting g mask.now fates.now) (line from array.old register.old history.old) }
    requires left_le_allowed { from.left ≤ allowed }
    requires last_lt_blocks { state.last < g.blocks }
    requires records_bound { records < room g }
    ensures { (cs : List Cycle) (os : List ArrayOperation) → appended (result_with result.returned.answer result.returned.state (device result.returned.interface array.new register.new history.new) result.returned.sent) result.number ≡ sale_end allowed records (change_from (setting g mask.now fates.now) state (sale_update g state records sale) (progress (line from array.old register.old history.old) Passed cs os)) }
{
    let mut page = [0u8; 4096];
    let main = g.main;
    write_sale(
        state,
        from,
        g,
        array,
        register,
        history,
        mask,
        fates,
        allowed,
        records,
        sale,
        &mut page[0..main],
    )
}

// Reads the journal to its end, as the first reads of a call, and sets a bit for each record that another replaces.
fn survey(
    state: State,
    g: Geometry,
    interface: Interface,
    array: &mut [u8],
    register: &mut [u8],
    history: &mut [u8],
    mask: &[u8],
    fates: &[u32],
    allowed: u32,
    replaced: &mut [u8],
) -> End
    requires mask_value { sized g (length array.old) (length register.old) (length history.old) (length mask.now) ≡ true }
    requires logical_value { mounted state g.blocks g.logical ≡ true }
    requires replaced_value { replaced.old ≡ replicate 8192 0 }
    ensures { Counted (setting g mask.now fates.now) state.map (pages_by g array.old state.map state.kinds) (call_line (device interface array.old register.old history.old) allowed) (line result.bus array.new register.new history.new) result.outcome result.records replaced.new }
{
    let from = request::begin(interface, allowed);
    let map = state.map;
    let kinds = state.kinds;
    let mut page = [0u8; 4096];
    let main = g.main;
    journal_read::find_end(
        from,
        g,
        array,
        register,
        history,
        mask,
        fates,
        &map,
        &kinds,
        &mut page[0..main],
        replaced,
    )
}

// Appends a record: reads the journal to its end, then writes the page after it.
pub fn append(
    state: State,
    g: Geometry,
    interface: Interface,
    array: &mut [u8],
    register: &mut [u8],
    history: &mut [u8],
    mask: &[u8],
    fates: &[u32],
    allowed: u32,
    sale: Sale,
) -> Entered
    ensures { appended (result_with result.returned.answer result.returned.state (device result.returned.interface array.new register.new history.new) result.returned.sent) result.number ≡ appending (setting g mask.now fates.now) (device interface array.old register.old history.old) allowed state sale }
{
    let refused = refusal(
        state,
        g,
        array.len(),
        register.len(),
        history.len(),
        mask.len(),
    );
    if refused != 0 {
        return Entered {
            returned: request_refusals::unchanged(refused, state, interface),
            number: 0,
        };
    }
    let mut replaced = [0u8; 8192];
    let found = survey(
        state,
        g,
        interface,
        array,
        register,
        history,
        mask,
        fates,
        allowed,
        &mut replaced,
    );
    let bus = found.bus;
    let outcome = found.outcome;
    let Outcome::Passed = outcome else {
        return Entered {
            returned: stop(outcome, bus, allowed),
            number: 0,
        };
    };
    let records = found.records;
    let late = append_refusal(
        &replaced,
        records,
        journal_read::room_for(g),
        wide(sale.replaces),
    );
    if late != 0 {
        return Entered {
            returned: request::end(late, state, bus, allowed),
            number: 0,
        };
    }
    enter(
        state, bus, g, array, register, history, mask, fates, allowed, records, sale,
    )
}

// Adds up the records in force, after the journal was read to its end.
fn add_up(
    state: State,
    from: Bus,
    g: Geometry,
    array: &mut [u8],
    register: &mut [u8],
    history: &mut [u8],
    mask: &[u8],
    fates: &[u32],
    allowed: u32,
    replaced: &[u8],
    records: usize,
) -> Total
    requires lent { Lent (setting g mask.now fates.now) (line from array.old register.old history.old) }
    requires left_le_allowed { from.left ≤ allowed }
    requires logical_value { mounted state g.blocks g.logical ≡ true }
    requires replaced_len { (length replaced.now ≡ 8192) × (records ≤ room g) }
    requires told { Told (pages_by g array.old state.map state.kinds) records replaced.now }
    ensures { (cs : List Cycle) (os : List ArrayOperation) → takings_result (result_with result.returned.answer result.returned.state (device result.returned.interface array.new register.new history.new) result.returned.sent) result.takings ≡ takings_end allowed state (takings (pages_by g array.old state.map state.kinds) records) (amounts_on (setting g mask.now fates.now) state.map (pages_by g array.old state.map state.kinds) records records (progress (line from array.old register.old history.old) Passed cs os)) }
{
    let map = state.map;
    let kinds = state.kinds;
    let sum = journal_read::total(
        from, g, array, register, history, mask, fates, &map, &kinds, replaced, records,
    );
    let bus = sum.bus;
    let outcome = sum.outcome;
    let Outcome::Passed = outcome else {
        return Total {
            returned: stop(outcome, bus, allowed),
            takings: 0,
        };
    };
    Total {
        returned: request::end(0, state, bus, allowed),
        takings: sum.sum,
    }
}

// The takings: the sum of count times price over the records in force.
pub fn takings(
    state: State,
    g: Geometry,
    interface: Interface,
    array: &mut [u8],
    register: &mut [u8],
    history: &mut [u8],
    mask: &[u8],
    fates: &[u32],
    allowed: u32,
) -> Total
    ensures { takings_result (result_with result.returned.answer result.returned.state (device result.returned.interface array.new register.new history.new) result.returned.sent) result.takings ≡ telling_takings (setting g mask.now fates.now) (device interface array.old register.old history.old) allowed state }
{
    let refused = refusal(
        state,
        g,
        array.len(),
        register.len(),
        history.len(),
        mask.len(),
    );
    if refused != 0 {
        return Total {
            returned: request_refusals::unchanged(refused, state, interface),
            takings: 0,
        };
    }
    let mut replaced = [0u8; 8192];
    let found = survey(
        state,
        g,
        interface,
        array,
        register,
        history,
        mask,
        fates,
        allowed,
        &mut replaced,
    );
    let bus = found.bus;
    let outcome = found.outcome;
    let Outcome::Passed = outcome else {
        return Total {
            returned: stop(outcome, bus, allowed),
            takings: 0,
        };
    };
    add_up(
        state,
        bus,
        g,
        array,
        register,
        history,
        mask,
        fates,
        allowed,
        &replaced,
        found.records,
    )
}
