// The requests that open a write and go on with it.
#![tactic(auto)]

ghost use Rattle.std.specs.Prelude.{false, cond, List, ◌≡◌, ℕ, ◌≤◌, ◌<◌, eqb, length, take};
ghost use Rattle.chip_array.specs.Device.{device, setting};
ghost use Rattle.chip.specs.Chip.{Cycle};
ghost use Rattle.bus.specs.Line.{line};
ghost use Rattle.bus_polling.specs.Outcomes.{is_passed};
ghost use Rattle.bus_polling.specs.declared.Outcome.{Outcome};
ghost use Rattle.operations.specs.Ends.{Lent};
ghost use Rattle.operations.specs.Trace.{ArrayOperation};
ghost use Rattle.progress.specs.Progress.{progress};
ghost use Rattle.request.specs.Call.{sized};
ghost use Rattle.fill_cursor.specs.Cursor.{Fits, running};
ghost use Rattle.fill_driver.specs.Driver.{ran_to, RanAs};
ghost use Rattle.state.specs.declared.State.{State};
ghost use Rattle.open_write.specs.Open.{open_state};
ghost use Rattle.open_write.specs.declared.OpenWrite.{OpenWrite};
ghost use Rattle.open_write.specs.Requests.{open_result, open_refusal, open_end, opening_write, advanced, advance_end, advancing_write};
ghost use Rattle.open_requests.specs.Opening.{opening_refusal};

use bus::Bus;
use bus_polling::Outcome;
use chip_interface::Interface;
use fill_cursor::{Cursor, Running};
use fill_driver::Ran;
use geometry::Geometry;
use open_write::OpenWrite;
use request::Returned;
use state::State;

// What an opening returns, and the write as it is kept.
#[derive(Clone, Copy)]
pub struct Opened {
    pub returned: Returned,
    pub write: OpenWrite,
}

// What an advance returns, the write as it is kept, and 1 if it is finished.
#[derive(Clone, Copy)]
pub struct Advanced {
    pub returned: Returned,
    pub write: OpenWrite,
    pub finished: usize,
}

fn wide(x: u16) -> usize
    ensures { result ≡ x }
{
    x as usize
}

// 1, 7 or 15, 0 where a request goes on. Barred is one that may not come while a write is open, or only then.
pub fn refusal(
    state: State,
    write: OpenWrite,
    kept: &[u8],
    g: Geometry,
    array: usize,
    register: usize,
    history: usize,
    mask: usize,
    barred: bool,
) -> usize
    ensures { result ≡ open_refusal g (sized g array register history mask) (open_state state write kept.now) barred }
{
    if !request::is_sized(g, array, register, history, mask) {
        return 1;
    }
    if !state.is_mounted(g.blocks, g.logical) {
        return 7;
    }
    if !write.fits(kept, g) {
        return 7;
    }
    if barred {
        return 15;
    }
    0
}

// The refusal of an opening, 0 where there is none.
fn opening_refusal(
    state: State,
    write: OpenWrite,
    kept: &[u8],
    g: Geometry,
    array: usize,
    register: usize,
    history: usize,
    mask: usize,
    logical: usize,
    page: usize,
    long: usize,
) -> usize
    ensures { result ≡ opening_refusal g (sized g array register history mask) (open_state state write kept.now) logical page long }
{
    let opened = write.opened;
    let held = refusal(
        state,
        write,
        kept,
        g,
        array,
        register,
        history,
        mask,
        opened != 0,
    );
    if held != 0 {
        return held;
    }
    request_refusals::refusal(
        state, g, array, register, history, mask, logical, page, long,
    )
}

// The end of an opening whose status read did not show that the chip may be written.
fn stop(
    outcome: Outcome,
    state: State,
    write: OpenWrite,
    kept: &mut [u8],
    bus: Bus,
    allowed: u32,
) -> Opened
    requires left_le_allowed { bus.left ≤ allowed }
    requires outcome_value { is_passed outcome ≡ false }
    ensures { (a p h : List ℕ) (cs : List Cycle) (os : List ArrayOperation) (logical page : ℕ) (bytes : List ℕ) → open_result result.returned.answer (open_state result.returned.state result.write kept.new) (device result.returned.interface a p h) result.returned.sent ≡ open_end allowed (open_state state write kept.old) logical page bytes (progress (line bus a p h) outcome cs os) }
{
    let answer = request::status_answer(outcome);
    let returned = request::end(answer, request::status_state(outcome, state), bus, allowed);
    if !open_write::is_stopping(answer) {
        return Opened { returned, write };
    }
    open_write::clear(kept);
    let none = OpenWrite::none();
    Opened {
        returned,
        write: none,
    }
}

// The end of an opening once the status is read.
fn settle(
    outcome: Outcome,
    state: State,
    write: OpenWrite,
    kept: &mut [u8],
    logical: usize,
    page: usize,
    bytes: &[u8],
    bus: Bus,
    allowed: u32,
) -> Opened
    requires left_le_allowed { bus.left ≤ allowed }
    requires logical_bound { logical < 4096 }
    requires bytes_in_bounds { length bytes.now ≤ length kept.old }
    ensures { (a p h : List ℕ) (cs : List Cycle) (os : List ArrayOperation) → open_result result.returned.answer (open_state result.returned.state result.write kept.new) (device result.returned.interface a p h) result.returned.sent ≡ open_end allowed (open_state state write kept.old) logical page bytes.now (progress (line bus a p h) outcome cs os) }
{
    let Outcome::Passed = outcome else {
        return stop(outcome, state, write, kept, bus, allowed);
    };
    open_write::keep_page(bytes, kept);
    let map = state.map;
    let cursor = Cursor::begin(0, logical, page, 1, wide(map[logical]));
    let returned = request::end(0, state, bus, allowed);
    let opened = OpenWrite::keep(cursor);
    Opened {
        returned,
        write: opened,
    }
}

// Opens a write of one page: the status is read, and no more. The page is kept in a buffer of 4,096 bytes.
pub fn open(
    state: State,
    write: OpenWrite,
    kept: &mut [u8],
    g: Geometry,
    interface: Interface,
    array: &mut [u8],
    register: &mut [u8],
    history: &mut [u8],
    mask: &[u8],
    fates: &[u32],
    allowed: u32,
    logical: usize,
    page: usize,
    bytes: &[u8],
) -> Opened
    ensures { open_result result.returned.answer (open_state result.returned.state result.write kept.new) (device result.returned.interface array.new register.new history.new) result.returned.sent ≡ opening_write (setting g mask.now fates.now) (device interface array.old register.old history.old) allowed (open_state state write kept.old) logical page bytes.now }
{
    let refused = opening_refusal(
        state,
        write,
        kept,
        g,
        array.len(),
        register.len(),
        history.len(),
        mask.len(),
        logical,
        page,
        bytes.len(),
    );
    if refused != 0 {
        let returned = request_refusals::unchanged(refused, state, interface);
        return Opened { returned, write };
    }
    let from = request::begin(interface, allowed);
    let shown = operations::read_status(from, g, array, register, history, mask, fates);
    let outcome = shown.outcome;
    let bus = shown.bus;
    settle(
        outcome, state, write, kept, logical, page, bytes, bus, allowed,
    )
}

// Goes on with what is due, with the page that is kept.
fn go_on(
    from: Bus,
    g: Geometry,
    array: &mut [u8],
    register: &mut [u8],
    history: &mut [u8],
    mask: &[u8],
    fates: &[u32],
    start: Running,
    kept: &[u8],
    most: u64,
) -> Ran
    requires lent { Lent (setting g mask.now fates.now) (line from array.old register.old history.old) }
    requires fits { Fits g g.main start.cursor }
    requires last_lt_blocks { start.state.last < g.blocks }
    requires main_in_bounds { g.main ≤ length kept.now }
    ensures { RanAs (setting g mask.now fates.now) (take g.main kept.now) most start (line from array.old register.old history.old) (line result.bus array.new register.new history.new) (running result.cursor result.state) }
{
    let mut page = [0u8; 4352];
    let size = geometry::page_size(g);
    let main = g.main;
    fill_driver::run(
        from,
        g,
        array,
        register,
        history,
        mask,
        fates,
        start,
        &kept[0..main],
        &mut page[0..size],
        most,
    )
}

// 1 if the write is finished, by its answer.
fn is_finished(answer: usize) -> usize
    ensures { result ≡ cond (eqb answer 0) 1 0 }
{
    if answer == 0 {
        return 1;
    }
    0
}

// The end of an advance: the write is still open, or it has ended and nothing is kept of it.
fn leave(ran: Ran, kept: &mut [u8], allowed: u32) -> Advanced
    requires { ran.bus.left ≤ allowed }
    ensures { (st : State) (w : OpenWrite) (a p h : List ℕ) (o : Outcome) (cs : List Cycle) (os : List ArrayOperation) → advanced (open_result result.returned.answer (open_state result.returned.state result.write kept.new) (device result.returned.interface a p h) result.returned.sent) result.finished ≡ advance_end allowed (open_state st w kept.old) (ran_to (progress (line ran.bus a p h) o cs os) (running ran.cursor ran.state)) }
{
    let cursor = ran.cursor;
    let state = ran.state;
    let bus = ran.bus;
    let phase = cursor.phase;
    if phase < 2 {
        let write = OpenWrite::keep(cursor);
        let returned = request::end(0, state, bus, allowed);
        return Advanced {
            returned,
            write,
            finished: 0,
        };
    }
    open_write::clear(kept);
    let answer = cursor.answer;
    let none = OpenWrite::none();
    let returned = request::end(answer, state, bus, allowed);
    Advanced {
        returned,
        write: none,
        finished: is_finished(answer),
    }
}

// Goes on with the write that is open, by at most so many page programs.
pub fn advance(
    state: State,
    write: OpenWrite,
    kept: &mut [u8],
    g: Geometry,
    interface: Interface,
    array: &mut [u8],
    register: &mut [u8],
    history: &mut [u8],
    mask: &[u8],
    fates: &[u32],
    allowed: u32,
    most: u64,
) -> Advanced
    ensures { advanced (open_result result.returned.answer (open_state result.returned.state result.write kept.new) (device result.returned.interface array.new register.new history.new) result.returned.sent) result.finished ≡ advancing_write (setting g mask.now fates.now) (device interface array.old register.old history.old) allowed (open_state state write kept.old) most }
{
    let opened = write.opened;
    let refused = refusal(
        state,
        write,
        kept,
        g,
        array.len(),
        register.len(),
        history.len(),
        mask.len(),
        opened == 0,
    );
    if refused != 0 {
        let returned = request_refusals::unchanged(refused, state, interface);
        return Advanced {
            returned,
            write,
            finished: 0,
        };
    }
    let from = request::begin(interface, allowed);
    let cursor = write.cursor();
    let start = Running { cursor, state };
    let ran = go_on(
        from, g, array, register, history, mask, fates, start, kept, most,
    );
    leave(ran, kept, allowed)
}
