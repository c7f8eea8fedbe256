// A write or erase on its way: a cursor over its fills, and what is due next. Nothing here touches a chip.
#![tactic(auto)]

ghost use Rattle.std.specs.Prelude.{◌≡◌, ◌<◌};
ghost use Rattle.geometry.specs.Limits.{Valid};
ghost use Rattle.fill_cursor.specs.Cursor.{moved, first_cursor, ended, filling, on_page, stopped, prepared, page_after, programs, is_open_now, filled_whole, unfilled, after_action, withdrawn, settled};

use bus_polling::Outcome;
use geometry::Geometry;
use state::State;

// Where a request stands: which fill, and what is due in it. Phase, step, failed and answer stay numbers: the laws of fill_laws,
// fill_driver and the recovery crates speak of them, and an open write keeps them as words for C.
#[derive(Clone, Copy)]
pub struct Cursor {
    // 0 fills a data copy, 1 a table, 2 has ended.
    pub phase: usize,
    // 0 a number and a block are due, 1 the erase, 2 a page.
    pub step: usize,
    // The request: its logical block, the pages given, so many from the first on, and the block of the old copy.
    pub logical: usize,
    pub first: usize,
    pub count: usize,
    pub old: usize,
    // The fill: its block, its number, and the page that is due.
    pub block: usize,
    pub number: u64,
    pub page: usize,
    // 1 once a block failed.
    pub failed: usize,
    pub answer: usize,
}

// A cursor with the state that goes with it.
#[derive(Clone, Copy)]
pub struct Running {
    pub cursor: Cursor,
    pub state: State,
}

// The state after an operation on a block that did not pass: one that failed makes the block invalid.
fn withdraw(state: State, block: usize, outcome: Outcome) -> State
    requires { block < 4096 }
    ensures { result ≡ withdrawn block state outcome }
{
    let Outcome::Failed = outcome else {
        return State::blank(2);
    };
    state.mark_invalid(block)
}

impl Cursor {
    // A request that starts in a phase.
    pub fn begin(phase: usize, logical: usize, first: usize, count: usize, old: usize) -> Self
        ensures { result ≡ first_cursor phase logical first count old }
    {
        Self {
            phase,
            step: 0,
            logical,
            first,
            count,
            old,
            block: 0,
            number: 0,
            page: 0,
            failed: 0,
            answer: 0,
        }
    }

    // One that has ended is 0 in all other fields.
    fn end(answer: usize) -> Self
        ensures { result ≡ ended answer }
    {
        Self {
            phase: 2,
            step: 0,
            logical: 0,
            first: 0,
            count: 0,
            old: 0,
            block: 0,
            number: 0,
            page: 0,
            failed: 0,
            answer,
        }
    }

    fn fill(mut self, block: usize, number: u64) -> Self
        ensures { result ≡ filling block number self }
    {
        self.step = 1;
        self.block = block;
        self.number = number;
        self.page = 0;
        self
    }

    fn at_page(mut self, page: usize) -> Self
        ensures { result ≡ on_page page self }
    {
        self.step = 2;
        self.page = page;
        self
    }

    // Another fill is due, in a phase.
    fn again(mut self, phase: usize, failed: usize) -> Self
        ensures { result ≡ moved phase 0 0 0 0 failed self }
    {
        self.phase = phase;
        self.step = 0;
        self.block = 0;
        self.number = 0;
        self.page = 0;
        self.failed = failed;
        self
    }

    // The page programs of what is due.
    pub fn programs(self) -> u64
        ensures { result ≡ programs self }
    {
        u64::from(self.step == 2)
    }

    // Whether something is due, with so many page programs left.
    pub fn is_open(self, left: u64) -> bool
        ensures { result ≡ is_open_now self left }
    {
        left != 0 && self.phase < 2
    }

    // The page that is due after an erase or a page that passed.
    fn page_after(self) -> usize
        requires { self.page < 64 }
        ensures { result ≡ page_after self }
    {
        if self.step == 1 { 0 } else { self.page + 1 }
    }

    // What is due after the last page of a fill passed: a table follows a copy if any block failed.
    fn finish(self) -> Self
        ensures { result ≡ filled_whole self }
    {
        if self.phase == 0 && self.failed != 0 {
            self.again(1, self.failed)
        } else {
            Cursor::end(0)
        }
    }

    // What is due after an operation that did not pass.
    fn replace(self, outcome: Outcome) -> Self
        ensures { result ≡ unfilled self outcome }
    {
        let Outcome::Failed = outcome else {
            return Cursor::end(request::stop_answer(outcome));
        };
        self.again(self.phase, 1)
    }

    // What is due after the erase or page that was due ended so.
    pub fn after(self, pages: usize, outcome: Outcome) -> Self
        requires { self.page < 64 }
        ensures { result ≡ after_action pages self outcome }
    {
        let Outcome::Passed = outcome else {
            return self.replace(outcome);
        };
        let page = self.page_after();
        if page < pages {
            self.at_page(page)
        } else {
            self.finish()
        }
    }

    // The state after a passed fill, or after an operation that did not pass.
    pub fn settle(self, state: State, outcome: Outcome) -> State
        requires { (self.logical < 4096) × (self.block < 4096) }
        ensures { result ≡ settled self state outcome }
    {
        let Outcome::Passed = outcome else {
            return withdraw(state, self.block, outcome);
        };
        if self.phase == 0 {
            state.record_copy(pages::DATA, self.logical, self.block)
        } else {
            state.record_table(self.block)
        }
    }
}

fn stop(answer: usize) -> Running
    ensures { result ≡ stopped answer }
{
    Running {
        cursor: Cursor::end(answer),
        state: State::blank(2),
    }
}

// Takes the next number, then the next permitted block.
pub fn prepare(c: Cursor, state: State, g: Geometry) -> Running
    requires valid { Valid g }
    requires last_lt_blocks { state.last < g.blocks }
    ensures { result ≡ prepared g c state }
{
    if state.is_spent() {
        return stop(9);
    }
    let number = state.next_number();
    let taken = state.take_number();
    let held = state.held(g.logical);
    let Some(block) = taken.choose_block(&held, g.blocks) else {
        return stop(8);
    };
    Running {
        cursor: c.fill(block, number),
        state: taken,
    }
}
