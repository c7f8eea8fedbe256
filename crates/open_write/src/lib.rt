// A write that is open between calls: the words kept of it, where it stands, and its page.
#![tactic(auto)]

ghost use Rattle.std.specs.Prelude.{cond, ◌≡◌, ◌≤◌, eqb, length, replicate};
ghost use Rattle.state.specs.declared.State.{State};
ghost use Rattle.open_write.specs.Open.{open_state, cursor_of, words_of, no_write, kept_page, words_fit, open_fits};
ghost use Rattle.open_write.specs.Requests.{stops};

use fill_cursor::Cursor;
use geometry::Geometry;

// Bytes kept for the page.
pub const KEPT: usize = 4096;

// The write that is open, as it is kept beside the state. Its words are numbers, since they come from C: every value of every word
// has a meaning.
#[derive(Clone, Copy)]
pub struct OpenWrite {
    // 0 none is open, any other value one is.
    pub opened: usize,
    // 0 fills a data copy, any other value a table.
    pub phase: usize,
    // 0 a number and a block are due, any other value a page.
    pub step: usize,
    // The page that it writes, and the block of the old copy, none where it is not on the chip.
    pub logical: usize,
    pub first: usize,
    pub old: usize,
    // The fill: its block, its number, and the page that is due.
    pub block: usize,
    pub number: u64,
    pub page: usize,
    // 0 no block has failed, any other value one has.
    pub failed: usize,
}

// 0 for 0, else another number.
fn told(word: usize, other: usize) -> usize
    ensures { result ≡ cond (eqb word 0) 0 other }
{
    if word == 0 { 0 } else { other }
}

impl OpenWrite {
    // None is open: 0 in all words.
    pub fn none() -> Self
        ensures { result ≡ no_write }
    {
        Self {
            opened: 0,
            phase: 0,
            step: 0,
            logical: 0,
            first: 0,
            old: 0,
            block: 0,
            number: 0,
            page: 0,
            failed: 0,
        }
    }

    // The words kept of a write that stands so.
    pub fn keep(c: Cursor) -> Self
        ensures { result ≡ words_of c }
    {
        Self {
            opened: 1,
            phase: c.phase,
            step: c.step,
            logical: c.logical,
            first: c.first,
            old: c.old,
            block: c.block,
            number: c.number,
            page: c.page,
            failed: c.failed,
        }
    }

    // Where the write stands.
    pub fn cursor(self) -> Cursor
        ensures { result ≡ cursor_of self }
    {
        Cursor {
            phase: told(self.phase, 1),
            step: told(self.step, 2),
            logical: self.logical,
            first: self.first,
            count: 1,
            old: self.old,
            block: self.block,
            number: self.number,
            page: self.page,
            failed: self.failed,
            answer: 0,
        }
    }

    // Whether its logical block and page, the block being filled and its page are in the geometry.
    fn is_inside(self, g: Geometry) -> bool
        ensures { result ≡ words_fit g self }
    {
        self.logical < g.logical
            && self.first < g.pages
            && self.block < g.blocks
            && self.page < g.pages
    }

    // Whether what is open lies in the geometry, with this buffer for its page.
    pub fn fits(self, kept: &[u8], g: Geometry) -> bool
        ensures { (st : State) → result ≡ open_fits g (open_state st self kept.now) }
    {
        kept.len() == KEPT && (self.opened == 0 || self.is_inside(g))
    }
}

// Whether a request with this answer stops the state.
pub fn is_stopping(answer: usize) -> bool
    ensures { result ≡ stops answer }
{
    matches!(answer, 8..=11 | 255)
}

// Clears the buffer of the page.
pub fn clear(kept: &mut [u8])
    ensures { kept.new ≡ replicate (length kept.old) 0 }
{
    kept.fill(0);
}

// Keeps the bytes of a page, the rest of the buffer 0.
pub fn keep_page(bytes: &[u8], kept: &mut [u8])
    requires { length bytes.now ≤ length kept.old }
    ensures { kept.new ≡ kept_page bytes.now kept.old }
{
    clear(kept);
    cells::copy(bytes, kept);
}
