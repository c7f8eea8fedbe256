// The first round of erases: every unmarked block, blocks rising; a block whose erase failed is read.
#![tactic(auto)]

ghost use Rattle.std.specs.Prelude.{cond, true, eqb, ◌≡◌, ◌<◌, length};
ghost use Rattle.geometry.specs.Sizes.{page_size};
ghost use Rattle.chip_array.specs.Device.{setting};
ghost use Rattle.bus.specs.Line.{line};
ghost use Rattle.bus_polling.specs.Outcomes.{answered};
ghost use Rattle.bus_polling.specs.declared.Outcome.TheVariants.{Failed};
ghost use Rattle.operations.specs.Ends.{Called};
ghost use Rattle.bitmaps.specs.Bitmap.{with_bit};
ghost use Rattle.format_erase.specs.Round.{no_numbers, joined, AfterDone, BlockDone, RoundDone};

use bus::Bus;
use bus_polling::Outcome;
use geometry::Geometry;

// The greatest number on whole pages, and whether there is one: `any` is 1 then. Else both are 0.
#[derive(Clone, Copy)]
pub struct Numbers {
    pub any: usize,
    pub greatest: u64,
}

impl Numbers {
    fn none() -> Self
        ensures { result ≡ no_numbers }
    {
        Self {
            any: 0,
            greatest: 0,
        }
    }

    // The numbers of two blocks.
    fn join(self, more: Self) -> Self
        ensures { result ≡ joined self more }
    {
        let some = more.any;
        if some == 0 {
            return self;
        }
        let any = self.any;
        if any == 0 {
            return more;
        }
        let greatest = self.greatest;
        let greater = more.greatest;
        if greatest < greater {
            return more;
        }
        self
    }
}

// The bus after one block of the first round, how its last operation ended, 1 where the erase failed, and then the
// numbers on what is left.
#[derive(Clone, Copy)]
struct BlockErased {
    bus: Bus,
    outcome: Outcome,
    failed: usize,
    numbers: Numbers,
}

// The end of a block whose erase did not fail.
fn not_failed(bus: Bus, outcome: Outcome) -> BlockErased
    ensures { result ≡ record { bus = bus; outcome = outcome; failed = 0; numbers = no_numbers } }
{
    BlockErased {
        bus,
        outcome,
        failed: 0,
        numbers: Numbers::none(),
    }
}

// Directly after an erase that failed every page is read whole.
fn read_failed(
    from: Bus,
    g: Geometry,
    array: &mut [u8],
    register: &mut [u8],
    history: &mut [u8],
    mask: &[u8],
    fates: &[u32],
    block: usize,
    page: &mut [u8],
) -> BlockErased
    requires called { Called (setting g mask.now fates.now) (line from array.old register.old history.old) }
    requires block_lt_blocks { block < g.blocks }
    requires page_len { length page.old ≡ page_size g }
    ensures { AfterDone (setting g mask.now fates.now) (line from array.old register.old history.old) (line result.bus array.new register.new history.new) Failed result.outcome block result.failed result.numbers }
{
    let mut bits = [0u8; 512];
    let scanned = scan_block::scan_block(
        from, g, array, register, history, mask, fates, block, page, &mut bits,
    );
    let bus = scanned.bus;
    let outcome = scanned.outcome;
    let summary = scanned.summary;
    let numbers = Numbers {
        any: usize::from(summary.any),
        greatest: summary.greatest,
    };
    BlockErased {
        bus,
        outcome,
        failed: 1,
        numbers,
    }
}

// After an erase that did not pass.
fn after_erase(
    from: Bus,
    outcome: Outcome,
    g: Geometry,
    array: &mut [u8],
    register: &mut [u8],
    history: &mut [u8],
    mask: &[u8],
    fates: &[u32],
    block: usize,
    page: &mut [u8],
) -> BlockErased
    requires called { answered outcome ≡ true → Called (setting g mask.now fates.now) (line from array.old register.old history.old) }
    requires block_lt_blocks { block < g.blocks }
    requires page_len { length page.old ≡ page_size g }
    ensures { AfterDone (setting g mask.now fates.now) (line from array.old register.old history.old) (line result.bus array.new register.new history.new) outcome result.outcome block result.failed result.numbers }
{
    match outcome {
        Outcome::Failed => read_failed(from, g, array, register, history, mask, fates, block, page),
        _ => not_failed(from, outcome),
    }
}

// Erases a block unless it bears a factory mark.
fn erase_block(
    from: Bus,
    g: Geometry,
    array: &mut [u8],
    register: &mut [u8],
    history: &mut [u8],
    mask: &[u8],
    fates: &[u32],
    marked: &[u8; 512],
    block: usize,
    page: &mut [u8],
) -> BlockErased
    requires called { Called (setting g mask.now fates.now) (line from array.old register.old history.old) }
    requires block_lt_blocks { block < g.blocks }
    requires page_len { length page.old ≡ page_size g }
    ensures { BlockDone (setting g mask.now fates.now) marked.now (line from array.old register.old history.old) (line result.bus array.new register.new history.new) result.outcome block result.failed result.numbers }
{
    if bitmaps::is_set(marked, block) {
        return not_failed(from, Outcome::Passed);
    }
    let row = geometry::row_of(g, block, 0);
    let erased = operations::erase(from, g, array, register, history, mask, fates, row);
    let b = erased.bus;
    let outcome = erased.outcome;
    let Outcome::Passed = outcome else {
        return after_erase(
            b, outcome, g, array, register, history, mask, fates, block, page,
        );
    };
    not_failed(b, outcome)
}

// The bus after the first round, how its last operation ended, the blocks that failed, and the numbers on what is left of
// them.
#[derive(Clone, Copy)]
pub struct Erased {
    pub bus: Bus,
    pub outcome: Outcome,
    pub invalid: [u8; 512],
    pub numbers: Numbers,
}

// Sets the bit of a block whose erase failed.
fn note_failed(invalid: &mut [u8; 512], block: usize, failed: usize)
    requires { block < 4096 }
    ensures { invalid.new ≡ cond (eqb failed 0) invalid.old (with_bit invalid.old block) }
{
    if failed != 0 {
        bitmaps::set_bit(invalid, block);
    }
}

// Erases every block that bears no factory mark, blocks rising.
pub fn erase_all(
    from: Bus,
    g: Geometry,
    array: &mut [u8],
    register: &mut [u8],
    history: &mut [u8],
    mask: &[u8],
    fates: &[u32],
    marked: &[u8; 512],
    page: &mut [u8],
) -> Erased
    requires called { Called (setting g mask.now fates.now) (line from array.old register.old history.old) }
    requires page_len { length page.old ≡ page_size g }
    ensures { RoundDone (setting g mask.now fates.now) marked.now (line from array.old register.old history.old) (line result.bus array.new register.new history.new) result.outcome result.invalid result.numbers }
{
    let mut b = from;
    let mut invalid = [0u8; 512];
    let mut numbers = Numbers::none();
    let mut block: usize = 0;
    let blocks = g.blocks;
    while block < blocks {
        let done = erase_block(
            b, g, array, register, history, mask, fates, marked, block, page,
        );
        b = done.bus;
        let outcome = done.outcome;
        let Outcome::Passed = outcome else {
            return Erased {
                bus: b,
                outcome,
                invalid,
                numbers,
            };
        };
        note_failed(&mut invalid, block, done.failed);
        let more = done.numbers;
        numbers = numbers.join(more);
        block += 1;
    }
    Erased {
        bus: b,
        outcome: Outcome::Passed,
        invalid,
        numbers,
    }
}
