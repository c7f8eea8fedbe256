// The scan of a block: its pages read whole through the bus, in order, and what they tell; and the byte of a factory mark alone.
#![tactic(auto)]

ghost use Rattle.std.specs.Prelude.{true, cond, List, ◌≡◌, ◌+◌, ◌<◌, ◌≤◌, length};
ghost use Rattle.geometry.specs.Sizes.{page_size};
ghost use Rattle.chip_array.specs.Device.{setting};
ghost use Rattle.chip.specs.Chip.{Cycle};
ghost use Rattle.bus.specs.Line.{line};
ghost use Rattle.bus_polling.specs.Outcomes.{is_passed};
ghost use Rattle.bus_polling.specs.declared.Outcome.TheVariants.{Passed};
ghost use Rattle.operations.specs.Ends.{Called};
ghost use Rattle.operations.specs.Trace.{ArrayOperation};
ghost use Rattle.copies.specs.Blocks.{block_in, main_in};
ghost use Rattle.scan_summary.specs.Summary.{summed};
ghost use Rattle.bitmaps.specs.Bitmap.{bitmap_bytes};
ghost use Rattle.copies.specs.Table.{bitmap_of, layout_to};
ghost use Rattle.cells.specs.Part.{put};
ghost use Rattle.progress.specs.Progress.{progress};
ghost use Rattle.scan_block.specs.Gathered.{PagesScanned, gathered};
ghost use Rattle.scan_block.specs.Mark.{MarkRead};
ghost use Rattle.scan_block.specs.Pages.{pages_read};

use bus::Bus;
use bus_polling::Outcome;
use geometry::Geometry;
use scan_summary::Summary;

// The bus after a scan, how its last read ended, and what the pages told if all passed.
#[derive(Clone, Copy)]
pub struct Scanned {
    pub bus: Bus,
    pub outcome: Outcome,
    pub summary: Summary,
    // 1 where every page is as a table's, 2 where it is as that of a table for another number of logical blocks.
    pub right: usize,
}

// Goes on with a scan, if all before passed: reads `count` pages of a block whole, in order, from page `first` on, through a page
// buffer. `bits` takes the bitmap of page 0, as if it were a table's.
pub fn scan_pages(
    from: Scanned,
    g: Geometry,
    array: &mut [u8],
    register: &mut [u8],
    history: &mut [u8],
    mask: &[u8],
    fates: &[u32],
    block: usize,
    first: usize,
    count: usize,
    page: &mut [u8],
    bits: &mut [u8],
) -> Scanned
    requires called { is_passed from.outcome ≡ true → Called (setting g mask.now fates.now) (line from.bus array.old register.old history.old) }
    requires block_lt_blocks { block < g.blocks }
    requires count_bound { first + count ≤ g.pages }
    requires page_len { length page.old ≡ page_size g }
    requires blocks_in_bounds { bitmap_bytes g.blocks ≤ length bits.old }
    ensures { PagesScanned (setting g mask.now fates.now) (line from.bus array.old register.old history.old) (line result.bus array.new register.new history.new) from.outcome result.outcome block first count (gathered from.summary from.right bits.old page.old) (gathered result.summary result.right bits.new page.new) }
{
    let begun = from.outcome;
    let Outcome::Passed = begun else {
        return from;
    };
    let mut b = from.bus;
    let mut summary = from.summary;
    let mut right = from.right;
    let mut done: usize = 0;
    let main = g.main;
    while done < count {
        let place = first + done;
        let row = geometry::row_of(g, block, place);
        let read = operations::read(b, g, array, register, history, mask, fates, row, 0, page);
        b = read.bus;
        let outcome = read.outcome;
        let Outcome::Passed = outcome else {
            return Scanned {
                bus: b,
                outcome,
                summary,
                right,
            };
        };
        summary = summary.step(page, main, place);
        right = table::right_with(right, page, g, place);
        table::copy_bitmap(page, g, place, bits);
        done += 1;
    }
    Scanned {
        bus: b,
        outcome: Outcome::Passed,
        summary,
        right,
    }
}

// Reads a block's pages whole, in order, through a page buffer. `bits` takes the bitmap of page 0, as if it were a table's.
pub fn scan_block(
    from: Bus,
    g: Geometry,
    array: &mut [u8],
    register: &mut [u8],
    history: &mut [u8],
    mask: &[u8],
    fates: &[u32],
    block: usize,
    page: &mut [u8],
    bits: &mut [u8],
) -> Scanned
    requires called { Called (setting g mask.now fates.now) (line from array.old register.old history.old) }
    requires block_lt_blocks { block < g.blocks }
    requires page_len { length page.old ≡ page_size g }
    requires blocks_in_bounds { bitmap_bytes g.blocks ≤ length bits.old }
    ensures history_after { (cs : List Cycle) (os : List ArrayOperation) → line result.bus array.new register.new history.new ≡ (pages_read (setting g mask.now fates.now) block g.pages (progress (line from array.old register.old history.old) Passed cs os)).line }
    ensures outcome_value { (cs : List Cycle) (os : List ArrayOperation) → result.outcome ≡ (pages_read (setting g mask.now fates.now) block g.pages (progress (line from array.old register.old history.old) Passed cs os)).outcome }
    ensures array_unchanged { array.new ≡ array.old }
    ensures history_unchanged { history.new ≡ history.old }
    ensures called_2 { is_passed result.outcome ≡ true → Called (setting g mask.now fates.now) (line result.bus array.new register.new history.new) }
    ensures summary_value { is_passed result.outcome ≡ true → result.summary ≡ summed g (block_in g array.old block) g.pages }
    ensures right_value { is_passed result.outcome ≡ true → result.right ≡ layout_to g (block_in g array.old block) g.pages }
    ensures bits_after { is_passed result.outcome ≡ true → bits.new ≡ put 0 (bitmap_of g.blocks (main_in g (block_in g array.old block) 0)) bits.old }
{
    let start = Scanned {
        bus: from,
        outcome: Outcome::Passed,
        summary: Summary::blank(),
        right: 1,
    };
    scan_pages(
        start, g, array, register, history, mask, fates, block, 0, g.pages, page, bits,
    )
}

// The bus after one mark byte was read, how the read ended, and the byte.
#[derive(Clone, Copy)]
pub struct Mark {
    pub bus: Bus,
    pub outcome: Outcome,
    pub byte: u8,
}

// The byte in the place of a factory mark, of one page.
pub fn read_mark(
    from: Bus,
    g: Geometry,
    array: &mut [u8],
    register: &mut [u8],
    history: &mut [u8],
    mask: &[u8],
    fates: &[u32],
    block: usize,
    place: usize,
) -> Mark
    requires called { Called (setting g mask.now fates.now) (line from array.old register.old history.old) }
    requires block_lt_blocks { block < g.blocks }
    requires place_lt_pages { place < g.pages }
    ensures { MarkRead (setting g mask.now fates.now) (line from array.old register.old history.old) (line result.bus array.new register.new history.new) result.outcome block place result.byte }
{
    let row = geometry::row_of(g, block, place);
    let mut byte = [0u8; 1];
    let done = operations::read(
        from, g, array, register, history, mask, fates, row, g.main, &mut byte,
    );
    let bus = done.bus;
    let outcome = done.outcome;
    Mark {
        bus,
        outcome,
        byte: byte[0],
    }
}
