// The scan of a block at either depth: every page, or what a quick mount reads of it.
#![tactic(auto)]

ghost use Rattle.std.specs.Prelude.{true, ◌≡◌, ◌<◌, ◌≤◌, length};
ghost use Rattle.geometry.specs.Sizes.{page_size};
ghost use Rattle.bitmaps.specs.Bitmap.{bitmap_bytes};
ghost use Rattle.chip_array.specs.Device.{setting};
ghost use Rattle.bus.specs.Line.{line};
ghost use Rattle.bus_polling.specs.Outcomes.{is_passed};
ghost use Rattle.operations.specs.Ends.{Called};
ghost use Rattle.scan_summary.specs.declared.Depth.TheVariants.{Quick};
ghost use Rattle.scan_quick.specs.BlockRead.{MarkScanned, BlockScanned};

use bus::Bus;
use bus_polling::Outcome;
use geometry::Geometry;
use scan_block::Scanned;
use scan_summary::{Depth, Summary};

// Goes on with a scan, if all before passed: reads the mark byte of page 1.
fn scan_mark(
    from: Scanned,
    g: Geometry,
    array: &mut [u8],
    register: &mut [u8],
    history: &mut [u8],
    mask: &[u8],
    fates: &[u32],
    block: usize,
) -> Scanned
    requires called { is_passed from.outcome ≡ true → Called (setting g mask.now fates.now) (line from.bus array.old register.old history.old) }
    requires block_lt_blocks { block < g.blocks }
    ensures { MarkScanned (setting g mask.now fates.now) (line from.bus array.old register.old history.old) (line result.bus array.new register.new history.new) from.outcome result.outcome block from.summary result.summary from.right result.right }
{
    let begun = from.outcome;
    let Outcome::Passed = begun else {
        return from;
    };
    let before = from.bus;
    let mark = scan_block::read_mark(before, g, array, register, history, mask, fates, block, 1);
    let bus = mark.bus;
    let outcome = mark.outcome;
    let summary = from.summary;
    Scanned {
        bus,
        outcome,
        summary: summary.mark(mark.byte),
        right: from.right,
    }
}

// Reads the first page, the last page, the mark byte of page 1, and then the other pages where the first and the last are both whole.
fn scan_quick(
    from: Bus,
    g: Geometry,
    array: &mut [u8],
    register: &mut [u8],
    history: &mut [u8],
    mask: &[u8],
    fates: &[u32],
    block: usize,
    page: &mut [u8],
    bits: &mut [u8],
) -> Scanned
    requires called { Called (setting g mask.now fates.now) (line from array.old register.old history.old) }
    requires block_lt_blocks { block < g.blocks }
    requires page_len { length page.old ≡ page_size g }
    requires blocks_in_bounds { bitmap_bytes g.blocks ≤ length bits.old }
    ensures { BlockScanned Quick (setting g mask.now fates.now) (line from array.old register.old history.old) (line result.bus array.new register.new history.new) result.outcome block result.summary result.right bits.old bits.new }
{
    let main = g.main;
    let last = g.pages - 1;
    let rest = g.pages - 2;
    let start = Scanned {
        bus: from,
        outcome: Outcome::Passed,
        summary: Summary::blank(),
        right: 1,
    };
    let first = scan_block::scan_pages(
        start, g, array, register, history, mask, fates, block, 0, 1, page, bits,
    );
    let begins_whole = pages::is_whole(page, main);
    let both = scan_block::scan_pages(
        first, g, array, register, history, mask, fates, block, last, 1, page, bits,
    );
    let ends_whole = pages::is_whole(page, main);
    let marked = scan_mark(both, g, array, register, history, mask, fates, block);
    if !begins_whole {
        return marked;
    }
    if !ends_whole {
        return marked;
    }
    scan_block::scan_pages(
        marked, g, array, register, history, mask, fates, block, 1, rest, page, bits,
    )
}

// Reads a block at the depth given, through a page buffer. `bits` takes the bitmap of page 0, as if it were a table's.
pub fn scan_at(
    depth: Depth,
    from: Bus,
    g: Geometry,
    array: &mut [u8],
    register: &mut [u8],
    history: &mut [u8],
    mask: &[u8],
    fates: &[u32],
    block: usize,
    page: &mut [u8],
    bits: &mut [u8],
) -> Scanned
    requires called { Called (setting g mask.now fates.now) (line from array.old register.old history.old) }
    requires block_lt_blocks { block < g.blocks }
    requires page_len { length page.old ≡ page_size g }
    requires blocks_in_bounds { bitmap_bytes g.blocks ≤ length bits.old }
    ensures { BlockScanned depth (setting g mask.now fates.now) (line from array.old register.old history.old) (line result.bus array.new register.new history.new) result.outcome block result.summary result.right bits.old bits.new }
{
    let Depth::Full = depth else {
        return scan_quick(
            from, g, array, register, history, mask, fates, block, page, bits,
        );
    };
    scan_block::scan_block(
        from, g, array, register, history, mask, fates, block, page, bits,
    )
}
