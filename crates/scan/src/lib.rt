// The scan of the chip: every block read through the bus at one depth, and what was found.
#![tactic(auto)]

ghost use Rattle.std.specs.Prelude.{true, List, ◌≡◌, ◌<◌, ◌≤◌, length};
ghost use Rattle.geometry.specs.Sizes.{page_size};
ghost use Rattle.chip_array.specs.Device.{setting};
ghost use Rattle.chip.specs.Chip.{Cycle};
ghost use Rattle.bus.specs.Line.{line};
ghost use Rattle.bus_polling.specs.Outcomes.{is_passed};
ghost use Rattle.bus_polling.specs.declared.Outcome.TheVariants.{Passed};
ghost use Rattle.operations.specs.Ends.{Called};
ghost use Rattle.operations.specs.Trace.{ArrayOperation};
ghost use Rattle.progress.specs.Progress.{progress};
ghost use Rattle.scan_found.specs.Found.{found_to};
ghost use Rattle.scan_found.specs.Contents.{contents, contents_to};
ghost use Rattle.scan.specs.Scan.{blocks_read};

use bus::Bus;
use bus_polling::Outcome;
use geometry::Geometry;
use scan_found::Found;
use scan_summary::Depth;

// The bus after a scan of the chip, how its last read ended, and what was found if all passed.
#[derive(Clone, Copy)]
pub struct ChipScanned {
    pub bus: Bus,
    pub outcome: Outcome,
    pub found: Found,
}

// Reads every block at the depth given, in order, through a page buffer. Kind, logical block and number of each
// complete block go to the last three buffers.
pub fn scan_chip(
    depth: Depth,
    from: Bus,
    g: Geometry,
    array: &mut [u8],
    register: &mut [u8],
    history: &mut [u8],
    mask: &[u8],
    fates: &[u32],
    page: &mut [u8],
    kinds: &mut [u8],
    logicals: &mut [u16],
    numbers: &mut [u64],
) -> ChipScanned
    requires called { Called (setting g mask.now fates.now) (line from array.old register.old history.old) }
    requires page_len { length page.old ≡ page_size g }
    requires blocks_in_bounds { g.blocks ≤ length kinds.old }
    requires blocks_in_bounds_2 { g.blocks ≤ length logicals.old }
    requires blocks_in_bounds_3 { g.blocks ≤ length numbers.old }
    ensures history_after { (cs : List Cycle) (os : List ArrayOperation) → line result.bus array.new register.new history.new ≡ (blocks_read depth (setting g mask.now fates.now) g.blocks (progress (line from array.old register.old history.old) Passed cs os)).line }
    ensures outcome_value { (cs : List Cycle) (os : List ArrayOperation) → result.outcome ≡ (blocks_read depth (setting g mask.now fates.now) g.blocks (progress (line from array.old register.old history.old) Passed cs os)).outcome }
    ensures array_unchanged { array.new ≡ array.old }
    ensures history_unchanged { history.new ≡ history.old }
    ensures called_2 { is_passed result.outcome ≡ true → Called (setting g mask.now fates.now) (line result.bus array.new register.new history.new) }
    ensures found_value { is_passed result.outcome ≡ true → result.found ≡ found_to depth g array.old g.blocks }
    ensures numbers_after { is_passed result.outcome ≡ true → contents kinds.new logicals.new numbers.new ≡ contents_to depth g array.old (contents kinds.old logicals.old numbers.old) g.blocks }
{
    let mut b = from;
    let mut found = Found::blank();
    let mut block: usize = 0;
    let blocks = g.blocks;
    while block < blocks {
        let mut bits = [0u8; 512];
        let done = scan_quick::scan_at(
            depth, b, g, array, register, history, mask, fates, block, page, &mut bits,
        );
        b = done.bus;
        let outcome = done.outcome;
        let Outcome::Passed = outcome else {
            return ChipScanned {
                bus: b,
                outcome,
                found,
            };
        };
        let summary = done.summary;
        let right = done.right;
        found = found.note(block, summary, right, bits);
        scan_found::contents::note_copy(summary, block, kinds, logicals, numbers);
        block += 1;
    }
    ChipScanned {
        bus: b,
        outcome: Outcome::Passed,
        found,
    }
}
