// The reading of a chip before a formatting: every page, as a mount reads it, and what the formatting takes over.
#![tactic(auto)]

ghost use Rattle.std.specs.Prelude.{◌≡◌, ◌<◌, ◌≤◌, length, replicate};
ghost use Rattle.geometry.specs.Limits.{Valid};
ghost use Rattle.geometry.specs.Sizes.{page_size};
ghost use Rattle.chip_array.specs.Device.{setting};
ghost use Rattle.bus.specs.Line.{line};
ghost use Rattle.operations.specs.Ends.{Called};
ghost use Rattle.format_scan.specs.Survey.{survey, carries, survey_of, union_to, passed_over, FoundDone, SurveyDone};

use bus::Bus;
use bus_polling::Outcome;
use geometry::Geometry;
use scan::ChipScanned;
use scan_found::Found;
use scan_summary::Depth;

// Factory marks; the list of invalid blocks carried over, and the block of its table, FFFFh where none is; the greatest
// number on a whole page, 0 if none is.
#[derive(Clone, Copy)]
pub struct Survey {
    pub marked: [u8; 512],
    pub carried: [u8; 512],
    pub old: usize,
    pub greatest: u64,
}

// Whether the list of the table found is carried over.
fn does_carry(found: Found, g: Geometry) -> bool
    requires valid { Valid g }
    requires table_bound { found.table < 4096 }
    ensures { result ≡ carries g found }
{
    if !found.tables {
        return false;
    }
    let right = found.right;
    if right == 0 {
        return false;
    }
    let bits = found.bits;
    let marked = found.marked;
    if !bitmaps::is_never_both(&marked, &bits, g.blocks) {
        return false;
    }
    if bitmaps::is_set(&bits, found.table) {
        return false;
    }
    true
}

// What a formatting takes over from what was found.
fn take_over(found: Found, g: Geometry) -> Survey
    requires valid { Valid g }
    requires table_bound { found.table < 4096 }
    ensures { result ≡ survey_of g found }
{
    let marked = found.marked;
    if does_carry(found, g) {
        let carried = found.bits;
        return Survey {
            marked,
            carried,
            old: found.table,
            greatest: found.greatest,
        };
    }
    Survey {
        marked,
        carried: [0; 512],
        old: 65535,
        greatest: found.greatest,
    }
}

// What is taken over where the reading did not pass.
fn nothing_found() -> Survey
    ensures { result ≡ survey (replicate 512 0) (replicate 512 0) 65535 0 }
{
    Survey {
        marked: [0; 512],
        carried: [0; 512],
        old: 65535,
        greatest: 0,
    }
}

// Adds to some bits those that the first blocks have in another bitmap.
pub fn add_bits(bits: &mut [u8; 512], more: &[u8; 512], blocks: usize)
    requires blocks_bound { blocks ≤ 4096 }
    requires bits_len { length bits.old ≡ 512 }
    ensures { bits.new ≡ union_to bits.old more.now blocks }
{
    let mut block: usize = 0;
    while block < blocks {
        if bitmaps::is_set(more, block) {
            bitmaps::set_bit(bits, block);
        }
        block += 1;
    }
}

// The blocks that the first round of erases passes over.
pub fn passed_over(survey: Survey, g: Geometry) -> [u8; 512]
    requires { Valid g }
    ensures { result ≡ passed_over g survey }
{
    let mut bits = survey.marked;
    let carried = survey.carried;
    add_bits(&mut bits, &carried, g.blocks);
    let old = survey.old;
    if old < 4096 {
        bitmaps::set_bit(&mut bits, old);
    }
    bits
}

// The bus after the reading, how its last read ended, and what is taken over if all passed.
#[derive(Clone, Copy)]
pub struct Surveyed {
    pub bus: Bus,
    pub outcome: Outcome,
    pub survey: Survey,
}

// Reads every page of every block whole, in order, through a page buffer, as a mount does, and keeps no more than what is found.
fn find(
    from: Bus,
    g: Geometry,
    array: &mut [u8],
    register: &mut [u8],
    history: &mut [u8],
    mask: &[u8],
    fates: &[u32],
    page: &mut [u8],
) -> ChipScanned
    requires called { Called (setting g mask.now fates.now) (line from array.old register.old history.old) }
    requires page_len { length page.old ≡ page_size g }
    ensures { FoundDone (setting g mask.now fates.now) (line from array.old register.old history.old) (line result.bus array.new register.new history.new) result.outcome result.found }
{
    let mut b = from;
    let mut found = Found::blank();
    let mut block: usize = 0;
    let blocks = g.blocks;
    while block < blocks {
        let mut bits = [0u8; 512];
        let done = scan_quick::scan_at(
            Depth::Full,
            b,
            g,
            array,
            register,
            history,
            mask,
            fates,
            block,
            page,
            &mut bits,
        );
        b = done.bus;
        let outcome = done.outcome;
        let Outcome::Passed = outcome else {
            return ChipScanned {
                bus: b,
                outcome,
                found,
            };
        };
        found = found.note(block, done.summary, done.right, bits);
        block += 1;
    }
    ChipScanned {
        bus: b,
        outcome: Outcome::Passed,
        found,
    }
}

// Reads every page of every block whole, in order.
pub fn survey_chip(
    from: Bus,
    g: Geometry,
    array: &mut [u8],
    register: &mut [u8],
    history: &mut [u8],
    mask: &[u8],
    fates: &[u32],
) -> Surveyed
    requires { Called (setting g mask.now fates.now) (line from array.old register.old history.old) }
    ensures { SurveyDone (setting g mask.now fates.now) (line from array.old register.old history.old) (line result.bus array.new register.new history.new) result.outcome result.survey }
{
    let mut page = [0u8; 4352];
    let size = geometry::page_size(g);
    let scanned = find(
        from,
        g,
        array,
        register,
        history,
        mask,
        fates,
        &mut page[0..size],
    );
    let b = scanned.bus;
    let outcome = scanned.outcome;
    let Outcome::Passed = outcome else {
        return Surveyed {
            bus: b,
            outcome,
            survey: nothing_found(),
        };
    };
    let found = scanned.found;
    let survey = take_over(found, g);
    Surveyed {
        bus: b,
        outcome,
        survey,
    }
}
