// The copies that a scan found: kind, logical block and number of each complete block; clashes, the map and the kinds of its copies.
ghost use Rattle.std.specs.Prelude.{true, ◌≡◌, ◌<◌, ◌≤◌, length};
ghost use Rattle.copies.specs.Pick.{some_below};
ghost use Rattle.scan_summary.specs.Summary.{says_complete};
ghost use Rattle.scan_found.specs.Contents.{contents, copy_noted, counted, bears, past_last, clashing, replaces, is_candidate, entry_noted, map_to, kind_for, kinds_to};

use scan_summary::Summary;

// What a scan noted of each block, kind 0 where it is not complete.
#[derive(Clone, Copy)]
pub struct Copies<'a> {
    pub kinds: &'a [u8; 4096],
    pub logicals: &'a [u16; 4096],
    pub numbers: &'a [u64; 4096],
}

// Notes the kind, logical block and number of a complete block, in three buffers that the caller lends to a whole scan.
pub fn note_copy(
    summary: Summary,
    block: usize,
    kinds: &mut [u8],
    logicals: &mut [u16],
    numbers: &mut [u64],
)
    requires kind_bound { says_complete summary ≡ true → (summary.kind < 256) × (summary.logical < 65536) }
    requires block_in_bounds { block < length kinds.old }
    requires block_in_bounds_2 { block < length logicals.old }
    requires block_in_bounds_3 { block < length numbers.old }
    ensures { contents kinds.new logicals.new numbers.new ≡ copy_noted block summary (contents kinds.old logicals.old numbers.old) }
{
    if summary.is_complete() {
        kinds[block] = summary.kind as u8;
        logicals[block] = summary.logical as u16;
        numbers[block] = summary.number;
    }
}

impl<'a> Copies<'a> {
    ghost use Rattle.scan_found.specs.Told.{told};

    // Whether a block is complete and not listed.
    fn is_counted(&self, bits: &[u8; 512], block: usize) -> bool
        requires { block < 4096 }
        ensures { result ≡ counted (told self.now) bits.now block }
    {
        !bitmaps::is_set(bits, block) && self.kinds[block] != 0
    }

    // Whether a counted block bears a number.
    fn does_bear(&self, bits: &[u8; 512], number: u64, block: usize) -> bool
        requires { block < 4096 }
        ensures { result ≡ bears (told self.now) bits.now number block }
    {
        self.is_counted(bits, block) && self.numbers[block] == number
    }

    // Whether a counted block below another bears a number, the highest looked at first.
    fn is_shared(&self, bits: &[u8; 512], number: u64, below: usize) -> bool
        requires { below ≤ 4096 }
        ensures { result ≡ some_below (bears (told self.now) bits.now number) below }
    {
        for b in (0..below).rev() {
            if self.does_bear(bits, number, b) {
                return true;
            }
        }
        false
    }

    // Whether a block is a data copy of a logical block past the last.
    fn is_past_last(&self, logical: usize, block: usize) -> bool
        requires { block < 4096 }
        ensures { result ≡ past_last (told self.now) logical block }
    {
        pages::is_data(usize::from(self.kinds[block]))
            && logical <= usize::from(self.logicals[block])
    }

    // Whether a counted block is such a copy, or bears the number of a counted one below it.
    fn is_clashing(&self, bits: &[u8; 512], logical: usize, block: usize) -> bool
        requires { block < 4096 }
        ensures { result ≡ clashing (told self.now) bits.now logical block }
    {
        self.is_counted(bits, block)
            && (self.is_past_last(logical, block)
                || self.is_shared(bits, self.numbers[block], block))
    }

    // Whether one of the first blocks clashes, the highest looked at first.
    pub fn is_clash(&self, bits: &[u8; 512], logical: usize, blocks: usize) -> bool
        requires { blocks ≤ 4096 }
        ensures { result ≡ some_below (clashing (told self.now) bits.now logical) blocks }
    {
        for b in (0..blocks).rev() {
            if self.is_clashing(bits, logical, b) {
                return true;
            }
        }
        false
    }

    // Whether block b replaces the entry of the map for its logical block.
    fn does_replace(&self, blocks: usize, old: usize, block: usize) -> bool
        requires { (blocks ≤ 4096) × (block < 4096) }
        ensures { result ≡ replaces (told self.now) blocks old block }
    {
        blocks <= old || self.numbers[old] < self.numbers[block]
    }

    // Whether a counted block is a data copy of one of the logical blocks.
    fn is_candidate(&self, bits: &[u8; 512], logical: usize, block: usize) -> bool
        requires { block < 4096 }
        ensures { result ≡ is_candidate (told self.now) bits.now logical block }
    {
        self.is_counted(bits, block)
            && pages::is_data(usize::from(self.kinds[block]))
            && usize::from(self.logicals[block]) < logical
    }

    // Enters a block into the map.
    fn note_entry(
        &self,
        bits: &[u8; 512],
        blocks: usize,
        logical: usize,
        block: usize,
        map: &mut [u16; 4096],
    )
        requires { (blocks ≤ 4096) × (logical ≤ 4096) × (block < 4096) }
        ensures { map.new ≡ entry_noted (told self.now) bits.now blocks logical block map.old }
    {
        if self.is_candidate(bits, logical, block) {
            let l = usize::from(self.logicals[block]);
            if self.does_replace(blocks, usize::from(map[l]), block) {
                map[l] = block as u16;
            }
        }
    }

    // Enters the current copies into the map.
    pub fn map_copies(&self, bits: &[u8; 512], blocks: usize, logical: usize, map: &mut [u16; 4096])
        requires { (blocks ≤ 4096) × (logical ≤ 4096) }
        ensures { map.new ≡ map_to (told self.now) bits.now blocks logical map.old blocks }
    {
        for b in 0..blocks {
            self.note_entry(bits, blocks, logical, b, map);
        }
    }

    // The kind of an entry's block, 0 where the entry is empty.
    fn kind_for(&self, entry: usize) -> u8
        ensures { result ≡ kind_for (told self.now) entry }
    {
        if entry < 4096 { self.kinds[entry] } else { 0 }
    }

    // Enters the kinds of the copies that the map has.
    pub fn list_kinds(&self, logical: usize, map: &[u16; 4096], current: &mut [u8; 4096])
        requires { logical ≤ 4096 }
        ensures { current.new ≡ kinds_to (told self.now) map.now current.old logical }
    {
        for l in 0..logical {
            current[l] = self.kind_for(usize::from(map[l]));
        }
    }
}
