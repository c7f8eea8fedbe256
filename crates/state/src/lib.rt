// The mounted state.
#![tactic(auto)]

ghost use Rattle.std.specs.Prelude.{◌≡◌, ◌+◌, ◌-◌, ◌<◌, ◌≤◌, length, replicate};
ghost use Rattle.bitmaps.specs.Bitmap.{with_bit};
ghost use Rattle.state_choose.specs.Choose.{chosen};
ghost use Rattle.state.specs.State.{blank, mounted_with, next_number, number_end, spent, taken, with_invalid, with_copy, with_table, held_bits, empty_from, sound_block, sound_from, sound_entries, mounted, free_blocks};

// The last sequence number: all 64 bits set.
const LAST_NUMBER: u64 = u64::MAX;

// What a mount found and the fills since changed. It goes in by value and comes back.
#[derive(Clone, Copy)]
pub struct State {
    // 0 not mounted, 1 mounted, 2 stopped. A number, as programs in C hand in any: another is not mounted.
    pub status: usize,
    // The block of the current table.
    pub table: usize,
    // The block filled last.
    pub last: usize,
    // One less than the next sequence number: the greatest found or taken, 0 for none.
    pub number: u64,
    // Factory marks and invalid blocks, one bit a block.
    pub marked: [u8; 512],
    pub invalid: [u8; 512],
    // The block of each logical block, FFFFh where it has none.
    pub map: [u16; 4096],
    // The kind of each logical block's copy, 0 where it has none: what undoes its stored bytes.
    pub kinds: [u8; 4096],
}

// Whether the entries past the last logical block are empty.
fn is_empty_from(map: &[u16], logical: usize) -> bool
    requires logical_bound { logical ≤ 4096 }
    requires map_len { length map.now ≡ 4096 }
    ensures { result ≡ empty_from map.now logical (4096 - logical) }
{
    let mut other: u16 = 0;
    for l in logical..4096 {
        other |= !map[l];
    }
    other == 0
}

// Methods copy a field to a local before they lend it, and read entries by index: where a field or a slice of it is lent, the whole
// state is copied for the call, and the test for a mounted state takes more than twice as long.
impl State {
    // A state that is 0 in all other fields.
    pub fn blank(status: usize) -> Self
        ensures { result ≡ blank status }
    {
        Self {
            status,
            table: 0,
            last: 0,
            number: 0,
            marked: [0; 512],
            invalid: [0; 512],
            map: [0; 4096],
            kinds: [0; 4096],
        }
    }

    // A mounted state whose next number is one above the greatest found, which is 0 if none was.
    pub fn mounted_above(
        greatest: u64,
        table: usize,
        last: usize,
        marked: [u8; 512],
        invalid: [u8; 512],
        map: [u16; 4096],
        kinds: [u8; 4096],
    ) -> Self
        ensures { result ≡ mounted_with greatest table last marked invalid map kinds }
    {
        Self {
            status: 1,
            table,
            last,
            number: greatest,
            marked,
            invalid,
            map,
            kinds,
        }
    }

    // The next number.
    pub fn next_number(self) -> u64
        requires { next_number self < number_end }
        ensures { result ≡ next_number self }
    {
        self.number + 1
    }

    // Whether no number is left.
    pub fn is_spent(self) -> bool
        ensures { result ≡ spent self }
    {
        self.number == LAST_NUMBER
    }

    // The state after its next number was taken.
    pub fn take_number(mut self) -> Self
        requires { next_number self < number_end }
        ensures { result ≡ taken self }
    {
        self.number += 1;
        self
    }

    // The state after a block failed.
    pub fn mark_invalid(mut self, block: usize) -> Self
        requires { block < 4096 }
        ensures { result ≡ with_invalid block self }
    {
        bitmaps::set_bit(&mut self.invalid, block);
        self
    }

    // The state after a passed fill with a copy, of a kind, of a logical block.
    pub fn record_copy(mut self, kind: u8, logical: usize, block: usize) -> Self
        requires { (logical < 4096) × (block < 4096) }
        ensures { result ≡ with_copy kind logical block self }
    {
        self.map[logical] = block as u16;
        self.kinds[logical] = kind;
        self.last = block;
        self
    }

    // The next block after the one filled last that may be filled; held has a bit for each block that holds something current.
    pub fn choose_block(self, held: &[u8; 512], blocks: usize) -> Option<usize>
        requires { (self.last < blocks) × (blocks ≤ 4096) }
        ensures { result ≡ chosen self.marked self.invalid held.now blocks self.last }
    {
        let marked = self.marked;
        let invalid = self.invalid;
        state_choose::choose(&marked, &invalid, held, blocks, self.last)
    }

    // The blocks that hold something current, one bit a block.
    pub fn held(self, logical: usize) -> [u8; 512]
        requires { logical ≤ 4096 }
        ensures { result ≡ held_bits self logical }
    {
        let map = self.map;
        let mut bits = [0u8; 512];
        if self.table < 4096 {
            bitmaps::set_bit(&mut bits, self.table);
        }
        for l in 0..logical {
            let block = usize::from(map[l]);
            if block < 4096 {
                bitmaps::set_bit(&mut bits, block);
            }
        }
        bits
    }

    // Whether every copy's block is on the chip, unmarked, valid and named once.
    fn has_sound_map(self, blocks: usize, logical: usize) -> bool
        requires { (blocks ≤ 4096) × (logical ≤ 4096) × (self.table < blocks) }
        ensures { result ≡ sound_from self blocks (with_bit (replicate 512 0) self.table) 0 logical }
    {
        let marked = self.marked;
        let invalid = self.invalid;
        let map = self.map;
        let mut taken = bitmaps::flags(&marked, &invalid);
        taken[self.table] = 1;
        // No early end: an entry does not wait for the one before it.
        let mut unsound: u8 = 0;
        for l in 0..logical {
            let block = usize::from(map[l]);
            if block < blocks {
                unsound |= taken[block];
                taken[block] = 1;
            } else if block != 65535 {
                unsound = 1;
            }
        }
        unsound == 0
    }

    // Whether the table's block is on the chip, unmarked and valid.
    fn has_sound_table(self, blocks: usize) -> bool
        requires { blocks ≤ 4096 }
        ensures { result ≡ sound_block self.marked self.invalid (replicate 512 0) blocks self.table }
    {
        let marked = self.marked;
        let invalid = self.invalid;
        self.table < blocks
            && state_choose::is_permitted(&marked, &invalid, &[0u8; 512], self.table)
    }

    // Whether the map names sound blocks for the logical blocks and none past them, and the table's block is sound.
    fn has_sound_entries(self, blocks: usize, logical: usize) -> bool
        requires { (blocks ≤ 4096) × (logical ≤ 4096) }
        ensures { result ≡ sound_entries self blocks logical }
    {
        let map = self.map;
        is_empty_from(&map, logical)
            && self.has_sound_table(blocks)
            && self.has_sound_map(blocks, logical)
    }

    // Whether the state counts as mounted, on any state whatever.
    pub fn is_mounted(self, blocks: usize, logical: usize) -> bool
        requires { (blocks ≤ 4096) × (logical ≤ 4096) }
        ensures { result ≡ mounted self blocks logical }
    {
        let marked = self.marked;
        let invalid = self.invalid;
        self.status == 1
            && self.last < blocks
            && bitmaps::is_clear_from(&marked, blocks, 4096)
            && bitmaps::is_clear_from(&invalid, blocks, 4096)
            && bitmaps::is_never_both(&marked, &invalid, 4096)
            && self.has_sound_entries(blocks, logical)
    }

    // The valid unmarked blocks that hold nothing current, 0 if the state is not mounted.
    pub fn free_blocks(self, blocks: usize, logical: usize) -> usize
        requires { (blocks ≤ 4096) × (logical ≤ 4096) }
        ensures { result ≡ free_blocks self blocks logical }
    {
        if !self.is_mounted(blocks, logical) {
            return 0;
        }
        let marked = self.marked;
        let invalid = self.invalid;
        let held = self.held(logical);
        state_choose::count_permitted(&marked, &invalid, &held, blocks)
    }

    // The state after a passed fill with a table.
    pub fn record_table(mut self, block: usize) -> Self
        ensures { result ≡ with_table block self }
    {
        self.table = block;
        self.last = block;
        self
    }
}
