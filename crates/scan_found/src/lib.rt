// What a scan of the chip found: marks, complete copies, the current table, the greatest number.
#![tactic(auto)]

pub mod contents;

ghost use Rattle.std.specs.Prelude.{◌≡◌, ◌<◌};
ghost use Rattle.scan_found.specs.Found.{blank_found, mark_noted, is_greater, greatest_noted, is_newer, table_noted, noted};

use scan_summary::Summary;

// What the blocks scanned so far told, but for their copies.
#[derive(Clone, Copy)]
pub struct Found {
    // Whether a page was whole; the greatest number on one, 0 if none was, and the lowest block that holds it. No Option of the
    // two, since a mounted state has the 0 too.
    pub any: bool,
    pub greatest: u64,
    pub last: usize,
    // Whether a complete table was found; the block and number of the current one, how its pages are laid out (the number that
    // `table::right_with` gives), its bitmap.
    pub tables: bool,
    pub table: usize,
    pub number: u64,
    pub right: usize,
    pub bits: [u8; 512],
    // Factory marks, one bit a block.
    pub marked: [u8; 512],
}

impl Found {
    // Before the first block.
    pub fn blank() -> Self
        ensures { result ≡ blank_found }
    {
        Self {
            any: false,
            greatest: 0,
            last: 0,
            tables: false,
            table: 0,
            number: 0,
            right: 0,
            bits: [0; 512],
            marked: [0; 512],
        }
    }

    // After a block's mark.
    fn note_mark(mut self, block: usize, summary: Summary) -> Self
        requires { block < 4096 }
        ensures { result ≡ mark_noted block summary self }
    {
        if summary.marked {
            bitmaps::set_bit(&mut self.marked, block);
        }
        self
    }

    // Whether the greatest number of this summary is the first, or greater than those before.
    fn is_greater(self, summary: Summary) -> bool
        ensures { result ≡ is_greater summary self }
    {
        !self.any || self.greatest < summary.greatest
    }

    // After a block's greatest number.
    fn note_greatest(mut self, block: usize, summary: Summary) -> Self
        ensures { result ≡ greatest_noted block summary self }
    {
        if summary.has_number() && self.is_greater(summary) {
            self.any = true;
            self.greatest = summary.greatest;
            self.last = block;
        }
        self
    }

    // Whether a complete table with this summary is the first, or has a greater number than the one found before.
    fn is_newer(self, summary: Summary) -> bool
        ensures { result ≡ is_newer summary self }
    {
        !self.tables || self.number < summary.number
    }

    // After a block that may be the current table; right and bits are those of its pages.
    fn note_table(mut self, block: usize, summary: Summary, right: usize, bits: [u8; 512]) -> Self
        ensures { result ≡ table_noted block summary right bits self }
    {
        if summary.is_complete() && pages::is_table(summary.kind) && self.is_newer(summary) {
            self.tables = true;
            self.table = block;
            self.number = summary.number;
            self.right = right;
            self.bits = bits;
        }
        self
    }

    // After one more block.
    pub fn note(self, block: usize, summary: Summary, right: usize, bits: [u8; 512]) -> Self
        requires { block < 4096 }
        ensures { result ≡ noted block summary right bits self }
    {
        self.note_mark(block, summary)
            .note_greatest(block, summary)
            .note_table(block, summary, right, bits)
    }
}
