// The table of invalid blocks: page 0 built, and each page judged. The main bytes of the other pages are FFh:
// pages::fill_ones writes them.
#![tactic(auto)]

ghost use Rattle.std.specs.Prelude.{◌≡◌, ◌*◌, ◌≤◌, length};
ghost use Rattle.bitmaps.specs.Bitmap.{bitmap_bytes};
ghost use Rattle.copies.specs.Table.{bits_with, right_with, right_first, right_page, table_page, with_logical, Roomy};
ghost use Rattle.geometry.specs.Limits.{Valid};
ghost use Rattle.geometry.specs.Sizes.{page_size};

use geometry::Geometry;

// Bytes of the bitmap.
pub fn bitmap_bytes(blocks: usize) -> usize
    requires { blocks ≤ 4096 }
    ensures { result ≡ bitmap_bytes blocks }
{
    (blocks + 7) >> 3
}

// Whether the main bytes of page 0 have the layout, their counts and the given geometry.
pub fn is_right_first(main: &[u8], blocks: usize, logical: usize) -> bool
    requires { Roomy blocks (length main.now) }
    ensures { result ≡ right_first blocks logical main.now }
{
    let size = bitmap_bytes(blocks);
    let bits = &main[8..8 + size];
    pages::pair_at(main, 0) == blocks
        && pages::pair_at(main, 2) == logical
        && pages::pair_at(main, 4) == bitmaps::count_set(bits, blocks)
        && pages::pair_at(main, 6) == 8
        && bitmaps::is_clear_from(bits, blocks, 8 * size)
        && pages::all_ones(&main[8 + size..])
}

// Whether a page of a table for so many logical blocks is right: page 0 under logical block 0, the others FFh.
fn is_right_page(page: &[u8], g: Geometry, logical: usize, place: usize) -> bool
    requires valid { Valid g }
    requires page_len { length page.now ≡ page_size g }
    ensures { result ≡ right_page (with_logical logical g) place page.now }
{
    let main = &page[..g.main];
    if place != 0 {
        return pages::all_ones(main);
    }
    pages::logical_of(page, g.main) == 0 && is_right_first(main, g.blocks, logical)
}

// The layout of a table's pages so far, and of this one: 1 right for the geometry, 2 right for the number of logical blocks
// named in page 0 only, 0 neither. A number, as the definition `right_with` of copies and the laws of scans have it.
pub fn right_with(right: usize, page: &[u8], g: Geometry, place: usize) -> usize
    requires valid { Valid g }
    requires page_len { length page.now ≡ page_size g }
    ensures { result ≡ right_with g place page.now right }
{
    if right == 0 {
        return 0;
    }
    if is_right_page(page, g, g.logical, place) {
        return right;
    }
    let named = pages::pair_at(&page[..g.main], 2);
    if is_right_page(page, g, named, place) {
        return 2;
    }
    0
}

// Copies the bitmap of a table's page 0; the other pages have none.
pub fn copy_bitmap(page: &[u8], g: Geometry, place: usize, bits: &mut [u8])
    requires valid { Valid g }
    requires page_len { length page.now ≡ page_size g }
    requires blocks_in_bounds { bitmap_bytes g.blocks ≤ length bits.old }
    ensures { bits.new ≡ bits_with g place page.now bits.old }
{
    if place != 0 {
        return;
    }
    let size = bitmap_bytes(g.blocks);
    cells::copy(&page[8..8 + size], &mut bits[..size]);
}

// Writes the main bytes of page 0 for these invalid blocks.
pub fn build_first(main: &mut [u8], blocks: usize, logical: usize, invalid: &[u8])
    requires roomy { Roomy blocks (length main.old) }
    requires blocks_bound { blocks ≤ 8 * length invalid.now }
    ensures { main.new ≡ table_page (length main.old) blocks logical invalid.now }
{
    let size = bitmap_bytes(blocks);
    pages::write_pair(main, 0, blocks);
    pages::write_pair(main, 2, logical);
    pages::write_pair(main, 4, bitmaps::count_set(invalid, blocks));
    pages::write_pair(main, 6, 8);
    cells::copy(&invalid[..size], &mut main[8..8 + size]);
    pages::fill_ones(main, 8 + size);
}
