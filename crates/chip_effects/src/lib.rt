// What programs and erases do to the array. The bytes of the page or the block are lent on, the rest stays.
#![tactic(auto)]

ghost use Rattle.std.specs.Prelude.{◌≡◌, ◌*◌, ◌<◌, length, replicate};
ghost use Rattle.geometry.specs.Limits.{Valid};
ghost use Rattle.geometry.specs.Sizes.{page_size, block_size, chip_size, row_count};
ghost use Rattle.cells.specs.Cells.{programmed, weakened, raised};
ghost use Rattle.cells.specs.Part.{part, put};

use geometry::Geometry;

// The program's effect on the array as far as the mask goes, whose bytes from 0 on are the page's.
pub fn program_part(row: usize, g: Geometry, array: &mut [u8], data: &[u8], mask: &[u8])
    requires valid { Valid g }
    requires array_len { length array.old ≡ chip_size g }
    requires data_len { length «data».now ≡ page_size g }
    requires mask_len { length mask.now ≡ block_size g }
    requires row_bound { row < row_count g }
    ensures { array.new ≡ put (row * page_size g) (programmed (part (row * page_size g) (page_size g) array.old) (weakened «data».now mask.now)) array.old }
{
    let at = geometry::row_start(g, row);
    let end = at + geometry::page_size(g);
    cells::program_masked(&mut array[at..end], data, mask);
}

// A passed program: every bit that the data has clear is cleared.
pub fn program_rest(row: usize, g: Geometry, array: &mut [u8], data: &[u8])
    requires valid { Valid g }
    requires array_len { length array.old ≡ chip_size g }
    requires data_len { length «data».now ≡ page_size g }
    requires row_bound { row < row_count g }
    ensures { array.new ≡ put (row * page_size g) (programmed (part (row * page_size g) (page_size g) array.old) «data».now) array.old }
{
    let at = geometry::row_start(g, row);
    let end = at + geometry::page_size(g);
    cells::program_whole(&mut array[at..end], data);
}

// The erase's effect on the array as far as the mask goes.
pub fn erase_part(block: usize, g: Geometry, array: &mut [u8], mask: &[u8])
    requires valid { Valid g }
    requires array_len { length array.old ≡ chip_size g }
    requires mask_len { length mask.now ≡ block_size g }
    requires block_lt_blocks { block < g.blocks }
    ensures { array.new ≡ put (block * block_size g) (raised (part (block * block_size g) (block_size g) array.old) mask.now) array.old }
{
    let at = geometry::block_start(g, block);
    let end = at + geometry::block_size(g);
    cells::erase_masked(&mut array[at..end], mask);
}

// A passed erase: every bit of the block is set.
pub fn erase_rest(block: usize, g: Geometry, array: &mut [u8])
    requires valid { Valid g }
    requires array_len { length array.old ≡ chip_size g }
    requires block_lt_blocks { block < g.blocks }
    ensures { array.new ≡ put (block * block_size g) (replicate (block_size g) 255) array.old }
{
    let at = geometry::block_start(g, block);
    let end = at + geometry::block_size(g);
    cells::erase_whole(&mut array[at..end]);
}
