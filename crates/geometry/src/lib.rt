// The chip's geometry: its limits, its sizes, and the row and column addresses as bytes.
#![tactic(auto)]

ghost use Rattle.std.specs.Prelude.{◌≡◌, ◌+◌, ◌*◌, ◌/◌, ◌%◌, ◌<◌, ◌≤◌, true};
ghost use Rattle.geometry.specs.Limits.{page_count, block_shape, valid, Valid};
ghost use Rattle.geometry.specs.Sizes.{page_size, block_size, chip_size, row_count, row_of, page_shift};

// Numbers of one chip. `main` and `spare` are the bytes of a page; `pages` those of a block.
#[derive(Clone, Copy, Debug, PartialEq, Eq)]
pub struct Geometry {
    pub main: usize,
    pub spare: usize,
    pub pages: usize,
    pub blocks: usize,
    pub logical: usize,
}

// Whether a block may have so many pages.
fn is_page_count(pages: usize) -> bool
    ensures { result ≡ page_count pages }
{
    matches!(pages, 4 | 8 | 16 | 32 | 64)
}

// The limits of the spare bytes and the pages of a block.
fn is_block_shape(spare: usize, pages: usize) -> bool
    ensures { result ≡ block_shape spare pages }
{
    (16..=256).contains(&spare) && is_page_count(pages)
}

// Whether every limit of the geometry holds. Nothing is added or multiplied before it is known to be small.
pub fn is_valid(g: Geometry) -> bool
    ensures { result ≡ valid g }
{
    (32..=4096).contains(&g.main)
        && is_block_shape(g.spare, g.pages)
        && (4..=4096).contains(&g.blocks)
        && g.blocks <= 8 * (g.main - 8)
        && (1..=g.blocks - 2).contains(&g.logical)
}

// Bytes of a page, main and spare.
pub fn page_size(g: Geometry) -> usize
    requires { Valid g }
    ensures { result ≡ page_size g }
{
    g.main + g.spare
}

// Bytes of a block.
pub fn block_size(g: Geometry) -> usize
    requires { Valid g }
    ensures { result ≡ block_size g }
{
    g.pages * page_size(g)
}

// Bytes of the array.
pub fn chip_size(g: Geometry) -> usize
    requires { Valid g }
    ensures { result ≡ chip_size g }
{
    g.blocks * block_size(g)
}

// Pages of the chip: rows run from 0 up to this.
pub fn row_count(g: Geometry) -> usize
    requires { Valid g }
    ensures { result ≡ row_count g }
{
    g.blocks * g.pages
}

// The row of a page: block × pages + page.
pub fn row_of(g: Geometry, block: usize, page: usize) -> usize
    requires valid { Valid g }
    requires block_lt_blocks { block < g.blocks }
    requires page_lt_pages { page < g.pages }
    ensures { result ≡ row_of g block page }
{
    block * g.pages + page
}

// The binary logarithm of the pages of a block: rows are split by shifts, not by dividing. Not by `trailing_zeros`, since the edit
// shift_of_another_count names the shift of one page count.
fn page_shift(pages: usize) -> u32
    ensures { (result ≡ page_shift pages) × (result ≤ 6) }
{
    match pages {
        4 => 2,
        8 => 3,
        16 => 4,
        32 => 5,
        _ => 6,
    }
}

// The block that a row lies in.
pub fn block_of_row(g: Geometry, row: usize) -> usize
    requires { Valid g }
    ensures { result ≡ row / g.pages }
{
    row >> page_shift(g.pages)
}

// The page of a row within its block.
pub fn page_of_row(g: Geometry, row: usize) -> usize
    requires { Valid g }
    ensures { result ≡ row % g.pages }
{
    row & (g.pages - 1)
}

// Where the bytes of a row begin in the array.
pub fn row_start(g: Geometry, row: usize) -> usize
    requires valid { Valid g }
    requires row_bound { row < row_count g }
    ensures { result ≡ row * page_size g }
{
    row * page_size(g)
}

// Where the bytes of a block begin in the array.
pub fn block_start(g: Geometry, block: usize) -> usize
    requires valid { Valid g }
    requires block_lt_blocks { block < g.blocks }
    ensures { result ≡ block * block_size g }
{
    block * block_size(g)
}

// The low byte of an address.
pub fn low_byte(address: usize) -> u8
    ensures { result ≡ address % 256 }
{
    (address & 0xff) as u8
}

// An address without its low byte.
pub fn high_part(address: usize) -> usize
    ensures { result ≡ address / 256 }
{
    address >> 8
}
