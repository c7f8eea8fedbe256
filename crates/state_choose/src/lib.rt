// The choice of a block for the next fill, and the count of those that may be filled.
#![tactic(auto)]

ghost use Rattle.std.specs.Prelude.{◌≡◌, ◌*◌, ◌<◌, ◌≤◌, length};
ghost use Rattle.bitmaps.specs.Bitmap.{byte_of};
ghost use Rattle.state_choose.specs.Choose.{permitted, next_block, chosen, count_permitted};

// Whether a block is unmarked, not invalid and held by nothing. The three bitmaps are no struct: callers have the first two in a
// state of their own, and would build one for a single call.
pub fn is_permitted(marked: &[u8], invalid: &[u8], held: &[u8], block: usize) -> bool
    requires block_in_bounds { byte_of block < length marked.now }
    requires block_in_bounds_2 { byte_of block < length invalid.now }
    requires block_in_bounds_3 { byte_of block < length held.now }
    ensures { result ≡ permitted marked.now invalid.now held.now block }
{
    !bitmaps::is_set(marked, block)
        && !bitmaps::is_set(invalid, block)
        && !bitmaps::is_set(held, block)
}

// The block after one, wrapping.
pub fn next_block(block: usize, blocks: usize) -> usize
    requires { block < blocks }
    ensures { result ≡ next_block blocks block }
{
    if block + 1 == blocks { 0 } else { block + 1 }
}

// The next block after the one filled last that may be filled, or none ("worn").
pub fn choose(
    marked: &[u8],
    invalid: &[u8],
    held: &[u8],
    blocks: usize,
    last: usize,
) -> Option<usize>
    requires last_lt_blocks { last < blocks }
    requires blocks_bound { blocks ≤ 8 * length marked.now }
    requires blocks_bound_2 { blocks ≤ 8 * length invalid.now }
    requires blocks_bound_3 { blocks ≤ 8 * length held.now }
    ensures { result ≡ chosen marked.now invalid.now held.now blocks last }
{
    let mut block = last;
    for _ in 0..blocks {
        block = next_block(block, blocks);
        if is_permitted(marked, invalid, held, block) {
            return Some(block);
        }
    }
    None
}

// How many blocks may be filled.
pub fn count_permitted(
    marked: &[u8; 512],
    invalid: &[u8; 512],
    held: &[u8; 512],
    blocks: usize,
) -> usize
    requires { blocks ≤ 4096 }
    ensures { result ≡ count_permitted marked.now invalid.now held.now blocks }
{
    let mut count: usize = 0;
    for b in 0..blocks {
        if is_permitted(marked, invalid, held, b) {
            count += 1;
        }
    }
    count
}
