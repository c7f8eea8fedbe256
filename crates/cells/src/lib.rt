// What programs and erases do to the bytes of the array, whole or as far as a mask says.
#![tactic(auto)]

ghost use Rattle.std.specs.Prelude.{◌≡◌, ◌≤◌, length, replicate};
ghost use Rattle.cells.specs.Cells.{programmed, weakened, raised, over};

// Clears in `page` each bit that `data` has clear and `mask` has set.
pub fn program_masked(page: &mut [u8], data: &[u8], mask: &[u8])
    requires { (length page.old ≤ length «data».now) × (length page.old ≤ length mask.now) }
    ensures { page.new ≡ programmed page.old (weakened «data».now mask.now) }
{
    for (i, cell) in page.iter_mut().enumerate() {
        *cell &= data[i] | !mask[i];
    }
}

// Clears in `page` each bit that `data` has clear.
pub fn program_whole(page: &mut [u8], data: &[u8])
    requires { length page.old ≤ length «data».now }
    ensures { page.new ≡ programmed page.old «data».now }
{
    for (i, cell) in page.iter_mut().enumerate() {
        *cell &= data[i];
    }
}

// Sets in `block` each bit that `mask` has set.
pub fn erase_masked(block: &mut [u8], mask: &[u8])
    requires { length block.old ≤ length mask.now }
    ensures { block.new ≡ raised block.old mask.now }
{
    for (i, cell) in block.iter_mut().enumerate() {
        *cell |= mask[i];
    }
}

// Sets every bit of `block`.
pub fn erase_whole(block: &mut [u8])
    ensures { block.new ≡ replicate (length block.old) 255 }
{
    block.fill(255);
}

// Copies `from` over the first bytes of `into`. A loop, and not `copy_from_slice`, for which the library would need `memmove` of
// whoever links it.
pub fn copy(from: &[u8], into: &mut [u8])
    requires { length from.now ≤ length into.old }
    ensures { into.new ≡ over from.now into.old }
{
    for (i, byte) in from.iter().enumerate() {
        into[i] = *byte;
    }
}
