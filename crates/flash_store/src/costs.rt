// The dearest write, for programs in C.
ghost use Rattle.std.specs.Prelude.{◌≡◌};
ghost use Rattle.c_buffers.specs.Buffers.{geometry_of};
ghost use Rattle.flash_store.specs.Dearest.{dearest_handed, dearest_lent};

use crate::BAD_BUFFER;
use geometry::Geometry;

// Tells the fate words and the cycles of the dearest write with so many failed fills. c/flash_store.h says what is lent.
#[unsafe(no_mangle)]
pub extern "C" fn flash_store_dearest_write(
    main: usize,
    spare: usize,
    pages: usize,
    blocks: usize,
    logical: usize,
    failed: usize,
    words: &mut [u32],
    cycles: &mut [usize],
) -> usize
    ensures { dearest_handed result words.new cycles.new ≡ dearest_lent (geometry_of main spare pages blocks logical) failed words.old cycles.old }
{
    if cycles.len() != 1 {
        return BAD_BUFFER;
    }
    let g = Geometry {
        main,
        spare,
        pages,
        blocks,
        logical,
    };
    match dearest::dearest_write(g, failed, words) {
        Ok(sent) => {
            cycles[0] = sent;
            0
        }
        Err(refusal) => {
            cycles[0] = 0;
            refusal.number()
        }
    }
}
