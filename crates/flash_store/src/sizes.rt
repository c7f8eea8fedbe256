// The call that lets the chip tell its size, for programs in C.
ghost use Rattle.std.specs.Prelude.{◌≡◌, length};
ghost use Rattle.c_buffers.specs.Buffers.{lent, handed, PassedOn};
ghost use Rattle.flash_store.specs.Identify.{identify_result, identify_handed, identifying_lent};

use crate::BAD_BUFFER;

// Lets the chip tell its size. c/flash_store.h says what is lent.
#[unsafe(no_mangle)]
pub extern "C" fn flash_store_identify(
    logical: usize,
    state: &mut [u8],
    interface: &mut [usize],
    array: &mut [u8],
    register: &mut [u8],
    history: &mut [u8],
    mask: &[u8],
    fates: &[u32],
    allowed: u32,
    sent: &mut [usize],
    parameters: &[u8],
    sizes: &mut [usize],
) -> usize
    ensures sizes_after { identify_handed (handed result (lent state.new interface.new array.new register.new history.new sent.new)) sizes.new ≡ identifying_lent mask.now fates.now (lent state.old interface.old array.old register.old history.old sent.old) allowed parameters.now logical sizes.old }
    ensures passed_on { length sizes.old ≡ 4 → PassedOn (lent state.old interface.old array.old register.old history.old sent.old) (identify_result mask.now fates.now (lent state.old interface.old array.old register.old history.old sent.old) allowed parameters.now logical).returned state.new }
{
    if !c_buffers::is_lent_rightly(state.len(), interface.len(), sent.len()) {
        return BAD_BUFFER;
    }
    if sizes.len() != 4 {
        return BAD_BUFFER;
    }
    let before = c_open::state_of(state);
    let write = c_open::write_of(state);
    let start = c_buffers::interface_of(interface);
    let identified = identify::identify(
        before, start, array, register, history, mask, fates, allowed, parameters, logical,
    );
    let told = identified.sizes;
    c_buffers::write_sizes(told, sizes);
    let returned = identified.returned;
    let gone = open_write::is_stopping(returned.answer);
    c_buffers::hand_back(returned, write, gone, state, interface, sent)
}
