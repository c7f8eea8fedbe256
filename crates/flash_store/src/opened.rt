// A write that is opened and advanced, for programs in C.
ghost use Rattle.std.specs.Prelude.{◌≡◌, length};
ghost use Rattle.chip_array.specs.Device.{setting};
ghost use Rattle.c_buffers.specs.Buffers.{geometry_of, lent, handed, PassedOn};
ghost use Rattle.flash_store.specs.Opened.{opening_result, opening_lent, advance_result, advance_handed, advancing_lent};

use crate::BAD_BUFFER;
use geometry::Geometry;

// Opens a write of one logical page. c/flash_store.h says what is lent.
#[unsafe(no_mangle)]
pub extern "C" fn flash_store_open_write(
    main: usize,
    spare: usize,
    pages: usize,
    blocks: usize,
    logical: usize,
    state: &mut [u8],
    interface: &mut [usize],
    array: &mut [u8],
    register: &mut [u8],
    history: &mut [u8],
    mask: &[u8],
    fates: &[u32],
    allowed: u32,
    sent: &mut [usize],
    block: usize,
    page: usize,
    bytes: &[u8],
) -> usize
    ensures sent_after { handed result (lent state.new interface.new array.new register.new history.new sent.new) ≡ opening_lent (setting (geometry_of main spare pages blocks logical) mask.now fates.now) (lent state.old interface.old array.old register.old history.old sent.old) allowed block page bytes.now }
    ensures passed_on { PassedOn (lent state.old interface.old array.old register.old history.old sent.old) (opening_result (setting (geometry_of main spare pages blocks logical) mask.now fates.now) (lent state.old interface.old array.old register.old history.old sent.old) allowed block page bytes.now) state.new }
{
    if !c_buffers::is_lent_rightly(state.len(), interface.len(), sent.len()) {
        return BAD_BUFFER;
    }
    let g = Geometry {
        main,
        spare,
        pages,
        blocks,
        logical,
    };
    let before = c_open::state_of(state);
    let write = c_open::write_of(state);
    let start = c_buffers::interface_of(interface);
    let ended = open_requests::open(
        before,
        write,
        &mut state[c_open::PAGE..c_open::KINDS],
        g,
        start,
        array,
        register,
        history,
        mask,
        fates,
        allowed,
        block,
        page,
        bytes,
    );
    let returned = ended.returned;
    let next = ended.write;
    c_buffers::hand_back(returned, next, false, state, interface, sent)
}

// Goes on with the write that is open.
#[unsafe(no_mangle)]
pub extern "C" fn flash_store_advance(
    main: usize,
    spare: usize,
    pages: usize,
    blocks: usize,
    logical: usize,
    state: &mut [u8],
    interface: &mut [usize],
    array: &mut [u8],
    register: &mut [u8],
    history: &mut [u8],
    mask: &[u8],
    fates: &[u32],
    allowed: u32,
    sent: &mut [usize],
    most: u64,
    finished: &mut [usize],
) -> usize
    ensures finished_after { advance_handed (handed result (lent state.new interface.new array.new register.new history.new sent.new)) finished.new ≡ advancing_lent (setting (geometry_of main spare pages blocks logical) mask.now fates.now) (lent state.old interface.old array.old register.old history.old sent.old) allowed most finished.old }
    ensures passed_on { length finished.old ≡ 1 → PassedOn (lent state.old interface.old array.old register.old history.old sent.old) (advance_result (setting (geometry_of main spare pages blocks logical) mask.now fates.now) (lent state.old interface.old array.old register.old history.old sent.old) allowed most).returned state.new }
{
    if !c_buffers::is_lent_rightly(state.len(), interface.len(), sent.len()) {
        return BAD_BUFFER;
    }
    if finished.len() != 1 {
        return BAD_BUFFER;
    }
    let g = Geometry {
        main,
        spare,
        pages,
        blocks,
        logical,
    };
    let before = c_open::state_of(state);
    let write = c_open::write_of(state);
    let start = c_buffers::interface_of(interface);
    let ended = open_requests::advance(
        before,
        write,
        &mut state[c_open::PAGE..c_open::KINDS],
        g,
        start,
        array,
        register,
        history,
        mask,
        fates,
        allowed,
        most,
    );
    finished[0] = ended.finished;
    let returned = ended.returned;
    let next = ended.write;
    c_buffers::hand_back(returned, next, false, state, interface, sent)
}
