// The library for programs in C: format, mount, quick mount, read, write and erase, on numbers and lent buffers; a write that is opened
// and advanced; the journal of sales; the sizes that the chip tells; the dearest write; price rules; sales held against each other; the
// draws of the test load.
#![tactic(auto)]

mod costs;
mod ledger;
mod load;
mod opened;
mod prices;
mod sales;
mod sizes;

ghost use Rattle.std.specs.Prelude.{◌≡◌};
ghost use Rattle.chip_array.specs.Device.{setting};
ghost use Rattle.scan_summary.specs.declared.Depth.TheVariants.{Full, Quick};
ghost use Rattle.open_write.specs.Requests.{format_gives};
ghost use Rattle.c_buffers.specs.Buffers.{geometry_of, lent, handed, PassedOn};
ghost use Rattle.flash_store.specs.Library.{format_result, mount_result, read_page, write_result, erase_result, formatting_lent, mounting_lent, read_handed, reading_lent, writing_lent, erasing_lent};

use geometry::Geometry;
use scan_summary::Depth;

// A lent buffer has a length that the call cannot use.
pub(crate) const BAD_BUFFER: usize = 100;

// Sizes that do not go together, a write that is open, and a protected chip.
const REFUSED_SIZES: usize = 1;

const BARRED: usize = 15;

const PROTECTED: usize = 13;

// Whether a formatting with this answer gives up what is open.
fn gives_up(answer: usize) -> bool
    ensures { result ≡ format_gives answer }
{
    if answer == REFUSED_SIZES {
        return false;
    }
    answer != PROTECTED
}

// Formats the chip. c/flash_store.h says what is lent.
#[unsafe(no_mangle)]
pub extern "C" fn flash_store_format(
    main: usize,
    spare: usize,
    pages: usize,
    blocks: usize,
    logical: usize,
    state: &mut [u8],
    interface: &mut [usize],
    array: &mut [u8],
    register: &mut [u8],
    history: &mut [u8],
    mask: &[u8],
    fates: &[u32],
    allowed: u32,
    sent: &mut [usize],
) -> usize
    ensures sent_after { handed result (lent state.new interface.new array.new register.new history.new sent.new) ≡ formatting_lent (setting (geometry_of main spare pages blocks logical) mask.now fates.now) (lent state.old interface.old array.old register.old history.old sent.old) allowed }
    ensures passed_on { PassedOn (lent state.old interface.old array.old register.old history.old sent.old) (format_result (setting (geometry_of main spare pages blocks logical) mask.now fates.now) (lent state.old interface.old array.old register.old history.old sent.old) allowed) state.new }
{
    if !c_buffers::is_lent_rightly(state.len(), interface.len(), sent.len()) {
        return BAD_BUFFER;
    }
    let g = Geometry {
        main,
        spare,
        pages,
        blocks,
        logical,
    };
    let before = c_open::state_of(state);
    let write = c_open::write_of(state);
    let start = c_buffers::interface_of(interface);
    let barred = write.opened != 0;
    let held = c_buffers::held(
        before,
        write,
        state,
        g,
        array.len(),
        register.len(),
        history.len(),
        mask.len(),
        barred,
    );
    if held == BARRED {
        return c_buffers::refuse(held, before, write, start, state, interface, sent);
    }
    let returned = format::format(
        before, g, start, array, register, history, mask, fates, allowed,
    );
    let gone = gives_up(returned.answer);
    c_buffers::hand_back(returned, write, gone, state, interface, sent)
}

// Mounts at the depth given.
fn mount_at(
    depth: Depth,
    main: usize,
    spare: usize,
    pages: usize,
    blocks: usize,
    logical: usize,
    state: &mut [u8],
    interface: &mut [usize],
    array: &mut [u8],
    register: &mut [u8],
    history: &mut [u8],
    mask: &[u8],
    fates: &[u32],
    allowed: u32,
    sent: &mut [usize],
) -> usize
    ensures sent_after { handed result (lent state.new interface.new array.new register.new history.new sent.new) ≡ mounting_lent depth (setting (geometry_of main spare pages blocks logical) mask.now fates.now) (lent state.old interface.old array.old register.old history.old sent.old) allowed }
    ensures passed_on { PassedOn (lent state.old interface.old array.old register.old history.old sent.old) (mount_result depth (setting (geometry_of main spare pages blocks logical) mask.now fates.now) (lent state.old interface.old array.old register.old history.old sent.old) allowed) state.new }
{
    if !c_buffers::is_lent_rightly(state.len(), interface.len(), sent.len()) {
        return BAD_BUFFER;
    }
    let g = Geometry {
        main,
        spare,
        pages,
        blocks,
        logical,
    };
    let before = c_open::state_of(state);
    let write = c_open::write_of(state);
    let start = c_buffers::interface_of(interface);
    let returned = mount::mount(
        depth, before, g, start, array, register, history, mask, fates, allowed,
    );
    let gone = returned.answer != REFUSED_SIZES;
    c_buffers::hand_back(returned, write, gone, state, interface, sent)
}

// Mounts.
#[unsafe(no_mangle)]
pub extern "C" fn flash_store_mount(
    main: usize,
    spare: usize,
    pages: usize,
    blocks: usize,
    logical: usize,
    state: &mut [u8],
    interface: &mut [usize],
    array: &mut [u8],
    register: &mut [u8],
    history: &mut [u8],
    mask: &[u8],
    fates: &[u32],
    allowed: u32,
    sent: &mut [usize],
) -> usize
    ensures sent_after { handed result (lent state.new interface.new array.new register.new history.new sent.new) ≡ mounting_lent Full (setting (geometry_of main spare pages blocks logical) mask.now fates.now) (lent state.old interface.old array.old register.old history.old sent.old) allowed }
    ensures passed_on { PassedOn (lent state.old interface.old array.old register.old history.old sent.old) (mount_result Full (setting (geometry_of main spare pages blocks logical) mask.now fates.now) (lent state.old interface.old array.old register.old history.old sent.old) allowed) state.new }
{
    mount_at(
        Depth::Full,
        main,
        spare,
        pages,
        blocks,
        logical,
        state,
        interface,
        array,
        register,
        history,
        mask,
        fates,
        allowed,
        sent,
    )
}

// Mounts, reading of a block that holds no copy its first and last page and one mark byte.
#[unsafe(no_mangle)]
pub extern "C" fn flash_store_quick_mount(
    main: usize,
    spare: usize,
    pages: usize,
    blocks: usize,
    logical: usize,
    state: &mut [u8],
    interface: &mut [usize],
    array: &mut [u8],
    register: &mut [u8],
    history: &mut [u8],
    mask: &[u8],
    fates: &[u32],
    allowed: u32,
    sent: &mut [usize],
) -> usize
    ensures sent_after { handed result (lent state.new interface.new array.new register.new history.new sent.new) ≡ mounting_lent Quick (setting (geometry_of main spare pages blocks logical) mask.now fates.now) (lent state.old interface.old array.old register.old history.old sent.old) allowed }
    ensures passed_on { PassedOn (lent state.old interface.old array.old register.old history.old sent.old) (mount_result Quick (setting (geometry_of main spare pages blocks logical) mask.now fates.now) (lent state.old interface.old array.old register.old history.old sent.old) allowed) state.new }
{
    mount_at(
        Depth::Quick,
        main,
        spare,
        pages,
        blocks,
        logical,
        state,
        interface,
        array,
        register,
        history,
        mask,
        fates,
        allowed,
        sent,
    )
}

// Reads one logical page into the buffer.
#[unsafe(no_mangle)]
pub extern "C" fn flash_store_read(
    main: usize,
    spare: usize,
    pages: usize,
    blocks: usize,
    logical: usize,
    state: &mut [u8],
    interface: &mut [usize],
    array: &mut [u8],
    register: &mut [u8],
    history: &mut [u8],
    mask: &[u8],
    fates: &[u32],
    allowed: u32,
    sent: &mut [usize],
    block: usize,
    page: usize,
    buffer: &mut [u8],
) -> usize
    ensures buffer_after { read_handed (handed result (lent state.new interface.new array.new register.new history.new sent.new)) buffer.new ≡ reading_lent (setting (geometry_of main spare pages blocks logical) mask.now fates.now) (lent state.old interface.old array.old register.old history.old sent.old) allowed block page buffer.old }
    ensures passed_on { PassedOn (lent state.old interface.old array.old register.old history.old sent.old) (read_page (setting (geometry_of main spare pages blocks logical) mask.now fates.now) (lent state.old interface.old array.old register.old history.old sent.old) allowed block page buffer.old).returned state.new }
{
    if !c_buffers::is_lent_rightly(state.len(), interface.len(), sent.len()) {
        return BAD_BUFFER;
    }
    let g = Geometry {
        main,
        spare,
        pages,
        blocks,
        logical,
    };
    let before = c_open::state_of(state);
    let write = c_open::write_of(state);
    let start = c_buffers::interface_of(interface);
    if !c_open::is_inside(write, state, g) {
        let held = c_buffers::held(
            before,
            write,
            state,
            g,
            array.len(),
            register.len(),
            history.len(),
            mask.len(),
            false,
        );
        return c_buffers::refuse(held, before, write, start, state, interface, sent);
    }
    let returned = read::read(
        before, g, start, array, register, history, mask, fates, allowed, block, page, buffer,
    );
    let gone = open_write::is_stopping(returned.answer);
    c_buffers::hand_back(returned, write, gone, state, interface, sent)
}

// Writes one logical page.
#[unsafe(no_mangle)]
pub extern "C" fn flash_store_write(
    main: usize,
    spare: usize,
    pages: usize,
    blocks: usize,
    logical: usize,
    state: &mut [u8],
    interface: &mut [usize],
    array: &mut [u8],
    register: &mut [u8],
    history: &mut [u8],
    mask: &[u8],
    fates: &[u32],
    allowed: u32,
    sent: &mut [usize],
    block: usize,
    page: usize,
    bytes: &[u8],
) -> usize
    ensures sent_after { handed result (lent state.new interface.new array.new register.new history.new sent.new) ≡ writing_lent (setting (geometry_of main spare pages blocks logical) mask.now fates.now) (lent state.old interface.old array.old register.old history.old sent.old) allowed block page bytes.now }
    ensures passed_on { PassedOn (lent state.old interface.old array.old register.old history.old sent.old) (write_result (setting (geometry_of main spare pages blocks logical) mask.now fates.now) (lent state.old interface.old array.old register.old history.old sent.old) allowed block page bytes.now) state.new }
{
    if !c_buffers::is_lent_rightly(state.len(), interface.len(), sent.len()) {
        return BAD_BUFFER;
    }
    let g = Geometry {
        main,
        spare,
        pages,
        blocks,
        logical,
    };
    let before = c_open::state_of(state);
    let write = c_open::write_of(state);
    let start = c_buffers::interface_of(interface);
    let opened = write.opened;
    if opened != 0 {
        let held = c_buffers::held(
            before,
            write,
            state,
            g,
            array.len(),
            register.len(),
            history.len(),
            mask.len(),
            true,
        );
        return c_buffers::refuse(held, before, write, start, state, interface, sent);
    }
    let returned = write::write(
        before, g, start, array, register, history, mask, fates, allowed, block, page, bytes,
    );
    let gone = open_write::is_stopping(returned.answer);
    c_buffers::hand_back(returned, write, gone, state, interface, sent)
}

// Erases a logical block.
#[unsafe(no_mangle)]
pub extern "C" fn flash_store_erase(
    main: usize,
    spare: usize,
    pages: usize,
    blocks: usize,
    logical: usize,
    state: &mut [u8],
    interface: &mut [usize],
    array: &mut [u8],
    register: &mut [u8],
    history: &mut [u8],
    mask: &[u8],
    fates: &[u32],
    allowed: u32,
    sent: &mut [usize],
    block: usize,
) -> usize
    ensures sent_after { handed result (lent state.new interface.new array.new register.new history.new sent.new) ≡ erasing_lent (setting (geometry_of main spare pages blocks logical) mask.now fates.now) (lent state.old interface.old array.old register.old history.old sent.old) allowed block }
    ensures passed_on { PassedOn (lent state.old interface.old array.old register.old history.old sent.old) (erase_result (setting (geometry_of main spare pages blocks logical) mask.now fates.now) (lent state.old interface.old array.old register.old history.old sent.old) allowed block) state.new }
{
    if !c_buffers::is_lent_rightly(state.len(), interface.len(), sent.len()) {
        return BAD_BUFFER;
    }
    let g = Geometry {
        main,
        spare,
        pages,
        blocks,
        logical,
    };
    let before = c_open::state_of(state);
    let write = c_open::write_of(state);
    let start = c_buffers::interface_of(interface);
    let opened = write.opened;
    if opened != 0 {
        let held = c_buffers::held(
            before,
            write,
            state,
            g,
            array.len(),
            register.len(),
            history.len(),
            mask.len(),
            true,
        );
        return c_buffers::refuse(held, before, write, start, state, interface, sent);
    }
    let returned = write::erase(
        before, g, start, array, register, history, mask, fates, allowed, block,
    );
    let gone = open_write::is_stopping(returned.answer);
    c_buffers::hand_back(returned, write, gone, state, interface, sent)
}
