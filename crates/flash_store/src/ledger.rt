// The journal of sales for programs in C: a record appended, and the takings.
ghost use Rattle.std.specs.Prelude.{◌≡◌, length};
ghost use Rattle.chip_array.specs.Device.{setting};
ghost use Rattle.c_buffers.specs.Buffers.{geometry_of, lent, handed, PassedOn};
ghost use Rattle.flash_store.specs.Ledger.{sale_of, append_result, takings_result, told_handed, appending_lent, takings_lent};

use crate::BAD_BUFFER;
use geometry::Geometry;
use journal::Sale;

// Appends a record, and writes the number that it got. c/flash_store.h says what is lent.
#[unsafe(no_mangle)]
pub extern "C" fn flash_store_append(
    main: usize,
    spare: usize,
    pages: usize,
    blocks: usize,
    logical: usize,
    state: &mut [u8],
    interface: &mut [usize],
    array: &mut [u8],
    register: &mut [u8],
    history: &mut [u8],
    mask: &[u8],
    fates: &[u32],
    allowed: u32,
    sent: &mut [usize],
    selection: u8,
    count: u16,
    price: u32,
    replaces: u16,
    number: &mut [usize],
) -> usize
    ensures number_after { told_handed (handed result (lent state.new interface.new array.new register.new history.new sent.new)) number.new ≡ appending_lent (setting (geometry_of main spare pages blocks logical) mask.now fates.now) (lent state.old interface.old array.old register.old history.old sent.old) allowed (sale_of selection count price replaces) number.old }
    ensures passed_on { length number.old ≡ 1 → PassedOn (lent state.old interface.old array.old register.old history.old sent.old) (append_result (setting (geometry_of main spare pages blocks logical) mask.now fates.now) (lent state.old interface.old array.old register.old history.old sent.old) allowed (sale_of selection count price replaces)).returned state.new }
{
    if !c_buffers::is_lent_rightly(state.len(), interface.len(), sent.len()) {
        return BAD_BUFFER;
    }
    if number.len() != 1 {
        return BAD_BUFFER;
    }
    let g = Geometry {
        main,
        spare,
        pages,
        blocks,
        logical,
    };
    let sale = Sale {
        selection,
        count,
        price,
        replaces,
    };
    let before = c_open::state_of(state);
    let write = c_open::write_of(state);
    let start = c_buffers::interface_of(interface);
    let opened = write.opened;
    if opened != 0 {
        let held = c_buffers::held(
            before,
            write,
            state,
            g,
            array.len(),
            register.len(),
            history.len(),
            mask.len(),
            true,
        );
        number[0] = 0;
        return c_buffers::refuse(held, before, write, start, state, interface, sent);
    }
    let entered = journal_requests::append(
        before, g, start, array, register, history, mask, fates, allowed, sale,
    );
    number[0] = entered.number;
    let returned = entered.returned;
    let gone = open_write::is_stopping(returned.answer);
    c_buffers::hand_back(returned, write, gone, state, interface, sent)
}

// Writes the takings: the sum of count times price over the records in force, in cents.
#[unsafe(no_mangle)]
pub extern "C" fn flash_store_takings(
    main: usize,
    spare: usize,
    pages: usize,
    blocks: usize,
    logical: usize,
    state: &mut [u8],
    interface: &mut [usize],
    array: &mut [u8],
    register: &mut [u8],
    history: &mut [u8],
    mask: &[u8],
    fates: &[u32],
    allowed: u32,
    sent: &mut [usize],
    takings: &mut [u64],
) -> usize
    ensures takings_after { told_handed (handed result (lent state.new interface.new array.new register.new history.new sent.new)) takings.new ≡ takings_lent (setting (geometry_of main spare pages blocks logical) mask.now fates.now) (lent state.old interface.old array.old register.old history.old sent.old) allowed takings.old }
    ensures passed_on { length takings.old ≡ 1 → PassedOn (lent state.old interface.old array.old register.old history.old sent.old) (takings_result (setting (geometry_of main spare pages blocks logical) mask.now fates.now) (lent state.old interface.old array.old register.old history.old sent.old) allowed).returned state.new }
{
    if !c_buffers::is_lent_rightly(state.len(), interface.len(), sent.len()) {
        return BAD_BUFFER;
    }
    if takings.len() != 1 {
        return BAD_BUFFER;
    }
    let g = Geometry {
        main,
        spare,
        pages,
        blocks,
        logical,
    };
    let before = c_open::state_of(state);
    let write = c_open::write_of(state);
    let start = c_buffers::interface_of(interface);
    if !c_open::is_inside(write, state, g) {
        let held = c_buffers::held(
            before,
            write,
            state,
            g,
            array.len(),
            register.len(),
            history.len(),
            mask.len(),
            false,
        );
        takings[0] = 0;
        return c_buffers::refuse(held, before, write, start, state, interface, sent);
    }
    let total = journal_requests::takings(
        before, g, start, array, register, history, mask, fates, allowed,
    );
    takings[0] = total.takings;
    let returned = total.returned;
    let gone = open_write::is_stopping(returned.answer);
    c_buffers::hand_back(returned, write, gone, state, interface, sent)
}
