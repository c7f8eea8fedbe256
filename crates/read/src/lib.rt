// The request that reads one logical page.
#![tactic(auto)]

ghost use Rattle.std.specs.Prelude.{◌≡◌};
ghost use Rattle.chip_array.specs.Device.{device, setting};
ghost use Rattle.request.specs.Call.{result_with};
ghost use Rattle.read_page.specs.Fetching.{read_result};
ghost use Rattle.read.specs.Reading.{reading_page};

use chip_interface::Interface;
use geometry::Geometry;
use request::Returned;
use state::State;

fn wide(x: u16) -> usize
    ensures { result ≡ x }
{
    x as usize
}

// Reads a page of a logical block into a buffer of main bytes, which changes only with the answer 0.
pub fn read(
    state: State,
    g: Geometry,
    interface: Interface,
    array: &mut [u8],
    register: &mut [u8],
    history: &mut [u8],
    mask: &[u8],
    fates: &[u32],
    allowed: u32,
    logical: usize,
    page: usize,
    buffer: &mut [u8],
) -> Returned
    ensures { read_result (result_with result.answer result.state (device result.interface array.new register.new history.new) result.sent) buffer.new ≡ reading_page (setting g mask.now fates.now) (device interface array.old register.old history.old) allowed state logical page buffer.old }
{
    let refused = request_refusals::refusal(
        state,
        g,
        array.len(),
        register.len(),
        history.len(),
        mask.len(),
        logical,
        page,
        buffer.len(),
    );
    if refused != 0 {
        return request_refusals::unchanged(refused, state, interface);
    }
    let map = state.map;
    let block = wide(map[logical]);
    if block == 65535 {
        cells::erase_whole(buffer);
        return request_refusals::unchanged(0, state, interface);
    }
    let kinds = state.kinds;
    let form = kinds[logical];
    read_page::read_block(
        state, g, interface, array, register, history, mask, fates, allowed, block, form, page,
        buffer,
    )
}
