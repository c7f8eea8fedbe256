// The refusals that a request on a mounted state can get, and the end of a request that changes nothing.
#![tactic(auto)]

ghost use Rattle.std.specs.Prelude.{◌≡◌, List, ℕ};
ghost use Rattle.chip_array.specs.Device.{device};
ghost use Rattle.request.specs.Call.{result_with, sized};
ghost use Rattle.request_refusals.specs.Refusals.{refusal};

use chip_interface::Interface;
use geometry::Geometry;
use request::Returned;
use state::State;

// The number of the refusal, 0 where there is none. Array, register, history, mask and buffer are told by their lengths.
pub fn refusal(
    state: State,
    g: Geometry,
    array: usize,
    register: usize,
    history: usize,
    mask: usize,
    logical: usize,
    page: usize,
    buffer: usize,
) -> usize
    ensures { result ≡ refusal g (sized g array register history mask) state logical page buffer }
{
    if !request::is_sized(g, array, register, history, mask) {
        return 1;
    }
    if !state.is_mounted(g.blocks, g.logical) {
        return 7;
    }
    if g.logical <= logical {
        return 2;
    }
    if g.pages <= page {
        return 2;
    }
    if buffer != g.main {
        return 3;
    }
    0
}

// The end of a request that sends no cycle and changes nothing.
pub fn unchanged(answer: usize, state: State, interface: Interface) -> Returned
    ensures { (a p h : List ℕ) → result_with result.answer result.state (device result.interface a p h) result.sent ≡ result_with answer state (device interface a p h) 0 }
{
    Returned {
        answer,
        state,
        interface,
        sent: 0,
    }
}
