// What every request shares: the test of the sizes, the start of a call, and how it is answered.
#![tactic(auto)]

ghost use Rattle.std.specs.Prelude.{◌≡◌, ◌≤◌, List, ℕ};
ghost use Rattle.chip_array.specs.Device.{device, setting};
ghost use Rattle.bus.specs.Line.{line, new_bus};
ghost use Rattle.request.specs.Start.{Started};
ghost use Rattle.request.specs.Call.{result_with, sized, fresh_interface, stop_answer, status_answer, status_state, answer_for, state_for, end_at};

use bus::Bus;
use bus_polling::Outcome;
use chip_interface::Interface;
use geometry::Geometry;
use state::State;

// The answer of a request that a protected chip does not take.
const PROTECTED: usize = 13;

// What a request hands back besides the lent memory: the answer by its number, the next state, the chip's interface, and
// the cycles sent.
#[derive(Clone, Copy)]
pub struct Returned {
    pub answer: usize,
    pub state: State,
    pub interface: Interface,
    pub sent: usize,
}

// Whether the geometry is valid, and array, register, history and mask have the lengths that it asks.
pub fn is_sized(g: Geometry, array: usize, register: usize, history: usize, mask: usize) -> bool
    ensures { result ≡ sized g array register history mask }
{
    if chip::is_fitting(g, array, register, history) {
        return mask == geometry::block_size(g);
    }
    false
}

// The bus where a call begins: its fate words start anew, and no cycle was answered illegal. The write-protect line
// is as it is handed in.
pub fn begin(mut interface: Interface, allowed: u32) -> Bus
    ensures { result ≡ new_bus (fresh_interface interface) allowed }
{
    interface.fate = 0;
    interface.illegal = 0;
    Bus::new(interface, allowed)
}

// The number of the answer where an operation did not pass.
pub fn stop_answer(outcome: Outcome) -> usize
    ensures { result ≡ stop_answer outcome }
{
    match outcome {
        Outcome::Passed => 255,
        Outcome::Failed => 255,
        Outcome::Silent => 10,
        Outcome::Cut => 11,
        Outcome::Illegal => 255,
        Outcome::Protected => 255,
    }
}

// The number of the answer where a status read did not show that the chip may be written.
pub fn status_answer(outcome: Outcome) -> usize
    ensures { result ≡ status_answer outcome }
{
    let Outcome::Protected = outcome else {
        return stop_answer(outcome);
    };
    PROTECTED
}

// The state that is handed back then.
pub fn status_state(outcome: Outcome, state: State) -> State
    ensures { result ≡ status_state outcome state }
{
    let Outcome::Protected = outcome else {
        return State::blank(2);
    };
    state
}

// The answer of a request whose last operation ended so.
pub fn answer_for(outcome: Outcome) -> usize
    ensures { result ≡ answer_for outcome }
{
    let Outcome::Passed = outcome else {
        return stop_answer(outcome);
    };
    0
}

// The state that it hands back.
pub fn state_for(outcome: Outcome, state: State) -> State
    ensures { result ≡ state_for outcome state }
{
    let Outcome::Passed = outcome else {
        return State::blank(2);
    };
    state
}

// How a request that resets the chip has begun: the answer so far, 0 to go on, and the bus.
#[derive(Clone, Copy)]
pub struct Begun {
    pub answer: usize,
    pub bus: Bus,
}

// Tests the sizes and resets the chip.
pub fn start(
    g: Geometry,
    interface: Interface,
    array: &mut [u8],
    register: &mut [u8],
    history: &mut [u8],
    mask: &[u8],
    fates: &[u32],
    allowed: u32,
) -> Begun
    ensures { Started (setting g mask.now fates.now) (device interface array.old register.old history.old) allowed result.answer (line result.bus array.new register.new history.new) }
{
    let from = begin(interface, allowed);
    if !is_sized(g, array.len(), register.len(), history.len(), mask.len()) {
        return Begun {
            answer: 1,
            bus: from,
        };
    }
    let done = operations::reset(from, g, array, register, history, mask, fates);
    let bus = done.bus;
    let outcome = done.outcome;
    Begun {
        answer: answer_for(outcome),
        bus,
    }
}

// The end of a request that has sent cycles.
pub fn end(answer: usize, state: State, bus: Bus, allowed: u32) -> Returned
    requires { bus.left ≤ allowed }
    ensures { (a p h : List ℕ) → result_with result.answer result.state (device result.interface a p h) result.sent ≡ end_at allowed answer state (line bus a p h) }
{
    let interface = bus.interface;
    let left = bus.left;
    Returned {
        answer,
        state,
        interface,
        sent: allowed as usize - left,
    }
}
