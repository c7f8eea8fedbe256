// The call that lets the chip tell its size, before formatting or mounting.
#![tactic(auto)]

ghost use Rattle.std.specs.Prelude.{◌≡◌, ◌≤◌, true, length};
ghost use Rattle.chip_array.specs.Device.{device, setting};
ghost use Rattle.bus.specs.Line.{line};
ghost use Rattle.bus_polling.specs.Outcomes.{is_passed};
ghost use Rattle.parameters.specs.Page.{told_by};
ghost use Rattle.request.specs.Call.{result_with};
ghost use Rattle.identify.specs.Identify.{identified, no_sizes, unknown, identify_run, identifying};

use bus_polling::{Done, Outcome};
use chip_interface::Interface;
use geometry::Geometry;
use parameters::{Refusal, Sizes};
use request::Returned;
use state::State;

// What the call hands back as every request does, and the sizes that the chip tells, four zeros unless the answer is 0.
#[derive(Clone, Copy)]
pub struct Identified {
    pub returned: Returned,
    pub sizes: Sizes,
}

// The three copies of the parameter page, in bytes.
pub const PARAMETERS: usize = 768;

fn no_sizes() -> Sizes
    ensures { result ≡ no_sizes }
{
    Sizes {
        main: 0,
        spare: 0,
        pages: 0,
        blocks: 0,
    }
}

fn unknown_geometry() -> Geometry
    ensures { result ≡ unknown }
{
    Geometry {
        main: 0,
        spare: 0,
        pages: 0,
        blocks: 0,
        logical: 0,
    }
}

// Resets the chip and reads its parameter page into `bytes`, which are the page's if that passed.
fn fetch(
    interface: Interface,
    array: &mut [u8],
    register: &mut [u8],
    history: &mut [u8],
    mask: &[u8],
    fates: &[u32],
    allowed: u32,
    parameters: &[u8],
    bytes: &mut [u8],
) -> Done
    requires parameters_len { length parameters.now ≡ 768 }
    requires bytes_len { length bytes.old ≡ 768 }
    ensures history_after { line result.bus array.new register.new history.new ≡ (identify_run (setting unknown mask.now fates.now) (device interface array.old register.old history.old) allowed parameters.now).line }
    ensures outcome_value { result.outcome ≡ (identify_run (setting unknown mask.now fates.now) (device interface array.old register.old history.old) allowed parameters.now).outcome }
    ensures fact { (is_passed result.outcome ≡ true → bytes.new ≡ parameters.now) × (result.bus.left ≤ allowed) }
{
    let g = unknown_geometry();
    let from = request::begin(interface, allowed);
    let reset = operations::reset(from, g, array, register, history, mask, fates);
    let Outcome::Passed = reset.outcome else {
        return Done {
            bus: reset.bus,
            outcome: reset.outcome,
        };
    };
    parameter_read::read_parameters(
        reset.bus, g, array, register, history, mask, fates, parameters, bytes,
    )
}

// The answer of a call to which the page told so. The call has one way out for all that a page can tell, and so makes its end once.
fn answer_by(told: Result<Sizes, Refusal>) -> usize
    ensures { result ≡ (told_by told).answer }
{
    match told {
        Ok(_) => 0,
        Err(refusal) => usize::from(refusal),
    }
}

// The sizes that it hands out.
fn sizes_by(told: Result<Sizes, Refusal>) -> Sizes
    ensures { result ≡ (told_by told).sizes }
{
    match told {
        Ok(sizes) => sizes,
        Err(_) => no_sizes(),
    }
}

// Lets the chip tell its size; the number of logical blocks is the caller's.
pub fn identify(
    state: State,
    interface: Interface,
    array: &mut [u8],
    register: &mut [u8],
    history: &mut [u8],
    mask: &[u8],
    fates: &[u32],
    allowed: u32,
    parameters: &[u8],
    logical: usize,
) -> Identified
    ensures { identified (result_with result.returned.answer result.returned.state (device result.returned.interface array.new register.new history.new) result.returned.sent) result.sizes ≡ identifying mask.now fates.now (device interface array.old register.old history.old) allowed state parameters.now logical }
{
    if parameters.len() != PARAMETERS {
        return Identified {
            returned: request_refusals::unchanged(1, state, interface),
            sizes: no_sizes(),
        };
    }
    let mut bytes = [0u8; PARAMETERS];
    let done = fetch(
        interface, array, register, history, mask, fates, allowed, parameters, &mut bytes,
    );
    let Outcome::Passed = done.outcome else {
        let answer = request::stop_answer(done.outcome);
        return Identified {
            returned: request::end(answer, State::blank(2), done.bus, allowed),
            sizes: no_sizes(),
        };
    };
    let told = parameters::tell(&bytes, logical);
    Identified {
        returned: request::end(answer_by(told), state, done.bus, allowed),
        sizes: sizes_by(told),
    }
}
