// Mounting, full or quick: a reset, a scan of the chip, and the state that it gives. Nothing on the chip changes.
#![tactic(auto)]

ghost use Rattle.std.specs.Prelude.{List, ◌≡◌, ◌≤◌};
ghost use Rattle.chip_array.specs.Device.{device, setting};
ghost use Rattle.chip.specs.Chip.{Cycle};
ghost use Rattle.bus.specs.Line.{line};
ghost use Rattle.bus_polling.specs.declared.Outcome.TheVariants.{Passed};
ghost use Rattle.operations.specs.Ends.{Called};
ghost use Rattle.operations.specs.Trace.{ArrayOperation};
ghost use Rattle.progress.specs.Progress.{progress};
ghost use Rattle.scan.specs.Scan.{blocks_read};
ghost use Rattle.request.specs.Call.{result_with};
ghost use Rattle.mount.specs.Mount.{mount_end, mounting};

use bus::Bus;
use bus_polling::Outcome;
use chip_interface::Interface;
use geometry::Geometry;
use request::Returned;
use scan_found::contents::Copies;
use scan_summary::Depth;
use state::State;

// The scan, once the chip is reset, and its end.
fn scan_and_judge(
    depth: Depth,
    from: Bus,
    g: Geometry,
    array: &mut [u8],
    register: &mut [u8],
    history: &mut [u8],
    mask: &[u8],
    fates: &[u32],
    allowed: u32,
) -> Returned
    requires called { Called (setting g mask.now fates.now) (line from array.old register.old history.old) }
    requires left_le_allowed { from.left ≤ allowed }
    ensures { (cs : List Cycle) (os : List ArrayOperation) → result_with result.answer result.state (device result.interface array.new register.new history.new) result.sent ≡ mount_end depth (setting g mask.now fates.now) allowed (blocks_read depth (setting g mask.now fates.now) g.blocks (progress (line from array.old register.old history.old) Passed cs os)) }
{
    let mut page = [0u8; 4352];
    let mut kinds = [0u8; 4096];
    let mut logicals = [0u16; 4096];
    let mut numbers = [0u64; 4096];
    let size = geometry::page_size(g);
    let scanned = scan::scan_chip(
        depth,
        from,
        g,
        array,
        register,
        history,
        mask,
        fates,
        &mut page[0..size],
        &mut kinds,
        &mut logicals,
        &mut numbers,
    );
    let b = scanned.bus;
    let outcome = scanned.outcome;
    let Outcome::Passed = outcome else {
        return request::end(request::stop_answer(outcome), State::blank(2), b, allowed);
    };
    let found = scanned.found;
    let copies = Copies {
        kinds: &kinds,
        logicals: &logicals,
        numbers: &numbers,
    };
    let answer = mount_judge::judge(found, g, &copies);
    if answer != 0 {
        return request::end(answer, State::blank(0), b, allowed);
    }
    let state = mount_judge::mounted_state(found, g, &copies);
    request::end(0, state, b, allowed)
}

// The request, on any state, chip, mask, fate words and allowance: a full mount, or a quick one.
pub fn mount(
    depth: Depth,
    state: State,
    g: Geometry,
    interface: Interface,
    array: &mut [u8],
    register: &mut [u8],
    history: &mut [u8],
    mask: &[u8],
    fates: &[u32],
    allowed: u32,
) -> Returned
    ensures { result_with result.answer result.state (device result.interface array.new register.new history.new) result.sent ≡ mounting depth (setting g mask.now fates.now) (device interface array.old register.old history.old) allowed state }
{
    let begun = request::start(g, interface, array, register, history, mask, fates, allowed);
    let answer = begun.answer;
    let bus = begun.bus;
    if answer == 1 {
        return Returned {
            answer,
            state,
            interface,
            sent: 0,
        };
    }
    if answer != 0 {
        return request::end(answer, State::blank(2), bus, allowed);
    }
    scan_and_judge(
        depth, bus, g, array, register, history, mask, fates, allowed,
    )
}
