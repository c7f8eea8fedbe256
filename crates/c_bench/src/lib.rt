// A page read and a page program through the model, for the benchmark in C. Each answers the cycles sent.
#![tactic(auto)]

ghost use Rattle.std.specs.Prelude.{◌≡◌, length};
ghost use Rattle.cells.specs.Cells.{over};
ghost use Rattle.chip_array.specs.Device.{setting};
ghost use Rattle.bus_sequences.specs.Cycles.{read_cycles, read_outputs, program_cycles};
ghost use Rattle.c_bench.specs.Start.{part, begun, measured, measured_by};

use bus::Bus;
use chip_interface::Interface;
use geometry::Geometry;

// The geometry of the chip in the data sheet.
fn part() -> Geometry
    ensures { result ≡ part }
{
    Geometry {
        main: 2048,
        spare: 128,
        pages: 64,
        blocks: 4096,
        logical: 4094,
    }
}

#[unsafe(no_mangle)]
pub extern "C" fn chip_bench_read(
    array: &mut [u8],
    register: &mut [u8],
    history: &mut [u8],
    mask: &[u8],
    fates: &[u32],
    row: usize,
    buffer: &mut [u8],
) -> usize
    ensures history_after { measured result array.new register.new history.new ≡ measured_by (setting part mask.now fates.now) (begun array.old register.old history.old) (read_cycles (setting part mask.now fates.now) (begun array.old register.old history.old) row 0 (length buffer.old)) }
    ensures buffer_after { buffer.new ≡ over (read_outputs (setting part mask.now fates.now) (begun array.old register.old history.old) row 0 (length buffer.old)) buffer.old }
{
    let start = Bus::new(Interface::power_on(), 1000000);
    let done = operations::read(
        start,
        part(),
        array,
        register,
        history,
        mask,
        fates,
        row,
        0,
        buffer,
    );
    let after = done.bus;
    let left = after.left;
    1000000 - left
}

#[unsafe(no_mangle)]
pub extern "C" fn chip_bench_program(
    array: &mut [u8],
    register: &mut [u8],
    history: &mut [u8],
    mask: &[u8],
    fates: &[u32],
    row: usize,
    data: &[u8],
) -> usize
    ensures { measured result array.new register.new history.new ≡ measured_by (setting part mask.now fates.now) (begun array.old register.old history.old) (program_cycles (setting part mask.now fates.now) (begun array.old register.old history.old) row «data».now) }
{
    let start = Bus::new(Interface::power_on(), 1000000);
    let done = operations::program(
        start,
        part(),
        array,
        register,
        history,
        mask,
        fates,
        row,
        data,
    );
    let after = done.bus;
    let left = after.left;
    1000000 - left
}
