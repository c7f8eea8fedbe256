// The bus of one call: the chip's interface, and how many cycles are left before the call is cut.
#![tactic(auto)]

ghost use Rattle.std.specs.Prelude.{◌≡◌, List, ℕ, ◌<◌};
ghost use Rattle.chip_array.specs.Device.{Setting, setting};
ghost use Rattle.chip.specs.Chip.{Cycle};
ghost use Rattle.bus.specs.Line.{line, goes_on, may_go, spent_bus, blocked_bus, send, byte_out, parameter_byte_out, status_out, new_bus};

use chip_interface::Interface;
use geometry::Geometry;

#[derive(Clone, Copy)]
pub struct Bus {
    pub interface: Interface,
    // Cycles left before the cut.
    pub left: usize,
    // 1 once a cycle was due and none was left.
    pub cut: usize,
}

// The bus after an output cycle, and the byte put out.
#[derive(Clone, Copy)]
pub struct Out {
    pub bus: Bus,
    pub byte: u8,
}

impl Bus {
    // A call that may send `allowed` cycles.
    pub fn new(interface: Interface, allowed: u32) -> Self
        ensures { result ≡ new_bus interface allowed }
    {
        Self {
            interface,
            left: allowed as usize,
            cut: 0,
        }
    }

    // Whether one more cycle is sent.
    pub fn admits(self) -> bool
        ensures { result ≡ may_go self.cut self.interface.illegal self.left }
    {
        let cut = self.cut;
        if cut != 0 {
            return false;
        }
        let i = self.interface;
        let illegal = i.illegal;
        if illegal != 0 {
            return false;
        }
        let left = self.left;
        0 < left
    }

    // After a cycle that was sent.
    fn spend(self, interface: Interface) -> Self
        requires { 0 < self.left }
        ensures { result ≡ spent_bus self interface }
    {
        let left = self.left;
        let cut = self.cut;
        Self {
            interface,
            left: left - 1,
            cut,
        }
    }

    // After a cycle that was due and not sent.
    fn block(mut self) -> Self
        ensures { result ≡ blocked_bus self }
    {
        let cut = self.cut;
        if cut != 0 {
            return self;
        }
        let i = self.interface;
        let illegal = i.illegal;
        if illegal != 0 {
            return self;
        }
        self.cut = 1;
        self
    }
}

// A command cycle.
pub fn command(
    bus: Bus,
    g: Geometry,
    array: &mut [u8],
    register: &mut [u8],
    history: &mut [u8],
    mask: &[u8],
    fates: &[u32],
    code: u8,
) -> Bus
    ensures { line result array.new register.new history.new ≡ send (setting g mask.now fates.now) (line bus array.old register.old history.old) (Cycle.command code) }
{
    if bus.admits() {
        let i = bus.interface;
        let next = chip::command(i, g, array, register, history, mask, fates, code);
        return bus.spend(next);
    }
    bus.block()
}

// An address cycle.
pub fn address(bus: Bus, g: Geometry, byte: u8) -> Bus
    ensures { (m f a p h : List ℕ) → line result a p h ≡ send (setting g m f) (line bus a p h) (Cycle.address byte) }
{
    if bus.admits() {
        let i = bus.interface;
        let next = i.address(g, byte);
        return bus.spend(next);
    }
    bus.block()
}

// A data input cycle. The bus is changed in place: data cycles are many.
pub fn data_in(mut bus: Bus, register: &mut [u8], byte: u8) -> Bus
    ensures { (s : Setting) (a h : List ℕ) → line result a register.new h ≡ send s (line bus a register.old h) (Cycle.data_in byte) }
{
    if bus.admits() {
        let i = bus.interface;
        let left = bus.left;
        let next = chip::data_in(i, register, byte);
        bus.interface = next;
        bus.left = left - 1;
        return bus;
    }
    bus.block()
}

// A data output cycle. The byte counts only where the cycle was sent and allowed.
pub fn data_out(bus: Bus, register: &[u8]) -> Out
    ensures h_value { (s : Setting) (a h : List ℕ) → line result.bus a register.now h ≡ send s (line bus a register.now h) Cycle.data_out }
    ensures by_index { (a h : List ℕ) → result.byte ≡ byte_out (line bus a register.now h) }
{
    if bus.admits() {
        let i = bus.interface;
        let shown = chip::data_out(i, register);
        let next = shown.interface;
        let byte = shown.byte;
        return Out {
            bus: bus.spend(next),
            byte,
        };
    }
    Out {
        bus: bus.block(),
        byte: 0,
    }
}

// The address cycle after ECh, which takes a fate word.
pub fn parameter_address(bus: Bus, fates: &[u32], byte: u8) -> Bus
    ensures { (g : Geometry) (m a p h : List ℕ) → line result a p h ≡ send (setting g m fates.now) (line bus a p h) (Cycle.parameter_address byte) }
{
    if bus.admits() {
        let i = bus.interface;
        let next = i.parameter_address(fates, byte);
        return bus.spend(next);
    }
    bus.block()
}

// A data output cycle of the parameter page. The byte counts only where the cycle was sent and allowed.
pub fn parameter_out(bus: Bus, page: &[u8]) -> Out
    ensures h_value { (s : Setting) (a p h : List ℕ) → line result.bus a p h ≡ send s (line bus a p h) (Cycle.parameter_out page.now) }
    ensures by_index { (a p h : List ℕ) → result.byte ≡ parameter_byte_out page.now (line bus a p h) }
{
    if bus.admits() {
        let i = bus.interface;
        let shown = chip::parameter_out(i, page);
        let next = shown.interface;
        let byte = shown.byte;
        return Out {
            bus: bus.spend(next),
            byte,
        };
    }
    Out {
        bus: bus.block(),
        byte: 0,
    }
}

// A status read.
pub fn status(bus: Bus, g: Geometry, array: &mut [u8], register: &[u8], history: &mut [u8]) -> Out
    ensures by_index { (m f : List ℕ) → line result.bus array.new register.now history.new ≡ send (setting g m f) (line bus array.old register.now history.old) Cycle.status }
    ensures by_index_2 { (a p h : List ℕ) → result.byte ≡ status_out (line bus a p h) }
{
    if bus.admits() {
        let i = bus.interface;
        let shown = chip::status(i, g, array, register, history);
        let next = shown.interface;
        let byte = shown.byte;
        return Out {
            bus: bus.spend(next),
            byte,
        };
    }
    Out {
        bus: bus.block(),
        byte: 0,
    }
}

// Whether no cycle was cut off or answered illegal.
pub fn goes_on(b: Bus) -> bool
    ensures { (a p h : List ℕ) → result ≡ goes_on (line b a p h) }
{
    let cut = b.cut;
    if cut != 0 {
        return false;
    }
    let i = b.interface;
    let illegal = i.illegal;
    illegal == 0
}
