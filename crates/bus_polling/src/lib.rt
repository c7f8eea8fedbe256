// Status reads until the chip is ready, and how an operation ended.
#![tactic(auto)]

ghost use Rattle.std.specs.Prelude.{true, cond, ◌≡◌, List, eqb, ℕ};
ghost use Rattle.chip_array.specs.Device.{setting};
ghost use Rattle.bus.specs.Line.{line};
ghost use Rattle.bus_polling.specs.Polling.{polled, outcome_of, ended_as, ready, judged, writable};
ghost use Rattle.bus_polling.specs.Outcomes.{answered, guarded};

use bus::Bus;
use geometry::Geometry;

// How an operation ended. `Illegal` stands for a cycle that the chip did not allow; the store sends none. `Protected` is a program
// or an erase that the chip answered with its write-protect line low.
#[derive(Clone, Copy)]
pub enum Outcome {
    Passed,
    Failed,
    Silent,
    Cut,
    Illegal,
    Protected,
}

// The bus after an operation, and how it ended.
#[derive(Clone, Copy)]
pub struct Done {
    pub bus: Bus,
    pub outcome: Outcome,
}

// The bus after status reads, how the operation ended, and the status byte that reported ready: 0 where none did.
#[derive(Clone, Copy)]
pub struct Polled {
    pub bus: Bus,
    pub outcome: Outcome,
    pub status: u8,
}

// How a run of cycles ended that asks for no status.
pub fn ended(b: Bus) -> Outcome
    ensures { (a p h : List ℕ) → result ≡ ended_as (line b a p h) }
{
    let cut = b.cut;
    if cut != 0 {
        return Outcome::Cut;
    }
    let i = b.interface;
    let illegal = i.illegal;
    if illegal != 0 {
        return Outcome::Illegal;
    }
    Outcome::Passed
}

// Status bit 6.
fn is_ready(status: u8) -> bool
    ensures { result ≡ ready status }
{
    status & 0x40 != 0
}

// Status bit 0, of a status that is ready.
fn judge(status: u8) -> Outcome
    ensures { result ≡ judged status }
{
    if status & 0x01 == 0 {
        return Outcome::Passed;
    }
    Outcome::Failed
}

// Status bit 7.
fn is_writable(status: u8) -> bool
    ensures { result ≡ writable status }
{
    status & 0x80 != 0
}

// A program or an erase that was answered on a protected chip.
fn guard(outcome: Outcome) -> Outcome
    ensures { result ≡ guarded outcome }
{
    match outcome {
        Outcome::Passed => Outcome::Protected,
        Outcome::Failed => Outcome::Protected,
        Outcome::Silent => Outcome::Silent,
        Outcome::Cut => Outcome::Cut,
        Outcome::Illegal => Outcome::Illegal,
        Outcome::Protected => Outcome::Protected,
    }
}

// How a program or an erase ended: bit 7 of its status before bit 0.
pub fn answer(outcome: Outcome, status: u8) -> Outcome
    ensures { result ≡ cond (writable status) outcome (guarded outcome) }
{
    if is_writable(status) {
        return outcome;
    }
    guard(outcome)
}

// Status reads until one reports ready, at most 256. What the status says is judged only when ready.
pub fn poll(from: Bus, g: Geometry, array: &mut [u8], register: &[u8], history: &mut [u8]) -> Polled
    ensures by_index { (m f : List ℕ) → line result.bus array.new register.now history.new ≡ polled (setting g m f) 256 (line from array.old register.now history.old) }
    ensures outcome_value { result.outcome ≡ outcome_of (line result.bus array.new register.now history.new) }
    ensures status_value { answered result.outcome ≡ true → writable result.status ≡ eqb result.bus.interface.protected 0 }
{
    let mut b = from;
    let mut reads: usize = 0;
    while reads < 256 {
        let out = bus::status(b, g, array, register, history);
        b = out.bus;
        if !bus::goes_on(b) {
            return Polled {
                bus: b,
                outcome: ended(b),
                status: 0,
            };
        }
        if is_ready(out.byte) {
            return Polled {
                bus: b,
                outcome: judge(out.byte),
                status: out.byte,
            };
        }
        reads += 1;
    }
    Polled {
        bus: b,
        outcome: Outcome::Silent,
        status: 0,
    }
}
