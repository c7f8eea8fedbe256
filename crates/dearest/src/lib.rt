// The dearest write: the fate words that make a page write over an old copy send the most cycles and still be acknowledged after so many
// failed fills, and those cycles.
#![tactic(auto)]

ghost use Rattle.std.specs.Prelude.{◌≡◌, ◌-◌, ◌*◌, ◌<◌, ◌≤◌, length};
ghost use Rattle.geometry.specs.Limits.{Valid};
ghost use Rattle.dearest.specs.Dearest.{dearest_length, failing_to, dearest_fates, dearest_cycles, number_of, told_by, dearest_told};

use geometry::Geometry;

// Why no words are told.
#[derive(Clone, Copy, Debug, PartialEq, Eq)]
pub enum Refusal {
    // The limits refuse the geometry.
    InvalidGeometry,
    // More failed fills than the permitted blocks can bear.
    TooManyFailures,
    // The slice has not as many words as there are.
    WrongLength,
}

impl Refusal {
    // The paper's number.
    pub fn number(self) -> usize
        ensures { result ≡ number_of self }
    {
        match self {
            Refusal::InvalidGeometry => 1,
            Refusal::TooManyFailures => 2,
            Refusal::WrongLength => 3,
        }
    }
}

// Busy as often as an operation can be and still be heard; the second fails besides.
const SLOW: u32 = 255;

const FAIL: u32 = 65791;

// A geometry within the limits, and so many failed fills as its permitted blocks can bear.
#[derive(Clone, Copy)]
struct Bearable {
    g: Geometry,
    failed: usize,
    ghost within: { Valid g },
    ghost few: { failed ≤ g.blocks - 3 },
}

impl Bearable {
    // How many words there are.
    fn word_count(self) -> usize
        ensures { result ≡ dearest_length self.g self.failed }
    {
        let copies = (self.failed + 1) * (2 * self.g.pages);
        if self.failed == 0 {
            copies
        } else {
            copies + (1 + self.g.pages)
        }
    }

    // How many cycles the write sends.
    fn cycle_count(self) -> usize
        ensures { result ≡ dearest_cycles self.g self.failed }
    {
        let reads = (self.g.pages - 1) * (265 + self.g.main);
        let programs = self.g.pages * (264 + geometry::page_size(self.g));
        let copies = 2 + (self.failed + 1) * (262 + (reads + programs));
        if self.failed == 0 {
            copies
        } else {
            copies + (262 + programs)
        }
    }

    // The words of the write.
    fn write_words(self, fates: &mut [u32])
        requires { length fates.old ≡ dearest_length self.g self.failed }
        ensures { fates.new ≡ dearest_fates self.g self.failed }
    {
        fates.fill(SLOW);
        fail_last(fates, 2 * self.g.pages, self.failed);
    }
}

// The last word of each of the first fills, of `each` words, says fail.
fn fail_last(fates: &mut [u32], each: usize, failed: usize)
    requires each_nonzero { 0 < each }
    requires each_in_bounds { failed * each ≤ length fates.old }
    ensures { fates.new ≡ failing_to each failed fates.old }
{
    for n in 0..failed {
        fates[n * each + (each - 1)] = FAIL;
    }
}

// The dearest write with so many failed fills: its cycles; its words go into the slice.
pub fn dearest_write(g: Geometry, failed: usize, fates: &mut [u32]) -> Result<usize, Refusal>
    ensures { told_by result fates.new ≡ dearest_told g failed fates.old }
{
    if !geometry::is_valid(g) {
        return Err(Refusal::InvalidGeometry);
    }
    if g.blocks - 3 < failed {
        return Err(Refusal::TooManyFailures);
    }
    let bearable = Bearable { g, failed };
    if fates.len() != bearable.word_count() {
        return Err(Refusal::WrongLength);
    }
    bearable.write_words(fates);
    Ok(bearable.cycle_count())
}
