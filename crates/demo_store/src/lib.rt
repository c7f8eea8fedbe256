// The small chip of the requirement paper with the store on it, by value: the requests as programs here make them.
#![tactic(auto)]

ghost use Rattle.std.specs.Prelude.{◌≡◌, replicate};
ghost use Rattle.chip_array.specs.Device.{device, setting};
ghost use Rattle.request.specs.Call.{result_with};
ghost use Rattle.read_page.specs.Fetching.{read_result};
ghost use Rattle.format.specs.Format.{formatting};
ghost use Rattle.mount.specs.Mount.{mounting};
ghost use Rattle.read.specs.Reading.{reading_page};
ghost use Rattle.write_changes.specs.Changes.{writing, erasing_logical};
ghost use Rattle.demo_store.specs.Small.{chip_in, ended_as, new_store};

use chip_interface::Interface;
use geometry::Geometry;
use request::Returned;
pub use scan_summary::Depth;
use state::State;

// The allowance that cuts nothing.
pub const UNCUT: u32 = 4294967295;

// What stays from call to call: the geometry, the state and the chip.
#[derive(Clone, Copy)]
pub struct Store {
    pub geometry: Geometry,
    pub state: State,
    pub interface: Interface,
    pub array: [u8; 768],
    pub register: [u8; 48],
    pub history: [u8; 4],
}

// How a request ended, and the store that it left.
#[derive(Clone, Copy)]
pub struct Ended {
    pub answer: usize,
    pub sent: usize,
    pub store: Store,
}

// How a read ended, and its page buffer, 0 at first.
#[derive(Clone, Copy)]
pub struct ReadEnded {
    pub ended: Ended,
    pub page: [u8; 32],
}

impl Store {
    // A new chip, all FFh, and a state that is not mounted.
    pub fn new(logical: usize) -> Store
        ensures { result ≡ new_store logical }
    {
        Store {
            geometry: Geometry {
                main: 32,
                spare: 16,
                pages: 4,
                blocks: 4,
                logical,
            },
            state: State::blank(0),
            interface: Interface::power_on(),
            array: [0xff; 768],
            register: [0xff; 48],
            history: [0; 4],
        }
    }

    // The chip as a request left it, put together with what it returned.
    pub fn ended(self, returned: Returned) -> Ended
        ensures r_value { ended_as result ≡ result_with returned.answer returned.state (device returned.interface self.array self.register self.history) returned.sent }
        ensures geometry_value { result.store.geometry ≡ self.geometry }
    {
        Ended {
            answer: returned.answer,
            sent: returned.sent,
            store: Store {
                state: returned.state,
                interface: returned.interface,
                ..self
            },
        }
    }

    // Formats.
    pub fn format(mut self, mask: &[u8], fates: &[u32], allowed: u32) -> Ended
        ensures r_value { ended_as result ≡ formatting (setting self.geometry mask.now fates.now) (chip_in self) allowed self.state }
        ensures geometry_value { result.store.geometry ≡ self.geometry }
    {
        let returned = format::format(
            self.state,
            self.geometry,
            self.interface,
            &mut self.array,
            &mut self.register,
            &mut self.history,
            mask,
            fates,
            allowed,
        );
        self.ended(returned)
    }

    // Mounts, in full or quickly.
    pub fn mount(mut self, depth: Depth, mask: &[u8], fates: &[u32], allowed: u32) -> Ended
        ensures r_value { ended_as result ≡ mounting depth (setting self.geometry mask.now fates.now) (chip_in self) allowed self.state }
        ensures geometry_value { result.store.geometry ≡ self.geometry }
    {
        let returned = mount::mount(
            depth,
            self.state,
            self.geometry,
            self.interface,
            &mut self.array,
            &mut self.register,
            &mut self.history,
            mask,
            fates,
            allowed,
        );
        self.ended(returned)
    }

    // Writes a page whose bytes are all the same.
    pub fn write(
        mut self,
        mask: &[u8],
        fates: &[u32],
        allowed: u32,
        block: usize,
        page: usize,
        byte: u8,
    ) -> Ended
        ensures r_value { ended_as result ≡ writing (setting self.geometry mask.now fates.now) (chip_in self) allowed self.state block page (replicate 32 byte) }
        ensures geometry_value { result.store.geometry ≡ self.geometry }
    {
        let returned = write::write(
            self.state,
            self.geometry,
            self.interface,
            &mut self.array,
            &mut self.register,
            &mut self.history,
            mask,
            fates,
            allowed,
            block,
            page,
            &[byte; 32],
        );
        self.ended(returned)
    }

    // Erases a logical block.
    pub fn erase(mut self, mask: &[u8], fates: &[u32], allowed: u32, block: usize) -> Ended
        ensures r_value { ended_as result ≡ erasing_logical (setting self.geometry mask.now fates.now) (chip_in self) allowed self.state block }
        ensures geometry_value { result.store.geometry ≡ self.geometry }
    {
        let returned = write::erase(
            self.state,
            self.geometry,
            self.interface,
            &mut self.array,
            &mut self.register,
            &mut self.history,
            mask,
            fates,
            allowed,
            block,
        );
        self.ended(returned)
    }

    // Reads a logical page into a buffer of zeros.
    pub fn read(
        mut self,
        mask: &[u8],
        fates: &[u32],
        allowed: u32,
        block: usize,
        page: usize,
    ) -> ReadEnded
        ensures page_value { read_result (ended_as result.ended) result.page ≡ reading_page (setting self.geometry mask.now fates.now) (chip_in self) allowed self.state block page (replicate 32 0) }
        ensures geometry_value { result.ended.store.geometry ≡ self.geometry }
    {
        let mut buffer = [0u8; 32];
        let returned = read::read(
            self.state,
            self.geometry,
            self.interface,
            &mut self.array,
            &mut self.register,
            &mut self.history,
            mask,
            fates,
            allowed,
            block,
            page,
            &mut buffer,
        );
        ReadEnded {
            ended: self.ended(returned),
            page: buffer,
        }
    }
}
