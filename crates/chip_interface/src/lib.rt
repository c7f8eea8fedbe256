// The state of the chip's command interface between two bus cycles, and the cycles that change nothing else.
#![tactic(auto)]

ghost use Rattle.std.specs.Prelude.{◌≡◌, ◌%◌, ◌<◌};
ghost use Rattle.chip_interface.specs.Interface.{powered_on, refused, in_phase, after_reset, begun, output_resumed, status_mode, read_mode, plain_command, more_address, full_address, latched, addressed, shifted, row_of_address, failed_of, started, unstarted, fate_word, next_fate, address_fits, protected_byte, status_byte, parameters_started, parameter_addressed};

use geometry::Geometry;

// All fields are numbers of one width: a struct with gaps costs a store for each cycle.
#[derive(Clone, Copy)]
pub struct Interface {
    // What the chip expects next: one of the phases below.
    pub phase: usize,
    // Address bytes taken so far, the two column bytes counted as taken by an erase.
    pub count: usize,
    // The address register: each byte enters at bit 32 and moves the others down by 8.
    pub address: usize,
    // The column at which data input or output began.
    pub first: usize,
    // The next column of data input or output.
    pub column: usize,
    // The operation under way: 1 read, 2 program, 3 erase, 4 the parameter page.
    pub operation: usize,
    // Status reads still to be answered busy.
    pub busy: usize,
    // Not 0 where the last program or erase failed.
    pub failed: usize,
    // 1 where a page or the parameter page was read and can be put out.
    pub loaded: usize,
    // The fate words used so far.
    pub fate: usize,
    // 1 once a cycle was answered illegal.
    pub illegal: usize,
    // Not 0 where the write-protect line is low; no cycle changes it.
    pub protected: usize,
}

pub const READY: usize = 0;

pub const STATUS: usize = 1;

pub const DATA_OUT: usize = 2;

pub const READ_ADDRESS: usize = 3;

pub const PROGRAM_ADDRESS: usize = 4;

pub const ERASE_ADDRESS: usize = 5;

pub const PROGRAM_DATA: usize = 6;

pub const BUSY: usize = 7;

pub const BUSY_STATUS: usize = 8;

pub const PARAMETER_ADDRESS: usize = 9;

pub const READ: usize = 1;

pub const PROGRAM: usize = 2;

pub const ERASE: usize = 3;

pub const PARAMETERS: usize = 4;

fn wide(x: u8) -> usize
    ensures { result ≡ x }
{
    x as usize
}

fn wide_word(x: u32) -> usize
    ensures { result ≡ x }
{
    x as usize
}

impl Interface {
    // After power comes on, before the first fate word.
    pub fn power_on() -> Self
        ensures { result ≡ powered_on }
    {
        Self {
            phase: READY,
            count: 0,
            address: 0,
            first: 0,
            column: 0,
            operation: 0,
            busy: 0,
            failed: 0,
            loaded: 0,
            fate: 0,
            illegal: 0,
            protected: 0,
        }
    }

    // The cycle is answered illegal.
    pub fn refuse(mut self) -> Self
        ensures { result ≡ refused self }
    {
        self.illegal = 1;
        self
    }

    fn enter(mut self, phase: usize) -> Self
        ensures { result ≡ in_phase phase self }
    {
        self.phase = phase;
        self
    }

    // FFh.
    fn reset(mut self) -> Self
        ensures { result ≡ after_reset self }
    {
        self.phase = READY;
        self.count = 0;
        self.address = 0;
        self.first = 0;
        self.column = 0;
        self.operation = 0;
        self.busy = 0;
        self.failed = 0;
        self.loaded = 0;
        self
    }

    // The first cycle of an operation: `count` address bytes are taken as given.
    fn begin(mut self, phase: usize, count: usize) -> Self
        ensures { result ≡ begun phase count self }
    {
        let present = self.phase;
        if DATA_OUT < present {
            return self.refuse();
        }
        self.phase = phase;
        self.count = count;
        self.address = 0;
        self.loaded = 0;
        self
    }

    // 70h.
    fn show_status(self) -> Self
        ensures { result ≡ status_mode self }
    {
        let now = self.phase;
        if now <= DATA_OUT {
            return self.enter(STATUS);
        }
        if now == BUSY {
            return self.enter(BUSY_STATUS);
        }
        if now == BUSY_STATUS {
            return self;
        }
        self.refuse()
    }

    // 00h where a page is in the register: data output goes on at the present column.
    fn resume_output(mut self) -> Self
        ensures { result ≡ output_resumed self }
    {
        let column = self.column;
        self.phase = DATA_OUT;
        self.first = column;
        self
    }

    // 00h.
    fn begin_read(self) -> Self
        ensures { result ≡ read_mode self }
    {
        let now = self.phase;
        if DATA_OUT < now {
            return self.refuse();
        }
        let loaded = self.loaded;
        if loaded == 1 {
            return self.resume_output();
        }
        self.begin(READ_ADDRESS, 0)
    }

    // Every command that starts no array operation.
    pub fn plain_command(self, code: u8) -> Self
        ensures { result ≡ plain_command code self }
    {
        if code == 0xff {
            return self.reset();
        }
        if code == 0x70 {
            return self.show_status();
        }
        if code == 0x00 {
            return self.begin_read();
        }
        if code == 0x80 {
            return self.begin(PROGRAM_ADDRESS, 0);
        }
        if code == 0x60 {
            return self.begin(ERASE_ADDRESS, 2);
        }
        if code == 0xec {
            return self.begin(PARAMETER_ADDRESS, 0);
        }
        self.refuse()
    }

    fn more_address(mut self, address: usize) -> Self
        requires { self.count < 5 }
        ensures { result ≡ more_address address self }
    {
        let count = self.count;
        self.count = count + 1;
        self.address = address;
        self
    }

    fn full_address(mut self, address: usize) -> Self
        ensures { result ≡ full_address address self }
    {
        let column = low_half(address);
        let phase = self.phase;
        self.count = 5;
        self.address = address;
        self.first = column;
        self.column = column;
        if phase == PROGRAM_ADDRESS {
            return self.enter(PROGRAM_DATA);
        }
        self
    }

    // Takes one address byte in a phase that expects one.
    fn latch(self, g: Geometry, byte: u8) -> Self
        ensures { result ≡ latched g byte self }
    {
        let count = self.count;
        if 5 <= count {
            return self.refuse();
        }
        let before = self.address;
        let address = shift_in(before, byte);
        if count < 4 {
            return self.more_address(address);
        }
        if is_on_chip(g, address) {
            return self.full_address(address);
        }
        self.refuse()
    }

    // An address cycle.
    pub fn address(self, g: Geometry, byte: u8) -> Self
        ensures { result ≡ addressed g byte self }
    {
        let now = self.phase;
        if now == READ_ADDRESS {
            return self.latch(g, byte);
        }
        if now == PROGRAM_ADDRESS {
            return self.latch(g, byte);
        }
        if now == ERASE_ADDRESS {
            return self.latch(g, byte);
        }
        if now != DATA_OUT {
            return self.refuse();
        }
        let first = self.first;
        let column = self.column;
        if first != column {
            return self.refuse();
        }
        let fresh = self.begin(READ_ADDRESS, 0);
        fresh.latch(g, byte)
    }

    // The confirm cycle of an array operation, with its fate.
    pub fn start(mut self, operation: usize, fates: &[u32]) -> Self
        ensures { result ≡ started operation fates.now self }
    {
        let at = self.fate;
        let word = fate_word(fates, at);
        let busy = low_half(word);
        let failed = fail_bit(word);
        let next = next_fate(fates, at);
        self.phase = BUSY;
        self.operation = operation;
        self.busy = busy;
        self.failed = failed;
        self.loaded = 0;
        self.fate = next;
        if operation == READ {
            self.failed = 0;
        }
        self
    }

    // The confirm cycle of a program or an erase on a protected chip.
    pub fn stay(mut self, operation: usize) -> Self
        ensures { result ≡ unstarted operation self }
    {
        self.phase = READY;
        self.operation = operation;
        self.busy = 0;
        self.failed = 1;
        self.loaded = 0;
        self
    }

    // The parameter page is fetched, with its fate.
    fn start_parameters(mut self, fates: &[u32]) -> Self
        ensures { result ≡ parameters_started fates.now self }
    {
        let at = self.fate;
        let word = fate_word(fates, at);
        let next = next_fate(fates, at);
        let busy = low_half(word);
        self.phase = BUSY;
        self.count = 1;
        self.address = 0;
        self.first = 0;
        self.column = 0;
        self.operation = PARAMETERS;
        self.busy = busy;
        self.failed = 0;
        self.loaded = 0;
        self.fate = next;
        self
    }

    // The address cycle after ECh.
    pub fn parameter_address(self, fates: &[u32], byte: u8) -> Self
        ensures { result ≡ parameter_addressed byte fates.now self }
    {
        let now = self.phase;
        if now != PARAMETER_ADDRESS {
            return self.refuse();
        }
        if byte != 0 {
            return self.refuse();
        }
        self.start_parameters(fates)
    }
}

// The address register after one more byte.
fn shift_in(address: usize, byte: u8) -> usize
    ensures { result ≡ shifted byte address }
{
    (address >> 8) + (wide(byte) << 32)
}

// Bits 0 to 15: the column of an address, the busy count of a fate word.
fn low_half(x: usize) -> usize
    ensures { result ≡ x % 65536 }
{
    x & 0xffff
}

// The bits from 16 on: the row of an address.
pub fn row_of_address(address: usize) -> usize
    ensures { result ≡ row_of_address address }
{
    address >> 16
}

// Bit 16 of a fate word.
fn fail_bit(word: usize) -> usize
    ensures { result ≡ failed_of word }
{
    (word >> 16) & 1
}

// Whether an address lies in the geometry: the column in a page, the row on the chip.
pub fn is_on_chip(g: Geometry, address: usize) -> bool
    ensures { result ≡ address_fits g address }
{
    if geometry::is_valid(g) {
        let size = geometry::page_size(g);
        if size <= low_half(address) {
            return false;
        }
        let rows = geometry::row_count(g);
        return row_of_address(address) < rows;
    }
    false
}

// The fate word at a place of the list; past its end all pass unbusied.
fn fate_word(fates: &[u32], at: usize) -> usize
    ensures { result ≡ fate_word fates.now at }
{
    if at < fates.len() {
        return wide_word(fates[at]);
    }
    0
}

// The place of the next fate word.
fn next_fate(fates: &[u32], at: usize) -> usize
    ensures { result ≡ next_fate fates.now at }
{
    if at < fates.len() {
        return at + 1;
    }
    at
}

// The status byte of a protected chip: bit 7 clear.
fn protected_byte(ready: usize, failed: usize) -> u8
    ensures { result ≡ protected_byte ready failed }
{
    if ready == 0 {
        return 0x00;
    }
    if failed == 0 {
        return 0x60;
    }
    0x61
}

// The status byte: bit 7 not protected, bits 6 and 5 ready, bit 0 failed.
pub fn status_byte(protected: usize, ready: usize, failed: usize) -> u8
    ensures { result ≡ status_byte protected ready failed }
{
    if protected != 0 {
        return protected_byte(ready, failed);
    }
    if ready == 0 {
        return 0x80;
    }
    if failed == 0 {
        return 0xe0;
    }
    0xe1
}
