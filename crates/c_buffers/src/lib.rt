// What C programs lend: whether the lengths are right, the interface, what a request hands back.
#![tactic(auto)]

ghost use Rattle.std.specs.Prelude.{◌≡◌, List, ℕ, length};
ghost use Rattle.chip_array.specs.Device.{device};
ghost use Rattle.open_write.specs.Open.{open_state};
ghost use Rattle.request.specs.Call.{sized};
ghost use Rattle.open_write.specs.Requests.{open_result, open_refusal};
ghost use Rattle.c_open.specs.OpenBytes.{open_length, bytes_page, bytes_open, left_open};
ghost use Rattle.c_buffers.specs.Buffers.{interface_words, interface_of, size_words, lent, lengths_right, handed, put_back};

use chip_interface::Interface;
use geometry::Geometry;
use open_write::OpenWrite;
use parameters::Sizes;
use request::Returned;
use state::State;

// Whether the state, the interface and the cycles sent have their lengths.
pub fn is_lent_rightly(state: usize, interface: usize, sent: usize) -> bool
    ensures { result ≡ lengths_right state interface sent }
{
    if state != c_open::LENGTH {
        return false;
    }
    if interface != 12 {
        return false;
    }
    sent == 1
}

// The chip's interface from its words.
pub fn interface_of(interface: &[usize]) -> Interface
    requires { length interface.now ≡ 12 }
    ensures { result ≡ interface_of interface.now }
{
    Interface {
        phase: interface[0],
        count: interface[1],
        address: interface[2],
        first: interface[3],
        column: interface[4],
        operation: interface[5],
        busy: interface[6],
        failed: interface[7],
        loaded: interface[8],
        fate: interface[9],
        illegal: interface[10],
        protected: interface[11],
    }
}

// Writes the words of the chip's interface.
pub fn write_interface(from: Interface, interface: &mut [usize])
    requires { length interface.old ≡ 12 }
    ensures { interface.new ≡ interface_words from }
{
    interface[0] = from.phase;
    interface[1] = from.count;
    interface[2] = from.address;
    interface[3] = from.first;
    interface[4] = from.column;
    interface[5] = from.operation;
    interface[6] = from.busy;
    interface[7] = from.failed;
    interface[8] = from.loaded;
    interface[9] = from.fate;
    interface[10] = from.illegal;
    interface[11] = from.protected;
}

// Writes the four sizes that a chip tells.
pub fn write_sizes(told: Sizes, sizes: &mut [usize])
    requires { length sizes.old ≡ 4 }
    ensures { sizes.new ≡ size_words told }
{
    sizes[0] = told.main;
    sizes[1] = told.spare;
    sizes[2] = told.pages;
    sizes[3] = told.blocks;
}

// Writes what a request hands back beside a write that stays or is given up, and gives the answer.
pub fn hand_back(
    returned: Returned,
    write: OpenWrite,
    gone: bool,
    state: &mut [u8],
    interface: &mut [usize],
    sent: &mut [usize],
) -> usize
    requires state_len { length state.old ≡ open_length }
    requires interface_len { length interface.old ≡ 12 }
    requires sent_len { length sent.old ≡ 1 }
    ensures by_index { (a p h : List ℕ) → handed result (lent state.new interface.new a p h sent.new) ≡ put_back (open_result returned.answer (left_open gone returned.state write (bytes_page state.old)) (device returned.interface a p h) returned.sent) }
    ensures state_after { bytes_open state.new ≡ left_open gone returned.state write (bytes_page state.old) }
{
    let next = returned.state;
    let from = returned.interface;
    c_open::leave(next, write, gone, state);
    write_interface(from, interface);
    sent[0] = returned.sent;
    returned.answer
}

// Hands back what was handed in, with a refusal.
pub fn refuse(
    answer: usize,
    before: State,
    write: OpenWrite,
    start: Interface,
    state: &mut [u8],
    interface: &mut [usize],
    sent: &mut [usize],
) -> usize
    requires state_len { length state.old ≡ open_length }
    requires interface_len { length interface.old ≡ 12 }
    requires sent_len { length sent.old ≡ 1 }
    ensures by_index { (a p h : List ℕ) → handed result (lent state.new interface.new a p h sent.new) ≡ put_back (open_result answer (open_state before write (bytes_page state.old)) (device start a p h) 0) }
    ensures state_after { bytes_open state.new ≡ open_state before write (bytes_page state.old) }
{
    let returned = request_refusals::unchanged(answer, before, start);
    hand_back(returned, write, false, state, interface, sent)
}

// The refusal of a request by what is open: 1, 7 or 15, 0 where it goes on. Array, register, history and mask are told by their lengths.
pub fn held(
    before: State,
    write: OpenWrite,
    state: &[u8],
    g: Geometry,
    array: usize,
    register: usize,
    history: usize,
    mask: usize,
    barred: bool,
) -> usize
    requires { length state.now ≡ open_length }
    ensures { result ≡ open_refusal g (sized g array register history mask) (open_state before write (bytes_page state.now)) barred }
{
    open_requests::refusal(
        before,
        write,
        &state[c_open::PAGE..c_open::KINDS],
        g,
        array,
        register,
        history,
        mask,
        barred,
    )
}
