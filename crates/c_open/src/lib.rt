// The state with its open write as bytes, for programs in C: stored into a buffer, and loaded from one.
#![tactic(auto)]

ghost use Rattle.std.specs.Prelude.{◌≡◌, ◌+◌, ◌*◌, ◌<◌, length};
ghost use Rattle.cells.specs.Part.{part, put};
ghost use Rattle.pages.specs.Layout.{number_of};
ghost use Rattle.state.specs.declared.State.{State};
ghost use Rattle.open_write.specs.Open.{open_state, open_fits};
ghost use Rattle.c_open.specs.OpenBytes.{open_length, write_bytes, open_bytes, bytes_base, bytes_write, bytes_page, left_open};

use geometry::Geometry;
use open_write::OpenWrite;
use state::State;

// The bytes of a state with its open write: where its words start, its page and its kinds, and all of them.
const WORDS: usize = 9248;

pub const PAGE: usize = 9328;

pub const KINDS: usize = 13424;

pub const LENGTH: usize = 17520;

// The base state in a buffer.
pub fn state_of(bytes: &[u8]) -> State
    requires { length bytes.now ≡ open_length }
    ensures { result ≡ bytes_base bytes.now }
{
    c_state::load(&bytes[0..WORDS], &bytes[KINDS..LENGTH])
}

// One of the ten words of an open write.
fn word_at(bytes: &[u8], place: usize) -> usize
    requires bytes_len { length bytes.now ≡ open_length }
    requires place_lt_ten { place < 10 }
    ensures { result ≡ number_of (part (9248 + 8 * place) 8 bytes.now) }
{
    pages::number_at(bytes, WORDS + 8 * place)
}

// The words of the open write in a buffer.
pub fn write_of(bytes: &[u8]) -> OpenWrite
    requires { length bytes.now ≡ open_length }
    ensures { result ≡ bytes_write bytes.now }
{
    OpenWrite {
        opened: word_at(bytes, 0),
        phase: word_at(bytes, 1),
        step: word_at(bytes, 2),
        logical: word_at(bytes, 3),
        first: word_at(bytes, 4),
        old: word_at(bytes, 5),
        block: word_at(bytes, 6),
        number: word_at(bytes, 7) as u64,
        page: word_at(bytes, 8),
        failed: word_at(bytes, 9),
    }
}

// Whether the open write in a buffer lies in the geometry.
pub fn is_inside(write: OpenWrite, bytes: &[u8], g: Geometry) -> bool
    requires { length bytes.now ≡ open_length }
    ensures { (st : State) → result ≡ open_fits g (open_state st write (bytes_page bytes.now)) }
{
    write.fits(&bytes[PAGE..KINDS], g)
}

// Writes the words of an open write.
fn put_words(write: OpenWrite, bytes: &mut [u8])
    requires { length bytes.old ≡ open_length }
    ensures { bytes.new ≡ put 9248 (write_bytes write) bytes.old }
{
    let words = [
        write.opened,
        write.phase,
        write.step,
        write.logical,
        write.first,
        write.old,
        write.block,
        write.number as usize,
        write.page,
        write.failed,
    ];
    for (place, &word) in words.iter().enumerate() {
        pages::write_number(bytes, WORDS + 8 * place, word);
    }
}

// Writes a base state and the words of an open write; the page stays.
pub fn store(state: State, write: OpenWrite, bytes: &mut [u8])
    requires { length bytes.old ≡ open_length }
    ensures { bytes.new ≡ open_bytes (open_state state write (bytes_page bytes.old)) }
{
    c_state::store(state, &mut bytes[0..WORDS]);
    put_words(write, bytes);
    bytes[KINDS..LENGTH].copy_from_slice(&state.kinds);
}

// Writes a base state beside a write that stays, or that is given up.
pub fn leave(state: State, write: OpenWrite, gone: bool, bytes: &mut [u8])
    requires { length bytes.old ≡ open_length }
    ensures { bytes.new ≡ open_bytes (left_open gone state write (bytes_page bytes.old)) }
{
    if gone {
        open_write::clear(&mut bytes[PAGE..KINDS]);
        store(state, OpenWrite::none(), bytes);
    } else {
        store(state, write, bytes);
    }
}
