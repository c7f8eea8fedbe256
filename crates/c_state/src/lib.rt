// The mounted state as bytes, for programs in C: stored into a buffer, and loaded from one.
#![tactic(auto)]

ghost use Rattle.std.specs.Prelude.{◌≡◌, ◌+◌, ◌≤◌, length, drop};
ghost use Rattle.cells.specs.Part.{part, put};
ghost use Rattle.c_state.specs.StateBytes.{state_length, pairs, entries, state_bytes, bytes_state};

use state::State;

// The bytes of a state without its kinds.
pub const LENGTH: usize = 9248;

// Writes a bitmap.
fn write_bits(bytes: &mut [u8], at: usize, bits: &[u8])
    requires at_in_bounds { at + 512 ≤ length bytes.old }
    requires bits_len { length bits.now ≡ 512 }
    ensures { bytes.new ≡ put at bits.now bytes.old }
{
    bytes[at..at + 512].copy_from_slice(bits);
}

// Writes the factory marks and the invalid blocks.
fn write_bitmaps(bytes: &mut [u8], marked: &[u8], invalid: &[u8])
    requires bytes_len { length bytes.old ≡ state_length }
    requires marked_len { length marked.now ≡ 512 }
    requires invalid_len { length invalid.now ≡ 512 }
    ensures { bytes.new ≡ put 544 invalid.now (put 32 marked.now bytes.old) }
{
    write_bits(bytes, 32, marked);
    write_bits(bytes, 544, invalid);
}

// A bitmap.
fn bits_at(bytes: &[u8], at: usize) -> [u8; 512]
    requires { at + 512 ≤ length bytes.now }
    ensures { result ≡ part at 512 bytes.now }
{
    let mut bits = [0u8; 512];
    bits.copy_from_slice(&bytes[at..at + 512]);
    bits
}

// Writes the map, two bytes an entry.
fn write_map(bytes: &mut [u8], map: &[u16])
    requires bytes_len { length bytes.old ≡ state_length }
    requires map_len { length map.now ≡ 4096 }
    ensures { bytes.new ≡ put 1056 (pairs map.now) bytes.old }
{
    for (l, entry) in map.iter().enumerate() {
        pages::write_pair(bytes, 1056 + 2 * l, usize::from(*entry));
    }
}

// Reads the map.
fn read_map(bytes: &[u8], map: &mut [u16])
    requires bytes_len { length bytes.now ≡ state_length }
    requires map_len { length map.old ≡ 4096 }
    ensures { map.new ≡ entries 4096 (drop 1056 bytes.now) }
{
    for l in 0..4096 {
        map[l] = pages::pair_at(bytes, 1056 + 2 * l) as u16;
    }
}

// Writes a state, all but its kinds, into a buffer.
pub fn store(state: State, bytes: &mut [u8])
    requires { length bytes.old ≡ state_length }
    ensures { bytes.new ≡ state_bytes state }
{
    pages::write_number(bytes, 0, state.status);
    pages::write_number(bytes, 8, state.table);
    pages::write_number(bytes, 16, state.last);
    pages::write_number(bytes, 24, state.number as usize);
    write_bitmaps(bytes, &state.marked, &state.invalid);
    write_map(bytes, &state.map);
}

// Kinds, one a logical block.
fn kinds_of(bytes: &[u8]) -> [u8; 4096]
    requires { length bytes.now ≡ 4096 }
    ensures { result ≡ bytes.now }
{
    let mut kinds = [0u8; 4096];
    kinds.copy_from_slice(bytes);
    kinds
}

// The state in a buffer, and its kinds in another.
pub fn load(bytes: &[u8], kind_bytes: &[u8]) -> State
    requires bytes_len { length bytes.now ≡ state_length }
    requires kind_bytes_len { length kind_bytes.now ≡ 4096 }
    ensures { result ≡ bytes_state bytes.now kind_bytes.now }
{
    let mut map = [0u16; 4096];
    read_map(bytes, &mut map);
    State {
        status: pages::number_at(bytes, 0),
        table: pages::number_at(bytes, 8),
        last: pages::number_at(bytes, 16),
        number: pages::number_at(bytes, 24) as u64,
        marked: bits_at(bytes, 32),
        invalid: bits_at(bytes, 544),
        map,
        kinds: kinds_of(kind_bytes),
    }
}
