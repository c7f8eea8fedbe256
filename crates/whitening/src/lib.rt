// Whitening: the main bytes of a page XORed with the page's stream, which is made many bytes at once.
#![tactic(auto)]

ghost use Rattle.std.specs.Prelude.{◌≡◌, ℕ, ◌+◌, ◌*◌, ◌≤◌, ◌<◌, length, get_or};
ghost use Rattle.whitening.specs.Stream.{stepped, Begins, Repeats};
ghost use Rattle.whitening.specs.Whitened.{xored, whitened};

// The most bytes that are whitened at once: the main bytes of the largest page.
pub const MOST_BYTES: usize = 4096;

// The bytes that are made one by one; from there on each is made of two before it.
const FIRST_BYTES: usize = 15;

// The register after the eight steps that give a byte.
fn after_byte(register: usize) -> usize
    requires { register < 32768 }
    ensures { (result ≡ stepped 8 register) × (result < 32768) }
{
    register % 128 * 256 + (register / 128 ^ register / 64 % 256)
}

// The first bytes of a page's stream.
fn begin(stream: &mut [u8; MOST_BYTES], page: usize)
    requires page_bound { page < 32767 }
    requires stream_len { length stream.old ≡ 4096 }
    ensures stream_len_2 { length stream.new ≡ 4096 }
    ensures begins { Begins 15 (page + 1) stream.new }
{
    let mut register = page + 1;
    for byte in &mut stream[..FIRST_BYTES] {
        *byte = (register / 128) as u8;
        register = after_byte(register);
    }
}

// The stream up to `end`, from 15 times `apart` bytes of it: each byte is the XOR of those 15 and 14 times `apart` places before it.
fn extend(stream: &mut [u8; MOST_BYTES], apart: usize, end: usize)
    requires apart_nonzero { (0 < apart) × (apart ≤ 16) × (end ≤ 4096) }
    requires repeats { Repeats apart }
    requires stream_len { length stream.old ≡ 4096 }
    ensures stream_len_2 { length stream.new ≡ 4096 }
    ensures by_index { (r : ℕ) → Begins (15 * apart) r stream.old → Begins end r stream.new }
{
    let far = 15 * apart;
    let near = 14 * apart;
    for at in far..end {
        stream[at] = stream[at - far] ^ stream[at - near];
    }
}

// XORs each byte with the one of `stream` at its place.
fn mix(bytes: &mut [u8], stream: &[u8; MOST_BYTES])
    requires bytes_len_bound { length bytes.old ≤ 4096 }
    requires stream_len { length stream.now ≡ 4096 }
    ensures { bytes.new ≡ xored bytes.old stream.now }
{
    for (i, byte) in bytes.iter_mut().enumerate() {
        *byte ^= stream[i];
    }
}

// Whitens the main bytes of a page, or undoes it.
pub fn whiten(page: usize, bytes: &mut [u8])
    requires page_bound { page < 32767 }
    requires bytes_len_bound { length bytes.old ≤ 4096 }
    ensures { bytes.new ≡ whitened page bytes.old }
{
    let mut stream = [0u8; MOST_BYTES];
    begin(&mut stream, page);
    extend(&mut stream, 1, 60);
    extend(&mut stream, 4, 240);
    extend(&mut stream, 16, bytes.len());
    mix(bytes, &stream);
}
