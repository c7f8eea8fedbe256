// Parameter pages for the small chip, built from copies that are right or wrong in one way.

// The CRC of bytes 0 to 253, 0 where there are fewer. The test stands since the end of a part of an array is not proved.
fn crc_of(copy: &[u8]) -> usize {
    if copy.len() < 254 {
        return 0;
    }
    parameters::crc(&copy[..254])
}

// It goes to the last two, low byte first.
fn sealed(mut copy: [u8; 256]) -> [u8; 256] {
    let crc = crc_of(&copy).to_le_bytes();
    copy[254] = crc[0];
    copy[255] = crc[1];
    copy
}

// A copy that starts with these four bytes, and tells main bytes and blocks, 16 spare bytes and 4 pages.
fn unsealed(signature: &[u8; 4], main: u8, blocks: u8) -> [u8; 256] {
    let mut copy = [0u8; 256];
    copy[..4].copy_from_slice(signature);
    copy[80] = main;
    copy[84] = 16;
    copy[92] = 4;
    copy[96] = blocks;
    copy
}

// A good copy.
pub(crate) fn copy_of(main: u8, blocks: u8) -> [u8; 256] {
    sealed(unsealed(b"ONFI", main, blocks))
}

// A copy with the right CRC that starts with "ONFJ".
pub(crate) fn starting_otherwise() -> [u8; 256] {
    sealed(unsealed(b"ONFJ", 32, 4))
}

// A copy with one bit of its blocks turned over.
pub(crate) fn bit_wrong(mut copy: [u8; 256]) -> [u8; 256] {
    copy[96] ^= 1;
    copy
}

// The three copies one after the other. By index: of three `copy_from_slice` the last part's end is not proved.
pub(crate) fn three(first: [u8; 256], second: [u8; 256], third: [u8; 256]) -> [u8; 768] {
    let mut page = [0u8; 768];
    for i in 0..256 {
        page[i] = first[i];
        page[256 + i] = second[i];
        page[512 + i] = third[i];
    }
    page
}
