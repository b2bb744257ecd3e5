// FNV-1a in 32 bits, as it goes over the planes.

pub(crate) const OFFSET: u32 = 2_166_136_261;

const PRIME: u32 = 16_777_619;

// The bytes behind those that gave the hash so far.
pub(crate) fn digested(start: u32, bytes: &[u8]) -> u32 {
    bytes.iter().fold(
        start,
        |hash, byte| (hash ^ u32::from(*byte)).wrapping_mul(PRIME),
    )
}
