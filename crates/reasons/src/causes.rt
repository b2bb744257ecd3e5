// Which test of a capture file failed first, with the numbers that it was of.
#[derive(Clone, Copy)]
pub enum Reason {
    // 8: too few bytes, or too many.
    Short(u64),
    Long(u64),
    // The trailer's offset is not 10 × its count.
    Offset { offset: u32, count: u32 },
    // The file's length is neither that offset + 320 nor, with a rate, that offset + 328.
    Length { bytes: u64, offset: u32 },
    // 9: a variant above 1, or a flag above bit 3.
    Variant(u8),
    Flags(u8),
    // The first event that is not listed, counted from 0: for its kind, or for its value.
    Kind { event: u32, kind: u8 },
    Value { event: u32, kind: u8, value: u8 },
}
