// What a call is lent.

// The planes of the RAM, old and new; the state of each pixel and its grey; the numbers of the stored
// diagnostics. A call hands back the same slices, whatever it leaves in them.
#[derive(Drop)]
pub struct Lent<'a> {
    pub old: &'a mut [u8],
    pub new: &'a mut [u8],
    pub states: &'a mut [i64],
    pub picture: &'a mut [u8],
    pub rows: &'a mut [u64],
}
