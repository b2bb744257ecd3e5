// What the jobs are done in, which `main` lends them: each is done before the next.
use controller::Lent;

// The bytes of two files; what a panel is lent; and a second panel's picture and rows, beside which the planes
// and states serve for both.
#[derive(Drop)]
pub(crate) struct Buffers<'a> {
    pub(crate) file: &'a mut [u8],
    pub(crate) other: &'a mut [u8],
    pub(crate) lent: Lent<'a>,
    pub(crate) other_picture: &'a mut [u8],
    pub(crate) other_rows: &'a mut [u64],
}
