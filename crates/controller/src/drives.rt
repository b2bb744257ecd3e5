// What a call does to the glass.
// Nothing; a refresh ends by itself and drives all its frames; reset cuts it after its first frames.
#[derive(Clone, Copy)]
pub enum Drive {
    Nothing,
    Whole,
    First(u64),
}
