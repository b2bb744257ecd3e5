// The kinds of commands, and how many data bytes each takes.

// How many parameter bytes a command takes.
#[derive(Clone, Copy)]
pub enum Params {
    Exactly(u16),
    Between(u16, u16),
    // Pixel bytes, as many as written.
    Stream,
}

// What the model does with a command byte.
#[derive(Clone, Copy)]
pub enum Kind {
    Write(Params),
    // A command whose data bytes are read.
    Read,
    // The name of what is not modelled follows from the command.
    Unsupported(Params),
    Unknown,
}
