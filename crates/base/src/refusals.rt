// Why a call, a making or a capture is turned back, by the words of document 01's table.
ghost use Rattle.std.specs.Prelude.{◌≡◌};
ghost use Rattle.base.specs.RefusalNumbers.{refusal_number, number_of};

#[derive(Clone, Copy)]
pub enum Refusal {
    EmptyPanel,
    OversizedPanel,
    Swing,
    FramePeriod,
    BufferLength,
    ForeignRecord,
    ForeignContents,
    BrokenCapture,
    BadEvent,
    TooManyPixels,
    MalformedDump,
    WrongSignals,
    ClockRate,
}

impl Refusal {
    // Document 01's number.
    pub fn number(self) -> u8
        ensures { result ≡ refusal_number self }
    {
        match self {
            Refusal::EmptyPanel => 1,
            Refusal::OversizedPanel => 2,
            Refusal::Swing => 3,
            Refusal::FramePeriod => 4,
            Refusal::BufferLength => 5,
            Refusal::ForeignRecord => 6,
            Refusal::ForeignContents => 7,
            Refusal::BrokenCapture => 8,
            Refusal::BadEvent => 9,
            Refusal::TooManyPixels => 10,
            Refusal::MalformedDump => 11,
            Refusal::WrongSignals => 12,
            Refusal::ClockRate => 13,
        }
    }
}

// The number of what turned a call back, 0 where nothing did.
pub fn number_of(refused: Option<Refusal>) -> u8
    ensures { result ≡ number_of refused }
{
    match refused {
        Some(refusal) => refusal.number(),
        None => 0,
    }
}
