// What a file of the collector comes to: no events, refused, or played.
#![tactic(auto)]

ghost use Rattle.std.specs.Prelude.{◌≡◌};
ghost use Rattle.outcome.specs.Came.{came_by, panel_came};

#[derive(Clone, Copy)]
pub enum Came {
    // A file of no bytes: nobody captured.
    NoEvents,
    // Turned back, by this number: the definitions speak of numbers, and so do the lines.
    Refused(u8),
    Played,
}

// By the number of the refusal, 0 for none.
pub fn came_by(number: u8) -> Came
    ensures { result ≡ came_by number }
{
    match number {
        0 => Came::Played,
        no => Came::Refused(no),
    }
}

// For `panel`, which takes an empty file for an evening without events.
pub fn panel_came(file: &[u8], number: u8) -> Came
    ensures { result ≡ panel_came file.now number }
{
    if file.is_empty() {
        Came::NoEvents
    } else {
        came_by(number)
    }
}
