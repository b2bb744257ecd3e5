// A file read once: what comes after is handed its parts.
ghost use Rattle.capture.specs.Reading.{Reads};

use crate::layout::{config_in, trailer_of};
use crate::refusals::{EVENT, refused};
use base::Refusal;
use config::Uc8253Config;

// What turns the file back, if anything does; its configuration; where its events end, which is
// never past the file's end.
#[derive(Clone, Copy)]
pub struct Capture {
    pub refused: Option<Refusal>,
    pub config: Uc8253Config,
    pub end: usize,
}

pub fn read(file: &[u8]) -> Capture
    ensures { Reads file.now result }
{
    let t = trailer_of(file);
    let config = config_in(file, t);
    match refused(file, t, config) {
        Ok(()) => Capture {
            refused: None,
            config,
            end: (EVENT * t.count) as usize,
        },
        Err(refusal) => Capture {
            refused: Some(refusal),
            config,
            end: 0,
        },
    }
}
