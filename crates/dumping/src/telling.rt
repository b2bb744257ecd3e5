// What is said of a configuration and a dump on standard error, behind the file's name.
use base::Refusal;
use files::Shown;
use reasons::{because, config_length, config_reason, words};
use text::Text;

// The bytes of what is said: no refusal and its reason have more.
pub(crate) const ROOM: usize = 256;

pub(crate) fn say<R: Eprint>(rt: &R, name: &[u8], what: &[u8]) {
    let shown = Shown { name };
    let words = Shown { name: what };
    let _ = eprintln!(rt; "{shown}: {words}");
}

// A configuration of so many bytes is none.
pub(crate) fn no_config<R: Eprint>(rt: &R, name: &[u8], bytes: u64) {
    let mut buffer = [0u8; ROOM];
    let mut text = Text::new(&mut buffer);
    words(&mut text, Refusal::BrokenCapture.number());
    config_length(&mut text, bytes);
    say(rt, name, text.written());
}

// A configuration that is turned back, 9 and 1 to 5.
pub(crate) fn bad_config<R: Eprint>(rt: &R, name: &[u8], config: &[u8], refused: Refusal) {
    let mut buffer = [0u8; ROOM];
    let mut text = Text::new(&mut buffer);
    words(&mut text, refused.number());
    because(&mut text, config_reason(config));
    say(rt, name, text.written());
}

// A dump that is turned back, 11 and 12.
pub(crate) fn bad_dump<R: Eprint>(rt: &R, name: &[u8], refused: Refusal, why: &[u8]) {
    let mut buffer = [0u8; ROOM];
    let mut text = Text::new(&mut buffer);
    words(&mut text, refused.number());
    text.put(why);
    say(rt, name, text.written());
}
