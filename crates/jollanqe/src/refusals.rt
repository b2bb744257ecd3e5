// What a capture that is turned back is told by.
use base::Refusal;
use files::Shown;
use input::front;
use reasons::Reason;
use showing::{Form, tested};
use text::Text;

// Why the file was turned back; of a file that is larger than the buffer, by its real size.
fn why(file: &[u8], bytes: u64) -> Option<Reason> {
    if file.len() as u64 != bytes {
        return Some(Reason::Long(bytes));
    }
    reasons::reason(file)
}

// The words of a refusal, on standard error behind the file's name.
pub(crate) fn tell<R: Eprint>(rt: &R, name: &[u8], file: &[u8], bytes: u64, refused: Refusal) {
    let mut room = [0u8; 256];
    let mut text = Text::new(&mut room);
    reasons::words(&mut text, refused.number());
    reasons::because(&mut text, why(file, bytes));
    let n = text.held();
    let shown = Shown { name };
    let words = Shown {
        name: front(&room, n),
    };
    let _ = eprintln!(rt; "{shown}: {words}");
}

// Whether one of several files is turned back, which is then said with its name.
pub(crate) fn turned_back<R: Print + Eprint>(rt: &R, name: &[u8], file: &[u8], bytes: u64) -> bool {
    let Err(refused) = tested(Form::Lines, file) else {
        return false;
    };
    let mut room = [0u8; crate::ROOM];
    let mut text = Text::new(&mut room);
    differences::refused_line(&mut text, refused.number(), name);
    if let Err(error) = rt.write_all(text.written()) {
        files::tell(rt, b"standard output", error);
    }
    tell(rt, name, file, bytes, refused);
    true
}
