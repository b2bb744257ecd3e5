// What is written of a capture's last picture at a top (2026-03): a graymap or a PNG file.
ghost use Rattle.std.specs.Prelude.{◌≡◌, List, [], ℕ, ◌≤◌, length, get_or};
ghost use Rattle.text.specs.Text.{put};
ghost use Rattle.glass.specs.Gray.{top_of};
ghost use Rattle.output.specs.Units.{wide_by, wide_of};
ghost use Rattle.output.specs.InnerCount.{wide_count};
ghost use Rattle.output.specs.Parts.{Lays};

use crate::png_file::ROW;
use crate::{Form, Outcome, Part, no_events, pgm, png_file, refused};
use glass::{PanelImage, top_of};
use outcome::Came;
use text::Text;

// How many units a picture of so many rows has.
fn picture_count(form: Form, height: u16) -> usize
    ensures { result ≡ wide_count form height }
{
    match form {
        Form::Panel | Form::Lines | Form::Graymap => height as usize + 1,
        Form::Png => height as usize + 2,
    }
}

// How many units there are.
pub fn wide_count(form: Form, o: Outcome) -> usize
    ensures { (top : ℕ) (picture : List ℕ) → result ≡ length (wide_of form top o picture) }
{
    match o.came {
        Came::NoEvents | Came::Refused(_) => 1,
        Came::Played => picture_count(form, o.image.height),
    }
}

// Unit i of a capture that was played. A row of a PNG file is put into `bytes` first.
fn played(
    text: &mut Text<'_>,
    bytes: &mut [u8],
    form: Form,
    image: PanelImage,
    picture: &[u16],
    top: u16,
    i: usize,
)
    requires { 131_070 ≤ length bytes.old }
    ensures { text.new ≡ put (get_or (wide_by form top image picture.now) i []) text.old }
{
    match form {
        Form::Panel | Form::Lines | Form::Graymap => pgm::wide_unit(text, image, picture, top, i),
        Form::Png => png_file::wide_unit(text, bytes, image.width, image.height, picture, top, i),
    }
}

// Unit i.
fn unit(
    text: &mut Text<'_>,
    bytes: &mut [u8],
    form: Form,
    o: Outcome,
    picture: &[u16],
    top: u16,
    i: usize,
)
    requires { 131_070 ≤ length bytes.old }
    ensures { text.new ≡ put (get_or (wide_of form top o picture.now) i []) text.old }
{
    match o.came {
        Came::NoEvents => no_events(text, i),
        Came::Refused(no) => refused(text, no, i),
        Came::Played => played(text, bytes, form, o.image, picture, top, i),
    }
}

// The next part, from a unit on. A top of 0 stands for 255. Beside `next_part`, not one with it: the unit put
// would be a closure with a contract, longer than the loop.
pub fn wide_part(
    buffer: &mut [u8],
    form: Form,
    o: Outcome,
    picture: &[u16],
    top: u16,
    from: usize,
) -> Part
    ensures { Lays (wide_of form (top_of top) o picture.now) from buffer.old buffer.new result }
{
    let white = top_of(top);
    let end = wide_count(form, o);
    let mut bytes = [0u8; ROW];
    let mut text = Text::new(buffer);
    for next in from..end {
        let held = text.held();
        unit(&mut text, &mut bytes, form, o, picture, white, next);
        if text.is_full() {
            return Part { held, next };
        }
    }
    Part {
        held: text.held(),
        next: from.max(end),
    }
}
