// The picture as a binary graymap of Netpbm (P5): width, height and the largest grey as text, then
// a byte a pixel, 0 black to 255 white, rows from the top; above a top of 255 two bytes a pixel.
ghost use Rattle.std.specs.Prelude.{◌≡◌, [], get_or};
ghost use Rattle.text.specs.Text.{put};
ghost use Rattle.output.specs.Lines.{graymap_head};
ghost use Rattle.output.specs.Units.{graymap_of, graymap_at};

use crate::parts::row_of;
use crate::samples::samples;
use glass::PanelImage;
use text::Text;

// The largest grey of a picture in bytes.
const WHITE: u16 = 255;

#[tactic(auto, using(text::proofs::Filling::puts), unfolding(crate::specs::Lines::graymap_head))]
fn head(text: &mut Text<'_>, top: u16, width: u16, height: u16)
    ensures { text.new ≡ put (graymap_head top width height) text.old }
{
    text.put(b"P5\n");
    text.decimal(width as u64);
    text.number(height as u64);
    text.byte(b'\n');
    text.decimal(top as u64);
    text.byte(b'\n');
}

// Unit i: the head, or a row.
pub(crate) fn unit(text: &mut Text<'_>, image: PanelImage, picture: &[u8], i: usize)
    ensures { text.new ≡ put (get_or (graymap_of image picture.now) i []) text.old }
{
    if i == 0 {
        head(text, WHITE, image.width, image.height);
    } else if i - 1 < image.height as usize {
        text.put(row_of(picture, image.width, (i - 1) as u16));
    }
}

// Unit i of a picture at a top. Beside `unit`, not one with it: a row of bytes is put as it stands.
pub(crate) fn wide_unit(text: &mut Text<'_>, image: PanelImage, picture: &[u16], top: u16, i: usize)
    ensures { text.new ≡ put (get_or (graymap_at top image picture.now) i []) text.old }
{
    if i == 0 {
        head(text, top, image.width, image.height);
    } else if i - 1 < image.height as usize {
        samples(text, row_of(picture, image.width, (i - 1) as u16), top);
    }
}
