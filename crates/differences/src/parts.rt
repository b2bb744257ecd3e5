// What is said of two captures: of their configurations, of what differs first, and of their pixels.
ghost use Rattle.std.specs.Prelude.{◌≡◌};
ghost use Rattle.text.specs.Text.{put};
ghost use Rattle.differences.specs.Parts as rule;

use crate::distances::apart;
use crate::finding::Finding;
use crate::lines::{
    config_line, event_line, pixel_line, pixels_line, rate_line, row_line, sizes_line,
};
use crate::places::first_place;
use text::Text;

// Two rates, if they differ.
fn rate_part(text: &mut Text<'_>, rate_a: u64, rate_b: u64)
    ensures { text.new ≡ put (rule.rate_part rate_a rate_b) text.old }
{
    if rate_a != rate_b {
        rate_line(text, rate_a, rate_b);
    }
}

// The first of 312 bytes in which two configurations differ; where there is none, their rates.
#[tactic(auto, using(text::proofs::Filling::puts), unfolding(crate::specs::Parts::config_part, crate::specs::Places::first_place))]
pub fn config_part(text: &mut Text<'_>, a: &[u8], b: &[u8], rate_a: u64, rate_b: u64)
    ensures { text.new ≡ put (rule.config_part a.now b.now rate_a rate_b) text.old }
{
    match first_place(a, b) {
        Some(k) => config_line(text, a, b, k),
        None => rate_part(text, rate_a, rate_b),
    }
}

// What differs first; a pixel by its place in rows of that width.
pub fn finding_part(
    text: &mut Text<'_>,
    finding: Option<Finding>,
    events_a: &[u8],
    events_b: &[u8],
    rows_a: &[u64],
    rows_b: &[u64],
    width: u16,
    picture_a: &[u8],
    picture_b: &[u8],
)
    ensures { text.new ≡ put (rule.finding_part finding events_a.now events_b.now rows_a.now
        rows_b.now width picture_a.now picture_b.now) text.old }
{
    match finding {
        Some(Finding::Event(i)) => event_line(text, events_a, events_b, i),
        Some(Finding::Row(i)) => row_line(text, rows_a, rows_b, i),
        Some(Finding::Pixel(k)) => pixel_line(text, width, picture_a, picture_b, k),
        None => {}
    }
}

// How many pixels differ, of panels of the same size.
#[tactic(auto, using(text::proofs::Filling::puts), unfolding(crate::specs::Parts::pixels_part))]
pub fn pixels_part(
    text: &mut Text<'_>,
    width_a: u16,
    height_a: u16,
    picture_a: &[u8],
    width_b: u16,
    height_b: u16,
    picture_b: &[u8],
)
    ensures { text.new ≡ put (rule.pixels_part width_a height_a picture_a.now width_b height_b picture_b.now) text.old }
{
    if width_a != width_b || height_a != height_b {
        sizes_line(text, width_a, height_a, width_b, height_b);
    } else {
        let d = apart(picture_a, picture_b);
        pixels_line(text, d, picture_a.len() as u64);
    }
}
