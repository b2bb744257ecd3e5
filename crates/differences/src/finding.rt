// What two captures differ in first: an event, else a diagnostic row, else a pixel.
ghost use Rattle.std.specs.Prelude.{◌≡◌};
ghost use Rattle.differences.specs.Places.{first_place, finding_by};

use crate::places;
use capture::EVENT_BYTES;

// The numbers of a diagnostic row.
pub(crate) const ROW: usize = 5;

#[derive(Clone, Copy)]
pub enum Finding {
    Event(usize),
    Row(usize),
    Pixel(usize),
}

// By the three places.
fn found(events: Option<usize>, rows: Option<usize>, pixels: Option<usize>) -> Option<Finding>
    ensures { result ≡ finding_by events rows pixels }
{
    match (events, rows, pixels) {
        (Some(k), _, _) => Some(Finding::Event(k / EVENT_BYTES)),
        (None, Some(k), _) => Some(Finding::Row(k / ROW)),
        (None, None, Some(k)) => Some(Finding::Pixel(k)),
        (None, None, None) => None,
    }
}

// By the bytes of the events, the stored rows and the pictures of two captures.
#[tactic(auto, unfolding(crate::specs::Places::first_place))]
pub fn find(
    events_a: &[u8],
    events_b: &[u8],
    rows_a: &[u64],
    rows_b: &[u64],
    picture_a: &[u8],
    picture_b: &[u8],
) -> Option<Finding>
    ensures { result ≡ finding_by (first_place events_a.now events_b.now)
        (first_place rows_a.now rows_b.now) (first_place picture_a.now picture_b.now) }
{
    let events = places::first_place(events_a, events_b);
    let rows = places::first_place(rows_a, rows_b);
    let pixels = places::first_place(picture_a, picture_b);
    found(events, rows, pixels)
}
