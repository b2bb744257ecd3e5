// Two captures, A and B, played one after the other and compared.
use crate::refusals::turned_back;
use capture::MOST_EVENTS;
use config::Uc8253Config;
use controller::Lent;
use diagnostic_log::Log;
use differences::Finding;
use input::front;
use std::io::{Input, Write};
use std::rt::Files;
use text::Text;
use uc8253::zeros;

// The bytes of a configuration without its rate, and the numbers of a row.
const CONFIG: usize = 312;

const ROW: usize = 5;

// A capture that was played, with its picture and its rows.
#[derive(Clone, Copy)]
struct Side<'a> {
    file: &'a [u8],
    picture: &'a [u8],
    rows: &'a [u64],
}

// In buffers of the panel's size: there no making of a capture that passed its tests is turned back.
fn play_in(file: &[u8], lent: &mut Lent<'_>) -> Log {
    let mut answers = [0u16; MOST_EVENTS];
    let c = capture::read(file);
    let played = events::play(c.config, front(file, c.end), &mut answers, lent);
    played.unwrap_or(zeros()).log
}

// How many pixels the capture's panel has.
fn pixels_of(file: &[u8]) -> usize {
    capture::pixels(capture::config(file))
}

// A capture that passed its tests, played in the front of what is lent, and what that left. The slices are apart,
// since a second picture and second rows go with the same planes: tried as a struct, which the check does not cover.
fn play<'a>(
    file: &'a [u8],
    old: &mut [u8],
    new: &mut [u8],
    states: &mut [i64],
    picture: &'a mut [u8],
    rows: &'a mut [u64],
) -> Side<'a> {
    let pixels = pixels_of(file);
    let n = pixels.min(states.len());
    let q = pixels.min(picture.len());
    let mut lent = Lent {
        old,
        new,
        states: &mut states[..n],
        picture: &mut picture[..q],
        rows,
    };
    let log = play_in(file, &mut lent);
    Side {
        file,
        picture: front(picture, pixels),
        rows: front(rows, ROW * log.stored as usize),
    }
}

// The 312 bytes of the configuration, which begin there; a rate behind them is left out.
pub(crate) fn config_at(file: &[u8], end: usize) -> &[u8] {
    match file.get(end..) {
        Some(rest) => rest.get(..CONFIG).unwrap_or(b""),
        None => b"",
    }
}

// Whether two panels have the same size.
fn same_size(a: Uc8253Config, b: Uc8253Config) -> bool {
    a.panel.sources == b.panel.sources && a.panel.gates == b.panel.gates
}

// Whether nothing differs.
fn agrees(config: Option<usize>, rate_a: u64, rate_b: u64, finding: Option<Finding>) -> bool {
    rate_a == rate_b && config.is_none() && finding.is_none()
}

// What is said of the two; the pixels of panels of the same size count.
fn report(text: &mut Text<'_>, side_a: Side<'_>, side_b: Side<'_>) {
    let a = capture::read(side_a.file);
    let b = capture::read(side_b.file);
    let panel_a = a.config;
    let panel_b = b.config;
    let events_a = front(side_a.file, a.end);
    let events_b = front(side_b.file, b.end);
    let config_a = config_at(side_a.file, a.end);
    let config_b = config_at(side_b.file, b.end);
    let rate_a = panel_a.timing.rate;
    let rate_b = panel_b.timing.rate;
    let pixels = if same_size(panel_a, panel_b) {
        side_a.picture.len()
    } else {
        0
    };
    let finding = differences::find(
        events_a,
        events_b,
        side_a.rows,
        side_b.rows,
        front(side_a.picture, pixels),
        front(side_b.picture, pixels),
    );
    let place = differences::first_place(config_a, config_b);
    if agrees(place, rate_a, rate_b, finding) {
        return differences::agreement(text);
    }
    differences::config_part(text, config_a, config_b, rate_a, rate_b);
    differences::finding_part(
        text,
        finding,
        events_a,
        events_b,
        side_a.rows,
        side_b.rows,
        panel_a.panel.sources,
        side_a.picture,
        side_b.picture,
    );
    differences::pixels_part(
        text,
        panel_a.panel.sources,
        panel_a.panel.gates,
        side_a.picture,
        panel_b.panel.sources,
        panel_b.panel.gates,
        side_b.picture,
    );
}

// The report, to the output of that name.
fn write<R: Files + Print + Eprint>(rt: &R, out: &[u8], a: Side<'_>, b: Side<'_>) {
    let mut room = [0u8; 1024];
    let mut text = Text::new(&mut room);
    report(&mut text, a, b);
    if let Some(mut to) = files::open(rt, out) {
        let written = to.write_all(text.written());
        files::close(rt, out, to, written);
    }
}

// The captures of these names, both judged before one is played. The planes and states serve both, one
// after the other; the slices are apart as in `play`.
pub(crate) fn run<R: Files + Input + Print + Eprint>(
    rt: &R,
    name_a: &[u8],
    name_b: &[u8],
    out: &[u8],
    file: &mut [u8],
    other: &mut [u8],
    old: &mut [u8],
    new: &mut [u8],
    states: &mut [i64],
    picture: &mut [u8],
    other_picture: &mut [u8],
    rows: &mut [u64],
    other_rows: &mut [u64],
) {
    let Some(got_a) = files::read(rt, name_a, file) else {
        return;
    };
    let Some(got_b) = files::read(rt, name_b, other) else {
        return;
    };
    let file_a = front(file, got_a.held);
    let file_b = front(other, got_b.held);
    let first = turned_back(rt, name_a, file_a, got_a.bytes);
    let second = turned_back(rt, name_b, file_b, got_b.bytes);
    if first || second {
        return;
    }
    let a = play(file_a, old, new, states, picture, rows);
    let b = play(file_b, old, new, states, other_picture, other_rows);
    write(rt, out, a, b);
}
