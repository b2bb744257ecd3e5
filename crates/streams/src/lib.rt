// Pixel bytes one after the other: with nothing under way, a run of data bytes of 10 or 13 changes a
// plane, the cursor, the count and the clock, and touches the record once, at its end.
#![tactic(auto)]

ghost use Rattle.std.specs.Prelude.{◌≡◌, ◌≤◌};
ghost use Rattle.controller.specs.World.{buffers, world};
ghost use Rattle.event.specs.Events.{events_in};
ghost use Rattle.streams.specs.InnerStretch as rule;

use capture::{DATA, EVENT_BYTES};
use command::{DTM1, DTM2, Kind, Params};
use controller::{Active, Current, Stage, Uc8253, Work};
use data_bytes::put_at;
use event::event_at;
use ram::{Cursor, next};
use registers::Area;
use rules::{counted, foreign, lengths_fit, with_current};

// The record after some events, and how many there were.
#[derive(Clone, Copy)]
pub struct Flowed {
    pub chip: Uc8253,
    pub done: usize,
}

// Where the data bytes that follow go, if they are pixels. An Option of a plane and a command would be no plainer:
// each of the three has its own arm.
#[derive(Clone, Copy)]
enum Target {
    Nowhere,
    Older(Active),
    Newer(Active),
}

// Whether an event goes on with the run: a data byte, and none that has to be reported.
#[tactic(auto, unfolding(crate::specs::InnerStretch::flows_by))]
fn flows(kind: u8, area: Area, at: Cursor, reported: bool) -> bool
    ensures { result ≡ rule.flows_by kind area at reported }
{
    kind == DATA && (at.y <= area.y1 || reported)
}

// The cursor goes on; past the last row it stays.
#[tactic(auto, unfolding(crate::specs::InnerStretch::on_from))]
fn on_from(area: Area, at: Cursor) -> Cursor
    ensures { result ≡ rule.on_from area at }
{
    if area.y1 < at.y { at } else { next(area, at) }
}

// The events from one on, as long as they are pixel bytes, go into their plane, and the record takes over
// what they change.
fn flow_into(p: Uc8253, a: Active, plane: &mut [u8], events: &[u8], from: usize) -> Flowed
    requires { from ≤ events_in events.now }
    ensures { rule.FlowsInto events.now from p a plane.old plane.new result }
{
    let area = p.regs.written();
    let mut cursor = a.cursor;
    let mut received = a.received;
    let mut now = p.now;
    let mut done = 0;
    // By its number, as `event_at` reads an event: chunks of ten bytes would be no plainer.
    for i in from..events.len() / EVENT_BYTES {
        let event = event_at(events, i);
        if !flows(event.kind, area, cursor, a.past_reported) {
            break;
        }
        put_at(plane, area, cursor, event.value);
        cursor = on_from(area, cursor);
        received = counted(received);
        now = now.max(event.time);
        done += 1;
    }
    let active = Active {
        cursor,
        received,
        ..a
    };
    Flowed {
        chip: Uc8253 {
            now,
            ..with_current(p, Current::Active(active))
        },
        done,
    }
}

fn resting(work: Work) -> bool
    ensures { result ≡ rule.rests_by work }
{
    matches!(work, Work::Nothing)
}

// Nothing runs, and no data byte is turned back.
#[tactic(auto, unfolding(crate::specs::InnerStretch::calm_with))]
fn calm(p: Uc8253, fits: bool) -> bool
    ensures { result ≡ rule.calm_with p fits }
{
    resting(p.operation.work) && fits && !foreign(p)
}

fn takes_pixels(kind: Kind) -> bool
    ensures { result ≡ rule.pixels_by kind }
{
    matches!(kind, Kind::Write(Params::Stream))
}

fn aim(stage: Stage) -> Target
    ensures { rule.Aims result stage.current }
{
    match stage.current {
        Current::Active(a) if takes_pixels(a.kind) && a.command == DTM1 => Target::Older(a),
        Current::Active(a) if takes_pixels(a.kind) && a.command == DTM2 => Target::Newer(a),
        _ => Target::Nowhere,
    }
}

// The pixel bytes from an event of the bytes on, if there are some and they can go as a run; else none, and past
// the last event there is none. The slices are apart, since a caller need not lend what only is measured here, the glass
// and the rows, to be written.
#[tactic(auto, using(crate::proofs::StreamLaws::stretch_none))]
pub fn stream(
    p: Uc8253,
    events: &[u8],
    from: usize,
    old: &mut [u8],
    new: &mut [u8],
    states: &[i64],
    picture: &[u8],
    rows: &[u64],
) -> Flowed
    ensures { rule.Stretch events.now from result.done
        (world p (buffers old.old new.old states.now picture.now rows.now))
        (world result.chip (buffers old.new new.new states.now picture.now rows.now)) }
{
    if events.len() / EVENT_BYTES < from {
        return Flowed { chip: p, done: 0 };
    }
    let fits = lengths_fit(
        p.config,
        old.len(),
        new.len(),
        states.len(),
        picture.len(),
        rows.len(),
    );
    match aim(p.stage) {
        Target::Older(a) if calm(p, fits) => flow_into(p, a, old, events, from),
        Target::Newer(a) if calm(p, fits) => flow_into(p, a, new, events, from),
        _ => Flowed { chip: p, done: 0 },
    }
}
