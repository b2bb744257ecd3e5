// A whole dump and a configuration's bytes: what turns them back, and else what the calls leave.
ghost use Rattle.std.specs.Prelude.{◌≡◌};
ghost use Rattle.controller.specs.Lent.{Turns, Makes, Keeps};
ghost use Rattle.vcd.specs.Dump.{dump_events, dump_refused};
ghost use Rattle.vcd.specs.Played.{calls, dump_played};
ghost use Rattle.vcd_playing.specs.Making as rule;

use crate::words::play_words;
use base::Refusal;
use capture::{ADVANCE, bad_config, config_of};
use controller::{Lent, Uc8253};
use event::Event;
use events::step;
use uc8253::power_on;
use vcd::{Fault, judge};
use vcd_declarations::declarations;
use vcd_simulation::{Body, begun};

// The bytes of a configuration.
pub const CONFIG_BYTES: usize = 312;

// A making by a configuration's bytes: 9, and then 1 to 5.
pub fn make(config: &[u8], lent: &mut Lent<'_>) -> Result<Uc8253, Refusal>
    ensures makes { Makes (rule.config_made config.now) (rule.config_refused config.now) result lent }
    ensures kept { Keeps lent }
{
    if bad_config(config, 0) {
        return Err(Refusal::BadEvent);
    }
    power_on(config_of(config), lent)
}

// The last time is an advance at the end.
pub fn finish(p: Uc8253, body: Body, lent: &mut Lent<'_>) -> Uc8253
    ensures turns { Turns (rule.finished body) p result lent }
    ensures kept { Keeps lent }
{
    let end = Event {
        time: body.now,
        kind: ADVANCE,
        value: 0,
    };
    step(p, end, lent).chip
}

// The calls of a dump's events.
fn play_events(p: Uc8253, dump: &[u8], lent: &mut Lent<'_>) -> Uc8253
    ensures turns { Turns (calls (dump_events dump.now)) p result lent }
    ensures kept { Keeps lent }
{
    let b = declarations(dump);
    let t = play_words(p, dump, b.head, dump, b.next, true, begun(), lent);
    finish(t.chip, t.body, lent)
}

// A dump that is not turned back.
fn play_fine(dump: &[u8], config: &[u8], lent: &mut Lent<'_>) -> Result<Uc8253, Refusal>
    ensures makes { Makes (rule.fine_played config.now dump.now) (rule.config_refused config.now) result lent }
    ensures kept { Keeps lent }
{
    let chip = make(config, lent)?;
    Ok(play_events(chip, dump, lent))
}

// The word of what turns a dump back.
fn refusal_of(fault: Fault) -> Refusal
    ensures { result ≡ rule.refusal_of fault }
{
    match fault {
        Fault::Malformed => Refusal::MalformedDump,
        Fault::Unsignalled => Refusal::WrongSignals,
    }
}

// Refusals 8, 11, 12, 9 and 1 to 5, in this order; a refusal gives no record and changes no lent entry.
pub fn play(dump: &[u8], config: &[u8], lent: &mut Lent<'_>) -> Result<Uc8253, Refusal>
    ensures makes { Makes (dump_played config.now dump.now) (dump_refused config.now dump.now) result lent }
    ensures kept { Keeps lent }
{
    if config.len() != CONFIG_BYTES {
        return Err(Refusal::BrokenCapture);
    }
    judge(dump).map_err(refusal_of)?;
    play_fine(dump, config, lent)
}
