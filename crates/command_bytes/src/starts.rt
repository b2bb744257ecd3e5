// The start of a refresh: the waveform that the registers give, and whether a pixel is left alone.
ghost use Rattle.std.specs.Prelude.{◌≡◌, get_or};
ghost use Rattle.controller.specs.Refresh as rule;
ghost use Rattle.controller.specs.Counting.{own};

use controller::{Refresh, Uc8253, Work};
use diagnostic::DiagnosticKind;
use glass::RefreshKind;
use numbers::{Mapping, some_outside};
use rules::{refresh_note, start};
use waveform::{Levels, Waveform};

// The codes of the frame rate.
const FRAME_RATES: u8 = 32;

// The waveform that the registers give, with VCOM's rule in force.
#[tactic(auto, unfolding(controller::specs::Refresh::waveform_now))]
fn waveform_now(p: Uc8253) -> Waveform
    ensures { result ≡ rule.waveform_now p }
{
    Waveform::new(
        p.luts.bytes,
        Levels::from_power_setting(p.regs.power),
        p.config.timing.frame_period[usize::from(p.regs.pll % FRAME_RATES)],
        p.mode.vcom_by_frame,
    )
}

#[tactic(auto, unfolding(controller::specs::Refresh::kind_now))]
fn kind_now(p: Uc8253) -> RefreshKind
    ensures { result ≡ rule.kind_now p }
{
    if some_outside(Mapping::of(p.config.panel, p.regs, p.config.variant)) {
        RefreshKind::Partial
    } else {
        RefreshKind::Full
    }
}

// The refresh starts.
#[tactic(auto, unfolding(controller::specs::Refresh::refresh_started, controller::specs::Refresh::refreshing))]
fn start_refresh(p: Uc8253) -> Uc8253
    ensures { result ≡ rule.refresh_started own p }
{
    let waveform = waveform_now(p);
    let refresh = Refresh {
        area: p.regs.written(),
        kind: kind_now(p),
    };
    start(
        Uc8253 { waveform, ..p },
        Work::Refresh(refresh),
        waveform.duration_ns(),
    )
}

// What refuses a refresh, if anything does.
pub(crate) fn refresh_told(p: Uc8253) -> Option<DiagnosticKind>
    ensures { result ≡ rule.refresh_note (get_or p.regs.psr 0 0) p.mode.powered }
{
    refresh_note(p.regs.psr[0], p.mode.powered)
}

// `DRF`: the refresh starts, or is refused.
#[tactic(auto, unfolding(controller::specs::Refresh::refreshed))]
pub(crate) fn refresh(p: Uc8253) -> Uc8253
    ensures { result ≡ rule.refreshed own p }
{
    match refresh_told(p) {
        None => start_refresh(p),
        Some(_) => p,
    }
}
