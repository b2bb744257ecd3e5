// Making a panel.
#![tactic(auto)]

ghost use Rattle.std.specs.Prelude.{◌≡◌};
ghost use Rattle.controller.specs.TurnedBack as tests;
ghost use Rattle.controller.specs.Calls as calls;
ghost use Rattle.controller.specs.Lent.{Makes, Keeps, held};
ghost use Rattle.base.specs.RefusalNumbers.{number_in};

use base::Refusal;
use config::{Uc8253Config, Uc8253Geometry, Uc8253Timing, Variant};
use controller::{Current, Lent, Mode, Operation, Power, Stage, Uc8253, Work};
use diagnostic_log::Log;
use glass::{Optics, PanelImage, RefreshKind, level};
use pixels::fill_states;
use registers::{Area, Luts, Pair, Registers};
use rules::lent_fits;
use waveform::{GROUPS, Group, LUTS, Levels, Waveform};

#[tactic(auto, unfolding(controller::specs::Calls::no_waveform))]
fn no_waveform() -> Waveform
    ensures { result ≡ calls.no_waveform }
{
    let levels = Levels {
        vdh: 0,
        vdl: 0,
        vdhr: 0,
    };
    Waveform {
        tables: [[Group::BLANK; GROUPS]; LUTS],
        levels,
        frame_ns: 0,
        vcom_by_frame: false,
    }
}

// Running, without supplies and without a command, VCOM by the rule that the configuration selects, the
// picture as the glass was.
fn untouched(config: Uc8253Config, regs: Registers) -> Uc8253
    ensures { result ≡ calls.untouched config regs }
{
    let panel = config.panel;
    let mode = Mode {
        power: Power::Running,
        powered: false,
        data_flag: false,
        vcom_by_frame: config.vcom_by_frame,
    };
    let stage = Stage {
        current: Current::Idle,
    };
    let operation = Operation {
        work: Work::Nothing,
        started: 0,
        until: 0,
    };
    let image = PanelImage {
        width: panel.sources,
        height: panel.gates,
        generation: 0,
        kind: RefreshKind::PowerOn,
        interrupted: false,
        started: 0,
        at: 0,
    };
    let log = Log {
        stored: 0,
        dropped: 0,
    };
    let luts = Luts::reset();
    let waveform = no_waveform();
    Uc8253 {
        config,
        regs,
        luts,
        mode,
        stage,
        operation,
        waveform,
        image,
        log,
        now: 0,
    }
}

fn no_config() -> Uc8253Config
    ensures { result ≡ calls.no_config }
{
    let panel = Uc8253Geometry {
        sources: 0,
        gates: 0,
        rows_reversed: false,
        columns_reversed: false,
    };
    let optics = Optics {
        full_swing: 0,
        positive_drives_black: false,
        initial_gray: 0,
    };
    let timing = Uc8253Timing {
        power_on: 0,
        power_off: 0,
        deep_sleep: 0,
        soft_reset: 0,
        hardware_reset: 0,
        frame_period: [0; 32],
        rate: 0,
    };
    Uc8253Config {
        variant: Variant::Uc8253,
        panel,
        optics,
        timing,
        ambient_celsius: 0,
        vcom_by_frame: false,
    }
}

fn no_registers() -> Registers
    ensures { result ≡ calls.no_registers }
{
    let resolution = Pair { h: 0, v: 0 };
    let start = Pair { h: 0, v: 0 };
    let window = Area {
        x0: 0,
        y0: 0,
        x1: 0,
        y1: 0,
    };
    Registers {
        psr: [0; 2],
        power: [0; 5],
        pll: 0,
        cdi: [0; 2],
        resolution,
        start,
        window,
        partial: false,
    }
}

// A record of zeros: what stands for the record of a refused making.
pub fn zeros() -> Uc8253
    ensures { result ≡ calls.zeros }
{
    untouched(no_config(), no_registers())
}

// 1 to 4, 13, then 5.
fn making_refused(config: Uc8253Config, lent: &Lent<'_>) -> Result<(), Refusal>
    ensures { number_in result ≡ tests.making_refused config (held lent.now) }
{
    config.validate()?;
    if lent_fits(config, lent) {
        return Ok(());
    }
    Err(Refusal::BufferLength)
}

// The chip at power-on under a configuration, with what it is lent.
pub fn power_on(config: Uc8253Config, lent: &mut Lent<'_>) -> Result<Uc8253, Refusal>
    ensures makes { Makes (calls.made config) (tests.making_refused config) result lent }
    ensures kept { Keeps lent }
{
    making_refused(config, lent)?;
    let gray = config.optics.initial_gray;
    lent.old.fill(0);
    lent.new.fill(0);
    fill_states(lent.states, level(gray, config.optics.full_swing));
    lent.picture.fill(gray);
    lent.rows.fill(0);
    Ok(untouched(config, Registers::reset(config.variant)))
}
