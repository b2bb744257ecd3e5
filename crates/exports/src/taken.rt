// The controller's record, of the numbers that it was handed over as. Any number past the last case
// of an enum stands for the last, so every such record is taken.
ghost use Rattle.std.specs.Prelude.{◌≡◌};
ghost use Rattle.exports.specs.Taken as rule;

use crate::handed::{Handed, HandedActive, HandedImage, HandedOperation};
use command::{Kind, Params};
use config::{Uc8253Config, Variant};
use controller::{Active, Current, Mode, Operation, Power, Refresh, Stage, Uc8253, Work};
use glass::{PanelImage, RefreshKind};

fn variant_of(n: u8) -> Variant
    ensures { result ≡ rule.variant_taken n }
{
    match n {
        0 => Variant::Uc8253,
        _ => Variant::Uc8279d,
    }
}

fn power_of(n: u8) -> Power
    ensures { result ≡ rule.power_taken n }
{
    match n {
        0 => Power::Running,
        1 => Power::Asleep,
        _ => Power::InReset,
    }
}

fn params_of(n: u8, least: u16, most: u16) -> Params
    ensures { result ≡ rule.params_taken n least most }
{
    match n {
        0 => Params::Exactly(least),
        1 => Params::Between(least, most),
        _ => Params::Stream,
    }
}

fn kind_of(n: u8, params: Params) -> Kind
    ensures { result ≡ rule.kind_taken n params }
{
    match n {
        0 => Kind::Write(params),
        1 => Kind::Read,
        2 => Kind::Unsupported(params),
        _ => Kind::Unknown,
    }
}

fn active_of(h: HandedActive) -> Active
    ensures { result ≡ rule.active_taken h }
{
    let params = params_of(h.params, h.least, h.most);
    let kind = kind_of(h.kind, params);
    let cursor = h.cursor;
    Active {
        command: h.command,
        kind,
        received: h.received,
        read: h.read,
        cursor,
        extra_reported: h.extra_reported,
        past_reported: h.past_reported,
    }
}

fn current_of(n: u8, active: Active) -> Current
    ensures { result ≡ rule.current_taken n active }
{
    match n {
        0 => Current::Idle,
        1 => Current::Ignoring,
        _ => Current::Active(active),
    }
}

fn refresh_kind_of(n: u8) -> RefreshKind
    ensures { result ≡ rule.refresh_kind_taken n }
{
    match n {
        0 => RefreshKind::PowerOn,
        1 => RefreshKind::Full,
        _ => RefreshKind::Partial,
    }
}

fn work_of(n: u8, refresh: Refresh) -> Work
    ensures { result ≡ rule.work_taken n refresh }
{
    match n {
        0 => Work::Nothing,
        1 => Work::PowerOn,
        2 => Work::PowerOff,
        3 => Work::DeepSleep,
        4 => Work::SoftReset,
        5 => Work::HardwareReset,
        _ => Work::Refresh(refresh),
    }
}

fn operation_of(h: HandedOperation) -> Operation
    ensures { result ≡ rule.operation_taken h }
{
    let area = h.area;
    let kind = refresh_kind_of(h.kind);
    let refresh = Refresh { area, kind };
    let work = work_of(h.work, refresh);
    Operation {
        work,
        started: h.started,
        until: h.until,
    }
}

fn image_of(h: HandedImage) -> PanelImage
    ensures { result ≡ rule.image_taken h }
{
    let kind = refresh_kind_of(h.kind);
    PanelImage {
        width: h.width,
        height: h.height,
        generation: h.generation,
        kind,
        interrupted: h.interrupted,
        started: h.started,
        at: h.at,
    }
}

fn config_of(h: Handed) -> Uc8253Config
    ensures { result ≡ rule.config_taken h }
{
    let variant = variant_of(h.variant);
    let panel = h.panel;
    let optics = h.optics;
    let timing = h.timing;
    Uc8253Config {
        variant,
        panel,
        optics,
        timing,
        ambient_celsius: h.ambient,
        vcom_by_frame: h.made_by_frame,
    }
}

fn mode_of(h: Handed) -> Mode
    ensures { result ≡ rule.mode_taken h }
{
    let power = power_of(h.power);
    Mode {
        power,
        powered: h.powered,
        data_flag: h.data_flag,
        vcom_by_frame: h.vcom_by_frame,
    }
}

fn stage_of(h: Handed) -> Stage
    ensures { result ≡ rule.stage_taken h }
{
    let handed_active = h.active;
    let active = active_of(handed_active);
    let current = current_of(h.current, active);
    Stage { current }
}

// The controller's record, of the numbers.
pub(crate) fn taken(h: Handed) -> Uc8253
    ensures { result ≡ rule.record_taken h }
{
    let config = config_of(h);
    let regs = h.regs;
    let luts = h.luts;
    let mode = mode_of(h);
    let stage = stage_of(h);
    let handed_operation = h.operation;
    let operation = operation_of(handed_operation);
    let waveform = h.waveform;
    let handed_image = h.image;
    let image = image_of(handed_image);
    let log = h.log;
    Uc8253 {
        config,
        regs,
        luts,
        mode,
        stage,
        operation,
        waveform,
        image,
        log,
        now: h.now,
    }
}
