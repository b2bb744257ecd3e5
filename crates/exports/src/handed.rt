// The record as numbers and plain structs, since no enum crosses to another language.
//
// Each case of an enum has a number, from 0 in the order of its declaration; any number past the
// last case stands for the last. What a case does not hold is 0.
ghost use Rattle.std.specs.Prelude.{◌≡◌};
ghost use Rattle.exports.specs.Handed as rule;

use command::{Kind, Params};
use config::{Uc8253Geometry, Uc8253Timing, Variant};
use controller::{Active, Current, Operation, Power, Refresh, Uc8253, Work};
use diagnostic_log::Log;
use glass::{Optics, PanelImage, RefreshKind};
use ram::Cursor;
use registers::{Area, Luts, Registers};
use waveform::Waveform;

#[repr(C)]
#[derive(Clone, Copy)]
pub struct HandedActive {
    pub received: u16,
    pub read: u16,
    pub least: u16,
    pub most: u16,
    pub cursor: Cursor,
    pub command: u8,
    pub kind: u8,
    pub params: u8,
    pub extra_reported: bool,
    pub past_reported: bool,
}

#[repr(C)]
#[derive(Clone, Copy)]
pub struct HandedOperation {
    pub started: u64,
    pub until: u64,
    pub area: Area,
    pub work: u8,
    pub kind: u8,
}

#[repr(C)]
#[derive(Clone, Copy)]
pub struct HandedImage {
    pub generation: u64,
    pub started: u64,
    pub at: u64,
    pub width: u16,
    pub height: u16,
    pub kind: u8,
    pub interrupted: bool,
}

#[repr(C)]
#[derive(Clone, Copy)]
pub struct Handed {
    pub panel: Uc8253Geometry,
    pub optics: Optics,
    pub timing: Uc8253Timing,
    pub regs: Registers,
    pub luts: Luts,
    pub waveform: Waveform,
    pub active: HandedActive,
    pub operation: HandedOperation,
    pub image: HandedImage,
    pub log: Log,
    pub now: u64,
    pub variant: u8,
    pub ambient: u8,
    pub power: u8,
    pub powered: bool,
    pub data_flag: bool,
    pub current: u8,
    // VCOM's rule 2: selected at making, and in force.
    pub made_by_frame: bool,
    pub vcom_by_frame: bool,
}

fn variant_number(variant: Variant) -> u8
    ensures { result ≡ rule.variant_number variant }
{
    match variant {
        Variant::Uc8253 => 0,
        Variant::Uc8279d => 1,
    }
}

fn power_number(power: Power) -> u8
    ensures { result ≡ rule.power_number power }
{
    match power {
        Power::Running => 0,
        Power::Asleep => 1,
        Power::InReset => 2,
    }
}

fn refresh_number(kind: RefreshKind) -> u8
    ensures { result ≡ rule.refresh_number kind }
{
    match kind {
        RefreshKind::PowerOn => 0,
        RefreshKind::Full => 1,
        RefreshKind::Partial => 2,
    }
}

// The numbers of a command's parameters.
#[derive(Clone, Copy)]
struct HandedParams {
    params: u8,
    least: u16,
    most: u16,
}

fn params_numbers(params: Params) -> HandedParams
    ensures { result ≡ rule.params_numbers params }
{
    match params {
        Params::Exactly(least) => HandedParams {
            params: 0,
            least,
            most: 0,
        },
        Params::Between(least, most) => HandedParams {
            params: 1,
            least,
            most,
        },
        Params::Stream => HandedParams {
            params: 2,
            least: 0,
            most: 0,
        },
    }
}

// The numbers of a command's kind.
#[derive(Clone, Copy)]
struct HandedKind {
    kind: u8,
    params: HandedParams,
}

fn kind_numbers(kind: Kind) -> HandedKind
    ensures { result ≡ rule.kind_numbers kind }
{
    let none = HandedParams {
        params: 0,
        least: 0,
        most: 0,
    };
    match kind {
        Kind::Write(bytes) => HandedKind {
            kind: 0,
            params: params_numbers(bytes),
        },
        Kind::Read => HandedKind {
            kind: 1,
            params: none,
        },
        Kind::Unsupported(bytes) => HandedKind {
            kind: 2,
            params: params_numbers(bytes),
        },
        Kind::Unknown => HandedKind {
            kind: 3,
            params: none,
        },
    }
}

fn active_numbers(active: Active) -> HandedActive
    ensures { result ≡ rule.active_numbers active }
{
    let sort = active.kind;
    let kind = kind_numbers(sort);
    let cursor = active.cursor;
    HandedActive {
        received: active.received,
        read: active.read,
        least: kind.params.least,
        most: kind.params.most,
        cursor,
        command: active.command,
        kind: kind.kind,
        params: kind.params.params,
        extra_reported: active.extra_reported,
        past_reported: active.past_reported,
    }
}

// What stands for the command under way where there is none.
fn no_active() -> HandedActive
    ensures { result ≡ rule.no_active }
{
    let cursor = Cursor { x: 0, y: 0 };
    HandedActive {
        received: 0,
        read: 0,
        least: 0,
        most: 0,
        cursor,
        command: 0,
        kind: 0,
        params: 0,
        extra_reported: false,
        past_reported: false,
    }
}

// The numbers of the command under way.
#[derive(Clone, Copy)]
struct HandedCurrent {
    current: u8,
    active: HandedActive,
}

fn current_numbers(current: Current) -> HandedCurrent
    ensures { result ≡ rule.current_numbers current }
{
    match current {
        Current::Idle => HandedCurrent {
            current: 0,
            active: no_active(),
        },
        Current::Ignoring => HandedCurrent {
            current: 1,
            active: no_active(),
        },
        Current::Active(active) => HandedCurrent {
            current: 2,
            active: active_numbers(active),
        },
    }
}

// The numbers of what keeps `BUSY_N` low.
#[derive(Clone, Copy)]
struct HandedWork {
    work: u8,
    area: Area,
    kind: u8,
}

// Work that holds nothing.
fn plain_work(work: u8) -> HandedWork
    ensures { result ≡ rule.plain_work work }
{
    let area = Area {
        x0: 0,
        y0: 0,
        x1: 0,
        y1: 0,
    };
    HandedWork {
        work,
        area,
        kind: 0,
    }
}

fn refresh_numbers(refresh: Refresh) -> HandedWork
    ensures { result ≡ rule.refresh_numbers refresh }
{
    let area = refresh.area;
    let kind = refresh.kind;
    HandedWork {
        work: 6,
        area,
        kind: refresh_number(kind),
    }
}

fn work_numbers(work: Work) -> HandedWork
    ensures { result ≡ rule.work_numbers work }
{
    match work {
        Work::Nothing => plain_work(0),
        Work::PowerOn => plain_work(1),
        Work::PowerOff => plain_work(2),
        Work::DeepSleep => plain_work(3),
        Work::SoftReset => plain_work(4),
        Work::HardwareReset => plain_work(5),
        Work::Refresh(refresh) => refresh_numbers(refresh),
    }
}

fn operation_numbers(operation: Operation) -> HandedOperation
    ensures { result ≡ rule.operation_numbers operation }
{
    let under_way = operation.work;
    let work = work_numbers(under_way);
    let area = work.area;
    HandedOperation {
        started: operation.started,
        until: operation.until,
        area,
        work: work.work,
        kind: work.kind,
    }
}

fn image_numbers(image: PanelImage) -> HandedImage
    ensures { result ≡ rule.image_numbers image }
{
    let shown = image.kind;
    let kind = refresh_number(shown);
    HandedImage {
        generation: image.generation,
        started: image.started,
        at: image.at,
        width: image.width,
        height: image.height,
        kind,
        interrupted: image.interrupted,
    }
}

fn current_of_chip(p: Uc8253) -> HandedCurrent
    ensures { result ≡ rule.current_numbers p.stage.current }
{
    let stage = p.stage;
    let current = stage.current;
    current_numbers(current)
}

fn variant_of_chip(p: Uc8253) -> u8
    ensures { result ≡ rule.variant_number p.config.variant }
{
    let config = p.config;
    let variant = config.variant;
    variant_number(variant)
}

fn power_of_chip(p: Uc8253) -> u8
    ensures { result ≡ rule.power_number p.mode.power }
{
    let mode = p.mode;
    let power = mode.power;
    power_number(power)
}

// The numbers of the controller's record.
pub(crate) fn hand_over(p: Uc8253) -> Handed
    ensures { result ≡ rule.handed_of p }
{
    let config = p.config;
    let panel = config.panel;
    let optics = config.optics;
    let timing = config.timing;
    let regs = p.regs;
    let luts = p.luts;
    let waveform = p.waveform;
    let current = current_of_chip(p);
    let active = current.active;
    let under_way = p.operation;
    let operation = operation_numbers(under_way);
    let shown = p.image;
    let image = image_numbers(shown);
    let log = p.log;
    Handed {
        panel,
        optics,
        timing,
        regs,
        luts,
        waveform,
        active,
        operation,
        image,
        log,
        now: p.now,
        variant: variant_of_chip(p),
        ambient: config.ambient_celsius,
        power: power_of_chip(p),
        powered: p.mode.powered,
        data_flag: p.mode.data_flag,
        current: current.current,
        made_by_frame: config.vcom_by_frame,
        vcom_by_frame: p.mode.vcom_by_frame,
    }
}
