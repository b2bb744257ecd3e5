// A call arrives: the clock, and the end of what runs.
ghost use Rattle.std.specs.Prelude.{◌≡◌, true, false};
ghost use Rattle.arriving.specs.InnerSteps as steps;
ghost use Rattle.controller.specs.Setters.{with_image, with_operation, with_powered};
ghost use Rattle.controller.specs.Arrives as arrives;
ghost use Rattle.controller.specs.Refresh as rule;

use controller::{Power, Uc8253, Work};
use glass::{PanelImage, RefreshKind};
use rules::rested;

// The head of the next picture.
#[tactic(auto, unfolding(controller::specs::Refresh::published))]
pub(crate) fn publish(p: Uc8253, kind: RefreshKind, interrupted: bool, at: u64) -> Uc8253
    ensures { result ≡ with_image (rule.published kind interrupted at p) p }
{
    Uc8253 {
        image: PanelImage {
            width: p.config.panel.sources,
            height: p.config.panel.gates,
            generation: p.image.generation.saturating_add(1),
            kind,
            interrupted,
            started: p.operation.started,
            at,
        },
        ..p
    }
}

fn powered(p: Uc8253, on: bool) -> Uc8253
    ensures { result ≡ with_operation arrives.rest (with_powered on p) }
{
    let mut q = p;
    q.mode.powered = on;
    rested(q)
}

fn fall_asleep(p: Uc8253) -> Uc8253
    ensures { result ≡ steps.fallen_asleep p }
{
    let mut q = p;
    q.mode.power = Power::Asleep;
    q.mode.powered = false;
    rested(q)
}

// What runs ends. A refresh publishes its picture, dated by its own end.
#[tactic(auto, unfolding(controller::specs::Refresh::ended_refresh))]
fn end(p: Uc8253) -> Uc8253
    ensures { result ≡ arrives.ended_by p.operation.work p }
{
    match p.operation.work {
        Work::Nothing => p,
        Work::PowerOn => powered(p, true),
        Work::PowerOff => powered(p, false),
        Work::DeepSleep => fall_asleep(p),
        Work::SoftReset | Work::HardwareReset => rested(p),
        Work::Refresh(refresh) => rested(publish(p, refresh.kind, false, p.operation.until)),
    }
}

// The clock becomes the larger of itself and the time given; what has come to its end then ends.
#[tactic(auto, unfolding(controller::specs::Arrives::arrived, controller::specs::Arrives::ended))]
pub fn arrive(p: Uc8253, at: u64) -> Uc8253
    ensures { result ≡ arrives.arrived at p }
{
    let q = Uc8253 {
        now: p.now.max(at),
        ..p
    };
    if q.operation.until <= q.now {
        end(q)
    } else {
        q
    }
}
