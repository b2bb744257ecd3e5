// A refresh's end on the glass and in the old plane.
ghost use Rattle.std.specs.Prelude.{◌≡◌, true, ℕ};
ghost use Rattle.lending.specs.InnerSteps as steps;
ghost use Rattle.controller.specs.declared.drives.Drive.TheVariants as drive;
ghost use Rattle.controller.specs.Glass.{driven_at, states_by, picture_by};
ghost use Rattle.controller.specs.Refresh.{mapping_now};
ghost use Rattle.controller.specs.Planes.{copied_by, old_arrived};
ghost use Rattle.controller.specs.TurnedBack.{ends_refresh};
ghost use Rattle.controller.specs.Counting.{own};

use controller::{Drive, Uc8253, Work};
use driving::drive_panel;
use glass::Transfers;
use numbers::Mapping;
use pixels::draw;
use ram::copy_new_to_old;
use rules::drive_at;

// What each pixel's number goes by.
fn mapping(p: Uc8253) -> Mapping
    ensures { result ≡ mapping_now p }
{
    Mapping::of(p.config.panel, p.regs, p.config.variant)
}

// Every state walks all frames of its table.
fn drive_whole(p: Uc8253, old: &[u8], new: &[u8], states: &mut [i64])
    requires { steps.SwingFits p × steps.StatesFit p states.old }
    ensures { states.new ≡ states_by drive.Whole p old.now new.now states.old }
{
    let swing = p.config.optics.full_swing;
    let black = p.config.optics.positive_drives_black;
    let t = Transfers {
        ww: p.waveform.transfer(1, swing, black),
        kw: p.waveform.transfer(2, swing, black),
        wk: p.waveform.transfer(3, swing, black),
        kk: p.waveform.transfer(4, swing, black),
    };
    drive_panel(states, old, new, mapping(p), t);
}

// Every state walks the first frames of its table.
fn drive_first(p: Uc8253, n: u64, old: &[u8], new: &[u8], states: &mut [i64])
    requires { steps.SwingFits p × steps.StatesFit p states.old }
    ensures { states.new
        ≡ states_by (drive.First n) p old.now new.now states.old }
{
    let swing = p.config.optics.full_swing;
    let black = p.config.optics.positive_drives_black;
    let t = Transfers {
        ww: p.waveform.transfer_first(1, swing, black, n),
        kw: p.waveform.transfer_first(2, swing, black, n),
        wk: p.waveform.transfer_first(3, swing, black, n),
        kk: p.waveform.transfer_first(4, swing, black, n),
    };
    drive_panel(states, old, new, mapping(p), t);
}

// A refresh that ends by itself copies new to old, if it does.
fn copy_after(p: Uc8253, old: &mut [u8], new: &[u8])
    ensures { old.new ≡ copied_by p.operation.work p old.old new.now }
{
    if let Work::Refresh(refresh) = p.operation.work {
        if p.regs.copies_new_to_old(p.config.variant) {
            copy_new_to_old(old, new, refresh.area);
        }
    }
}

// A refresh that the call ends: the numbers come from the planes as they are, then new is copied to old.
pub(crate) fn settle(
    p: Uc8253,
    at: u64,
    asserted: bool,
    old: &mut [u8],
    new: &[u8],
    states: &mut [i64],
    picture: &mut [u8],
)
    requires { steps.SwingFits p × (ends_refresh asserted at p ≡ true → steps.StatesFit p states.old) }
    ensures old_after { old.new ≡ old_arrived at p old.old new.now }
    ensures states_after { states.new
        ≡ states_by (driven_at own asserted at p) p old.old new.now states.old }
    ensures picture_after { picture.new ≡ picture_by (driven_at own asserted at p) p states.new picture.old }
{
    let swing = p.config.optics.full_swing;
    match drive_at(p, at, asserted) {
        Drive::Nothing => {}
        Drive::Whole => {
            drive_whole(p, old, new, states);
            draw(picture, states, swing);
            copy_after(p, old, new);
        }
        Drive::First(n) => {
            drive_first(p, n, old, new, states);
            draw(picture, states, swing);
        }
    }
}
