// A pixel byte: eight pixels at the cursor, which goes on; past the last row nothing is put.
ghost use Rattle.std.specs.Prelude.{◌≡◌};
ghost use Rattle.registers.specs.Written.{written_of};
ghost use Rattle.controller.specs.declared.Current.TheVariants as current;
ghost use Rattle.controller.specs.DataByte as rule;

use controller::{Active, Current, Uc8253, Use};
use diagnostic::DiagnosticKind;
use ram::{Cursor, next, write};
use registers::Area;
use rules::{purpose, with_current};

// The cursor goes on; past the last row that is noted.
#[tactic(auto, unfolding(controller::specs::DataByte::pixel_byte, controller::specs::DataByte::pixel_chip))]
pub(crate) fn pixel_byte(p: Uc8253, a: Active) -> Uc8253
    ensures { result ≡ rule.pixel_byte a p }
{
    let area = p.regs.written();
    let b = if area.y1 < a.cursor.y {
        Active {
            past_reported: true,
            ..a
        }
    } else {
        Active {
            cursor: next(area, a.cursor),
            ..a
        }
    };
    with_current(p, Current::Active(b))
}

// A pixel byte past the last row is reported once.
#[tactic(auto, unfolding(controller::specs::DataByte::past_note))]
pub(crate) fn past_note(p: Uc8253, a: Active) -> Option<DiagnosticKind>
    ensures { result ≡ rule.past_note a p }
{
    if p.regs.written().y1 < a.cursor.y && !a.past_reported {
        return Some(DiagnosticKind::PastTheWindow { command: a.command });
    }
    None
}

// Eight pixels at the cursor; past the last row nothing is put.
#[tactic(auto, unfolding(controller::specs::DataByte::put_at))]
pub fn put_at(plane: &mut [u8], area: Area, at: Cursor, byte: u8)
    ensures { plane.new ≡ rule.put_at area at byte plane.old }
{
    if at.y <= area.y1 {
        write(plane, area, at.x, at.y, byte);
    }
}

fn put_active(p: Uc8253, a: Active, byte: u8, old: &mut [u8], new: &mut [u8])
    ensures { (old.new ≡ rule.taken_by rule.for_old (current.Active a) byte (written_of p.regs) old.old)
        × (new.new ≡ rule.taken_by rule.for_new (current.Active a) byte (written_of p.regs) new.old) }
{
    match purpose(a, byte) {
        Use::Older => put_at(old, p.regs.written(), a.cursor, byte),
        Use::Newer => put_at(new, p.regs.written(), a.cursor, byte),
        _ => {}
    }
}

// The planes after a data byte: 10 and 13 put their pixels only in their own.
#[tactic(auto, unfolding(controller::specs::DataByte::plane_byte))]
pub fn put_byte(p: Uc8253, byte: u8, old: &mut [u8], new: &mut [u8])
    ensures { (old.new ≡ rule.plane_byte rule.for_old byte p old.old)
        × (new.new ≡ rule.plane_byte rule.for_new byte p new.old) }
{
    if let Current::Active(active) = p.stage.current {
        put_active(p, active, byte, old, new);
    }
}
