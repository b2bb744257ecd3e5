// Events put into a lent buffer as a capture has them, ten bytes each.
ghost use Rattle.std.specs.Prelude.{◌+◌, ◌≤◌, length};
ghost use Rattle.vcd_simulation.specs.Written.{event_bytes, Holds};

use event::Event;

fn push(out: &mut [u8], held: usize, bytes: &[u8]) -> usize
    requires { held + length bytes.now ≤ length out.old }
    ensures { Holds bytes.now held result out.old out.new }
{
    let end = held + bytes.len();
    out[held..end].copy_from_slice(bytes);
    end
}

// An event, as a capture has it.
pub(crate) fn emit(out: &mut [u8], held: usize, e: Event) -> usize
    requires { held + 10 ≤ length out.old }
    ensures { Holds (event_bytes e) held result out.old out.new }
{
    let timed = push(out, held, &e.time.to_le_bytes());
    push(out, timed, &[e.kind, e.value])
}
