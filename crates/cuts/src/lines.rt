// A cut in words.
ghost use Rattle.std.specs.Prelude.{◌≡◌};
ghost use Rattle.text.specs.Text.{put};
ghost use Rattle.cuts.specs.Lines.{cut_line};

use crate::finding::Cut;
use text::Text;

// `cut TIME FRAMES OF`
#[tactic(auto, using(text::proofs::Filling::puts), unfolding(crate::specs::Lines::cut_line))]
pub fn line(text: &mut Text<'_>, c: Cut)
    ensures { text.new ≡ put (cut_line c) text.old }
{
    text.put(b"cut");
    text.number(c.at);
    text.number(c.frames);
    text.number(c.of);
    text.byte(b'\n');
}
