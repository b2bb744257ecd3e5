// Greys as bytes: one a grey up to a top of 255, else two, the higher first.
ghost use Rattle.std.specs.Prelude.{◌≡◌};
ghost use Rattle.text.specs.Text.{put};
ghost use Rattle.output.specs.Units.{sample_of, samples_of};

use text::Text;

#[tactic(auto, using(text::proofs::Filling::puts), unfolding(crate::specs::Units::sample_of))]
fn sample(text: &mut Text<'_>, x: u16, top: u16)
    ensures { text.new ≡ put (sample_of top x) text.old }
{
    if top > 255 {
        text.byte((x / 0x100) as u8);
    }
    text.byte((x % 0x100) as u8);
}

// Those of a row.
#[tactic(auto, using(text::proofs::Filling::puts, crate::proofs::SampleLaws::samples_more))]
pub(crate) fn samples(text: &mut Text<'_>, row: &[u16], top: u16)
    ensures { text.new ≡ put (samples_of top row.now) text.old }
{
    for x in row {
        sample(text, *x, top);
    }
}
