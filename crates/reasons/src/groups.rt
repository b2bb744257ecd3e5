// Numbers with a comma between groups of three digits.
ghost use Rattle.std.specs.Prelude.{◌≡◌, ◌∷◌, ◌<◌};
ghost use Rattle.text.specs.Text.{put};
ghost use Rattle.reasons.specs.Groups as rule;

use text::Text;

const GROUP: u64 = 1_000;

// A comma and three digits.
fn group(text: &mut Text<'_>, x: u64)
    requires { x < 1_000 }
    ensures { text.new ≡ put (44 ∷ rule.three x) text.old }
{
    text.byte(b',');
    text.byte(b'0' + (x / 100) as u8);
    text.byte(b'0' + (x / 10 % 10) as u8);
    text.byte(b'0' + (x % 10) as u8);
}

// A number in decimal, `65,536`.
#[tactic(auto, using(text::proofs::Filling::puts, crate::proofs::GroupLaws::grouped_few, crate::proofs::GroupLaws::grouped_more))]
pub fn grouped(text: &mut Text<'_>, x: u64)
    ensures { text.new ≡ put (rule.grouped x) text.old }
{
    if x < GROUP {
        text.decimal(x);
    } else {
        grouped(text, x / GROUP);
        group(text, x % GROUP);
    }
}
