// Rows of what is lent.
ghost use Rattle.std.specs.Prelude.{◌≡◌};
ghost use Rattle.output.specs.Units.{row_of};

// Row y of a list, of which a row has n entries; what lies past the end is left out.
#[tactic(auto, using(std::proofs::lemmas::List::take_min, std::proofs::lemmas::List::drop_min))]
pub(crate) fn row_of<T: Copy>(all: &[T], n: u16, y: u16) -> &[T]
    ensures { result.now ≡ row_of n y all.now }
{
    let n = n as usize;
    let rest = &all[(y as usize * n).min(all.len())..];
    &rest[..n.min(rest.len())]
}
