// The first place at which two lists differ, from 0: an entry that is not the same, or the end of one.
ghost use Rattle.std.specs.Prelude.{◌≡◌};
ghost use Rattle.differences.specs.Places.{first_by};

pub fn first_place<T: PartialEq + Copy>(a: &[T], b: &[T]) -> Option<usize>
    ensures { result ≡ first_by T.eq 0 a.now b.now }
{
    let n = a.len().min(b.len());
    for i in 0..n {
        if a[i] != b[i] {
            return Some(i);
        }
    }
    if a.len() == b.len() { None } else { Some(n) }
}
