// In how many places two lists of numbers differ, and by how much at most.
ghost use Rattle.std.specs.Prelude.{◌≡◌};
ghost use Rattle.differences.specs.Apart as rule;

#[derive(Clone, Copy)]
pub struct Spread {
    pub count: u64,
    pub most: u64,
}

fn distance(x: u8, y: u8) -> u64
    ensures { result ≡ rule.distance x y }
{
    x.abs_diff(y) as u64
}

pub fn apart(a: &[u8], b: &[u8]) -> Spread
    ensures { result ≡ rule.apart_of a.now b.now }
{
    let n = a.len().min(b.len());
    let mut count: u64 = 0;
    let mut most: u64 = 0;
    for i in 0..n {
        if a[i] != b[i] {
            count += 1;
        }
        most = most.max(distance(a[i], b[i]));
    }
    Spread { count, most }
}
