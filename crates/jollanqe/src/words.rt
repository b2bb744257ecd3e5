// The words of a job: the bytes between zeros.

// A blank becomes a zero.
pub(crate) fn unblank(b: u8) -> u8 {
    if matches!(b, b' ' | b'\t' | b'\r') {
        0
    } else {
        b
    }
}

// Word k, from 0; empty where there are not so many.
pub(crate) fn word(line: &[u8], k: usize) -> &[u8] {
    line.split(|b| *b == 0)
        .filter(|w| !w.is_empty())
        .nth(k)
        .unwrap_or(b"")
}

// How many words there are, and no more than eight.
pub(crate) fn count(line: &[u8]) -> usize {
    line.split(|b| *b == 0)
        .filter(|w| !w.is_empty())
        .take(8)
        .count()
}

// The value of a digit.
fn digit(b: u8) -> Option<u16> {
    match b {
        b'0'..=b'9' => Some(u16::from(b - b'0')),
        _ => None,
    }
}

// A top as a word gives it: a number from 0 to 65,535, of digits alone. std's parse takes a sign too.
pub(crate) fn top_in(w: &[u8]) -> Option<u16> {
    let mut top: u16 = 0;
    for b in w {
        top = top.checked_mul(10)?.checked_add(digit(*b)?)?;
    }
    Some(top)
}
