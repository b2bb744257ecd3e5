// A row of a refresh of one pixel: BLACK SWING GREY PERIOD, the third to fifth byte of PWR, the
// table's number, whether reset cut it and after how many nanoseconds, the five tables as a count
// and so many bytes, zeros after; then the answers DURATION and GREY. Before all that, in a row of
// either rule, VCOM's rule, 1 or 2.
use crate::table::{Checked, byte};
use test_numerals::number;
use waveform::{LUTS, Levels, Waveform, whole_frames};

// A table's 42 bytes, and the place after them.
#[derive(Clone, Copy)]
struct Lut {
    bytes: [u8; 42],
    next: usize,
}

fn read_lut(s: &[u8], at: usize) -> Lut {
    let count = number(s, at);
    let mut bytes = [0u8; 42];
    let mut next = count.next;
    for to in bytes.iter_mut().take(count.value.min(42) as usize) {
        let b = number(s, next);
        *to = byte(b.value);
        next = b.next;
    }
    Lut { bytes, next }
}

// The waveform whose tables begin at the place at, and the place after them.
#[derive(Clone, Copy)]
struct Loaded {
    waveform: Waveform,
    next: usize,
}

fn read_waveform(s: &[u8], at: usize, levels: Levels, period: u64, by_frame: bool) -> Loaded {
    let mut luts = [[0u8; 42]; LUTS];
    let mut next = at;
    for to in luts.iter_mut() {
        let lut = read_lut(s, next);
        let bytes = lut.bytes;
        *to = bytes;
        next = lut.next;
    }
    let waveform = Waveform::new(luts, levels, period, by_frame);
    Loaded { waveform, next }
}

// The refresh as the controller ends it: all frames, or those whole before the reset.
#[derive(Clone, Copy)]
struct Ending {
    lut: usize,
    swing: u64,
    black: bool,
    cut: bool,
    elapsed: u64,
}

fn end_state(w: Waveform, e: Ending, start: u64) -> u64 {
    if e.cut {
        let n = whole_frames(e.elapsed, w.frame_ns);
        return w.transfer_first(e.lut, e.swing, e.black, n).apply(start);
    }
    w.transfer(e.lut, e.swing, e.black).apply(start)
}

fn answers(s: &[u8], at: usize, w: Waveform, e: Ending, start: u64) -> Checked {
    let duration = number(s, at);
    let grey = number(s, duration.next);
    let state = end_state(w, e, start);
    let drawn = glass::gray(state, e.swing) as u64;
    Checked {
        same: w.duration_ns() == duration.value && drawn == grey.value,
        next: grey.next,
    }
}

fn row_by(s: &[u8], at: usize, by_frame: bool) -> Checked {
    let black = number(s, at);
    let swing = number(s, black.next);
    let grey = number(s, swing.next);
    let period = number(s, grey.next);
    let p3 = number(s, period.next);
    let p4 = number(s, p3.next);
    let p5 = number(s, p4.next);
    let lut = number(s, p5.next);
    let cut = number(s, lut.next);
    let elapsed = number(s, cut.next);
    let levels = Levels::from_power_setting([0, 0, byte(p3.value), byte(p4.value), byte(p5.value)]);
    let loaded = read_waveform(s, elapsed.next, levels, period.value, by_frame);
    let ending = Ending {
        lut: lut.value as usize,
        swing: swing.value,
        black: black.value == 1,
        cut: cut.value == 1,
        elapsed: elapsed.value,
    };
    let start = glass::level(byte(grey.value), swing.value);
    let waveform = loaded.waveform;
    answers(s, loaded.next, waveform, ending, start)
}

// A refresh by rule 1.
pub(crate) fn refresh_row(s: &[u8], at: usize) -> Checked {
    row_by(s, at, false)
}

// A refresh by the rule that the row begins with.
pub(crate) fn ruled_row(s: &[u8], at: usize) -> Checked {
    let rule = number(s, at);
    row_by(s, rule.next, rule.value == 2)
}
