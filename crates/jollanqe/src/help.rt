// What the program says of itself.
use files::{Shown, tell};

const HEAD: &str =
    "jollanqe: what an e-paper controller and its glass make of a capture or a dump\n\n";

// A line of each word, or two.
const WORDS: [&str; 21] = [
    "  jollanqe help                 this\n",
    "  jollanqe lines FILE           reads, diagnostics and the last picture, as text\n",
    "  jollanqe pgm FILE [TOP]       the last picture as a graymap (Netpbm P5), its white at\n",
    "                                TOP, 1 to 65,535 (0: 255); none: the 8-bit picture\n",
    "  jollanqe png FILE [TOP]       the last picture as a PNG file; TOP is 255 or 65,535\n",
    "  jollanqe pictures FILE DIR    every picture, as DIR/GENERATION.png, with a line each\n",
    "  jollanqe cuts FILE            the refreshes that reset cut: when, after how many whole\n",
    "                                frames, of how many\n",
    "  jollanqe config FILE          the 312 bytes of the configuration, for vcd\n",
    "  jollanqe vcd CONFIG FILE [lines | pgm [TOP] | png [TOP]]\n",
    "                                the panel of a configuration after a dump of an analyser\n",
    "                                (Value Change Dump, timescale 1 ns): its lines, or its last\n",
    "                                picture\n",
    "  jollanqe compare FILE FILE    the first event, row or pixel in which two captures\n",
    "                                differ, and how many pixels do\n",
    "  jollanqe                      jobs from standard input, one a line, as above without\n",
    "                                the first word; '> NAME' at a line's end writes there\n",
    "\n",
    "A FILE that is - is standard input, but not in a line of the batch. Panels go up to\n",
    "800 by 600. What is turned back gives 'refused N' on standard output and the\n",
    "words on standard error; no file is written for it. docs/FORMAT.md has the format.\n",
];

// Every word. Where the first line could not be written the rest is not tried.
pub(crate) fn say<R: Print + Eprint>(rt: &R) {
    if let Err(error) = rt.write_all(HEAD.as_bytes()) {
        tell(rt, b"standard output", error);
        return;
    }
    for line in WORDS {
        let _ = rt.write_all(line.as_bytes());
    }
}

// What a word wanted, with an example.
pub(crate) fn wanted<R: Eprint>(rt: &R, text: &str) {
    let _ = eprintln!(rt; "jollanqe: {text}");
}

// The same of a word of one file.
pub(crate) fn wants_file<R: Eprint>(rt: &R, word: &[u8]) {
    let shown = Shown { name: word };
    let _ = eprintln!(rt;
        "jollanqe: {shown} wants one file, as in: jollanqe {shown} night.capture"
    );
}

// The same of a word of a picture.
pub(crate) fn wants_picture<R: Eprint>(rt: &R, word: &[u8]) {
    let shown = Shown { name: word };
    let _ = eprintln!(rt;
        "jollanqe: {shown} wants one file and at most a top, as in: jollanqe {shown} night.capture 65535"
    );
}

// A top that is no number, or too large.
pub(crate) fn wants_top<R: Eprint>(rt: &R) {
    wanted(
        rt,
        "a top is a number from 1 to 65,535, or 0, which stands for 255",
    );
}

// A top that a PNG file cannot have.
pub(crate) fn no_png<R: Eprint>(rt: &R) {
    wanted(
        rt,
        "a PNG file's top is 255 or 65,535, since its white is no other: pgm takes every top",
    );
}

// The same of a dump.
pub(crate) fn wants_dump<R: Eprint>(rt: &R) {
    wanted(
        rt,
        "vcd wants a configuration, a dump and at most one of lines, pgm and png, perhaps with a top, as in: jollanqe vcd panel.config night.vcd png",
    );
}

// A word that is none.
pub(crate) fn no_word<R: Eprint>(rt: &R, word: &[u8]) {
    let shown = Shown { name: word };
    let _ = eprintln!(rt; "jollanqe: no such word: {shown}; jollanqe help says all of them");
}
