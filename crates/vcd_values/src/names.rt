// Which signal the reference of a variable names.
ghost use Rattle.std.specs.Prelude.{◌≡◌, []};
ghost use Rattle.vcd_words.specs.Words.{words};
ghost use Rattle.vcd_values.specs.Names as rule;

use crate::selects::{State, is_select, read};
use vcd_words::same;

// One of the five signals.
#[derive(Clone, Copy)]
pub enum Pin {
    Cs,
    Dc,
    Clk,
    Mosi,
    Rst,
}

// A name: that of one of the five, or any other.
#[derive(Clone, Copy)]
pub enum Name {
    Of(Pin),
    Other,
}

// The signal of a name; no bytes are none.
#[tactic(auto, unfolding(crate::specs::Names::signal_of))]
fn known(name: &[u8]) -> Option<Name>
    ensures { rule.name_number result ≡ rule.signal_of name.now }
{
    let pin = if same(name, b"cs") {
        Pin::Cs
    } else if same(name, b"dc") {
        Pin::Dc
    } else if same(name, b"clk") {
        Pin::Clk
    } else if same(name, b"mosi") {
        Pin::Mosi
    } else if same(name, b"rst") {
        Pin::Rst
    } else if name.is_empty() {
        return None;
    } else {
        return Some(Name::Other);
    };
    Some(Name::Of(pin))
}

// The place of the last [, or the length.
fn bracket(word: &[u8]) -> usize
    ensures { result ≡ rule.bracket word.now }
{
    let mut last = word.len();
    for (i, b) in word.iter().enumerate() {
        if *b == b'[' {
            last = i;
        }
    }
    last
}

// What is left of a name where nothing follows it.
fn stem(word: &[u8]) -> &[u8]
    ensures { result.now ≡ rule.stem word.now }
{
    if word.last() != Some(&b']') {
        return word;
    }
    let at = bracket(word);
    if word.len() <= at {
        return word;
    }
    if is_select(&word[at..]) {
        return &word[..at];
    }
    &[]
}

// With nothing after it.
#[tactic(auto, unfolding(crate::specs::Names::name_of))]
fn alone(word: &[u8]) -> Option<Name>
    ensures { rule.name_number result ≡ rule.signal_of (rule.name_of word.now []) }
{
    match word {
        [b'\\', name @ ..] => known(name),
        _ => known(stem(word)),
    }
}

// With a select after it.
fn selected(word: &[u8]) -> Option<Name>
    ensures { rule.name_number result ≡ rule.signal_of (rule.bare word.now) }
{
    match word {
        [b'\\', name @ ..] => known(name),
        _ => known(word),
    }
}

// The signal of a reference, and of the bytes after it; none where they are no reference.
pub fn signal(word: &[u8], after: &[u8]) -> Option<Name>
    ensures { rule.name_number result ≡ rule.signal_of (rule.name_of word.now (words after.now)) }
{
    match read(after) {
        State::Before => alone(word),
        State::Closed => selected(word),
        _ => None,
    }
}
