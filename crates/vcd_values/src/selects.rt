// A select, [n] or [n:m], read byte by byte.
ghost use Rattle.std.specs.Prelude.{◌≡◌};
ghost use Rattle.base.specs.Pick.{pick};
ghost use Rattle.vcd_words.specs.Words.{is_blank};
ghost use Rattle.vcd_values.specs.Names as rule;
ghost use Rattle.vcd_values.specs.Selects as machine;

use crate::numbers::is_digit;
use vcd_words::is_blank;

// What is read so far: nothing; the [ and then, of the first index, nothing, its minus or digits; the
// same behind the colon; all; or what is no select, whatever follows.
#[derive(Clone, Copy)]
pub(crate) enum State {
    Before,
    First,
    FirstSigned,
    FirstDigits,
    Second,
    SecondSigned,
    SecondDigits,
    Closed,
    Wrong,
}

// A digit.
fn digit(b: u8, digits: State) -> State
    ensures { result ≡ machine.digit digits b }
{
    if is_digit(b) { digits } else { State::Wrong }
}

// A minus or a digit.
fn index(b: u8, signed: State, digits: State) -> State
    ensures { result ≡ machine.index signed digits b }
{
    if b == b'-' { signed } else { digit(b, digits) }
}

// The ].
fn close(b: u8) -> State
    ensures { result ≡ machine.close b }
{
    if b == b']' {
        State::Closed
    } else {
        State::Wrong
    }
}

fn next(state: State, b: u8) -> State
    ensures { result ≡ machine.next state b }
{
    match state {
        State::Before if b == b'[' => State::First,
        State::Before => State::Wrong,
        State::First => index(b, State::FirstSigned, State::FirstDigits),
        State::FirstSigned => digit(b, State::FirstDigits),
        State::FirstDigits if is_digit(b) => State::FirstDigits,
        State::FirstDigits if b == b':' => State::Second,
        State::FirstDigits => close(b),
        State::Second => index(b, State::SecondSigned, State::SecondDigits),
        State::SecondSigned => digit(b, State::SecondDigits),
        State::SecondDigits if is_digit(b) => State::SecondDigits,
        State::SecondDigits => close(b),
        State::Closed | State::Wrong => State::Wrong,
    }
}

// A blank is passed over.
fn next_solid(state: State, b: u8) -> State
    ensures { result ≡ pick (is_blank b) state (machine.next state b) }
{
    if is_blank(b) { state } else { next(state, b) }
}

pub(crate) fn is_select(word: &[u8]) -> bool
    ensures { result ≡ rule.is_select word.now }
{
    let mut state = State::Before;
    for b in word {
        state = next(state, *b);
    }
    matches!(state, State::Closed)
}

// Bytes with blanks anywhere between them.
pub(crate) fn read(bytes: &[u8]) -> State
    ensures { result ≡ machine.run State.Before (machine.solid bytes.now) }
{
    let mut state = State::Before;
    for b in bytes {
        state = next_solid(state, *b);
    }
    state
}
