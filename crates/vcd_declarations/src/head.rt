// The declarations of a dump, one after the other.
ghost use Rattle.std.specs.Prelude.{◌≡◌, ◌||◌, ◌+◌, ◌≤◌, ◌<◌, ◌^◌, length};
ghost use Rattle.vcd_words.specs.Words.{words};
ghost use Rattle.vcd_values.specs.Names.{pin_number};
ghost use Rattle.vcd_declarations.specs.Codes.{code_in, Within};
ghost use Rattle.vcd_declarations.specs.Begun.{Begins};
ghost use Rattle.vcd_declarations.specs.Declarations as rule;
ghost use Rattle.vcd_declarations.specs.InnerEnd.{EndAt};
ghost use Rattle.vcd_declarations.specs.InnerHead as inner;

use crate::codes::{Codes, Further, is_placed};
use crate::commands::{Keyword, begins, is_bare, is_end, is_last, is_nano, is_scope, sorted};
use crate::variable::{Variable, varied};
use vcd_values::Pin;
use vcd_words::{Span, next_word};

// What the declarations say.
#[derive(Clone, Copy)]
pub struct Head {
    // Malformed.
    pub broken: bool,
    // A time scale was given.
    pub scaled: bool,
    // One of the five was declared twice, or wider than a bit.
    pub bad: bool,
    // The first code of each.
    pub codes: Codes,
    // The others.
    pub further: Further,
}

// What the declarations say, whether each of them has its end, and where they are over.
#[derive(Clone, Copy)]
pub struct Begun {
    pub head: Head,
    pub ended: bool,
    pub next: usize,
}

// Before the first declaration.
fn blank() -> Head
    ensures { result ≡ inner.blank_head }
{
    let none = Span { from: 0, to: 0 };
    let codes = Codes {
        cs: none,
        dc: none,
        clk: none,
        mosi: none,
        rst: none,
    };
    let further = Further {
        codes: [none; 8],
        full: false,
    };
    Head {
        broken: false,
        scaled: false,
        bad: false,
        codes,
        further,
    }
}

// A declaration that is not right makes the dump malformed.
fn holding(right: bool, h: Head) -> Head
    ensures { result ≡ inner.holding_head right h }
{
    Head {
        broken: h.broken || !right,
        ..h
    }
}

fn scale(right: bool, h: Head) -> Head
    ensures { result ≡ inner.scale_head right h }
{
    Head {
        broken: h.broken || !right,
        scaled: true,
        ..h
    }
}

fn code_of(c: Codes, pin: Pin) -> Span
    ensures { result ≡ inner.place_of c (pin_number pin) }
{
    match pin {
        Pin::Cs => c.cs,
        Pin::Dc => c.dc,
        Pin::Clk => c.clk,
        Pin::Mosi => c.mosi,
        Pin::Rst => c.rst,
    }
}

fn with_code(c: Codes, pin: Pin, code: Span) -> Codes
    ensures { result ≡ inner.with_place c (pin_number pin) code }
{
    match pin {
        Pin::Cs => Codes { cs: code, ..c },
        Pin::Dc => Codes { dc: code, ..c },
        Pin::Clk => Codes { clk: code, ..c },
        Pin::Mosi => Codes { mosi: code, ..c },
        Pin::Rst => Codes { rst: code, ..c },
    }
}

// One code more. The last place is lost, so there must be none in it.
fn shifted(f: Further, code: Span) -> Further
    ensures { result ≡ inner.shifted f code }
{
    let mut codes = f.codes;
    codes.rotate_right(1);
    codes[0] = code;
    Further {
        codes,
        full: f.full || !f.codes[7].is_empty(),
    }
}

// A code that is there already, or one more.
fn added(f: Further, placed: bool, code: Span) -> Further
    ensures { result ≡ inner.added f placed code }
{
    if placed { f } else { shifted(f, code) }
}

// One of the five, with a code that has a place already or not.
fn declare(h: Head, pin: Pin, wide: bool, code: Span, placed: bool) -> Head
    ensures { result ≡ inner.declare_head h (pin_number pin) wide code placed }
{
    if code_of(h.codes, pin).is_empty() {
        let codes = with_code(h.codes, pin, code);
        return Head {
            bad: h.bad || wide,
            codes,
            ..h
        };
    }
    let further = added(h.further, placed, code);
    Head {
        bad: true,
        further,
        ..h
    }
}

// A place so many bytes further on.
fn moved(n: usize, s: Span) -> Span
    requires from_bound { n + s.from < 2 ^ 64 }
    requires to_bound { n + s.to < 2 ^ 64 }
    ensures { result ≡ inner.moved n s }
{
    Span {
        from: n + s.from,
        to: n + s.to,
    }
}

// The variable whose words lie at a place.
fn declares_var(h: Head, bytes: &[u8], place: Span) -> Head
    requires { Within place (length bytes.now) }
    ensures { (s : rule.Head) → inner.Tells bytes.now h s
        → inner.Tells bytes.now result (rule.variable (words (code_in bytes.now place)) s) }
{
    match varied(&bytes[place.from..place.to]) {
        Some(Variable::Of { pin, wide, code }) => {
            let code = moved(place.from, code);
            let placed = is_placed(bytes, h.codes, h.further, &bytes[code.from..code.to]);
            declare(h, pin, wide, code, placed)
        }
        Some(Variable::Other) => h,
        None => holding(false, h),
    }
}

// One declaration: its keyword, and the place of the words behind it.
fn declares(h: Head, k: Keyword, bytes: &[u8], place: Span) -> Head
    requires { Within place (length bytes.now) }
    ensures { (s : rule.Head) → inner.Tells bytes.now h s
        → inner.Tells bytes.now result (rule.declares_by k (words (code_in bytes.now place)) s) }
{
    let text = &bytes[place.from..place.to];
    match k {
        Keyword::Text | Keyword::Other => h,
        Keyword::Timescale => scale(is_nano(text), h),
        Keyword::Scope => holding(is_scope(text), h),
        Keyword::Upscope | Keyword::EndDefinitions => holding(is_bare(text), h),
        Keyword::Var => declares_var(h, bytes, place),
    }
}

// The next `$end`, from a place on; without bytes if there is none.
pub(crate) fn find_end(bytes: &[u8], at: usize) -> Span
    requires at_in_bounds { at ≤ length bytes.now }
    requires shut { inner.Shut bytes.now at }
    ensures { EndAt bytes.now at result }
{
    let mut i = at;
    // A step is a word long, and its place is wanted: no plainer by an iterator.
    while i < bytes.len() {
        let w = next_word(bytes, i);
        if w.is_empty() {
            return w;
        }
        if is_end(&bytes[w.from..w.to]) {
            return w;
        }
        i = w.to;
    }
    Span { from: i, to: i }
}

// All declarations from the start of the bytes on.
pub fn declarations(bytes: &[u8]) -> Begun
    ensures { Begins bytes.now result }
{
    let mut head = blank();
    let mut at = 0;
    // A step is a declaration long: no plainer by an iterator, which would walk it twice.
    while at < bytes.len() {
        let w = next_word(bytes, at);
        let k = sorted(&bytes[w.from..w.to]);
        if !begins(k) {
            return Begun {
                head,
                ended: true,
                next: w.from,
            };
        }
        let end = find_end(bytes, w.to);
        if end.is_empty() {
            return Begun {
                head,
                ended: false,
                next: bytes.len(),
            };
        }
        let place = Span {
            from: w.to,
            to: end.from,
        };
        head = declares(head, k, bytes, place);
        at = end.to;
        if is_last(k) {
            return Begun {
                head,
                ended: true,
                next: at,
            };
        }
    }
    Begun {
        head,
        ended: true,
        next: at,
    }
}
