// One word of the simulation.
ghost use Rattle.std.specs.Prelude.{◌≡◌, false, ◌+◌, ◌≤◌, length};
ghost use Rattle.vcd_simulation.specs.Simulation as rule;
ghost use Rattle.vcd_simulation.specs.Feed.{codes_by};
ghost use Rattle.vcd_simulation.specs.InnerSteps.{Steps, Plans, Settles, is_section, command_or_section};

use crate::body::{Body, Wanted};
use crate::change::change;
use vcd_declarations::{Head, is_end, is_known};
use vcd_values::{UNKNOWN, is_real, level, time, vector_level};
use vcd_words::{is_one_of, printable, same};

// The body after a word, and how many bytes of events are held.
#[derive(Clone, Copy)]
pub(crate) struct Stepped {
    pub(crate) body: Body,
    pub(crate) held: usize,
}

// What a word comes to: a change to a level of the signals of the code that stands from a place of the
// word on, with what may come next; or only a body.
#[derive(Clone, Copy)]
pub(crate) enum Plan {
    Change {
        level: u8,
        from: usize,
        next: Wanted,
    },
    Only(Body),
}

// Only what may come next changes.
fn goes(b: Body, wanted: Wanted) -> Body
    ensures { result ≡ (rule.goes wanted b).body }
{
    Body { wanted, ..b }
}

fn breaks(b: Body) -> Body
    ensures { result ≡ (rule.breaks b).body }
{
    goes(b, Wanted::Broken)
}

// After a value that is neither 0 nor 1.
fn unknown(head: &[u8], h: Head, next: Wanted, code: &[u8], b: Body) -> Body
    ensures { result ≡ (rule.unknown_at (codes_by head.now h) next code.now b).body }
{
    if is_known(head, h, code) {
        breaks(b)
    } else {
        goes(b, next)
    }
}

// A change of the signals of a code.
fn changes(
    head: &[u8],
    h: Head,
    next: Wanted,
    code: &[u8],
    v: u8,
    b: Body,
    out: &mut [u8],
    held: usize,
) -> Stepped
    requires { held + 20 ≤ length out.old }
    ensures { Steps (rule.changes (codes_by head.now h) next code.now v b)
        held result out.old out.new }
{
    if v == UNKNOWN {
        let body = unknown(head, h, next, code, b);
        return Stepped { body, held };
    }
    let c = change(head, h.codes, code, v, b.now, b.bus, out, held);
    let body = Body {
        wanted: next,
        bus: c.bus,
        ..b
    };
    Stepped { body, held: c.held }
}

// One printable byte or more.
#[tactic(auto, using(crate::proofs::StepLaws::code_none, crate::proofs::StepLaws::code_some))]
fn is_code(word: &[u8]) -> bool
    ensures { result ≡ rule.is_code word.now }
{
    !word.is_empty() && printable(word)
}

// A code, behind its value.
fn code_word(
    head: &[u8],
    h: Head,
    next: Wanted,
    code: &[u8],
    v: u8,
    b: Body,
    out: &mut [u8],
    held: usize,
) -> Stepped
    requires { held + 20 ≤ length out.old }
    ensures { Steps (rule.code_word (codes_by head.now h) next code.now v b)
        held result out.old out.new }
{
    if !is_code(code) {
        let body = breaks(b);
        return Stepped { body, held };
    }
    changes(head, h, next, code, v, b, out, held)
}

// What comes after a change, and after a value whose code is the next word: in a section or not.
fn next_of(in_section: bool) -> Wanted
    ensures { result ≡ rule.next_of in_section }
{
    if in_section {
        Wanted::Section
    } else {
        Wanted::Command
    }
}

fn later_of(in_section: bool, v: u8) -> Wanted
    ensures { result ≡ rule.later_of in_section v }
{
    if in_section {
        Wanted::SectionCode(v)
    } else {
        Wanted::Code(v)
    }
}

// After such a value.
fn apart(in_section: bool, level: Option<u8>, b: Body) -> Body
    ensures { result ≡ (rule.apart in_section level b).body }
{
    match level {
        Some(v) => goes(b, later_of(in_section, v)),
        None => breaks(b),
    }
}

// The level of a value whose code is the next word, by its first byte.
fn apart_level(first: u8, rest: &[u8]) -> Option<u8>
    ensures { result ≡ rule.apart_level first rest.now }
{
    match first {
        b'B' | b'b' => vector_level(rest),
        b'R' | b'r' => is_real(rest).then_some(UNKNOWN),
        _ => None,
    }
}

// A value change.
fn value_plan(in_section: bool, word: &[u8], b: Body) -> Plan
    ensures { Plans result word.now b (λ codes. rule.value_word codes in_section word.now b) }
{
    let [first, rest @ ..] = word else {
        return Plan::Only(breaks(b));
    };
    match level(*first) {
        Some(level) => Plan::Change {
            level,
            from: 1,
            next: next_of(in_section),
        },
        None => Plan::Only(apart(in_section, apart_level(*first, rest), b)),
    }
}

// A time, which does not go back.
fn timed_at(at: u64, b: Body) -> Body
    ensures { result ≡ (rule.timed (Some at) b).body }
{
    if at < b.now {
        return breaks(b);
    }
    Body {
        wanted: Wanted::Command,
        now: at,
        ..b
    }
}

fn timed(t: Option<u64>, b: Body) -> Body
    ensures { result ≡ (rule.timed t b).body }
{
    match t {
        Some(at) => timed_at(at, b),
        None => breaks(b),
    }
}

// A keyword.
#[tactic(auto, unfolding(crate::specs::Simulation::key_word))]
fn key_word(word: &[u8], b: Body) -> Body
    ensures { result ≡ (rule.key_word word.now b).body }
{
    if same(word, b"$comment") {
        goes(b, Wanted::Text)
    } else if is_one_of(b"$dumpall $dumpoff $dumpon $dumpvars", word) {
        goes(b, Wanted::Section)
    } else {
        breaks(b)
    }
}

// A word of a comment.
fn text_word(word: &[u8], b: Body) -> Body
    ensures { result ≡ (rule.text_word word.now b).body }
{
    if is_end(word) {
        goes(b, Wanted::Command)
    } else {
        goes(b, Wanted::Text)
    }
}

// A time or a keyword; none where the word begins as neither does.
fn time_or_keyword(word: &[u8], b: Body) -> Option<Body>
    ensures { Settles result (λ codes. rule.value_word codes false word.now b) (λ codes. rule.command_word codes word.now b) }
{
    let [first, rest @ ..] = word else {
        return None;
    };
    match *first {
        b'#' => Some(timed(time(rest), b)),
        b'$' => Some(key_word(word, b)),
        _ => None,
    }
}

// Whether a value change of a section, or its end, may come next.
fn is_section(wanted: Wanted) -> bool
    ensures { result ≡ is_section wanted }
{
    matches!(wanted, Wanted::Section)
}

// In a section its end, outside of one a time or a keyword; none for any other word.
fn end_time_or_keyword(in_section: bool, word: &[u8], b: Body) -> Option<Body>
    ensures { Settles result (λ codes. rule.value_word codes in_section word.now b)
        (λ codes. command_or_section codes in_section word.now b) }
{
    if in_section {
        is_end(word).then_some(goes(b, Wanted::Command))
    } else {
        time_or_keyword(word, b)
    }
}

// A word where a value change may stand, in a section or outside of one. One place for both: on a dump
// where every other word is a value change, `feed` took a quarter more time with two.
fn command_or_section_plan(in_section: bool, word: &[u8], b: Body) -> Plan
    ensures { Plans result word.now b (λ codes. command_or_section codes in_section word.now b) }
{
    match end_time_or_keyword(in_section, word, b) {
        Some(body) => Plan::Only(body),
        None => value_plan(in_section, word, b),
    }
}

// By what may come next.
fn plan_of(word: &[u8], b: Body) -> Plan
    ensures { Plans result word.now b (λ codes. rule.word_done codes word.now b) }
{
    match b.wanted {
        Wanted::Command | Wanted::Section => command_or_section_plan(is_section(b.wanted), word, b),
        Wanted::Text => Plan::Only(text_word(word, b)),
        Wanted::Code(level) => Plan::Change {
            level,
            from: 0,
            next: Wanted::Command,
        },
        Wanted::SectionCode(level) => Plan::Change {
            level,
            from: 0,
            next: Wanted::Section,
        },
        Wanted::Broken => Plan::Only(breaks(b)),
    }
}

// A word.
pub(crate) fn word_done(
    head: &[u8],
    h: Head,
    word: &[u8],
    b: Body,
    out: &mut [u8],
    held: usize,
) -> Stepped
    requires { held + 20 ≤ length out.old }
    ensures { Steps (rule.word_done (codes_by head.now h) word.now b)
        held result out.old out.new }
{
    match plan_of(word, b) {
        Plan::Change { level, from, next } => {
            code_word(head, h, next, &word[from..], level, b, out, held)
        }
        Plan::Only(body) => Stepped { body, held },
    }
}
