// The declaration of a variable.
ghost use Rattle.std.specs.Prelude.{◌≡◌, length};
ghost use Rattle.vcd_words.specs.Words.{words};
ghost use Rattle.vcd_declarations.specs.Codes.{Within};
ghost use Rattle.vcd_declarations.specs.Declarations as rule;
ghost use Rattle.vcd_declarations.specs.InnerVariable.{Varies, Refers};

use vcd_values::{Name, Pin, Width, signal, size};
use vcd_words::{Span, is_one_of, next_word, printable};

// One of the five signals, whether it is wider than a bit, and where its code lies; or another one.
#[derive(Clone, Copy)]
pub(crate) enum Variable {
    Of { pin: Pin, wide: bool, code: Span },
    Other,
}

#[tactic(auto, unfolding(crate::specs::Declarations::is_var_type))]
fn is_var_type(word: &[u8]) -> bool
    ensures { result ≡ rule.is_var_type word.now }
{
    is_one_of(
        b"event integer parameter real realtime reg supply0 supply1 time tri triand trior trireg tri0 tri1 wand wire wor",
        word,
    )
}

// A size, a code and a reference, which reaches to the end; none where it is broken.
fn sized(text: &[u8], size: Option<Width>, code: Span, name: Span) -> Option<Variable>
    requires within { Within code (length text.now) }
    requires within_2 { Within name (length text.now) }
    ensures { Refers text.now size code name.from name.to result }
{
    let width = size?;
    if !printable(&text[code.from..code.to]) || !printable(&text[name.from..name.to]) {
        return None;
    }
    let wide = matches!(width, Width::Wide);
    match signal(&text[name.from..name.to], &text[name.to..])? {
        Name::Of(pin) => Some(Variable::Of { pin, wide, code }),
        Name::Other => Some(Variable::Other),
    }
}

// A type, a size, a code and a reference.
#[tactic(auto, using(vcd_words::proofs::SpanLaws::span_ordered, vcd_words::proofs::SpanLaws::span_inside))]
pub(crate) fn varied(text: &[u8]) -> Option<Variable>
    ensures { Varies text.now result }
{
    let t = next_word(text, 0);
    let n = next_word(text, t.to);
    let c = next_word(text, n.to);
    let r = next_word(text, c.to);
    // Behind the last word each is empty.
    if r.is_empty() {
        return None;
    }
    if !is_var_type(&text[t.from..t.to]) {
        return None;
    }
    sized(text, size(&text[n.from..n.to]), c, r)
}
