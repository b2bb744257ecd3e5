// Whether a code is one that one of the five signals was declared with, the first time or again.
ghost use Rattle.std.specs.Prelude.{◌≡◌, length};
ghost use Rattle.vcd_words.specs.Words.{words, among};
ghost use Rattle.vcd_words.specs.Places.{part};
ghost use Rattle.vcd_declarations.specs.Codes.{Within};
ghost use Rattle.vcd_declarations.specs.Declarations as rule;
ghost use Rattle.vcd_declarations.specs.Begun.{all_by};
ghost use Rattle.vcd_declarations.specs.InnerDeclared.{declares_code};

use crate::codes::is_placed;
use crate::commands::{Keyword, begins, is_last, sorted};
use crate::head::{Head, find_end};
use crate::variable::{Variable, varied};
use vcd_words::{next_word, same};

// A variable with these words is one of the five, with that code.
fn has_code(k: Keyword, text: &[u8], code: &[u8]) -> bool
    ensures { result ≡ declares_code k (words text.now) code.now }
{
    if !matches!(k, Keyword::Var) {
        return false;
    }
    match varied(text) {
        Some(Variable::Of { code: place, .. }) => same(code, &text[place.from..place.to]),
        _ => false,
    }
}

// By all declarations.
fn is_declared(bytes: &[u8], code: &[u8]) -> bool
    ensures { result ≡ among (rule.head_of (words bytes.now)).all code.now }
{
    let mut at = 0;
    // A step is a declaration long: no plainer by an iterator, which would walk it twice.
    while at < bytes.len() {
        let w = next_word(bytes, at);
        let k = sorted(&bytes[w.from..w.to]);
        if !begins(k) {
            return false;
        }
        let end = find_end(bytes, w.to);
        if end.is_empty() {
            return false;
        }
        if has_code(k, &bytes[w.to..end.from], code) {
            return true;
        }
        at = end.to;
        if is_last(k) {
            return false;
        }
    }
    false
}

// By the places of a head; where it has not all of them, by the declarations.
#[tactic(auto, unfolding(crate::specs::Begun::all_by))]
pub fn is_known(bytes: &[u8], h: Head, code: &[u8]) -> bool
    ensures { result ≡ among (all_by bytes.now h) code.now }
{
    if h.further.full {
        is_declared(bytes, code)
    } else {
        is_placed(bytes, h.codes, h.further, code)
    }
}
