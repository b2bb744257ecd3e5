// The declaration commands but `$var`: their keywords, and what each of them may hold.
ghost use Rattle.std.specs.Prelude.{◌≡◌};
ghost use Rattle.vcd_words.specs.Words.{words};
ghost use Rattle.vcd_declarations.specs.Declarations as rule;

use vcd_words::{first_word, is_one_of, printable, same};

#[derive(Clone, Copy)]
pub(crate) enum Keyword {
    // `$comment`, `$date`, `$version`
    Text,
    Timescale,
    Scope,
    Upscope,
    Var,
    EndDefinitions,
    // No declaration begins with it.
    Other,
}

#[tactic(auto, unfolding(crate::specs::Declarations::is_end))]
pub fn is_end(word: &[u8]) -> bool
    ensures { result ≡ rule.is_end word.now }
{
    same(word, b"$end")
}

#[tactic(auto, unfolding(crate::specs::Declarations::keyword_of))]
pub(crate) fn sorted(word: &[u8]) -> Keyword
    ensures { result ≡ rule.keyword_of word.now }
{
    if is_one_of(b"$comment $date $version", word) {
        Keyword::Text
    } else if same(word, b"$timescale") {
        Keyword::Timescale
    } else if same(word, b"$scope") {
        Keyword::Scope
    } else if same(word, b"$upscope") {
        Keyword::Upscope
    } else if same(word, b"$var") {
        Keyword::Var
    } else if same(word, b"$enddefinitions") {
        Keyword::EndDefinitions
    } else {
        Keyword::Other
    }
}

pub(crate) fn begins(k: Keyword) -> bool
    ensures { result ≡ rule.begins k }
{
    !matches!(k, Keyword::Other)
}

pub(crate) fn is_last(k: Keyword) -> bool
    ensures { result ≡ rule.is_last k }
{
    matches!(k, Keyword::EndDefinitions)
}

// No word at all.
pub(crate) fn is_bare(text: &[u8]) -> bool
    ensures { result ≡ rule.is_bare (words text.now) }
{
    first_word(text).is_none()
}

// 1 ns.
#[tactic(auto, unfolding(crate::specs::Declarations::is_nano))]
pub(crate) fn is_nano(text: &[u8]) -> bool
    ensures { result ≡ rule.is_nano (words text.now) }
{
    let Some((number, rest)) = first_word(text) else {
        return false;
    };
    let Some((unit, rest)) = first_word(rest) else {
        return same(number, b"1ns");
    };
    is_bare(rest) && same(number, b"1") && same(unit, b"ns")
}

#[tactic(auto, unfolding(crate::specs::Declarations::is_scope_type))]
fn is_scope_type(word: &[u8]) -> bool
    ensures { result ≡ rule.is_scope_type word.now }
{
    is_one_of(b"begin fork function module task", word)
}

// A type and a name.
#[tactic(auto, unfolding(crate::specs::Declarations::is_scope))]
pub(crate) fn is_scope(text: &[u8]) -> bool
    ensures { result ≡ rule.is_scope (words text.now) }
{
    let Some((kind, rest)) = first_word(text) else {
        return false;
    };
    let Some((name, rest)) = first_word(rest) else {
        return false;
    };
    is_bare(rest) && is_scope_type(kind) && printable(name)
}
