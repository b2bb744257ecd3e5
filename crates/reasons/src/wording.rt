// A refusal in words: `refused 8: broken capture`, and why, `: 12 bytes, at least 320`. No newline.
ghost use Rattle.std.specs.Prelude.{◌≡◌, ◌++◌};
ghost use Rattle.text.specs.Text.{put};
ghost use Rattle.reasons.specs.Groups.{grouped};
ghost use Rattle.reasons.specs.Wording as rule;

use crate::causes::Reason;
use crate::finding::{EVENT, RATED_TAIL, TAIL};
use crate::groups;
use text::Text;

// What a refusal is called, behind a colon. The number is the file's or the library's, so it may be any.
#[tactic(auto, using(text::proofs::Filling::puts, crate::proofs::NameLaws::unnamed), unfolding(crate::specs::Wording::name_of))]
fn name(text: &mut Text<'_>, number: u8)
    ensures { text.new ≡ put (rule.name_of number) text.old }
{
    match number {
        1 => text.put(b": empty panel"),
        2 => text.put(b": oversized panel"),
        3 => text.put(b": swing"),
        4 => text.put(b": frame period"),
        5 => text.put(b": buffer length"),
        6 => text.put(b": foreign record"),
        7 => text.put(b": foreign contents"),
        8 => text.put(b": broken capture"),
        9 => text.put(b": bad event"),
        10 => text.put(b": too many pixels"),
        11 => text.put(b": malformed dump"),
        12 => text.put(b": signals"),
        13 => text.put(b": rate out of range"),
        _ => {}
    }
}

// A refusal, by its number.
#[tactic(auto, using(text::proofs::Filling::puts), unfolding(crate::specs::Wording::words_of))]
pub fn words(text: &mut Text<'_>, number: u8)
    ensures { text.new ≡ put (rule.words_of number) text.old }
{
    text.put(b"refused ");
    text.decimal(number as u64);
    name(text, number);
}

// A number between two texts.
fn between(text: &mut Text<'_>, before: &[u8], x: u64, behind: &[u8])
    ensures { text.new ≡ put (before.now ++ grouped x ++ behind.now) text.old }
{
    text.put(before);
    groups::grouped(text, x);
    text.put(behind);
}

fn offset_words(text: &mut Text<'_>, offset: u32, count: u32)
    ensures { text.new ≡ put (rule.offset_words offset count) text.old }
{
    between(text, b": offset ", offset as u64, b" for ");
    groups::grouped(text, count as u64);
    text.put(b" events, not ");
    groups::grouped(text, EVENT * count as u64);
}

fn length_words(text: &mut Text<'_>, bytes: u64, offset: u32)
    ensures { text.new ≡ put (rule.length_words bytes offset) text.old }
{
    between(text, b": ", bytes, b" bytes, not ");
    groups::grouped(text, offset as u64 + TAIL);
    text.put(b" or ");
    groups::grouped(text, offset as u64 + RATED_TAIL);
}

fn kind_words(text: &mut Text<'_>, event: u32, kind: u8)
    ensures { text.new ≡ put (rule.kind_words event kind) text.old }
{
    between(text, b": event ", event as u64, b": kind ");
    groups::grouped(text, kind as u64);
}

fn value_words(text: &mut Text<'_>, event: u32, kind: u8, value: u8)
    ensures { text.new ≡ put (rule.value_words event kind value) text.old }
{
    kind_words(text, event, kind);
    text.put(b", value ");
    groups::grouped(text, value as u64);
}

// Why a configuration of so many bytes is none, to stand behind `words`.
pub fn config_length(text: &mut Text<'_>, bytes: u64)
    ensures { text.new ≡ put (rule.config_length bytes) text.old }
{
    between(text, b": ", bytes, b" bytes, a configuration has 312");
}

// Why a file is refused, if it is for 8 or 9, to stand behind `words`.
pub fn because(text: &mut Text<'_>, r: Option<Reason>)
    ensures { text.new ≡ put (rule.because_of r) text.old }
{
    match r {
        Some(Reason::Short(bytes)) => between(text, b": ", bytes, b" bytes, at least 320"),
        Some(Reason::Long(bytes)) => between(text, b": ", bytes, b" bytes, at most 65,536"),
        Some(Reason::Offset { offset, count }) => offset_words(text, offset, count),
        Some(Reason::Length { bytes, offset }) => length_words(text, bytes, offset),
        Some(Reason::Variant(v)) => between(text, b": variant ", v as u64, b", at most 1"),
        Some(Reason::Flags(f)) => between(text, b": flags ", f as u64, b", at most 15"),
        Some(Reason::Kind { event, kind }) => kind_words(text, event, kind),
        Some(Reason::Value { event, kind, value }) => value_words(text, event, kind, value),
        None => {}
    }
}
