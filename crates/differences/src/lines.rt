// The lines of a comparison.
ghost use Rattle.std.specs.Prelude.{◌≡◌, ◌/◌, ◌%◌, get_or};
ghost use Rattle.text.specs.Text.{put};
ghost use Rattle.differences.specs.Lines as rule;

use crate::distances::Spread;
use crate::sides::{event_sides, row_sides};
use text::Text;

// `event 17: command 18 at 100, data 18 at 100`
#[tactic(auto, using(text::proofs::Filling::puts), unfolding(crate::specs::Lines::event_line))]
pub(crate) fn event_line(text: &mut Text<'_>, a: &[u8], b: &[u8], i: usize)
    ensures { text.new ≡ put (rule.event_line a.now b.now i) text.old }
{
    text.put(b"event ");
    text.decimal(i as u64);
    text.put(b": ");
    event_sides(text, a, b, i);
    text.byte(b'\n');
}

// `row 3: 100 13 34 6 0, 100 5 34 6 0`
#[tactic(auto, using(text::proofs::Filling::puts), unfolding(crate::specs::Lines::row_line))]
pub(crate) fn row_line(text: &mut Text<'_>, a: &[u64], b: &[u64], i: usize)
    ensures { text.new ≡ put (rule.row_line a.now b.now i) text.old }
{
    text.put(b"row ");
    text.decimal(i as u64);
    text.put(b": ");
    row_sides(text, a, b, i);
    text.byte(b'\n');
}

// Entry k; 0 past the last.
fn entry(l: &[u8], k: usize) -> u64
    ensures { result ≡ get_or l.now k 0 }
{
    if k < l.len() {
        return l[k] as u64;
    }
    0
}

// `128, 0`
fn pair(text: &mut Text<'_>, a: &[u8], b: &[u8], k: usize)
    ensures { text.new ≡ put (rule.pair a.now b.now k) text.old }
{
    text.decimal(entry(a, k));
    text.put(b", ");
    text.decimal(entry(b, k));
}

// The column and the row of pixel k.
fn column(k: usize, width: u16) -> u64
    ensures { result ≡ k % width }
{
    if width == 0 {
        return k as u64;
    }
    k as u64 % width as u64
}

fn row(k: usize, width: u16) -> u64
    ensures { result ≡ k / width }
{
    if width == 0 {
        return 0;
    }
    k as u64 / width as u64
}

// `pixel 5 2: 128, 0`
#[tactic(auto, using(text::proofs::Filling::puts), unfolding(crate::specs::Lines::pixel_line))]
pub(crate) fn pixel_line(text: &mut Text<'_>, width: u16, a: &[u8], b: &[u8], k: usize)
    ensures { text.new ≡ put (rule.pixel_line width a.now b.now k) text.old }
{
    text.put(b"pixel");
    text.number(column(k, width));
    text.number(row(k, width));
    text.put(b": ");
    pair(text, a, b, k);
    text.byte(b'\n');
}

// `configuration byte 6: 0, 255`
#[tactic(auto, using(text::proofs::Filling::puts), unfolding(crate::specs::Lines::config_line))]
pub(crate) fn config_line(text: &mut Text<'_>, a: &[u8], b: &[u8], k: usize)
    ensures { text.new ≡ put (rule.config_line a.now b.now k) text.old }
{
    text.put(b"configuration byte");
    text.number(k as u64);
    text.put(b": ");
    pair(text, a, b, k);
    text.byte(b'\n');
}

// `configuration rate: 1000000000, 32768`
#[tactic(auto, using(text::proofs::Filling::puts), unfolding(crate::specs::Lines::rate_line))]
pub(crate) fn rate_line(text: &mut Text<'_>, a: u64, b: u64)
    ensures { text.new ≡ put (rule.rate_line a b) text.old }
{
    text.put(b"configuration rate:");
    text.number(a);
    text.put(b",");
    text.number(b);
    text.byte(b'\n');
}

// `8 by 1`
fn size(text: &mut Text<'_>, width: u16, height: u16)
    ensures { text.new ≡ put (rule.size_words width height) text.old }
{
    text.decimal(width as u64);
    text.put(b" by");
    text.number(height as u64);
}

// `panels of 8 by 1 and 16 by 1: pixels not compared`
#[tactic(auto, using(text::proofs::Filling::puts), unfolding(crate::specs::Lines::sizes_line))]
pub(crate) fn sizes_line(
    text: &mut Text<'_>,
    width_a: u16,
    height_a: u16,
    width_b: u16,
    height_b: u16,
)
    ensures { text.new ≡ put (rule.sizes_line width_a height_a width_b height_b) text.old }
{
    text.put(b"panels of ");
    size(text, width_a, height_a);
    text.put(b" and ");
    size(text, width_b, height_b);
    text.put(b": pixels not compared\n");
}

// By how much, where some differ.
fn by_most(text: &mut Text<'_>, d: Spread)
    ensures { text.new ≡ put (rule.by_most d) text.old }
{
    if d.count != 0 {
        text.put(b", by at most");
        text.number(d.most);
    }
    text.byte(b'\n');
}

// `5 of 8 pixels differ, by at most 128`
#[tactic(auto, using(text::proofs::Filling::puts), unfolding(crate::specs::Lines::pixels_line))]
pub(crate) fn pixels_line(text: &mut Text<'_>, d: Spread, pixels: u64)
    ensures { text.new ≡ put (rule.pixels_line d pixels) text.old }
{
    text.decimal(d.count);
    text.put(b" of");
    text.number(pixels);
    text.put(b" pixels differ");
    by_most(text, d);
}

#[tactic(auto, using(text::proofs::Filling::puts), unfolding(crate::specs::Lines::agreement_line))]
pub fn agreement(text: &mut Text<'_>)
    ensures { text.new ≡ put rule.agreement_line text.old }
{
    text.put(b"the captures agree\n");
}

// `refused 8 NAME`
#[tactic(auto, using(text::proofs::Filling::puts), unfolding(crate::specs::Lines::refused_line))]
pub fn refused_line(text: &mut Text<'_>, no: u8, name: &[u8])
    ensures { text.new ≡ put (rule.refused_line no name.now) text.old }
{
    text.put(b"refused");
    text.number(no as u64);
    text.byte(b' ');
    text.put(name);
    text.byte(b'\n');
}
