//! The text of a flame graph.

ghost use Rattle.std.specs.Prelude.{◌≡◌, ◌+◌, ◌<◌, ◌≤◌, ◌^◌, ◌++◌, IfOk, OnOk, map};
ghost use Rattle.perf_text.specs.Strips.{strip_text, room_of};
ghost use Rattle.perf_flame.specs.BoxViews.{box_view};
ghost use Rattle.perf_flame.specs.Svg as svg;

use crate::boxes::FlameBox;
use perf_text::strip::Strip;
use std::alloc::{AllocError, Global};

// The number of letters that are worth a label.
const FEWEST_LETTERS: usize = 3;

// The numbers of the hash FNV-1.
const HASH_START: u32 = 2166136261;

const HASH_STEP: u32 = 16777619;

/// The text of boxes, whose stacks have that total.
pub(crate) fn text_of(
    alloc: Global,
    boxes: &[FlameBox<'_>],
    total: u64,
) -> Result<Vec<u8>, AllocError>
    ensures { IfOk result (λ text. text.items ≡ svg.boxes_text total (map box_view boxes.now)) }
{
    let deepest = deepest_of(boxes);
    let mut text = Vec::new(alloc);
    push_head(&mut text, row(deepest).saturating_add(16))?;
    for one in boxes {
        push_box(&mut text, alloc, total, deepest, one)?;
    }
    text.extend_from_slice(b"</svg>\n")?;
    Ok(text)
}

// The depth of the deepest box.
fn deepest_of(boxes: &[FlameBox<'_>]) -> usize
    ensures { result ≡ svg.deepest_of (map box_view boxes.now) }
{
    let mut most = 0;
    for one in boxes {
        most = most.max(one.depth);
    }
    most
}

// Appends the beginning of the text.
fn push_head(text: &mut Vec<u8>, height: u64) -> Result<(), AllocError>
    ensures { OnOk result (text.new.items ≡ text.old.items ++ svg.head_text height) }
{
    let mut strip = Strip::new();
    strip.put("\" font-family=\"monospace\" font-size=\"12\">\n");
    strip.put_number(height);
    strip.put("\" viewBox=\"0 0 1200 ");
    strip.put_number(height);
    strip.put("<svg xmlns=\"http://www.w3.org/2000/svg\" width=\"1200\" height=\"");
    text.extend_from_slice(strip.text().as_bytes())
}

// Appends a box.
#[tactic(auto, unfolding(crate::specs::Svg::box_text))]
fn push_box(
    text: &mut Vec<u8>,
    alloc: Global,
    total: u64,
    deepest: usize,
    one: &FlameBox<'_>,
) -> Result<(), AllocError>
    ensures { OnOk result (text.new.items
        ≡ text.old.items ++ svg.box_text total deepest (box_view one.now)) }
{
    let x = edge(total, u128::from(one.left));
    let end = edge(total, u128::from(one.left) + u128::from(one.worth));
    let width = end.saturating_sub(x);
    let y = row(deepest.saturating_sub(one.depth));
    let name = shown(alloc, one.name)?;
    push_title(text, &name, one.worth, percent(total, one.worth))?;
    push_place(text, x, y, width)?;
    push_fill(text, hash(one.name))?;
    push_label(text, x, y, width, &name)?;
    text.extend_from_slice(b"</g>\n")
}

// Where a count ends among all, in thousandths of a pixel.
fn edge(total: u64, count: u128) -> u64
    requires { count < 2 ^ 65 }
    ensures { result ≡ svg.edge total count }
{
    let parts = count * 1_200_000 / u128::from(total.max(1));
    parts.min(1_200_000) as u64
}

// What part of all a count is, in hundredths of a percent.
fn percent(total: u64, count: u64) -> u64
    ensures { result ≡ svg.percent total count }
{
    let parts = u128::from(count) * 10_000 / u128::from(total.max(1));
    parts.min(10_000) as u64
}

// The upper edge of so many frames, in pixels.
fn row(frames: usize) -> u64
    ensures { result ≡ svg.row frames }
{
    (frames as u64).saturating_mul(16)
}

// A number that a name determines.
fn hash(name: &[u8]) -> u32
    ensures { result ≡ svg.hash name.now }
{
    let mut found = HASH_START;
    for byte in name {
        found = found.wrapping_add(u32::from(*byte)).wrapping_mul(HASH_STEP);
    }
    found
}

// A name in ASCII.
fn shown(alloc: Global, name: &[u8]) -> Result<Vec<u8>, AllocError>
    ensures { IfOk result (λ text. text.items ≡ svg.shown name.now) }
{
    let mut text = Vec::with_capacity(alloc, name.len())?;
    for byte in name {
        push_shown(&mut text, *byte)?;
    }
    Ok(text)
}

// Appends a byte of a name in ASCII.
fn push_shown(text: &mut Vec<u8>, byte: u8) -> Result<(), AllocError>
    ensures { OnOk result (text.new.items ≡ text.old.items ++ svg.shown_byte byte) }
{
    if byte < 0x80 {
        text.push(byte)?;
        return Ok(());
    }
    let mut strip = Strip::new();
    strip.put_hex_byte(byte);
    strip.put("\\x");
    text.extend_from_slice(strip.text().as_bytes())
}

// Appends a text, as XML writes it.
fn push_escaped(text: &mut Vec<u8>, bytes: &[u8]) -> Result<(), AllocError>
    ensures { OnOk result (text.new.items ≡ text.old.items ++ svg.escaped bytes.now) }
{
    for byte in bytes {
        push_escaped_byte(text, *byte)?;
    }
    Ok(())
}

// Appends a byte, as XML writes it.
fn push_escaped_byte(text: &mut Vec<u8>, byte: u8) -> Result<(), AllocError>
    ensures { OnOk result (text.new.items ≡ text.old.items ++ svg.escaped_byte byte) }
{
    match byte {
        b'&' => text.extend_from_slice(b"&amp;"),
        b'<' => text.extend_from_slice(b"&lt;"),
        b'>' => text.extend_from_slice(b"&gt;"),
        b'"' => text.extend_from_slice(b"&quot;"),
        _ => {
            text.push(byte)?;
            Ok(())
        }
    }
}

// Appends the title of a box, whose name is in ASCII.
fn push_title(text: &mut Vec<u8>, name: &[u8], worth: u64, percent: u64) -> Result<(), AllocError>
    ensures { OnOk result (text.new.items
        ≡ text.old.items ++ svg.title_of name.now worth percent) }
{
    let mut strip = Strip::new();
    strip.put("%)</title>");
    put_hundredths(&mut strip, percent);
    strip.put(", ");
    strip.put_number(worth);
    strip.put(" (");
    text.extend_from_slice(b"<g><title>")?;
    push_escaped(text, name)?;
    text.extend_from_slice(strip.text().as_bytes())
}

// Appends where a box is.
fn push_place(text: &mut Vec<u8>, x: u64, y: u64, width: u64) -> Result<(), AllocError>
    ensures { OnOk result (text.new.items ≡ text.old.items ++ svg.place_text x y width) }
{
    let mut strip = Strip::new();
    strip.put("\" height=\"15\"");
    put_thousandths(&mut strip, width);
    strip.put("\" width=\"");
    strip.put_number(y);
    strip.put("\" y=\"");
    put_thousandths(&mut strip, x);
    strip.put("<rect x=\"");
    text.extend_from_slice(strip.text().as_bytes())
}

// Appends the colour of a box.
fn push_fill(text: &mut Vec<u8>, hash: u32) -> Result<(), AllocError>
    ensures { OnOk result (text.new.items ≡ text.old.items ++ svg.fill_text hash) }
{
    let mut strip = Strip::new();
    strip.put(")\"/>");
    strip.put_number(u64::from(hash / 11781 % 56));
    strip.put(",");
    strip.put_number(u64::from(hash / 51 % 231));
    strip.put(",");
    strip.put_number(u64::from(hash % 51 + 205));
    strip.put(" fill=\"rgb(");
    text.extend_from_slice(strip.text().as_bytes())
}

// Appends as much of a name in ASCII as fits a box, if three letters do.
fn push_label(text: &mut Vec<u8>, x: u64, y: u64, width: u64, name: &[u8]) -> Result<(), AllocError>
    ensures { OnOk result (text.new.items ≡ text.old.items ++ svg.label_of x y width name.now) }
{
    let letters = (width.saturating_sub(4000) / 7250) as usize;
    if letters < FEWEST_LETTERS {
        return Ok(());
    }
    push_letters(text, x, y, &name[..letters.min(name.len())])
}

// Appends a label.
fn push_letters(text: &mut Vec<u8>, x: u64, y: u64, label: &[u8]) -> Result<(), AllocError>
    ensures { OnOk result (text.new.items ≡ text.old.items ++ svg.label_text x y label.now) }
{
    let mut strip = Strip::new();
    strip.put("\" dx=\"2\" dy=\"12\">");
    strip.put_number(y);
    strip.put("\" y=\"");
    put_thousandths(&mut strip, x);
    strip.put("<text x=\"");
    text.extend_from_slice(strip.text().as_bytes())?;
    push_escaped(text, label)?;
    text.extend_from_slice(b"</text>")
}

// Writes a number of thousandths before a text.
#[tactic(auto, unfolding(crate::specs::Svg::thousandths))]
fn put_thousandths(strip: &mut Strip, number: u64)
    requires { 81 ≤ room_of strip.old }
    ensures text { strip_text strip.new ≡ svg.thousandths number ++ strip_text strip.old }
    ensures room { room_of strip.old ≤ room_of strip.new + 81 }
{
    strip.put_number(number % 10);
    strip.put_number(number / 10 % 10);
    strip.put_number(number / 100 % 10);
    strip.put(".");
    strip.put_number(number / 1000);
}

// Writes a number of hundredths before a text.
#[tactic(auto, unfolding(crate::specs::Svg::hundredths))]
fn put_hundredths(strip: &mut Strip, number: u64)
    requires { 61 ≤ room_of strip.old }
    ensures text { strip_text strip.new ≡ svg.hundredths number ++ strip_text strip.old }
    ensures room { room_of strip.old ≤ room_of strip.new + 61 }
{
    strip.put_number(number % 10);
    strip.put_number(number / 10 % 10);
    strip.put(".");
    strip.put_number(number / 100);
}
