//! The name of an event as text.

ghost use Rattle.std.specs.Prelude.{◌≡◌, ◌++◌, ◌∷◌, [], ℕ, List, length, min};
ghost use Rattle.perf_sections.specs.Names as texts;
ghost use Rattle.perf_outlines.specs.FlatNames as names;

use perf_text::strip::Strip;

// Writes a byte after what was written, if there is room, and returns where that ends.
fn put_byte(byte: u8, at: usize, out: &mut [u8]) -> usize
    ensures { (done old : List ℕ) → out.old ≡ names.over done old →
        at ≡ min (length done) (length old) → (out.new ≡ names.over (done ++ byte ∷ []) old)
        × (result ≡ min (length (done ++ byte ∷ [])) (length old)) }
{
    if at < out.len() {
        out[at] = byte;
        at + 1
    } else {
        at
    }
}

// Writes a text after what was written, as far as there is room, and returns where it ends.
fn put(text: &[u8], start: usize, out: &mut [u8]) -> usize
    ensures { (done old : List ℕ) → out.old ≡ names.over done old →
        start ≡ min (length done) (length old) → (out.new ≡ names.over (done ++ text.now) old)
        × (result ≡ min (length (done ++ text.now)) (length old)) }
{
    let mut at = start;
    for byte in text {
        at = put_byte(*byte, at, out);
    }
    at
}

// Writes a byte of a name as it is printed.
fn put_escaped(byte: u8, start: usize, out: &mut [u8]) -> usize
    ensures { (done old : List ℕ) → out.old ≡ names.over done old →
        start ≡ min (length done) (length old) →
        (out.new ≡ names.over (done ++ texts.escaped byte) old)
        × (result ≡ min (length (done ++ texts.escaped byte)) (length old)) }
{
    if 32 <= byte && byte <= 126 && byte != 92 {
        return put(&[byte], start, out);
    }
    let mut strip = Strip::new();
    strip.put_hex_byte(byte);
    strip.put("\\x");
    put(strip.text().as_bytes(), start, out)
}

/// Writes the bytes of a name as they are printed.
pub fn put_bytes(name: &[u8], out: &mut [u8]) -> usize
    ensures text { out.new ≡ names.over (texts.name_text (texts.described name.now)) out.old }
    ensures count { result ≡
        min (length (texts.name_text (texts.described name.now))) (length out.old) }
{
    let mut at = 0;
    for byte in name {
        at = put_escaped(*byte, at, out);
    }
    at
}

/// Writes a text.
pub fn put_text(text: &str, out: &mut [u8]) -> usize
    ensures text { out.new ≡ names.over text.now out.old }
    ensures count { result ≡ min (length text.now) (length out.old) }
{
    put(text.as_bytes(), 0, out)
}

/// Writes the numbers of an event that has no name.
pub fn put_numbers(ty: u32, config: u64, out: &mut [u8]) -> usize
    ensures text { out.new ≡ names.over (texts.name_text (texts.numbers ty config)) out.old }
    ensures count { result ≡
        min (length (texts.name_text (texts.numbers ty config))) (length out.old) }
{
    let mut strip = Strip::new();
    strip.put_hex(config);
    strip.put(" config ");
    strip.put_number(u64::from(ty));
    strip.put("type ");
    put_text(strip.text(), out)
}
