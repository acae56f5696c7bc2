//! The name in a line about a task.

ghost use Rattle.std.specs.Prelude.{◌≡◌, ◌++◌, ◌&&◌, string_bytes, OnOk};
ghost use Rattle.std.specs.Char.{is_ascii};
ghost use Rattle.std.specs.List.{flat_map, list_all};
ghost use Rattle.perf_reports.specs.TaskLines as printed;

use perf_text::strip::Strip;
use std::alloc::AllocError;

// Appends the bytes of a name as text. Each byte of a control character or a backslash, and each
// byte that is not part of UTF-8, is escaped.
pub(crate) fn push_name(text: &mut String, bytes: &[u8]) -> Result<(), AllocError>
    ensures { OnOk result (string_bytes text.new
        ≡ string_bytes text.old ++ printed.escape_name bytes.now) }
{
    if is_plain(bytes) {
        if let Ok(name) = str::from_utf8(bytes) {
            return text.push_str(name);
        }
    }
    for chunk in bytes.utf8_chunks() {
        push_text(text, chunk.valid())?;
        push_escaped(text, chunk.invalid())?;
    }
    Ok(())
}

// Whether each byte is ASCII and stays as it is. Unlike `push_text`, this decodes no character.
fn is_plain(bytes: &[u8]) -> bool
    ensures { result ≡ list_all (λ byte. is_ascii byte && printed.stays byte) bytes.now }
{
    bytes
        .iter()
        .all(|byte| byte.is_ascii() && stays(char::from(*byte)))
}

// Appends text, in one piece if nothing in it has to be escaped.
fn push_text(text: &mut String, part: &str) -> Result<(), AllocError>
    ensures { OnOk result (string_bytes text.new
        ≡ string_bytes text.old ++ printed.escaped_text part.now) }
{
    if part.chars().all(stays) {
        return text.push_str(part);
    }
    for character in part.chars() {
        push_char(text, character)?;
    }
    Ok(())
}

// Whether a character stays as it is: it is neither a control character nor a backslash.
#[inline]
fn stays(character: char) -> bool
    ensures { result ≡ printed.stays character }
{
    let code = u32::from(character);
    32 <= code && code != 92 && !(127 <= code && code < 160)
}

// Appends a character, or each of its bytes escaped.
fn push_char(text: &mut String, character: char) -> Result<(), AllocError>
    ensures { OnOk result (string_bytes text.new
        ≡ string_bytes text.old ++ printed.escaped_char character) }
{
    if stays(character) {
        return text.push(character);
    }
    push_escaped(text, character.encode_utf8(&mut [0; 4]).as_bytes())
}

// Appends bytes, each of them escaped.
fn push_escaped(text: &mut String, bytes: &[u8]) -> Result<(), AllocError>
    ensures { OnOk result (string_bytes text.new
        ≡ string_bytes text.old ++ flat_map printed.escaped_byte bytes.now) }
{
    for byte in bytes {
        push_escape(text, *byte)?;
    }
    Ok(())
}

// Appends `\x` and the two digits of a byte.
fn push_escape(text: &mut String, byte: u8) -> Result<(), AllocError>
    ensures { OnOk result (string_bytes text.new
        ≡ string_bytes text.old ++ printed.escaped_byte byte) }
{
    let mut strip = Strip::new();
    strip.put_hex_byte(byte);
    strip.put("\\x");
    text.push_str(strip.text())
}
