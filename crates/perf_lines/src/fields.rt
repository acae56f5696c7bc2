//! The fields of a line.

ghost use Rattle.std.specs.Prelude.{◌≡◌, ◌*◌, ◌<◌, ◌≤◌, ◌++◌, length, take, decimal, string_bytes};
ghost use Rattle.std.specs.Prelude.{OnOk, option_map, codes, IsTrue, nat_le};
ghost use Rattle.std.specs.List.{flat_map, list_all};
ghost use Rattle.perf_lines.specs.Fields.{with_commas, present};
ghost use Rattle.perf_text.specs.Numbers.{hex_bytes};

use perf_text::hex_bytes::push_hex_bytes;
use perf_text::strip::{MOST_DIGITS, ROOM, Strip};
use std::alloc::AllocError;

// How many numbers fit a strip, each with a comma before it.
const ITEMS: usize = ROOM / (MOST_DIGITS + 1);

// The maximum length of a name, and of the text before a number.
const WORD: usize = 16;

// How many numbers fit a strip, each with a word before it, after a name.
const FIELDS: usize = (ROOM - WORD) / (MOST_DIGITS + WORD);

// Appends a name, and numbers, each after its own text.
pub(crate) fn push_fields(
    text: &mut String,
    name: &str,
    fields: &[(&str, u64)],
) -> Result<(), AllocError>
    requires name { length name.now ≤ WORD }
    requires words { IsTrue (list_all (λ field. nat_le (length field.0.now) WORD) fields.now) }
    requires count { length fields.now ≤ FIELDS }
    ensures { OnOk result (string_bytes text.new
        ≡ string_bytes text.old
        ++ (name.now ++ flat_map (λ field. field.0.now ++ decimal field.1) fields.now)) }
{
    let mut strip = Strip::new();
    let mut left = fields.len();
    while left > 0 {
        left -= 1;
        let (before, number) = &fields[left];
        strip.put_number(*number);
        strip.put(before);
    }
    strip.put(name);
    text.push_str(strip.text())
}

// Appends `before` and a number.
pub(crate) fn push_number(text: &mut String, before: &str, number: u64) -> Result<(), AllocError>
    ensures { OnOk result (string_bytes text.new
        ≡ string_bytes text.old ++ (before.now ++ decimal number)) }
{
    let mut buffer = itoa::Buffer::new();
    text.push_str(before)?;
    text.push_str(buffer.format(number))
}

// Appends `before` and a number, or nothing for `None`.
pub(crate) fn push_present(
    text: &mut String,
    before: &str,
    number: Option<u64>,
) -> Result<(), AllocError>
    ensures { OnOk result (string_bytes text.new
        ≡ string_bytes text.old ++ present (λ n. before.now ++ decimal n) number) }
{
    match number {
        Some(number) => push_number(text, before, number),
        None => Ok(()),
    }
}

// Appends those numbers that are present, each after its own text.
pub(crate) fn push_numbers(
    text: &mut String,
    numbers: &[(&str, Option<u64>)],
) -> Result<(), AllocError>
    requires words { IsTrue (list_all (λ field. nat_le (length field.0.now) WORD) numbers.now) }
    requires count { length numbers.now ≤ FIELDS }
    ensures { OnOk result (string_bytes text.new
        ≡ string_bytes text.old
        ++ flat_map (λ field. present (λ n. field.0.now ++ decimal n) field.1) numbers.now) }
{
    let mut left = numbers.len();
    while left > 0 && numbers[left - 1].1.is_none() {
        left -= 1;
    }
    if left == 0 {
        return Ok(());
    }
    let mut strip = Strip::new();
    while left > 0 {
        left -= 1;
        let (before, number) = &numbers[left];
        if let Some(number) = number {
            strip.put_number(*number);
            strip.put(before);
        }
    }
    text.push_str(strip.text())
}

// Appends `before` and a comma-separated list, or nothing for `None`.
pub(crate) fn push_list(
    text: &mut String,
    before: &str,
    numbers: Option<&[u64]>,
) -> Result<(), AllocError>
    ensures { OnOk result (string_bytes text.new
        ≡ string_bytes text.old
        ++ present (λ items. before.now ++ with_commas decimal items)
        (option_map (λ items. items.now) numbers.entry)) }
{
    match numbers {
        Some(numbers) => push_items(text, before, numbers),
        None => Ok(()),
    }
}

// Appends `before` and comma-separated numbers.
pub(crate) fn push_items(text: &mut String, before: &str, numbers: &[u64]) -> Result<(), AllocError>
    ensures { OnOk result (string_bytes text.new
        ≡ string_bytes text.old ++ (before.now ++ with_commas decimal numbers.now)) }
{
    text.push_str(before)?;
    let Some((first, rest)) = numbers.split_first() else {
        return Ok(());
    };
    push_number(text, "", *first)?;
    for piece in rest.chunks(ITEMS) {
        push_others(text, piece)?;
    }
    Ok(())
}

// Appends numbers, each after a comma; at most as many as fit a strip.
fn push_others(text: &mut String, numbers: &[u64]) -> Result<(), AllocError>
    requires { length numbers.now ≤ ITEMS }
    ensures { OnOk result (string_bytes text.new
        ≡ string_bytes text.old ++ flat_map (λ n. codes "," ++ decimal n) numbers.now) }
{
    let mut strip = Strip::new();
    strip.put_each(",", numbers);
    text.push_str(strip.text())
}

// Appends `before` and the hexadecimal digits of bytes, or nothing for `None`.
pub(crate) fn push_bytes(
    text: &mut String,
    before: &str,
    bytes: Option<&[u8]>,
) -> Result<(), AllocError>
    ensures { OnOk result (string_bytes text.new
        ≡ string_bytes text.old
        ++ present (λ items. before.now ++ hex_bytes items)
        (option_map (λ items. items.now) bytes.entry)) }
{
    match bytes {
        Some(bytes) => push_hex(text, before, bytes),
        None => Ok(()),
    }
}

// Appends `before` and the hexadecimal digits of bytes.
pub(crate) fn push_hex(text: &mut String, before: &str, bytes: &[u8]) -> Result<(), AllocError>
    ensures { OnOk result (string_bytes text.new
        ≡ string_bytes text.old ++ (before.now ++ hex_bytes bytes.now)) }
{
    text.push_str(before)?;
    push_hex_bytes(text, bytes)
}
