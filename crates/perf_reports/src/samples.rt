//! The line of a sample.

ghost use Rattle.std.specs.Prelude.{◌≡◌, ◌+◌, ◌≤◌, ◌++◌, length, option_map, unwrap_or, is_some, true};
ghost use Rattle.std.specs.Prelude.{string_bytes, Some, None, IfOk, OnOk, IsOk, []};
ghost use Rattle.std.specs.List.{flat_map};
ghost use Rattle.perf_records.specs.Records as values;
ghost use Rattle.perf_sample_types.specs.SampleGetters.{getters_of};
ghost use Rattle.perf_text.specs.Strips.{strip_text, room_of};
ghost use Rattle.perf_reports.specs.SampleLines as printed;

use perf_records::record::Record;
use perf_sample_types::sample::Sample;
use perf_text::strip::{MOST_DIGITS, MOST_HEX, ROOM, Strip};
use std::alloc::{AllocError, Global};

// In a call chain, before addresses of the kernel: -128 (`PERF_CONTEXT_KERNEL`).
const CONTEXT_KERNEL: u64 = u64::MAX - 127;

// Before addresses of the program: -512 (`PERF_CONTEXT_USER`). All numbers from -4095 on
// (`PERF_CONTEXT_MAX`) specify whose addresses follow, and are no addresses.
const CONTEXT_USER: u64 = u64::MAX - 511;

// The maximum length of an entry of a call chain: a space and an address.
const ENTRY: usize = 1 + MOST_HEX;

// How many entries fit a strip.
const ENTRIES: usize = ROOM / ENTRY;

/// The line of a record that is a sample, without a line feed. Other records have no line, and need
/// no memory.
pub fn line_of(alloc: Global, found: &Record) -> Result<Option<String>, AllocError>
    ensures line { IfOk result (λ line.
        option_map string_bytes line ≡ printed.sample_line_of (values.record_value found.now)) }
    ensures no_memory { printed.sample_line_of (values.record_value found.now) ≡ None → IsOk result }
{
    let mut line = String::new(alloc);
    if push_line(&mut line, found)? {
        Ok(Some(line))
    } else {
        Ok(None)
    }
}

// Appends the line of a record that is a sample, and returns whether it is one.
pub(crate) fn push_line(text: &mut String, found: &Record) -> Result<bool, AllocError>
    ensures line { OnOk result (string_bytes text.new
        ≡ string_bytes text.old ++ unwrap_or (printed.sample_line_of (values.record_value found.now)) []) }
    ensures told { IfOk result (λ told.
        told ≡ is_some (printed.sample_line_of (values.record_value found.now))) }
    ensures no_memory { printed.sample_line_of (values.record_value found.now) ≡ None → IsOk result }
{
    match found {
        Record::Sample(sample) => push_own_line(text, sample),
        _ => Ok(false),
    }
}

// Appends the line of a sample, and returns that it is one.
pub(crate) fn push_own_line(text: &mut String, sample: &Sample) -> Result<bool, AllocError>
    ensures line { OnOk result (string_bytes text.new ≡ string_bytes text.old
        ++ printed.sample_line (getters_of (values.sample_value sample.now))) }
    ensures told { IfOk result (λ told. told ≡ true) }
{
    push_sample(text, sample)?;
    Ok(true)
}

// Appends the line of a sample.
fn push_sample(text: &mut String, sample: &Sample) -> Result<(), AllocError>
    ensures { OnOk result (string_bytes text.new ≡ string_bytes text.old
        ++ printed.sample_line (getters_of (values.sample_value sample.now))) }
{
    let mut strip = Strip::new();
    put_event(&mut strip, sample);
    strip.put(" ");
    put_moment(&mut strip, sample);
    text.push_str(strip.text())?;
    push_chain(text, &mut strip, sample.callchain())
}

// Writes when the sample was taken, on which CPU, and in which process and thread.
fn put_moment(strip: &mut Strip, sample: &Sample)
    requires { 83 ≤ room_of strip.old }
    ensures text { strip_text strip.new
        ≡ printed.moment (getters_of (values.sample_value sample.now)) ++ strip_text strip.old }
    ensures room { room_of strip.old ≤ room_of strip.new + 83 }
{
    put_decimal_word(strip, wide(sample.tid()));
    strip.put("/");
    put_decimal_word(strip, wide(sample.pid()));
    strip.put(" ");
    put_decimal_word(strip, wide(sample.cpu()));
    strip.put(" ");
    put_decimal_word(strip, sample.time());
}

// Writes how many events the sample stands for, the address that was accessed, and that of the
// code.
fn put_event(strip: &mut Strip, sample: &Sample)
    requires { 59 ≤ room_of strip.old }
    ensures text { strip_text strip.new
        ≡ printed.event_words (getters_of (values.sample_value sample.now)) ++ strip_text strip.old }
    ensures room { room_of strip.old ≤ room_of strip.new + 59 }
{
    strip.put(":");
    put_hex_word(strip, sample.ip());
    strip.put(" ");
    put_hex_word(strip, sample.addr());
    strip.put(" ");
    put_decimal_word(strip, sample.period());
}

// Writes a number that may be absent.
#[inline]
fn put_decimal_word(strip: &mut Strip, number: Option<u64>)
    requires { MOST_DIGITS ≤ room_of strip.old }
    ensures text { strip_text strip.new ≡ printed.decimal_word number ++ strip_text strip.old }
    ensures room { room_of strip.old ≤ room_of strip.new + MOST_DIGITS }
{
    match number {
        Some(number) => strip.put_number(number),
        None => strip.put("-"),
    }
}

// Writes the same in hexadecimal.
#[inline]
fn put_hex_word(strip: &mut Strip, number: Option<u64>)
    requires { MOST_HEX ≤ room_of strip.old }
    ensures text { strip_text strip.new ≡ printed.hex_word number ++ strip_text strip.old }
    ensures room { room_of strip.old ≤ room_of strip.new + MOST_HEX }
{
    match number {
        Some(number) => strip.put_hex(number),
        None => strip.put("-"),
    }
}

// The same number as 64 bits.
fn wide(number: Option<u32>) -> Option<u64>
    ensures { result ≡ number }
{
    match number {
        Some(number) => Some(u64::from(number)),
        None => None,
    }
}

// Appends the entries of a call chain, if there is one.
fn push_chain(
    text: &mut String,
    strip: &mut Strip,
    entries: Option<&[u64]>,
) -> Result<(), AllocError>
    ensures { OnOk result (string_bytes text.new ≡ string_bytes text.old
        ++ printed.chain (option_map (λ list. list.now) entries.entry)) }
{
    match entries {
        Some(entries) => push_entries(text, strip, entries),
        None => text.push_str(" -"),
    }
}

fn push_entries(text: &mut String, strip: &mut Strip, entries: &[u64]) -> Result<(), AllocError>
    ensures { OnOk result (string_bytes text.new
        ≡ string_bytes text.old ++ flat_map printed.entry entries.now) }
{
    for some in entries.chunks(ENTRIES) {
        put_entries(strip, some);
        text.push_str(strip.text())?;
    }
    Ok(())
}

// Writes entries in place of the text.
fn put_entries(strip: &mut Strip, entries: &[u64])
    requires { length entries.now ≤ ENTRIES }
    ensures { strip_text strip.new ≡ flat_map printed.entry entries.now }
{
    strip.clear();
    let mut left = entries.len();
    while left > 0 {
        left -= 1;
        put_entry(strip, entries[left]);
    }
}

// Writes an address, or whose addresses follow.
#[inline]
fn put_entry(strip: &mut Strip, entry: u64)
    requires { ENTRY ≤ room_of strip.old }
    ensures text { strip_text strip.new ≡ printed.entry entry ++ strip_text strip.old }
    ensures room { room_of strip.old ≤ room_of strip.new + ENTRY }
{
    if entry == CONTEXT_KERNEL {
        strip.put(" kernel");
    } else if entry == CONTEXT_USER {
        strip.put(" user");
    } else {
        strip.put_hex(entry);
        strip.put(" ");
    }
}
