//! The columns of a line.

ghost use Rattle.std.specs.Prelude.{◌≡◌, ◌+◌, ◌-◌, ◌≤◌, ◌++◌, OnOk, decimal, length, replicate, slice_index_or};
ghost use Rattle.perf_text.specs.Strips.{strip_text, room_of};
ghost use Rattle.perf_columns.specs.Columns as columns;

use perf_text::strip::Strip;
use std::alloc::AllocError;

// How many bytes are appended at once.
const FILL: usize = 16;

// Appends a byte so many times.
fn push_fill(text: &mut Vec<u8>, fill: u8, count: usize) -> Result<(), AllocError>
    ensures { OnOk result (text.new.items ≡ text.old.items ++ replicate count fill) }
{
    let some = [fill; FILL];
    let mut left = count;
    while left > FILL {
        text.extend_from_slice(&some)?;
        left -= FILL;
    }
    text.extend_from_slice(&some[..left])
}

/// Appends a text in a column of a width, with spaces before it.
pub fn push_right(text: &mut Vec<u8>, width: usize, word: &[u8]) -> Result<(), AllocError>
    ensures { OnOk result (text.new.items ≡ text.old.items ++ columns.right width word.now) }
{
    push_fill(text, b' ', width.saturating_sub(word.len()))?;
    text.extend_from_slice(word)
}

/// Appends a text in a column of a width, with zeros before it.
pub fn push_zeros(text: &mut Vec<u8>, width: usize, word: &[u8]) -> Result<(), AllocError>
    ensures { OnOk result (text.new.items ≡ text.old.items ++ columns.zeros width word.now) }
{
    push_fill(text, b'0', width.saturating_sub(word.len()))?;
    text.extend_from_slice(word)
}

/// Writes a number with a sign before the text.
pub fn put_signed(strip: &mut Strip, number: u32)
    requires { 21 ≤ room_of strip.old }
    ensures text { strip_text strip.new ≡ columns.signed number ++ strip_text strip.old }
    ensures room { room_of strip.old ≤ room_of strip.new + 21 }
{
    if number < 1 << 31 {
        strip.put_number(u64::from(number));
    } else {
        strip.put_number((1 << 32) - u64::from(number));
        strip.put("-");
    }
}

/// Appends a process and a thread.
pub fn push_pair(text: &mut Vec<u8>, pid: u32, tid: u32) -> Result<(), AllocError>
    ensures { OnOk result (text.new.items ≡ text.old.items ++ columns.task_pair pid tid) }
{
    let mut strip = Strip::new();
    put_signed(&mut strip, tid);
    let length = strip.text().len();
    strip.put("/");
    put_process(&mut strip, pid);
    text.extend_from_slice(strip.text().as_bytes())?;
    push_fill(text, b' ', 5_usize.saturating_sub(length))
}

// Appends one of the two.
fn push_task_number(text: &mut Vec<u8>, number: u32) -> Result<(), AllocError>
    ensures { OnOk result (text.new.items ≡ text.old.items ++ columns.task_number number) }
{
    let mut strip = Strip::new();
    strip.put(" ");
    put_process(&mut strip, number);
    text.extend_from_slice(strip.text().as_bytes())
}

/// Appends those of the two that are chosen.
pub fn push_task(
    text: &mut Vec<u8>,
    with_pid: bool,
    with_tid: bool,
    pid: u32,
    tid: u32,
) -> Result<(), AllocError>
    ensures { OnOk result (text.new.items ≡ text.old.items
        ++ columns.task_column with_pid with_tid pid tid) }
{
    match (with_pid, with_tid) {
        (true, true) => {
            push_pair(text, pid, tid)?;
            text.extend_from_slice(b" ")
        }
        (true, false) => push_task_number(text, pid),
        (false, true) => push_task_number(text, tid),
        (false, false) => Ok(()),
    }
}

// Writes a byte so many times before the text.
#[inline(always)]
fn put_fill(strip: &mut Strip, fill: &str, count: usize)
    requires one { length fill.now ≡ 1 }
    requires room { count ≤ room_of strip.old }
    ensures text { strip_text strip.new
        ≡ replicate count (slice_index_or fill.now 0 0) ++ strip_text strip.old }
    ensures room { room_of strip.new + count ≡ room_of strip.old }
{
    let mut left = count;
    while left > 0 {
        strip.put(fill);
        left -= 1;
    }
}

// Writes a byte before the text until what is before its last `end` bytes has a width.
#[inline(always)]
fn put_padding(strip: &mut Strip, fill: &str, width: usize, end: usize)
    requires one { length fill.now ≡ 1 }
    requires end { end ≤ length (strip_text strip.old) }
    requires room { width ≤ room_of strip.old }
    ensures text { strip_text strip.new
        ≡ replicate (width - (length (strip_text strip.old) - end)) (slice_index_or fill.now 0 0)
        ++ strip_text strip.old }
    ensures room { room_of strip.old ≤ room_of strip.new + width }
{
    let length = strip.text().len() - end;
    put_fill(strip, fill, width.saturating_sub(length));
}

// Writes a number before the text in a column of a width, with spaces before it.
#[inline(always)]
fn put_right(strip: &mut Strip, width: usize, number: u64)
    requires { width + 20 ≤ room_of strip.old }
    ensures text { strip_text strip.new ≡ columns.right width (decimal number) ++ strip_text strip.old }
    ensures room { room_of strip.old ≤ room_of strip.new + (width + 20) }
{
    let end = strip.text().len();
    strip.put_number(number);
    put_padding(strip, " ", width, end);
}

// Writes a number before the text in a column of a width, with zeros before it.
#[inline(always)]
fn put_zeros(strip: &mut Strip, width: usize, number: u64)
    requires { width + 20 ≤ room_of strip.old }
    ensures text { strip_text strip.new ≡ columns.zeros width (decimal number) ++ strip_text strip.old }
    ensures room { room_of strip.old ≤ room_of strip.new + (width + 20) }
{
    let end = strip.text().len();
    strip.put_number(number);
    put_padding(strip, "0", width, end);
}

// Writes a process before the text.
fn put_process(strip: &mut Strip, pid: u32)
    requires { 26 ≤ room_of strip.old }
    ensures text { strip_text strip.new ≡ columns.right 5 (columns.signed pid) ++ strip_text strip.old }
    ensures room { room_of strip.old ≤ room_of strip.new + 26 }
{
    let end = strip.text().len();
    put_signed(strip, pid);
    put_padding(strip, " ", 5, end);
}

// Writes the number of a processor before the text.
fn put_cpu_number(strip: &mut Strip, cpu: u32)
    requires { 24 ≤ room_of strip.old }
    ensures text { strip_text strip.new ≡ columns.cpu_number cpu ++ strip_text strip.old }
    ensures room { room_of strip.old ≤ room_of strip.new + 24 }
{
    if cpu < 1 << 31 {
        put_zeros(strip, 3, u64::from(cpu));
    } else {
        put_zeros(strip, 2, (1 << 32) - u64::from(cpu));
        strip.put("-");
    }
}

/// Appends a processor.
pub fn push_cpu(text: &mut Vec<u8>, cpu: u32) -> Result<(), AllocError>
    ensures { OnOk result (text.new.items ≡ text.old.items ++ columns.cpu_column cpu) }
{
    let mut strip = Strip::new();
    strip.put("] ");
    put_cpu_number(&mut strip, cpu);
    strip.put("[");
    text.extend_from_slice(strip.text().as_bytes())
}

// A second in nanoseconds.
const SECOND: u64 = 1_000_000_000;

/// Appends a time.
pub fn push_time(text: &mut Vec<u8>, time: u64) -> Result<(), AllocError>
    ensures { OnOk result (text.new.items ≡ text.old.items ++ columns.time_column time) }
{
    let mut strip = Strip::new();
    strip.put(": ");
    put_zeros(&mut strip, 9, time % SECOND);
    strip.put(".");
    put_right(&mut strip, 5, time / SECOND);
    text.extend_from_slice(strip.text().as_bytes())
}

/// Appends a period.
pub fn push_period(text: &mut Vec<u8>, period: u64) -> Result<(), AllocError>
    ensures { OnOk result (text.new.items ≡ text.old.items ++ columns.period_column period) }
{
    let mut strip = Strip::new();
    strip.put(" ");
    put_right(&mut strip, 10, period);
    text.extend_from_slice(strip.text().as_bytes())
}

/// Appends an address.
pub fn push_address(text: &mut Vec<u8>, address: u64) -> Result<(), AllocError>
    ensures { OnOk result (text.new.items ≡ text.old.items ++ columns.address_column address) }
{
    let mut strip = Strip::new();
    strip.put_hex(address);
    push_right(text, 16, &strip.text().as_bytes()[2..])
}

/// Writes a number in hexadecimal before the text, with `0x` before its digits unless it is 0.
pub fn put_hex_number(strip: &mut Strip, number: u64)
    requires { 18 ≤ room_of strip.old }
    ensures text { strip_text strip.new ≡ columns.hex_number number ++ strip_text strip.old }
    ensures room { room_of strip.old ≤ room_of strip.new + 18 }
{
    if number == 0 {
        strip.put("0");
    } else {
        strip.put_hex(number);
    }
}
