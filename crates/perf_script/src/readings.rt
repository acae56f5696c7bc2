//! Counters that are read in samples.

ghost use Rattle.std.specs.Prelude.{◌≡◌, ◌++◌, ◌∷◌, ◌*◌, ◌/◌, ◌<◌, ◌≤◌, Some, OnOk, IfOk, List, length, drop, take, true};
ghost use Rattle.perf_base.specs.Configuration.{Configuration};
ghost use Rattle.perf_base.specs.Dynamic.{order_of};
ghost use Rattle.perf_flat.specs.Flat.{IsFlat};
ghost use Rattle.perf_flat.specs.Strings.{span_at};
ghost use Rattle.perf_sample_types.specs.Sample.{SampleValue};
ghost use Rattle.perf_counters.specs.GroupEntry.{block_len};
ghost use Rattle.perf_walk.specs.Parts.{bytes_at};
ghost use Rattle.perf_walk.specs.Samples.{sample_of};
ghost use Rattle.perf_words.specs.Bits.{has_bit};
ghost use Rattle.perf_script.specs.Blocks as blocks;
ghost use Rattle.perf_script.specs.Counters as counters;
ghost use Rattle.perf_script.specs.Moved as moves;

use perf_base::Endian;
use perf_base::endian::Dynamic;
use perf_columns::bits::has_bit;
use perf_flat::frame::FlatFrame;
use perf_walk::bytes_at;
use std::alloc::{AllocError, Global};
use std::collections::BTreeMap;

/// A counter that was read.
#[derive(Clone, Copy, Debug, PartialEq, Eq)]
pub struct Reading {
    /// The kernel's own number of the counter, 0 if it is not known.
    pub id: u64,
    /// Its value.
    pub value: u64,
}

// The flags of a read format.
const WITH_ID: u32 = 2;

const WITH_GROUP: u32 = 3;

const WITH_LOST: u32 = 4;

// The first number of eight bytes.
pub(crate) fn first_number(order: Dynamic, bytes: &[u8]) -> u64
    requires { 8 ≤ length bytes.now }
    ensures { result ≡ (order_of order).eight (take 8 bytes.now) }
{
    match bytes.first_chunk::<8>() {
        Some(eight) => order.convert_u64(*eight),
        None => 0,
    }
}

// How many numbers belong to each counter of a group.
fn block_len(with_id: bool, with_lost: bool) -> usize
    ensures value { result ≡ block_len with_id with_lost }
    ensures some { 1 ≤ result }
    ensures few { result ≤ 3 }
    ensures two { with_id ≡ true → 2 ≤ result }
{
    match (with_id, with_lost) {
        (false, false) => 1,
        (true, true) => 3,
        _ => 2,
    }
}

// The bytes after so many.
pub(crate) fn bytes_after(bytes: &[u8], len: usize) -> &[u8]
    requires { len ≤ length bytes.now }
    ensures { result.now ≡ drop len bytes.now }
{
    &bytes[len..]
}

// The first counter of a group.
fn first_reading(order: Dynamic, with_id: bool, bytes: &[u8]) -> Reading
    requires value { 8 ≤ length bytes.now }
    requires id { with_id ≡ true → 16 ≤ length bytes.now }
    ensures { result ≡ blocks.first_reading (order_of order) with_id bytes.now }
{
    Reading {
        id: if with_id {
            first_number(order, &bytes[8..])
        } else {
            0
        },
        value: first_number(order, bytes),
    }
}

// Appends the counters of a group, by its numbers.
#[tactic(auto, using(crate::proofs::Blocks::room))]
fn push_group(
    readings: &mut Vec<Reading>,
    order: Dynamic,
    with_id: bool,
    with_lost: bool,
    bytes: &[u8],
) -> Result<(), AllocError>
    ensures { OnOk result (readings.new.items ≡ readings.old.items
        ++ blocks.readings_in (order_of order) with_id with_lost
        (length bytes.now / (8 * block_len with_id with_lost)) bytes.now) }
{
    let len = 8 * block_len(with_id, with_lost);
    let mut count = bytes.len() / len;
    let mut left = bytes;
    while count > 0 {
        readings.push(first_reading(order, with_id, left))?;
        left = bytes_after(left, len);
        count -= 1;
    }
    Ok(())
}

// The numbers of the group in a frame.
fn group_bytes<'a>(bytes: &'a [u8], frame: &FlatFrame) -> &'a [u8]
    ensures { result.now ≡ bytes_at bytes.now (span_at frame.now.spans 2) }
{
    bytes_at(bytes, frame.spans[2])
}

// Appends the counters of the group in a frame.
fn push_entries(
    readings: &mut Vec<Reading>,
    order: Dynamic,
    bytes: &[u8],
    frame: &FlatFrame,
) -> Result<(), AllocError>
    ensures { OnOk result (readings.new.items ≡ readings.old.items ++ blocks.group_at
        (order_of order) (has_bit frame.now.read_format 2) (has_bit frame.now.read_format 4)
        bytes.now (span_at frame.now.spans 2)) }
{
    push_group(
        readings,
        order,
        has_bit(u64::from(frame.read_format), WITH_ID),
        has_bit(u64::from(frame.read_format), WITH_LOST),
        group_bytes(bytes, frame),
    )
}

// Appends the counter that was read by itself, if there is one.
fn push_single(readings: &mut Vec<Reading>, frame: &FlatFrame) -> Result<(), AllocError>
    ensures { OnOk result (readings.new.items ≡ readings.old.items
        ++ blocks.single_in frame.now.numbers) }
{
    if frame.numbers[15] == 1 {
        readings.push(Reading {
            id: frame.numbers[17],
            value: frame.numbers[16],
        })?;
    }
    Ok(())
}

/// Appends the counters that a sample has read, by the bytes of its frame and the flat frame that was
/// read of them in that order.
pub fn push_readings(
    readings: &mut Vec<Reading>,
    order: Dynamic,
    bytes: &[u8],
    frame: &FlatFrame,
) -> Result<(), AllocError>
    ensures { (c : Configuration) (s : SampleValue) → IsFlat c (order_of order) bytes.now frame.now →
        sample_of c (order_of order) bytes.now ≡ Some s → has_bit frame.now.present 4 ≡ true →
        OnOk result (readings.new.items ≡ readings.old.items ++ counters.readings_of c.read_format s) }
{
    if has_bit(u64::from(frame.read_format), WITH_GROUP) {
        push_entries(readings, order, bytes, frame)
    } else {
        push_single(readings, frame)
    }
}

/// The last values of counters.
#[derive(Debug, Drop)]
pub struct Counters {
    values: BTreeMap<u64, u64>,
}

impl Counters {
    ghost use Rattle.perf_script.specs.Counted.{IsCounted};
    ghost use Rattle.std.specs.Prelude.{[]};

    /// The values before anything was read.
    pub fn new(alloc: Global) -> Counters
        ensures { IsCounted result [] }
    {
        Counters {
            values: BTreeMap::new(alloc),
        }
    }

    // The last value of a counter.
    fn value(&self, id: u64) -> u64
        ensures { (older : List Reading) → IsCounted self.now older →
            result ≡ moves.last_value older id }
    {
        match self.values.get(&id) {
            Some(value) => *value,
            None => 0,
        }
    }

    /// How far a counter moved since it was read before, modulo 2^64. It has been read then.
    pub fn read(&mut self, reading: Reading) -> Result<u64, AllocError>
        ensures { (older : List Reading) → IsCounted self.old older → IfOk result (λ far.
            (far ≡ moves.moved older reading) × IsCounted self.new (reading ∷ older)) }
    {
        let before = self.value(reading.id);
        self.values.insert(reading.id, reading.value)?;
        Ok(reading.value.wrapping_sub(before))
    }
}
