//! Samples that are read into a box.
#![tactic(auto, using(perf_reader::proofs::Calls::chain))]

ghost use Rattle.std.specs.Prelude.{◌≡◌, ◌*◌, ◌%◌, ◌^◌, ⊤, true, count_ones, Err, IfOk};
ghost use Rattle.perf_base.specs.Configured.{configuration_of};
ghost use Rattle.perf_buffers.specs.Room.{falls_short};
ghost use Rattle.perf_reader.specs.Prelude.{input_of, config_of, refusal_kind};
ghost use Rattle.perf_sample_types.specs.Sample as sample;
ghost use Rattle.perf_sample_types.specs.SampleEmpty.{fill_result};
ghost use Rattle.perf_sample_types.specs.SampleGroups as groups;
ghost use Rattle.perf_sample_types.specs.Prelude as samples;
ghost use Rattle.perf_sample_types.specs.Prelude.{Call, ReadsBorrowed, ReadsTable, kinds};

use crate::read_sample;
use crate::sample::{Sample, fill_fields};
use crate::sample_groups::{Costs, Counts, Memory, Moment, State};
use perf_base::{Endian, ReadResult, Refusal};
use perf_buffers::input::Input;
use perf_reader::reader::Reader;
use std::boxed::Box;

// Reads the first fields of a sample that is refused, and keeps nothing.
fn pass_moment<'p, I: Input<'p>, E: Endian>(reader: &mut Reader<I, E>) -> ReadResult<()>
    ensures { (read : Moment) × Call I.source E.order
        (ReadsTable (λ c. sample.fields_under c sample.moment_fields) groups.moment_value (λ _. ⊤))
        reader.old (fill_result (kinds result) read) reader.new }
{
    let mut read = Moment::none();
    read.fill_by_field(reader)
}

// Reads the counters and the call chain of a sample that is refused, and keeps nothing.
#[inline(never)]
fn pass_counts<'p, I: Input<'p>, E: Endian>(reader: &mut Reader<I, E>) -> ReadResult<()>
    ensures { (read : Counts) × Call I.source E.order
        (ReadsTable (λ c. sample.fields_under c sample.count_fields) groups.counts_value (λ _. ⊤))
        reader.old (fill_result (kinds result) read) reader.new }
{
    let mut read = Counts::none();
    read.fill(reader, true)
}

// Reads the `State` group of a sample that is refused, and keeps nothing.
#[inline(never)]
fn pass_state<'p, I: Input<'p>, E: Endian>(reader: &mut Reader<I, E>) -> ReadResult<()>
    ensures { (read : State) × Call I.source E.order
        (ReadsTable (λ c. sample.fields_under c sample.state_fields) groups.state_value
        groups.IsBorrowedState)
        reader.old (fill_result (kinds result) read) reader.new }
{
    let mut read = State::none();
    read.fill(reader, true)
}

// Reads the `Costs` group of a sample that is refused, and keeps nothing.
#[inline(never)]
fn pass_costs<'p, I: Input<'p>, E: Endian>(reader: &mut Reader<I, E>) -> ReadResult<()>
    ensures { (read : Costs) × Call I.source E.order
        (ReadsTable (λ c. sample.fields_under c sample.cost_fields) groups.costs_value (λ _. ⊤))
        reader.old (fill_result (kinds result) read) reader.new }
{
    let mut read = Costs::none();
    read.fill(reader, true)
}

// Reads the `Memory` group of a sample that is refused, and keeps nothing.
#[inline(never)]
fn pass_memory<'p, I: Input<'p>, E: Endian>(reader: &mut Reader<I, E>) -> ReadResult<()>
    ensures { (read : Memory) × Call I.source E.order
        (ReadsTable (λ c. sample.fields_under c sample.memory_fields) groups.memory_value
        groups.IsBorrowedMemory)
        reader.old (fill_result (kinds result) read) reader.new }
{
    let mut read = Memory::none();
    read.fill(reader, true)
}

// Why there is no sample if it gets no box, because the input is too short or memory ran out: the
// refusal of its bytes, or out of memory. Its groups are read one after another, so that a sample
// that is too short and ends in the first group uses no stack for the others.
#[cold]
#[inline(never)]
fn refuse_sample<'p, I: Input<'p>, E: Endian>(reader: &mut Reader<I, E>) -> Refusal
    ensures call { Call I.source E.order
        (ReadsBorrowed samples.sample samples.boxed_value samples.IsBorrowedBox)
        reader.old (Err (refusal_kind result)) reader.new }
{
    match pass_moment(reader) {
        Ok(()) => {}
        Err(refusal) => return refusal,
    }
    match pass_counts(reader) {
        Ok(()) => {}
        Err(refusal) => return refusal,
    }
    match pass_state(reader) {
        Ok(()) => {}
        Err(refusal) => return refusal,
    }
    match pass_costs(reader) {
        Ok(()) => {}
        Err(refusal) => return refusal,
    }
    match pass_memory(reader) {
        Ok(()) => Refusal::OutOfMemory,
        Err(refusal) => refusal,
    }
}

/// Reads a sample, which is large, into a box. If the input reports fewer bytes than such a sample
/// needs at least, its layout refuses it, and no box is allocated.
#[inline(always)]
pub fn read_boxed_sample<'p, I: Input<'p>, E: Endian>(
    reader: &mut Reader<I, E>,
) -> ReadResult<Box<Sample<'p>>>
    ensures short { falls_short (I.hint (input_of reader.old))
        (8 * count_ones ((configuration_of (config_of reader.old)).sample_type % 2 ^ 24)) ≡ true →
        IfOk result (λ content. ⊥) }
    ensures call { Call I.source E.order
        (ReadsBorrowed samples.sample samples.boxed_value samples.IsBorrowedBox)
        reader.old (kinds result) reader.new }
{
    if reader.has_bytes(Sample::least_len(reader.config())) == Some(false) {
        return Err(refuse_sample(reader));
    }
    let mut content = match Box::new(reader.alloc(), Sample::default()) {
        Ok(content) => content,
        Err(error) => {
            drop(error);
            return Err(refuse_sample(reader));
        }
    };
    read_sample!(fill_fields, content, reader => content, drop(content))
}
