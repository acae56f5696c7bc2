//! The SAMPLE record.

ghost use Rattle.std.specs.Prelude.{◌≡◌, ℕ, ◌*◌, ◌%◌, ◌^◌, ◌<◌, List, length, count_ones, IfOk};
ghost use Rattle.std.specs.Prelude.{option_map, true};
ghost use Rattle.perf_base.specs.Configured.{configuration_of};
ghost use Rattle.perf_base.specs.Layout.{layout};
ghost use Rattle.perf_base.specs.Order.{Order};
ghost use Rattle.perf_reader.specs.Prelude.{config_of, NeedsNoMemory};
ghost use Rattle.perf_sample_types.specs.SampleEmpty.{fill_result, no_moment, no_sample};
ghost use Rattle.perf_sample_types.specs.SampleMemory.{HasNoLists, Lasts};
ghost use Rattle.perf_sample_types.specs.Prelude as samples;
ghost use Rattle.perf_sample_types.specs.Prelude.{Call, ReadsBorrowed, kinds, group_read};
ghost use Rattle.perf_sample_types.specs.Prelude.{registers_value, txn_bits};

use crate::registers::Registers;
use crate::sample_fields::SampleFields;
use crate::sample_groups::{Costs, Counts, Memory, Moment, State};
use crate::sample_id::SampleId;
use crate::sample_made::{
    aux_of, branches_of, call_chain_of, cpu_of, interrupt_registers_of, raw_of, stack_of, task_of,
    user_registers_of,
};
use bitflags::Flags;
use perf_base::{Endian, ParseConfig, ParseResult, ReadResult};
use perf_buffers::input::Input;
use perf_counters::ReadGroup;
use perf_reader::read::{HasTransition, ReadFrom};
use perf_reader::reader::Reader;
use perf_words::{BranchEntry, DataSource, Txn};
use std::alloc::Global;

// The flags that have a field of their own: bits 0 to 23. `WEIGHT_STRUCT` shares `WEIGHT`'s.
const FIELDS: u64 = (1 << 24) - 1;

/// An event happened, and this was recorded with it (`PERF_RECORD_SAMPLE`). A field is present if
/// the sample type has its flag.
#[derive(Debug, Drop)]
pub struct Sample<'a> {
    moment: Moment,
    counts: Counts<'a>,
    state: State<'a>,
    costs: Costs<'a>,
    memory: Memory<'a>,
}

impl<'a> Sample<'a> {
    /// The sample with these fields. A sample type with their flags has all of them. Each of its
    /// lists is borrowed or owned like the one given.
    #[tactic(auto, using(crate::proofs::SampleGetters::kept, crate::proofs::Forms::lists_of_groups))]
    pub fn from_fields(fields: SampleFields<'a>) -> Sample<'a>
        ensures fields { samples.getters_of (samples.sample_value result) ≡
            samples.fields_getters fields.entry }
        ensures form { samples.IsBorrowedFields fields.entry → samples.IsBorrowedSample result }
        ensures lists { samples.sample_form result ≡ samples.fields_form fields.entry }
    {
        Sample {
            moment: Moment {
                identifier: None,
                ip: fields.ip,
                task: task_of(fields.pid, fields.tid),
                time: fields.time,
                addr: fields.addr,
                id: fields.id,
                stream_id: fields.stream_id,
                cpu: cpu_of(fields.cpu),
                period: fields.period,
            },
            counts: Counts {
                values: fields.values,
                call_chain: call_chain_of(fields.callchain),
            },
            state: State {
                raw: raw_of(fields.raw),
                branches: branches_of(fields.lbr_hw_index, fields.lbr),
                regs_user: user_registers_of(fields.regs_user),
                stack_user: stack_of(fields.stack_user),
            },
            costs: Costs {
                weight: fields.weight,
                data_src: fields.data_src,
                transaction: fields.transaction,
                regs_intr: interrupt_registers_of(fields.regs_intr),
            },
            memory: Memory {
                phys_addr: fields.phys_addr,
                cgroup: fields.cgroup,
                data_page_size: fields.data_page_size,
                code_page_size: fields.code_page_size,
                aux: aux_of(fields.aux),
            },
        }
    }

    /// The least number of bytes that a sample can have: each of its fields takes eight or more. A
    /// shorter body is refused.
    #[inline]
    pub fn least_len<E>(config: &ParseConfig<E>) -> usize
        ensures value { result ≡
            8 * count_ones ((configuration_of config.now).sample_type % 2 ^ 24) }
        ensures least { (o : Order) → (bytes : List ℕ) → length bytes < result →
            IfOk (layout o (samples.sample (configuration_of config.now)) bytes) (λ v. ⊥) }
    {
        8 * (config.sample_type().bits() & FIELDS).count_ones() as usize
    }

    /// The instruction pointer: the address of an instruction (`PERF_SAMPLE_IP`).
    #[inline]
    #[tactic(auto, using(crate::proofs::SampleGetters::kept))]
    pub fn ip(&self) -> Option<u64>
        ensures { result ≡
            (samples.getters_of (samples.sample_value self.now)).ip }
    {
        self.moment.ip
    }

    /// The process (`PERF_SAMPLE_TID`).
    #[inline]
    pub fn pid(&self) -> Option<u32>
        ensures { result ≡
            (samples.getters_of (samples.sample_value self.now)).pid }
    {
        self.moment.task?.pid
    }

    /// Its thread (`PERF_SAMPLE_TID`).
    #[inline]
    pub fn tid(&self) -> Option<u32>
        ensures { result ≡
            (samples.getters_of (samples.sample_value self.now)).tid }
    {
        self.moment.task?.tid
    }

    /// When it happened, in nanoseconds of the event's clock (`PERF_SAMPLE_TIME`).
    #[inline]
    #[tactic(auto, using(crate::proofs::SampleGetters::kept))]
    pub fn time(&self) -> Option<u64>
        ensures { result ≡
            (samples.getters_of (samples.sample_value self.now)).time }
    {
        self.moment.time
    }

    /// An address that belongs to the event, such as that of a page fault (`PERF_SAMPLE_ADDR`).
    #[inline]
    #[tactic(auto, using(crate::proofs::SampleGetters::kept))]
    pub fn addr(&self) -> Option<u64>
        ensures { result ≡
            (samples.getters_of (samples.sample_value self.now)).addr }
    {
        self.moment.addr
    }

    /// The kernel's own number of the event, or of its group's leader (`PERF_SAMPLE_ID` or
    /// `PERF_SAMPLE_IDENTIFIER`).
    #[inline]
    #[tactic(auto, using(crate::proofs::SampleGetters::kept))]
    pub fn id(&self) -> Option<u64>
        ensures { result ≡
            (samples.getters_of (samples.sample_value self.now)).id }
    {
        self.moment.id.or(self.moment.identifier)
    }

    /// The kernel's own number of the event itself (`PERF_SAMPLE_STREAM_ID`).
    #[inline]
    #[tactic(auto, using(crate::proofs::SampleGetters::kept))]
    pub fn stream_id(&self) -> Option<u64>
        ensures { result ≡
            (samples.getters_of (samples.sample_value self.now)).stream_id }
    {
        self.moment.stream_id
    }

    /// The processor on which it happened (`PERF_SAMPLE_CPU`).
    #[inline]
    pub fn cpu(&self) -> Option<u32>
        ensures { result ≡
            (samples.getters_of (samples.sample_value self.now)).cpu }
    {
        Some(self.moment.cpu?.0)
    }

    /// How many events the sample stands for (`PERF_SAMPLE_PERIOD`).
    #[inline]
    #[tactic(auto, using(crate::proofs::SampleGetters::kept))]
    pub fn period(&self) -> Option<u64>
        ensures { result ≡
            (samples.getters_of (samples.sample_value self.now)).period }
    {
        self.moment.period
    }

    /// What was read of the event's counters: those of its group, or its own as a group of one
    /// (`PERF_SAMPLE_READ`).
    #[inline]
    pub fn values(&self) -> Option<&ReadGroup<'a>>
        ensures { option_map (λ group. group_read group.now) result ≡
            (samples.getters_of (samples.sample_value self.now)).values }
    {
        self.counts.values.as_ref()
    }

    /// The addresses of a call chain, the innermost first. Numbers from `PERF_CONTEXT_MAX` (-4095
    /// as a u64) on are not addresses: they state the context of the addresses after them. Present
    /// if the sample type has `PERF_SAMPLE_CALLCHAIN`.
    #[inline]
    pub fn callchain(&self) -> Option<&[u64]>
        ensures { option_map (λ items. items.now) result ≡
            (samples.getters_of (samples.sample_value self.now)).callchain }
    {
        Some(self.counts.call_chain.as_ref()?.0.as_slice())
    }

    /// Bytes that the event wrote, such as the fields of a tracepoint (`PERF_SAMPLE_RAW`).
    #[inline]
    pub fn raw(&self) -> Option<&[u8]>
        ensures { option_map (λ bytes. bytes.now) result ≡
            (samples.getters_of (samples.sample_value self.now)).raw }
    {
        Some(self.state.raw.as_ref()?.0.as_slice())
    }

    /// The position of the newest branch in the hardware's own list (`PERF_SAMPLE_BRANCH_STACK` and
    /// the branch sample type `PERF_SAMPLE_BRANCH_HW_INDEX`).
    #[inline]
    pub fn lbr_hw_index(&self) -> Option<u64>
        ensures { result ≡
            (samples.getters_of (samples.sample_value self.now)).lbr_hw_index }
    {
        self.state.branches.as_ref()?.hw_index
    }

    /// Branches, the newest first (`PERF_SAMPLE_BRANCH_STACK`).
    #[inline]
    pub fn lbr(&self) -> Option<&[BranchEntry]>
        ensures { option_map (λ entries. entries.now) result ≡
            (samples.getters_of (samples.sample_value self.now)).lbr }
    {
        let branches = self.state.branches.as_ref()?;
        Some(branches.entries.as_ref()?.as_slice())
    }

    /// The registers of the task's user-space code (`PERF_SAMPLE_REGS_USER`).
    #[inline]
    pub fn regs_user(&self) -> Option<&Registers<'a>>
        ensures { option_map (λ regs. registers_value regs.now) result ≡
            (samples.getters_of (samples.sample_value self.now)).regs_user }
    {
        Some(&self.state.regs_user.as_ref()?.0)
    }

    /// What the kernel copied of the task's user stack, from its top on: as many bytes as were used
    /// (`PERF_SAMPLE_STACK_USER`).
    #[inline]
    pub fn stack_user(&self) -> Option<&[u8]>
        ensures { option_map (λ bytes. bytes.now) result ≡
            (samples.getters_of (samples.sample_value self.now)).stack_user }
    {
        Some(self.state.stack_user.as_ref()?.0.as_slice())
    }

    /// How costly the event was, such as a latency in cycles (`PERF_SAMPLE_WEIGHT` or
    /// `PERF_SAMPLE_WEIGHT_STRUCT`).
    #[inline]
    #[tactic(auto, using(crate::proofs::SampleGetters::kept))]
    pub fn weight(&self) -> Option<u64>
        ensures { result ≡
            (samples.getters_of (samples.sample_value self.now)).weight }
    {
        self.costs.weight
    }

    /// Where the data came from (`PERF_SAMPLE_DATA_SRC`).
    #[inline]
    pub fn data_src(&self) -> Option<DataSource>
        ensures { result ≡
            (samples.getters_of (samples.sample_value self.now)).data_src }
    {
        self.costs.data_src
    }

    /// What a memory transaction did (`PERF_SAMPLE_TRANSACTION`).
    #[inline]
    pub fn transaction(&self) -> Option<Txn>
        ensures { option_map txn_bits result ≡
            (samples.getters_of (samples.sample_value self.now)).transaction }
    {
        self.costs.transaction
    }

    /// The registers that the processor had at the interrupt (`PERF_SAMPLE_REGS_INTR`).
    #[inline]
    pub fn regs_intr(&self) -> Option<&Registers<'a>>
        ensures { option_map (λ regs. registers_value regs.now) result ≡
            (samples.getters_of (samples.sample_value self.now)).regs_intr }
    {
        Some(&self.costs.regs_intr.as_ref()?.0)
    }

    /// The physical address of [`Sample::addr`] (`PERF_SAMPLE_PHYS_ADDR`).
    #[inline]
    #[tactic(auto, using(crate::proofs::SampleGetters::kept))]
    pub fn phys_addr(&self) -> Option<u64>
        ensures { result ≡
            (samples.getters_of (samples.sample_value self.now)).phys_addr }
    {
        self.memory.phys_addr
    }

    /// Bytes of the AUX area (`PERF_SAMPLE_AUX`).
    #[inline]
    pub fn aux(&self) -> Option<&[u8]>
        ensures { option_map (λ bytes. bytes.now) result ≡
            (samples.getters_of (samples.sample_value self.now)).aux }
    {
        Some(self.memory.aux.as_ref()?.0.as_slice())
    }

    /// The id of the task's control group (`PERF_SAMPLE_CGROUP`).
    #[inline]
    #[tactic(auto, using(crate::proofs::SampleGetters::kept))]
    pub fn cgroup(&self) -> Option<u64>
        ensures { result ≡
            (samples.getters_of (samples.sample_value self.now)).cgroup }
    {
        self.memory.cgroup
    }

    /// The size in bytes of the page of [`Sample::addr`] (`PERF_SAMPLE_DATA_PAGE_SIZE`).
    #[inline]
    #[tactic(auto, using(crate::proofs::SampleGetters::kept))]
    pub fn data_page_size(&self) -> Option<u64>
        ensures { result ≡
            (samples.getters_of (samples.sample_value self.now)).data_page_size }
    {
        self.memory.data_page_size
    }

    /// The size in bytes of the page of [`Sample::ip`] (`PERF_SAMPLE_CODE_PAGE_SIZE`).
    #[inline]
    #[tactic(auto, using(crate::proofs::SampleGetters::kept))]
    pub fn code_page_size(&self) -> Option<u64>
        ensures { result ≡
            (samples.getters_of (samples.sample_value self.now)).code_page_size }
    {
        self.memory.code_page_size
    }

    /// The same sample. Allocates nothing if it owns no list.
    #[tactic(auto, using(crate::proofs::Forms::parts_of_a_form))]
    pub fn clone(&self, alloc: Global) -> ParseResult<Sample<'a>>
        ensures { samples.IsClone samples.sample_value samples.sample_form self.now result }
    {
        let memory = self.memory.clone(alloc)?;
        let costs = self.costs.clone(alloc)?;
        let counts = self.counts.clone(alloc)?;
        let state = self.state.clone(alloc)?;
        Ok(Sample {
            moment: self.moment.copy(),
            counts,
            state,
            costs,
            memory,
        })
    }
}

/// A sample without fields, as a place to read samples into.
impl Default for Sample<'_> {
    ghost is_default = { λ sample. sample ≡ no_sample };

    #[inline(always)]
    fn default() -> Self {
        Sample {
            moment: Moment::none(),
            counts: Counts::none(),
            state: State::none(),
            costs: Costs::none(),
            memory: Memory::none(),
        }
    }
}

/// Fills a place with a sample, and returns what is made of it there; if it is refused, the second
/// expression gives up the place. A sample is large, and each function that it is passed to moves
/// it.
#[macro_export]
macro_rules! read_sample {
    ($fill:ident, $sample:ident, $reader:ident => $made:expr, $refused:expr) => {
        match $fill(&mut $sample, $reader) {
            Ok(()) => Ok($made),
            Err(refusal) => {
                $refused;
                Err(refusal)
            }
        }
    };
}

impl HasTransition for Sample<'_> {
    ghost transition = { ReadsBorrowed samples.sample samples.sample_value samples.IsBorrowedSample };
}

/// Registers of [`SampleRegsAbi::NONE`](perf_words::SampleRegsAbi::NONE) have no values. A user
/// stack with a used size greater than its size in the record is refused as [`Refusal::UsedStack`],
/// after the used size was read. Claimed counts of numbers or branches are never trusted for
/// allocation. Byte strings are borrowed from a whole buffer.
impl<'p, I: Input<'p>> ReadFrom<'p, I> for Sample<'p> {
    #[inline]
    fn read<E: Endian>(reader: &mut Reader<I, E>) -> ReadResult<Self> {
        let mut sample = Sample::default();
        read_sample!(fill_sample, sample, reader => sample, drop(sample))
    }
}

/// Empties a sample. If its fields are only numbers, this just clears their places.
#[inline]
pub fn clear_sample(sample: &mut Sample)
    ensures { sample.new ≡ no_sample }
{
    sample.moment = Moment::none();
    sample.counts.clear(false);
    sample.state.clear(false);
    sample.costs.clear(false);
    sample.memory.clear(false);
}

// Reads the fields of a sample in place, group by group. The first group is empty, and the others
// may be known to be.
#[inline(always)]
fn fill_groups<'p, I: Input<'p>, E: Endian>(
    sample: &mut Sample<'p>,
    reader: &mut Reader<I, E>,
    is_empty: bool,
) -> ReadResult<()>
    requires moment { sample.old.moment ≡ no_moment }
    requires others { is_empty ≡ true → sample.old ≡ no_sample }
    ensures memory { Lasts I.source reader.old →
        HasNoLists (configuration_of (config_of reader.old)) → NeedsNoMemory (kinds result) }
    ensures call { Call I.source E.order
        (ReadsBorrowed samples.sample samples.sample_value samples.IsBorrowedSample)
        reader.old (fill_result (kinds result) sample.new) reader.new }
{
    sample.moment.fill(reader)?;
    sample.counts.fill(reader, is_empty)?;
    sample.state.fill(reader, is_empty)?;
    sample.costs.fill(reader, is_empty)?;
    sample.memory.fill(reader, is_empty)?;
    Ok(())
}

// Reads the fields of a sample into an empty one, in place. It is inlined into the function that
// allocates a sample's box.
#[inline(always)]
pub(crate) fn fill_fields<'p, I: Input<'p>, E: Endian>(
    sample: &mut Sample<'p>,
    reader: &mut Reader<I, E>,
) -> ReadResult<()>
    requires { sample.old ≡ no_sample }
    ensures call { Call I.source E.order
        (ReadsBorrowed samples.sample samples.sample_value samples.IsBorrowedSample)
        reader.old (fill_result (kinds result) sample.new) reader.new }
{
    fill_groups(sample, reader, true)
}

/// Reads the fields of a sample into an empty one, in place: a sample is large. It is not inlined,
/// so that the fields do not become locals of the caller, each of which would be moved once more.
#[inline(never)]
pub fn fill_sample<'p, I: Input<'p>, E: Endian>(
    sample: &mut Sample<'p>,
    reader: &mut Reader<I, E>,
) -> ReadResult<()>
    requires { sample.old ≡ no_sample }
    ensures call { Call I.source E.order
        (ReadsBorrowed samples.sample samples.sample_value samples.IsBorrowedSample)
        reader.old (fill_result (kinds result) sample.new) reader.new }
{
    fill_fields(sample, reader)
}

/// Reads a sample into the place of an existing one, whatever its contents, for callers that read
/// many samples into one place. Lists of a field that both have keep their memory, by the rule of
/// [`Reader::list_over`]. After an `Err` the place may contain fields of either sample, until
/// [`clear_sample`] empties it. It is not inlined, as [`fill_sample`].
#[inline(never)]
pub fn fill_over<'p, I: Input<'p>, E: Endian>(
    sample: &mut Sample<'p>,
    reader: &mut Reader<I, E>,
) -> ReadResult<()>
    ensures memory { Lasts I.source reader.old →
        HasNoLists (configuration_of (config_of reader.old)) → NeedsNoMemory (kinds result) }
    ensures call { Call I.source E.order
        (ReadsBorrowed samples.sample samples.sample_value samples.IsBorrowedSample)
        reader.old (fill_result (kinds result) sample.new) reader.new }
{
    sample.moment = Moment::none();
    fill_groups(sample, reader, false)
}
