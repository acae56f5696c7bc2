//! The groups in which a sample's fields are read.

ghost use Rattle.std.specs.Prelude.{◌≡◌, ◌==◌, ⊤, [], ◌∷◌, None, true, false, Ok, Err, OnSome, IfErr};
ghost use Rattle.std.specs.Int.RustNames.{bit_and};
ghost use Rattle.perf_sample_types.specs.SampleEmpty as empty;
ghost use Rattle.perf_sample_types.specs.SampleEmpty.{fill_result};
ghost use Rattle.perf_sample_types.specs.Sample as sample;
ghost use Rattle.perf_sample_types.specs.SampleGroups as groups;
ghost use Rattle.perf_base.specs.Configuration.{Configuration};
ghost use Rattle.perf_base.specs.Configured.{configuration_of};
ghost use Rattle.perf_reader.specs.Prelude.{config_of, refusal_kind, NeedsNoMemory};
ghost use Rattle.perf_sample_types.specs.SampleMemory.{HasNoLists, Lasts};
ghost use Rattle.perf_sample_types.specs.SampleRows.{TakesFields};
ghost use Rattle.perf_sample_types.specs.Prelude.{Call, ReadsTable, kinds};
ghost use Rattle.perf_words.specs.SetBits.{sample_flags_bits};

use crate::layout::is_weighed;
use crate::sample_field::{clear_place, fill_field_if, fill_flagged};
use crate::sample_parts::{
    AuxBytes, Branches, CallChain, Cpu, InterruptRegisters, RawData, Stack, Task, UserRegisters,
};
use crate::sample_row::{Row, take_flagged};
use bitflags::Flags;
use perf_base::{Endian, ReadResult};
use perf_buffers::input::Input;
use perf_counters::ReadGroup;
use perf_reader::reader::Reader;
use perf_words::{DataSource, SampleFlags, Txn};

// The flags of those groups of fields that few samples have. If none of a group's flags is set, one
// test skips the group.
const STATE: u64 = 0b1111 << 10;

const COSTS: u64 = 1 << 14 | 1 << 15 | 1 << 17 | 1 << 18 | 1 << 24;

const MEMORY: u64 = 0b11111 << 19;

// Whether the set has none of these bits as a flag.
#[inline(always)]
fn lacks_all(flags: SampleFlags, bits: u64) -> bool
    ensures { result ≡ (bit_and (sample_flags_bits flags) bits == 0) }
{
    flags.bits() & bits == 0
}

// When and where it happened, and which event it was.
#[derive(Debug, Drop)]
pub(crate) struct Moment {
    pub(crate) identifier: Option<u64>,
    pub(crate) ip: Option<u64>,
    pub(crate) task: Option<Task>,
    pub(crate) time: Option<u64>,
    pub(crate) addr: Option<u64>,
    pub(crate) id: Option<u64>,
    pub(crate) stream_id: Option<u64>,
    pub(crate) cpu: Option<Cpu>,
    pub(crate) period: Option<u64>,
}

impl Moment {
    #[inline(always)]
    pub(crate) fn none() -> Moment
        ensures { result ≡ empty.no_moment }
    {
        Moment {
            identifier: None,
            ip: None,
            task: None,
            time: None,
            addr: None,
            id: None,
            stream_id: None,
            cpu: None,
            period: None,
        }
    }

    // Fills its places, which are empty: at once if the input shows all of their bytes, and
    // otherwise field by field.
    #[inline(always)]
    pub(crate) fn fill<'p, I: Input<'p>, E: Endian>(
        &mut self,
        reader: &mut Reader<I, E>,
    ) -> ReadResult<()>
        requires { self.old ≡ empty.no_moment }
        ensures memory { Lasts I.source reader.old → NeedsNoMemory (kinds result) }
        ensures call { Call I.source E.order
            (ReadsTable (λ c. sample.fields_under c sample.moment_fields) groups.moment_value
            (λ _. ⊤))
            reader.old (fill_result (kinds result) self.new) reader.new }
    {
        if self.fill_shown(reader)? {
            return Ok(());
        }
        self.fill_by_field(reader)
    }

    // Fills its places from the bytes that the input shows, and takes those. If they are too few,
    // nothing is read.
    #[inline(always)]
    fn fill_shown<'p, I: Input<'p>, E: Endian>(
        &mut self,
        reader: &mut Reader<I, E>,
    ) -> ReadResult<bool>
        requires { self.old ≡ empty.no_moment }
        ensures memory { NeedsNoMemory (kinds result) }
        ensures nothing { result ≡ Ok false → reader.new ≡ reader.old }
        ensures shown { result ≡ Ok true → Call I.source E.order
            (ReadsTable (λ c. sample.fields_under c sample.moment_fields) groups.moment_value
            (λ _. ⊤))
            reader.old (Ok self.new) reader.new }
        ensures refused { IfErr result (λ e. Call I.source E.order
            (ReadsTable (λ c. sample.fields_under c sample.moment_fields) groups.moment_value
            (λ _. ⊤))
            reader.old (Err (refusal_kind e)) reader.new) }
    {
        let front = reader.input().shown_bytes();
        let mut row = Row::new(front);
        match self.take_fields(&mut row, reader.endian(), reader.config().sample_type()) {
            Some(()) => (),
            None => return Ok(false),
        }
        let (len, reads) = row.into_taken(front.len());
        reader.pass(len, reads)?;
        Ok(true)
    }

    // Takes the fields of its places, which are empty. `None` if there are too few bytes.
    #[inline(always)]
    fn take_fields<E: Endian>(
        &mut self,
        row: &mut Row<'_>,
        order: &E,
        flags: SampleFlags,
    ) -> Option<()>
        requires { self.old ≡ empty.no_moment }
        ensures { OnSome result ((c : Configuration) → c.sample_type ≡ sample_flags_bits flags →
            TakesFields (E.order order.now) (sample.fields_under c sample.moment_fields)
            (groups.moment_value self.new) row.old row.new) }
    {
        take_flagged(
            &mut self.identifier,
            row,
            order,
            flags,
            SampleFlags::IDENTIFIER,
        )?;
        take_flagged(&mut self.ip, row, order, flags, SampleFlags::IP)?;
        take_flagged(&mut self.task, row, order, flags, SampleFlags::TID)?;
        take_flagged(&mut self.time, row, order, flags, SampleFlags::TIME)?;
        take_flagged(&mut self.addr, row, order, flags, SampleFlags::ADDR)?;
        take_flagged(&mut self.id, row, order, flags, SampleFlags::ID)?;
        take_flagged(
            &mut self.stream_id,
            row,
            order,
            flags,
            SampleFlags::STREAM_ID,
        )?;
        take_flagged(&mut self.cpu, row, order, flags, SampleFlags::CPU)?;
        take_flagged(&mut self.period, row, order, flags, SampleFlags::PERIOD)?;
        Some(())
    }

    // Fills its places field by field. What they contain is dropped.
    #[cold]
    #[inline(never)]
    pub(crate) fn fill_by_field<'p, I: Input<'p>, E: Endian>(
        &mut self,
        reader: &mut Reader<I, E>,
    ) -> ReadResult<()>
        ensures memory { Lasts I.source reader.old → NeedsNoMemory (kinds result) }
        ensures call { Call I.source E.order
            (ReadsTable (λ c. sample.fields_under c sample.moment_fields) groups.moment_value
            (λ _. ⊤))
            reader.old (fill_result (kinds result) self.new) reader.new }
    {
        *self = Moment::none();
        let flags = reader.config().sample_type();
        fill_flagged(
            &mut self.identifier,
            reader,
            flags,
            SampleFlags::IDENTIFIER,
            true,
        )?;
        fill_flagged(&mut self.ip, reader, flags, SampleFlags::IP, true)?;
        fill_flagged(&mut self.task, reader, flags, SampleFlags::TID, true)?;
        fill_flagged(&mut self.time, reader, flags, SampleFlags::TIME, true)?;
        fill_flagged(&mut self.addr, reader, flags, SampleFlags::ADDR, true)?;
        fill_flagged(&mut self.id, reader, flags, SampleFlags::ID, true)?;
        fill_flagged(
            &mut self.stream_id,
            reader,
            flags,
            SampleFlags::STREAM_ID,
            true,
        )?;
        fill_flagged(&mut self.cpu, reader, flags, SampleFlags::CPU, true)?;
        fill_flagged(&mut self.period, reader, flags, SampleFlags::PERIOD, true)?;
        Ok(())
    }
}

// The counters that were read, and the call chain.
#[derive(Debug, Drop)]
pub(crate) struct Counts<'a> {
    pub(crate) values: Option<ReadGroup<'a>>,
    pub(crate) call_chain: Option<CallChain<'a>>,
}

impl<'p> Counts<'p> {
    #[inline(always)]
    pub(crate) fn none() -> Counts<'p>
        ensures { result ≡ empty.no_counts }
    {
        Counts {
            values: None,
            call_chain: None,
        }
    }

    // Empties its places, unless they are known to be empty.
    #[inline(always)]
    pub(crate) fn clear(&mut self, is_empty: bool)
        requires { is_empty ≡ true → self.old ≡ empty.no_counts }
        ensures { self.new ≡ empty.no_counts }
    {
        if is_empty {
            return;
        }
        clear_place(&mut self.values, false);
        clear_place(&mut self.call_chain, false);
    }

    // Fills its places, and empties those of absent fields, unless they are known to be empty.
    #[inline(always)]
    pub(crate) fn fill<I: Input<'p>, E: Endian>(
        &mut self,
        reader: &mut Reader<I, E>,
        is_empty: bool,
    ) -> ReadResult<()>
        requires { is_empty ≡ true → self.old ≡ empty.no_counts }
        ensures memory { Lasts I.source reader.old →
            HasNoLists (configuration_of (config_of reader.old)) → NeedsNoMemory (kinds result) }
        ensures call { Call I.source E.order
            (ReadsTable (λ c. sample.fields_under c sample.count_fields) groups.counts_value
            (λ _. ⊤))
            reader.old (fill_result (kinds result) self.new) reader.new }
    {
        let flags = reader.config().sample_type();
        fill_flagged(&mut self.values, reader, flags, SampleFlags::READ, is_empty)?;
        fill_flagged(
            &mut self.call_chain,
            reader,
            flags,
            SampleFlags::CALLCHAIN,
            is_empty,
        )?;
        Ok(())
    }
}

// The state of event, processor and task.
#[derive(Debug, Drop)]
pub(crate) struct State<'a> {
    pub(crate) raw: Option<RawData<'a>>,
    pub(crate) branches: Option<Branches<'a>>,
    pub(crate) regs_user: Option<UserRegisters<'a>>,
    pub(crate) stack_user: Option<Stack<'a>>,
}

impl<'p> State<'p> {
    #[inline(always)]
    pub(crate) fn none() -> State<'p>
        ensures { result ≡ empty.no_state }
    {
        State {
            raw: None,
            branches: None,
            regs_user: None,
            stack_user: None,
        }
    }

    // Empties its places, unless they are known to be empty.
    #[inline(always)]
    pub(crate) fn clear(&mut self, is_empty: bool)
        requires { is_empty ≡ true → self.old ≡ empty.no_state }
        ensures { self.new ≡ empty.no_state }
    {
        if is_empty {
            return;
        }
        clear_place(&mut self.raw, false);
        clear_place(&mut self.branches, false);
        clear_place(&mut self.regs_user, false);
        clear_place(&mut self.stack_user, false);
    }

    // Fills its places, and empties those of absent fields, unless they are known to be empty.
    #[inline(always)]
    pub(crate) fn fill<I: Input<'p>, E: Endian>(
        &mut self,
        reader: &mut Reader<I, E>,
        is_empty: bool,
    ) -> ReadResult<()>
        requires { is_empty ≡ true → self.old ≡ empty.no_state }
        ensures memory { Lasts I.source reader.old →
            HasNoLists (configuration_of (config_of reader.old)) → NeedsNoMemory (kinds result) }
        ensures call { Call I.source E.order
            (ReadsTable (λ c. sample.fields_under c sample.state_fields) groups.state_value
            groups.IsBorrowedState)
            reader.old (fill_result (kinds result) self.new) reader.new }
    {
        let flags = reader.config().sample_type();
        if lacks_all(flags, STATE) {
            self.clear(is_empty);
            return Ok(());
        }
        fill_flagged(&mut self.raw, reader, flags, SampleFlags::RAW, is_empty)?;
        fill_flagged(
            &mut self.branches,
            reader,
            flags,
            SampleFlags::BRANCH_STACK,
            is_empty,
        )?;
        fill_flagged(
            &mut self.regs_user,
            reader,
            flags,
            SampleFlags::REGS_USER,
            is_empty,
        )?;
        fill_flagged(
            &mut self.stack_user,
            reader,
            flags,
            SampleFlags::STACK_USER,
            is_empty,
        )?;
        Ok(())
    }
}

// What it cost.
#[derive(Debug, Drop)]
pub(crate) struct Costs<'a> {
    pub(crate) weight: Option<u64>,
    pub(crate) data_src: Option<DataSource>,
    pub(crate) transaction: Option<Txn>,
    pub(crate) regs_intr: Option<InterruptRegisters<'a>>,
}

impl<'p> Costs<'p> {
    #[inline(always)]
    pub(crate) fn none() -> Costs<'p>
        ensures { result ≡ empty.no_costs }
    {
        Costs {
            weight: None,
            data_src: None,
            transaction: None,
            regs_intr: None,
        }
    }

    // Empties its places, unless they are known to be empty.
    #[inline(always)]
    pub(crate) fn clear(&mut self, is_empty: bool)
        requires { is_empty ≡ true → self.old ≡ empty.no_costs }
        ensures { self.new ≡ empty.no_costs }
    {
        if is_empty {
            return;
        }
        self.weight = None;
        self.data_src = None;
        self.transaction = None;
        clear_place(&mut self.regs_intr, false);
    }

    // Fills its places, and empties those of absent fields, unless they are known to be empty.
    #[inline(always)]
    pub(crate) fn fill<I: Input<'p>, E: Endian>(
        &mut self,
        reader: &mut Reader<I, E>,
        is_empty: bool,
    ) -> ReadResult<()>
        requires { is_empty ≡ true → self.old ≡ empty.no_costs }
        ensures memory { Lasts I.source reader.old →
            HasNoLists (configuration_of (config_of reader.old)) → NeedsNoMemory (kinds result) }
        ensures call { Call I.source E.order
            (ReadsTable (λ c. sample.fields_under c sample.cost_fields) groups.costs_value
            (λ _. ⊤))
            reader.old (fill_result (kinds result) self.new) reader.new }
    {
        let flags = reader.config().sample_type();
        if lacks_all(flags, COSTS) {
            self.clear(is_empty);
            return Ok(());
        }
        fill_field_if(&mut self.weight, reader, is_weighed(flags), is_empty)?;
        fill_flagged(
            &mut self.data_src,
            reader,
            flags,
            SampleFlags::DATA_SRC,
            is_empty,
        )?;
        fill_flagged(
            &mut self.transaction,
            reader,
            flags,
            SampleFlags::TRANSACTION,
            is_empty,
        )?;
        fill_flagged(
            &mut self.regs_intr,
            reader,
            flags,
            SampleFlags::REGS_INTR,
            is_empty,
        )?;
        Ok(())
    }
}

// In which memory it happened.
#[derive(Debug, Drop)]
pub(crate) struct Memory<'a> {
    pub(crate) phys_addr: Option<u64>,
    pub(crate) cgroup: Option<u64>,
    pub(crate) data_page_size: Option<u64>,
    pub(crate) code_page_size: Option<u64>,
    pub(crate) aux: Option<AuxBytes<'a>>,
}

impl<'p> Memory<'p> {
    #[inline(always)]
    pub(crate) fn none() -> Memory<'p>
        ensures { result ≡ empty.no_memory }
    {
        Memory {
            phys_addr: None,
            cgroup: None,
            data_page_size: None,
            code_page_size: None,
            aux: None,
        }
    }

    // Empties its places, unless they are known to be empty.
    #[inline(always)]
    pub(crate) fn clear(&mut self, is_empty: bool)
        requires { is_empty ≡ true → self.old ≡ empty.no_memory }
        ensures { self.new ≡ empty.no_memory }
    {
        if is_empty {
            return;
        }
        self.phys_addr = None;
        self.cgroup = None;
        self.data_page_size = None;
        self.code_page_size = None;
        clear_place(&mut self.aux, false);
    }

    // Fills its places, and empties those of absent fields, unless they are known to be empty.
    #[inline(always)]
    pub(crate) fn fill<I: Input<'p>, E: Endian>(
        &mut self,
        reader: &mut Reader<I, E>,
        is_empty: bool,
    ) -> ReadResult<()>
        requires { is_empty ≡ true → self.old ≡ empty.no_memory }
        ensures memory { Lasts I.source reader.old → NeedsNoMemory (kinds result) }
        ensures call { Call I.source E.order
            (ReadsTable (λ c. sample.fields_under c sample.memory_fields) groups.memory_value
            groups.IsBorrowedMemory)
            reader.old (fill_result (kinds result) self.new) reader.new }
    {
        let flags = reader.config().sample_type();
        if lacks_all(flags, MEMORY) {
            self.clear(is_empty);
            return Ok(());
        }
        fill_flagged(
            &mut self.phys_addr,
            reader,
            flags,
            SampleFlags::PHYS_ADDR,
            is_empty,
        )?;
        fill_flagged(
            &mut self.cgroup,
            reader,
            flags,
            SampleFlags::CGROUP,
            is_empty,
        )?;
        fill_flagged(
            &mut self.data_page_size,
            reader,
            flags,
            SampleFlags::DATA_PAGE_SIZE,
            is_empty,
        )?;
        fill_flagged(
            &mut self.code_page_size,
            reader,
            flags,
            SampleFlags::CODE_PAGE_SIZE,
            is_empty,
        )?;
        fill_flagged(&mut self.aux, reader, flags, SampleFlags::AUX, is_empty)?;
        Ok(())
    }
}
