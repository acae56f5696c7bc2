//! The kinds of fields that a sample has, and how each is read.
#![tactic(auto, using(perf_reader::proofs::Calls::chain))]

ghost use Rattle.std.specs.Prelude.{◌≡◌, ◌≢◌, ⊤, ℕ, ◌*◌, ◌<◌, ◌^◌, IsTrue, Err, length, true, false};
ghost use Rattle.perf_reader.specs.Prelude.{input_of, refusal_kind, words, OutOfMemory, ReadsOne};
ghost use Rattle.perf_sample_types.specs.Sample as sample;
ghost use Rattle.perf_sample_types.specs.SampleParts as parts;
ghost use Rattle.perf_sample_types.specs.Prelude.{Call, Reads, ReadsBorrowed, is_borrowed, kinds};

use crate::branches::read_branches;
use crate::layout::raw_padding;
use crate::registers::{Registers, read_registers};
use crate::sample_field::{ReadField, SampleField};
use bitflags::Flags;
use perf_base::{CowSlice, Endian, ReadResult, Refusal};
use perf_buffers::input::Input;
use perf_counters::group_memory::{group_of_value, read_group_over};
use perf_counters::{ReadGroup, ReadValue};
use perf_reader::read::ReadFrom;
use perf_reader::reader::Reader;
use perf_reader::spare::spare_of;
use perf_words::{BranchEntry, DataSource, ReadFormat, Txn};
use std::alloc::Global;

impl SampleField for u64 {
    ghost parts = { λ _. sample.plain_field };

    ghost value = { sample.number_is };

    ghost borrowed = { λ _. ⊤ };

    ghost takes_list = { false };
}

impl<'p, I: Input<'p>> ReadField<'p, I> for u64 {
    #[inline]
    fn read_field<E: Endian>(
        reader: &mut Reader<I, E>,
        _old: &mut Option<Self>,
    ) -> ReadResult<Self> {
        reader.read_u64()
    }
}

impl SampleField for DataSource {
    ghost parts = { λ _. sample.plain_field };

    ghost value = { sample.number_is };

    ghost borrowed = { λ _. ⊤ };

    ghost takes_list = { false };
}

impl<'p, I: Input<'p>> ReadField<'p, I> for DataSource {
    #[inline]
    fn read_field<E: Endian>(
        reader: &mut Reader<I, E>,
        _old: &mut Option<Self>,
    ) -> ReadResult<Self> {
        reader.read::<DataSource>()
    }
}

impl SampleField for Txn {
    ghost parts = { λ _. sample.plain_field };

    ghost value = { parts.transaction_value };

    ghost borrowed = { λ _. ⊤ };

    ghost takes_list = { false };
}

impl<'p, I: Input<'p>> ReadField<'p, I> for Txn {
    #[inline]
    fn read_field<E: Endian>(
        reader: &mut Reader<I, E>,
        _old: &mut Option<Self>,
    ) -> ReadResult<Self> {
        reader.read::<Txn>()
    }
}

// A process and its thread. A sample that was read has both or neither.
#[derive(Copy, Clone, Debug)]
pub(crate) struct Task {
    pub(crate) pid: Option<u32>,
    pub(crate) tid: Option<u32>,
}

impl SampleField for Task {
    ghost parts = { λ _. sample.task };

    ghost value = { parts.task_value };

    ghost borrowed = { λ _. ⊤ };

    ghost takes_list = { false };
}

impl<'p, I: Input<'p>> ReadField<'p, I> for Task {
    #[inline]
    fn read_field<E: Endian>(
        reader: &mut Reader<I, E>,
        _old: &mut Option<Self>,
    ) -> ReadResult<Self> {
        let pid = reader.read_u32()?;
        let tid = reader.read_u32()?;
        Ok(Task {
            pid: Some(pid),
            tid: Some(tid),
        })
    }
}

// A processor's number.
#[derive(Copy, Clone, Debug)]
pub(crate) struct Cpu(pub(crate) u32);

impl SampleField for Cpu {
    ghost parts = { λ _. sample.cpu };

    ghost value = { parts.cpu_value };

    ghost borrowed = { λ _. ⊤ };

    ghost takes_list = { false };
}

impl<'p, I: Input<'p>> ReadField<'p, I> for Cpu {
    #[inline]
    fn read_field<E: Endian>(
        reader: &mut Reader<I, E>,
        _old: &mut Option<Self>,
    ) -> ReadResult<Self> {
        let number = reader.read_u32()?;
        reader.skip(4)?;
        Ok(Cpu(number))
    }
}

// How many bytes an address has.
const ADDRESS_SIZE: usize = 8;

// Addresses of calls, the innermost first.
#[derive(Debug, Drop)]
pub(crate) struct CallChain<'a>(pub(crate) CowSlice<'a, u64>);

impl SampleField for CallChain<'_> {
    ghost parts = { λ _. sample.call_chain };

    ghost value = { parts.call_chain_value };

    ghost borrowed = { λ _. ⊤ };

    ghost takes_list = { true };
}

// The memory of a call chain's addresses. The place is emptied.
#[inline(always)]
fn spare_addresses(alloc: Global, old: &mut Option<CallChain<'_>>) -> Vec<u64> {
    match old.take() {
        Some(chain) => spare_of(alloc, Some(chain.0)),
        None => Vec::new(alloc),
    }
}

// Passes over the addresses of a call chain that the input does not have in full, and returns the
// refusal. It is apart, so that the reading of a whole chain stays small.
#[cold]
#[inline(never)]
fn pass_addresses<'p, I: Input<'p>, E: Endian>(reader: &mut Reader<I, E>, count: usize) -> Refusal
    requires { IsTrue (I.source (input_of reader.old)).told →
        length (I.source (input_of reader.old)).left < 8 * count }
    ensures memory { refusal_kind result ≢ OutOfMemory }
    ensures call { Call I.source E.order (ReadsOne (words count) (λ numbers. numbers))
        reader.old (Err (refusal_kind result)) reader.new }
{
    reader.read_to_the_end(1, count)
}

impl<'p, I: Input<'p>> ReadField<'p, I> for CallChain<'p> {
    #[inline]
    fn read_field<E: Endian>(
        reader: &mut Reader<I, E>,
        old: &mut Option<Self>,
    ) -> ReadResult<Self> {
        let count = reader.read_u64()? as usize;
        if reader.has_items(count, ADDRESS_SIZE) == Some(false) {
            return Err(pass_addresses(reader, count));
        }
        let spare = spare_addresses(reader.alloc(), old);
        let addresses = reader.read_numbers_over(spare, count)?;
        Ok(CallChain(CowSlice::Owned(addresses)))
    }
}

// Bytes that the event wrote.
#[derive(Debug, Drop)]
pub(crate) struct RawData<'a>(pub(crate) CowSlice<'a, u8>);

impl SampleField for RawData<'_> {
    ghost parts = { λ _. sample.raw };

    ghost value = { parts.raw_value };

    ghost borrowed = { λ raw. IsTrue (is_borrowed raw.0) };

    ghost takes_list = { false };
}

impl<'p, I: Input<'p>> ReadField<'p, I> for RawData<'p> {
    #[inline]
    fn read_field<E: Endian>(
        reader: &mut Reader<I, E>,
        _old: &mut Option<Self>,
    ) -> ReadResult<Self> {
        let len = reader.read_u32()? as usize;
        let bytes = reader.read_bytes(len)?;
        reader.skip(raw_padding(len))?;
        Ok(RawData(bytes))
    }
}

// Branches, and the position of the newest in the hardware's own list. A sample that was read has
// no index without a list.
#[derive(Debug, Drop)]
pub(crate) struct Branches<'a> {
    pub(crate) hw_index: Option<u64>,
    pub(crate) entries: Option<CowSlice<'a, BranchEntry>>,
}

impl SampleField for Branches<'_> {
    ghost parts = { sample.branch_stack };

    ghost value = { parts.branches_value };

    ghost borrowed = { λ _. ⊤ };

    ghost takes_list = { true };
}

// The memory of branches. The place is emptied.
#[inline(always)]
fn spare_branches(alloc: Global, old: &mut Option<Branches<'_>>) -> Vec<BranchEntry> {
    match old.take() {
        Some(branches) => spare_of(alloc, branches.entries),
        None => Vec::new(alloc),
    }
}

impl<'p, I: Input<'p>> ReadField<'p, I> for Branches<'p> {
    #[inline]
    #[tactic(auto, using(crate::proofs::BranchLists::branch_reads), unfolding(crate::specs::Sample::branch_stack))]
    fn read_field<E: Endian>(
        reader: &mut Reader<I, E>,
        old: &mut Option<Self>,
    ) -> ReadResult<Self> {
        let count = reader.read_u64()?;
        let with_index = reader.config().branch_hw_index();
        let hw_index = reader.read_u64_if(with_index)?;
        let spare = spare_branches(reader.alloc(), old);
        let entries = read_branches(reader, spare, count as usize)?;
        Ok(Branches {
            hw_index,
            entries: Some(CowSlice::Owned(entries)),
        })
    }
}

// What the kernel copied of a task's user stack.
#[derive(Debug, Drop)]
pub(crate) struct Stack<'a>(pub(crate) CowSlice<'a, u8>);

impl SampleField for Stack<'_> {
    ghost parts = { λ _. sample.stack };

    ghost value = { parts.stack_value };

    ghost borrowed = { λ stack. IsTrue (is_borrowed stack.0) };

    ghost takes_list = { false };
}

impl<'p, I: Input<'p>> ReadField<'p, I> for Stack<'p> {
    #[inline]
    fn read_field<E: Endian>(
        reader: &mut Reader<I, E>,
        _old: &mut Option<Self>,
    ) -> ReadResult<Self> {
        let size = reader.read_u64()?;
        let mut bytes = reader.read_bytes(size as usize)?;
        let used_len = reader.read_u64_if(size > 0)?.unwrap_or(0);
        if used_len > size {
            return Err(Refusal::UsedStack);
        }
        bytes.truncate(used_len as usize);
        Ok(Stack(bytes))
    }
}

// Bytes of the AUX area.
#[derive(Debug, Drop)]
pub(crate) struct AuxBytes<'a>(pub(crate) CowSlice<'a, u8>);

impl SampleField for AuxBytes<'_> {
    ghost parts = { λ _. sample.sized_bytes };

    ghost value = { parts.aux_area_value };

    ghost borrowed = { λ aux. IsTrue (is_borrowed aux.0) };

    ghost takes_list = { false };
}

impl<'p, I: Input<'p>> ReadField<'p, I> for AuxBytes<'p> {
    #[inline]
    fn read_field<E: Endian>(
        reader: &mut Reader<I, E>,
        _old: &mut Option<Self>,
    ) -> ReadResult<Self> {
        let size = reader.read_u64()?;
        let bytes = reader.read_bytes(size as usize)?;
        Ok(AuxBytes(bytes))
    }
}

// The registers of the task's user-space code.
#[derive(Debug, Drop)]
pub(crate) struct UserRegisters<'a>(pub(crate) Registers<'a>);

impl SampleField for UserRegisters<'_> {
    ghost parts = { λ c. sample.registers c.regs_user };

    ghost value = { parts.user_value };

    ghost borrowed = { λ _. ⊤ };

    ghost takes_list = { true };
}

// The memory of their values. The place is emptied.
#[inline(always)]
fn spare_user_values(alloc: Global, old: &mut Option<UserRegisters<'_>>) -> Vec<u64> {
    match old.take() {
        Some(registers) => spare_of(alloc, Some(registers.0.regs)),
        None => Vec::new(alloc),
    }
}

impl<'p, I: Input<'p>> ReadField<'p, I> for UserRegisters<'p> {
    #[inline]
    #[tactic(auto, using(perf_reader::proofs::Calls::chain), unfolding(crate::specs::Sample::registers))]
    fn read_field<E: Endian>(
        reader: &mut Reader<I, E>,
        old: &mut Option<Self>,
    ) -> ReadResult<Self> {
        let mask = reader.config().regs_user();
        let spare = spare_user_values(reader.alloc(), old);
        Ok(UserRegisters(read_registers(reader, mask, spare)?))
    }
}

// Registers that the processor had at the interrupt.
#[derive(Debug, Drop)]
pub(crate) struct InterruptRegisters<'a>(pub(crate) Registers<'a>);

impl SampleField for InterruptRegisters<'_> {
    ghost parts = { λ c. sample.registers c.regs_intr };

    ghost value = { parts.interrupt_value };

    ghost borrowed = { λ _. ⊤ };

    ghost takes_list = { true };
}

// The memory of their values. The place is emptied.
#[inline(always)]
fn spare_interrupt_values(alloc: Global, old: &mut Option<InterruptRegisters<'_>>) -> Vec<u64> {
    match old.take() {
        Some(registers) => spare_of(alloc, Some(registers.0.regs)),
        None => Vec::new(alloc),
    }
}

impl<'p, I: Input<'p>> ReadField<'p, I> for InterruptRegisters<'p> {
    #[inline]
    #[tactic(auto, using(perf_reader::proofs::Calls::chain), unfolding(crate::specs::Sample::registers))]
    fn read_field<E: Endian>(
        reader: &mut Reader<I, E>,
        old: &mut Option<Self>,
    ) -> ReadResult<Self> {
        let mask = reader.config().regs_intr();
        let spare = spare_interrupt_values(reader.alloc(), old);
        Ok(InterruptRegisters(read_registers(reader, mask, spare)?))
    }
}

impl SampleField for ReadGroup<'_> {
    ghost parts = { sample.values };

    ghost value = { parts.group_value };

    ghost borrowed = { λ _. ⊤ };

    ghost takes_list = { true };
}

impl<'p, I: Input<'p>> ReadField<'p, I> for ReadGroup<'p> {
    #[tactic(auto, using(perf_counters::proofs::Flags::read_flags, perf_reader::proofs::Calls::chain), unfolding(crate::specs::Sample::values))]
    fn read_field<E: Endian>(
        reader: &mut Reader<I, E>,
        old: &mut Option<Self>,
    ) -> ReadResult<Self> {
        if reader.config().read_format().contains(ReadFormat::GROUP) {
            return match read_group_over(reader, old.take()) {
                Ok(group) => Ok(group),
                Err(refusal) => Err(refusal),
            };
        }
        let value = ReadValue::read(reader)?;
        match group_of_value(reader.alloc(), old.take(), value) {
            Ok(group) => Ok(group),
            Err(_) => Err(Refusal::OutOfMemory),
        }
    }
}
