//! The registers of a task.

ghost use Rattle.perf_sample_types.specs.Registers.{registers_of, registers_value, registers_form};
ghost use Rattle.perf_counters.specs.Prelude.{Call, Reads, kinds, IsClone};

use crate::layout::register_count;
use perf_base::{CowSlice, Endian, ParseResult, ReadResult};
use perf_buffers::input::Input;
use perf_reader::reader::Reader;
use perf_words::SampleRegsAbi;
use std::alloc::Global;

/// The registers of a task when an event happened: those of its user-space code
/// (`PERF_SAMPLE_REGS_USER`) or those that the processor had at the interrupt
/// (`PERF_SAMPLE_REGS_INTR`).
#[derive(Debug, Drop)]
pub struct Registers<'a> {
    /// Whether the task is a 32-bit or a 64-bit one, `PERF_SAMPLE_REGS_ABI_*`. With
    /// [`SampleRegsAbi::NONE`] no registers were written, as for a kernel thread, which has no user
    /// registers.
    pub abi: SampleRegsAbi,
    /// Which registers the event asks for: one bit for each, by the numbers in the architecture's
    /// `perf_regs.h`.
    pub mask: u64,
    /// Their values, one for each bit of the mask, the lowest bit first. Empty if `abi` is
    /// [`SampleRegsAbi::NONE`].
    pub regs: CowSlice<'a, u64>,
}

impl<'p> Registers<'p> {
    /// The same registers. Allocates nothing if their values are borrowed.
    pub fn clone(&self, alloc: Global) -> ParseResult<Registers<'p>>
        ensures { IsClone registers_value registers_form self.now result }
    {
        Ok(Registers {
            abi: self.abi,
            mask: self.mask,
            regs: self.regs.clone(alloc)?,
        })
    }
}

/// Reads the registers of a mask, with their values in the memory of a list that is not needed any
/// more, by the rule of [`Reader::list_over`].
#[inline]
#[tactic(auto, using(perf_reader::proofs::Calls::chain))]
pub fn read_registers<'p, I: Input<'p>, E: Endian>(
    reader: &mut Reader<I, E>,
    mask: u64,
    spare: Vec<u64>,
) -> ReadResult<Registers<'p>>
    ensures call { Call I.source E.order (Reads (λ _. registers_of mask) registers_value)
        reader.old (kinds result) reader.new }
{
    let abi = reader.read_u64()?;
    let count = register_count(mask, abi);
    let regs = reader.read_numbers_over(spare, count)?;
    Ok(Registers {
        abi: SampleRegsAbi::new(abi),
        mask,
        regs: CowSlice::Owned(regs),
    })
}
