//! The fields of a sample by name.

ghost use Rattle.std.specs.Prelude.{◌≡◌};
ghost use Rattle.perf_base.specs.Copies.{IsClone};
ghost use Rattle.perf_sample_types.specs.SampleCopies.{trace_value, trace_form, trace_of};
ghost use Rattle.perf_sample_types.specs.SampleCopies.{content_value, content_form, content_of};
ghost use Rattle.perf_sample_types.specs.SampleForms.{fields_form};
ghost use Rattle.perf_sample_types.specs.SampleGetters.{fields_getters, no_getters};

use crate::registers::Registers;
use crate::sample_clone::{clone_group, clone_list, clone_registers};
use perf_base::{CowSlice, ParseResult};
use perf_counters::ReadGroup;
use perf_words::{BranchEntry, DataSource, Txn};
use std::alloc::Global;

/// The values of a sample, field by field, for a sample that is made rather than read
/// ([`Sample::from_fields`](crate::sample::Sample::from_fields)).
#[derive(Debug, Drop)]
pub struct SampleFields<'a> {
    /// The instruction pointer: the address of an instruction.
    pub ip: Option<u64>,
    /// The process.
    pub pid: Option<u32>,
    /// Its thread.
    pub tid: Option<u32>,
    /// When it happened, in nanoseconds of the event's clock.
    pub time: Option<u64>,
    /// An address that belongs to the event, such as that of a page fault.
    pub addr: Option<u64>,
    /// The kernel's own number of the event, or of its group's leader.
    pub id: Option<u64>,
    /// The kernel's own number of the event itself.
    pub stream_id: Option<u64>,
    /// The processor on which it happened.
    pub cpu: Option<u32>,
    /// How many events the sample stands for.
    pub period: Option<u64>,
    /// What was read of the event's counters: those of its group, or its own as a group of one.
    pub values: Option<ReadGroup<'a>>,
    /// The addresses of a call chain, the innermost first. Numbers from `PERF_CONTEXT_MAX` (-4095
    /// as a u64) on are not addresses: they state the context of the addresses after them.
    pub callchain: Option<CowSlice<'a, u64>>,
    /// Bytes that the event wrote, such as the fields of a tracepoint.
    pub raw: Option<CowSlice<'a, u8>>,
    /// The position of the newest branch in the hardware's own list.
    pub lbr_hw_index: Option<u64>,
    /// Branches, the newest first.
    pub lbr: Option<CowSlice<'a, BranchEntry>>,
    /// The registers of the task's user-space code.
    pub regs_user: Option<Registers<'a>>,
    /// What the kernel copied of the task's user stack, from its top on: as many bytes as were
    /// used.
    pub stack_user: Option<CowSlice<'a, u8>>,
    /// How costly the event was, such as a latency in cycles.
    pub weight: Option<u64>,
    /// Where the data came from.
    pub data_src: Option<DataSource>,
    /// What a memory transaction did.
    pub transaction: Option<Txn>,
    /// The registers that the processor had at the interrupt.
    pub regs_intr: Option<Registers<'a>>,
    /// The physical address of `addr`.
    pub phys_addr: Option<u64>,
    /// Bytes of the AUX area.
    pub aux: Option<CowSlice<'a, u8>>,
    /// The id of the task's control group.
    pub cgroup: Option<u64>,
    /// The size in bytes of the page of `addr`.
    pub data_page_size: Option<u64>,
    /// The size in bytes of the page of `ip`.
    pub code_page_size: Option<u64>,
}

// The counters, the call chain, raw bytes and branches of a sample's fields.
#[derive(Drop)]
struct Trace<'a> {
    values: Option<ReadGroup<'a>>,
    callchain: Option<CowSlice<'a, u64>>,
    raw: Option<CowSlice<'a, u8>>,
    lbr: Option<CowSlice<'a, BranchEntry>>,
}

// Their registers, the stack and bytes of the AUX area.
#[derive(Drop)]
struct Content<'a> {
    regs_user: Option<Registers<'a>>,
    stack_user: Option<CowSlice<'a, u8>>,
    regs_intr: Option<Registers<'a>>,
    aux: Option<CowSlice<'a, u8>>,
}

impl<'a> SampleFields<'a> {
    // The same counters, call chain, raw bytes and branches.
    fn clone_trace(&self, alloc: Global) -> ParseResult<Trace<'a>>
        ensures { IsClone trace_value trace_form (trace_of self.now) result }
    {
        let values = clone_group(&self.values, alloc)?;
        let callchain = clone_list(&self.callchain, alloc)?;
        let raw = clone_list(&self.raw, alloc)?;
        let lbr = clone_list(&self.lbr, alloc)?;
        Ok(Trace {
            values,
            callchain,
            raw,
            lbr,
        })
    }

    // The same registers, stack and bytes of the AUX area.
    fn clone_content(&self, alloc: Global) -> ParseResult<Content<'a>>
        ensures { IsClone content_value content_form (content_of self.now) result }
    {
        let regs_user = clone_registers(&self.regs_user, alloc)?;
        let stack_user = clone_list(&self.stack_user, alloc)?;
        let regs_intr = clone_registers(&self.regs_intr, alloc)?;
        let aux = clone_list(&self.aux, alloc)?;
        Ok(Content {
            regs_user,
            stack_user,
            regs_intr,
            aux,
        })
    }

    /// The same fields. Allocates nothing if they own no list.
    pub fn clone(&self, alloc: Global) -> ParseResult<SampleFields<'a>>
        ensures { IsClone fields_getters fields_form self.now result }
    {
        let trace = self.clone_trace(alloc)?;
        let content = self.clone_content(alloc)?;
        Ok(SampleFields {
            ip: self.ip,
            pid: self.pid,
            tid: self.tid,
            time: self.time,
            addr: self.addr,
            id: self.id,
            stream_id: self.stream_id,
            cpu: self.cpu,
            period: self.period,
            values: trace.values,
            callchain: trace.callchain,
            raw: trace.raw,
            lbr_hw_index: self.lbr_hw_index,
            lbr: trace.lbr,
            regs_user: content.regs_user,
            stack_user: content.stack_user,
            weight: self.weight,
            data_src: self.data_src,
            transaction: self.transaction,
            regs_intr: content.regs_intr,
            phys_addr: self.phys_addr,
            aux: content.aux,
            cgroup: self.cgroup,
            data_page_size: self.data_page_size,
            code_page_size: self.code_page_size,
        })
    }
}

/// All fields are absent.
impl Default for SampleFields<'_> {
    ghost is_default = { λ fields. fields_getters fields ≡ no_getters };

    fn default() -> Self {
        SampleFields {
            ip: None,
            pid: None,
            tid: None,
            time: None,
            addr: None,
            id: None,
            stream_id: None,
            cpu: None,
            period: None,
            values: None,
            callchain: None,
            raw: None,
            lbr_hw_index: None,
            lbr: None,
            regs_user: None,
            stack_user: None,
            weight: None,
            data_src: None,
            transaction: None,
            regs_intr: None,
            phys_addr: None,
            aux: None,
            cgroup: None,
            data_page_size: None,
            code_page_size: None,
        }
    }
}
