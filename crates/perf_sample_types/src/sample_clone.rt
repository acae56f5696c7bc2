//! Copies of samples and their fields.
#![tactic(auto, using(crate::proofs::Forms::parts_of_a_form))]

ghost use Rattle.std.specs.Prelude.{◌≡◌, List, Bool, option_map};
ghost use Rattle.perf_sample_types.specs.Sample as sample;
ghost use Rattle.perf_sample_types.specs.SampleForms as forms;
ghost use Rattle.perf_sample_types.specs.SampleForms.{form_if};
ghost use Rattle.perf_sample_types.specs.SampleGroups as groups;
ghost use Rattle.perf_sample_types.specs.SampleParts as parts;
ghost use Rattle.perf_counters.specs.ReadGroup.{group_read, read_group_form};
ghost use Rattle.perf_sample_types.specs.Registers.{registers_value, registers_form};
ghost use Rattle.perf_counters.specs.Prelude.{IsClone, cow_items};
ghost use Rattle.perf_base.specs.Cow.{cow_form};

use crate::registers::Registers;
use crate::sample_groups::{Costs, Counts, Memory, Moment, State};
use crate::sample_parts::{
    AuxBytes, Branches, CallChain, InterruptRegisters, RawData, Stack, UserRegisters,
};
use perf_base::{CowSlice, ParseResult};
use perf_counters::ReadGroup;
use std::alloc::Global;

// A field that may own memory.
trait CloneField: Sized {
    // its value
    ghost value: { Self → sample.FieldValue };

    // which of its lists are borrowed
    ghost form: { Self → List Bool };

    // The same field. Allocates nothing if it owns no list.
    fn clone_field(&self, alloc: Global) -> ParseResult<Self>
        ensures { IsClone Self.value Self.form self.now result };
}

impl CloneField for ReadGroup<'_> {
    ghost value = { parts.group_value };

    ghost form = { read_group_form };

    fn clone_field(&self, alloc: Global) -> ParseResult<Self> {
        self.clone(alloc)
    }
}

impl CloneField for CallChain<'_> {
    ghost value = { parts.call_chain_value };

    ghost form = { forms.call_chain_form };

    fn clone_field(&self, alloc: Global) -> ParseResult<Self> {
        Ok(CallChain(self.0.clone(alloc)?))
    }
}

impl CloneField for RawData<'_> {
    ghost value = { parts.raw_value };

    ghost form = { forms.raw_form };

    fn clone_field(&self, alloc: Global) -> ParseResult<Self> {
        Ok(RawData(self.0.clone(alloc)?))
    }
}

impl CloneField for Branches<'_> {
    ghost value = { parts.branches_value };

    ghost form = { forms.branches_form };

    fn clone_field(&self, alloc: Global) -> ParseResult<Self> {
        Ok(Branches {
            hw_index: self.hw_index,
            entries: clone_list(&self.entries, alloc)?,
        })
    }
}

impl CloneField for UserRegisters<'_> {
    ghost value = { parts.user_value };

    ghost form = { forms.user_form };

    fn clone_field(&self, alloc: Global) -> ParseResult<Self> {
        Ok(UserRegisters(self.0.clone(alloc)?))
    }
}

impl CloneField for Stack<'_> {
    ghost value = { parts.stack_value };

    ghost form = { forms.stack_form };

    fn clone_field(&self, alloc: Global) -> ParseResult<Self> {
        Ok(Stack(self.0.clone(alloc)?))
    }
}

impl CloneField for InterruptRegisters<'_> {
    ghost value = { parts.interrupt_value };

    ghost form = { forms.interrupt_form };

    fn clone_field(&self, alloc: Global) -> ParseResult<Self> {
        Ok(InterruptRegisters(self.0.clone(alloc)?))
    }
}

impl CloneField for AuxBytes<'_> {
    ghost value = { parts.aux_area_value };

    ghost form = { forms.aux_form };

    fn clone_field(&self, alloc: Global) -> ParseResult<Self> {
        Ok(AuxBytes(self.0.clone(alloc)?))
    }
}

// A field, if present.
fn clone_field_if<T: CloneField>(field: &Option<T>, alloc: Global) -> ParseResult<Option<T>>
    ensures { IsClone (option_map T.value) (form_if T.form) field.now result }
{
    match field {
        Some(field) => Ok(Some(field.clone_field(alloc)?)),
        None => Ok(None),
    }
}

// A list, if present.
pub(crate) fn clone_list<'a, T: Copy>(
    list: &Option<CowSlice<'a, T>>,
    alloc: Global,
) -> ParseResult<Option<CowSlice<'a, T>>>
    ensures { IsClone (option_map cow_items) (form_if cow_form) list.now result }
{
    match list {
        Some(list) => Ok(Some(list.clone(alloc)?)),
        None => Ok(None),
    }
}

// A read of counters, if present.
pub(crate) fn clone_group<'a>(
    group: &Option<ReadGroup<'a>>,
    alloc: Global,
) -> ParseResult<Option<ReadGroup<'a>>>
    ensures { IsClone (option_map group_read) (form_if read_group_form) group.now result }
{
    match group {
        Some(group) => Ok(Some(group.clone(alloc)?)),
        None => Ok(None),
    }
}

// Registers, if present.
pub(crate) fn clone_registers<'a>(
    registers: &Option<Registers<'a>>,
    alloc: Global,
) -> ParseResult<Option<Registers<'a>>>
    ensures { IsClone (option_map registers_value) (form_if registers_form) registers.now result }
{
    match registers {
        Some(registers) => Ok(Some(registers.clone(alloc)?)),
        None => Ok(None),
    }
}

impl Moment {
    // The same moment.
    pub(crate) fn copy(&self) -> Moment
        ensures { groups.moment_value result ≡ groups.moment_value self.now }
    {
        Moment {
            identifier: self.identifier,
            ip: self.ip,
            task: self.task,
            time: self.time,
            addr: self.addr,
            id: self.id,
            stream_id: self.stream_id,
            cpu: self.cpu,
            period: self.period,
        }
    }
}

impl<'a> Counts<'a> {
    // The same counts. Allocates nothing if they own no list.
    pub(crate) fn clone(&self, alloc: Global) -> ParseResult<Counts<'a>>
        ensures { IsClone groups.counts_value forms.counts_form self.now result }
    {
        let values = clone_field_if(&self.values, alloc)?;
        let call_chain = clone_field_if(&self.call_chain, alloc)?;
        Ok(Counts { values, call_chain })
    }
}

impl<'a> State<'a> {
    // The same state. Allocates nothing if it owns no list.
    pub(crate) fn clone(&self, alloc: Global) -> ParseResult<State<'a>>
        ensures { IsClone groups.state_value forms.state_form self.now result }
    {
        let raw = clone_field_if(&self.raw, alloc)?;
        let branches = clone_field_if(&self.branches, alloc)?;
        let regs_user = clone_field_if(&self.regs_user, alloc)?;
        let stack_user = clone_field_if(&self.stack_user, alloc)?;
        Ok(State {
            raw,
            branches,
            regs_user,
            stack_user,
        })
    }
}

impl<'a> Costs<'a> {
    // The same costs. Allocates nothing if they own no list.
    pub(crate) fn clone(&self, alloc: Global) -> ParseResult<Costs<'a>>
        ensures { IsClone groups.costs_value forms.costs_form self.now result }
    {
        let regs_intr = clone_field_if(&self.regs_intr, alloc)?;
        Ok(Costs {
            weight: self.weight,
            data_src: self.data_src,
            transaction: self.transaction,
            regs_intr,
        })
    }
}

impl<'a> Memory<'a> {
    // The same memory fields. Allocates nothing if they own no list.
    pub(crate) fn clone(&self, alloc: Global) -> ParseResult<Memory<'a>>
        ensures { IsClone groups.memory_value forms.memory_form self.now result }
    {
        let aux = clone_field_if(&self.aux, alloc)?;
        Ok(Memory {
            phys_addr: self.phys_addr,
            cgroup: self.cgroup,
            data_page_size: self.data_page_size,
            code_page_size: self.code_page_size,
            aux,
        })
    }
}
