//! Fields of a sample that is made rather than read.

ghost use Rattle.std.specs.Prelude.{◌≡◌, option_map, IfSome, IsTrue};
ghost use Rattle.perf_sample_types.specs.SampleForms as forms;
ghost use Rattle.perf_sample_types.specs.SampleGetters as outcome;
ghost use Rattle.perf_sample_types.specs.SampleParts as parts;
ghost use Rattle.perf_sample_types.specs.Prelude.{cow_items, is_borrowed, registers_value};

use crate::registers::Registers;
use crate::sample_parts::{
    AuxBytes, Branches, CallChain, Cpu, InterruptRegisters, RawData, Stack, Task, UserRegisters,
};
use perf_base::CowSlice;
use perf_words::BranchEntry;

// A process and its thread, if either is present.
pub(crate) fn task_of(pid: Option<u32>, tid: Option<u32>) -> Option<Task>
    ensures pid { outcome.pid_of_task (option_map parts.task_value result) ≡ pid }
    ensures tid { outcome.tid_of_task (option_map parts.task_value result) ≡ tid }
{
    match (pid, tid) {
        (None, None) => None,
        (pid, tid) => Some(Task { pid, tid }),
    }
}

// Branches and their index, if either is present.
pub(crate) fn branches_of<'a>(
    hw_index: Option<u64>,
    entries: Option<CowSlice<'a, BranchEntry>>,
) -> Option<Branches<'a>>
    ensures hw_index { outcome.hw_index_in (option_map parts.branches_value result) ≡ hw_index }
    ensures entries { outcome.branches_in (option_map parts.branches_value result) ≡
        option_map cow_items entries.entry }
    ensures lists { forms.form_if forms.branches_form result ≡
        forms.form_if forms.cow_form entries.entry }
{
    match (hw_index, entries) {
        (None, None) => None,
        (hw_index, entries) => Some(Branches { hw_index, entries }),
    }
}

// A processor.
pub(crate) fn cpu_of(number: Option<u32>) -> Option<Cpu>
    ensures is { outcome.number_in (option_map parts.cpu_value result) ≡ number }
{
    Some(Cpu(number?))
}

// A call chain.
pub(crate) fn call_chain_of<'a>(addresses: Option<CowSlice<'a, u64>>) -> Option<CallChain<'a>>
    ensures is { outcome.numbers_in (option_map parts.call_chain_value result) ≡
        option_map cow_items addresses.entry }
    ensures lists { forms.form_if forms.call_chain_form result ≡
        forms.form_if forms.cow_form addresses.entry }
{
    Some(CallChain(addresses?))
}

// Raw bytes.
pub(crate) fn raw_of<'a>(bytes: Option<CowSlice<'a, u8>>) -> Option<RawData<'a>>
    ensures is { outcome.bytes_of_field (option_map parts.raw_value result) ≡
        option_map cow_items bytes.entry }
    ensures lists { forms.form_if forms.raw_form result ≡
        forms.form_if forms.cow_form bytes.entry }
    ensures form { IfSome bytes.entry (λ b. IsTrue (is_borrowed b)) →
        IfSome result (λ b. IsTrue (is_borrowed b.0)) }
{
    Some(RawData(bytes?))
}

// A stack.
pub(crate) fn stack_of<'a>(bytes: Option<CowSlice<'a, u8>>) -> Option<Stack<'a>>
    ensures is { outcome.bytes_of_field (option_map parts.stack_value result) ≡
        option_map cow_items bytes.entry }
    ensures lists { forms.form_if forms.stack_form result ≡
        forms.form_if forms.cow_form bytes.entry }
    ensures form { IfSome bytes.entry (λ b. IsTrue (is_borrowed b)) →
        IfSome result (λ b. IsTrue (is_borrowed b.0)) }
{
    Some(Stack(bytes?))
}

// Bytes of the AUX area.
pub(crate) fn aux_of<'a>(bytes: Option<CowSlice<'a, u8>>) -> Option<AuxBytes<'a>>
    ensures is { outcome.bytes_of_field (option_map parts.aux_area_value result) ≡
        option_map cow_items bytes.entry }
    ensures lists { forms.form_if forms.aux_form result ≡
        forms.form_if forms.cow_form bytes.entry }
    ensures form { IfSome bytes.entry (λ b. IsTrue (is_borrowed b)) →
        IfSome result (λ b. IsTrue (is_borrowed b.0)) }
{
    Some(AuxBytes(bytes?))
}

// Registers of the task's user-space code.
pub(crate) fn user_registers_of<'a>(registers: Option<Registers<'a>>) -> Option<UserRegisters<'a>>
    ensures is { outcome.registers_in (option_map parts.user_value result) ≡
        option_map registers_value registers.entry }
    ensures lists { forms.form_if forms.user_form result ≡
        forms.form_if forms.registers_form registers.entry }
{
    Some(UserRegisters(registers?))
}

// Registers at the interrupt.
pub(crate) fn interrupt_registers_of<'a>(
    registers: Option<Registers<'a>>,
) -> Option<InterruptRegisters<'a>>
    ensures is { outcome.registers_in (option_map parts.interrupt_value result) ≡
        option_map registers_value registers.entry }
    ensures lists { forms.form_if forms.interrupt_form result ≡
        forms.form_if forms.registers_form registers.entry }
{
    Some(InterruptRegisters(registers?))
}
