//! A sample, as a name and fields.

ghost use Rattle.std.specs.Prelude.{◌≡◌, ◌≤◌, ◌++◌, length, string_bytes, OnOk, option_map};
ghost use Rattle.std.specs.Prelude.{codes, decimal};
ghost use Rattle.perf_sample_types.specs.Prelude.{getters_of, sample_value, group_read};
ghost use Rattle.perf_sample_types.specs.Prelude.{registers_value, txn_bits};
ghost use Rattle.perf_lines.specs.Fields.{with_spaces, with_commas, present};
ghost use Rattle.perf_lines.specs.SampleText as lines;

use crate::fields::{push_bytes, push_items, push_list, push_number, push_numbers, push_present};
use bitflags::Flags;
use perf_counters::{GroupEntry, ReadGroup};
use perf_sample_types::registers::Registers;
use perf_sample_types::sample::Sample;
use perf_text::strip::Strip;
use perf_words::{BranchEntry, DataSource, Txn};
use std::alloc::AllocError;

pub(crate) fn push_sample(text: &mut String, sample: &Sample) -> Result<(), AllocError>
    ensures { OnOk result (string_bytes text.new
        ≡ string_bytes text.old
        ++ with_spaces (lines.sample_words (getters_of (sample_value sample.now)))) }
{
    text.push_str(" Sample")?;
    push_moment(text, sample)?;
    push_counts(text, sample)?;
    push_state(text, sample)?;
    push_costs(text, sample)?;
    push_memory(text, sample)
}

fn push_moment(text: &mut String, sample: &Sample) -> Result<(), AllocError>
    ensures { OnOk result (string_bytes text.new
        ≡ string_bytes text.old
        ++ with_spaces (lines.moment_words (getters_of (sample_value sample.now)))) }
{
    let fields = [
        (" ip=", sample.ip()),
        (" pid=", wide(sample.pid())),
        (" tid=", wide(sample.tid())),
        (" time=", sample.time()),
        (" addr=", sample.addr()),
        (" id=", sample.id()),
    ];
    push_numbers(text, &fields)
}

fn push_counts(text: &mut String, sample: &Sample) -> Result<(), AllocError>
    ensures { OnOk result (string_bytes text.new
        ≡ string_bytes text.old
        ++ with_spaces (lines.count_words (getters_of (sample_value sample.now)))) }
{
    let fields = [
        (" stream_id=", sample.stream_id()),
        (" cpu=", wide(sample.cpu())),
        (" period=", sample.period()),
    ];
    push_numbers(text, &fields)?;
    push_group(text, sample.values())?;
    push_list(text, " callchain=", sample.callchain())
}

fn push_state(text: &mut String, sample: &Sample) -> Result<(), AllocError>
    ensures { OnOk result (string_bytes text.new
        ≡ string_bytes text.old
        ++ with_spaces (lines.state_words (getters_of (sample_value sample.now)))) }
{
    push_bytes(text, " raw=", sample.raw())?;
    push_present(text, " lbr_hw_index=", sample.lbr_hw_index())?;
    push_branches(text, sample.lbr())?;
    push_registers(text, " regs_user_abi=", " regs_user=", sample.regs_user())?;
    push_bytes(text, " stack_user=", sample.stack_user())
}

fn push_costs(text: &mut String, sample: &Sample) -> Result<(), AllocError>
    ensures { OnOk result (string_bytes text.new
        ≡ string_bytes text.old
        ++ with_spaces (lines.cost_words (getters_of (sample_value sample.now)))) }
{
    let fields = [
        (" weight=", sample.weight()),
        (" data_src=", source_bits(sample.data_src())),
        (" transaction=", transaction_bits(sample.transaction())),
    ];
    push_numbers(text, &fields)?;
    push_registers(text, " regs_intr_abi=", " regs_intr=", sample.regs_intr())
}

fn push_memory(text: &mut String, sample: &Sample) -> Result<(), AllocError>
    ensures { OnOk result (string_bytes text.new
        ≡ string_bytes text.old
        ++ with_spaces (lines.memory_words (getters_of (sample_value sample.now)))) }
{
    push_present(text, " phys_addr=", sample.phys_addr())?;
    push_bytes(text, " aux=", sample.aux())?;
    let fields = [
        (" cgroup=", sample.cgroup()),
        (" data_page_size=", sample.data_page_size()),
        (" code_page_size=", sample.code_page_size()),
    ];
    push_numbers(text, &fields)
}

// The same number as 64 bits.
fn wide(number: Option<u32>) -> Option<u64>
    ensures { result ≡ number }
{
    number.map(u64::from)
}

// All bits of a data source.
fn source_bits(source: Option<DataSource>) -> Option<u64>
    ensures { result ≡ source }
{
    match source {
        Some(source) => Some(source.bits()),
        None => None,
    }
}

// All bits of a memory transaction.
fn transaction_bits(transaction: Option<Txn>) -> Option<u64>
    ensures { result ≡ option_map txn_bits transaction }
{
    match transaction {
        Some(transaction) => Some(transaction.bits()),
        None => None,
    }
}

// Appends the times and the counters of a read of counters, or nothing for `None`.
fn push_group(text: &mut String, group: Option<&ReadGroup>) -> Result<(), AllocError>
    ensures { OnOk result (string_bytes text.new
        ≡ string_bytes text.old
        ++ with_spaces (lines.group_words (option_map (λ group. group_read group.now) group.entry))) }
{
    let Some(group) = group else {
        return Ok(());
    };
    let times = [
        (" time_enabled=", group.time_enabled()),
        (" time_running=", group.time_running()),
    ];
    push_numbers(text, &times)?;
    push_counters(text, " values=", group)
}

// Appends `before` and the counters of a group, separated by commas.
fn push_counters(text: &mut String, before: &str, group: &ReadGroup) -> Result<(), AllocError>
    ensures { OnOk result (string_bytes text.new
        ≡ string_bytes text.old
        ++ (before.now ++ with_commas lines.counter_item (group_read group.now).entries)) }
{
    text.push_str(before)?;
    let mut entries = group.entries();
    let Some(first) = entries.next() else {
        return Ok(());
    };
    push_counter(text, "", &first)?;
    for entry in entries {
        push_counter(text, ",", &entry)?;
    }
    Ok(())
}

// Appends `before` and one counter.
fn push_counter(text: &mut String, before: &str, entry: &GroupEntry) -> Result<(), AllocError>
    requires { length before.now ≤ 1 }
    ensures { OnOk result (string_bytes text.new
        ≡ string_bytes text.old ++ (before.now ++ lines.counter_item entry.now)) }
{
    let mut strip = Strip::new();
    strip.put_present(":", entry.lost());
    strip.put_present(":", entry.id());
    strip.put_number(entry.value());
    strip.put(before);
    text.push_str(strip.text())
}

// Appends the name of the list and the branches, separated by commas, or nothing for `None`.
fn push_branches(text: &mut String, branches: Option<&[BranchEntry]>) -> Result<(), AllocError>
    ensures { OnOk result (string_bytes text.new
        ≡ string_bytes text.old
        ++ present (λ items. codes " lbr=" ++ with_commas lines.branch_item items)
        (option_map (λ items. items.now) branches.entry)) }
{
    let Some(branches) = branches else {
        return Ok(());
    };
    text.push_str(" lbr=")?;
    let Some((first, rest)) = branches.split_first() else {
        return Ok(());
    };
    push_branch(text, "", first)?;
    for branch in rest {
        push_branch(text, ",", branch)?;
    }
    Ok(())
}

// Appends `before` and one branch.
fn push_branch(text: &mut String, before: &str, branch: &BranchEntry) -> Result<(), AllocError>
    requires { length before.now ≤ 1 }
    ensures { OnOk result (string_bytes text.new
        ≡ string_bytes text.old ++ (before.now ++ lines.branch_item branch.now)) }
{
    let others = [
        branch.to(),
        u64::from(branch.mispred()),
        u64::from(branch.predicted()),
        u64::from(branch.in_tx()),
        u64::from(branch.abort()),
        u64::from(branch.cycles()),
        u64::from(branch.ty().get()),
    ];
    let mut strip = Strip::new();
    strip.put_each(":", &others);
    strip.put_number(branch.from());
    strip.put(before);
    text.push_str(strip.text())
}

// Appends the ABI and the values of registers, each after its own text, or nothing for `None`.
fn push_registers(
    text: &mut String,
    abi: &str,
    regs: &str,
    registers: Option<&Registers>,
) -> Result<(), AllocError>
    ensures { OnOk result (string_bytes text.new
        ≡ string_bytes text.old
        ++ present (λ r. abi.now ++ (decimal r.abi ++ (regs.now ++ with_commas decimal r.regs)))
        (option_map (λ registers. registers_value registers.now) registers.entry)) }
{
    let Some(registers) = registers else {
        return Ok(());
    };
    push_number(text, abi, registers.abi.get())?;
    push_items(text, regs, registers.regs.as_slice())
}
