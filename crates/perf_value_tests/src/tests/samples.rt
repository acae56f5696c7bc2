//! Samples that are made from their fields.

use crate::tests::checks::{add, check_text, end_line};
use bitflags::Flags;
use perf_base::CowSlice;
use perf_counters::ReadGroup;
use perf_sample_types::registers::Registers;
use perf_sample_types::sample::Sample;
use perf_sample_types::sample_fields::SampleFields;
use perf_sample_types::sample_id::SampleId;
use perf_words::{BranchEntry, DataSource, ReadFormat, SampleRegsAbi, Txn};
use std::alloc::Global;
use std::process::Abort;

fn word_of(source: Option<DataSource>) -> Option<u64> {
    match source {
        Some(source) => Some(source.bits()),
        None => None,
    }
}

fn bits_of(transaction: Option<Txn>) -> Option<u64> {
    match transaction {
        Some(transaction) => Some(transaction.bits()),
        None => None,
    }
}

// Adds the task, the time and the event.
fn add_origin(text: &mut String, sample: &Sample<'_>) {
    add(text, &[sample.pid(), sample.tid(), sample.cpu()]);
    let origin = [
        sample.ip(),
        sample.time(),
        sample.addr(),
        sample.id(),
        sample.stream_id(),
    ];
    add(text, &origin);
}

// Adds the numbers of eight bytes after the origin.
fn add_numbers(text: &mut String, sample: &Sample<'_>) {
    let numbers = [
        sample.period(),
        sample.lbr_hw_index(),
        sample.weight(),
        word_of(sample.data_src()),
        bits_of(sample.transaction()),
        sample.phys_addr(),
        sample.cgroup(),
        sample.data_page_size(),
        sample.code_page_size(),
    ];
    add(text, &numbers);
}

// Adds the lists.
fn add_lists(text: &mut String, sample: &Sample<'_>) {
    add(text, &sample.values());
    add(text, &sample.callchain());
    add(text, &sample.lbr());
    add(text, &[sample.regs_user(), sample.regs_intr()]);
    add(text, &[sample.raw(), sample.stack_user(), sample.aux()]);
}

// Adds the results of a sample's calls on a line.
fn add_sample(text: &mut String, sample: &Sample<'_>) {
    add_origin(text, sample);
    add_numbers(text, sample);
    add_lists(text, sample);
    end_line(text);
}

// Lets go of a sample by a call that takes it: how one is dropped would be proved here anew.
fn release(sample: Sample<'_>) {
    let _ = SampleId::from(sample);
}

// Adds the results of a sample, and lets go of it.
fn add_last(text: &mut String, sample: Sample<'_>) {
    add_sample(text, &sample);
    release(sample);
}

// Adds the results of a sample of a clone of these fields.
fn add_clone_of_fields(text: &mut String, alloc: Global, fields: &SampleFields<'_>) {
    match fields.clone(alloc) {
        Ok(fields) => add_last(text, Sample::from_fields(fields)),
        Err(error) => add(text, &error),
    }
}

// Adds the results of a clone of a sample.
fn add_clone(text: &mut String, alloc: Global, sample: &Sample<'_>) {
    match sample.clone(alloc) {
        Ok(sample) => add_last(text, sample),
        Err(error) => add(text, &error),
    }
}

// The text of a sample of a clone of these fields, of one of the fields, and of its clone.
fn text_with_copies(alloc: Global, fields: SampleFields<'_>) -> String {
    let mut text = String::new(alloc);
    add_clone_of_fields(&mut text, alloc, &fields);
    let sample = Sample::from_fields(fields);
    add_sample(&mut text, &sample);
    add_clone(&mut text, alloc, &sample);
    release(sample);
    text
}

// The three lines of a sample and its copies: the task, the time and the event; the other numbers;
// and the lists.
macro_rules! copies {
    ($($part:literal),+) => {
        concat!($($part,)+ " \n", $($part,)+ " \n", $($part,)+ " \n")
    };
}

// A list that is borrowed or owned. Without memory it is empty, which is not expected.
fn list_of<T: Copy>(alloc: Global, is_owned: bool, items: &[T]) -> CowSlice<'_, T> {
    let list = CowSlice::Borrowed(items);
    if !is_owned {
        return list;
    }
    match list.into_owned(alloc) {
        Ok(owned) => owned,
        Err(_) => CowSlice::Borrowed(&[]),
    }
}

// Registers 0 and 2 of a task of 64 bits, with these values.
fn registers(values: CowSlice<'_, u64>) -> Registers<'_> {
    Registers {
        abi: SampleRegsAbi::ABI_64,
        mask: 5,
        regs: values,
    }
}

// A group of one counter.
fn group(words: CowSlice<'_, u64>) -> ReadGroup<'_> {
    ReadGroup::from_parts(ReadFormat::GROUP, 0, 0, words)
}

// A branch of 117 cycles.
fn branch() -> BranchEntry {
    BranchEntry::from_words(115, 116, 117 << 4)
}

// Each field has a value of its own; the branches are these. The lists are borrowed or owned.
fn every_field(alloc: Global, is_owned: bool, branches: &[BranchEntry]) -> SampleFields<'_> {
    SampleFields {
        ip: Some(101),
        pid: Some(102),
        tid: Some(103),
        time: Some(104),
        addr: Some(105),
        id: Some(106),
        stream_id: Some(107),
        cpu: Some(108),
        period: Some(109),
        values: Some(group(list_of(alloc, is_owned, &[110]))),
        callchain: Some(list_of(alloc, is_owned, &[111, 112])),
        raw: Some(list_of(alloc, is_owned, &[113])),
        lbr_hw_index: Some(114),
        lbr: Some(list_of(alloc, is_owned, branches)),
        regs_user: Some(registers(list_of(alloc, is_owned, &[118, 119]))),
        stack_user: Some(list_of(alloc, is_owned, &[120, 121])),
        weight: Some(122),
        data_src: Some(DataSource::from_word(123)),
        transaction: Some(Txn::from_bits_retain(124)),
        regs_intr: Some(registers(list_of(alloc, is_owned, &[125, 126]))),
        phys_addr: Some(127),
        aux: Some(list_of(alloc, is_owned, &[128, 129, 130])),
        cgroup: Some(131),
        data_page_size: Some(132),
        code_page_size: Some(133),
    }
}

// The text of a sample with every field, whose lists are of this form.
macro_rules! every_field_text {
    ($form:literal) => {
        copies!(
            "[Some(102), Some(103), Some(108)] \
                [Some(101), Some(104), Some(105), Some(106), Some(107)] \
                [Some(109), Some(114), Some(122), Some(123), Some(124), Some(127), Some(131), \
                Some(132), Some(133)] Some(ReadGroup { time_enabled: None, time_running: None, \
                with_id: false, with_lost: false, words: ",
            $form,
            "([110]) }) Some([111, 112]) Some([BranchEntry { from: 115, to: 116, word: 1872 }]) \
                [Some(Registers { abi: SampleRegsAbi(2), mask: 5, regs: ",
            $form,
            "([118, 119]) }), Some(Registers { abi: SampleRegsAbi(2), mask: 5, regs: ",
            $form,
            "([125, 126]) })] [Some([113]), Some([120, 121]), Some([128, 129, 130])]"
        )
    };
}

// Asserts the text of a sample with every field, and of its copies.
fn check_every_field(rt: &(impl AllocGlobal + Abort), is_owned: bool, want: &str) {
    let branches = [branch()];
    let fields = every_field(rt.alloc(), is_owned, &branches);
    check_text(rt, text_with_copies(rt.alloc(), fields), want);
}

#[test]
fn a_sample_answers_each_of_its_fields(rt: HostRuntime) {
    check_every_field(&rt, false, every_field_text!("Borrowed"));
}

#[test]
fn a_sample_that_owns_its_lists_is_copied(rt: HostRuntime) {
    check_every_field(&rt, true, every_field_text!("Owned"));
}

// The text of a sample with only these fields.
fn text_alone(
    alloc: Global,
    task: (Option<u32>, Option<u32>),
    index: Option<u64>,
    branches: Option<CowSlice<'_, BranchEntry>>,
) -> String {
    let mut fields = SampleFields::default();
    fields.pid = task.0;
    fields.tid = task.1;
    fields.lbr_hw_index = index;
    fields.lbr = branches;
    text_with_copies(alloc, fields)
}

// A process, a thread and an index, each present or not, and the text of their samples.
const ALONE: [(Option<u32>, Option<u32>, Option<u64>, &str); 4] = [
    (
        None,
        None,
        None,
        copies!(
            "[None, None, None] [None, None, None, None, None] \
            [None, None, None, None, None, None, None, None, None] \
            None None None [None, None] [None, None, None]"
        ),
    ),
    (
        Some(5),
        None,
        None,
        copies!(
            "[Some(5), None, None] [None, None, None, None, None] \
            [None, None, None, None, None, None, None, None, None] \
            None None None [None, None] [None, None, None]"
        ),
    ),
    (
        None,
        Some(6),
        None,
        copies!(
            "[None, Some(6), None] [None, None, None, None, None] \
            [None, None, None, None, None, None, None, None, None] \
            None None None [None, None] [None, None, None]"
        ),
    ),
    (
        None,
        None,
        Some(7),
        copies!(
            "[None, None, None] [None, None, None, None, None] \
            [None, Some(7), None, None, None, None, None, None, None] \
            None None None [None, None] [None, None, None]"
        ),
    ),
];

#[test]
fn a_sample_has_the_fields_alone_that_are_given(rt: HostRuntime) {
    for &(pid, tid, index, want) in &ALONE {
        check_text(&rt, text_alone(rt.alloc(), (pid, tid), index, None), want);
    }
}

#[test]
fn branches_need_no_index(rt: HostRuntime) {
    let want = copies!(
        "[None, None, None] [None, None, None, None, None] \
            [None, None, None, None, None, None, None, None, None] \
            None None Some([BranchEntry { from: 115, to: 116, word: 1872 }]) [None, None] \
            [None, None, None]"
    );
    let branches = [branch()];
    let borrowed = Some(CowSlice::Borrowed(&branches));
    check_text(
        &rt,
        text_alone(rt.alloc(), (None, None), None, borrowed),
        want,
    );
}

// Adds a sample id that is made from a sample.
fn add_id(text: &mut String, id: SampleId) {
    add(text, &[id.pid(), id.tid(), id.cpu()]);
    add(text, &[id.time(), id.id(), id.stream_id()]);
    end_line(text);
}

// The sample ids that are made from one with every field.
fn text_of_ids(alloc: Global) -> String {
    let mut text = String::new(alloc);
    let branches = [branch()];
    let sample = Sample::from_fields(every_field(alloc, false, &branches));
    add_id(&mut text, SampleId::from_sample(&sample));
    add_id(&mut text, SampleId::from(&sample));
    add_id(&mut text, SampleId::from(sample));
    text
}

#[test]
fn a_sample_id_has_the_numbers_of_its_sample(rt: HostRuntime) {
    let want = copies!("[Some(102), Some(103), Some(108)] [Some(104), Some(106), Some(107)]");
    check_text(&rt, text_of_ids(rt.alloc()), want);
}
