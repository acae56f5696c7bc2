//! Lines of tasks and of samples that the recordings do not contain.

use crate::tests::checks::check_text;
use perf_event_data::parse::ParseResult;
use perf_event_data::{Comm, CowSlice, Mmap2, MmapDetail, Record, Sample, SampleFields};
use perf_reports::printing::Report;
use perf_reports::{samples, tasks};
use perf_test_helpers::drops::drop_record;
use std::alloc::{AllocError, Global};
use std::process::Abort;

// The line of a record, or `none`.
fn text_of_line(alloc: Global, report: Report, record: &Record<'_>) -> Result<String, AllocError> {
    let line = match report {
        Report::Tasks => tasks::line_of(alloc, record)?,
        Report::Samples => samples::line_of(alloc, record)?,
    };
    match line {
        Some(line) => Ok(line),
        None => String::from_str(alloc, "none"),
    }
}

// Asserts the line of a record, or that there is none.
fn check_line(
    rt: &(impl AllocGlobal + Abort),
    report: Report,
    answer: ParseResult<Record<'_>>,
    want: &str,
) {
    match &answer {
        Ok(record) => check_text(rt, text_of_line(rt.alloc(), report, record), want),
        Err(_) => panic!(rt; "no record"),
    }
    drop_record(answer);
}

const BUILD_ID: [u8; 20] = [
    0x0f, 0xa1, 0, 0, 0, 0, 0, 0, 0, 0, 0, 0, 0, 0, 0, 0, 0, 0, 0, 0,
];

// Paths of a file that a build id identifies, and how they are written in a line.
const PATHS: [(&[u8], &str); 2] = [
    (
        b"/bin/true",
        "mmap2 1 2 0x1000 0x2000 0x0 0fa100 -wxs /bin/true",
    ),
    (
        b"/tmp/a\nexit 1 1 1 1",
        "mmap2 1 2 0x1000 0x2000 0x0 0fa100 -wxs /tmp/a\\x0aexit 1 1 1 1",
    ),
];

#[test]
fn a_build_id_identifies_the_file_and_a_path_forges_no_line(rt: HostRuntime) {
    for &(path, want) in &PATHS {
        let detail = MmapDetail::BuildId {
            build_id: BUILD_ID,
            len: 3,
        };
        let filename = CowSlice::Borrowed(path);
        let record = Record::Mmap2(Mmap2::from_parts(1, 2, 4096, 8192, 0, 6, 1, filename, detail));
        check_line(&rt, Report::Tasks, Ok(record), want);
    }
}

// Names, and how they are written in a line.
const NAMES: [(&[u8], &str); 9] = [
    (b"sh\nexit 1", "comm 1 2 sh\\x0aexit 1"),
    (b"\x1b[2J", "comm 1 2 \\x1b[2J"),
    (b"a\xffb", "comm 1 2 a\\xffb"),
    (b"\\", "comm 1 2 \\x5c"),
    (b"\xc3\xa9", "comm 1 2 \u{e9}"),
    (
        b"\xc2\x85 \xc2\x9f \xc2\xa0",
        "comm 1 2 \\xc2\\x85 \\xc2\\x9f \u{a0}",
    ),
    (b"\x1f \x7f~", "comm 1 2 \\x1f \\x7f~"),
    (b"a\xe2\x82", "comm 1 2 a\\xe2\\x82"),
    (b"", "comm 1 2 "),
];

#[test]
fn a_name_cannot_forge_a_line(rt: HostRuntime) {
    for &(name, want) in &NAMES {
        let record = Record::Comm(Comm {
            pid: 1,
            tid: 2,
            comm: CowSlice::Borrowed(name),
        });
        check_line(&rt, Report::Tasks, Ok(record), want);
    }
}

#[test]
fn other_records_have_no_line(rt: HostRuntime) {
    check_line(&rt, Report::Tasks, Ok(Record::Switch), "none");
    check_line(&rt, Report::Samples, Ok(Record::Switch), "none");
}

#[test]
fn absent_fields_are_dashes(rt: HostRuntime) {
    let sample = Sample::from_fields(SampleFields::default());
    let answer = Record::from_sample(rt.alloc(), sample);
    check_line(&rt, Report::Samples, answer, "- - -/- - - -: -");
}

// Addresses of the hypervisor, which has no word here, of the kernel, and of the program.
const CHAIN: [u64; 6] = [
    u64::MAX - 31,
    u64::MAX - 127,
    0x10,
    u64::MAX - 511,
    0,
    u64::MAX,
];

#[test]
fn marks_of_a_call_chain_are_words(rt: HostRuntime) {
    let mut fields = SampleFields::default();
    fields.ip = Some(0x10);
    fields.pid = Some(u32::MAX);
    fields.tid = Some(2);
    fields.cpu = Some(3);
    fields.callchain = Some(CowSlice::Borrowed(CHAIN.as_slice()));
    let want = "- 3 4294967295/2 - - 0x10: 0xffffffffffffffe0 kernel 0x10 user 0x0 \
        0xffffffffffffffff";
    let answer = Record::from_sample(rt.alloc(), Sample::from_fields(fields));
    check_line(&rt, Report::Samples, answer, want);
}
