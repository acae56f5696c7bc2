//! Texts of samples of `examples/events.data` and `examples/machine.data`.

use perf_history::{Change, Comm, History, Identity, Map, Mode};
use perf_lines::outcome::Outcome;
use perf_script::{
    Counters, Fields, Heading, Reading, Sampled, Style, is_field_name, push_sample, write_script,
};
use perf_walk::{Call, Filter, Sample};
use std::alloc::{AllocError, Global};
use std::test::Fail;

// What perf printed of a sample with a chain, and of one without.
const CHAINED: &[u8] =
    b"sh  4573/4573   1759.690334477:          7 page-faults/period=7,call-graph=fp/: \n\t           1b7c9 (/usr/lib/x86_64-linux-gnu/ld-linux-x86-64.so.2)\n\t           1ab78 (/usr/lib/x86_64-linux-gnu/ld-linux-x86-64.so.2)\n\n";

const PLAIN: &[u8] =
    b"              sh     2/2     [003]   924.414122702:    1000000 cpu-clock/freq=1000/:  ffffffff81607559 ([kernel.kallsyms])\n";

// Of the same samples with `-F comm,ip` and `-F comm,event,dso`, and with `-F tid,cpu,ip`, `-F time,ip,dso`
// and `-F pid,period,event`.
const CHAINED_PARTS: &[u8] =
    b"sh \n\t           1b7c9\n\t           1ab78\n\n              sh page-faults/period=7,call-graph=fp/: \n";

const PLAIN_PARTS: &[u8] =
    b"    2 [003]  ffffffff81607559\n  924.414122702:  ffffffff81607559 ([kernel.kallsyms])\n    2    1000000 cpu-clock/freq=1000/: \n";

// A file of an event that has TID, TIME and CPU, and of a record of each kind that has a line: COMM, FORK,
// MMAP, MMAP2 with an inode and with a build id, LOST, SWITCH and SWITCH_CPU_WIDE from a task and to it,
// KSYMBOL, BPF_EVENT, CGROUP, a sample, EXIT, and NAMESPACES with nine namespaces and with none.
const FILE: [u64; 158] = [
    3622385352885552464,
    104,
    80,
    104,
    80,
    184,
    1080,
    0,
    0,
    0,
    0,
    0,
    0,
    274877906945,
    0,
    1000,
    135,
    0,
    262144,
    0,
    0,
    0,
    0,
    13545983254200323,
    30064771079,
    26739,
    30064771079,
    1000000001,
    3,
    15762598695796743,
    30064771079,
    30064771080,
    1000000002,
    30064771079,
    1000000002,
    3,
    20301382695256065,
    34359738375,
    4096,
    8192,
    0,
    121424872288047,
    34359738375,
    1000000003,
    3,
    29273406167842826,
    34359738375,
    4096,
    8192,
    0,
    73014444040,
    99,
    5,
    4294967301,
    29400045130965551,
    34359738375,
    1000000004,
    3,
    29343774912020490,
    34359738375,
    4096,
    8192,
    0,
    2167368315788328980,
    7954582142665372200,
    13741795969711506040,
    8589934595,
    28263150107845167,
    34359738375,
    1000000005,
    3,
    13510798882111490,
    0,
    12345,
    34359738375,
    1000000006,
    3,
    9042383626829838,
    34359738375,
    1000000007,
    3,
    9007199254741006,
    0,
    1000000008,
    3,
    11364552184692751,
    42949672969,
    34359738375,
    1000000009,
    3,
    11258999068426255,
    18446744073709551615,
    42949672969,
    1000000010,
    3,
    18014398509482001,
    18446744072635809792,
    4294967360,
    7453301735283912802,
    12639,
    30064771079,
    1000000011,
    3,
    13510798882111506,
    141733920769,
    0,
    30064771079,
    1000000012,
    3,
    15762598695796755,
    7,
    7814640847281157423,
    6644585,
    30064771079,
    1000000013,
    3,
    11259007658360841,
    4112,
    34359738375,
    1000000014,
    3,
    15762598695796740,
    30064771079,
    30064771080,
    1000000015,
    34359738375,
    1000000015,
    3,
    54043195528445968,
    34359738375,
    9,
    4,
    0,
    5,
    4026531840,
    6,
    8053063680,
    7,
    12079595520,
    8,
    16106127360,
    9,
    20132659200,
    10,
    24159191040,
    11,
    28185722880,
    12,
    32212254720,
    34359738375,
    1000000016,
    3,
    13510798882111504,
    34359738375,
    0,
    30064771079,
    1000000017,
    3,
];

// What perf prints of it by its options for these records and `-F comm,pid,tid,cpu,time,ip,dso`, and
// without those options.
const LINES: &[u8] =
    b"              sh     7/7     [003]     1.000000001: PERF_RECORD_COMM exec: sh:7/7\n              sh     7/7     [003]     1.000000002: PERF_RECORD_FORK(7:8):(7:7)\n              sh     7/8     [003]     1.000000003: PERF_RECORD_MMAP 7/8: [0x1000(0x2000) @ 0]: r //anon\n              sh     7/8     [003]     1.000000004: PERF_RECORD_MMAP2 7/8: [0x1000(0x2000) @ 0 08:11 99 5]: r-xs /bin/sh\n              sh     7/8     [003]     1.000000005: PERF_RECORD_MMAP2 7/8: [0x1000(0x2000) @ 0 <000a141e28323c46505a646e78828c96a0aab4be>]: rw-p /bin/id\n              sh     7/8     [003]     1.000000006: PERF_RECORD_LOST lost 12345\n              sh     7/8     [003]     1.000000007: PERF_RECORD_SWITCH OUT        \n         swapper     0/0     [003]     1.000000008: PERF_RECORD_SWITCH IN         \n              sh     7/8     [003]     1.000000009: PERF_RECORD_SWITCH_CPU_WIDE OUT preempt  next pid/tid:     9/10   \n             :10     9/10    [003]     1.000000010: PERF_RECORD_SWITCH_CPU_WIDE IN           prev pid/tid:    -1/-1   \n              sh     7/7     [003]     1.000000011: PERF_RECORD_KSYMBOL addr ffffffffc0000000 len 64 type 1 flags 0x0 name bpf_prog_1\n              sh     7/7     [003]     1.000000012: PERF_RECORD_BPF_EVENT type 1, flags 0, id 33\n              sh     7/7     [003]     1.000000013: PERF_RECORD_CGROUP cgroup: 7 /user.slice\n              sh     7/8     [003]     1.000000014:              1010 (/bin/id)\n              sh     7/8     [003]     1.000000015: PERF_RECORD_EXIT(7:8):(7:7)\n              sh     7/8     [003]     1.000000016: PERF_RECORD_NAMESPACES 7/8 - nr_namespaces: 9\n\t\t[0/net: 4/0, 1/uts: 5/0xf0000000, 2/ipc: 6/0x1e0000000, 3/pid: 7/0x2d0000000, \n\t\t 4/user: 8/0x3c0000000, 5/mnt: 9/0x4b0000000, 6/cgroup: 10/0x5a0000000, 7/UNKNOWN: 11/0x690000000, \n\t\t 8/UNKNOWN: 12/0x780000000]\n              sh     7/7     [003]     1.000000017: PERF_RECORD_NAMESPACES 7/8 - nr_namespaces: 0\n\t\t[";

const SAMPLE: &[u8] =
    b"              sh     7/8     [003]     1.000000014:              1010 (/bin/id)\n";

// The fields with these names.
fn chosen(names: &[&str]) -> Fields {
    match Fields::named(names) {
        Some(fields) => fields,
        None => Fields::default(),
    }
}

// A thread with a name, the dynamic loader in its memory, and the kernel.
fn history<'p>(alloc: Global, tid: u32) -> Result<History<'p>, AllocError> {
    let mut history = History::new(alloc);
    history.apply(Change::Comm(Comm { tid, name: b"sh" }))?;
    history.apply(Change::Map(Map {
        pid: tid,
        mode: Mode::User,
        start: 140484681097216,
        len: 155648,
        offset: 4096,
        file: b"/usr/lib/x86_64-linux-gnu/ld-linux-x86-64.so.2",
        identity: Identity::Unknown,
        executable: true,
    }))?;
    history.apply(Change::Map(Map {
        pid: u32::MAX,
        mode: Mode::Kernel,
        start: 18446744071578845184,
        len: 18911432,
        offset: 18446744071578845184,
        file: b"[kernel.kallsyms]_text",
        identity: Identity::Unknown,
        executable: true,
    }))?;
    Ok(history)
}

#[test]
fn a_sample_with_a_chain(rt: HostRuntime) -> Result<(), Fail> {
    let calls = [
        Call {
            mode: Mode::User,
            address: 140484681205705,
        },
        Call {
            mode: Mode::User,
            address: 140484681202552,
        },
    ];
    let mut shown = Sampled {
        chosen: Fields::default(),
        fields: 0x10027,
        hidden: false,
        sample: Sample {
            pid: 4573,
            tid: 4573,
            time: 1759690334477,
            cpu: 0,
            period: 0,
            ip: 140484681205705,
            mode: Mode::User,
        },
        calls: &calls,
    };
    let heading = Heading {
        label: b"page-faults/period=7,call-graph=fp/: ",
        period: 7,
        fields: 0x10027,
        counts: true,
    };
    let history = history(rt.alloc(), 4573)?;
    let mut text = Vec::new(rt.alloc());
    push_sample(&mut text, heading, &history, &shown)?;
    assert_eq!(rt; text.as_slice(), CHAINED);
    text.clear();
    shown.chosen = chosen(&["ip", "comm"]);
    push_sample(&mut text, heading, &history, &shown)?;
    shown.chosen = chosen(&["comm", "event", "dso"]);
    push_sample(&mut text, heading, &history, &shown)?;
    assert_eq!(rt; text.as_slice(), CHAINED_PARTS);
    Ok(())
}

#[test]
fn a_sample_without_a_chain_and_hidden_ones(rt: HostRuntime) -> Result<(), Fail> {
    let mut shown = Sampled {
        chosen: Fields::default(),
        fields: 0x187,
        hidden: false,
        sample: Sample {
            pid: 2,
            tid: 2,
            time: 924414122702,
            cpu: 3,
            period: 1000000,
            ip: 0xffffffff81607559,
            mode: Mode::Kernel,
        },
        calls: &[],
    };
    let mut heading = Heading {
        label: b"cpu-clock/freq=1000/: ",
        period: 1000000,
        fields: 0x187,
        counts: true,
    };
    let history = history(rt.alloc(), 2)?;
    let mut text = Vec::new(rt.alloc());
    push_sample(&mut text, heading, &history, &shown)?;
    shown.hidden = true;
    push_sample(&mut text, heading, &history, &shown)?;
    shown.hidden = false;
    heading.counts = false;
    push_sample(&mut text, heading, &history, &shown)?;
    assert_eq!(rt; text.as_slice(), PLAIN);
    text.clear();
    heading.counts = true;
    shown.chosen = chosen(&["tid", "cpu", "ip"]);
    push_sample(&mut text, heading, &history, &shown)?;
    shown.chosen = chosen(&["dso", "ip", "time"]);
    push_sample(&mut text, heading, &history, &shown)?;
    shown.chosen = chosen(&["pid", "event", "period"]);
    push_sample(&mut text, heading, &history, &shown)?;
    assert_eq!(rt; text.as_slice(), PLAIN_PARTS);
    Ok(())
}

#[test]
fn fields_by_their_names(rt: HostRuntime) -> Result<(), Fail> {
    let names = [
        "comm", "pid", "tid", "cpu", "time", "period", "event", "ip", "dso",
    ];
    assert_eq!(rt; Fields::named(&names), Some(Fields::default()));
    assert_eq!(rt; Fields::named(&["comm", "sym"]), None);
    assert!(rt; is_field_name("dso"));
    assert!(rt; !is_field_name("ds"));
    Ok(())
}

#[test]
fn lines_of_other_records(rt: HostRuntime) -> Result<(), Fail> {
    let mut bytes = Vec::new(rt.alloc());
    for word in FILE {
        bytes.extend_from_slice(&word.to_le_bytes())?;
    }
    let mut style = Style {
        fields: chosen(&["comm", "pid", "tid", "cpu", "time", "ip", "dso"]),
        side_band: true,
    };
    let mut text = Vec::new(rt.alloc());
    let ended = write_script(rt.alloc(), &bytes, style, Filter::default(), &mut text);
    assert_eq!(rt; ended, Ok(Outcome::Clean));
    assert_eq!(rt; text.as_slice(), LINES);
    text.clear();
    style.side_band = false;
    let ended = write_script(rt.alloc(), &bytes, style, Filter::default(), &mut text);
    assert_eq!(rt; ended, Ok(Outcome::Clean));
    assert_eq!(rt; text.as_slice(), SAMPLE);
    Ok(())
}

#[test]
fn counters_move_by_their_ids(rt: HostRuntime) -> Result<(), Fail> {
    let mut counters = Counters::new(rt.alloc());
    let first = counters.read(Reading { id: 5, value: 10 })?;
    let other = counters.read(Reading { id: 6, value: 7 })?;
    let again = counters.read(Reading { id: 5, value: 9 })?;
    assert_eq!(rt; (first, other, again), (10, 7, u64::MAX));
    Ok(())
}
