//! The folded stacks of the recording, computed by hand.

use crate::tests::checks::check_bytes;
use crate::tests::files::little;
use crate::tests::recording::{WITHOUT_PERIODS, recording};
use perf_file::Recording;
use perf_flame::names::Frames;
use perf_fold::{Choice, Form, Weight, fold, status_after, write_fold};
use perf_walk::Filter;
use std::alloc::{AllocError, Global};
use std::process::Abort;

const ALL: Filter = Filter {
    event: None,
    pids: &[],
    comms: &[],
    first: 0,
    last: None,
};

const OFFSETS: Choice = Choice {
    frames: Frames::Offsets,
    weight: Weight::Samples,
    filter: ALL,
};

const PERIODS: Choice = Choice {
    frames: Frames::Files,
    weight: Weight::Period,
    filter: ALL,
};

// What is written of a file, and the status that follows.
fn written(alloc: Global, file: Result<Vec<u8>, AllocError>, how: Choice<'_>) -> (u8, Vec<u8>) {
    let mut text = Vec::new(alloc);
    let ended = match file {
        Ok(bytes) => write_fold(alloc, &bytes, how, Form::Lines, &mut text),
        Err(error) => Err(error.into()),
    };
    (status_after(&ended), text)
}

// Asserts both.
fn check_written(
    rt: &(impl AllocGlobal + Abort),
    file: Result<Vec<u8>, AllocError>,
    how: Choice<'_>,
    status: u8,
    want: &[u8],
) {
    let (found, text) = written(rt.alloc(), file, how);
    assert_eq!(rt; found, status);
    check_bytes(rt, &text, want);
}

#[test]
fn stacks_of_a_recording(rt: HostRuntime) {
    let want = b"ls;[unknown] 1\nls;ls+0x40 1\nsh;ls+0x20;sh+0x210;0xffffffff81000010_[k] 1\n";
    check_written(&rt, recording(rt.alloc()), OFFSETS, 0, want);
}

#[test]
fn periods_of_files(rt: HostRuntime) {
    let want = b"ls;[unknown] 13\nls;ls 12\nsh;ls;sh;0xffffffff81000010_[k] 11\n";
    check_written(&rt, recording(rt.alloc()), PERIODS, 0, want);
}

#[test]
fn periods_of_the_event(rt: HostRuntime) {
    let file = little(rt.alloc(), &WITHOUT_PERIODS, &[], &[]);
    check_written(&rt, file, PERIODS, 0, b":8;[unknown] 8000\n");
}

// Asserts what the recording is folded to with a filter: thread 8 is `sh` at time 30, `ls` at time 50,
// and then thread 9 is its child.
fn check_chosen(rt: &(impl AllocGlobal + Abort), filter: Filter<'_>, want: &[u8]) {
    let how = Choice { filter, ..OFFSETS };
    check_written(rt, recording(rt.alloc()), how, 0, want);
}

const SH: &[u8] = b"sh;ls+0x20;sh+0x210;0xffffffff81000010_[k] 1\n";

const LS: &[u8] = b"ls;[unknown] 1\nls;ls+0x40 1\n";

#[test]
fn samples_by_name_and_time(rt: HostRuntime) {
    let names = [b"perf".as_slice(), b"ls".as_slice()];
    let named = Filter {
        comms: &names,
        ..ALL
    };
    check_chosen(&rt, named, LS);
    let until = Filter {
        last: Some(30),
        ..ALL
    };
    check_chosen(&rt, until, SH);
    let from = Filter { first: 50, ..ALL };
    check_chosen(&rt, from, LS);
}

#[test]
fn samples_by_process(rt: HostRuntime) {
    let process = Filter {
        pids: &[7, 9],
        ..Filter::default()
    };
    check_chosen(&rt, process, b"ls;[unknown] 1\n");
    let both = Filter {
        first: 71,
        ..process
    };
    check_chosen(&rt, both, b"");
}

#[test]
fn no_such_event(rt: HostRuntime) {
    let filter = Filter {
        event: Some(b"cycles"),
        ..ALL
    };
    let how = Choice { filter, ..OFFSETS };
    check_written(&rt, recording(rt.alloc()), how, 2, b"");
}

#[test]
fn no_file(rt: HostRuntime) {
    let mut file = recording(rt.alloc());
    if let Ok(bytes) = &mut file {
        bytes.truncate(7);
    }
    check_written(&rt, file, OFFSETS, 2, b"");
}

#[test]
fn sum_of_counts(rt: HostRuntime) {
    let alloc = rt.alloc();
    match recording(alloc) {
        Ok(bytes) => match Recording::open(alloc, &bytes) {
            Ok(recording) => match fold(alloc, &recording, PERIODS) {
                Ok(folded) => assert_eq!(rt; folded.total(), Some(36)),
                Err(_) => panic!(rt; "no memory"),
            },
            Err(error) => panic!(rt; "{error}"),
        },
        Err(_) => panic!(rt; "no memory"),
    }
}
