//! What a walk finds, computed by hand.

use crate::tests::checks::check_bytes;
use crate::tests::recording::recording;
use perf_file::{OpenError, Recording};
use perf_history::{File, Name, Place};
use perf_walk::{Call, Found, Walk, bytes_at, change_in, push_calls, sample_in};
use std::alloc::{AllocError, Global};
use std::process::Abort;

// Appends the name of a thread.
fn push_name(text: &mut Vec<u8>, name: Name<'_>) -> Result<(), AllocError> {
    match name {
        Name::Given(name) => text.extend_from_slice(name),
        Name::Number(_) => text.extend_from_slice(b":"),
        Name::Swapper => text.extend_from_slice(b"swapper"),
    }
}

// Appends what is mapped at an address.
fn push_place(
    alloc: Global,
    text: &mut Vec<u8>,
    place: Option<Place<'_>>,
) -> Result<(), AllocError> {
    let Some(place) = place else {
        return text.extend_from_slice(b" -");
    };
    text.push(b' ')?;
    match place.file {
        File::Named(path) => text.extend_from_slice(path)?,
        File::PerfMap(_) => text.extend_from_slice(b"map")?,
        File::Symbol(name) => text.extend_from_slice(name)?,
    }
    let offset = format!(in alloc; "+{:#x}", place.offset)?;
    text.extend_from_slice(offset.as_bytes())
}

// Appends the sample of a frame, if it is one, and the calls of its chain.
fn push_sample(
    alloc: Global,
    text: &mut Vec<u8>,
    walk: &Walk<'_, '_>,
    found: &Found<'_>,
) -> Result<(), AllocError> {
    let Some(sample) = sample_in(walk.frame()) else {
        return Ok(());
    };
    let numbers = format!(in alloc;
        " {} {} {:#x} {:?}",
        sample.pid, sample.period, sample.ip, sample.mode
    )?;
    text.extend_from_slice(numbers.as_bytes())?;
    let mut calls: Vec<Call> = Vec::new(alloc);
    push_calls(
        &mut calls,
        walk.recording().order(),
        found.bytes,
        walk.frame(),
    )?;
    for call in &calls {
        push_place(alloc, text, walk.place(sample.pid, call.mode, call.address))?;
    }
    Ok(())
}

// Appends the line of a frame: its event, type, time and size, whether it states something about
// threads and memory, the name of its thread, and the sample that it is.
fn push_line(
    alloc: Global,
    text: &mut Vec<u8>,
    walk: &Walk<'_, '_>,
    found: &Found<'_>,
) -> Result<(), AllocError> {
    let frame = walk.frame();
    let states = change_in(found.bytes, frame).is_some();
    let start = format!(in alloc;
        "{} {} {} {} {} ",
        found.event,
        frame.type_,
        frame.time,
        found.bytes.len(),
        states
    )?;
    text.extend_from_slice(start.as_bytes())?;
    push_name(text, walk.comm(frame.tid))?;
    push_sample(alloc, text, walk, found)?;
    text.extend_from_slice(b"\n")
}

// The lines of a recording in order of time.
fn text_of(alloc: Global) -> Result<Vec<u8>, OpenError> {
    let bytes = recording(alloc)?;
    let recording = Recording::open(alloc, &bytes)?;
    let mut walk = Walk::new(alloc, &recording);
    let mut text = Vec::new(alloc);
    for entry in &recording.in_order(alloc)? {
        if let Some(found) = walk.step(entry)? {
            push_line(alloc, &mut text, &walk, &found)?;
        }
    }
    Ok(text)
}

const LINES: &[u8] = b"0 3 5 40 true sh
0 1 10 72 true sh
0 7 20 48 true sh
0 10 25 96 true sh
0 17 26 48 true swapper
0 9 30 88 false sh 8 11 0xffffffff81000010 Kernel bpf_x+0x10 /bin/sh+0x210 /bin/ls+0x20
0 3 40 40 true ls
0 9 50 48 false ls 8 12 0x3040 User
0 7 60 48 true ls
0 9 70 56 false ls 9 13 0x1010 User -
0 9 0 40 false swapper
0 17 90 48 true swapper
";

#[test]
fn frames_in_order(rt: HostRuntime) {
    match text_of(rt.alloc()) {
        Ok(text) => check_bytes(&rt, &text, LINES),
        Err(error) => panic!(rt; "{error}"),
    }
}

#[test]
fn spans_inside_a_frame(rt: HostRuntime) {
    use perf_flat::frame::Span;
    let bytes = b"abcdef";
    check_bytes(&rt, bytes_at(bytes, Span { at: 2, len: 3 }), b"cde");
    check_bytes(&rt, bytes_at(bytes, Span { at: 2, len: 5 }), b"");
}
