//! What the frames of a sample are named.

use crate::tests::checks::check_bytes;
use perf_flame::names::Frames;
use perf_flame::stacks::Stacks;
use perf_history::{File, Identity, Mode, Name, Place};
use std::alloc::AllocError;
use std::process::Abort;

// A command that would open a tag and end a frame, and a frame of each kind.
const NAMED: &[u8] =
    b"<script>_]]>_;page-faults;ls+0x1000;[vdso];perf-7.map+0x10;[unknown];0xffffffff81000000_[k]";

fn place<'p>(file: File<'p>, offset: u64) -> Option<Place<'p>> {
    Some(Place {
        file,
        offset,
        identity: Identity::Unknown,
        executable: true,
    })
}

// Pushes a frame of each kind.
fn push_all(stacks: &mut Stacks) -> Result<(), AllocError> {
    let file = place(File::Named(b"/usr/bin/ls"), 0x1000);
    let made = place(File::PerfMap(7), 16);
    stacks.start(Name::Given(b"<script>;]]>\x1b"))?;
    stacks.push_named(b"page-faults")?;
    stacks.push(Frames::Offsets, Mode::User, 0x401000, file)?;
    stacks.push(
        Frames::Files,
        Mode::User,
        8,
        place(File::Named(b"[vdso]"), 8),
    )?;
    stacks.push(Frames::Offsets, Mode::User, 16, made)?;
    stacks.push(Frames::Offsets, Mode::Other, 0, None)?;
    stacks.push(Frames::Files, Mode::Kernel, 0xffffffff81000000, file)
}

#[test]
fn frames_have_names(rt: HostRuntime) -> Result<(), AllocError> {
    let mut stacks = Stacks::new(rt.alloc());
    let pushed = push_all(&mut stacks);
    check_bytes(&rt, stacks.text(), NAMED);
    pushed
}

// Asserts what a thread of that name is called.
fn check_name(rt: &impl Abort, stacks: &mut Stacks, name: Name<'_>, want: &[u8]) {
    match stacks.start(name) {
        Ok(()) => check_bytes(rt, stacks.text(), want),
        Err(_) => panic!(rt; "no memory"),
    }
}

#[test]
fn threads_without_a_name_have_a_number(rt: HostRuntime) {
    let mut stacks = Stacks::new(rt.alloc());
    check_name(&rt, &mut stacks, Name::Number(5), b":5");
    check_name(&rt, &mut stacks, Name::Swapper, b"swapper");
}
