//! Records: cut lists, equality, defaults, texts, and the results of calls of plain ones.

use crate::tests::checks::{add, check_debug, check_numbers, check_text};
use bitflags::Flags;
use perf_base::endian::Dynamic;
use perf_base::laws::{dynamic_by_number, error_kind_by_number};
use perf_base::sys::{perf_event_attr, perf_event_header};
use perf_base::{CowSlice, ErrorKind};
use perf_sample_types::sample_id::SampleId;
use perf_types::laws::namespace_entry_by_numbers;
use perf_types::{
    Aux, AuxOutputHwId, BpfEvent, ITraceStart, NamespaceEntry, SwitchCpuWide, Throttle,
};
use perf_words::flags::AuxFlags;
use perf_words::laws::{Compared, branch_type_by_number, read_format_by_number};
use perf_words::named::BpfEventType;
use perf_words::{BranchType, ReadFormat};
use std::alloc::{AllocError, Global};
use std::hash::{BuildHasherDefault, FoldHasher};

// Adds the parts of a clone of a list that is split at an index, or after its last item if it is
// shorter.
fn add_parts(text: &mut String, alloc: Global, items: &CowSlice<'_, u8>, at: usize) {
    let Ok(items) = items.clone(alloc) else {
        return;
    };
    let at = at.min(items.len());
    match items.split_at(alloc, at) {
        Ok((first, second)) => {
            add(text, &first);
            add(text, &second);
            drop(first);
            drop(second);
        }
        Err(error) => add(text, &error),
    }
}

// What is left of a list that is cut to four items, and then to five, and its parts if it is split
// at three indices.
fn text_of_cuts(alloc: Global, items: CowSlice<'_, u8>) -> String {
    let (mut text, mut items) = (String::new(alloc), items);
    items.truncate(4);
    add(&mut text, &items);
    items.truncate(5);
    add(&mut text, &items);
    for at in [0, 3, 4] {
        add_parts(&mut text, alloc, &items, at);
    }
    drop(items);
    text
}

// Those of the first six numbers, all lists of this form.
macro_rules! cuts {
    ($form:literal) => {
        concat!(
            $form,
            "([0, 1, 2, 3]) ",
            $form,
            "([0, 1, 2, 3]) ",
            $form,
            "([]) ",
            $form,
            "([0, 1, 2, 3]) ",
            $form,
            "([0, 1, 2]) ",
            $form,
            "([3]) ",
            $form,
            "([0, 1, 2, 3]) ",
            $form,
            "([]) "
        )
    };
}

const SIX: [u8; 6] = [0, 1, 2, 3, 4, 5];

#[test]
fn borrowed_items_are_cut_and_split(rt: HostRuntime) {
    let text = text_of_cuts(rt.alloc(), CowSlice::Borrowed(&SIX));
    check_text(&rt, text, cuts!("Borrowed"));
}

#[test]
fn owned_items_are_cut_and_split(rt: HostRuntime) {
    match Vec::from_slice(rt.alloc(), &SIX) {
        Ok(items) => {
            let text = text_of_cuts(rt.alloc(), CowSlice::Owned(items));
            check_text(&rt, text, cuts!("Owned"));
        }
        Err(_) => panic!(rt; "no memory"),
    }
}

// Whether two values are equal, and whether their hashes are.
fn alike(both: Compared) -> [bool; 2] {
    [both.equal, both.first_hash == both.second_hash]
}

// How byte orders and kinds of errors compare.
fn orders_and_kinds() -> [[bool; 2]; 4] {
    let hashing = BuildHasherDefault::<FoldHasher>::new();
    let (big, little) = (Dynamic::Big, Dynamic::Little);
    let (eof, external) = (ErrorKind::Eof, ErrorKind::External);
    let memory = ErrorKind::OutOfMemory;
    [
        alike(dynamic_by_number(&hashing, big, little)),
        alike(dynamic_by_number(&hashing, big, big)),
        alike(error_kind_by_number(&hashing, eof, external)),
        alike(error_kind_by_number(&hashing, memory, memory)),
    ]
}

const NETWORK: NamespaceEntry = NamespaceEntry { dev: 3, inode: 4 };

const HOST_NAME: NamespaceEntry = NamespaceEntry { dev: 5, inode: 6 };

// How namespaces, flags and numbers with names compare.
fn entries_and_words() -> [[bool; 2]; 4] {
    let hashing = BuildHasherDefault::<FoldHasher>::new();
    let again = NamespaceEntry { dev: 3, inode: 4 };
    let id = ReadFormat::from_bits_retain(4);
    let (call, ret) = (BranchType::CALL, BranchType::RET);
    [
        alike(namespace_entry_by_numbers(&hashing, NETWORK, HOST_NAME)),
        alike(namespace_entry_by_numbers(&hashing, NETWORK, again)),
        alike(branch_type_by_number(&hashing, call, ret)),
        alike(read_format_by_number(&hashing, ReadFormat::ID, id)),
    ]
}

#[test]
fn equal_values_hash_alike(rt: HostRuntime) {
    let want = "[[false, false], [true, true], [false, false], [true, true]]";
    check_debug(&rt, orders_and_kinds(), want);
    check_debug(&rt, entries_and_words(), want);
}

#[test]
fn defaults_are_zero(rt: HostRuntime) {
    let header = perf_event_header::default();
    let attr = perf_event_attr::default();
    let numbers = (attr.size, attr.sample_type, attr.clockid, attr.config3);
    check_debug(
        &rt,
        (header, numbers),
        "(perf_event_header { type_: 0, misc: 0, size: 0 }, (0, 0, 0, 0))",
    );
}

#[test]
fn sample_ids(rt: HostRuntime) {
    let none = SampleId::default();
    let id = SampleId::from_parts(Some(3), Some(4), Some(5), Some(6), Some(7), Some(8));
    let task = (id.pid(), id.tid(), id.cpu());
    let event = [none.time(), id.time(), id.id(), id.stream_id()];
    check_debug(
        &rt,
        (task, event),
        "((Some(3), Some(4), Some(8)), [None, Some(5), Some(6), Some(7)])",
    );
}

// Clones of records of numbers.
fn clones() -> Result<(Throttle, ITraceStart, Aux), AllocError> {
    let throttle = Throttle {
        time: 0x8070605040302010,
        id: 0xf0e0d0c0b0a090,
        stream_id: 0xbeefcafedeadbeef,
    };
    let aux = Aux {
        aux_offset: 4096,
        aux_size: 64,
        flags: AuxFlags::PARTIAL,
    };
    let start = ITraceStart { pid: 1, tid: 2 };
    Ok((throttle.clone()?, start.clone()?, aux.clone()?))
}

#[test]
fn records_of_numbers_are_cloned(rt: HostRuntime) {
    check_debug(
        &rt,
        clones(),
        "Ok((Throttle { time: 9255003132036915216, id: 67801181601177744, \
            stream_id: 13758438582646587119 }, ITraceStart { pid: 1, tid: 2 }, \
            Aux { aux_offset: 4096, aux_size: 64, flags: AuxFlags(4) }))",
    );
}

#[test]
fn plain_records(rt: HostRuntime) {
    let switch = SwitchCpuWide::Out { pid: 1, tid: 2 };
    let into = SwitchCpuWide::In { pid: 1, tid: 2 };
    let event = BpfEvent {
        ty: BpfEventType::PROG_LOAD,
        flags: 0,
        id: 7,
        tag: [1, 2, 3, 4, 5, 6, 7, 8],
    };
    let numbers = [
        u64::from(switch.pid()),
        u64::from(switch.tid()),
        u64::from(into.tid()),
        AuxOutputHwId { hw_id: 9 }.hw_id,
        u64::from(event.tag[7]),
    ];
    check_numbers(&rt, &numbers, &[1, 2, 2, 9, 8]);
    check_debug(
        &rt,
        (into, NETWORK),
        "(In { pid: 1, tid: 2 }, NamespaceEntry { dev: 3, inode: 4 })",
    );
}
