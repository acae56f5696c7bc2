//! Call chains by the rules of `thread__resolve_callchain_sample` of perf.

use perf_base::endian::Dynamic;
use perf_history::Mode;
use perf_walk::{Call, push_chain};
use std::process::Abort;

#[test]
fn marks_change_the_mode(rt: HostRuntime) {
    let mut chain = [0; 48];
    let numbers: [u64; 6] = [
        0x10,
        u64::MAX - 127,
        0x20,
        u64::MAX - 4094,
        u64::MAX - 4095,
        0x30,
    ];
    for index in 0..6 {
        chain[8 * index..8 * index + 8].copy_from_slice(&numbers[index].to_be_bytes());
    }
    let mut calls = Vec::new(rt.alloc());
    assert!(rt; push_chain(&mut calls, Dynamic::Big, &chain).is_ok());
    let want = [
        Call {
            mode: Mode::User,
            address: 0x10,
        },
        Call {
            mode: Mode::Kernel,
            address: 0x20,
        },
        Call {
            mode: Mode::Other,
            address: u64::MAX - 4095,
        },
        Call {
            mode: Mode::Other,
            address: 0x30,
        },
    ];
    assert_eq!(rt; calls.as_slice(), want.as_slice());
}
