//! The recording of the tests: numbers of eight bytes.

use crate::tests::files::little;
use std::alloc::{AllocError, Global};

/// The number of such numbers.
pub const WORDS: usize = 108;

/// A file of one event with the sample type IP, TID, TIME, CALLCHAIN and PERIOD, whose frames end
/// with the task and the time. The attribute is at 104, and the frames are at 184, not in order of
/// time. A header is the type, `misc` from bit 32 on, and the size from bit 48 on.
pub const RECORDING: [u64; WORDS] = [
    // the head: magic, its size, that of an entry, attributes, data, event types, features
    0x3245_4c49_4652_4550,
    104,
    80,
    104,
    80,
    184,
    680,
    0,
    0,
    0,
    0,
    0,
    0,
    // the attribute: type and size, config, period, sample type, read format, flags, and two more
    1 + (64 << 32),
    0,
    4000,
    0x127,
    0,
    1 << 18,
    0,
    0,
    // where its ids are: it has none
    0,
    0,
    // a SAMPLE of the kernel in thread 8 at time 30: address, task, time, period, chain
    9 + (1 << 32) + (88 << 48),
    0xffff_ffff_8100_0010,
    8 + (8 << 32),
    30,
    11,
    5,
    u64::MAX - 127,
    0xffff_ffff_8100_0010,
    u64::MAX - 511,
    0x1010,
    0x3020,
    // a COMM of thread 7 at time 5
    3 + (40 << 48),
    7 + (7 << 32),
    0x6873,
    7 + (7 << 32),
    5,
    // an MMAP of process 7 at time 10: task, address, length, offset, /bin/sh
    1 + (2 << 32) + (72 << 48),
    7 + (7 << 32),
    0x1000,
    0x1000,
    0x200,
    0x0068_732f_6e69_622f,
    0,
    7 + (7 << 32),
    10,
    // a FORK at time 20: process 8 of 7, thread 8 of 7
    7 + (48 << 48),
    8 + (7 << 32),
    8 + (7 << 32),
    20,
    7 + (7 << 32),
    20,
    // an MMAP2 of process 8 at time 25: inode 5 of device 8:1, PROT_READ and PROT_EXEC, /bin/ls
    10 + (2 << 32) + (96 << 48),
    8 + (8 << 32),
    0x3000,
    0x1000,
    0,
    8 + (1 << 32),
    5,
    0,
    5 + (2 << 32),
    0x0073_6c2f_6e69_622f,
    8 + (8 << 32),
    25,
    // a KSYMBOL at time 26: address, length, kind and flags, bpf_x
    17 + (48 << 48),
    0xffff_ffff_8100_0000,
    0x100 + (1 << 32),
    0x0000_0078_5f66_7062,
    0,
    26,
    // a FINISHED_ROUND, of perf itself
    68 + (8 << 48),
    // a COMM of thread 8 at time 40
    3 + (40 << 48),
    8 + (8 << 32),
    0x736c,
    8 + (8 << 32),
    40,
    // a SAMPLE of thread 8 at time 50 without addresses in its chain
    9 + (2 << 32) + (48 << 48),
    0x3040,
    8 + (8 << 32),
    50,
    12,
    0,
    // a FORK at time 60 that perf made up: process 9 of 8
    7 + (0x2000 << 32) + (48 << 48),
    9 + (8 << 32),
    9 + (8 << 32),
    60,
    8 + (8 << 32),
    60,
    // a SAMPLE of thread 9 at time 70
    9 + (2 << 32) + (56 << 48),
    0x1010,
    9 + (9 << 32),
    70,
    13,
    1,
    0x1010,
    // a SAMPLE at time 80 that ends before its chain
    9 + (2 << 32) + (40 << 48),
    0x1010,
    9 + (9 << 32),
    80,
    14,
    // a KSYMBOL at time 90: bpf_x is removed
    17 + (48 << 48),
    0xffff_ffff_8100_0000,
    0x100 + (1 << 32) + (1 << 48),
    0x0000_0078_5f66_7062,
    0,
    90,
];

/// A file of one event with the sample type IP, TID and TIME, and two samples of thread 8: perf prints
/// the period of the event, 4000, for each.
pub const WITHOUT_PERIODS: [u64; 31] = [
    // the head, the attribute, and where its ids are, as above
    0x3245_4c49_4652_4550,
    104,
    80,
    104,
    80,
    184,
    64,
    0,
    0,
    0,
    0,
    0,
    0,
    1 + (64 << 32),
    0,
    4000,
    7,
    0,
    1 << 18,
    0,
    0,
    0,
    0,
    // the samples: address, task, time
    9 + (2 << 32) + (32 << 48),
    0x1010,
    8 + (8 << 32),
    30,
    9 + (2 << 32) + (32 << 48),
    0x1010,
    8 + (8 << 32),
    40,
];

/// The bytes of the recording.
pub fn recording(alloc: Global) -> Result<Vec<u8>, AllocError> {
    little(alloc, &RECORDING, &[], &[])
}
