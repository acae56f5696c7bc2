//! Generated recordings: an attribute, and frames of one kind of recording after it.

use crate::pool::{Kind, Pool};
use crate::random::Random;
use crate::stream::{ByteOrder, Event, Stream};
use bitflags::Flags;
use perf_event_data::SampleFlags;
use std::alloc::{AllocError, Global};

// What a flat sample has.
const FLAT: &[SampleFlags] = &[
    SampleFlags::IP,
    SampleFlags::TID,
    SampleFlags::TIME,
    SampleFlags::CPU,
    SampleFlags::PERIOD,
];

// What a sample of a memory access has beside that.
const MEMORY: &[SampleFlags] = &[
    SampleFlags::ADDR,
    SampleFlags::ID,
    SampleFlags::STREAM_ID,
    SampleFlags::WEIGHT,
    SampleFlags::DATA_SRC,
    SampleFlags::IDENTIFIER,
    SampleFlags::TRANSACTION,
    SampleFlags::PHYS_ADDR,
    SampleFlags::CGROUP,
    SampleFlags::DATA_PAGE_SIZE,
    SampleFlags::CODE_PAGE_SIZE,
];

// What a sample of stacks has.
const STACKS: &[SampleFlags] = &[
    SampleFlags::IP,
    SampleFlags::TID,
    SampleFlags::TIME,
    SampleFlags::REGS_USER,
    SampleFlags::STACK_USER,
];

// What a sample of branches has.
const BRANCHES: &[SampleFlags] = &[
    SampleFlags::IP,
    SampleFlags::TID,
    SampleFlags::TIME,
    SampleFlags::PERIOD,
    SampleFlags::BRANCH_STACK,
];

// What a sample of a group of counters has.
const GROUPS: &[SampleFlags] = &[SampleFlags::TID, SampleFlags::TIME, SampleFlags::READ];

// A group, its two times, and an id for each counter.
const GROUP_FORMAT: u64 = 1 << 3 | 1 << 2 | 1 << 1 | 1 << 0;

/// Kinds of recordings.
#[derive(Copy, Clone, PartialEq, Eq)]
pub enum Recording {
    /// Samples without a list, and records about tasks.
    Flat,
    /// Samples with call chains, and records about tasks.
    Chains,
    /// Records about tasks alone.
    Tasks,
    /// Samples with registers and a copy of the stack.
    Stacks,
    /// Samples with branches.
    Branches,
    /// Memory samples, with 16 fields.
    Memory,
    /// Samples of tracepoints.
    Raw,
    /// Samples with groups of counters.
    Groups,
    /// Samples without a list, under an attribute that claims one.
    Refused,
    /// Samples with a chain whose length exceeds all memory.
    Lies,
    /// Frames of 60 kB of unknown type.
    Unknown,
}

// The bits of these flags.
fn bits_of(flags: &[SampleFlags]) -> u64 {
    let mut bits = 0;
    for flag in flags {
        bits |= flag.bits();
    }
    bits
}

impl Recording {
    // The attribute of a recording of this kind.
    fn event(self) -> Event {
        let sample_type = match self {
            Recording::Flat | Recording::Tasks | Recording::Unknown => bits_of(FLAT),
            Recording::Chains | Recording::Refused | Recording::Lies => {
                bits_of(FLAT) | SampleFlags::CALLCHAIN.bits()
            }
            Recording::Stacks => bits_of(STACKS),
            Recording::Branches => bits_of(BRANCHES),
            Recording::Memory => bits_of(FLAT) | bits_of(MEMORY),
            Recording::Raw => bits_of(FLAT) | SampleFlags::RAW.bits(),
            Recording::Groups => bits_of(GROUPS),
        };
        Event {
            sample_type,
            read_format: GROUP_FORMAT,
            branch_type: 1 << 3,
            regs_user: 0xFF_0FFF,
        }
    }

    // The kind of the pool that its frames take from.
    fn kind(self) -> Kind {
        match self {
            Recording::Stacks => Kind::Stacks,
            Recording::Branches => Kind::Branches,
            Recording::Raw => Kind::Raw,
            Recording::Groups => Kind::Groups,
            Recording::Unknown => Kind::Unknown,
            Recording::Flat
            | Recording::Chains
            | Recording::Tasks
            | Recording::Memory
            | Recording::Refused
            | Recording::Lies => Kind::Chains,
        }
    }
}

/// Generates recordings of one kind.
#[derive(Drop)]
pub struct Maker {
    recording: Recording,
    lists: Pool,
    files: Pool,
    tasks: Pool,
    order: ByteOrder,
}

impl Maker {
    /// A generator of recordings of one kind.
    pub fn new(
        alloc: Global,
        recording: Recording,
        order: ByteOrder,
        random: &mut Random,
    ) -> Result<Maker, AllocError> {
        Ok(Maker {
            recording,
            lists: Pool::new(alloc, recording.kind(), order, random)?,
            files: Pool::new(alloc, Kind::Files, order, random)?,
            tasks: Pool::new(alloc, Kind::Tasks, order, random)?,
            order,
        })
    }

    /// Makes a recording of about `size` bytes.
    pub fn make(&self, stream: &mut Stream, size: usize) -> Result<(), AllocError> {
        stream.begin(self.order, self.recording.event())?;
        for _ in 0..size {
            if stream.bytes.len() >= size {
                break;
            }
            self.push_next(stream)?;
        }
        Ok(())
    }

    // Appends a frame.
    fn push_next(&self, stream: &mut Stream) -> Result<(), AllocError> {
        match self.recording {
            Recording::Flat | Recording::Chains => {
                if stream.random.bits(6) < 58 {
                    self.push_sample(stream)
                } else {
                    self.push_task(stream)
                }
            }
            Recording::Tasks => self.push_task(stream),
            Recording::Memory => push_memory(stream),
            Recording::Groups => self.push_group(stream),
            Recording::Unknown => {
                let number = stream.random.number();
                let bytes = self.lists.pick(&mut stream.random);
                stream.push_frame(77, [number], bytes, &[])
            }
            Recording::Stacks
            | Recording::Branches
            | Recording::Raw
            | Recording::Refused
            | Recording::Lies => self.push_sample(stream),
        }
    }

    // Appends a sample that ends with a list, if it has one.
    fn push_sample(&self, stream: &mut Stream) -> Result<(), AllocError> {
        let ip = 0x5500_0000_0000 | stream.random.bits(24);
        let task = stream.order.pair(4_321, stream.random.short(12));
        let time = stream.tick();
        let cpu = stream.order.pair(stream.random.short(5), 0);
        let period = stream.random.bits(20);
        let flat = [ip, task, time, cpu, period];
        let list = self.lists.pick(&mut stream.random);
        match self.recording {
            Recording::Stacks => stream.push_frame(9, [ip, task, time], list, &[]),
            Recording::Branches => stream.push_frame(9, [ip, task, time, period], list, &[]),
            Recording::Chains | Recording::Raw => stream.push_frame(9, flat, list, &[]),
            Recording::Lies => stream.push_frame(9, flat, &[], &[u64::MAX / 8, ip, time]),
            _ => stream.push_frame(9, flat, &[], &[]),
        }
    }

    // Appends a sample with a group of counters.
    fn push_group(&self, stream: &mut Stream) -> Result<(), AllocError> {
        let task = stream.order.pair(4_321, stream.random.short(12));
        let time = stream.tick();
        let group = self.lists.pick(&mut stream.random);
        stream.push_frame(9, [task, time], group, &[])
    }

    // Appends a record about a task.
    fn push_task(&self, stream: &mut Stream) -> Result<(), AllocError> {
        let order = stream.order;
        let task = order.pair(4_321, stream.random.short(12));
        let time = stream.tick();
        let cpu = order.pair(stream.random.short(5), 0);
        let last = [task, time, cpu];
        let other = stream.random.number();
        match stream.random.bits(4) {
            0..=7 => self.push_mapping(stream, task, other, &last),
            8..=10 => {
                let name = self.tasks.pick(&mut stream.random);
                stream.push_frame(3, [task], name, &last)
            }
            11 => stream.push_frame(7, [task, task, time], &[], &last),
            12 => stream.push_frame(4, [task, task, time], &[], &last),
            13 => stream.push_frame(2, [other, 17], &[], &last),
            14 => stream.push_frame(5, [time, other, other], &[], &last),
            _ => self.push_symbol(stream, other, &last),
        }
    }

    // Appends a mapping of a task's, whose place and inode are of a random number.
    #[inline]
    fn push_mapping(
        &self,
        stream: &mut Stream,
        task: u64,
        other: u64,
        last: &[u64],
    ) -> Result<(), AllocError> {
        let order = stream.order;
        let place = other % (1 << 47);
        let words = [
            task,
            place,
            1 << 16,
            0,
            order.pair(8, 1),
            other,
            1,
            order.pair(5, 2),
        ];
        let name = self.files.pick(&mut stream.random);
        stream.push_frame(10, words, name, last)
    }

    // Appends a symbol of the kernel's at an address.
    #[inline]
    fn push_symbol(
        &self,
        stream: &mut Stream,
        address: u64,
        last: &[u64],
    ) -> Result<(), AllocError> {
        let words = [address, stream.order.pair(4_096, 0x1_0000)];
        let name = self.tasks.pick(&mut stream.random);
        stream.push_frame(17, words, name, last)
    }
}

// Appends a memory sample, with all fields that are one number.
fn push_memory(stream: &mut Stream) -> Result<(), AllocError> {
    let task = stream.order.pair(4_321, stream.random.short(12));
    let time = stream.tick();
    let cpu = stream.order.pair(stream.random.short(5), 0);
    let ip = 0x5500_0000_0000 | stream.random.bits(24);
    let place = stream.random.number();
    let weight = stream.random.bits(10);
    let words = [
        7,
        ip,
        task,
        time,
        place,
        7,
        7,
        cpu,
        1_000,
        weight,
        0x2_6810_0842,
        0,
        place,
        4_242,
        4_096,
        4_096,
    ];
    stream.push_frame(9, words, &[], &[])
}
