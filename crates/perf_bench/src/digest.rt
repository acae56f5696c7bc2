//! A digest of all that was read: of every header, field, list, error and text.
//!
//! These are left out:
//!
//! - the cause of an error (its kind and message are in it, and a report's whole error output);
//! - whether a list is borrowed or owned, and its capacity;
//! - the attribute and the configuration, which matter only through what is read under them;
//! - bits of a branch's word that no getter returns;
//! - getters that return parts of a field, such as the text of a name;
//! - all of a frame that a visitor does not handle, except the metadata;
//! - the position of a parser after each frame.
//!
//! Not everything that it covers occurs in the workloads: no recording has, for example, a build
//! id, a count of lost events, READ, NAMESPACES or a record of `rare`.

use bitflags::Flags;
use perf_event_data::parse::{ParseError, ParseResult};
use perf_event_data::sys::perf_event_header;
use perf_event_data::{
    BpfEvent, BranchEntry, Comm, CowSlice, Exit, KSymbol, Mmap, Mmap2, Namespaces, Read, ReadGroup,
    Record, RecordMetadata, Registers, Sample, SwitchCpuWide, TextPoke, Throttle,
};

// A list is mixed after this many numbers: the sum is rotated by seven bits at each number, so two
// numbers that are 64 apart could otherwise be swapped unnoticed.
const MIXED: usize = 32;

// Represents an absent number. A number with this value is not distinguished from an absent one.
const ABSENT: u64 = 0x9E37_79B9_7F4A_7C15;

/// A digest of all that was read, in order.
#[derive(Copy, Clone)]
pub struct Digest {
    /// The number of frames.
    pub frames: u64,
    /// The number of refused frames.
    pub refused: u64,
    /// The digest of their contents.
    pub sum: u64,
}

impl Digest {
    /// The digest of nothing.
    pub fn new() -> Digest {
        Digest {
            frames: 0,
            refused: 0,
            sum: 0,
        }
    }

    /// A number was read.
    #[inline]
    pub fn number(&mut self, number: u64) {
        self.sum = self.sum.rotate_left(7).wrapping_add(number);
    }

    // Mixes what was read so far.
    fn mix(&mut self) {
        self.sum = (self.sum ^ (self.sum >> 29)).wrapping_mul(0xBF58_476D_1CE4_E5B9);
    }

    // Numbers, without their count.
    fn numbers(&mut self, numbers: &[u64]) {
        for number in numbers {
            self.number(*number);
        }
    }

    // A list of numbers, and its length.
    fn list(&mut self, numbers: &[u64]) {
        self.number(numbers.len() as u64);
        for part in numbers.chunks(MIXED) {
            self.numbers(part);
            self.mix();
        }
    }

    fn short(&mut self, number: u32) {
        self.number(u64::from(number));
    }

    // A number that may be absent.
    fn maybe(&mut self, number: Option<u64>) {
        self.number(number.unwrap_or(ABSENT));
    }

    // Numbers that may be absent.
    fn each(&mut self, numbers: &[Option<u64>]) {
        for number in numbers {
            self.maybe(*number);
        }
    }

    fn maybe_short(&mut self, number: Option<u32>) {
        self.maybe(number.map(u64::from));
    }

    /// A byte string was read.
    pub fn bytes(&mut self, bytes: &[u8]) {
        self.number(bytes.len() as u64);
        let (words, rest) = bytes.as_chunks::<8>();
        for part in words.chunks(MIXED) {
            for word in part {
                self.number(u64::from_le_bytes(*word));
            }
            self.mix();
        }
        for byte in rest {
            self.number(u64::from(*byte));
        }
    }

    /// A text was written.
    pub fn text(&mut self, text: &[u8]) {
        self.bytes(text);
        self.frame();
    }

    fn maybe_bytes(&mut self, bytes: Option<&[u8]>) {
        match bytes {
            Some(bytes) => self.bytes(bytes),
            None => self.number(ABSENT),
        }
    }

    fn cow(&mut self, bytes: &CowSlice<'_, u8>) {
        self.bytes(bytes.as_slice());
    }

    // The type, the `misc` and the size of a frame, in a number.
    fn header(&mut self, header: perf_event_header) {
        let low = u64::from(header.misc) << 16 | u64::from(header.size);
        self.number(u64::from(header.type_) << 32 | low);
    }

    /// A list of frames was read.
    pub fn run(&mut self, frames: &[(perf_event_header, ParseResult<Record>)]) {
        for (header, answer) in frames {
            self.header(*header);
            match answer {
                Ok(record) => self.record(record),
                Err(error) => self.refusal(error),
            }
            self.frame();
        }
    }

    /// A frame was read.
    pub fn frame(&mut self) {
        self.frames = self.frames.wrapping_add(1);
        self.mix();
    }

    /// A frame was refused.
    pub fn refusal(&mut self, error: &ParseError) {
        self.refused = self.refused.wrapping_add(1);
        self.error(error);
    }

    /// A call was refused.
    pub fn error(&mut self, error: &ParseError) {
        self.number((error.kind() as u64).wrapping_add(1));
        match error.message() {
            Some(message) => self.bytes(message.as_bytes()),
            None => self.number(ABSENT),
        }
    }

    /// The metadata of a frame was read.
    pub fn metadata(&mut self, metadata: &RecordMetadata) {
        self.short(metadata.ty());
        self.number(u64::from(metadata.misc()));
        let id = metadata.sample_id();
        self.maybe_short(id.pid());
        self.maybe_short(id.tid());
        self.each(&[id.time(), id.id(), id.stream_id()]);
        self.maybe_short(id.cpu());
    }

    /// A record was read: which variant it is, and its fields.
    pub fn record(&mut self, record: &Record) {
        self.number(variant_of(record));
        match record {
            Record::Sample(sample) => self.sample(sample),
            Record::Mmap2(mapped) => self.mmap2(mapped),
            Record::Comm(comm) => self.comm(comm),
            Record::Exit(task) | Record::Fork(task) => self.task(task),
            Record::Unknown { ty, bytes } => {
                self.short(*ty);
                self.cow(bytes);
            }
            other => self.side(other),
        }
    }

    // The records that are neither samples, mappings nor those of a task.
    fn side(&mut self, record: &Record) {
        match record {
            Record::Lost(lost) => self.numbers(&[lost.id, lost.lost]),
            Record::LostSamples(lost) => self.number(lost.lost),
            Record::Throttle(event) | Record::Unthrottle(event) => self.throttle(event),
            Record::KSymbol(symbol) => self.ksymbol(symbol),
            Record::Namespaces(spaces) => self.namespaces(spaces),
            Record::Read(read) => self.read(read),
            other => self.rare(other),
        }
    }

    // The records that the workloads do not have.
    fn rare(&mut self, record: &Record) {
        match record {
            Record::Aux(aux) => self.numbers(&[aux.aux_offset, aux.aux_size, aux.flags.bits()]),
            Record::ITraceStart(start) => {
                self.numbers(&[u64::from(start.pid), u64::from(start.tid)]);
            }
            Record::SwitchCpuWide(switch) => {
                self.numbers(&[u64::from(switch.pid()), u64::from(switch.tid())]);
            }
            Record::BpfEvent(event) => self.bpf_event(event),
            Record::CGroup(group) => {
                self.number(group.id);
                self.cow(&group.path);
            }
            Record::TextPoke(poke) => self.text_poke(poke),
            Record::AuxOutputHwId(id) => self.number(id.hw_id),
            Record::Mmap(mapped) => self.mmap(mapped),
            // Only a switch is left, which has no field.
            _ => {}
        }
    }

    /// A name of a task was read.
    pub fn comm(&mut self, comm: &Comm) {
        self.short(comm.pid);
        self.short(comm.tid);
        self.cow(&comm.comm);
    }

    fn bpf_event(&mut self, event: &BpfEvent) {
        self.numbers(&[u64::from(event.ty.get()), u64::from(event.flags)]);
        self.short(event.id);
        self.bytes(&event.tag);
    }

    fn text_poke(&mut self, poke: &TextPoke) {
        self.number(poke.addr);
        self.cow(&poke.old_bytes);
        self.cow(&poke.new_bytes);
    }

    fn task(&mut self, task: &Exit) {
        self.short(task.pid);
        self.short(task.ppid);
        self.short(task.tid);
        self.short(task.ptid);
        self.number(task.time);
    }

    fn throttle(&mut self, throttle: &Throttle) {
        self.numbers(&[throttle.time, throttle.id, throttle.stream_id]);
    }

    fn ksymbol(&mut self, symbol: &KSymbol) {
        self.number(symbol.addr);
        self.short(symbol.len);
        self.number(u64::from(symbol.ksym_type.get()));
        self.number(u64::from(symbol.flags.bits()));
        self.cow(&symbol.name);
    }

    fn namespaces(&mut self, spaces: &Namespaces) {
        self.short(spaces.pid);
        self.short(spaces.tid);
        self.number(spaces.namespaces.as_slice().len() as u64);
        for entry in spaces.namespaces.as_slice() {
            self.number(entry.dev);
            self.number(entry.inode);
        }
    }

    fn mmap(&mut self, mapped: &Mmap) {
        self.short(mapped.pid);
        self.short(mapped.tid);
        self.numbers(&[mapped.addr, mapped.len, mapped.pgoff]);
        self.cow(&mapped.filename);
    }

    /// A mapping was read.
    pub fn mmap2(&mut self, mapped: &Mmap2) {
        self.short(mapped.pid);
        self.short(mapped.tid);
        self.numbers(&[mapped.addr, mapped.len, mapped.pgoff]);
        self.short(mapped.prot);
        self.short(mapped.flags);
        self.maybe_short(mapped.maj());
        self.maybe_short(mapped.min());
        self.maybe(mapped.ino());
        self.maybe(mapped.ino_generation());
        self.maybe_bytes(mapped.build_id());
        self.cow(&mapped.filename);
    }

    fn read(&mut self, read: &Read) {
        self.short(read.pid);
        self.short(read.tid);
        self.number(read.values.value());
        let (enabled, running) = (read.values.time_enabled(), read.values.time_running());
        self.each(&[enabled, running, read.values.id(), read.values.lost()]);
    }

    /// A sample was read.
    pub fn sample(&mut self, sample: &Sample) {
        self.maybe(sample.ip());
        self.maybe_short(sample.pid());
        self.maybe_short(sample.tid());
        let (addr, id) = (sample.addr(), sample.id());
        self.each(&[sample.time(), addr, id, sample.stream_id()]);
        self.maybe_short(sample.cpu());
        self.maybe(sample.period());
        self.costs(sample);
        self.lists(sample);
    }

    fn costs(&mut self, sample: &Sample) {
        self.maybe(sample.weight());
        self.maybe(sample.data_src().map(|word| word.bits()));
        self.maybe(sample.transaction().map(|word| word.bits()));
        self.each(&[sample.phys_addr(), sample.cgroup()]);
        let (of_data, of_code) = (sample.data_page_size(), sample.code_page_size());
        self.each(&[of_data, of_code, sample.lbr_hw_index()]);
    }

    fn lists(&mut self, sample: &Sample) {
        match sample.callchain() {
            Some(chain) => self.list(chain),
            None => self.number(ABSENT),
        }
        self.maybe_bytes(sample.raw());
        match sample.lbr() {
            Some(branches) => self.branches(branches),
            None => self.number(ABSENT),
        }
        self.maybe_bytes(sample.stack_user());
        self.maybe_bytes(sample.aux());
        self.registers(sample.regs_user());
        self.registers(sample.regs_intr());
        match sample.values() {
            Some(group) => self.group(group),
            None => self.number(ABSENT),
        }
    }

    fn branches(&mut self, branches: &[BranchEntry]) {
        self.number(branches.len() as u64);
        for branch in branches {
            self.number(branch.from());
            self.number(branch.to());
            self.number(branch_bits(branch));
            self.mix();
        }
    }

    fn registers(&mut self, registers: Option<&Registers>) {
        let Some(registers) = registers else {
            self.number(ABSENT);
            return;
        };
        self.number(registers.abi.get());
        self.number(registers.mask);
        self.list(registers.regs.as_slice());
    }

    fn group(&mut self, group: &ReadGroup) {
        self.number(group.len() as u64);
        self.maybe(group.time_enabled());
        self.maybe(group.time_running());
        for entry in group.entries() {
            self.number(entry.value());
            self.maybe(entry.id());
            self.maybe(entry.lost());
            self.mix();
        }
    }
}

// The number of a record's variant.
fn variant_of(record: &Record) -> u64 {
    match record {
        Record::Sample(_) => 1,
        Record::Mmap2(_) => 2,
        Record::Unknown { .. } => 3,
        Record::Comm(_) => 4,
        Record::Exit(_) => 5,
        Record::Fork(_) => 6,
        Record::Lost(_) => 7,
        Record::LostSamples(_) => 8,
        Record::Throttle(_) => 9,
        Record::Unthrottle(_) => 10,
        Record::KSymbol(_) => 11,
        Record::Namespaces(_) => 12,
        Record::Read(_) => 13,
        Record::Aux(_) => 14,
        Record::ITraceStart(_) => 15,
        Record::SwitchCpuWide(SwitchCpuWide::In { .. }) => 16,
        Record::SwitchCpuWide(SwitchCpuWide::Out { .. }) => 17,
        Record::BpfEvent(_) => 18,
        Record::CGroup(_) => 19,
        Record::TextPoke(_) => 20,
        Record::AuxOutputHwId(_) => 21,
        Record::Mmap(_) => 22,
        Record::Switch => 23,
    }
}

// The bits of a branch besides its addresses.
fn branch_bits(branch: &BranchEntry) -> u64 {
    let marks = u64::from(branch.mispred())
        | u64::from(branch.predicted()) << 1
        | u64::from(branch.in_tx()) << 2
        | u64::from(branch.abort()) << 3;
    marks | u64::from(branch.cycles()) << 4 | u64::from(branch.ty().get()) << 20
}
