//! How many requests for memory calls make, and what they return if one is refused.
//!
//! Each row of the table makes its calls over bytes that are the same in each run, and then prints how
//! many of the next requests are granted before one is refused. If the request R is refused and G are
//! granted after its calls, they made R - 1 - G requests. The tests with refused allocations try each row
//! alone.

ghost use Rattle.std.specs.Prelude.{⊤};

use perf_event_data::endian::{Endian, Little};
use perf_event_data::parse::{ErrorKind, ParseBuf, ParseConfig, ParseResult, Parser};
use perf_event_data::sys::perf_event_attr;
use perf_event_data::{
    BadFrame, BranchEntry, Frame, FrameHandler, Partial, PartialVisitor, PieceBuf, ReadGroup,
    Record, RecordMetadata, Registers, Sample, each_frame, frames, read_records,
};
use perf_flat::frame::FlatFrame;
use perf_flat::read::{identifier, read, read_into, read_many, read_split};
use perf_test_helpers::drops::{drop_record, drop_run, drop_sample};
use std::alloc::Global;
use std::io::BufReader;
use std::process::Abort;

// The most requests that are tried after the calls of a test.
const MOST: usize = 64;

// How many requests are granted before one is refused.
fn granted(alloc: Global) -> usize {
    for count in 0..MOST {
        if Vec::from_slice(alloc, &[0u8]).is_err() {
            return count;
        }
    }
    MOST
}

/// What calls returned, as up to four numbers. Of calls over frames these are one bit for each that gave a value,
/// was refused for its bytes, or ran out of memory, and the sum of the values.
pub type Found = [u64; 4];

// The place of the first of these that equals another.
fn place_of(found: Found, wanted: &[Found]) -> Option<usize> {
    for (place, value) in wanted.iter().enumerate() {
        if *value == found {
            return Some(place);
        }
    }
    None
}

/// Prints what a test found, and how many requests are granted after its calls. It is what it has to
/// be, or, after a refused request, what it may be then.
pub fn tell(rt: &(impl AllocGlobal + Print + Abort), name: &str, found: Found, wanted: &[Found]) {
    let count = granted(rt.alloc());
    let place = place_of(found, wanted);
    let _ = println!(rt; "{name}: result {place:?}, {count} granted");
    assert!(rt; place.is_some(), "{name}: another result");
    assert!(rt;
        place == Some(0) || count == MOST,
        "{name}: another result, with each request granted"
    );
}

// Adds what the call with this bit returned.
fn add(found: &mut Found, bit: u64, answer: ParseResult<u64>) {
    match answer {
        Ok(value) => {
            found[0] |= bit;
            found[3] = found[3].wrapping_add(value);
        }
        Err(error) if error.kind() == ErrorKind::OutOfMemory => found[2] |= bit,
        Err(_) => found[1] |= bit,
    }
}

// ---- frames one by one

// A call that reads a frame.
#[derive(Copy, Clone)]
enum Call {
    SampleInto,
    Record,
    Visit,
}

// The sum of these numbers.
fn sum_of(numbers: &[u64]) -> u64 {
    let mut sum = 0u64;
    for number in numbers {
        sum = sum.wrapping_add(*number);
    }
    sum
}

// The sum of a sample's address and its call chain.
fn value_of(sample: &Sample<'_>) -> u64 {
    let calls = sum_of(sample.callchain().unwrap_or_default());
    calls.wrapping_add(sample.ip().unwrap_or(0))
}

// The sum of the values of a group.
fn sum_of_group(group: &ReadGroup<'_>) -> u64 {
    let mut sum = 0u64;
    for entry in group.entries() {
        sum = sum.wrapping_add(entry.value());
    }
    sum
}

// The sum of where branches came from.
fn sum_of_branches(branches: &[BranchEntry]) -> u64 {
    let mut sum = 0u64;
    for branch in branches {
        sum = sum.wrapping_add(branch.from());
    }
    sum
}

// The sum of registers.
fn sum_of_registers(registers: Option<&Registers<'_>>) -> u64 {
    match registers {
        Some(registers) => sum_of(registers.regs.as_slice()),
        None => 0,
    }
}

// The sum of the numbers in a sample's other lists: its counters, where its branches came from, and
// its registers.
fn lists_of(sample: &Sample<'_>) -> u64 {
    let counters = match sample.values() {
        Some(group) => sum_of_group(group),
        None => 0,
    };
    let branches = sum_of_branches(sample.lbr().unwrap_or_default());
    let user = sum_of_registers(sample.regs_user());
    let interrupt = sum_of_registers(sample.regs_intr());
    sum_of(&[counters, branches, user, interrupt])
}

// Those of a sample; 0 of any other record.
#[derive(Drop)]
struct Values;

impl PartialVisitor for Values {
    type Output = u64;

    ghost gives = { λ _ _. ⊤ };

    ghost left_out = { λ _ _. ⊤ };

    fn visit_unimplemented(self, _metadata: RecordMetadata) -> u64 {
        0
    }

    fn visit_sample(self, content: Sample<'_>, _metadata: RecordMetadata) -> u64 {
        let value = value_of(&content);
        drop_sample(content);
        value
    }
}

fn by_record(
    alloc: Global,
    config: &ParseConfig<Little>,
    frame: &Frame<'_, '_>,
) -> ParseResult<u64> {
    match frame.record(alloc, config) {
        Ok(record) => {
            let value = match &record {
                Record::Sample(sample) => value_of(sample),
                _ => 0,
            };
            drop_record(Ok(record));
            Ok(value)
        }
        Err(error) => Err(error),
    }
}

fn by_sample_into<'p>(
    alloc: Global,
    config: &ParseConfig<Little>,
    frame: &Frame<'_, 'p>,
    place: &mut Sample<'p>,
) -> ParseResult<u64> {
    if frame.sample_into(alloc, config, place)? {
        Ok(value_of(place).wrapping_add(lists_of(place)))
    } else {
        Ok(0)
    }
}

// What a call makes of a frame.
fn answer_of<'p>(
    alloc: Global,
    config: &ParseConfig<Little>,
    frame: &Frame<'_, 'p>,
    place: &mut Sample<'p>,
    call: Call,
) -> ParseResult<u64> {
    match call {
        Call::SampleInto => by_sample_into(alloc, config, frame, place),
        Call::Record => by_record(alloc, config, frame),
        Call::Visit => frame.visit(alloc, config, Partial(Values)),
    }
}

// What a call makes of the frames of these bytes.
fn tally_of(alloc: Global, bytes: &[u8], attr: perf_event_attr, call: Call) -> Found {
    let config = ParseConfig::<Little>::from(attr);
    let mut place = Sample::default();
    let mut found: Found = [0; 4];
    let mut bit = 1u64;
    for frame in frames(bytes, Little) {
        if let Ok(frame) = frame {
            let answer = answer_of(alloc, &config, &frame, &mut place, call);
            add(&mut found, bit, answer);
            bit = bit.rotate_left(1);
        }
    }
    drop_sample(place);
    found
}

// The attribute of an event with these samples, and with user registers 0 and 1 and register 0 at an
// interrupt, and groups of counters, if they have any.
fn attr_of(sample_type: u64) -> perf_event_attr {
    perf_event_attr {
        sample_type,
        read_format: 0x8,
        sample_regs_user: 0b11,
        sample_regs_intr: 0b1,
        ..Default::default()
    }
}

// IP and RAW, and IP and CALLCHAIN.
const RAW: u64 = 0x401;

const CHAIN: u64 = 0x21;

// READ, BRANCH_STACK, REGS_USER and REGS_INTR.
const EACH_LIST: u64 = 0x4_1810;

// An address and raw bytes, twice: at 1 and at 2.
const PLAIN: &[u8] = b"\x09\0\0\0\0\0\x18\0\x01\0\0\0\0\0\0\0\x04\0\0\0abcd\
    \x09\0\0\0\0\0\x18\0\x02\0\0\0\0\0\0\0\x04\0\0\0abcd";

// Address 1 with the calls 10 and 20, and address 2 with the call 30.
const CHAINS: &[u8] = b"\x09\0\0\0\0\0\x28\0\x01\0\0\0\0\0\0\0\x02\0\0\0\0\0\0\0\
    \x0A\0\0\0\0\0\0\0\x14\0\0\0\0\0\0\0\
    \x09\0\0\0\0\0\x20\0\x02\0\0\0\0\0\0\0\x01\0\0\0\0\0\0\0\x1E\0\0\0\0\0\0\0";

// What may be found of the two chains: both, one of them, or the other.
const OF_CHAINS: [Found; 3] = [[3, 0, 0, 63], [2, 0, 1, 32], [1, 0, 2, 31]];

// Addresses 1 to 4 with the calls 10, then 20 to 40, 50 and 60, 70 to 90: the first two lists grow.
const GROWING: &[u8] = b"\x09\0\0\0\0\0\x20\0\x01\0\0\0\0\0\0\0\x01\0\0\0\0\0\0\0\x0A\0\0\0\0\0\0\0\
    \x09\0\0\0\0\0\x30\0\x02\0\0\0\0\0\0\0\x03\0\0\0\0\0\0\0\
    \x14\0\0\0\0\0\0\0\x1E\0\0\0\0\0\0\0\x28\0\0\0\0\0\0\0\
    \x09\0\0\0\0\0\x28\0\x03\0\0\0\0\0\0\0\x02\0\0\0\0\0\0\0\
    \x32\0\0\0\0\0\0\0\x3C\0\0\0\0\0\0\0\
    \x09\0\0\0\0\0\x30\0\x04\0\0\0\0\0\0\0\x03\0\0\0\0\0\0\0\
    \x46\0\0\0\0\0\0\0\x50\0\0\0\0\0\0\0\x5A\0\0\0\0\0\0\0";

// All of them, all but the first, or all but the second.
const OF_GROWING: [Found; 3] = [[15, 0, 0, 460], [14, 0, 1, 449], [13, 0, 2, 368]];

// Three samples, each with a group of counters, branches, registers of the program and at the
// interrupt: 2, 1, 2 and 1 of these, then 1, 1, 2 and 1, then 3, 2, 2 and 1. All numbers that count
// are powers of two, from 1 on.
const LISTS: &[u8] = b"\x09\0\0\0\0\0\x68\0\x02\0\0\0\0\0\0\0\x01\0\0\0\0\0\0\0\x02\0\0\0\0\0\0\0\
    \x01\0\0\0\0\0\0\0\x04\0\0\0\0\0\0\0\x05\0\0\0\0\0\0\0\0\0\0\0\0\0\0\0\
    \x02\0\0\0\0\0\0\0\x08\0\0\0\0\0\0\0\x10\0\0\0\0\0\0\0\
    \x02\0\0\0\0\0\0\0\x20\0\0\0\0\0\0\0\
    \x09\0\0\0\0\0\x60\0\x01\0\0\0\0\0\0\0\x40\0\0\0\0\0\0\0\
    \x01\0\0\0\0\0\0\0\x80\0\0\0\0\0\0\0\x05\0\0\0\0\0\0\0\0\0\0\0\0\0\0\0\
    \x02\0\0\0\0\0\0\0\0\x01\0\0\0\0\0\0\0\x02\0\0\0\0\0\0\
    \x02\0\0\0\0\0\0\0\0\x04\0\0\0\0\0\0\
    \x09\0\0\0\0\0\x88\0\x03\0\0\0\0\0\0\0\0\x08\0\0\0\0\0\0\0\x10\0\0\0\0\0\0\0\x20\0\0\0\0\0\0\
    \x02\0\0\0\0\0\0\0\0\x40\0\0\0\0\0\0\x05\0\0\0\0\0\0\0\0\0\0\0\0\0\0\0\
    \0\x80\0\0\0\0\0\0\x05\0\0\0\0\0\0\0\0\0\0\0\0\0\0\0\
    \x02\0\0\0\0\0\0\0\0\0\x01\0\0\0\0\0\0\0\x02\0\0\0\0\0\
    \x02\0\0\0\0\0\0\0\0\0\x04\0\0\0\0\0";

// All of them, or all but the first.
const OF_LISTS: [Found; 2] = [[7, 0, 0, (1 << 19) - 1], [6, 0, 1, (1 << 19) - (1 << 6)]];

// COMM, LOST_SAMPLES and SWITCH, whose bodies are numbers and byte strings.
const RECORDS: &[u8] = b"\x03\0\0\0\0\0\x18\0\x01\0\0\0\x02\0\0\0sh\0\0\0\0\0\0\
    \x0D\0\0\0\0\0\x10\0\x05\0\0\0\0\0\0\0\x0E\0\0\0\0\0\x08\0";

// ---- lists that do not fit

// A sample type, and a sample whose list claims more than it has.
const LYING: [(u64, &[u8]); 7] = [
    // CALLCHAIN
    (
        0x20,
        b"\x09\0\0\0\0\0\x18\0\0\0\0\x10\0\0\0\0\x01\0\0\0\0\0\0\0",
    ),
    // BRANCH_STACK
    (
        0x800,
        b"\x09\0\0\0\0\0\x28\0\0\0\0\x10\0\0\0\0\x01\0\0\0\0\0\0\0\x02\0\0\0\0\0\0\0\x03\0\0\0\0\0\0\0",
    ),
    // READ, of groups
    (
        0x10,
        b"\x09\0\0\0\0\0\x18\0\0\0\0\x10\0\0\0\0\x01\0\0\0\0\0\0\0",
    ),
    // REGS_USER
    (
        0x1000,
        b"\x09\0\0\0\0\0\x18\0\x02\0\0\0\0\0\0\0\x01\0\0\0\0\0\0\0",
    ),
    // STACK_USER
    (
        0x2000,
        b"\x09\0\0\0\0\0\x18\0\0\0\0\x10\0\0\0\0\x01\0\0\0\0\0\0\0",
    ),
    // AUX
    (
        0x10_0000,
        b"\x09\0\0\0\0\0\x18\0\0\0\0\x10\0\0\0\0\x01\0\0\0\0\0\0\0",
    ),
    // RAW
    (0x400, b"\x09\0\0\0\0\0\x10\0\0\0\0\x10\x01\0\0\0"),
];

// NAMESPACES that claims 2^28 of them.
const LYING_NAMESPACES: &[u8] =
    b"\x10\0\0\0\0\0\x28\0\x01\0\0\0\x02\0\0\0\0\0\0\x10\0\0\0\0\x04\0\0\0\0\0\0\0\x15\0\0\0\0\0\0\0";

// Which of these samples are refused for their bytes.
fn refused_samples(alloc: Global, call: Call) -> u64 {
    let (mut refused, mut bit) = (0u64, 1u64);
    for (sample_type, bytes) in &LYING {
        let attr = perf_event_attr {
            sample_regs_user: 0xFF,
            ..attr_of(*sample_type)
        };
        if tally_of(alloc, *bytes, attr, call) == [0, 1, 0, 0] {
            refused |= bit;
        }
        bit = bit.rotate_left(1);
    }
    refused
}

// The same, and whether those namespaces are.
fn refused_of(alloc: Global, call: Call) -> Found {
    let of_records = match call {
        Call::SampleInto => Call::Record,
        other => other,
    };
    let [_, namespaces, ..] = tally_of(alloc, LYING_NAMESPACES, attr_of(RAW), of_records);
    [refused_samples(alloc, call), namespaces, 0, 0]
}

// Why a claim of 2^28 numbers, over eight bytes, is refused: 1 for too few bytes, 2 for out of memory, or
// else 0.
fn lying_parser(alloc: Global) -> Found {
    let config = ParseConfig::<Little>::default();
    let mut parser = Parser::new(alloc, b"\x01\0\0\0\x02\0\0\0".as_slice(), config);
    match parser.parse_repeated::<u64>(1 << 28) {
        Err(error) if error.kind() == ErrorKind::Eof => [1, 0, 0, 0],
        Err(error) if error.kind() == ErrorKind::OutOfMemory => [2, 0, 0, 0],
        _ => [0; 4],
    }
}

// ---- single numbers, runs and flat frames

// The single numbers of a frame, with what its metadata has.
fn numbers_in(
    alloc: Global,
    config: &ParseConfig<Little>,
    frame: &Frame<'_, '_>,
) -> [Option<u64>; 4] {
    let time = match frame.metadata(alloc, config) {
        Ok(metadata) => metadata.sample_id().time(),
        Err(_) => None,
    };
    [
        frame.time(config),
        frame.id(config),
        frame.identifier(&Little),
        time,
    ]
}

// The task and the processor of a frame.
fn task_in(config: &ParseConfig<Little>, frame: &Frame<'_, '_>) -> [Option<u32>; 3] {
    [frame.pid(config), frame.tid(config), frame.cpu(config)]
}

// The sum of all of these.
fn sum_in(alloc: Global, config: &ParseConfig<Little>, frame: &Frame<'_, '_>) -> u64 {
    let mut sum = 0u64;
    for number in &numbers_in(alloc, config, frame) {
        sum = sum.wrapping_add(number.unwrap_or(0));
    }
    for number in &task_in(config, frame) {
        sum = sum.wrapping_add(u64::from(number.unwrap_or(0)));
    }
    sum
}

// The sum of the single numbers of the frames of RECORDS. The COMM ends with `sh` and zero bytes, which are its
// time, 26739, and what stands where an identifier would be; so does LOST_SAMPLES with 5.
fn numbers_of(alloc: Global) -> u64 {
    let config = ParseConfig::<Little>::from(perf_event_attr {
        sample_type: 0x4,
        flags: 1 << 18,
        ..Default::default()
    });
    let mut sum = 0u64;
    for frame in frames(RECORDS, Little) {
        if let Ok(frame) = frame {
            sum = sum.wrapping_add(sum_in(alloc, &config, &frame));
        }
    }
    sum
}

// Adds the sizes of the frames that are handed out.
#[derive(Drop)]
struct Sizes {
    sum: u64,
}

impl<'p, E: Endian> FrameHandler<'p, E> for Sizes {
    ghost gets = { λ _ _ _ _ _ _. ⊤ };

    fn frame(&mut self, _config: &ParseConfig<E>, frame: Result<Frame<'_, 'p>, BadFrame>) -> bool {
        let size = match frame {
            Ok(frame) => frame.rest().len() as u64,
            Err(bad) => u64::from(bad.header().size),
        };
        self.sum = self.sum.wrapping_add(size);
        true
    }
}

// The sum of what follows the headers of all frames of a buffer.
fn sizes_of<'p, B: ParseBuf<'p> + Drop>(alloc: Global, buf: B) -> u64 {
    let mut parser = Parser::new(alloc, buf, ParseConfig::<Little>::default());
    let mut sizes = Sizes { sum: 0 };
    each_frame(&mut parser, 100, &mut sizes);
    drop(parser);
    sizes.sum
}

// The same of a slice, and of pieces of which one lasts.
fn sizes_of_pieces(alloc: Global) -> Found {
    [
        sizes_of(alloc, RECORDS),
        sizes_of(alloc, PieceBuf::new(RECORDS, 64, true)),
        sizes_of(alloc, PieceBuf::new(RECORDS, 64, false)),
        0,
    ]
}

// The same of a reader.
fn sizes_of_reader(alloc: Global) -> u64 {
    match BufReader::with_capacity(alloc, 64, RECORDS) {
        Ok(reader) => sizes_of(alloc, reader),
        Err(_) => 0,
    }
}

// How many records a run lists.
fn listed<'p, B: ParseBuf<'p> + Drop>(alloc: Global, buf: B) -> u64 {
    let mut parser = Parser::new(alloc, buf, ParseConfig::<Little>::default());
    let run = read_records(&mut parser, 100);
    let count = run.frames.len() as u64;
    drop_run(run);
    drop(parser);
    count
}

// The same of a reader: LOST_SAMPLES and SWITCH, as the name in a COMM is copied.
fn listed_of_reader(alloc: Global) -> u64 {
    match BufReader::with_capacity(alloc, 64, &RECORDS[24..]) {
        Ok(reader) => listed(alloc, reader),
        Err(_) => 0,
    }
}

// The address in a flat frame.
fn address_of(frame: &FlatFrame) -> u64 {
    frame.numbers[0]
}

// The addresses of the samples with chains by a call that makes several flat frames, if there are two.
fn many_addresses(alloc: Global, config: &ParseConfig<Little>, frame: FlatFrame) -> Option<u64> {
    let mut frames = [frame; 3];
    let many = read_many(alloc, config, CHAINS, &mut frames);
    match many.count {
        2 => Some(address_of(&frames[0]).wrapping_add(address_of(&frames[1]))),
        _ => None,
    }
}

// That of the second one in the place of a frame.
fn second_address(config: &ParseConfig<Little>, frame: FlatFrame) -> Option<u64> {
    let mut frame = frame;
    if read_into(config, &CHAINS[40..], &mut frame) {
        Some(address_of(&frame))
    } else {
        None
    }
}

// That of the first one in two pieces.
fn split_address(alloc: Global, config: &ParseConfig<Little>, frame: FlatFrame) -> Option<u64> {
    let (mut frame, mut scratch) = (frame, [0; 64]);
    let (first, second) = CHAINS.split_at(20);
    let end = read_split(alloc, config, first, second, &mut scratch, &mut frame);
    match end.how {
        0 => Some(address_of(&frame)),
        _ => None,
    }
}

// The sum of the first number of each flat frame, by each call that makes one, and of the identifier.
fn flat_sum(alloc: Global) -> u64 {
    let config = ParseConfig::<Little>::from(attr_of(CHAIN));
    let Some(frame) = read(alloc, &config, CHAINS) else {
        return 0;
    };
    let found = [
        Some(address_of(&frame)),
        many_addresses(alloc, &config, frame),
        second_address(&config, frame),
        split_address(alloc, &config, frame),
        identifier(CHAINS, &Little, false),
    ];
    let mut sum = 0u64;
    for number in &found {
        match number {
            Some(number) => sum = sum.wrapping_add(*number),
            None => return 0,
        }
    }
    sum
}

// ---- the table

// What is called.
#[derive(Copy, Clone)]
enum Called {
    Over(&'static [u8], u64, Call),
    LyingLists(Call),
    LyingParser,
    Numbers,
    HandedOut,
    HandedOutOfReader,
    Listed,
    ListedOfPieces,
    ListedOfReader,
    Flat,
}

// What calls return.
fn found_by(alloc: Global, calls: Called) -> Found {
    let number = match calls {
        Called::Over(bytes, sample_type, call) => {
            return tally_of(alloc, bytes, attr_of(sample_type), call);
        }
        Called::LyingLists(call) => return refused_of(alloc, call),
        Called::LyingParser => return lying_parser(alloc),
        Called::HandedOut => return sizes_of_pieces(alloc),
        Called::Numbers => numbers_of(alloc),
        Called::HandedOutOfReader => sizes_of_reader(alloc),
        Called::Listed => listed(alloc, RECORDS),
        Called::ListedOfPieces => listed(alloc, PieceBuf::new(RECORDS, 64, true)),
        Called::ListedOfReader => listed_of_reader(alloc),
        Called::Flat => flat_sum(alloc),
    };
    [number, 0, 0, 0]
}

// What is called, and what it returns, or may return after a refused request.
type Row<'a> = (&'a str, Called, &'a [Found]);

const TABLE: [Row<'static>; 18] = [
    (
        "samples without a list, into a place",
        Called::Over(PLAIN, RAW, Call::SampleInto),
        &[[3, 0, 0, 3]],
    ),
    (
        "visits without a list",
        Called::Over(PLAIN, RAW, Call::Visit),
        &[[3, 0, 0, 3]],
    ),
    (
        "samples with a list, into a place",
        Called::Over(CHAINS, CHAIN, Call::SampleInto),
        &OF_CHAINS,
    ),
    (
        "samples with growing lists, into a place",
        Called::Over(GROWING, CHAIN, Call::SampleInto),
        &OF_GROWING,
    ),
    (
        "samples with each list, into a place",
        Called::Over(LISTS, EACH_LIST, Call::SampleInto),
        &OF_LISTS,
    ),
    (
        "visits with a list",
        Called::Over(CHAINS, CHAIN, Call::Visit),
        &OF_CHAINS,
    ),
    (
        "records with a box and a list",
        Called::Over(CHAINS, CHAIN, Call::Record),
        &OF_CHAINS,
    ),
    (
        "records without a list",
        Called::Over(RECORDS, RAW, Call::Record),
        &[[7, 0, 0, 0]],
    ),
    (
        "lying lists, into a place",
        Called::LyingLists(Call::SampleInto),
        &[[127, 1, 0, 0]],
    ),
    (
        "visits of lying lists",
        Called::LyingLists(Call::Visit),
        &[[127, 1, 0, 0]],
    ),
    (
        "a lying list of a parser",
        Called::LyingParser,
        &[[1, 0, 0, 0], [2, 0, 0, 0]],
    ),
    (
        "single numbers",
        Called::Numbers,
        &[[3 * (26739 + 5), 0, 0, 0]],
    ),
    (
        "frames that are handed out",
        Called::HandedOut,
        &[[24, 24, 24, 0]],
    ),
    (
        "frames of a reader",
        Called::HandedOutOfReader,
        &[[24, 0, 0, 0], [0; 4]],
    ),
    ("a list of records", Called::Listed, &[[3, 0, 0, 0]]),
    (
        "a list of records of pieces",
        Called::ListedOfPieces,
        &[[3, 0, 0, 0]],
    ),
    (
        "a list of records of a reader",
        Called::ListedOfReader,
        &[[2, 0, 0, 0], [0; 4]],
    ),
    (
        "flat frames",
        Called::Flat,
        &[[1 + (1 + 1 + 2 + 2 + 1), 0, 0, 0]],
    ),
];

fn tell_rows(rt: &(impl AllocGlobal + Print + Abort), rows: &[Row<'_>]) {
    for (name, calls, wanted) in rows {
        tell(rt, *name, found_by(rt.alloc(), *calls), *wanted);
    }
}

#[test]
fn requests_of_calls(rt: HostRuntime) {
    tell_rows(&rt, &TABLE);
}
