//! What is printed of a recording, also if a record is refused, a header is cut or the input fails,
//! and when lines are written.

use crate::tests::checks::{check_bytes, check_same, check_text};
use anyhow::{Result as AnyResult, bail};
use perf_event_data::endian::Little;
use perf_event_data::parse::{ParseConfig, ParseResult, Parser};
use perf_event_data::sys::perf_event_header;
use perf_event_data::{Record, RunEnd, read_records};
use perf_reports::printing::{Report, print_recording};
use perf_reports::{samples, tasks};
use perf_test_helpers::drops::end_of;
use perf_test_inputs::bytes::{PLAIN_64, PLAIN_100};
use std::alloc::{AllocError, Global};
use std::cell::Cell;
use std::io;
use std::io::{BufReader, Read, Write};
use std::process::Abort;

// ---- inputs

// COMM of process 1 and thread 2, whose name is `sh`.
const COMM: &[u8] = b"\x03\0\0\0\0\0\x18\0\x01\0\0\0\x02\0\0\0sh\0\0\0\0\0\0";

// A record that is refused because its header contains the size 7.
const SMALL: &[u8] = b"\x02\0\0\0\0\0\x07\0";

// Why it is refused.
const TOO_SMALL: &[u8] = b"invalid record: header size was too small to be valid\n";

// An attribute of 64 bytes that asks for call chains.
const CHAINS: &[u8] =
    b"\0\0\0\0\x40\0\0\0\0\0\0\0\0\0\0\0\0\0\0\0\0\0\0\0\x20\0\0\0\0\0\0\0\0\0\0\0\0\0\0\0\0\0\0\0\0\0\0\0\0\0\0\0\0\0\0\0\0\0\0\0\0\0\0\0";

// Attributes of 64 bytes: of stacks; of the thread and a sample id; of a counter with a bit that is
// not known; of groups of counters.
const STACKS: &[u8] =
    b"\0\0\0\0\x40\0\0\0\0\0\0\0\0\0\0\0\0\0\0\0\0\0\0\0\0\x20\0\0\0\0\0\0\0\0\0\0\0\0\0\0\0\0\0\
    \0\0\0\0\0\0\0\0\0\0\0\0\0\0\0\0\0\0\0\0\0";

const THREADS: &[u8] =
    b"\0\0\0\0\x40\0\0\0\0\0\0\0\0\0\0\0\0\0\0\0\0\0\0\0\x02\0\0\0\0\0\0\0\0\0\0\0\0\0\0\0\0\0\
    \x04\0\0\0\0\0\0\0\0\0\0\0\0\0\0\0\0\0\0\0\0\0";

const UNKNOWN_COUNTERS: &[u8] =
    b"\0\0\0\0\x40\0\0\0\0\0\0\0\0\0\0\0\0\0\0\0\0\0\0\0\x10\0\0\0\0\0\0\0\x20\0\0\0\0\0\0\0\0\0\
    \0\0\0\0\0\0\0\0\0\0\0\0\0\0\0\0\0\0\0\0\0\0";

const GROUPS: &[u8] =
    b"\0\0\0\0\x40\0\0\0\0\0\0\0\0\0\0\0\0\0\0\0\0\0\0\0\x10\0\0\0\0\0\0\0\x0C\0\0\0\0\0\0\0\0\0\
    \0\0\0\0\0\0\0\0\0\0\0\0\0\0\0\0\0\0\0\0\0\0";

// A LOST record of one number, an MMAP2 record whose build id has 21 bytes, and a sample of a stack
// of eight bytes, of which nine are used.
const LOST_MMAP2_STACK: &[u8] =
    b"\x02\0\0\0\0\0\x10\0\x01\0\0\0\0\0\0\0\x0A\0\0\0\0\x40\x48\0\x01\0\0\0\x02\0\0\0\0\x10\0\0\
    \0\0\0\0\x20\0\0\0\0\0\0\0\0\0\0\0\0\0\0\0\x15\0\0\0\0\0\0\0\0\0\0\0\0\0\0\0\0\0\0\0\0\0\0\
    \0\x05\0\0\0\x02\0\0\0\x09\0\0\0\0\0\x20\0\x08\0\0\0\0\0\0\0abcdefgh\x09\0\0\0\0\0\0\0";

// Some bytes and others after them.
fn join(alloc: Global, first: &[u8], second: &[u8]) -> Result<Vec<u8>, AllocError> {
    let mut bytes = Vec::from_slice(alloc, first)?;
    bytes.extend_from_slice(second)?;
    Ok(bytes)
}

// Marks a byte in a log.
fn note(log: &Cell<u64>, mark: u64, byte: u8) {
    let digest = log.get().rotate_left(7).wrapping_mul(mark);
    log.set(digest.wrapping_add(u64::from(byte)));
}

// Gives bytes, at most `most` at a time, and then ends, or fails with each read. A batch begins
// wherever the number of bytes left is one of `batches`: no read goes past that, and the log has
// each read there.
#[derive(Copy, Clone)]
struct Input<'a> {
    log: &'a Cell<u64>,
    bytes: &'a [u8],
    most: usize,
    batches: &'a [usize],
    fault: Option<io::ErrorKind>,
}

impl Input<'_> {
    // How many bytes are left before the next batch begins.
    fn left_in_batch(&self) -> usize {
        let left = self.bytes.len();
        let mut count = left;
        for batch in self.batches {
            if *batch < left {
                count = count.min(left - *batch);
            }
        }
        count
    }
}

impl Read for Input<'_> {
    fn read(&mut self, buf: &mut [u8]) -> io::Result<usize> {
        if self.batches.contains(&self.bytes.len()) {
            note(self.log, 7, 0);
        }
        if self.bytes.is_empty() {
            return match self.fault {
                Some(kind) => Err(io::Error::from(kind)),
                None => Ok(0),
            };
        }
        let count = buf.len().min(self.most).min(self.left_in_batch());
        self.bytes.read(&mut buf[..count])
    }
}

// For each 256th frame, how many bytes are left where it begins, after an attribute of 64 bytes.
fn batches_of(alloc: Global, bytes: &[u8]) -> Result<Vec<usize>, AllocError> {
    let mut batches = Vec::new(alloc);
    let mut rest = bytes.get(64..).unwrap_or_default();
    for frame in 0..bytes.len() {
        if frame % 256 == 0 {
            batches.push(rest.len())?;
        }
        let size = match rest.get(6..8) {
            Some([low, high]) => u16::from_le_bytes([*low, *high]),
            _ => break,
        };
        rest = rest.get(usize::from(size.max(8))..).unwrap_or_default();
    }
    Ok(batches)
}

// Appends a COMM record of process 1 and thread 2, whose name is padded to a multiple of eight
// bytes.
fn push_named(bytes: &mut Vec<u8>, name: &[u8]) -> Result<(), AllocError> {
    let len = (name.len() / 8).saturating_add(1).saturating_mul(8);
    let size = u16::try_from(len.saturating_add(16)).unwrap_or(u16::MAX);
    let end = bytes.len().saturating_add(usize::from(size));
    let [low, high] = size.to_le_bytes();
    bytes.extend_from_slice(&[3, 0, 0, 0, 0, 0, low, high, 1, 0, 0, 0, 2, 0, 0, 0])?;
    bytes.extend_from_slice(name)?;
    bytes.resize(end, 0)?;
    Ok(())
}

// An attribute, and COMM records whose names grow, with a refused record before every `refused`-th.
fn names_that_grow(alloc: Global, count: usize, refused: usize) -> Result<Vec<u8>, AllocError> {
    let mut bytes = Vec::from_slice(alloc, &PLAIN_64)?;
    let name = [b'n'; 512];
    for i in 0..count {
        if i.checked_rem(refused) == Some(0) {
            bytes.extend_from_slice(SMALL)?;
        }
        push_named(&mut bytes, &name[..8 * (i % 64)])?;
    }
    Ok(bytes)
}

// The longest name.
const LONG: [u8; 60_000] = [b'n'; 60_000];

// An attribute, a COMM record, one with a name of `len` bytes, and one more.
fn long_name(alloc: Global, len: usize) -> Result<Vec<u8>, AllocError> {
    let mut bytes = join(alloc, &PLAIN_64, COMM)?;
    push_named(&mut bytes, &LONG[..len.min(LONG.len())])?;
    bytes.extend_from_slice(COMM)?;
    Ok(bytes)
}

// Appends a sample with so many addresses.
fn push_chain(bytes: &mut Vec<u8>, count: u16) -> Result<(), AllocError> {
    let [low, high] = count.to_le_bytes();
    let [low_size, high_size] = count.saturating_mul(8).saturating_add(16).to_le_bytes();
    bytes.extend_from_slice(&[
        9, 0, 0, 0, 0, 0, low_size, high_size, low, high, 0, 0, 0, 0, 0, 0,
    ])?;
    for address in 0..count {
        bytes.extend_from_slice(&u64::from(address).to_le_bytes())?;
    }
    Ok(())
}

// An attribute that asks for call chains, and samples with so many addresses.
fn with_chains(alloc: Global) -> Result<Vec<u8>, AllocError> {
    let mut bytes = Vec::from_slice(alloc, CHAINS)?;
    for count in &[1, 8000, 0, 300] {
        push_chain(&mut bytes, *count)?;
    }
    Ok(bytes)
}

// ---- what is printed

// What is printed of an attribute and of the bytes after it: the lines, the errors, and how it
// ended: `clean`, `refused` or the text of an error.
#[derive(Copy, Clone)]
struct Printed<'a> {
    name: &'a str,
    report: Report,
    attr: &'a [u8],
    after: &'a [u8],
    fault: Option<io::ErrorKind>,
    output: &'a [u8],
    errors: &'a [u8],
    end: &'a str,
}

const PRINTED: [Printed; 14] = [
    Printed {
        name: "a record about a task has a line",
        report: Report::Tasks,
        attr: &PLAIN_64,
        after: COMM,
        fault: None,
        output: b"comm 1 2 sh\n",
        errors: b"",
        end: "clean",
    },
    Printed {
        name: "and none if samples are printed",
        report: Report::Samples,
        attr: &PLAIN_64,
        after: COMM,
        fault: None,
        output: b"",
        errors: b"",
        end: "clean",
    },
    Printed {
        name: "a refused record is printed as an error",
        report: Report::Tasks,
        attr: &PLAIN_64,
        after: b"\x02\0\0\0\0\0\x07\0\x03\0\0\0\0\0\x18\0\x01\0\0\0\x02\0\0\0sh\0\0\0\0\0\0",
        fault: None,
        output: b"comm 1 2 sh\n",
        errors: TOO_SMALL,
        end: "refused",
    },
    Printed {
        name: "each refused record has its reason",
        report: Report::Samples,
        attr: STACKS,
        after: LOST_MMAP2_STACK,
        fault: None,
        output: b"",
        errors: b"unexpected EOF during parsing\n\
            invalid record: build_id had invalid length\n\
            invalid record: stack dyn_size was greater than the record size\n",
        end: "refused",
    },
    Printed {
        name: "also one that is too short for its sample id",
        report: Report::Samples,
        attr: THREADS,
        after: b"\x03\0\0\0\0\0\x0C\0\x01\0\0\0",
        fault: None,
        output: b"",
        errors: b"invalid record: config has sample_id_all bit set but record does not have enough \
            data to store the sample_id\n",
        end: "refused",
    },
    Printed {
        name: "a sample and a read of a counter",
        report: Report::Samples,
        attr: UNKNOWN_COUNTERS,
        after: b"\x09\0\0\0\0\0\x10\0\x01\0\0\0\0\0\0\0\x08\0\0\0\0\0\x18\0\x01\0\0\0\x02\0\0\0\x03\0\0\0\0\
            \0\0\0",
        fault: None,
        output: b"",
        errors: b"unsupported config: read_format contains unsupported flags\n\
            unsupported config: read_format contains unsupported flags\n",
        end: "refused",
    },
    Printed {
        name: "a group that is too large, and a read of one counter where there are groups",
        report: Report::Samples,
        attr: GROUPS,
        after: b"\x09\0\0\0\0\0\x10\0\0\0\0\0\0\0\0\x80\x08\0\0\0\0\0\x18\0\x01\0\0\0\x02\0\0\0\x03\0\0\0\0\
            \0\0\0",
        fault: None,
        output: b"",
        errors: b"invalid record: number of elements in group read was too large for data type\n\
            unsupported config: attempted to parse a SingleRead with a config that has GROUP set in \
            read_format\n",
        end: "refused",
    },
    Printed {
        name: "a cut header is an error after the lines",
        report: Report::Tasks,
        attr: &PLAIN_64,
        after: b"\x03\0\0\0\0\0\x18\0\x01\0\0\0\x02\0\0\0sh\0\0\0\0\0\0\x0D\0\0",
        fault: None,
        output: b"comm 1 2 sh\n",
        errors: b"",
        end: "the input ends inside a header",
    },
    Printed {
        name: "a failing input is an error after the lines",
        report: Report::Tasks,
        attr: &PLAIN_64,
        after: COMM,
        fault: Some(io::ErrorKind::Other),
        output: b"comm 1 2 sh\n",
        errors: b"",
        end: "user-provided error: other error",
    },
    Printed {
        name: "also inside a record",
        report: Report::Tasks,
        attr: &PLAIN_64,
        after: b"\x03\0\0\0\0\0\x18\0\x01\0\0\0\x02\0\0\0sh\0\0\0\0\0\0\x03\0\0\0\0\0\x18\0\x01\0\0\0",
        fault: Some(io::ErrorKind::Other),
        output: b"comm 1 2 sh\n",
        errors: b"",
        end: "user-provided error: other error",
    },
    Printed {
        name: "and after a refused record",
        report: Report::Tasks,
        attr: &PLAIN_64,
        after: SMALL,
        fault: Some(io::ErrorKind::Other),
        output: b"",
        errors: TOO_SMALL,
        end: "user-provided error: other error",
    },
    Printed {
        name: "a refused attribute is an error",
        report: Report::Tasks,
        attr: &PLAIN_100,
        after: COMM,
        fault: None,
        output: b"",
        errors: b"",
        end: NO_ATTRIBUTE,
    },
    Printed {
        name: "an input that ends inside the attribute is an error",
        report: Report::Tasks,
        attr: b"\0\0\0\0\x40\0\0",
        after: b"",
        fault: None,
        output: b"",
        errors: b"",
        end: NO_ATTRIBUTE,
    },
    Printed {
        name: "an input that fails there is another",
        report: Report::Tasks,
        attr: b"\0\0\0\0\x40\0\0",
        after: b"",
        fault: Some(io::ErrorKind::Other),
        output: b"",
        errors: b"",
        end: "user-provided error: other error",
    },
];

const NO_ATTRIBUTE: &str =
    "the input does not begin with an attribute; if it is a file of `perf record`, use perf_data";

// The text of how it ended.
fn text_of_end(alloc: Global, outcome: AnyResult<bool>) -> Result<String, AllocError> {
    match outcome {
        Ok(true) => String::from_str(alloc, "clean"),
        Ok(false) => String::from_str(alloc, "refused"),
        Err(error) => format!(in alloc; "{error}"),
    }
}

// Asserts what is printed of bytes that are read at most `most` at a time.
fn check_reads(rt: &(impl AllocGlobal + Abort), case: &Printed<'_>, bytes: &[u8], most: usize) {
    let log = Cell::new(1);
    let input = Input {
        log: &log,
        bytes,
        most,
        batches: &[],
        fault: case.fault,
    };
    let (mut output, mut errors) = (Vec::new(rt.alloc()), Vec::new(rt.alloc()));
    let outcome = print_recording(rt.alloc(), input, &mut output, &mut errors, case.report);
    check_text(rt, text_of_end(rt.alloc(), outcome), case.end);
    check_bytes(rt, case.name, &output, case.output);
    check_bytes(rt, case.name, &errors, case.errors);
}

// Asserts what is printed of a recording, however many bytes a read gives.
fn check_printed(rt: &(impl AllocGlobal + Abort), case: &Printed<'_>) {
    match join(rt.alloc(), case.attr, case.after) {
        Ok(bytes) => {
            for most in &[1, 7, 8192] {
                check_reads(rt, case, &bytes, *most);
            }
        }
        Err(_) => panic!(rt; "no memory"),
    }
}

#[test]
fn recordings_are_printed(rt: HostRuntime) {
    for case in &PRINTED {
        check_printed(&rt, case);
    }
}

// A refused record, and 600 others.
fn early_refusal(alloc: Global) -> Result<Vec<u8>, AllocError> {
    let tasks = COMM.repeat(alloc, 600)?;
    join(alloc, SMALL, &tasks)
}

// A refused record is read with the first 256 frames, and those after them are not refused.
#[test]
fn an_early_refusal_is_not_forgotten(rt: HostRuntime) -> Result<(), AllocError> {
    let after = early_refusal(rt.alloc())?;
    let output = b"comm 1 2 sh\n".repeat(rt.alloc(), 600)?;
    let case = Printed {
        name: "an early refusal",
        report: Report::Tasks,
        attr: &PLAIN_64,
        after: &after,
        fault: None,
        output: &output,
        errors: TOO_SMALL,
        end: "refused",
    };
    check_printed(&rt, &case);
    Ok(())
}

// ---- what is written at a time

// Counts writes, and notes whether each is of whole lines, and of at most 4,096 bytes if it is of
// several.
#[derive(Drop)]
struct Whole {
    writes: usize,
    whole: bool,
}

impl Write for Whole {
    fn write(&mut self, buf: &[u8]) -> io::Result<usize> {
        let mut lines = 0usize;
        for byte in buf {
            lines = lines.saturating_add(usize::from(*byte == b'\n'));
        }
        self.writes = self.writes.saturating_add(1);
        self.whole &= buf.ends_with(b"\n") && (buf.len() <= 4096 || lines == 1);
        Ok(buf.len())
    }

    fn flush(&mut self) -> io::Result<()> {
        Ok(())
    }
}

// The number of writes for the lines of a recording, if all of them are of whole lines.
fn writes_of(alloc: Global, input: &[u8], report: Report) -> Option<usize> {
    let mut output = Whole {
        writes: 0,
        whole: true,
    };
    let mut errors = Vec::new(alloc);
    let outcome = print_recording(alloc, input, &mut output, &mut errors, report);
    if outcome.is_ok() && output.whole {
        Some(output.writes)
    } else {
        None
    }
}

// Asserts how many writes print what is in an input.
fn check_writes(
    rt: &(impl AllocGlobal + Abort),
    input: Result<Vec<u8>, AllocError>,
    report: Report,
    want: usize,
) {
    match input {
        Ok(input) => match writes_of(rt.alloc(), &input, report) {
            Some(writes) => check_same(rt, "writes", writes, want),
            None => panic!(rt; "not printed, or not in whole lines"),
        },
        Err(_) => panic!(rt; "no memory"),
    }
}

// 256 tasks with names of `len` bytes, whose lines have ten bytes more.
fn many_names(alloc: Global, len: usize) -> Result<Vec<u8>, AllocError> {
    let mut lines = Vec::from_slice(alloc, &PLAIN_64)?;
    let name = &LONG[..len.min(LONG.len())];
    for _ in 0..256 {
        push_named(&mut lines, name)?;
    }
    Ok(lines)
}

// Lengths of names, and how many writes print 256 of them. Lines of 64 bytes: 4 times 64 of them are
// 4,096 bytes. 62 lines of 66 bytes are 4,092 bytes, so that 256 are four times 62 and 8 more.
const OF_256: [(usize, usize); 2] = [(54, 4), (56, 5)];

#[test]
fn a_write_is_of_whole_lines(rt: HostRuntime) {
    for (len, writes) in &OF_256 {
        check_writes(&rt, many_names(rt.alloc(), *len), Report::Tasks, *writes);
    }
    check_writes(&rt, with_chains(rt.alloc()), Report::Samples, 3);
}

#[test]
fn names_that_grow_take_many_writes(rt: HostRuntime) -> Result<(), AllocError> {
    let input = names_that_grow(rt.alloc(), 700, 1_000)?;
    let writes = writes_of(rt.alloc(), &input, Report::Tasks).unwrap_or(0);
    check_same(&rt, "more than 40 writes", writes > 40, true);
    Ok(())
}

// Lengths of a name, and how many writes print it between two others. Lines of 12 bytes, of 10 more
// than the name, and of 12 bytes: the second fits with both others, with the first, with none.
const OF_THREE: [(usize, usize); 6] = [
    (4062, 1),
    (4063, 2),
    (4074, 2),
    (4075, 3),
    (5000, 3),
    (40_000, 3),
];

#[test]
fn a_long_line_has_a_write_of_its_own(rt: HostRuntime) {
    for (len, writes) in &OF_THREE {
        check_writes(&rt, long_name(rt.alloc(), *len), Report::Tasks, *writes);
    }
}

// ---- what is written, and when

// One of two outputs with one log, whose bytes it marks. It takes `room` bytes, and then it fails.
#[derive(Copy, Clone)]
struct Output<'a> {
    log: &'a Cell<u64>,
    mark: u64,
    room: usize,
}

impl Write for Output<'_> {
    fn write(&mut self, buf: &[u8]) -> io::Result<usize> {
        if self.room == 0 {
            return Err(io::Error::from(io::ErrorKind::Other));
        }
        let count = buf.len().min(self.room);
        self.room -= count;
        for byte in &buf[..count] {
            note(self.log, self.mark, *byte);
        }
        Ok(count)
    }

    fn flush(&mut self) -> io::Result<()> {
        Ok(())
    }
}

// Writes the line of a record by itself, if it has one.
fn print_line(
    alloc: Global,
    output: &mut Output<'_>,
    report: Report,
    record: &Record<'_>,
) -> AnyResult<()> {
    let line = match report {
        Report::Tasks => tasks::line_of(alloc, record)?,
        Report::Samples => samples::line_of(alloc, record)?,
    };
    if let Some(mut line) = line {
        line.push_str("\n")?;
        output.write_all(line.as_bytes())?;
    }
    Ok(())
}

// Writes the lines of the frames of a run, and returns whether none was refused.
fn print_frames(
    alloc: Global,
    output: &mut Output<'_>,
    errors: &mut Output<'_>,
    report: Report,
    frames: &[(perf_event_header, ParseResult<Record<'_>>)],
) -> AnyResult<bool> {
    let mut clean = true;
    for (_, answer) in frames {
        match answer {
            Ok(record) => print_line(alloc, output, report, record)?,
            Err(error) => {
                clean = false;
                write!(errors, "{error}\n")?;
            }
        }
    }
    Ok(clean)
}

// A recording that is parsed after its attribute.
type AfterAttribute<'a> = Parser<BufReader<Input<'a>>, Little>;

// Parses the attribute of a recording.
fn after_attribute(alloc: Global, input: Input<'_>) -> AnyResult<AfterAttribute<'_>> {
    let input = BufReader::new(alloc, input)?;
    let parser = Parser::new(alloc, input, ParseConfig::<Little>::default());
    match parser.after_attribute() {
        Ok(parser) => Ok(parser),
        Err(error) if error.kind().is_of_layout() => bail!("{NO_ATTRIBUTE}"),
        Err(error) => Err(error.into()),
    }
}

// Writes the lines of the next frames, and returns whether none was refused, and whether they are the
// last.
fn print_run(
    alloc: Global,
    parser: &mut AfterAttribute<'_>,
    output: &mut Output<'_>,
    errors: &mut Output<'_>,
    report: Report,
) -> AnyResult<(bool, bool)> {
    let run = read_records(parser, 256);
    let printed = print_frames(alloc, output, errors, report, &run.frames);
    let end = end_of(run);
    Ok((printed?, is_last(end)?))
}

// What `print_recording` does, with each line written by itself.
fn print_by_lines(
    alloc: Global,
    input: Input<'_>,
    output: &mut Output<'_>,
    errors: &mut Output<'_>,
    report: Report,
) -> AnyResult<bool> {
    let mut parser = after_attribute(alloc, input)?;
    let mut clean = true;
    for _ in 0..u64::MAX {
        let (none_refused, is_last) = print_run(alloc, &mut parser, output, errors, report)?;
        clean &= none_refused;
        if is_last {
            break;
        }
    }
    Ok(clean)
}

// Whether a run that ended so is the last, if it ended without an error.
fn is_last(end: RunEnd) -> AnyResult<bool> {
    match end {
        RunEnd::Limit => Ok(false),
        RunEnd::Done => Ok(true),
        RunEnd::CutHeader => bail!("the input ends inside a header"),
        RunEnd::Fault(error) => Err(error.into()),
    }
}

// A recording that may fail after its bytes, and two outputs with this capacity.
#[derive(Copy, Clone)]
struct Case<'a> {
    bytes: &'a [u8],
    report: Report,
    fault: Option<io::ErrorKind>,
    room: usize,
    errors: usize,
}

// A digest of which batches are read and of what is written, the capacity left, and how it ended.
fn outcome_of(alloc: Global, case: &Case<'_>, in_batches: bool) -> Result<String, AllocError> {
    let log = Cell::new(1);
    let batches = batches_of(alloc, case.bytes)?;
    let input = Input {
        log: &log,
        bytes: case.bytes,
        most: 1_000,
        batches: &batches,
        fault: case.fault,
    };
    let mut output = Output {
        log: &log,
        mark: 3,
        room: case.room,
    };
    let mut errors = Output {
        log: &log,
        mark: 5,
        room: case.errors,
    };
    let outcome = if in_batches {
        print_recording(alloc, input, &mut output, &mut errors, case.report)
    } else {
        print_by_lines(alloc, input, &mut output, &mut errors, case.report)
    };
    let mut text = text_of_end(alloc, outcome)?;
    write!(text, " {:?}", (log.get(), output.room, errors.room))?;
    Ok(text)
}

// Asserts that lines that are written together are written as if each were alone: the same bytes in
// the same order, on both outputs, before the same batch is read, also if one fails, and with the
// same error.
fn check_gathered(rt: &(impl AllocGlobal + Abort), case: &Case<'_>) {
    match outcome_of(rt.alloc(), case, false) {
        Ok(by_lines) => check_text(rt, outcome_of(rt.alloc(), case, true), &by_lines),
        Err(_) => panic!(rt; "no memory"),
    }
}

// Capacities of the output, and of that of the errors.
const ROOMS: [(usize, usize); 11] = [
    (usize::MAX, usize::MAX),
    (0, usize::MAX),
    (1_000, usize::MAX),
    (4_096, usize::MAX),
    (33_000, usize::MAX),
    (80_000, usize::MAX),
    (usize::MAX, 0),
    (usize::MAX, 1_000),
    (usize::MAX, 4_096),
    (usize::MAX, 33_000),
    (usize::MAX, 80_000),
];

// Asserts it for all capacities.
fn check_rooms(rt: &(impl AllocGlobal + Abort), bytes: &[u8], report: Report) {
    for (room, errors) in &ROOMS {
        let case = Case {
            bytes,
            report,
            fault: None,
            room: *room,
            errors: *errors,
        };
        check_gathered(rt, &case);
    }
}

// How many bytes an input is cut by, and how it fails after those that are left.
const CUTS: [(usize, Option<io::ErrorKind>); 4] = [
    (0, Some(io::ErrorKind::Other)),
    (3, None),
    (3, Some(io::ErrorKind::Other)),
    (21, None),
];

// Asserts it for an input that fails or is cut.
fn check_cuts(rt: &(impl AllocGlobal + Abort), bytes: &[u8], report: Report) {
    for (cut, fault) in &CUTS {
        let case = Case {
            bytes: &bytes[..bytes.len().saturating_sub(*cut)],
            report,
            fault: *fault,
            room: usize::MAX,
            errors: usize::MAX,
        };
        check_gathered(rt, &case);
    }
}

// Asserts it for all of these.
fn check_orders(
    rt: &(impl AllocGlobal + Abort),
    input: Result<Vec<u8>, AllocError>,
    report: Report,
) {
    match input {
        Ok(bytes) => {
            check_rooms(rt, &bytes, report);
            check_cuts(rt, &bytes, report);
        }
        Err(_) => panic!(rt; "no memory"),
    }
}

#[test]
fn lines_go_out_in_order(rt: HostRuntime) {
    for count in &[0, 1, 300, 700] {
        for refused in &[7, 1_000] {
            let input = names_that_grow(rt.alloc(), *count, *refused);
            check_orders(&rt, input, Report::Tasks);
        }
    }
}

#[test]
fn long_lines_go_out_in_order(rt: HostRuntime) {
    for len in &[4_074, 4_075, 5_000, 40_000, 60_000] {
        check_orders(&rt, long_name(rt.alloc(), *len), Report::Tasks);
    }
    check_orders(&rt, with_chains(rt.alloc()), Report::Samples);
}

// Names that are escaped.
const ESCAPED: [&[u8]; 6] = [
    b"sh\nexit 1",
    b"a\xffb",
    b"\x1b[2J",
    b"\\",
    b"\xc3\xa9",
    b"\xc2\x85",
];

// Tasks of these names, each before a refused record.
fn escaped_names(alloc: Global) -> Result<Vec<u8>, AllocError> {
    let mut input = Vec::from_slice(alloc, &PLAIN_64)?;
    for name in &ESCAPED {
        push_named(&mut input, *name)?;
        input.extend_from_slice(SMALL)?;
    }
    Ok(input)
}

#[test]
fn escaped_names_go_out_in_order(rt: HostRuntime) {
    check_orders(&rt, escaped_names(rt.alloc()), Report::Tasks);
    check_orders(&rt, join(rt.alloc(), &PLAIN_100, COMM), Report::Tasks);
}
