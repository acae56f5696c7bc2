//! Values as text.

use perf_base::sys::perf_event_header;
use perf_counters::{GroupIter, ReadGroup, ReadValue};
use perf_parser::parse::ParseResult;
use perf_records::record::Record;
use perf_sample_types::sample::Sample;
use perf_test_helpers::drops::{drop_record, drop_sample};
use perf_test_helpers::lines::{WriteLine, write_error, write_frame};
use perf_types::Namespaces;
use std::alloc::AllocError;

/// The text of a value.
pub trait WriteText {
    fn write_text(&self, text: &mut String) -> Result<(), AllocError>;
}

impl WriteText for &str {
    fn write_text(&self, text: &mut String) -> Result<(), AllocError> {
        text.push_str(self)
    }
}

/// Writes the text of a value or of its error, and drops it.
pub fn write_answer<T: WriteText + Drop>(
    text: &mut String,
    answer: ParseResult<T>,
) -> Result<(), AllocError> {
    match answer {
        Ok(value) => value.write_text(text),
        Err(error) => write!(text, "{error}"),
    }
}

// ---- records

/// Writes the same of a record alone, without a header.
pub fn write_record<L: WriteLine>(
    text: &mut String,
    lines: &L,
    answer: &ParseResult<Record<'_>>,
) -> Result<(), AllocError> {
    let mut line = String::new(*text.allocator());
    write_frame(&mut line, lines, 0, &perf_event_header::default(), answer)?;
    let actual = line.as_str().strip_prefix("0 0 0 0 ");
    text.push_str(actual.unwrap_or("(no frame of zeros)"))
}

/// Writes a record, and drops it.
pub fn write_last_record<L: WriteLine>(
    text: &mut String,
    lines: &L,
    answer: ParseResult<Record<'_>>,
) -> Result<(), AllocError> {
    let written = write_record(text, lines, &answer);
    drop_record(answer);
    written
}

/// Writes what is made of a frame and a semicolon, or the kind of an error, and returns whether it was
/// not refused.
pub fn write_output<T: WriteText + Drop>(
    text: &mut String,
    answer: ParseResult<T>,
) -> Result<bool, AllocError> {
    match answer {
        Ok(output) => {
            output.write_text(text)?;
            text.push_str("; ")?;
            Ok(true)
        }
        Err(error) => {
            write_error(text, &error)?;
            Ok(false)
        }
    }
}

/// The same of a record, or why there is none, that is made of a frame.
pub fn write_visited<L: WriteLine>(
    text: &mut String,
    lines: &L,
    answer: ParseResult<ParseResult<Record<'_>>>,
) -> Result<bool, AllocError> {
    match answer {
        Ok(output) => {
            write_last_record(text, lines, output)?;
            text.push_str("; ")?;
            Ok(true)
        }
        Err(error) => {
            write_error(text, &error)?;
            Ok(false)
        }
    }
}

// Writes a record, or the message of its error.
fn write_record_or_error<L: WriteLine>(
    text: &mut String,
    lines: &L,
    answer: &ParseResult<Record<'_>>,
) -> Result<(), AllocError> {
    match answer {
        Ok(_) => write_record(text, lines, answer),
        Err(error) => write!(text, "{error}"),
    }
}

/// Writes a record, or the message of its error, and drops it.
pub fn write_found<L: WriteLine>(
    text: &mut String,
    lines: &L,
    answer: ParseResult<Record<'_>>,
) -> Result<(), AllocError> {
    let written = write_record_or_error(text, lines, &answer);
    drop_record(answer);
    written
}

/// Writes the same, and those of its namespaces that have a name: network, uts, ipc, pid, user and
/// cgroup.
pub fn write_found_spaces<L: WriteLine>(
    text: &mut String,
    lines: &L,
    answer: ParseResult<Record<'_>>,
) -> Result<(), AllocError> {
    let written = write_with_spaces(text, lines, &answer);
    drop_record(answer);
    written
}

fn write_with_spaces<L: WriteLine>(
    text: &mut String,
    lines: &L,
    answer: &ParseResult<Record<'_>>,
) -> Result<(), AllocError> {
    write_record_or_error(text, lines, answer)?;
    match answer {
        Ok(Record::Namespaces(spaces)) => write_named_spaces(text, spaces),
        Ok(_) => text.push_str(" not NAMESPACES"),
        Err(_) => Ok(()),
    }
}

fn write_named_spaces(text: &mut String, spaces: &Namespaces<'_>) -> Result<(), AllocError> {
    let names = [
        spaces.network(),
        spaces.uts(),
        spaces.ipc(),
        spaces.pid(),
        spaces.user(),
        spaces.cgroup(),
    ];
    write!(text, " {names:?}")
}

// ---- groups of counters

// A group of counters: how many and whether none, its times, the first three entries in order, those
// at 0, 1, 2, 3 and the greatest index, those of the ids 0, 1, 2, 3, 0xBD and 0xBE, and whether it is
// that of one counter, or why not.
impl WriteText for ReadGroup<'_> {
    fn write_text(&self, text: &mut String) -> Result<(), AllocError> {
        write_entries(text, self)?;
        write_entries_by_place(text, self)?;
        write_entries_by_id(text, self)?;
        write_if_one(text, self)
    }
}

fn write_entries(text: &mut String, group: &ReadGroup<'_>) -> Result<(), AllocError> {
    let times = [group.time_enabled(), group.time_running()];
    let mut entries = group.entries();
    let first = [entries.next(), entries.next(), entries.next()];
    write!(
        text,
        "{} {} {times:?} {first:?}",
        group.len(),
        group.is_empty()
    )
}

fn write_entries_by_place(text: &mut String, group: &ReadGroup<'_>) -> Result<(), AllocError> {
    let entries = [
        group.get(0),
        group.get(1),
        group.get(2),
        group.get(3),
        group.get(usize::MAX),
    ];
    write!(text, " {entries:?}")
}

fn write_entries_by_id(text: &mut String, group: &ReadGroup<'_>) -> Result<(), AllocError> {
    let entries = [
        group.get_by_id(0),
        group.get_by_id(1),
        group.get_by_id(2),
        group.get_by_id(3),
        group.get_by_id(0xBD),
        group.get_by_id(0xBE),
    ];
    write!(text, " {entries:?}")
}

fn write_if_one(text: &mut String, group: &ReadGroup<'_>) -> Result<(), AllocError> {
    match group.clone(*text.allocator()) {
        Ok(copy) => write_one(text, copy),
        Err(error) => write!(text, "{error}"),
    }
}

fn write_one(text: &mut String, group: ReadGroup<'_>) -> Result<(), AllocError> {
    match ReadValue::try_from(group) {
        Ok(_) => text.push_str(" true"),
        Err(error) => write!(text, " {error}"),
    }
}

fn write_group_of(text: &mut String, sample: &Sample<'_>) -> Result<(), AllocError> {
    match sample.values() {
        Some(group) => group.write_text(text),
        None => text.push_str("no group"),
    }
}

/// Writes a sample by the text of its group, or its error, and drops it.
pub fn write_values(text: &mut String, answer: ParseResult<Sample<'_>>) -> Result<(), AllocError> {
    match answer {
        Ok(sample) => {
            let written = write_group_of(text, &sample);
            drop_sample(sample);
            written
        }
        Err(error) => write!(text, "{error}"),
    }
}

/// Writes a group of counters or its error, and drops it.
pub fn write_group(
    text: &mut String,
    answer: ParseResult<ReadGroup<'_>>,
) -> Result<(), AllocError> {
    write_answer(text, answer)
}

/// Writes a group of counters whose entries are taken from both ends, or its error, and drops it: how
/// many there are and its times, the second entry, the last of the rest and the last but one of that,
/// how many are left then, the next one from either end, and then the count and the last of all.
pub fn write_both_ends(
    text: &mut String,
    answer: ParseResult<ReadGroup<'_>>,
) -> Result<(), AllocError> {
    let written = match &answer {
        Ok(group) => write_from_both_ends(text, group),
        Err(error) => write!(text, "{error}"),
    };
    drop(answer);
    written
}

fn write_from_both_ends(text: &mut String, group: &ReadGroup<'_>) -> Result<(), AllocError> {
    let times = [group.time_enabled(), group.time_running()];
    write!(text, "{} {times:?}", group.len())?;
    write_ends(text, group.entries())?;
    let (count, last) = (group.entries().count(), group.entries().last());
    write!(text, " {count} {last:?}")
}

fn write_ends(text: &mut String, entries: GroupIter<'_>) -> Result<(), AllocError> {
    let mut entries = entries;
    let items = [entries.nth(1), entries.next_back(), entries.nth_back(1)];
    let left = entries.len();
    let ends = [entries.next(), entries.next_back()];
    write!(text, " {items:?} {left} {ends:?}")
}
