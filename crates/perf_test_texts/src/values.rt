//! The values that a parser is asked for by their names, as text, but those whose text [`texts`] has.
//!
//! [`texts`]: crate::texts

use crate::texts::{WriteText, write_answer};
use perf_base::CowSlice;
use perf_base::endian::Endian;
use perf_base::sys::perf_event_attr;
use perf_counters::ReadValue;
use perf_parser::parse::{Parse, ParseBuf, ParseRegisters, ParseResult, Parser};
use perf_sample_types::registers::Registers;
use perf_sample_types::sample_id::SampleId;
use perf_types::{Comm, Exit, Lost, LostSamples, Mmap, Read, SwitchCpuWide, Throttle};
use perf_words::{BranchEntry, DataSource, SampleRegsAbi, Txn};
use std::alloc::AllocError;
use std::fmt::Debug;

// ---- values

// A value, or its error.
fn write_debug<T: Debug + Drop>(
    text: &mut String,
    answer: ParseResult<T>,
) -> Result<(), AllocError> {
    match answer {
        Ok(value) => write!(text, "{value:?}"),
        Err(error) => write!(text, "{error}"),
    }
}

// Numbers of a type: one; one under a condition, which is true if the count is not zero; or a list
// of `count`.
fn write_numbers<'p, B: ParseBuf<'p>, E: Endian, P: Parse<'p, B> + Debug + Drop>(
    text: &mut String,
    parser: &mut Parser<B, E>,
    name: &str,
    count: usize,
) -> Result<(), AllocError> {
    if name.starts_with("parse_if") {
        write_debug(text, parser.parse_if::<P>(count != 0))
    } else if name.starts_with("parse_repeated") {
        write_debug(text, parser.parse_repeated::<P>(count))
    } else {
        write_debug(text, P::parse(parser))
    }
}

// Bytes, borrowed or owned.
impl WriteText for CowSlice<'_, u8> {
    fn write_text(&self, text: &mut String) -> Result<(), AllocError> {
        write!(text, "{:?}", self.as_slice())
    }
}

// The number of bytes.
fn write_left(text: &mut String, answer: ParseResult<CowSlice<'_, u8>>) -> Result<(), AllocError> {
    match answer {
        Ok(bytes) => write!(text, "{}", bytes.len()),
        Err(error) => write!(text, "{error}"),
    }
}

// Bytes, without whether they are owned if there are none.
fn write_bytes(text: &mut String, answer: ParseResult<CowSlice<'_, u8>>) -> Result<(), AllocError> {
    match answer {
        Ok(CowSlice::Owned(bytes)) if bytes.is_empty() => text.push_str("owned []"),
        other => write_answer(text, other),
    }
}

// A task, its name as bytes and as text.
impl WriteText for Comm<'_> {
    fn write_text(&self, text: &mut String) -> Result<(), AllocError> {
        let (task, name) = ([self.pid, self.tid], self.comm.as_slice());
        write!(text, "{task:?} {name:?} {:?}", self.comm_os())
    }
}

// A task, the address of the mapping, and the file's name as bytes and as text.
impl WriteText for Mmap<'_> {
    fn write_text(&self, text: &mut String) -> Result<(), AllocError> {
        let (task, place) = ([self.pid, self.tid], [self.addr, self.len, self.pgoff]);
        let (name, shown) = (self.filename.as_slice(), self.filename_os());
        write!(text, "{task:?} {place:?} {name:?} {shown:?}")
    }
}

// A branch: its addresses, its four bits, its cycles and its type.
impl WriteText for BranchEntry {
    fn write_text(&self, text: &mut String) -> Result<(), AllocError> {
        let addresses = [self.from(), self.to()];
        let predictions = [self.mispred(), self.predicted()];
        let transactions = [self.in_tx(), self.abort()];
        let (cycles, ty) = (self.cycles(), self.ty());
        write!(
            text,
            "{addresses:?} {predictions:?} {transactions:?} {cycles} {ty:?}"
        )
    }
}

// All bits of a data source.
impl WriteText for DataSource {
    fn write_text(&self, text: &mut String) -> Result<(), AllocError> {
        write!(text, "{:#x}", self.bits())
    }
}

// ---- one value by its name

/// The next value by the name of a call or a type, under a condition that is true if the count is not
/// zero, or as many as that, or its error.
pub fn write_value<'p, B: ParseBuf<'p>, E: Endian>(
    text: &mut String,
    parser: &mut Parser<B, E>,
    name: &str,
    count: usize,
) -> Result<(), AllocError> {
    match name {
        "parse_u8" => write_debug(text, parser.parse_u8()),
        "parse_u16" => write_debug(text, parser.parse_u16()),
        "parse_u32" => write_debug(text, parser.parse_u32()),
        "parse_u64" => write_debug(text, parser.parse_u64()),
        "parse_slice_u64" => write_debug(text, parser.parse_slice::<u64>(count)),
        _ => write_value_of_type(text, parser, name, count),
    }
}

fn write_value_of_type<'p, B: ParseBuf<'p>, E: Endian>(
    text: &mut String,
    parser: &mut Parser<B, E>,
    name: &str,
    count: usize,
) -> Result<(), AllocError> {
    let (_, ty) = name.rsplit_once('_').unwrap_or(("", name));
    match ty {
        "u8" => write_numbers::<B, E, u8>(text, parser, name, count),
        "u16" => write_numbers::<B, E, u16>(text, parser, name, count),
        "u32" => write_numbers::<B, E, u32>(text, parser, name, count),
        "u64" => write_numbers::<B, E, u64>(text, parser, name, count),
        _ => write_list(text, parser, name, count),
    }
}

// `count` bytes, the rest without and with its zero bytes, and the length of the rest.
fn write_list<'p, B: ParseBuf<'p>, E: Endian>(
    text: &mut String,
    parser: &mut Parser<B, E>,
    name: &str,
    count: usize,
) -> Result<(), AllocError> {
    match name {
        "parse_bytes" => write_bytes(text, parser.parse_bytes(count)),
        "parse_rest_trim_nul" => write_answer(text, parser.parse_rest_trim_nul()),
        "parse_rest" => write_answer(text, parser.parse_rest()),
        "left" => write_left(text, parser.parse_rest()),
        _ => write_array(text, parser, name),
    }
}

// Arrays of bytes.
fn write_array<'p, B: ParseBuf<'p>, E: Endian>(
    text: &mut String,
    parser: &mut Parser<B, E>,
    name: &str,
) -> Result<(), AllocError> {
    match name {
        "[u8;0]" => write_debug(text, <[u8; 0]>::parse(parser)),
        "[u8;1]" => write_debug(text, <[u8; 1]>::parse(parser)),
        "[u8;2]" => write_debug(text, <[u8; 2]>::parse(parser)),
        "[u8;4]" => write_debug(text, <[u8; 4]>::parse(parser)),
        _ => write_body(text, parser, name),
    }
}

// Bodies of records.
fn write_body<'p, B: ParseBuf<'p>, E: Endian>(
    text: &mut String,
    parser: &mut Parser<B, E>,
    name: &str,
) -> Result<(), AllocError> {
    match name {
        "Comm" => write_answer(text, Comm::parse(parser)),
        "Exit" => write_debug(text, Exit::parse(parser)),
        "Lost" => write_debug(text, Lost::parse(parser)),
        "LostSamples" => write_debug(text, LostSamples::parse(parser)),
        "Mmap" => write_answer(text, Mmap::parse(parser)),
        "Read" => write_debug(text, Read::parse(parser)),
        "SwitchCpuWide" => write_debug(text, SwitchCpuWide::parse(parser)),
        "Throttle" => write_debug(text, Throttle::parse(parser)),
        _ => write_beside(text, parser, name),
    }
}

// Values that are not records.
fn write_beside<'p, B: ParseBuf<'p>, E: Endian>(
    text: &mut String,
    parser: &mut Parser<B, E>,
    name: &str,
) -> Result<(), AllocError> {
    match name {
        "ReadValue" => write_debug(text, ReadValue::parse(parser)),
        "perf_event_attr" => write_debug(text, perf_event_attr::parse(parser)),
        "SampleId" => write_debug(text, SampleId::parse(parser)),
        _ => write_part_of_sample(text, parser, name),
    }
}

// Parts of samples.
fn write_part_of_sample<'p, B: ParseBuf<'p>, E: Endian>(
    text: &mut String,
    parser: &mut Parser<B, E>,
    name: &str,
) -> Result<(), AllocError> {
    match name {
        "parse_user" => write_debug(text, Registers::parse_user(parser)),
        "parse_intr" => write_debug(text, Registers::parse_intr(parser)),
        "BranchEntry" => write_answer(text, BranchEntry::parse(parser)),
        "DataSource" => write_answer(text, DataSource::parse(parser)),
        "Txn" => write_debug(text, Txn::parse(parser)),
        "SampleRegsAbi" => write_debug(text, SampleRegsAbi::parse(parser)),
        _ => write!(text, "what is {name}?"),
    }
}
