//! What a run returns: what it read, and how it ended.

use perf_base::sys::perf_event_header;
use perf_base::{ParseError, ParseResult};
use perf_records::record::Record;

/// The frames that a run read, each with its header and its answer, and how the run ended.
#[derive(Debug, Drop)]
pub struct Run<'p> {
    /// The header of each frame, and its record or why there is none.
    pub frames: Vec<(perf_event_header, ParseResult<Record<'p>>)>,
    /// How the run ended.
    pub end: RunEnd,
}

/// How a run ended.
#[derive(Debug, Drop)]
pub enum RunEnd {
    /// It listed as many frames as it was asked for.
    Limit,
    /// Nothing was left.
    Done,
    /// Fewer bytes were left than a header has.
    CutHeader,
    /// The buffer failed, or an allocation did. A prefix of the frame that was being read may have
    /// been taken; over a slice, where only an allocation can fail, none or all of it.
    Fault(ParseError),
}

/// How many frames a run handed out, and how it ended.
#[derive(Debug, Drop)]
pub struct FrameRun {
    /// How many whole frames and `BadFrame`s the handler was handed.
    pub count: usize,
    /// How the run ended, or `None` if its handler ended it.
    pub end: Option<RunEnd>,
}
