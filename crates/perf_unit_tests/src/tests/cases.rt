//! What a parser over every buffer is asked for, and its results as text.

use crate::tests::bodies::{Body, text_of_frame};
use crate::tests::checks::check_named;
use crate::tests::orders::{OrderRequest, text_by_order};
use crate::tests::own_types::{Own, text_of_own};
use crate::tests::visits::{Gives, text_of_visits};
use perf_event_data::PieceBuf;
use perf_event_data::endian::Little;
use perf_event_data::parse::{ErrorKind, ParseBuf, ParseConfig, ParseResult, Parser};
use perf_test_helpers::everywhere::{Buffer, Question, text_everywhere};
use perf_test_helpers::over_buffer;
use std::alloc::{AllocError, Global};
use std::io::BufReader;
use std::process::Abort;

/// What a parser is asked for.
#[derive(Copy, Clone)]
pub enum Request {
    /// Types of a user's own.
    Own(Own),
    /// What the parser of a frame's body parses.
    Body(Body),
    /// What is read in a byte order of a user's own.
    InOrder(OrderRequest),
    /// What a visitor makes of each frame.
    Visited(Gives),
}

/// What is asked for over these bytes, and the result.
#[derive(Copy, Clone)]
pub struct Case<'a> {
    pub name: &'a str,
    pub request: Request,
    pub bytes: &'a [u8],
    pub want: &'a str,
}

// The result of a parser in little endian.
fn text_of_little<'p, B: ParseBuf<'p> + Drop>(
    alloc: Global,
    buf: B,
    request: Request,
) -> ParseResult<String> {
    let mut parser: Parser<B, Little> = Parser::new(alloc, buf, ParseConfig::default());
    let text = match request {
        Request::Own(own) => text_of_own(alloc, &mut parser, own),
        Request::Body(body) => text_of_frame(alloc, &mut parser, body),
        _ => Ok(String::from_str(alloc, "no request")?),
    };
    drop(parser);
    text
}

// The result of a parser over a buffer, in little endian if the case has no order of its own.
fn text_of_case<'p, B: ParseBuf<'p> + Drop>(
    alloc: Global,
    buf: B,
    request: Request,
) -> ParseResult<String> {
    match request {
        Request::InOrder(request) => text_by_order(alloc, buf, request),
        Request::Visited(visits) => Ok(text_of_visits(alloc, buf, visits)?),
        _ => text_of_little(alloc, buf, request),
    }
}

impl Case<'_> {
    // The result, or the text of its error.
    fn text_of<'p, B: ParseBuf<'p> + Drop>(
        &self,
        alloc: Global,
        buf: B,
    ) -> Result<String, AllocError> {
        match text_of_case(alloc, buf, self.request) {
            Ok(text) => Ok(text),
            Err(error) => format!(in alloc; "{error}"),
        }
    }
}

impl Question for Case<'_> {
    fn text_over(&self, alloc: Global, bytes: &[u8], buffer: Buffer) -> Result<String, AllocError> {
        over_buffer!(self, alloc, bytes, buffer)
    }
}

/// Asserts the result over a slice, buffered readers and pieces.
pub fn check_case(rt: &(impl AllocGlobal + Abort), case: &Case<'_>) {
    let actual = text_everywhere(rt.alloc(), case.bytes, case);
    check_named(rt, case.name, actual, case.want);
}

/// Asserts the result of each case.
pub fn check_cases(rt: &(impl AllocGlobal + Abort), cases: &[Case<'_>]) {
    for case in cases {
        check_case(rt, case);
    }
}

/// The kind of an error.
pub fn kind_of<T: Drop>(answer: ParseResult<T>) -> Option<ErrorKind> {
    match answer {
        Ok(_) => None,
        Err(error) => Some(error.kind()),
    }
}
