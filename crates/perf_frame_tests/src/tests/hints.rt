//! A buffer whose hint of the bytes left follows a rule of its own, and that counts the calls of
//! its `chunk`.

ghost use Rattle.std.specs.Prelude.{false, None, []};

use crate::tests::checks::check_text;
use bitflags::Flags;
use perf_event_data::SampleFlags;
use perf_event_data::endian::Little;
use perf_event_data::parse::{ParseBuf, ParseBufChunk, ParseError, ParseResult};
use perf_test_helpers::attributes::attribute;
use perf_test_runs::perfrec::Perfrec;
use perf_test_runs::text_of_runs_under;
use std::alloc::{AllocError, Global};
use std::cell::Cell;
use std::process::Abort;
use std::test::Fail;

// What the hint is.
#[derive(Copy, Clone)]
enum Rule {
    // How many bytes are left.
    Left,
    // How many were not read ahead: the length of a file without what was already fetched.
    Unread,
    // The first until a byte is taken, and the second from then on.
    Around(Option<usize>, Option<usize>),
}

// Reads a slice ahead, at most `ahead` bytes at a time.
#[derive(Drop)]
struct Hinting<'a, 'p> {
    unread: &'p [u8],
    ready: &'p [u8],
    ahead: usize,
    borrowed: bool,
    rule: Rule,
    hint: Option<usize>,
    calls: &'a Cell<usize>,
}

impl<'a, 'p> Hinting<'a, 'p> {
    fn new(
        bytes: &'p [u8],
        ahead: usize,
        borrowed: bool,
        rule: Rule,
        calls: &'a Cell<usize>,
    ) -> Self {
        let hint = match rule {
            Rule::Left | Rule::Unread => Some(bytes.len()),
            Rule::Around(before, _) => before,
        };
        Hinting {
            unread: bytes,
            ready: &[],
            ahead,
            borrowed,
            rule,
            hint,
            calls,
        }
    }

    // Reads ahead, if nothing is ready.
    fn read_ahead(&mut self) {
        let count = self.ahead.min(self.unread.len());
        (self.ready, self.unread) = self.unread.split_at(count);
        if let Rule::Unread = self.rule {
            self.hint = Some(self.unread.len());
        }
    }
}

impl<'p> ParseBuf<'p> for Hinting<'_, 'p> {
    ghost source = { λ _. record {
      left = [];
      told = false;
      whole = false;
      can_fault = false;
      faults = None;
    } };

    ghost ready = { λ s. s.ready.now };

    ghost hint = { λ s. s.hint };

    fn chunk(&mut self) -> ParseResult<ParseBufChunk<'_, 'p>> {
        self.calls.set(self.calls.get().saturating_add(1));
        if self.ready.is_empty() {
            self.read_ahead();
        }
        if self.ready.is_empty() {
            return Err(ParseError::eof());
        }
        if self.borrowed {
            Ok(ParseBufChunk::External(self.ready))
        } else {
            Ok(ParseBufChunk::Temporary(self.ready))
        }
    }

    fn advance(&mut self, count: usize) {
        self.ready = &self.ready[count..];
        self.hint = match self.rule {
            Rule::Left => Some(self.ready.len().saturating_add(self.unread.len())),
            Rule::Unread => self.hint,
            Rule::Around(_, after) => after,
        };
    }

    fn remaining_hint(&self) -> Option<usize> {
        self.hint
    }
}

// How a body begins. Zero bytes fill the rest.
const FIELDS: [u8; 10] = [1, 0, 0, 0, 2, 0, 0, 0, 0x61, 0x62];

// Appends a frame of a type and a size.
fn push_frame(bytes: &mut Vec<u8>, ty: u8, size: u16) -> Result<(), AllocError> {
    let end = bytes.len().saturating_add(usize::from(size));
    let [low, high] = size.to_le_bytes();
    bytes.extend_from_slice(&[ty, 0, 0, 0, 0, 0, low, high])?;
    bytes.extend_from_slice(&FIELDS)?;
    bytes.resize(end, 0)
}

// ---- hints that are wrong

// The size of a frame.
const SIZE: u16 = 4096;

// The length of its body.
const BODY: usize = 4088;

// A type, the text of a run over one frame of it, and the text if the hint is below the length of
// the body.
const TYPES: [(u8, &str, &str); 3] = [
    (
        9,
        "0 9 0 4096 Sample ip=8589934593; limit",
        "0 9 0 4096 refused Eof; limit",
    ),
    (
        3,
        "0 3 0 4096 Comm pid=1 tid=2 comm=6162; limit",
        "0 3 0 4096 refused Eof; limit",
    ),
    (
        2,
        "0 2 0 4096 Lost id=8589934593 lost=25185; limit",
        "0 2 0 4096 refused Eof; limit",
    ),
];

// Asserts the text of a run of one frame over a buffer with this rule, with bytes that live as long
// as the input and with bytes that do not.
fn check_rule(rt: &(impl AllocGlobal + Abort), bytes: &[u8], ahead: usize, rule: Rule, want: &str) {
    let attr = attribute(SampleFlags::IP.bits(), 0);
    for &borrowed in &[true, false] {
        let calls = Cell::new(0);
        let buf = Hinting::new(bytes, ahead, borrowed, rule, &calls);
        check_text(
            rt,
            text_of_runs_under(rt.alloc(), &Perfrec, buf, Little, &attr, &[1]),
            want,
        );
    }
}

// A file of 10,240 bytes, of which 8,192 are fetched at first. They contain the whole frame, and the
// 2,048 that are left to fetch are fewer than its body has.
#[test]
fn what_is_unread_is_less_than_a_frame_that_was_read_ahead(rt: HostRuntime) -> Result<(), Fail> {
    for &(ty, _, want) in &TYPES {
        let mut bytes = Vec::new(rt.alloc());
        push_frame(&mut bytes, ty, SIZE)?;
        bytes.resize(10240, 0)?;
        check_rule(&rt, &bytes, 8192, Rule::Unread, want);
    }
    Ok(())
}

// The hint before the header is taken, the hint after that, and whether the frame is a record. Only
// the second one counts.
const RULES: [(Option<usize>, Option<usize>, bool); 10] = [
    (Some(0), Some(BODY), true),
    (Some(7), Some(BODY), true),
    (Some(BODY + 7), Some(BODY), true),
    (Some(BODY + 8), Some(BODY), true),
    (Some(BODY + 8), Some(BODY - 1), false),
    (Some(BODY + 8), Some(0), false),
    (None, Some(BODY - 1), false),
    (None, Some(BODY), true),
    (Some(BODY + 7), None, true),
    (None, None, true),
];

#[test]
fn the_hint_after_the_header_counts(rt: HostRuntime) -> Result<(), Fail> {
    for &(ty, record, refused) in &TYPES {
        let mut bytes = Vec::new(rt.alloc());
        push_frame(&mut bytes, ty, SIZE)?;
        for &(before, after, is_record) in &RULES {
            let want = if is_record { record } else { refused };
            for &ahead in &[8192, 64] {
                check_rule(&rt, &bytes, ahead, Rule::Around(before, after), want);
            }
        }
    }
    Ok(())
}

// ---- how often `chunk` is called

// How often a run calls it for five frames that one chunk contains, and that its text ends as it
// should. For each frame it calls it for the header and for the body, and besides to reserve capacity
// for results, and at the end.
const TWO_FOR_EACH: &str = "12 true";

// A type, and how the text of a run over five frames of 24 bytes ends.
const LAST: [(u8, &str); 3] = [
    (9, "; 4 9 0 24 Sample ip=8589934593; done"),
    (3, "; 4 3 0 24 Comm pid=1 tid=2 comm=6162; done"),
    (2, "; 4 2 0 24 Lost id=8589934593 lost=25185; done"),
];

// How often a run over these frames calls `chunk`, and whether its text ends so.
fn calls_of_chunk(
    alloc: Global,
    bytes: &[u8],
    borrowed: bool,
    rule: Rule,
    last: &str,
) -> Result<String, AllocError> {
    let calls = Cell::new(0);
    let buf = Hinting::new(bytes, 8192, borrowed, rule, &calls);
    let text = text_of_runs_under(
        alloc,
        &Perfrec,
        buf,
        Little,
        &attribute(SampleFlags::IP.bits(), 0),
        &[10],
    )?;
    format!(in alloc; "{} {}", calls.get(), text.ends_with(last))
}

#[test]
fn a_frame_in_one_chunk_takes_two_calls(rt: HostRuntime) -> Result<(), Fail> {
    for &(ty, last) in &LAST {
        let mut bytes = Vec::new(rt.alloc());
        for _ in 0..5 {
            push_frame(&mut bytes, ty, 24)?;
        }
        for &rule in &[Rule::Left, Rule::Around(None, None)] {
            for &borrowed in &[true, false] {
                let actual = calls_of_chunk(rt.alloc(), &bytes, borrowed, rule, last);
                check_text(&rt, actual, TWO_FOR_EACH);
            }
        }
    }
    Ok(())
}
