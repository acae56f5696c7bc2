//! The bytes of one frame.

ghost use Rattle.std.specs.Prelude.{◌≡◌, ◌-◌, ◌≤◌, ◌↔◌, true, false, None, Some, [], length};
ghost use Rattle.std.specs.Prelude.{take, drop, IsTrue, IsOk, IfOk, IfErr, MatchOption};
ghost use Rattle.perf_buffers.specs.Prelude.{cow_items, is_borrowed, kind_of, kind_if_failed, BufferInvariant};
ghost use Rattle.perf_buffers.specs.Prelude.{CanFail, Takes, FailsToKeep, CallNeedsNoMemory};
ghost use Rattle.perf_buffers.specs.Prelude as prelude;

use crate::cut::cut;
use crate::parsebuf::{ParseBuf, ParseBufChunk};
use perf_base::{CowSlice, ErrorKind, Kept, ParseError, ParseResult};
use std::alloc::Global;

#[derive(Debug, Drop)]
pub(crate) enum Content<'p> {
    Borrowed(&'p [u8]),
    // The bytes, and how many of them were taken.
    Own(Vec<u8>, usize),
}

// The bytes from a place on.
#[inline]
fn after(bytes: &[u8], place: usize) -> &[u8]
    ensures { result.now ≡ drop place bytes.now }
{
    if place < bytes.len() {
        &bytes[place..]
    } else {
        &[]
    }
}

/// The bytes of one frame: borrowed from the input, or owned.
#[derive(Debug, Drop)]
pub struct ParseBufCursor<'p> {
    pub(crate) content: Content<'p>,
}

impl<'p> ParseBufCursor<'p> {
    // Borrowed bytes.
    #[inline]
    pub(crate) fn lent(bytes: &'p [u8]) -> ParseBufCursor<'p>
        ensures left { prelude.cursor_left result ≡ bytes.now }
        ensures form { prelude.cursor_is_borrowed result ≡ true }
        ensures start { prelude.IsAtStart result }
    {
        ParseBufCursor {
            content: Content::Borrowed(bytes),
        }
    }

    #[inline]
    pub(crate) fn rest(&self) -> &[u8]
        ensures { result.now ≡ prelude.content_left self.now.content }
    {
        match &self.content {
            Content::Borrowed(bytes) => bytes,
            Content::Own(bytes, place) => after(bytes, *place),
        }
    }

    /// The number of bytes left.
    #[inline]
    pub fn len(&self) -> usize
        ensures { result ≡ length (prelude.content_left self.now.content) }
    {
        self.rest().len()
    }

    /// Whether no bytes are left.
    #[inline]
    pub fn is_empty(&self) -> bool
        ensures { IsTrue result ↔ (prelude.content_left self.now.content ≡ []) }
    {
        self.rest().is_empty()
    }

    /// The last `count` bytes that are left.
    #[inline]
    pub fn last(&self, count: usize) -> &[u8]
        requires { count ≤ length (prelude.content_left self.now.content) }
        ensures { result.now ≡
            drop (length (prelude.content_left self.now.content) - count) (prelude.content_left self.now.content) }
    {
        let bytes = self.rest();
        &bytes[bytes.len() - count..]
    }

    /// Drops the last `count` bytes that are left.
    #[inline]
    pub fn drop_last(&mut self, count: usize)
        requires { count ≤ length (prelude.content_left self.old.content) }
        ensures left { prelude.content_left self.new.content ≡
            take (length (prelude.content_left self.old.content) - count) (prelude.content_left self.old.content) }
        ensures form { prelude.content_is_borrowed self.new.content ≡ prelude.content_is_borrowed self.old.content }
    {
        match &mut self.content {
            Content::Borrowed(bytes) => *bytes = &bytes[..bytes.len() - count],
            Content::Own(bytes, _) => bytes.truncate(bytes.len() - count),
        }
    }

    /// The bytes. None of them has been taken yet.
    #[inline]
    pub fn into_bytes(self) -> CowSlice<'p, u8>
        requires { prelude.ContentIsAtStart self.content }
        ensures items { cow_items result ≡ prelude.content_left self.entry.content }
        ensures form { is_borrowed result ≡ prelude.content_is_borrowed self.entry.content }
    {
        match self.content {
            Content::Borrowed(bytes) => CowSlice::Borrowed(bytes),
            Content::Own(bytes, _) => CowSlice::Owned(bytes),
        }
    }

    /// The bytes that are left, if they are borrowed.
    #[inline]
    pub fn as_slice(&self) -> Option<&'p [u8]>
        ensures { MatchOption result (prelude.cursor_is_borrowed self.now ≡ false)
            (λ s. IsTrue (prelude.cursor_is_borrowed self.now) × (s.now ≡ prelude.cursor_left self.now)) }
    {
        match &self.content {
            Content::Borrowed(bytes) => Some(*bytes),
            Content::Own(_, _) => None,
        }
    }
}

impl<'p> ParseBuf<'p> for ParseBufCursor<'p> {
    ghost source = { λ c. record {
      left = prelude.content_left c.content;
      told = true;
      whole = prelude.content_is_borrowed c.content;
      can_fault = false;
      faults = None;
    } };

    ghost ready = { λ c. prelude.content_left c.content };

    ghost hint = { λ c. Some (length (prelude.content_left c.content)) };

    #[inline]
    fn chunk(&mut self) -> ParseResult<ParseBufChunk<'_, 'p>> {
        if self.rest().is_empty() {
            return Err(ParseError::eof());
        }
        if let Some(bytes) = self.as_slice() {
            return Ok(ParseBufChunk::External(bytes));
        }
        Ok(ParseBufChunk::Temporary(self.rest()))
    }

    #[inline]
    fn advance(&mut self, count: usize) {
        match &mut self.content {
            Content::Borrowed(bytes) => *bytes = &bytes[count..],
            Content::Own(_, place) => *place += count,
        }
    }

    #[inline]
    fn remaining_hint(&self) -> Option<usize> {
        Some(self.rest().len())
    }
}

impl<'p> ParseBufCursor<'p> {
    /// Cuts the next `len` bytes off a buffer.
    ///
    /// They are borrowed if one chunk contains them all and lives as long as the input. Otherwise
    /// they are copied: if the buffer reports that it has them, or reports nothing and `len` is at
    /// most 16,384, all capacity is allocated first, so that nothing is taken if out of memory. Too
    /// few bytes are `Eof`, and all of them are taken; nothing is allocated if the buffer reports
    /// it.
    #[inline]
    pub fn new<B: ParseBuf<'p>>(
        alloc: Global,
        buf: &mut B,
        len: usize,
    ) -> ParseResult<ParseBufCursor<'p>>
        ensures stays { BufferInvariant (B.source buf.old) (kind_if_failed result) (B.source buf.new) }
        ensures can_fail { CanFail (B.source buf.old) (kind_if_failed result) }

        // Bytes of a whole buffer are borrowed, and zero bytes never fail: neither needs memory.
        ensures whole { IsTrue (B.source buf.old).whole →
            IfOk result (λ c. IsTrue (prelude.cursor_is_borrowed c)) }
        ensures whole_memory { IsTrue (B.source buf.old).whole → CallNeedsNoMemory result }
        ensures nothing { len ≡ 0 → IfOk result (λ c. IsTrue (prelude.cursor_is_borrowed c)) × IsOk result
            × (B.source buf.new ≡ B.source buf.old) }

        // Nothing is allocated if the buffer reports that it has too few bytes. Otherwise all
        // capacity is allocated first, if that is little.
        ensures short { prelude.falls_short (B.hint buf.old) len ≡ true →
            CallNeedsNoMemory result × IfOk result (λ c. ⊥) }
        ensures beforehand { IsTrue (B.source buf.old).told →
            prelude.is_made_beforehand (B.hint buf.old) len ≡ true →
            IfErr result (λ e. kind_of e ≡ ErrorKind.OutOfMemory →
            (B.source buf.new).left ≡ (B.source buf.old).left) }

        ensures ok { IsTrue (B.source buf.old).told →
            IfOk result (λ c. Takes (B.source buf.old) len (B.source buf.new)
            × (prelude.cursor_left c ≡ take len (B.source buf.old).left)) }
        ensures start { IfOk result (λ c. prelude.IsAtStart c) }
        ensures count { IfOk result (λ c. length (prelude.cursor_left c) ≡ len) }
        ensures err { IsTrue (B.source buf.old).told →
            IfErr result (λ e. FailsToKeep (B.source buf.old) len (kind_of e) (B.source buf.new)) }
    {
        let mut cause = Kept::none();
        match cut(alloc, buf, &mut cause, len) {
            Ok(cursor) => Ok(cursor),
            Err(refusal) => Err(cause.error_of(refusal)),
        }
    }
}
