//! Cutting bytes off a buffer as one frame, and skipping bytes.

ghost use Rattle.std.specs.Prelude.{◌≡◌, ◌≢◌, ◌<◌, ◌≤◌, true, Some, length, take};
ghost use Rattle.std.specs.Prelude.{IsTrue, IsOk, OnOk, IfOk, IfErr, IfSome, MatchOption};
ghost use Rattle.perf_buffers.specs.Prelude.{kind_of, refusal_kind, kind_if_refused, kinds, kind_if_failed, BufferInvariant};
ghost use Rattle.perf_buffers.specs.Prelude.{CanFail, Takes, FailsToTake, FailsToKeep};
ghost use Rattle.perf_buffers.specs.Cutting.{BorrowsWhole, WholeNeedsNoMemory, RefusesShort, AllocatesFirst, KeepsNext, RefusesNext};
ghost use Rattle.perf_buffers.specs.Prelude as prelude;

use crate::cursor::{Content, ParseBufCursor};
use crate::fill::append;
use crate::parsebuf::{ParseBuf, ParseBufChunk, UNHINTED_BYTES};
use perf_base::{ErrorKind, Kept, ParseResult, ReadResult, Refusal};
use std::alloc::Global;

// The next `len` bytes, if the first chunk has them all: borrowed if it lives as long as the input,
// and otherwise copied.
#[inline]
fn cut_at_once<'p, B: ParseBuf<'p>>(
    alloc: Global,
    buf: &mut B,
    cause: &mut Kept,
    len: usize,
) -> ReadResult<Option<Content<'p>>>
    requires { 0 < len }
    ensures stays { BufferInvariant (B.source buf.old) (kind_if_refused (kinds result)) (B.source buf.new) }
    ensures can_fail { CanFail (B.source buf.old) (kind_if_refused (kinds result)) }
    ensures whole { IsTrue (B.source buf.old).whole → IfOk result (λ o. MatchOption o
        (IsTrue (B.source buf.old).told × (length (B.source buf.old).left < len))
        (λ content. IsTrue (prelude.content_is_borrowed content))) }
    ensures whole_memory { WholeNeedsNoMemory (B.source buf.old) (kinds result) }
    ensures beforehand { AllocatesFirst true (B.source buf.old) (kinds result) (B.source buf.new) }
    ensures count { IfOk result (λ o. IfSome o (λ content. length (prelude.content_left content) ≡ len)) }
    ensures start { IfOk result (λ o. IfSome o (λ content. prelude.ContentIsAtStart content)) }
    ensures ok { IsTrue (B.source buf.old).told → IfOk result (λ o. MatchOption o
        ((B.source buf.new).left ≡ (B.source buf.old).left)
        (λ content. Takes (B.source buf.old) len (B.source buf.new)
        × (prelude.content_left content ≡ take len (B.source buf.old).left))) }
    ensures err { RefusesNext (B.source buf.old) len (kinds result) (B.source buf.new) }
{
    let chunk = match buf.chunk() {
        Ok(chunk) => chunk,
        Err(error) => return Err(cause.keep(error)),
    };
    if chunk.as_bytes().len() < len {
        return Ok(None);
    }
    let content = match chunk {
        ParseBufChunk::External(bytes) => Content::Borrowed(&bytes[..len]),
        ParseBufChunk::Temporary(bytes) => match Vec::from_slice(alloc, &bytes[..len]) {
            Ok(bytes) => Content::Own(bytes, 0),
            Err(_) => return Err(Refusal::OutOfMemory),
        },
    };
    buf.advance(len);
    Ok(Some(content))
}

// Takes what one chunk has, at most `len` bytes, and keeps none of them.
fn skip_some<'p, B: ParseBuf<'p>>(buf: &mut B, len: usize) -> ParseResult<usize>
    requires { 0 < len }
    ensures stays { BufferInvariant (B.source buf.old) (kind_if_failed result) (B.source buf.new) }
    ensures can_fail { CanFail (B.source buf.old) (kind_if_failed result) }
    ensures memory { prelude.CallNeedsNoMemory result }
    ensures count { IfOk result (λ n. (0 < n) × (n ≤ len)) }
    ensures ok { IsTrue (B.source buf.old).told →
        IfOk result (λ n. Takes (B.source buf.old) n (B.source buf.new)) }
    ensures err { IsTrue (B.source buf.old).told →
        IfErr result (λ e. FailsToTake (B.source buf.old) len (kind_of e) (B.source buf.new)) }
{
    let chunk = buf.chunk()?;
    let count = chunk.as_bytes().len().min(len);
    buf.advance(count);
    Ok(count)
}

// Takes `len` bytes and keeps none of them.
pub(crate) fn skip<'p, B: ParseBuf<'p>>(buf: &mut B, cause: &mut Kept, len: usize) -> ReadResult<()>
    ensures stays { BufferInvariant (B.source buf.old) (kind_if_refused (kinds result)) (B.source buf.new) }
    ensures can_fail { CanFail (B.source buf.old) (kind_if_refused (kinds result)) }
    ensures memory { prelude.NeedsNoMemory (kinds result) }
    ensures ok { IsTrue (B.source buf.old).told →
        OnOk result (Takes (B.source buf.old) len (B.source buf.new)) }
    ensures err { IsTrue (B.source buf.old).told → IfErr result (λ e.
        FailsToTake (B.source buf.old) len (refusal_kind e) (B.source buf.new)) }
{
    let mut at = 0;
    while at < len {
        at += match skip_some(buf, len - at) {
            Ok(count) => count,
            Err(error) => return Err(cause.keep(error)),
        };
    }
    Ok(())
}

// The refusal if fewer than `len` bytes are left. All of them are taken.
#[cold]
#[inline(never)]
pub(crate) fn shortage<'p, B: ParseBuf<'p>>(buf: &mut B, cause: &mut Kept, len: usize) -> Refusal
    requires { IsTrue (B.source buf.old).told → length (B.source buf.old).left < len }
    ensures stays { BufferInvariant (B.source buf.old) (Some (refusal_kind result)) (B.source buf.new) }
    ensures can_fail { CanFail (B.source buf.old) (Some (refusal_kind result)) }
    ensures no_memory { refusal_kind result ≢ ErrorKind.OutOfMemory }
    ensures err { IsTrue (B.source buf.old).told →
        FailsToKeep (B.source buf.old) len (refusal_kind result) (B.source buf.new) }
{
    match skip(buf, cause, len) {
        Ok(()) => Refusal::Eof,
        Err(refusal) => refusal,
    }
}

// The capacity that is allocated before the first byte is taken.
#[inline]
fn capacity_for(has_hint: bool, len: usize) -> usize
    ensures { result ≡ prelude.first_capacity has_hint len }
{
    if has_hint {
        len
    } else {
        len.min(UNHINTED_BYTES)
    }
}

// Assembles the next `len` bytes in `bytes`, replacing its contents. Its capacity is kept.
pub(crate) fn assemble<'p, B: ParseBuf<'p>>(
    buf: &mut B,
    cause: &mut Kept,
    bytes: &mut Vec<u8>,
    len: usize,
    has_hint: bool,
) -> ReadResult<()>
    ensures stays { BufferInvariant (B.source buf.old) (kind_if_refused (kinds result)) (B.source buf.new) }
    ensures can_fail { CanFail (B.source buf.old) (kind_if_refused (kinds result)) }
    ensures beforehand { AllocatesFirst (prelude.makes_all_room has_hint len) (B.source buf.old)
        (kinds result) (B.source buf.new) }
    ensures count { OnOk result (length bytes.new.items ≡ len) }
    ensures ok { KeepsNext (λ _. bytes.new.items) (B.source buf.old) len (kinds result) (B.source buf.new) }
    ensures err { RefusesNext (B.source buf.old) len (kinds result) (B.source buf.new) }
{
    bytes.clear();
    if bytes.reserve_exact(capacity_for(has_hint, len)).is_err() {
        return Err(Refusal::OutOfMemory);
    }
    match append(buf, bytes, len) {
        Ok(()) => Ok(()),
        Err(error) => Err(cause.keep(error)),
    }
}

// Whether the buffer reports that it has fewer than `len` bytes.
#[inline]
pub(crate) fn says_too_few(hint: Option<usize>, len: usize) -> bool
    ensures { result ≡ prelude.falls_short hint len }
{
    match hint {
        Some(left) => left < len,
        None => false,
    }
}

// The next `len` bytes, copied from as many chunks as needed. The error of a fault is kept
// separately.
#[cold]
#[inline(never)]
fn cut_slowly<'p, B: ParseBuf<'p>>(
    alloc: Global,
    buf: &mut B,
    cause: &mut Kept,
    len: usize,
    has_hint: bool,
) -> ReadResult<ParseBufCursor<'p>>
    ensures stays { BufferInvariant (B.source buf.old) (kind_if_refused (kinds result)) (B.source buf.new) }
    ensures can_fail { CanFail (B.source buf.old) (kind_if_refused (kinds result)) }
    ensures beforehand { AllocatesFirst (prelude.makes_all_room has_hint len) (B.source buf.old)
        (kinds result) (B.source buf.new) }
    ensures count { IfOk result (λ c. length (prelude.cursor_left c) ≡ len) }
    ensures start { IfOk result (λ c. prelude.IsAtStart c) }
    ensures ok { KeepsNext prelude.cursor_left (B.source buf.old) len (kinds result) (B.source buf.new) }
    ensures err { RefusesNext (B.source buf.old) len (kinds result) (B.source buf.new) }
{
    let mut bytes = Vec::new(alloc);
    match assemble(buf, cause, &mut bytes, len, has_hint) {
        Ok(()) => Ok(ParseBufCursor {
            content: Content::Own(bytes, 0),
        }),
        Err(refusal) => Err(refusal),
    }
}

// Cuts the next `len` bytes off a buffer. The error of a fault is kept separately.
#[inline]
pub(crate) fn cut<'p, B: ParseBuf<'p>>(
    alloc: Global,
    buf: &mut B,
    cause: &mut Kept,
    len: usize,
) -> ReadResult<ParseBufCursor<'p>>
    ensures stays { BufferInvariant (B.source buf.old) (kind_if_refused (kinds result)) (B.source buf.new) }
    ensures can_fail { CanFail (B.source buf.old) (kind_if_refused (kinds result)) }
    ensures whole { BorrowsWhole prelude.cursor_is_borrowed (B.source buf.old) (kinds result) }
    ensures whole_memory { WholeNeedsNoMemory (B.source buf.old) (kinds result) }
    ensures nothing { len ≡ 0 → IfOk result (λ c. IsTrue (prelude.cursor_is_borrowed c)) × IsOk result
        × (B.source buf.new ≡ B.source buf.old) }
    ensures short { RefusesShort (B.hint buf.old) len (kinds result) }
    ensures beforehand { AllocatesFirst (prelude.is_made_beforehand (B.hint buf.old) len)
        (B.source buf.old) (kinds result) (B.source buf.new) }
    ensures ok { KeepsNext prelude.cursor_left (B.source buf.old) len (kinds result) (B.source buf.new) }
    ensures start { IfOk result (λ c. prelude.IsAtStart c) }
    ensures count { IfOk result (λ c. length (prelude.cursor_left c) ≡ len) }
    ensures err { RefusesNext (B.source buf.old) len (kinds result) (B.source buf.new) }
{
    if len == 0 {
        return Ok(ParseBufCursor {
            content: Content::Borrowed(&[]),
        });
    }
    let hint = buf.remaining_hint();
    if says_too_few(hint, len) {
        return Err(shortage(buf, cause, len));
    }
    match cut_at_once(alloc, buf, cause, len) {
        Ok(Some(content)) => Ok(ParseBufCursor { content }),
        Ok(None) => cut_slowly(alloc, buf, cause, len, hint.is_some()),
        Err(refusal) => Err(refusal),
    }
}
