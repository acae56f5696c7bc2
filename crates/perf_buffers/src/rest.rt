//! All that is left in a buffer.

ghost use Rattle.std.specs.Prelude.{◌≡◌, ◌<◌, ◌↔◌, length, take, [], ◌++◌, IsTrue};
ghost use Rattle.std.specs.Prelude.{IfOk, IfErr, IfSome, OnOk, MatchOption};
ghost use Rattle.perf_buffers.specs.Prelude.{cow_items, is_borrowed, kind_of, CallNeedsNoMemory};
ghost use Rattle.perf_buffers.specs.Prelude.{kind_if_failed, BufferInvariant, Takes, FailsInRest, CanFail};

use crate::fill::append;
use crate::parsebuf::{ParseBuf, ParseBufChunk};
use perf_base::{CowSlice, ErrorKind, ParseError, ParseResult};
use std::alloc::Global;

// The first chunk, if it lives as long as the input, and otherwise no bytes; `None` if nothing is
// left.
#[inline]
fn lend_first<'p, B: ParseBuf<'p>>(buf: &mut B) -> ParseResult<Option<&'p [u8]>>
    ensures stays { BufferInvariant (B.source buf.old) (kind_if_failed result) (B.source buf.new) }
    ensures can_fail { CanFail (B.source buf.old) (kind_if_failed result) }
    ensures whole { IsTrue (B.source buf.old).whole → IfOk result (λ o. IfSome o (λ s.
        IsTrue (B.source buf.old).told × (s.now ≡ (B.source buf.old).left))) }
    ensures memory { CallNeedsNoMemory result }
    ensures ok { IsTrue (B.source buf.old).told → IfOk result (λ o. MatchOption o
        (((B.source buf.old).left ≡ []) × ((B.source buf.new).left ≡ []))
        (λ s. Takes (B.source buf.old) (length s.now) (B.source buf.new)
        × (s.now ≡ take (length s.now) (B.source buf.old).left)
        × (0 < length (B.source buf.old).left))) }
    ensures err { IsTrue (B.source buf.old).told →
        IfErr result (λ e. FailsInRest (B.source buf.old) (kind_of e) (B.source buf.new)) }
{
    let bytes = match buf.chunk() {
        Ok(ParseBufChunk::External(bytes)) => bytes,
        Ok(ParseBufChunk::Temporary(_)) => return Ok(Some(&[])),
        Err(error) if error.kind() == ErrorKind::Eof => return Ok(None),
        Err(error) => return Err(error),
    };
    buf.advance(bytes.len());
    Ok(Some(bytes))
}

// Whether nothing is left.
fn is_at_end<'p, B: ParseBuf<'p>>(buf: &mut B) -> ParseResult<bool>
    ensures stays { BufferInvariant (B.source buf.old) (kind_if_failed result) (B.source buf.new) }
    ensures can_fail { CanFail (B.source buf.old) (kind_if_failed result) }
    ensures memory { CallNeedsNoMemory result }
    ensures kept { IsTrue (B.source buf.old).told →
        (B.source buf.new).left ≡ (B.source buf.old).left }
    ensures ok { IsTrue (B.source buf.old).told →
        IfOk result (λ end. IsTrue end ↔ ((B.source buf.old).left ≡ [])) }
    ensures err { IsTrue (B.source buf.old).told →
        IfErr result (λ e. FailsInRest (B.source buf.old) (kind_of e) (B.source buf.new)) }
{
    match buf.chunk() {
        Ok(_) => Ok(false),
        Err(error) if error.kind() == ErrorKind::Eof => Ok(true),
        Err(error) => Err(error),
    }
}

// Appends all that is left. A buffer that never ends runs out of memory.
fn append_rest<'p, B: ParseBuf<'p>>(buf: &mut B, out: &mut Vec<u8>) -> ParseResult<()>
    ensures stays { BufferInvariant (B.source buf.old) (kind_if_failed result) (B.source buf.new) }
    ensures can_fail { CanFail (B.source buf.old) (kind_if_failed result) }
    ensures ok { IsTrue (B.source buf.old).told →
        OnOk result ((out.new.items ≡ out.old.items ++ (B.source buf.old).left)
        × ((B.source buf.new).left ≡ [])) }
    ensures err { IsTrue (B.source buf.old).told →
        IfErr result (λ e. FailsInRest (B.source buf.old) (kind_of e) (B.source buf.new)) }
{
    match append(buf, out, usize::MAX) {
        Ok(()) => Err(ParseError::out_of_memory()),
        Err(error) if error.kind() == ErrorKind::Eof => Ok(()),
        Err(error) => Err(error),
    }
}

// The bytes of `first`, and all that is left after them.
#[cold]
#[inline(never)]
fn copy_rest<'p, B: ParseBuf<'p>>(alloc: Global, buf: &mut B, first: &[u8]) -> ParseResult<Vec<u8>>
    ensures stays { BufferInvariant (B.source buf.old) (kind_if_failed result) (B.source buf.new) }
    ensures can_fail { CanFail (B.source buf.old) (kind_if_failed result) }
    ensures ok { IsTrue (B.source buf.old).told →
        IfOk result (λ v. (v.items ≡ first.now ++ (B.source buf.old).left)
        × ((B.source buf.new).left ≡ [])) }
    ensures err { IsTrue (B.source buf.old).told →
        IfErr result (λ e. FailsInRest (B.source buf.old) (kind_of e) (B.source buf.new)) }
{
    let mut bytes = Vec::new(alloc);
    if bytes.extend_from_slice(first).is_err() {
        return Err(ParseError::out_of_memory());
    }
    match append_rest(buf, &mut bytes) {
        Ok(()) => Ok(bytes),
        Err(error) => Err(error),
    }
}

/// All that is left, borrowed if the buffer is whole or nothing is left.
#[inline]
pub fn take_rest<'p, B: ParseBuf<'p>>(alloc: Global, buf: &mut B) -> ParseResult<CowSlice<'p, u8>>
    ensures stays { BufferInvariant (B.source buf.old) (kind_if_failed result) (B.source buf.new) }
    ensures can_fail { CanFail (B.source buf.old) (kind_if_failed result) }
    ensures whole { IsTrue (B.source buf.old).whole → IfOk result (λ c. IsTrue (is_borrowed c)) }
    ensures whole_memory { IsTrue (B.source buf.old).whole → CallNeedsNoMemory result }
    ensures nothing { IsTrue (B.source buf.old).told → (B.source buf.old).left ≡ [] →
        CallNeedsNoMemory result × IfOk result (λ c. IsTrue (is_borrowed c)) }
    ensures ok { IsTrue (B.source buf.old).told →
        IfOk result (λ c. (cow_items c ≡ (B.source buf.old).left)
        × ((B.source buf.new).left ≡ [])) }
    ensures err { IsTrue (B.source buf.old).told →
        IfErr result (λ e. FailsInRest (B.source buf.old) (kind_of e) (B.source buf.new)) }
{
    let first = match lend_first(buf) {
        Ok(Some(first)) => first,
        Ok(None) => return Ok(CowSlice::Borrowed(&[])),
        Err(error) => return Err(error),
    };
    if let Some(0) = buf.remaining_hint() {
        return Ok(CowSlice::Borrowed(first));
    }
    match is_at_end(buf) {
        Ok(true) => return Ok(CowSlice::Borrowed(first)),
        Ok(false) => {}
        Err(error) => return Err(error),
    }
    match copy_rest(alloc, buf, first) {
        Ok(bytes) => Ok(CowSlice::Owned(bytes)),
        Err(error) => Err(error),
    }
}
