//! Copying bytes from one chunk or from several: those of a number, and those that are appended to
//! others.

ghost use Rattle.std.specs.Prelude.{◌≡◌, ◌+◌, ◌<◌, ◌≤◌, [], ◌++◌, length, take, OnOk, IfOk, IfErr};
ghost use Rattle.std.specs.Prelude.{IsTrue, vec_len, vec_capacity};
ghost use Rattle.perf_buffers.specs.Prelude.{kind_of, refusal_kind, kinds, kind_if_refused, kind_if_failed, BufferInvariant};
ghost use Rattle.perf_buffers.specs.Prelude.{CanFail, Takes, TakesAtOnce, FailsToTake, FailsToKeep};
ghost use Rattle.perf_buffers.specs.Prelude.{CallNeedsNoMemory, NeedsNoMemory};

use crate::parsebuf::ParseBuf;
use perf_base::{ErrorKind, Kept, ParseError, ParseResult, ReadResult};

// Fills `out` if one chunk has all its bytes, and otherwise takes nothing.
#[inline]
fn fill_at_once<'p, B: ParseBuf<'p>>(
    buf: &mut B,
    cause: &mut Kept,
    out: &mut [u8],
) -> ReadResult<bool>
    requires { 0 < length out.old }
    ensures stays { BufferInvariant (B.source buf.old) (kind_if_refused (kinds result)) (B.source buf.new) }
    ensures can_fail { CanFail (B.source buf.old) (kind_if_refused (kinds result)) }
    ensures memory { NeedsNoMemory (kinds result) }
    ensures ok { IsTrue (B.source buf.old).told → IfOk result (λ all.
        TakesAtOnce (B.source buf.old) (length out.old) all out.new (B.source buf.new)) }
    ensures err { IsTrue (B.source buf.old).told → IfErr result (λ e.
        FailsToTake (B.source buf.old) (length out.old) (refusal_kind e) (B.source buf.new)) }
{
    let chunk = match buf.chunk() {
        Ok(chunk) => chunk,
        Err(error) => return Err(cause.keep(error)),
    };
    let bytes = chunk.as_bytes();
    let count = out.len();
    if bytes.len() < count {
        return Ok(false);
    }
    out.copy_from_slice(&bytes[..count]);
    buf.advance(count);
    Ok(true)
}

// Takes what one chunk has, at most as much as fits.
fn take_some<'p, B: ParseBuf<'p>>(buf: &mut B, out: &mut [u8]) -> ParseResult<usize>
    requires { 0 < length out.old }
    ensures count { IfOk result (λ n. (0 < n) × (n ≤ length out.old)) }
    ensures stays { BufferInvariant (B.source buf.old) (kind_if_failed result) (B.source buf.new) }
    ensures can_fail { CanFail (B.source buf.old) (kind_if_failed result) }
    ensures memory { CallNeedsNoMemory result }
    ensures ok { IsTrue (B.source buf.old).told →
        IfOk result (λ n. Takes (B.source buf.old) n (B.source buf.new)
        × (take n out.new ≡ take n (B.source buf.old).left)) }
    ensures err { IsTrue (B.source buf.old).told →
        IfErr result (λ e.
        FailsToTake (B.source buf.old) (length out.old) (kind_of e) (B.source buf.new)) }
{
    let chunk = buf.chunk()?;
    let bytes = chunk.as_bytes();
    let count = bytes.len().min(out.len());
    out[..count].copy_from_slice(&bytes[..count]);
    buf.advance(count);
    Ok(count)
}

// Fills `out` from as many chunks as needed: off the path of numbers that lie within one chunk.
#[cold]
#[inline(never)]
fn fill_slowly<'p, B: ParseBuf<'p>>(buf: &mut B, cause: &mut Kept, out: &mut [u8]) -> ReadResult<()>
    ensures stays { BufferInvariant (B.source buf.old) (kind_if_refused (kinds result)) (B.source buf.new) }
    ensures can_fail { CanFail (B.source buf.old) (kind_if_refused (kinds result)) }
    ensures memory { NeedsNoMemory (kinds result) }
    ensures ok { IsTrue (B.source buf.old).told → OnOk result (
        Takes (B.source buf.old) (length out.old) (B.source buf.new)
        × (out.new ≡ take (length out.old) (B.source buf.old).left)) }
    ensures err { IsTrue (B.source buf.old).told → IfErr result (λ e.
        FailsToTake (B.source buf.old) (length out.old) (refusal_kind e) (B.source buf.new)) }
{
    let mut at = 0;
    while at < out.len() {
        at += match take_some(buf, &mut out[at..]) {
            Ok(count) => count,
            Err(error) => return Err(cause.keep(error)),
        };
    }
    Ok(())
}

// Appends what one chunk has, at most `len` bytes.
fn append_some<'p, B: ParseBuf<'p>>(
    buf: &mut B,
    out: &mut Vec<u8>,
    len: usize,
) -> ParseResult<usize>
    requires { 0 < len }
    ensures stays { BufferInvariant (B.source buf.old) (kind_if_failed result) (B.source buf.new) }
    ensures can_fail { CanFail (B.source buf.old) (kind_if_failed result) }
    ensures room { vec_len out.old + len ≤ vec_capacity out.old → CallNeedsNoMemory result }
    ensures capacity { vec_capacity out.old ≤ vec_capacity out.new }
    ensures count { IfOk result (λ n. (0 < n) × (n ≤ len)
        × (vec_len out.new ≡ vec_len out.old + n)) }
    ensures ok { IsTrue (B.source buf.old).told →
        IfOk result (λ n. Takes (B.source buf.old) n (B.source buf.new)
        × (out.new.items ≡ out.old.items ++ take n (B.source buf.old).left)) }
    ensures end { IsTrue (B.source buf.old).told →
        IfErr result (λ e. kind_of e ≡ ErrorKind.Eof →
        ((B.source buf.old).left ≡ []) × (out.new.items ≡ out.old.items)) }
    ensures err { IsTrue (B.source buf.old).told →
        IfErr result (λ e. FailsToKeep (B.source buf.old) len (kind_of e) (B.source buf.new)) }
{
    let chunk = buf.chunk()?;
    let bytes = chunk.as_bytes();
    let count = bytes.len().min(len);
    if out.extend_from_slice(&bytes[..count]).is_err() {
        return Err(ParseError::out_of_memory());
    }
    buf.advance(count);
    Ok(count)
}

// Appends the next `len` bytes, or all that are left if there are fewer.
pub(crate) fn append<'p, B: ParseBuf<'p>>(
    buf: &mut B,
    out: &mut Vec<u8>,
    len: usize,
) -> ParseResult<()>
    ensures stays { BufferInvariant (B.source buf.old) (kind_if_failed result) (B.source buf.new) }
    ensures can_fail { CanFail (B.source buf.old) (kind_if_failed result) }
    ensures room { vec_len out.old + len ≤ vec_capacity out.old → CallNeedsNoMemory result }
    ensures count { OnOk result (vec_len out.new ≡ vec_len out.old + len) }
    ensures ok { IsTrue (B.source buf.old).told →
        OnOk result (Takes (B.source buf.old) len (B.source buf.new)
        × (out.new.items ≡ out.old.items ++ take len (B.source buf.old).left)) }
    ensures end { IsTrue (B.source buf.old).told →
        IfErr result (λ e. kind_of e ≡ ErrorKind.Eof →
        out.new.items ≡ out.old.items ++ (B.source buf.old).left) }
    ensures err { IsTrue (B.source buf.old).told →
        IfErr result (λ e. FailsToKeep (B.source buf.old) len (kind_of e) (B.source buf.new)) }
{
    let mut at = 0;
    while at < len {
        at += match append_some(buf, out, len - at) {
            Ok(count) => count,
            Err(error) => return Err(error),
        };
    }
    Ok(())
}

// Fills `out`, which has space for at least one byte.
#[inline]
pub(crate) fn fill<'p, B: ParseBuf<'p>>(
    buf: &mut B,
    cause: &mut Kept,
    out: &mut [u8],
) -> ReadResult<()>
    requires { 0 < length out.old }
    ensures stays { BufferInvariant (B.source buf.old) (kind_if_refused (kinds result)) (B.source buf.new) }
    ensures can_fail { CanFail (B.source buf.old) (kind_if_refused (kinds result)) }
    ensures memory { NeedsNoMemory (kinds result) }
    ensures ok { IsTrue (B.source buf.old).told → OnOk result (
        Takes (B.source buf.old) (length out.old) (B.source buf.new)
        × (out.new ≡ take (length out.old) (B.source buf.old).left)) }
    ensures err { IsTrue (B.source buf.old).told → IfErr result (λ e.
        FailsToTake (B.source buf.old) (length out.old) (refusal_kind e) (B.source buf.new)) }
{
    match fill_at_once(buf, cause, out) {
        Ok(true) => Ok(()),
        Ok(false) => fill_slowly(buf, cause, out),
        Err(refusal) => Err(refusal),
    }
}
