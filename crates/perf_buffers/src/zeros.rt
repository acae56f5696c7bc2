//! Bytes that must be zero.

ghost use Rattle.std.specs.Prelude.{◌≡◌, ◌<◌, ◌≤◌, take, IsTrue, IfOk, IfErr};
ghost use Rattle.perf_base.specs.Errors.{kind_of};
ghost use Rattle.perf_base.specs.Refusals.{NeedsNoMemory, kinds, kind_if_refused, refusal_kind};
ghost use Rattle.perf_base.specs.Zeros.{all_zero};
ghost use Rattle.perf_buffers.specs.Buffer.{CallNeedsNoMemory, BufferInvariant, kind_if_failed};
ghost use Rattle.perf_buffers.specs.Taking.{Takes, FailsToTake, CanFail};

use crate::parsebuf::ParseBuf;
use perf_base::{Kept, ParseResult, ReadResult};

pub(crate) fn is_zero(bytes: &[u8]) -> bool
    ensures { result ≡ all_zero bytes.now }
{
    bytes.iter().all(|byte| *byte == 0)
}

// Takes what one chunk has, at most `len` bytes. Returns how many, and whether all of them are
// zero.
fn take_some_zeros<'p, B: ParseBuf<'p>>(buf: &mut B, len: usize) -> ParseResult<(usize, bool)>
    requires { 0 < len }
    ensures stays { BufferInvariant (B.source buf.old) (kind_if_failed result) (B.source buf.new) }
    ensures can_fail { CanFail (B.source buf.old) (kind_if_failed result) }
    ensures memory { CallNeedsNoMemory result }
    ensures count { IfOk result (λ taken. (0 < taken.0) × (taken.0 ≤ len)) }
    ensures ok { IsTrue (B.source buf.old).told →
        IfOk result (λ taken. Takes (B.source buf.old) taken.0 (B.source buf.new)
        × (taken.1 ≡ all_zero (take taken.0 (B.source buf.old).left))) }
    ensures err { IsTrue (B.source buf.old).told →
        IfErr result (λ e. FailsToTake (B.source buf.old) len (kind_of e) (B.source buf.new)) }
{
    let chunk = buf.chunk()?;
    let bytes = chunk.as_bytes();
    let count = bytes.len().min(len);
    let zero = is_zero(&bytes[..count]);
    buf.advance(count);
    Ok((count, zero))
}

// Takes `len` bytes and keeps none of them. Returns whether all of them are zero.
pub(crate) fn take_zeros<'p, B: ParseBuf<'p>>(
    buf: &mut B,
    cause: &mut Kept,
    len: usize,
) -> ReadResult<bool>
    ensures stays { BufferInvariant (B.source buf.old) (kind_if_refused (kinds result)) (B.source buf.new) }
    ensures can_fail { CanFail (B.source buf.old) (kind_if_refused (kinds result)) }
    ensures memory { NeedsNoMemory (kinds result) }
    ensures ok { IsTrue (B.source buf.old).told →
        IfOk result (λ zero. Takes (B.source buf.old) len (B.source buf.new)
        × (zero ≡ all_zero (take len (B.source buf.old).left))) }
    ensures err { IsTrue (B.source buf.old).told → IfErr result (λ e.
        FailsToTake (B.source buf.old) len (refusal_kind e) (B.source buf.new)) }
{
    let mut at = 0;
    let mut zero = true;
    while at < len {
        let (count, more) = match take_some_zeros(buf, len - at) {
            Ok(taken) => taken,
            Err(error) => return Err(cause.keep(error)),
        };
        at += count;
        zero &= more;
    }
    Ok(zero)
}
