//! The sources of bytes for calls inside this library.
//!
//! An input returns the bytes that are requested, or a [`Refusal`] of two bytes. A slice is an input
//! itself, and bytes that are borrowed for a short time are one as
//! [`TransientBytes`](crate::transient::TransientBytes); any other buffer is one as an
//! [`Outer`](crate::outer::Outer).

ghost use Rattle.std.specs.Prelude.{◌≡◌, ℕ, ◌<◌, ◌≤◌, [], length, take, drop, true, false, Some};
ghost use Rattle.std.specs.Prelude.{None, Option, IsTrue, IsOk, OnOk, IfOk, IfErr, IfSome};
ghost use Rattle.perf_buffers.specs.Prelude.{refusal_kind, kinds, kind_if_refused, Eof, BufferInvariant};
ghost use Rattle.perf_buffers.specs.Prelude.{CanFail, Takes, FailsToTake, NeedsNoMemory};
ghost use Rattle.perf_buffers.specs.Cutting.{BorrowsWhole, WholeNeedsNoMemory, RefusesShort, AllocatesFirst, KeepsNext, RefusesNext};
ghost use Rattle.perf_buffers.specs.Prelude as prelude;

use crate::cursor::ParseBufCursor;
use crate::zeros::is_zero;
use perf_base::{CowSlice, ReadResult, Refusal};
use std::alloc::Global;

/// Bytes that are taken as they are needed.
pub trait Input<'p> {
    ghost source: { Self → prelude.Source };

    // how many bytes are left, if known
    ghost hint: { Self → Option ℕ };

    /// Fills `out`, which has at least one byte.
    fn fill(&mut self, out: &mut [u8]) -> ReadResult<()>
        requires { 0 < length out.old }
        ensures stays { BufferInvariant (source self.old) (kind_if_refused (kinds result)) (source self.new) }
        ensures can_fail { CanFail (source self.old) (kind_if_refused (kinds result)) }
        ensures memory { NeedsNoMemory (kinds result) }
        ensures ok { IsTrue (source self.old).told → OnOk result (
            Takes (source self.old) (length out.old) (source self.new)
            × (out.new ≡ take (length out.old) (source self.old).left)) }
        ensures err { IsTrue (source self.old).told → IfErr result (λ e.
            FailsToTake (source self.old) (length out.old) (refusal_kind e) (source self.new)) };

    /// Takes `len` bytes, at least one, and keeps none of them.
    fn skip(&mut self, len: usize) -> ReadResult<()>
        requires { 0 < len }
        ensures stays { BufferInvariant (source self.old) (kind_if_refused (kinds result)) (source self.new) }
        ensures can_fail { CanFail (source self.old) (kind_if_refused (kinds result)) }
        ensures memory { NeedsNoMemory (kinds result) }
        ensures ok { IsTrue (source self.old).told →
            OnOk result (Takes (source self.old) len (source self.new)) }
        ensures err { IsTrue (source self.old).told → IfErr result (λ e.
            FailsToTake (source self.old) len (refusal_kind e) (source self.new)) };

    /// The same. Returns whether all of them are zero.
    fn take_zeros(&mut self, len: usize) -> ReadResult<bool>
        requires { 0 < len }
        ensures stays { BufferInvariant (source self.old) (kind_if_refused (kinds result)) (source self.new) }
        ensures can_fail { CanFail (source self.old) (kind_if_refused (kinds result)) }
        ensures memory { NeedsNoMemory (kinds result) }
        ensures ok { IsTrue (source self.old).told → IfOk result (λ zero.
            Takes (source self.old) len (source self.new)
            × (zero ≡ prelude.all_zero (take len (source self.old).left))) }
        ensures err { IsTrue (source self.old).told → IfErr result (λ e.
            FailsToTake (source self.old) len (refusal_kind e) (source self.new)) };

    /// All that is left, borrowed if the input is whole or nothing is left.
    fn take_rest(&mut self, alloc: Global) -> ReadResult<CowSlice<'p, u8>>
        ensures stays { BufferInvariant (source self.old) (kind_if_refused (kinds result)) (source self.new) }
        ensures can_fail { CanFail (source self.old) (kind_if_refused (kinds result)) }
        ensures whole { BorrowsWhole prelude.is_borrowed (source self.old) (kinds result) }
        ensures whole_memory { WholeNeedsNoMemory (source self.old) (kinds result) }
        ensures nothing { IsTrue (source self.old).told → (source self.old).left ≡ [] →
            NeedsNoMemory (kinds result) × IfOk result (λ c. IsTrue (prelude.is_borrowed c)) }
        ensures ok { IsTrue (source self.old).told → IfOk result (λ c.
            (prelude.cow_items c ≡ (source self.old).left) × ((source self.new).left ≡ [])) }
        ensures err { IsTrue (source self.old).told → IfErr result (λ e.
            prelude.FailsInRest (source self.old) (refusal_kind e) (source self.new)) };

    /// Cuts off the next `len` bytes. They are borrowed if one chunk contains them all and lives as
    /// long as the input, and otherwise copied, into capacity allocated by the rules of
    /// [`ParseBufCursor::new`].
    fn cut(&mut self, alloc: Global, len: usize) -> ReadResult<ParseBufCursor<'p>>
        ensures stays { BufferInvariant (source self.old) (kind_if_refused (kinds result)) (source self.new) }
        ensures can_fail { CanFail (source self.old) (kind_if_refused (kinds result)) }
        ensures whole { BorrowsWhole prelude.cursor_is_borrowed (source self.old) (kinds result) }
        ensures whole_memory { WholeNeedsNoMemory (source self.old) (kinds result) }
        ensures nothing { len ≡ 0 → IfOk result (λ c. IsTrue (prelude.cursor_is_borrowed c)) × IsOk result
            × (source self.new ≡ source self.old) }
        ensures short { RefusesShort (hint self.old) len (kinds result) }
        ensures beforehand { AllocatesFirst (prelude.is_made_beforehand (hint self.old) len)
            (source self.old) (kinds result) (source self.new) }
        ensures ok { KeepsNext prelude.cursor_left (source self.old) len (kinds result) (source self.new) }
        ensures start { IfOk result (λ c. prelude.IsAtStart c) }
        ensures count { IfOk result (λ c. length (prelude.cursor_left c) ≡ len) }
        ensures err { RefusesNext (source self.old) len (kinds result) (source self.new) };

    /// Bytes at hand, none of which is taken: the first of those that are left. There may be none.
    fn shown_bytes(&self) -> &[u8]
        ensures { IsTrue (source self.now).told →
            (length result.now ≤ length (source self.now).left)
            × (result.now ≡ take (length result.now) (source self.now).left) };

    /// How many bytes are left, if known.
    fn remaining_hint(&self) -> Option<usize>
        ensures is { result ≡ hint self.now }
        ensures exact { IfSome result (λ n.
            IsTrue (source self.now).told → n ≡ length (source self.now).left) };
}

/// The next `N` bytes, at least one.
#[inline]
pub fn take_array<'p, I: Input<'p>, const N: usize>(input: &mut I) -> ReadResult<[u8; N]>
    requires { 0 < N }
    ensures stays { BufferInvariant (I.source input.old) (kind_if_refused (kinds result)) (I.source input.new) }
    ensures can_fail { CanFail (I.source input.old) (kind_if_refused (kinds result)) }
    ensures memory { NeedsNoMemory (kinds result) }
    ensures ok { IsTrue (I.source input.old).told → IfOk result (λ bytes.
        Takes (I.source input.old) N (I.source input.new)
        × (bytes ≡ take N (I.source input.old).left)) }
    ensures err { IsTrue (I.source input.old).told → IfErr result (λ e.
        FailsToTake (I.source input.old) N (refusal_kind e) (I.source input.new)) }
{
    let mut bytes = [0u8; N];
    input.fill(&mut bytes)?;
    Ok(bytes)
}

// The next `len` bytes of a slice. If it has fewer, all of it is taken.
#[inline]
pub(crate) fn take_front<'p>(bytes: &mut &'p [u8], len: usize) -> ReadResult<&'p [u8]>
    ensures ok { IfOk result (λ front. (len ≤ length bytes.old.now)
        × (front.now ≡ take len bytes.old.now) × (bytes.new.now ≡ drop len bytes.old.now)) }
    ensures err { IfErr result (λ e. (refusal_kind e ≡ Eof)
        × (length bytes.old.now < len) × (bytes.new.now ≡ [])) }
{
    let all = *bytes;
    if all.len() < len {
        *bytes = &[];
        return Err(Refusal::Eof);
    }
    *bytes = &all[len..];
    Ok(&all[..len])
}

/// A slice is whole and cannot fault.
impl<'p> Input<'p> for &'p [u8] {
    ghost source = { λ s.
        record { left = s.now; told = true; whole = true; can_fault = false; faults = None } };

    ghost hint = { λ s. Some (length s.now) };

    #[inline]
    fn fill(&mut self, out: &mut [u8]) -> ReadResult<()> {
        let front = take_front(self, out.len())?;
        out.copy_from_slice(front);
        Ok(())
    }

    #[inline]
    fn skip(&mut self, len: usize) -> ReadResult<()> {
        take_front(self, len)?;
        Ok(())
    }

    #[inline]
    fn take_zeros(&mut self, len: usize) -> ReadResult<bool> {
        let front = take_front(self, len)?;
        Ok(is_zero(front))
    }

    #[inline]
    fn take_rest(&mut self, _alloc: Global) -> ReadResult<CowSlice<'p, u8>> {
        let rest = *self;
        *self = &[];
        Ok(CowSlice::Borrowed(rest))
    }

    #[inline]
    fn cut(&mut self, _alloc: Global, len: usize) -> ReadResult<ParseBufCursor<'p>> {
        let front = take_front(self, len)?;
        Ok(ParseBufCursor::lent(front))
    }

    #[inline]
    fn shown_bytes(&self) -> &[u8] {
        self
    }

    #[inline]
    fn remaining_hint(&self) -> Option<usize> {
        Some(self.len())
    }
}
