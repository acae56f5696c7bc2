//! Buffers: where the bytes come from.

ghost use Rattle.std.specs.Prelude.{◌≡◌, ℕ, ◌≤◌, true, false, None, Some, IsTrue, List, length, Ok};
ghost use Rattle.std.specs.Prelude.{Option, IfOk, IfErr, IfSome, ◌<◌, OnOk, IsOk, IsSome, take};
ghost use Rattle.perf_buffers.specs.Prelude.{sem, Rests, kind_of, Source, Shows, ShowsReady, Refuses};
ghost use Rattle.perf_buffers.specs.Prelude.{KeepsChunk, Advances, chunk_bytes, chunk_is_borrowed, known_bytes};
ghost use Rattle.perf_buffers.specs.Prelude.{has_known_bytes};
ghost use Rattle.perf_buffers.specs.Prelude.{RefusesReader, reader_remaining, reader_buffer};

use perf_base::{ErrorKind, ParseError, ParseResult};
use std::io::{self, BufRead, BufReader, Read};

/// How many bytes a buffer is assumed to have if its hint does not report it.
pub const UNHINTED_BYTES: usize = 16384;

/// The next bytes of a buffer.
#[derive(Copy, Clone, Debug)]
pub enum ParseBufChunk<'tmp, 'p> {
    /// Bytes that the buffer owns. They are valid until it advances.
    Temporary(&'tmp [u8]),
    /// Bytes of the input, which outlive the buffer.
    External(&'p [u8]),
}

impl<'tmp, 'p> ParseBufChunk<'tmp, 'p> {
    /// The bytes, of either kind.
    #[inline]
    pub fn as_bytes(&self) -> &[u8]
        ensures { result.now ≡ chunk_bytes self.now }
    {
        match self {
            ParseBufChunk::Temporary(bytes) => bytes,
            ParseBufChunk::External(bytes) => bytes,
        }
    }

    /// The first `len` of the bytes, which live as long.
    #[inline]
    pub fn first(self, len: usize) -> ParseBufChunk<'tmp, 'p>
        requires { len ≤ length (chunk_bytes self) }
        ensures bytes { chunk_bytes result ≡ take len (chunk_bytes self.entry) }
        ensures borrowed { chunk_is_borrowed result ≡ chunk_is_borrowed self.entry }
    {
        match self {
            ParseBufChunk::Temporary(bytes) => ParseBufChunk::Temporary(&bytes[..len]),
            ParseBufChunk::External(bytes) => ParseBufChunk::External(&bytes[..len]),
        }
    }
}

/// Bytes for a parser, handed out in chunks.
pub trait ParseBuf<'p> {
    ghost source: { Self → Source };

    // the bytes that the next chunk shows again, as `chunk` showed them before; none if it may
    // still read more
    ghost ready: { Self → List ℕ };

    // the value of `remaining_hint`
    ghost hint: { Self → Option ℕ };

    /// A non-empty prefix of what is left. It stays the same until [`ParseBuf::advance`] takes from
    /// it. The refusal is `Eof` only if nothing is left, and otherwise `External`, which takes
    /// nothing.
    fn chunk(&mut self) -> ParseResult<ParseBufChunk<'_, 'p>>
        ensures shows { IfOk result (λ c. Shows (source self.old) c) }
        ensures same { ShowsReady (ready self.old) result }
        ensures refuses { IfErr result (λ e. Refuses (source self.old) (kind_of e)) }
        ensures* after_borrow { sem 𝓛 (Rests Self.row self.entry (λ new.
            KeepsChunk (source self.old) result (source new) (ready new))) };

    /// Takes bytes that [`ParseBuf::chunk`] showed.
    fn advance(&mut self, count: usize)
        requires { count ≤ length (ready self.old) }
        ensures { Advances (source self.old) count (source self.new) };

    /// How many bytes are left, if the buffer knows it. A whole one does.
    fn remaining_hint(&self) -> Option<usize>
        ensures is { result ≡ hint self.now }
        ensures whole { IsTrue (source self.now).whole → IsSome result }
        ensures exact { IfSome result (λ n. IsTrue (source self.now).told →
            n ≡ length (source self.now).left) };
}

/// A slice is whole and cannot fault.
impl<'p> ParseBuf<'p> for &'p [u8] {
    ghost source = { λ s.
        record { left = s.now; told = true; whole = true; can_fault = false; faults = None } };

    ghost ready = { λ s. s.now };

    ghost hint = { λ s. Some (length s.now) };

    #[inline]
    fn chunk(&mut self) -> ParseResult<ParseBufChunk<'_, 'p>> {
        if self.is_empty() {
            return Err(ParseError::eof());
        }
        Ok(ParseBufChunk::External(*self))
    }

    #[inline]
    fn advance(&mut self, count: usize) {
        *self = &self[count..];
    }

    #[inline]
    fn remaining_hint(&self) -> Option<usize> {
        Some(self.len())
    }
}

// The fault for an error of a reader, whatever the reader calls it.
#[cold]
#[inline(never)]
fn make_fault(error: io::Error) -> ParseError
    ensures { kind_of result ≡ ErrorKind.External }
{
    ParseError::new(anyhow::Error::from(error))
}

// The same. It is inlined, so that the space for the fault, which is large, is cleared only if
// there is one.
#[inline(always)]
fn fault_of(error: io::Error) -> ParseError
    ensures { kind_of result ≡ ErrorKind.External }
{
    make_fault(error)
}

// Reads ahead, and returns whether there is more. All bytes read before have been taken.
#[inline(never)]
fn read_more<R: Read>(reader: &mut BufReader<R>) -> io::Result<bool>
    ensures some { result ≡ Ok true → 0 < length (reader_buffer reader.new) }
    ensures none { result ≡ Ok false →
        RefusesReader (reader_remaining R.remaining reader.old) ErrorKind.Eof }
    ensures kept { IsTrue (has_known_bytes (reader_remaining R.remaining reader.old)) →
        reader_remaining R.remaining reader.new ≡ reader_remaining R.remaining reader.old }
{
    if let Err(error) = reader.fill_buf() {
        return Err(error);
    }
    Ok(!reader.buffer().is_empty())
}

// Reads ahead if all bytes read before have been taken.
#[inline]
fn read_ahead<R: Read>(reader: &mut BufReader<R>) -> ParseResult<()>
    ensures ready { 0 < length (reader_buffer reader.old) →
        OnOk result (reader_buffer reader.new ≡ reader_buffer reader.old) × IsOk result }
    ensures some { OnOk result (0 < length (reader_buffer reader.new)) }
    ensures kept { IsTrue (has_known_bytes (reader_remaining R.remaining reader.old)) →
        reader_remaining R.remaining reader.new ≡ reader_remaining R.remaining reader.old }
    ensures refuses { IfErr
        result (λ e. RefusesReader (reader_remaining R.remaining reader.old) (kind_of e)) }
{
    if !reader.buffer().is_empty() {
        return Ok(());
    }
    match read_more(reader) {
        Ok(true) => Ok(()),
        Ok(false) => Err(ParseError::eof()),
        Err(error) => Err(fault_of(error)),
    }
}

/// Every fault of the reader is `External`, even if the reader calls it an interruption or an
/// unexpected end.
impl<'p, R: Read> ParseBuf<'p> for BufReader<R> {
    ghost source = { λ s. record {
      left = known_bytes (reader_remaining R.remaining s);
      told = has_known_bytes (reader_remaining R.remaining s);
      whole = false;
      can_fault = true;
      faults = None;
    } };

    ghost ready = { λ s. reader_buffer s };

    ghost hint = { λ _. None };

    #[inline]
    fn chunk(&mut self) -> ParseResult<ParseBufChunk<'_, 'p>> {
        match read_ahead(self) {
            Ok(()) => Ok(ParseBufChunk::Temporary(self.buffer())),
            Err(error) => Err(error),
        }
    }

    #[inline]
    fn advance(&mut self, count: usize) {
        self.consume(count)
    }

    #[inline]
    fn remaining_hint(&self) -> Option<usize> {
        None
    }
}
