//! An input and how to read it.

ghost use Rattle.std.specs.Prelude.{◌≡◌, ◌≤◌, ◌<◌, length, Ok, Err, None, IsTrue, IfOk, IfErr};
ghost use Rattle.std.specs.Prelude.{IfSome, ◌*◌, Bool, true, false, ◌+◌, IsOk, ℕ, []};
ghost use Rattle.std.specs.Prelude.{OnErr, nat_le, option_map, vec_capacity, ◌≢◌};
ghost use Rattle.perf_base.specs.Attribute.{zero_tail};
ghost use Rattle.perf_base.specs.Configured.{configuration_of, endian_of};
ghost use Rattle.perf_base.specs.FieldWords.{name};
ghost use Rattle.perf_base.specs.Header.{header};
ghost use Rattle.perf_base.specs.Refusals.{IsErrorOf};
ghost use Rattle.perf_buffers.specs.Cutting.{BorrowsWhole, WholeNeedsNoMemory, RefusesShort};
ghost use Rattle.perf_buffers.specs.Cutting.{AllocatesFirst, KeepsNext, RefusesNext};
ghost use Rattle.perf_buffers.specs.Taking.{MovesWithin};
ghost use Rattle.perf_buffers.specs.declared.outer.Outer.{Outer};
ghost use Rattle.perf_reader.specs.NextFrame.{GivesNextFrame, FailsToReadFrame};
ghost use Rattle.perf_reader.specs.Headers.{ReadsHeader, ReadsShownHeader, StopsAt, stop_kinds};
ghost use Rattle.perf_reader.specs.Room.{IsRoom};
ghost use Rattle.perf_reader.specs.Prelude.{Call, ReadsAtOnce, NeedsNoMemory, kinds, input_of};
ghost use Rattle.perf_reader.specs.Prelude.{refusal_kind, ReadsOne, words, one_if_any, OutOfMemory};
ghost use Rattle.perf_reader.specs.Prelude.{falls_short, is_made_beforehand, reads_of, cow_items};
ghost use Rattle.perf_reader.specs.Prelude.{is_borrowed, byte_string, BufferInvariant, cursor_left};
ghost use Rattle.perf_reader.specs.Prelude.{cursor_is_borrowed, IsAtStart, CanFail};
ghost use Rattle.perf_reader.specs.Prelude.{config_of, kind_if_refused, Refuses, buffer_of, ReadsPlain};
ghost use Rattle.perf_reader.specs.Prelude.{state_of, Reads, number, w1, w2, w4, w8, optional};
ghost use Rattle.perf_reader.specs.Prelude.{padding, rest, PassesOver};

use crate::blocks::{BLOCK_LEN, BLOCK_SIZE, NUMBER_SIZE, convert};
use crate::frame_reader::{Configured, ConfiguredFrameReader};
use crate::header::{ShownFrames, Stop, header_from, header_in, stop_at};
use crate::names::trimmed_len;
use crate::read::ReadFrom;
use perf_base::sys::perf_event_header;
use perf_base::{CowSlice, Endian, ParseConfig, ParseError, ReadCounter, ReadResult, Refusal};
use perf_buffers::cursor::ParseBufCursor;
use perf_buffers::input::{Input, take_array};
use perf_buffers::outer::Outer;
use perf_buffers::parsebuf::{ParseBuf, UNHINTED_BYTES};
use std::alloc::Global;

/// Reads values from an input, under a configuration. Bytes are taken, and reads counted, by its
/// calls alone.
#[derive(Drop)]
pub struct Reader<I, E> {
    pub(crate) input: I,
    pub(crate) config: ParseConfig<E>,
    pub(crate) reads: ReadCounter,
    pub(crate) alloc: Global,
}

// ---- how a reader is made, and its parts
impl<I, E: Endian> Reader<I, E> {
    /// A reader of an input from which nothing was read. It allocates from `alloc`.
    #[inline]
    pub fn new(alloc: Global, input: I, config: ParseConfig<E>) -> Reader<I, E>
        ensures input { input_of result ≡ input }
        ensures config { config_of result ≡ config }
        ensures reads { reads_of result ≡ 0 }
    {
        Reader {
            input,
            config,
            reads: ReadCounter::new(),
            alloc,
        }
    }
}

impl<I, E: Endian> Reader<I, E> {
    /// The input.
    #[inline]
    pub fn input(&self) -> &I
        ensures { result.now ≡ input_of self.now }
    {
        &self.input
    }

    /// The configuration.
    #[inline]
    pub fn config(&self) -> &ParseConfig<E>
        ensures { result.now ≡ config_of self.now }
    {
        &self.config
    }

    /// The byte order.
    #[inline]
    pub fn endian(&self) -> &E
        ensures { result.now ≡ endian_of (config_of self.now) }
    {
        self.config.endian()
    }

    /// The allocator.
    #[inline]
    pub fn alloc(&self) -> Global {
        self.alloc
    }
}

// ---- a reader of a caller's buffer, and the errors that its refusals become
impl<B, E: Endian> Reader<Outer<B>, E> {
    /// A reader of a buffer from which nothing was read.
    #[inline]
    pub fn of_buffer(alloc: Global, buf: B, config: ParseConfig<E>) -> Reader<Outer<B>, E>
        ensures buf { buffer_of result ≡ buf }
        ensures config { config_of result ≡ config }
        ensures reads { reads_of result ≡ 0 }
    {
        Reader::new(alloc, Outer::new(alloc, buf), config)
    }

    /// The error that a refusal becomes: the buffer's own error, if the buffer failed.
    #[inline]
    pub fn error_of(&mut self, refusal: Refusal) -> ParseError
        ensures error { IsErrorOf result refusal }
        ensures buf { buffer_of self.new ≡ buffer_of self.old }
        ensures config { config_of self.new ≡ config_of self.old }
        ensures reads { reads_of self.new ≡ reads_of self.old }
    {
        self.input.error_of(refusal)
    }

    /// A reader of the rest of the same buffer under another configuration.
    #[inline]
    pub fn reconfigure<E2: Endian>(self, config: ParseConfig<E2>) -> Reader<Outer<B>, E2>
        ensures buf { buffer_of result ≡ buffer_of self }
        ensures config { config_of result ≡ config }
        ensures reads { reads_of result ≡ reads_of self }
    {
        Reader {
            input: self.input,
            config,
            reads: self.reads,
            alloc: self.alloc,
        }
    }
}

// ---- bytes that are cut off, and the count of reads
impl<'p, I: Input<'p>, E: Endian> Reader<I, E> {
    /// Cuts off the next `len` bytes. This is not an elementary read: only reads of those bytes are
    /// counted.
    #[inline]
    pub fn cut(&mut self, len: usize) -> ReadResult<ParseBufCursor<'p>>
        ensures config { config_of self.new ≡ config_of self.old }
        ensures reads { reads_of self.new ≡ reads_of self.old }
        ensures stays { BufferInvariant (I.source (input_of self.old)) (kind_if_refused (kinds result))
            (I.source (input_of self.new)) }
        ensures can_fail { CanFail (I.source (input_of self.old)) (kind_if_refused (kinds result)) }
        ensures whole { BorrowsWhole cursor_is_borrowed (I.source (input_of self.old)) (kinds result) }
        ensures whole_memory { WholeNeedsNoMemory (I.source (input_of self.old)) (kinds result) }
        ensures nothing { len ≡ 0 → IfOk result (λ c. IsTrue (cursor_is_borrowed c)) × IsOk result
            × (I.source (input_of self.new) ≡ I.source (input_of self.old)) }
        ensures short { RefusesShort (I.hint (input_of self.old)) len (kinds result) }
        ensures beforehand { AllocatesFirst (is_made_beforehand (I.hint (input_of self.old)) len)
            (I.source (input_of self.old)) (kinds result) (I.source (input_of self.new)) }
        ensures ok { KeepsNext cursor_left (I.source (input_of self.old)) len (kinds result)
            (I.source (input_of self.new)) }
        ensures start { IfOk result (λ c. IsAtStart c) }
        ensures count { IfOk result (λ c. length (cursor_left c) ≡ len) }
        ensures err { RefusesNext (I.source (input_of self.old)) len (kinds result)
            (I.source (input_of self.new)) }
    {
        self.input.cut(self.alloc, len)
    }

    /// Counts the reads made of bytes that were cut off, or shown.
    #[inline]
    pub fn count(&mut self, more: ReadCounter)
        ensures input { input_of self.new ≡ input_of self.old }
        ensures config { config_of self.new ≡ config_of self.old }
        ensures reads { reads_of self.new ≡ reads_of self.old + more }
    {
        self.reads.add(more);
    }
}

impl<I: Drop, E: Endian> Reader<I, E> {
    /// How many reads were made.
    #[inline]
    pub fn into_reads(self) -> ReadCounter
        ensures { result ≡ reads_of self }
    {
        self.reads
    }
}

// ---- how many bytes the input reports, and the capacity of lists
impl<'p, I: Input<'p>, E> Reader<I, E> {
    /// Whether the input has `len` bytes, if it reports how many it has.
    #[inline]
    pub fn has_bytes(&self, len: usize) -> Option<bool>
        ensures is { result ≡ option_map (nat_le len) (I.hint (input_of self.now)) }
        ensures exact { IfSome result (λ has. IsTrue (I.source (input_of self.now)).told →
            has ≡ nat_le len (length (I.source (input_of self.now)).left)) }
    {
        self.has_items(len, 1)
    }

    /// Whether the input has `count` items of `size` bytes each, if it reports how many bytes it
    /// has. Any count is allowed.
    #[inline]
    pub fn has_items(&self, count: usize, size: usize) -> Option<bool>
        ensures is { result ≡ option_map (nat_le (count * size)) (I.hint (input_of self.now)) }
        ensures exact { IfSome result (λ has. IsTrue (I.source (input_of self.now)).told →
            has ≡ nat_le (count * size) (length (I.source (input_of self.now)).left)) }
    {
        let left = self.input.remaining_hint()?;
        Some(count.checked_mul(size).is_some_and(|len| len <= left))
    }

    // The capacity, in items, that a list of `claimed` items gets before the first of them is
    // read. An item has eight bytes or more.
    pub(crate) fn room_for(&self, claimed: usize) -> usize
        ensures { IsRoom (I.hint (input_of self.now)) claimed result }
    {
        let most = match self.input.remaining_hint() {
            Some(left) => left,
            None => UNHINTED_BYTES,
        };
        claimed.min(most / 8)
    }

    /// An empty list for `claimed` items. Its capacity is that of [`Reader::room_for`], so no
    /// claimed count by itself takes more memory than the input's length allows, and a count of 0
    /// takes none. The only refusal is out of memory.
    pub fn list_for<T>(&self, claimed: usize) -> ReadResult<Vec<T>>
        ensures items { IfOk result (λ v. v.items ≡ []) }
        ensures room { IfOk result (λ v.
            IsRoom (I.hint (input_of self.now)) claimed (vec_capacity v)) }
        ensures nothing { claimed ≡ 0 → IsOk result }
        ensures refused { IfErr result (λ refusal. refusal ≡ Refusal.OutOfMemory) }
    {
        match Vec::with_capacity(self.alloc, self.room_for(claimed)) {
            Ok(items) => Ok(items),
            Err(_) => Err(Refusal::OutOfMemory),
        }
    }

    /// An empty list for `claimed` items, in the memory of a list that is not needed any more. If
    /// that has less than the capacity of [`Reader::room_for`], it is dropped, and the list is that
    /// of [`Reader::list_for`]. The only refusal is out of memory.
    #[inline]
    pub fn list_over<T: Copy>(&self, mut spare: Vec<T>, claimed: usize) -> ReadResult<Vec<T>>
        ensures items { IfOk result (λ v. v.items ≡ []) }
        ensures room { IfOk result (λ v. vec_capacity spare < vec_capacity v →
            IsRoom (I.hint (input_of self.now)) claimed (vec_capacity v)) }
        ensures kept { claimed ≤ vec_capacity spare →
            IfOk result (λ v. vec_capacity v ≡ vec_capacity spare) }
        ensures enough { claimed ≤ vec_capacity spare → IsOk result }
        ensures refused { IfErr result (λ refusal. refusal ≡ Refusal.OutOfMemory) }
    {
        if spare.capacity() < self.room_for(claimed) {
            drop(spare);
            return self.list_for(claimed);
        }
        spare.clear();
        Ok(spare)
    }
}

// ---- values of a type
impl<'p, I: Input<'p>, E: Endian> Reader<I, E> {
    /// Reads one value of a type.
    #[inline]
    pub fn read<T: ReadFrom<'p, I>>(&mut self) -> ReadResult<T>
        ensures call { Call I.source E.order T.transition self.old (kinds result) self.new }
    {
        T::read(self)
    }
}

// ---- numbers
impl<'p, I: Input<'p>, E: Endian> Reader<I, E> {
    /// The next `N` bytes. `N` is at least 1.
    #[inline]
    #[tactic(auto)]
    pub fn read_array<const N: usize>(&mut self) -> ReadResult<[u8; N]>
        requires { 0 < N }
        ensures counted { reads_of self.new ≡ reads_of self.old + 1 }
        ensures memory { NeedsNoMemory (kinds result) }
        ensures within { IsTrue (I.source (input_of self.old)).told →
            MovesWithin (I.source (input_of self.old)) N (I.source (input_of self.new)) }
        ensures call { Call I.source E.order (ReadsOne (byte_string N) (λ bytes. bytes))
            self.old (kinds result) self.new }
    {
        self.reads.tick();
        match take_array::<I, N>(&mut self.input) {
            Ok(bytes) => Ok(bytes),
            Err(refusal) => Err(refusal),
        }
    }

    /// The next byte.
    #[inline]
    #[tactic(auto, using(crate::proofs::Steps::number_run))]
    pub fn read_u8(&mut self) -> ReadResult<u8>
        ensures counted { reads_of self.new ≡ reads_of self.old + 1 }
        ensures memory { NeedsNoMemory (kinds result) }
        ensures call { Call I.source E.order (ReadsOne (number w1) (λ n. n))
            self.old (kinds result) self.new }
    {
        let [byte] = self.read_array::<1>()?;
        Ok(byte)
    }

    /// The number of the next two bytes.
    #[inline]
    #[tactic(auto, using(crate::proofs::Steps::number_run))]
    pub fn read_u16(&mut self) -> ReadResult<u16>
        ensures counted { reads_of self.new ≡ reads_of self.old + 1 }
        ensures memory { NeedsNoMemory (kinds result) }
        ensures call { Call I.source E.order (ReadsOne (number w2) (λ n. n))
            self.old (kinds result) self.new }
    {
        let bytes = self.read_array::<2>()?;
        Ok(self.config.endian().convert_u16(bytes))
    }

    /// The number of the next four bytes.
    #[inline]
    #[tactic(auto, using(crate::proofs::Steps::number_run))]
    pub fn read_u32(&mut self) -> ReadResult<u32>
        ensures counted { reads_of self.new ≡ reads_of self.old + 1 }
        ensures memory { NeedsNoMemory (kinds result) }
        ensures call { Call I.source E.order (ReadsOne (number w4) (λ n. n))
            self.old (kinds result) self.new }
    {
        let bytes = self.read_array::<4>()?;
        Ok(self.config.endian().convert_u32(bytes))
    }

    /// The number of the next eight bytes.
    #[inline]
    #[tactic(auto, using(crate::proofs::Steps::number_run))]
    pub fn read_u64(&mut self) -> ReadResult<u64>
        ensures counted { reads_of self.new ≡ reads_of self.old + 1 }
        ensures memory { NeedsNoMemory (kinds result) }
        ensures call { Call I.source E.order (ReadsOne (number w8) (λ n. n))
            self.old (kinds result) self.new }
    {
        let bytes = self.read_array::<8>()?;
        Ok(self.config.endian().convert_u64(bytes))
    }
}

// ---- numbers that may be absent, and bytes that are skipped
impl<'p, I: Input<'p>, E: Endian> Reader<I, E> {
    // A number of two bytes, if it is present.
    #[inline]
    #[tactic(auto, using(crate::proofs::Steps::optionals))]
    pub(crate) fn read_u16_if(&mut self, present: bool) -> ReadResult<Option<u16>>
        ensures memory { NeedsNoMemory (kinds result) }
        ensures call { Call I.source E.order (ReadsOne (optional present w2) (λ n. n))
            self.old (kinds result) self.new }
    {
        if !present {
            return Ok(None);
        }
        match self.read_u16() {
            Ok(number) => Ok(Some(number)),
            Err(refusal) => Err(refusal),
        }
    }

    /// A number of four bytes, if it is present.
    #[inline]
    #[tactic(auto, using(crate::proofs::Steps::optionals))]
    pub fn read_u32_if(&mut self, present: bool) -> ReadResult<Option<u32>>
        ensures memory { NeedsNoMemory (kinds result) }
        ensures call { Call I.source E.order (ReadsOne (optional present w4) (λ n. n))
            self.old (kinds result) self.new }
    {
        if !present {
            return Ok(None);
        }
        match self.read_u32() {
            Ok(number) => Ok(Some(number)),
            Err(refusal) => Err(refusal),
        }
    }

    /// A number of eight bytes, if it is present.
    #[inline]
    #[tactic(auto, using(crate::proofs::Steps::optionals))]
    pub fn read_u64_if(&mut self, present: bool) -> ReadResult<Option<u64>>
        ensures memory { NeedsNoMemory (kinds result) }
        ensures call { Call I.source E.order (ReadsOne (optional present w8) (λ n. n))
            self.old (kinds result) self.new }
    {
        if !present {
            return Ok(None);
        }
        match self.read_u64() {
            Ok(number) => Ok(Some(number)),
            Err(refusal) => Err(refusal),
        }
    }

    /// Skips `len` bytes of padding.
    #[inline]
    #[tactic(auto, using(crate::proofs::Steps::padding_none))]
    pub fn skip(&mut self, len: usize) -> ReadResult<()>
        ensures memory { NeedsNoMemory (kinds result) }
        ensures call { Call I.source E.order (ReadsOne (padding len) (λ _. tt))
            self.old (kinds result) self.new }
    {
        if len == 0 {
            return Ok(());
        }
        self.reads.tick();
        match self.input.skip(len) {
            Ok(()) => Ok(()),
            Err(refusal) => Err(refusal),
        }
    }
}

// ---- numbers whose bytes are taken at once
impl<'p, I: Input<'p>, E: Endian> Reader<I, E> {
    /// The next `N` bytes, which are those of `numbers` numbers, if the input reports that it has
    /// them; otherwise nothing is read. They are taken at once, and each number is a read.
    #[inline]
    #[tactic(auto)]
    pub fn read_at_once<const N: usize>(&mut self, numbers: usize) -> ReadResult<Option<[u8; N]>>
        requires some { 0 < numbers }
        requires room { numbers ≤ N }
        ensures memory { NeedsNoMemory (kinds result) }
        ensures taken { IfOk result (λ taken. IfSome taken (λ bytes.
            Call I.source E.order (ReadsAtOnce N numbers) self.old (Ok bytes) self.new)) }
        ensures nothing { result ≡ Ok None → self.new ≡ self.old }
        ensures refused { IfErr result (λ e.
            Call I.source E.order (ReadsAtOnce N numbers) self.old (Err (refusal_kind e)) self.new) }
    {
        if self.has_bytes(N) != Some(true) {
            return Ok(None);
        }
        match self.take_at_once::<N>(numbers) {
            Ok(bytes) => Ok(Some(bytes)),
            Err(refusal) => Err(refusal),
        }
    }

    // The next `N` bytes, which are those of `numbers` numbers, and which the input has. They are
    // taken at once, and each number is a read.
    #[inline]
    #[tactic(auto, using(crate::proofs::Calls::chain))]
    fn take_at_once<const N: usize>(&mut self, numbers: usize) -> ReadResult<[u8; N]>
        requires some { 0 < numbers }
        requires room { numbers ≤ N }
        requires has { IsTrue (I.source (input_of self.old)).told →
            N ≤ length (I.source (input_of self.old)).left }
        ensures memory { NeedsNoMemory (kinds result) }
        ensures call { Call I.source E.order (ReadsAtOnce N numbers)
            self.old (kinds result) self.new }
    {
        self.reads.tick();
        let bytes = match take_array::<I, N>(&mut self.input) {
            Ok(bytes) => bytes,
            Err(refusal) => return Err(refusal),
        };
        self.reads.add(ReadCounter::of(numbers as u64 - 1));
        Ok(bytes)
    }
}

// ---- numbers of eight bytes, several at once
impl<'p, I: Input<'p>, E: Endian> Reader<I, E> {
    // Whether the input shows `count` more numbers of eight bytes.
    #[inline]
    pub(crate) fn shows_numbers(&self, count: usize) -> bool {
        count <= self.input.shown_bytes().len() / NUMBER_SIZE
    }

    /// Fills a list, which is not empty, with the next numbers of eight bytes, if the input shows
    /// them all; otherwise nothing is read. Each number is a read.
    #[inline]
    pub fn read_shown(&mut self, numbers: &mut [u64]) -> ReadResult<bool>
        requires { 0 < length numbers.old }
        ensures memory { NeedsNoMemory (kinds result) }
        ensures shown { result ≡ Ok true → Call I.source E.order
            (ReadsOne (words (length numbers.old)) (λ (_ : Bool). numbers.new))
            self.old (Ok true) self.new }
        ensures nothing { result ≡ Ok false → self.new ≡ self.old }
        ensures refused { IfErr result (λ e. Call I.source E.order
            (ReadsOne (words (length numbers.old)) (λ (_ : Bool). numbers.new))
            self.old (Err (refusal_kind e)) self.new) }
    {
        let front = self.input.shown_bytes();
        if front.len() / NUMBER_SIZE < numbers.len() {
            return Ok(false);
        }
        let len = NUMBER_SIZE * numbers.len();
        convert(self.config.endian(), &front[..len], numbers);
        self.reads.tick();
        match self.input.skip(len) {
            Ok(()) => (),
            Err(refusal) => return Err(refusal),
        }
        self.reads.add(ReadCounter::of(numbers.len() as u64 - 1));
        Ok(true)
    }

    /// Fills a block, which is not empty, with the next numbers of eight bytes. They are taken at
    /// once if the input shows them, or reports that it has them and there are at most
    /// [`BLOCK_LEN`]; otherwise they are read one by one. Each number is a read.
    #[inline]
    pub fn read_block(&mut self, numbers: &mut [u64]) -> ReadResult<()>
        requires { 0 < length numbers.old }
        ensures memory { NeedsNoMemory (kinds result) }
        ensures call { Call I.source E.order
            (ReadsOne (words (length numbers.old)) (λ _. numbers.new))
            self.old (kinds result) self.new }
    {
        match self.read_shown(numbers) {
            Ok(true) => Ok(()),
            Ok(false) => self.read_unshown(numbers),
            Err(refusal) => Err(refusal),
        }
    }

    // The same if the input does not show them all.
    #[inline(never)]
    fn read_unshown(&mut self, numbers: &mut [u64]) -> ReadResult<()>
        requires { 0 < length numbers.old }
        ensures memory { NeedsNoMemory (kinds result) }
        ensures call { Call I.source E.order
            (ReadsOne (words (length numbers.old)) (λ _. numbers.new))
            self.old (kinds result) self.new }
    {
        if numbers.len() <= BLOCK_LEN && self.has_items(numbers.len(), NUMBER_SIZE) == Some(true) {
            return self.take_block(numbers);
        }
        for i in 0..numbers.len() {
            numbers[i] = match self.read_u64() {
                Ok(number) => number,
                Err(refusal) => return Err(refusal),
            };
        }
        Ok(())
    }

    // Fills a block of 1 to [`BLOCK_LEN`] numbers with the next numbers of eight bytes, which the
    // input has. They are taken at once, and each number is a read.
    #[inline]
    fn take_block(&mut self, numbers: &mut [u64]) -> ReadResult<()>
        requires some { 0 < length numbers.old }
        requires most { length numbers.old ≤ 48 }
        requires there { IsTrue (I.source (input_of self.old)).told →
            8 * length numbers.old ≤ length (I.source (input_of self.old)).left }
        ensures memory { NeedsNoMemory (kinds result) }
        ensures call { Call I.source E.order
            (ReadsOne (words (length numbers.old)) (λ _. numbers.new))
            self.old (kinds result) self.new }
    {
        self.reads.tick();
        let mut bytes = [0u8; BLOCK_SIZE];
        let len = NUMBER_SIZE * numbers.len();
        match self.input.fill(&mut bytes[..len]) {
            Ok(()) => (),
            Err(refusal) => return Err(refusal),
        }
        self.reads.add(ReadCounter::of(numbers.len() as u64 - 1));
        convert(self.config.endian(), &bytes[..len], numbers);
        Ok(())
    }
}

// ---- counted lists of numbers, for which nothing is allocated from a claimed count alone
impl<'p, I: Input<'p>, E: Endian> Reader<I, E> {
    /// Reads `count` items of `numbers` numbers each, up to the end of an input that has fewer, and
    /// returns the refusal. None of them is kept, so no memory is needed. If the input reports how
    /// much it has, all numbers that are there are skipped at once.
    pub fn read_to_the_end(&mut self, numbers: usize, count: usize) -> Refusal
        requires { IsTrue (I.source (input_of self.old)).told →
            length (I.source (input_of self.old)).left < 8 * (numbers * count) }
        ensures memory { refusal_kind result ≢ OutOfMemory }
        ensures call { Call I.source E.order
            (ReadsOne (words (numbers * count)) (λ numbers. numbers))
            self.old (Err (refusal_kind result)) self.new }
    {
        if let Some(left) = self.input.remaining_hint() {
            let whole = left / NUMBER_SIZE;
            if let Err(refusal) = self.pass(NUMBER_SIZE * whole, ReadCounter::of(whole as u64)) {
                return refusal;
            }
        }
        for _ in 0..count {
            for _ in 0..numbers {
                if let Err(refusal) = self.read_u64() {
                    return refusal;
                }
            }
        }
        Refusal::Eof
    }

    // Reads `count` numbers in blocks. The list is empty.
    #[inline(never)]
    fn append_numbers(&mut self, mut numbers: Vec<u64>, count: usize) -> ReadResult<Vec<u64>>
        requires { numbers.items ≡ [] }
        ensures length { IfOk result (λ v. length v.items ≡ count) }
        ensures enough { count ≤ vec_capacity numbers → NeedsNoMemory (kinds result) }
        ensures call { Call I.source E.order (ReadsOne (words count) (λ v. v.items))
            self.old (kinds result) self.new }
    {
        let mut block = [0; BLOCK_LEN];
        while numbers.len() < count {
            let more = BLOCK_LEN.min(count - numbers.len());
            match self.read_block(&mut block[..more]) {
                Ok(()) => (),
                Err(refusal) => return Err(refusal),
            }
            if numbers.extend_from_slice(&block[..more]).is_err() {
                return Err(Refusal::OutOfMemory);
            }
        }
        Ok(numbers)
    }

    /// Reads `count` numbers, all at once if the input shows them. A list that does not fit needs no
    /// memory if the input reports how much it has.
    pub fn read_numbers(&mut self, count: usize) -> ReadResult<Vec<u64>>
        ensures length { IfOk result (λ v. length v.items ≡ count) }
        ensures short { RefusesShort (I.hint (input_of self.old)) (8 * count) (kinds result) }
        ensures call { Call I.source E.order (ReadsOne (words count) (λ v. v.items))
            self.old (kinds result) self.new }
    {
        self.read_numbers_over(Vec::new(self.alloc), count)
    }

    /// As [`Reader::read_numbers`], in the memory of a list that is not needed any more, by the rule
    /// of [`Reader::list_over`]. No memory is needed if that has the capacity.
    pub fn read_numbers_over(&mut self, spare: Vec<u64>, count: usize) -> ReadResult<Vec<u64>>
        ensures length { IfOk result (λ v. length v.items ≡ count) }
        ensures short { RefusesShort (I.hint (input_of self.old)) (8 * count) (kinds result) }
        ensures enough { count ≤ vec_capacity spare → NeedsNoMemory (kinds result) }
        ensures call { Call I.source E.order (ReadsOne (words count) (λ v. v.items))
            self.old (kinds result) self.new }
    {
        if self.has_items(count, NUMBER_SIZE) == Some(false) {
            return Err(self.read_to_the_end(1, count));
        }
        let mut numbers = self.list_over(spare, count)?;
        if 0 < count && self.shows_numbers(count) {
            if numbers.resize(count, 0).is_err() {
                return Err(Refusal::OutOfMemory);
            }
            match self.read_shown(numbers.as_mut_slice()) {
                Ok(true) => return Ok(numbers),
                Ok(false) => numbers.clear(),
                Err(refusal) => return Err(refusal),
            }
        }
        self.append_numbers(numbers, count)
    }
}

// ---- bytes that were read where the input shows them
impl<'p, I: Input<'p>, E: Endian> Reader<I, E> {
    /// Takes the next `len` bytes, which were read where the input shows them, in `reads` reads.
    #[inline]
    pub fn pass(&mut self, len: usize, reads: ReadCounter) -> ReadResult<()>
        requires has { IsTrue (I.source (input_of self.old)).told →
            len ≤ length (I.source (input_of self.old)).left }
        requires few { reads ≤ len }
        ensures memory { NeedsNoMemory (kinds result) }
        ensures call { Call I.source E.order (PassesOver len reads)
            self.old (kinds result) self.new }
    {
        if len == 0 {
            return Ok(());
        }
        match self.input.skip(len) {
            Ok(()) => {
                self.reads.add(reads);
                Ok(())
            }
            Err(refusal) => {
                self.reads.tick();
                Err(refusal)
            }
        }
    }
}

// ---- byte strings: of a known length, all that is left, and names
impl<'p, I: Input<'p>, E: Endian> Reader<I, E> {
    /// The next `len` bytes: borrowed if one chunk has them all and lives as long as the input, and
    /// otherwise copied, into memory that is allocated by the rules of a cut.
    #[inline]
    #[tactic(auto, using(crate::proofs::Steps::run_none))]
    pub fn read_bytes(&mut self, len: usize) -> ReadResult<CowSlice<'p, u8>>
        ensures whole { BorrowsWhole is_borrowed (I.source (input_of self.old)) (kinds result) }
        ensures whole_memory { WholeNeedsNoMemory (I.source (input_of self.old)) (kinds result) }
        ensures nothing { len ≡ 0 → IsOk result × (input_of self.new ≡ input_of self.old)
            × IfOk result (λ c. IsTrue (is_borrowed c)) }
        ensures short { falls_short (I.hint (input_of self.old)) len ≡ true →
            NeedsNoMemory (kinds result) }
        ensures beforehand { AllocatesFirst (is_made_beforehand (I.hint (input_of self.old)) len)
            (I.source (input_of self.old)) (kinds result) (I.source (input_of self.new)) }
        ensures counted { reads_of self.new ≡ reads_of self.old + one_if_any len }
        ensures length { IfOk result (λ c. length (cow_items c) ≡ len) }
        ensures call { Call I.source E.order (ReadsOne (byte_string len) cow_items)
            self.old (kinds result) self.new }
    {
        if len == 0 {
            return Ok(CowSlice::Borrowed(&[]));
        }
        self.reads.tick();
        match self.input.cut(self.alloc, len) {
            Ok(cursor) => Ok(cursor.into_bytes()),
            Err(refusal) => Err(refusal),
        }
    }
}

impl<'p, I: Input<'p>, E: Endian> Reader<I, E> {
    /// All bytes that are left: borrowed if the input is whole, or if there are none.
    #[inline]
    pub fn read_rest(&mut self) -> ReadResult<CowSlice<'p, u8>>
        ensures whole { BorrowsWhole is_borrowed (I.source (input_of self.old)) (kinds result) }
        ensures whole_memory { WholeNeedsNoMemory (I.source (input_of self.old)) (kinds result) }
        ensures nothing { IsTrue (I.source (input_of self.old)).told →
            (I.source (input_of self.old)).left ≡ [] →
            NeedsNoMemory (kinds result) × IfOk result (λ c. IsTrue (is_borrowed c)) }
        ensures counted { IfOk result (λ c.
            reads_of self.new ≡ reads_of self.old + one_if_any (length (cow_items c))) }
        ensures call { Call I.source E.order (ReadsOne rest cow_items)
            self.old (kinds result) self.new }
    {
        match self.input.take_rest(self.alloc) {
            Ok(bytes) => {
                self.reads.tick_if_any(bytes.len());
                Ok(bytes)
            }
            Err(refusal) => {
                self.reads.tick();
                Err(refusal)
            }
        }
    }
}

impl<'p, I: Input<'p>, E: Endian> Reader<I, E> {
    /// All bytes that are left, without the zero bytes at their end: borrowed if the input is
    /// whole, or if none are left.
    #[inline]
    #[tactic(auto, using(crate::proofs::Calls::chain))]
    pub fn read_rest_trim_nul(&mut self) -> ReadResult<CowSlice<'p, u8>>
        ensures whole { BorrowsWhole is_borrowed (I.source (input_of self.old)) (kinds result) }
        ensures whole_memory { WholeNeedsNoMemory (I.source (input_of self.old)) (kinds result) }
        ensures nothing { IsTrue (I.source (input_of self.old)).told →
            (I.source (input_of self.old)).left ≡ [] →
            NeedsNoMemory (kinds result) × IfOk result (λ c. IsTrue (is_borrowed c)) }
        ensures call { Call I.source E.order (Reads (λ _. name) cow_items)
            self.old (kinds result) self.new }
    {
        match self.read_rest() {
            Ok(mut bytes) => {
                let len = trimmed_len(bytes.as_slice());
                bytes.truncate(len);
                Ok(bytes)
            }
            Err(refusal) => Err(refusal),
        }
    }
}

// ---- bytes that must be zero
impl<'p, I: Input<'p>, E: Endian> Reader<I, E> {
    /// Takes the `len` bytes after the known fields of an attribute, all of which must be zero. If
    /// one is not, all of them are taken, and the refusal is [`Refusal::AttributeTail`].
    pub fn read_zero_tail(&mut self, len: usize) -> ReadResult<()>
        ensures memory { NeedsNoMemory (kinds result) }
        ensures call { Call I.source E.order (Reads (λ _. zero_tail len) (λ _. tt))
            self.old (kinds result) self.new }
    {
        if len == 0 {
            return Ok(());
        }
        self.reads.tick();
        match self.input.take_zeros(len) {
            Ok(true) => Ok(()),
            Ok(false) => Err(Refusal::AttributeTail),
            Err(refusal) => Err(refusal),
        }
    }
}

// ---- headers: of a record that is parsed on its own, and of the next frame of a run
impl<'p, I: Input<'p>, E: Endian> Reader<I, E> {
    // The next header, whose bytes the input has. They are taken at once, and each of its three
    // numbers is a read.
    #[inline]
    #[tactic(auto, using(crate::proofs::Calls::chain))]
    pub(crate) fn read_header(&mut self) -> ReadResult<perf_event_header>
        requires { IsTrue (I.source (input_of self.old)).told →
            8 ≤ length (I.source (input_of self.old)).left }
        ensures call { Call I.source E.order (ReadsPlain (λ _. header) (λ h. h))
            self.old (kinds result) self.new }
    {
        self.reads.tick();
        let bytes = match take_array::<I, 8>(&mut self.input) {
            Ok(bytes) => bytes,
            Err(refusal) => return Err(refusal),
        };
        self.reads.tick();
        self.reads.tick();
        Ok(header_in(self.config.endian(), bytes))
    }

    // The next header, a number at a time.
    #[inline]
    #[tactic(auto, using(crate::proofs::Calls::chain))]
    pub(crate) fn read_header_by_number(&mut self) -> ReadResult<perf_event_header>
        ensures call { Call I.source E.order (ReadsPlain (λ _. header) (λ h. h))
            self.old (kinds result) self.new }
    {
        Ok(perf_event_header {
            type_: self.read_u32()?,
            misc: self.read_u16()?,
            size: self.read_u16()?,
        })
    }

    // The header of a run's next frame: its first byte, which may be absent, and then the other
    // seven.
    #[cold]
    #[inline(never)]
    #[tactic(auto)]
    fn read_header_in_two(&mut self) -> Result<perf_event_header, Stop>
        ensures stop { IsTrue (I.source (input_of self.old)).told → IfErr result (λ s.
            StopsAt (state_of I.source E.order self.old) s (state_of I.source E.order self.new)) }
        ensures memory { NeedsNoMemory (stop_kinds result) }
        ensures call { Call I.source E.order ReadsHeader self.old (stop_kinds result) self.new }
    {
        let first = match self.read_array::<1>() {
            Ok(bytes) => bytes,
            Err(refusal) => return Err(stop_at(refusal, Stop::Done)),
        };
        let others = match self.read_array::<7>() {
            Ok(bytes) => bytes,
            Err(refusal) => return Err(stop_at(refusal, Stop::CutHeader)),
        };
        Ok(header_from(self.config.endian(), first, others))
    }
}

impl<'p, B: ParseBuf<'p>, E: Endian> Reader<Outer<B>, E> {
    /// The header of a run's next frame, or why the run stops there. It is read at once if the
    /// buffer shows all of it. The buffer may end inside it.
    #[inline]
    #[tactic(auto)]
    pub fn next_header(&mut self) -> Result<perf_event_header, Stop>
        ensures stop { IsTrue (B.source (buffer_of self.old)).told → IfErr result (λ s.
            StopsAt (state_of (λ (o : Outer B). B.source o.buf) E.order self.old) s
            (state_of (λ (o : Outer B). B.source o.buf) E.order self.new)) }
        ensures memory { IsTrue (B.source (buffer_of self.old)).told →
            NeedsNoMemory (stop_kinds result) }
        ensures call { Call (λ (o : Outer B). B.source o.buf) E.order ReadsHeader
            self.old (stop_kinds result) self.new }
    {
        match self.read_shown_header() {
            Ok(Some(header)) => Ok(header),
            Ok(None) => self.read_header_in_two(),
            Err(refusal) => Err(stop_at(refusal, Stop::Done)),
        }
    }

    // The header of a run's next frame, if the buffer shows all of it; otherwise nothing is taken.
    // A run counts it as two reads: of its first byte, which is absent at the end of a stream, and
    // of the other seven.
    #[inline]
    #[tactic(auto)]
    fn read_shown_header(&mut self) -> ReadResult<Option<perf_event_header>>
        ensures call { Call (λ (o : Outer B). B.source o.buf) E.order ReadsShownHeader
            self.old (kinds result) self.new }
    {
        match self.input.take_shown::<8>() {
            Ok(Some(bytes)) => {
                self.reads.tick();
                self.reads.tick();
                Ok(Some(header_in(self.config.endian(), bytes)))
            }
            Ok(None) => Ok(None),
            Err(refusal) => {
                self.reads.tick();
                Err(refusal)
            }
        }
    }
}

// ---- what is made of the bytes of one frame
impl<'p, B: ParseBuf<'p>, E: Endian> Reader<Outer<B>, E> {
    /// Hands the next `len` bytes to a reader of frames, takes them, and counts the reads that it
    /// made of them. [`Outer::with_frame`] has the rule on where the bytes are read. If the frame
    /// is refused, the state is unchanged.
    #[inline]
    pub fn with_frame<S, F: ConfiguredFrameReader<'p, E, S>>(
        &mut self,
        len: usize,
        reader: F,
        state: &mut S,
    ) -> ReadResult<F::Output>
        requires { F.len reader ≡ len }
        ensures config { config_of self.new ≡ config_of self.old }
        ensures stays { BufferInvariant (B.source (buffer_of self.old)) (kind_if_refused (kinds result))
            (B.source (buffer_of self.new)) }
        ensures can_fail { CanFail (B.source (buffer_of self.old)) (kind_if_refused (kinds result)) }
        ensures whole_memory { WholeNeedsNoMemory (B.source (buffer_of self.old)) (kinds result) }
        ensures nothing { len ≡ 0 → IsOk result
            × (B.source (buffer_of self.new) ≡ B.source (buffer_of self.old))
            × IfOk result (λ output. (more : ℕ) × F.gives reader
            (configuration_of (config_of self.old)) (E.order (endian_of (config_of self.old)))
            [] true more state.old output state.new) }
        ensures short { RefusesShort (B.hint (buffer_of self.old)) len (kinds result) }
        ensures beforehand { AllocatesFirst (is_made_beforehand (B.hint (buffer_of self.old)) len)
            (B.source (buffer_of self.old)) (kinds result) (B.source (buffer_of self.new)) }
        ensures ok { IfOk result (λ output. GivesNextFrame
            (F.gives reader (configuration_of (config_of self.old))
            (E.order (endian_of (config_of self.old))))
            (B.source (buffer_of self.old)) (reads_of self.old) len state.old output
            (B.source (buffer_of self.new)) (reads_of self.new) state.new) }
        ensures same { OnErr result (state.new ≡ state.old) }
        ensures err { IfErr result (λ e. FailsToReadFrame
            (B.source (buffer_of self.old)) (reads_of self.old) len (refusal_kind e)
            (B.source (buffer_of self.new)) (reads_of self.new)) }
    {
        let with_config = Configured {
            alloc: self.alloc,
            config: &self.config,
            reader,
        };
        match self.input.with_frame(len, with_config, state) {
            Ok((output, more)) => {
                self.reads.add(more);
                Ok(output)
            }
            Err(refusal) => Err(refusal),
        }
    }

    /// How many frames begin in the bytes that the buffer shows next, at most `most`: as counted,
    /// or as many as small frames would be. Nothing is taken, and this is not an elementary read.
    #[inline]
    pub fn frames_shown(&mut self, most: usize, is_exact: bool) -> ReadResult<usize>
        ensures config { config_of self.new ≡ config_of self.old }
        ensures reads { reads_of self.new ≡ reads_of self.old }
        ensures stays { BufferInvariant (B.source (buffer_of self.old)) (kind_if_refused (kinds result))
            (B.source (buffer_of self.new)) }
        ensures same { IsTrue (B.source (buffer_of self.old)).told →
            (B.source (buffer_of self.new)).left ≡ (B.source (buffer_of self.old)).left }
        ensures most { IfOk result (λ count. count ≤ most) }
        ensures shown { IfOk result (λ count. IsTrue (B.source (buffer_of self.old)).told →
            8 * count ≤ length (B.source (buffer_of self.old)).left) }
        ensures err { IfErr result
            (λ e. Refuses (B.source (buffer_of self.old)) (refusal_kind e)) }
    {
        let frames = ShownFrames {
            endian: self.config.endian(),
            limit: most,
            is_exact,
        };
        self.input.frames_shown(&frames)
    }
}
