//! Bodies read in place: their numbers are taken, and their lists are passed over.

ghost use Rattle.std.specs.Prelude.{◌≤◌, length};

use crate::frame::{FlatFrame, Span, put_numbers, put_spans, short_span};
use perf_base::{Endian, Refusal};
use perf_reader::names::trimmed_len;

// A body, how many of its bytes were read, and the first refusal. After a refusal nothing that is
// read counts.
#[derive(Drop)]
pub(crate) struct BodyCursor<'c> {
    bytes: &'c [u8],
    at: usize,
    refusal: Option<Refusal>,
    ghost within: { at ≤ length bytes.now },
}

impl<'c> BodyCursor<'c> {
    ghost use Rattle.std.specs.Prelude.{◌≡◌, ◌≤◌, ◌<◌, ◌+◌, ◌*◌, ◌^◌, List, None, length, ℕ};
    ghost use Rattle.perf_base.specs.Configuration.{Configuration};
    ghost use Rattle.perf_base.specs.Layout.{Parts, w1, w2, w4, w8, number, part, done};
    ghost use Rattle.perf_base.specs.FieldWords.{all_left, name, require};
    ghost use Rattle.perf_base.specs.Order.{Order};
    ghost use Rattle.perf_base.specs.Refusals.{refusal_kind};
    ghost use Rattle.perf_base.specs.declared.refusal.Refusal.TheVariants.{Eof};
    ghost use Rattle.perf_flat.specs.Arrays.{low_u32, span};
    ghost use Rattle.perf_flat.specs.CursorReads.{ReadsParts, ReadsFor, PassesNumbers, refusal_after};
    ghost use Rattle.perf_flat.specs.CursorReads.{WritesRecord, TakesRecord};
    ghost use Rattle.perf_flat.specs.SampleReads.{InFrames};
    ghost use Rattle.perf_flat.specs.Strings.{HasBytes};
    ghost use Rattle.perf_records.specs.Records.{RecordValue};

    // The beginning of a body.
    #[inline]
    pub(crate) fn new(bytes: &'c [u8]) -> BodyCursor<'c>
        ensures bytes { result.bytes.now ≡ bytes.now }
        ensures at { result.at ≡ 0 }
        ensures refusal { result.refusal ≡ None }
    {
        BodyCursor {
            bytes,
            at: 0,
            refusal: None,
        }
    }

    // The first refusal.
    #[inline]
    pub(crate) fn refusal(&self) -> Option<Refusal>
        ensures { result ≡ self.now.refusal }
    {
        self.refusal
    }

    // Refuses, if nothing was refused before.
    #[inline]
    fn refuse(&mut self, refusal: Refusal)
        ensures bytes { self.new.bytes.now ≡ self.old.bytes.now }
        ensures refusal { self.new.refusal ≡ refusal_after self.old.refusal refusal }
    {
        if self.refusal.is_none() {
            self.refusal = Some(refusal);
        }
    }

    // The next byte.
    #[inline]
    pub(crate) fn read_u8_as_u64<E: Endian>(&mut self, order: &E) -> u64
        ensures { ReadsParts (E.order order.now) (part (number w1) done) result self.old self.new }
    {
        match self.bytes[self.at..].split_first_chunk::<1>() {
            Some((bytes, _)) => {
                self.at += 1;
                u64::from(bytes[0])
            }
            None => {
                self.refuse(Refusal::Eof);
                0
            }
        }
    }

    // The next number of two bytes, as one of eight.
    #[inline]
    pub(crate) fn read_u16_as_u64<E: Endian>(&mut self, order: &E) -> u64
        ensures small { result < 2 ^ 16 }
        ensures reads { ReadsParts (E.order order.now) (part (number w2) done) result self.old self.new }
    {
        match self.bytes[self.at..].split_first_chunk::<2>() {
            Some((bytes, _)) => {
                self.at += 2;
                u64::from(order.convert_u16(*bytes))
            }
            None => {
                self.refuse(Refusal::Eof);
                0
            }
        }
    }

    // The next number of four bytes, as one of eight.
    #[inline]
    pub(crate) fn read_u32_as_u64<E: Endian>(&mut self, order: &E) -> u64
        ensures { ReadsParts (E.order order.now) (part (number w4) done) result self.old self.new }
    {
        u64::from(self.read_u32(order))
    }

    // The next number of four bytes.
    #[inline]
    pub(crate) fn read_u32<E: Endian>(&mut self, order: &E) -> u32
        ensures { ReadsParts (E.order order.now) (part (number w4) done) result self.old self.new }
    {
        match self.bytes[self.at..].split_first_chunk::<4>() {
            Some((bytes, _)) => {
                self.at += 4;
                order.convert_u32(*bytes)
            }
            None => {
                self.refuse(Refusal::Eof);
                0
            }
        }
    }

    // The next number of eight bytes.
    #[inline]
    pub(crate) fn read_u64<E: Endian>(&mut self, order: &E) -> u64
        ensures { ReadsParts (E.order order.now) (part (number w8) done) result self.old self.new }
    {
        match self.bytes[self.at..].split_first_chunk::<8>() {
            Some((bytes, _)) => {
                self.at += 8;
                order.convert_u64(*bytes)
            }
            None => {
                self.refuse(Refusal::Eof);
                0
            }
        }
    }

    // Refuses, if this is false.
    #[inline]
    pub(crate) fn require(&mut self, holds: bool, refusal: Refusal)
        ensures { (o : Order) →
            ReadsParts o (require holds (refusal_kind refusal)) tt self.old self.new }
    {
        if !holds {
            self.refuse(refusal);
        }
    }

    // All bytes that are left, as a name: it ends before the zero bytes at their end.
    #[inline]
    pub(crate) fn name(&mut self) -> Span
        ensures { (o : Order) → ReadsFor o name
            (λ v. InFrames self.old.bytes.now (λ frame. HasBytes frame result v))
            self.old self.new }
    {
        let at = self.at;
        let len = trimmed_len(&self.bytes[at..]);
        self.at = self.bytes.len();
        short_span(8 + at, len)
    }

    // All bytes that are left.
    #[inline]
    pub(crate) fn all_left(&mut self) -> Span
        ensures { (o : Order) → ReadsFor o all_left
            (λ v. InFrames self.old.bytes.now (λ frame. HasBytes frame result v))
            self.old self.new }
    {
        let at = self.at;
        let left = self.bytes.len() - at;
        self.at = self.bytes.len();
        short_span(8 + at, left)
    }

    // Passes over that many bytes, and returns where they are in the frame.
    pub(crate) fn pass(&mut self, len: u64) -> Span
        ensures bytes { self.new.bytes.now ≡ self.old.bytes.now }
        ensures room { length self.old.bytes.now < 2 ^ 63 }
        ensures short { length self.old.bytes.now < self.old.at + len →
            self.new.refusal ≡ refusal_after self.old.refusal Eof }
        ensures fits { self.old.at + len ≤ length self.old.bytes.now →
            (self.new.refusal ≡ self.old.refusal) × (self.new.at ≡ self.old.at + len)
            × (result ≡ span (low_u32 (8 + self.old.at)) (low_u32 len)) }
    {
        let at = self.at;
        if len > (self.bytes.len() - at) as u64 {
            self.refuse(Refusal::Eof);
            return Span { at: 0, len: 0 };
        }
        self.at = at + len as usize;
        short_span(8 + at, len as usize)
    }

    // Passes over that many items of so many numbers each, and returns where they are in the frame.
    pub(crate) fn pass_items(&mut self, count: u64, each: u64) -> Span
        requires { each ≤ 3 }
        ensures { (o : Order) → (n : ℕ) → n ≡ each * count →
            PassesNumbers o n self.old result self.new }
    {
        match count.checked_mul(8 * each) {
            Some(len) => self.pass(len),
            None => self.pass(u64::MAX),
        }
    }

    // Writes the contents of the record that was read, which has these numbers and spans, and returns
    // the first refusal.
    #[inline(always)]
    pub(crate) fn finish(
        &self,
        numbers: &[u64],
        spans: &[Span],
        frame: &mut FlatFrame,
    ) -> Option<Refusal>
        requires numbers { length numbers.now ≤ 24 }
        requires spans { length spans.now ≤ 8 }
        ensures { (c : Configuration) (o : Order) (p : Parts RecordValue) (value : RecordValue)
            (body : List ℕ) → TakesRecord c o p value body numbers.now spans.now self.now →
            WritesRecord c o p body frame.old result frame.new }
    {
        put_numbers(numbers, &mut frame.numbers);
        put_spans(spans, &mut frame.spans);
        self.refusal
    }
}
