//! Counts of frames.

ghost use Rattle.std.specs.Prelude.{◌≡◌, [], ◌∷◌, Ok, Err};
ghost use Rattle.perf_base.specs.declared.error.ErrorKind.{ErrorKind};
ghost use Rattle.perf_records.specs.Records.{RecordValue};
ghost use Rattle.perf_reports.specs.Counting.{plus, counts_of, modulo_word, record_sum};

use perf_base::sys::perf_event_header;

/// Counts of frames, each modulo 2^64.
#[derive(Copy, Clone, Debug, PartialEq, Eq)]
pub struct Counts {
    /// The number of frames.
    pub records: u64,
    /// The number of refused frames.
    pub refused: u64,
    /// The sum of what the frames that were not refused add.
    pub checksum: u64,
}

impl Counts {
    /// The counts of no frames.
    pub const NONE: Counts = Counts {
        records: 0,
        refused: 0,
        checksum: 0,
    };

    // Counts one more frame, whose record adds `sum` to the checksum.
    #[inline]
    pub(crate) fn add_record(&mut self, header: perf_event_header, sum: u64)
        ensures { (value : RecordValue) → sum ≡ modulo_word (record_sum value) →
            self.new ≡ plus self.old (counts_of ((header, Ok value) ∷ [])) }
    {
        let base = sum.wrapping_add(u64::from(header.type_) + u64::from(header.size));
        *self = self.plus(Counts {
            records: 1,
            refused: 0,
            checksum: base,
        });
    }

    // Counts one more frame, which was refused.
    #[inline]
    pub(crate) fn add_refused(&mut self)
        ensures { (header : perf_event_header) → (kind : ErrorKind) →
            self.new ≡ plus self.old (counts_of ((header, Err kind) ∷ [])) }
    {
        *self = self.plus(Counts {
            records: 1,
            refused: 1,
            checksum: 0,
        });
    }

    #[inline]
    fn plus(&self, others: Counts) -> Counts
        ensures { result ≡ plus self.now others }
    {
        Counts {
            records: self.records.wrapping_add(others.records),
            refused: self.refused.wrapping_add(others.refused),
            checksum: self.checksum.wrapping_add(others.checksum),
        }
    }
}
