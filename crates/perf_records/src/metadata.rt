//! The metadata of records, which is the same for every type.

ghost use Rattle.std.specs.Prelude.{◌≡◌};
ghost use Rattle.perf_records.specs.Metadata.{MetadataValue};

use perf_sample_types::sample_id::SampleId;
use std::marker::Model;

/// The contents of a record's header and of the sample id at its end: its type, its `misc`, and
/// which task and event it belongs to.
#[derive(Clone, Debug, Drop)]
pub struct RecordMetadata {
    ty: u32,
    misc: u16,
    sample_id: SampleId,
}

impl Model for RecordMetadata {
    ghost Value = { MetadataValue };

    ghost view = { λ m. record { ty = m.ty; misc = m.misc; sample_id = m.sample_id } };

    ghost inverse = { λ m. record { ty = m.ty; misc = m.misc; sample_id = m.sample_id } };
}

impl RecordMetadata {
    /// The metadata with that type, `misc` and sample id.
    #[inline]
    pub fn from_parts(ty: u32, misc: u16, sample_id: SampleId) -> RecordMetadata
        ensures { result ≡ record { ty = ty; misc = misc; sample_id = sample_id } }
    {
        RecordMetadata {
            ty,
            misc,
            sample_id,
        }
    }

    /// The type in the record's header, one of the `PERF_RECORD_*` numbers.
    #[inline]
    pub fn ty(&self) -> u32
        ensures { result ≡ self.now.ty }
    {
        self.ty
    }

    /// The `misc` of the record's header, bits whose meaning depends on the type.
    #[inline]
    pub fn misc(&self) -> u16
        ensures { result ≡ self.now.misc }
    {
        self.misc
    }

    /// The sample id. Its fields are all absent if the record has none.
    #[inline]
    pub fn sample_id(&self) -> &SampleId
        ensures { result.now ≡ self.now.sample_id }
    {
        &self.sample_id
    }
}
