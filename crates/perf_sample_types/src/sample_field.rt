//! Fields of a sample, each present or absent.

ghost use Rattle.std.specs.Prelude.{◌≡◌, ◌==◌, ⊤, Bool, IfSome, Some, None, option_map, true, false};
ghost use Rattle.perf_sample_types.specs.SampleEmpty.{fill_result};
ghost use Rattle.std.specs.Int.RustNames.{bit_and};
ghost use Rattle.perf_base.specs.Configuration.{Configuration};
ghost use Rattle.perf_base.specs.Table.{present_if};
ghost use Rattle.perf_sample_types.specs.Sample as sample;
ghost use Rattle.perf_sample_types.specs.Prelude.{Call, Parts, ReadsBorrowed, ReadsField, kinds};
ghost use Rattle.perf_sample_types.specs.SampleMemory.{Lasts};
ghost use Rattle.perf_counters.specs.Prelude.{NeedsNoMemory};
ghost use Rattle.perf_words.specs.SetBits.{sample_flags_bits};

use bitflags::Flags;
use perf_base::{Endian, ReadResult};
use perf_buffers::input::Input;
use perf_reader::reader::Reader;
use perf_words::SampleFlags;

// The value of a field of a sample. There is one type for each kind of field.
pub(crate) trait SampleField: Sized {
    // the parts that it consists of
    ghost parts: { Configuration → Parts sample.FieldValue };

    // its value
    ghost value: { Self → sample.FieldValue };

    // that no byte of it was copied
    ghost borrowed: { Self → Type 0 };

    // whether it has a list of numbers, which takes memory
    ghost takes_list: { Bool };
}

// A field that is read from an input.
pub(crate) trait ReadField<'p, I: Input<'p>>: SampleField {
    // Reads the field. Its lists may take the memory of those of an old one, of which nothing is
    // known then.
    fn read_field<E: Endian>(reader: &mut Reader<I, E>, old: &mut Option<Self>) -> ReadResult<Self>
        ensures memory { Lasts I.source reader.old → Self.takes_list ≡ false →
            NeedsNoMemory (kinds result) }
        ensures call { Call I.source E.order
            (ReadsBorrowed (λ c. Self.parts (sample.settings_of c)) Self.value Self.borrowed)
            reader.old (kinds result) reader.new };
}

// Drops what a place contains. It costs one test if the place is empty, and none if it is known to
// be empty.
#[inline(always)]
pub(crate) fn clear_place<T: Drop>(place: &mut Option<T>, is_empty: bool)
    requires { is_empty ≡ true → place.old ≡ None }
    ensures { place.new ≡ None }
{
    if !is_empty && place.is_some() {
        *place = None;
    }
}

// Puts a field into its place. It is apart, since a function clears its locals when it begins: so an
// absent field clears none.
#[inline(always)]
#[tactic(auto, using(crate::proofs::PresentFields::filled_fields))]
fn fill_field<'p, I: Input<'p>, E: Endian, T: ReadField<'p, I> + Drop>(
    place: &mut Option<T>,
    reader: &mut Reader<I, E>,
) -> ReadResult<()>
    ensures memory { Lasts I.source reader.old → T.takes_list ≡ false →
        NeedsNoMemory (kinds result) }
    ensures call { Call I.source E.order
        (ReadsField (λ c. Some (T.parts (sample.settings_of c)))
        (option_map T.value) (λ x. IfSome x T.borrowed))
        reader.old (fill_result (kinds result) place.new) reader.new }
{
    match T::read_field(reader, place) {
        Ok(field) => {
            *place = Some(field);
            Ok(())
        }
        Err(refusal) => Err(refusal),
    }
}

// Puts a field, if present, into its place, and otherwise empties the place. An absent field costs
// only the test of its flag, if the place is known to be empty.
#[inline(always)]
#[tactic(auto, using(crate::proofs::PresentFields::filled_fields))]
pub(crate) fn fill_field_if<'p, I: Input<'p>, E: Endian, T: ReadField<'p, I> + Drop>(
    place: &mut Option<T>,
    reader: &mut Reader<I, E>,
    present: bool,
    is_empty: bool,
) -> ReadResult<()>
    requires { is_empty ≡ true → place.old ≡ None }
    ensures memory { Lasts I.source reader.old → (present ≡ true → T.takes_list ≡ false) →
        NeedsNoMemory (kinds result) }
    ensures call { Call I.source E.order
        (ReadsField (λ c. present_if present (T.parts (sample.settings_of c)))
        (option_map T.value) (λ x. IfSome x T.borrowed))
        reader.old (fill_result (kinds result) place.new) reader.new }
{
    if !present {
        clear_place(place, is_empty);
        return Ok(());
    }
    fill_field(place, reader)
}

// Puts a field into its place if the sample type has its flag. It is inlined, so that it costs no
// more than that test.
#[inline(always)]
pub(crate) fn fill_flagged<'p, I: Input<'p>, E: Endian, T: ReadField<'p, I> + Drop>(
    place: &mut Option<T>,
    reader: &mut Reader<I, E>,
    flags: SampleFlags,
    flag: SampleFlags,
    is_empty: bool,
) -> ReadResult<()>
    requires { is_empty ≡ true → place.old ≡ None }
    ensures memory { Lasts I.source reader.old →
        ((bit_and (sample_flags_bits flags) (sample_flags_bits flag) == sample_flags_bits flag)
        ≡ true → T.takes_list ≡ false) →
        NeedsNoMemory (kinds result) }
    ensures call { Call I.source E.order
        (ReadsField (λ c. present_if
        (bit_and (sample_flags_bits flags) (sample_flags_bits flag) == sample_flags_bits flag)
        (T.parts (sample.settings_of c)))
        (option_map T.value) (λ x. IfSome x T.borrowed))
        reader.old (fill_result (kinds result) place.new) reader.new }
{
    fill_field_if(place, reader, flags.contains(flag), is_empty)
}
