//! How records are to be read.

ghost use Rattle.std.specs.Prelude.{◌≡◌, ◌<◌, ◌^◌, IfOk, IfErr, IsTrue};
ghost use Rattle.perf_base.specs.Configuration as config;
ghost use Rattle.perf_base.specs.Configured.{configuration_of, endian_of};
ghost use Rattle.perf_base.specs.Errors.{kind_of};
ghost use Rattle.perf_words.specs.SetBits.{read_format_bits, sample_flags_bits};

use crate::endian::Endian;
use crate::error::{ErrorKind, ParseResult};
use crate::sys::perf_event_attr;
use bitflags::Flags;
use perf_words::{ReadFormat, SampleFlags};

// The fields of the packed word: where each begins, and its number of bits.
const SAMPLE_TYPE_AT: u32 = 6;

const SAMPLE_ID_ALL_AT: u32 = 46;

const BRANCH_HW_INDEX_AT: u32 = 47;

const MISC_AT: u32 = 48;

const SAMPLE_TYPE_BITS: u32 = 40;

/// What the parser needs to know of the event that wrote the records: its flags, packed into one
/// word, two masks of registers and the byte order.
#[derive(Debug, Drop)]
pub struct ParseConfig<E> {
    word: u64,
    regs_user: u64,
    regs_intr: u64,
    endian: E,
}

// What is kept of a read format: six bits, of which the last is also set if there were others.
#[inline]
fn kept_read_format(read_format: u64) -> u64
    ensures value { result ≡ config.kept_read_format read_format }
    ensures small { result < 2 ^ 6 }
{
    if read_format < 1 << 6 {
        read_format
    } else {
        (1 << 5) + read_format % (1 << 5)
    }
}

impl<E> ParseConfig<E> {
    /// What a read of a counter returns besides its value, `read_format` of the attribute: the five
    /// known bits, and bit 5 if there was any other.
    #[inline]
    pub fn read_format(&self) -> ReadFormat
        ensures { read_format_bits result ≡ (configuration_of self.now).read_format }
    {
        ReadFormat::from_bits_retain(self.word % (1 << SAMPLE_TYPE_AT))
    }

    /// Which fields a sample has, the lowest 40 bits of `sample_type` of the attribute.
    #[inline]
    pub fn sample_type(&self) -> SampleFlags
        ensures { sample_flags_bits result ≡ (configuration_of self.now).sample_type }
    {
        SampleFlags::from_bits_retain((self.word >> SAMPLE_TYPE_AT) % (1 << SAMPLE_TYPE_BITS))
    }

    /// Which user registers a sample has, one bit each.
    #[inline]
    pub fn regs_user(&self) -> u64
        ensures { result ≡ (configuration_of self.now).regs_user }
    {
        self.regs_user
    }

    /// Which registers at the interrupt a sample has, one bit each.
    #[inline]
    pub fn regs_intr(&self) -> u64
        ensures { result ≡ (configuration_of self.now).regs_intr }
    {
        self.regs_intr
    }

    /// Whether records end with a sample id.
    #[inline]
    pub fn sample_id_all(&self) -> bool
        ensures { result ≡ (configuration_of self.now).sample_id_all }
    {
        (self.word >> SAMPLE_ID_ALL_AT) % 2 == 1
    }

    /// Whether a branch stack has the hardware's index, `PERF_SAMPLE_BRANCH_HW_INDEX`.
    #[inline]
    pub fn branch_hw_index(&self) -> bool
        ensures { result ≡ (configuration_of self.now).branch_hw_index }
    {
        (self.word >> BRANCH_HW_INDEX_AT) % 2 == 1
    }

    /// The `misc` of the record being read, or 0 if no body of a frame is being read.
    #[inline]
    pub fn misc(&self) -> u16
        ensures { result ≡ (configuration_of self.now).misc }
    {
        (self.word >> MISC_AT) as u16
    }

    /// The byte order.
    #[inline]
    pub fn endian(&self) -> &E
        ensures { result.now ≡ endian_of self.now }
    {
        &self.endian
    }

    /// The same configuration with another `misc`.
    #[inline]
    pub fn with_misc(self, misc: u16) -> ParseConfig<E>
        ensures changed { configuration_of result ≡ config.under_misc misc (configuration_of self) }
        ensures endian { endian_of result ≡ endian_of self }
    {
        ParseConfig {
            word: self.word % (1 << MISC_AT) + (u64::from(misc) << MISC_AT),
            regs_user: self.regs_user,
            regs_intr: self.regs_intr,
            endian: self.endian,
        }
    }

    /// Replaces the `misc`.
    #[inline]
    pub fn set_misc(&mut self, misc: u16)
        ensures changed { configuration_of self.new ≡
            config.under_misc misc (configuration_of self.old) }
        ensures endian { endian_of self.new ≡ endian_of self.old }
    {
        self.word = self.word % (1 << MISC_AT) + (u64::from(misc) << MISC_AT);
    }

    /// The same configuration with another sample type. Its lowest 40 bits are kept.
    pub fn with_sample_type(self, sample_type: SampleFlags) -> ParseConfig<E>
        ensures changed { configuration_of result ≡
            config.under_sample_type (sample_flags_bits sample_type) (configuration_of self) }
        ensures endian { endian_of result ≡ endian_of self }
    {
        let below = self.word % (1 << SAMPLE_TYPE_AT);
        let above = self.word >> SAMPLE_ID_ALL_AT;
        let low_bits = sample_type.bits() % (1 << SAMPLE_TYPE_BITS);
        ParseConfig {
            word: below + (low_bits << SAMPLE_TYPE_AT) + (above << SAMPLE_ID_ALL_AT),
            regs_user: self.regs_user,
            regs_intr: self.regs_intr,
            endian: self.endian,
        }
    }

    /// The same configuration with another read format. Its lowest six bits are kept, and bit 5 is
    /// also set if there are higher ones.
    pub fn with_read_format(self, read_format: ReadFormat) -> ParseConfig<E>
        ensures changed { configuration_of result ≡
            config.under_read_format (read_format_bits read_format) (configuration_of self) }
        ensures endian { endian_of result ≡ endian_of self }
    {
        let above = self.word >> SAMPLE_TYPE_AT;
        ParseConfig {
            word: kept_read_format(read_format.bits()) + (above << SAMPLE_TYPE_AT),
            regs_user: self.regs_user,
            regs_intr: self.regs_intr,
            endian: self.endian,
        }
    }
}

impl<E: Drop> ParseConfig<E> {
    /// The same configuration with another byte order.
    pub fn with_endian<E2: Endian>(self, endian: E2) -> ParseConfig<E2>
        ensures same { configuration_of result ≡ configuration_of self }
        ensures endian { endian_of result ≡ endian }
    {
        ParseConfig {
            word: self.word,
            regs_user: self.regs_user,
            regs_intr: self.regs_intr,
            endian,
        }
    }
}

impl<E: Endian> ParseConfig<E> {
    /// The same configuration, which borrows the byte order.
    #[inline]
    pub fn lent(&self) -> ParseConfig<&E>
        ensures same { configuration_of result ≡ configuration_of self.now }
        ensures order { (endian_of result).now ≡ endian_of self.now }
    {
        ParseConfig {
            word: self.word,
            regs_user: self.regs_user,
            regs_intr: self.regs_intr,
            endian: &self.endian,
        }
    }

    /// A second configuration that reads the same way. It is refused if the order's `duplicate` is.
    #[inline]
    pub fn duplicate(&self) -> ParseResult<ParseConfig<E>>
        ensures same { IfOk result (λ c. configuration_of c ≡ configuration_of self.now) }
        ensures order { IfOk result (λ c. (E.order (endian_of c) ≡ E.order (endian_of self.now))
            × (E.may_refuse (endian_of c) ≡ E.may_refuse (endian_of self.now))) }
        ensures refused { IfErr result (λ e. (kind_of e ≡ ErrorKind.OutOfMemory)
            × IsTrue (E.may_refuse (endian_of self.now))) }
    {
        Ok(ParseConfig {
            word: self.word,
            regs_user: self.regs_user,
            regs_intr: self.regs_intr,
            endian: self.endian.duplicate()?,
        })
    }
}

/// No flags, no registers, and the default order.
impl<E: Default> Default for ParseConfig<E> {
    ghost is_default = { λ c. (configuration_of c ≡ config.plain) × E.is_default (endian_of c) };

    fn default() -> ParseConfig<E> {
        ParseConfig {
            word: 0,
            regs_user: 0,
            regs_intr: 0,
            endian: E::default(),
        }
    }
}

// The flags of an attribute, packed. There is no frame yet, so misc is 0.
fn pack(attr: &perf_event_attr) -> u64
    ensures { config.unpack result attr.now.sample_regs_user attr.now.sample_regs_intr ≡
        config.configured_by attr.now }
{
    let sample_id_all = (attr.flags >> 18) % 2;
    let branch_hw_index = (attr.branch_sample_type >> 17) % 2;
    let sample_type = attr.sample_type % (1 << SAMPLE_TYPE_BITS);
    kept_read_format(attr.read_format)
        + (sample_type << SAMPLE_TYPE_AT)
        + (sample_id_all << SAMPLE_ID_ALL_AT)
        + (branch_hw_index << BRANCH_HW_INDEX_AT)
}

/// The settings of an attribute, and the default order. No frame is read yet, so `misc` is 0.
impl<E: Default> From<perf_event_attr> for ParseConfig<E> {
    ghost from_gives = { λ attr c. (configuration_of c ≡ config.configured_by attr)
        × E.is_default (endian_of c) };

    fn from(attr: perf_event_attr) -> ParseConfig<E> {
        ParseConfig {
            word: pack(&attr),
            regs_user: attr.sample_regs_user,
            regs_intr: attr.sample_regs_intr,
            endian: E::default(),
        }
    }
}
