//! Attributes that several tests use.

use bitflags::Flags;
use perf_base::sys::perf_event_attr;
use perf_words::SampleFlags;

// The user registers that the attributes of samples ask for.
const USER_MASK: u64 = 0x3;

// The registers at an interrupt.
const INTERRUPT_MASK: u64 = 0x15;

/// The sample type with these flags.
pub fn bits_of(flags: &[SampleFlags]) -> u64 {
    let mut bits = 0;
    for flag in flags {
        bits |= flag.bits();
    }
    bits
}

/// The attribute of an event with this sample type and this read format.
pub fn attribute(sample_type: u64, read_format: u64) -> perf_event_attr {
    perf_event_attr {
        sample_type,
        read_format,
        sample_regs_user: USER_MASK,
        sample_regs_intr: INTERRUPT_MASK,
        ..Default::default()
    }
}

/// The attribute of an event with `sample_id_all` and this sample type.
pub fn ids_attribute(sample_type: u64) -> perf_event_attr {
    perf_event_attr {
        sample_type,
        flags: 1 << 18,
        ..Default::default()
    }
}
