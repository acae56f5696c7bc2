//! A configuration, and the text of any.

use bitflags::Flags;
use perf_base::ParseConfig;
use perf_base::endian::Little;
use perf_base::sys::perf_event_attr;
use std::alloc::AllocError;

/// A configuration of which each part is set but `misc`.
pub fn full() -> ParseConfig<Little> {
    ParseConfig::from(perf_event_attr {
        read_format: 0x0D,
        sample_type: 0x10007,
        flags: 1 << 18,
        branch_sample_type: 1 << 17,
        sample_regs_user: 0x11,
        sample_regs_intr: 0x22,
        ..Default::default()
    })
}

/// Its text.
pub const FULL: &str = "([65543, 13], [true, true], [17, 34], 0)";

/// Writes a configuration: the sample type and the read format, whether there are sample ids and
/// the hardware's index, the masks of user registers and of those at an interrupt, and the misc.
pub fn write_config<E>(text: &mut String, config: &ParseConfig<E>) -> Result<(), AllocError> {
    let sets = [config.sample_type().bits(), config.read_format().bits()];
    let are_there = [config.sample_id_all(), config.branch_hw_index()];
    let masks = [config.regs_user(), config.regs_intr()];
    write!(text, "{:?}", (sets, are_there, masks, config.misc()))
}
