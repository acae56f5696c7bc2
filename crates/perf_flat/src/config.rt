//! A configuration as plain numbers.

ghost use Rattle.std.specs.Prelude.{◌≡◌, false, MatchOption};
ghost use Rattle.perf_base.specs.declared.endian.Dynamic.{Dynamic};
ghost use Rattle.perf_base.specs.declared.sys.perf_event_attr.{perf_event_attr};
ghost use Rattle.perf_flat.specs.FlatConfigs as codes;

use perf_base::ParseConfig;
use perf_base::endian::{Dynamic, Native};
use perf_base::sys::perf_event_attr;

/// The version of a [`FlatConfig`].
pub const CONFIG_VERSION: u32 = 1;

/// The numbers of an event's attribute that determine how its records are read, and the byte order.
#[repr(C)]
#[derive(Copy, Clone, Debug)]
pub struct FlatConfig {
    /// The version of this struct: [`CONFIG_VERSION`].
    pub version: u32,
    /// The byte order: 0 for the lowest byte first, 1 for the highest.
    pub order: u32,
    /// Which fields a sample has, `PERF_SAMPLE_*`.
    pub sample_type: u64,
    /// What a read of a counter returns, `PERF_FORMAT_*`.
    pub read_format: u64,
    /// Single bits of the attribute, from `disabled` on; bit 18 is `sample_id_all`.
    pub flags: u64,
    /// Which branches a branch stack has, `PERF_SAMPLE_BRANCH_*`.
    pub branch_sample_type: u64,
    /// Which user registers a sample has, one bit each.
    pub sample_regs_user: u64,
    /// Which registers at the interrupt a sample has, one bit each.
    pub sample_regs_intr: u64,
}

/// A byte order as a number: 0 for the lowest byte first, 1 for the highest.
#[inline]
pub fn order_code(order: Dynamic) -> u32
    ensures { result ≡ codes.order_code order }
{
    match order {
        Dynamic::Little => 0,
        Dynamic::Big => 1,
    }
}

impl FlatConfig {
    ghost use Rattle.perf_flat.specs.FlatConfigs.{Means, flat_config_of, is_valid};

    /// The numbers of an attribute, and a byte order.
    pub fn of(attr: &perf_event_attr, order: Dynamic) -> FlatConfig
        ensures { result ≡ flat_config_of attr.now order }
    {
        FlatConfig {
            version: CONFIG_VERSION,
            order: order_code(order),
            sample_type: attr.sample_type,
            read_format: attr.read_format,
            flags: attr.flags,
            branch_sample_type: attr.branch_sample_type,
            sample_regs_user: attr.sample_regs_user,
            sample_regs_intr: attr.sample_regs_intr,
        }
    }

    /// The configuration with which records are read, or `None` for another version or order.
    pub fn config(&self) -> Option<ParseConfig<Dynamic>>
        ensures { MatchOption result (is_valid self.now ≡ false) (Means self.now) }
    {
        let order = match (self.version, self.order) {
            (CONFIG_VERSION, 0) => Dynamic::Little,
            (CONFIG_VERSION, 1) => Dynamic::Big,
            _ => return None,
        };
        let attr = perf_event_attr {
            sample_type: self.sample_type,
            read_format: self.read_format,
            flags: self.flags,
            branch_sample_type: self.branch_sample_type,
            sample_regs_user: self.sample_regs_user,
            sample_regs_intr: self.sample_regs_intr,
            ..perf_event_attr::default()
        };
        Some(ParseConfig::<Native>::from(attr).with_endian(order))
    }
}
