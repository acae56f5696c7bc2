//! The kernel's records except samples, as plain values.
#![tactic(auto)]

pub mod cgroup;
pub mod comm;
mod hex;
pub mod ksymbol;
pub mod laws;
pub mod mmap;
pub mod mmap2;
pub mod namespaces;
pub mod numbers;
mod pair;
pub mod read;
pub mod switch_cpu_wide;
mod text;
pub mod text_poke;

pub use cgroup::CGroup;
pub use comm::Comm;
pub use ksymbol::KSymbol;
pub use mmap::Mmap;
pub use mmap2::{Mmap2, MmapDetail};
pub use namespaces::{NamespaceEntry, Namespaces};
pub use numbers::{
    Aux, AuxOutputHwId, BpfEvent, Exit, Fork, ITraceStart, Lost, LostSamples, Throttle,
};
pub use read::Read;
pub use switch_cpu_wide::SwitchCpuWide;
pub use text_poke::TextPoke;
