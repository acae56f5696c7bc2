//! The words of `perf_event_open(2)`: sets of flags, named numbers, and words of bit fields.
//! Nothing here allocates, and bits and numbers without a name are kept.
#![tactic(auto)]

pub mod branch;
pub mod data_source;
mod field;
pub mod flags;
pub mod laws;
mod macros;
pub mod named;

pub use branch::BranchEntry;
pub use data_source::{
    DataSource, MemBlk, MemDtlb, MemLevel, MemLock, MemOp, MemSnoop, MemSnoopX, Txn,
};
pub use flags::{AuxFlags, KSymbolFlags, ReadFormat, SampleFlags};
pub use named::{
    AuxPmuFormatType, BpfEventType, BranchType, KSymbolType, MemLevelNum, SampleRegsAbi,
};
