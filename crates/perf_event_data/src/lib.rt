//! Reads the records that Linux writes for performance events, as perf_event_open(2) lays them out.
//!
//! [`parse::Parser`] reads records from a buffer: a slice, a buffered reader, or bytes that come in
//! pieces. [`read_records`] returns a record or an error for every frame of a stream.
#![tactic(auto)]

pub use perf_base::{CowSlice, endian, sys};
pub use perf_buffers::pieces::PieceBuf;
pub use perf_counters::{GroupEntry, GroupIter, ReadGroup, ReadValue, TryFromGroupError};
pub use perf_parser::{FrameRun, Run, RunEnd, each_frame, parse, read_records};
pub use perf_records::frame::Frame;
pub use perf_records::frame_handler::{BadFrame, FrameHandler};
pub use perf_records::frame_list::{FrameIter, FramesEnd, frames};
pub use perf_records::metadata::RecordMetadata;
pub use perf_records::partial::{Partial, PartialVisitor};
pub use perf_records::record::Record;
pub use perf_records::record_type::RecordType;
pub use perf_records::visitor::{RecordVisitor, Visitor};
pub use perf_sample_types::laws;
pub use perf_sample_types::registers::Registers;
pub use perf_sample_types::sample::Sample;
pub use perf_sample_types::sample_fields::SampleFields;
pub use perf_sample_types::sample_id::SampleId;
pub use perf_types::{
    Aux, AuxOutputHwId, BpfEvent, CGroup, Comm, Exit, Fork, ITraceStart, KSymbol, Lost,
    LostSamples, Mmap, Mmap2, MmapDetail, NamespaceEntry, Namespaces, Read, SwitchCpuWide,
    TextPoke, Throttle,
};
pub use perf_words::{
    AuxFlags, AuxPmuFormatType, BpfEventType, BranchEntry, BranchType, DataSource, KSymbolFlags,
    KSymbolType, MemBlk, MemDtlb, MemLevel, MemLevelNum, MemLock, MemOp, MemSnoop, MemSnoopX,
    ReadFormat, SampleFlags, SampleRegsAbi, Txn,
};
