//! The types of records.

ghost use Rattle.std.specs.Prelude.{◌≡◌};
ghost use Rattle.perf_records.specs.Records.{type_of};

use perf_base::sys::{
    PERF_RECORD_AUX, PERF_RECORD_AUX_OUTPUT_HW_ID, PERF_RECORD_BPF_EVENT, PERF_RECORD_CGROUP,
    PERF_RECORD_COMM, PERF_RECORD_EXIT, PERF_RECORD_FORK, PERF_RECORD_ITRACE_START,
    PERF_RECORD_KSYMBOL, PERF_RECORD_LOST, PERF_RECORD_LOST_SAMPLES, PERF_RECORD_MMAP,
    PERF_RECORD_MMAP2, PERF_RECORD_NAMESPACES, PERF_RECORD_READ, PERF_RECORD_SAMPLE,
    PERF_RECORD_SWITCH, PERF_RECORD_SWITCH_CPU_WIDE, PERF_RECORD_TEXT_POKE, PERF_RECORD_THROTTLE,
    PERF_RECORD_UNTHROTTLE,
};

/// The type of a record, one of those that the kernel numbers (`enum perf_event_type`).
#[derive(Copy, Clone, Debug, PartialEq, Eq)]
pub enum RecordType {
    /// `PERF_RECORD_MMAP`.
    Mmap,
    /// `PERF_RECORD_LOST`.
    Lost,
    /// `PERF_RECORD_COMM`.
    Comm,
    /// `PERF_RECORD_EXIT`.
    Exit,
    /// `PERF_RECORD_THROTTLE`.
    Throttle,
    /// `PERF_RECORD_UNTHROTTLE`.
    Unthrottle,
    /// `PERF_RECORD_FORK`.
    Fork,
    /// `PERF_RECORD_READ`.
    Read,
    /// `PERF_RECORD_SAMPLE`.
    Sample,
    /// `PERF_RECORD_MMAP2`.
    Mmap2,
    /// `PERF_RECORD_AUX`.
    Aux,
    /// `PERF_RECORD_ITRACE_START`.
    ITraceStart,
    /// `PERF_RECORD_LOST_SAMPLES`.
    LostSamples,
    /// `PERF_RECORD_SWITCH`.
    Switch,
    /// `PERF_RECORD_SWITCH_CPU_WIDE`.
    SwitchCpuWide,
    /// `PERF_RECORD_NAMESPACES`.
    Namespaces,
    /// `PERF_RECORD_KSYMBOL`.
    KSymbol,
    /// `PERF_RECORD_BPF_EVENT`.
    BpfEvent,
    /// `PERF_RECORD_CGROUP`.
    CGroup,
    /// `PERF_RECORD_TEXT_POKE`.
    TextPoke,
    /// `PERF_RECORD_AUX_OUTPUT_HW_ID`.
    AuxOutputHwId,
}

impl RecordType {
    /// The type with that number in a header, or `None` if the kernel has no such type.
    #[inline]
    pub fn of(ty: u32) -> Option<RecordType>
        ensures { result ≡ type_of ty }
    {
        match ty {
            PERF_RECORD_MMAP => Some(RecordType::Mmap),
            PERF_RECORD_LOST => Some(RecordType::Lost),
            PERF_RECORD_COMM => Some(RecordType::Comm),
            PERF_RECORD_EXIT => Some(RecordType::Exit),
            PERF_RECORD_THROTTLE => Some(RecordType::Throttle),
            PERF_RECORD_UNTHROTTLE => Some(RecordType::Unthrottle),
            PERF_RECORD_FORK => Some(RecordType::Fork),
            PERF_RECORD_READ => Some(RecordType::Read),
            PERF_RECORD_SAMPLE => Some(RecordType::Sample),
            PERF_RECORD_MMAP2 => Some(RecordType::Mmap2),
            PERF_RECORD_AUX => Some(RecordType::Aux),
            PERF_RECORD_ITRACE_START => Some(RecordType::ITraceStart),
            PERF_RECORD_LOST_SAMPLES => Some(RecordType::LostSamples),
            PERF_RECORD_SWITCH => Some(RecordType::Switch),
            PERF_RECORD_SWITCH_CPU_WIDE => Some(RecordType::SwitchCpuWide),
            PERF_RECORD_NAMESPACES => Some(RecordType::Namespaces),
            PERF_RECORD_KSYMBOL => Some(RecordType::KSymbol),
            PERF_RECORD_BPF_EVENT => Some(RecordType::BpfEvent),
            PERF_RECORD_CGROUP => Some(RecordType::CGroup),
            PERF_RECORD_TEXT_POKE => Some(RecordType::TextPoke),
            PERF_RECORD_AUX_OUTPUT_HW_ID => Some(RecordType::AuxOutputHwId),
            _ => None,
        }
    }
}
