//! Records of any type.

ghost use Rattle.std.specs.Prelude.{◌≡◌, IfOk, IfErr};
ghost use Rattle.perf_base.specs.Copies.{IsClone};
ghost use Rattle.perf_base.specs.Errors.{kind_of};
ghost use Rattle.perf_records.specs.Records.{record_value, record_form, HoldsSample};
ghost use Rattle.perf_records.specs.declared.record.Record.TheVariants as record_of;

use perf_base::{CowSlice, ErrorKind, ParseResult};
use perf_sample_types::sample::Sample;
use perf_types::{
    Aux, AuxOutputHwId, BpfEvent, CGroup, Comm, Exit, Fork, ITraceStart, KSymbol, Lost,
    LostSamples, Mmap, Mmap2, Namespaces, Read, SwitchCpuWide, TextPoke, Throttle,
};
use std::alloc::Global;
use std::boxed::Box;

/// A record of any type, as perf_event_open(2) names them.
#[derive(Debug, Drop)]
pub enum Record<'a> {
    /// A memory mapping was made.
    Mmap(Mmap<'a>),
    /// Events were lost.
    Lost(Lost),
    /// A task changed its name.
    Comm(Comm<'a>),
    /// A task ended.
    Exit(Exit),
    /// The kernel began to throttle samples.
    Throttle(Throttle),
    /// The kernel takes samples again.
    Unthrottle(Throttle),
    /// A task was created.
    Fork(Fork),
    /// A counter of a task was read.
    Read(Read),
    /// A sample of an event.
    Sample(Box<Sample<'a>>),
    /// A file was mapped, with the file's identity.
    Mmap2(Mmap2<'a>),
    /// There is new data in the AUX buffer.
    Aux(Aux),
    /// An instruction trace began.
    ITraceStart(ITraceStart),
    /// Samples were lost.
    LostSamples(LostSamples),
    /// A task was scheduled on its CPU or off it.
    Switch,
    /// A context switch on a CPU, with the other task.
    SwitchCpuWide(SwitchCpuWide),
    /// The namespaces of a task.
    Namespaces(Namespaces<'a>),
    /// A kernel symbol was registered or unregistered.
    KSymbol(KSymbol<'a>),
    /// A BPF program was loaded or unloaded.
    BpfEvent(BpfEvent),
    /// A control group: its id and path.
    CGroup(CGroup<'a>),
    /// The kernel changed its own instructions.
    TextPoke(TextPoke<'a>),
    /// The hardware's id of an event whose data is in the AUX buffer.
    AuxOutputHwId(AuxOutputHwId),
    /// A record of a type that this library does not know.
    Unknown {
        /// The type in its header.
        ty: u32,
        /// The bytes after its header, without its sample id: all of them for types from 64 on.
        bytes: CowSlice<'a, u8>,
    },
}

impl<'a> From<Mmap<'a>> for Record<'a> {
    ghost from_gives = { λ content r. r ≡ record_of.Mmap content };

    fn from(content: Mmap<'a>) -> Self {
        Record::Mmap(content)
    }
}

impl From<Lost> for Record<'_> {
    ghost from_gives = { λ content r. r ≡ record_of.Lost content };

    fn from(content: Lost) -> Self {
        Record::Lost(content)
    }
}

impl<'a> From<Comm<'a>> for Record<'a> {
    ghost from_gives = { λ content r. r ≡ record_of.Comm content };

    fn from(content: Comm<'a>) -> Self {
        Record::Comm(content)
    }
}

impl From<Read> for Record<'_> {
    ghost from_gives = { λ content r. r ≡ record_of.Read content };

    fn from(content: Read) -> Self {
        Record::Read(content)
    }
}

impl<'a> Record<'a> {
    /// A sample as a record, which is a box of the same sample. If there is no memory for the box,
    /// that is `OutOfMemory`, and the sample is dropped.
    pub fn from_sample(alloc: Global, sample: Sample<'a>) -> ParseResult<Record<'a>>
        ensures same { IfOk result (λ r. HoldsSample sample.entry r) }
        ensures refused { IfErr result (λ e. kind_of e ≡ ErrorKind.OutOfMemory) }
    {
        Ok(Record::Sample(Box::new(alloc, sample)?))
    }
}

impl<'a> From<Mmap2<'a>> for Record<'a> {
    ghost from_gives = { λ content r. r ≡ record_of.Mmap2 content };

    fn from(content: Mmap2<'a>) -> Self {
        Record::Mmap2(content)
    }
}

impl From<Aux> for Record<'_> {
    ghost from_gives = { λ content r. r ≡ record_of.Aux content };

    fn from(content: Aux) -> Self {
        Record::Aux(content)
    }
}

impl From<ITraceStart> for Record<'_> {
    ghost from_gives = { λ content r. r ≡ record_of.ITraceStart content };

    fn from(content: ITraceStart) -> Self {
        Record::ITraceStart(content)
    }
}

impl From<LostSamples> for Record<'_> {
    ghost from_gives = { λ content r. r ≡ record_of.LostSamples content };

    fn from(content: LostSamples) -> Self {
        Record::LostSamples(content)
    }
}

impl From<SwitchCpuWide> for Record<'_> {
    ghost from_gives = { λ content r. r ≡ record_of.SwitchCpuWide content };

    fn from(content: SwitchCpuWide) -> Self {
        Record::SwitchCpuWide(content)
    }
}

impl<'a> From<Namespaces<'a>> for Record<'a> {
    ghost from_gives = { λ content r. r ≡ record_of.Namespaces content };

    fn from(content: Namespaces<'a>) -> Self {
        Record::Namespaces(content)
    }
}

impl<'a> From<KSymbol<'a>> for Record<'a> {
    ghost from_gives = { λ content r. r ≡ record_of.KSymbol content };

    fn from(content: KSymbol<'a>) -> Self {
        Record::KSymbol(content)
    }
}

impl From<BpfEvent> for Record<'_> {
    ghost from_gives = { λ content r. r ≡ record_of.BpfEvent content };

    fn from(content: BpfEvent) -> Self {
        Record::BpfEvent(content)
    }
}

impl<'a> From<CGroup<'a>> for Record<'a> {
    ghost from_gives = { λ content r. r ≡ record_of.CGroup content };

    fn from(content: CGroup<'a>) -> Self {
        Record::CGroup(content)
    }
}

impl<'a> From<TextPoke<'a>> for Record<'a> {
    ghost from_gives = { λ content r. r ≡ record_of.TextPoke content };

    fn from(content: TextPoke<'a>) -> Self {
        Record::TextPoke(content)
    }
}

impl From<AuxOutputHwId> for Record<'_> {
    ghost from_gives = { λ content r. r ≡ record_of.AuxOutputHwId content };

    fn from(content: AuxOutputHwId) -> Self {
        Record::AuxOutputHwId(content)
    }
}

impl<'a> Record<'a> {
    /// The same record. It allocates nothing if all of its lists are borrowed, except for the box
    /// of a sample. A failed allocation is `OutOfMemory`, and the record stays as it is.
    pub fn clone(&self, alloc: Global) -> ParseResult<Record<'a>>
        ensures { IsClone record_value record_form self.now result }
    {
        match self {
            Record::Mmap(record) => Ok(Record::Mmap(record.clone(alloc)?)),
            Record::Lost(record) => Ok(Record::Lost(*record)),
            Record::Comm(record) => Ok(Record::Comm(record.clone(alloc)?)),
            Record::Exit(record) => Ok(Record::Exit(record.clone()?)),
            Record::Throttle(record) => Ok(Record::Throttle(record.clone()?)),
            Record::Unthrottle(record) => Ok(Record::Unthrottle(record.clone()?)),
            Record::Fork(record) => Ok(Record::Fork(record.clone()?)),
            Record::Read(record) => Ok(Record::Read(record.clone()?)),
            Record::Sample(record) => {
                let copy = (**record).clone(alloc)?;
                Ok(Record::Sample(Box::new(alloc, copy)?))
            }
            Record::Mmap2(record) => Ok(Record::Mmap2(record.clone(alloc)?)),
            Record::Aux(record) => Ok(Record::Aux(record.clone()?)),
            Record::ITraceStart(record) => Ok(Record::ITraceStart(record.clone()?)),
            Record::LostSamples(record) => Ok(Record::LostSamples(record.clone()?)),
            Record::Switch => Ok(Record::Switch),
            Record::SwitchCpuWide(record) => Ok(Record::SwitchCpuWide(*record)),
            Record::Namespaces(record) => Ok(Record::Namespaces(record.clone(alloc)?)),
            Record::KSymbol(record) => Ok(Record::KSymbol(record.clone(alloc)?)),
            Record::BpfEvent(record) => Ok(Record::BpfEvent(*record)),
            Record::CGroup(record) => Ok(Record::CGroup(record.clone(alloc)?)),
            Record::TextPoke(record) => Ok(Record::TextPoke(record.clone(alloc)?)),
            Record::AuxOutputHwId(record) => Ok(Record::AuxOutputHwId(*record)),
            Record::Unknown { ty, bytes } => clone_unknown(*ty, bytes, alloc),
        }
    }
}

// The same bytes, for a type that has no table.
fn clone_unknown<'a>(ty: u32, bytes: &CowSlice<'a, u8>, alloc: Global) -> ParseResult<Record<'a>>
    ensures { IsClone record_value record_form (record_of.Unknown ty bytes.now) result }
{
    let bytes = bytes.clone(alloc)?;
    Ok(Record::Unknown { ty, bytes })
}
