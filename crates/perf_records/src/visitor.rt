//! Visitors of records, and the one that returns the record itself.

ghost use Rattle.std.specs.Prelude.{true};
ghost use Rattle.perf_records.specs.Prelude as prelude;
ghost use Rattle.perf_records.specs.Prelude.{Event, event, MakesRecord, MakesNoSample};

use crate::metadata::RecordMetadata;
use crate::record::Record;
use perf_base::{CowSlice, ParseError, ParseResult, ReadResult, Refusal};
use perf_sample_types::sample::Sample;
use perf_types::{
    Aux, AuxOutputHwId, BpfEvent, CGroup, Comm, Exit, Fork, ITraceStart, KSymbol, Lost,
    LostSamples, Mmap, Mmap2, Namespaces, Read, SwitchCpuWide, TextPoke, Throttle,
};
use std::alloc::Global;
use std::boxed::Box;

/// Takes one record, of any type, and makes an output from it.
///
/// Each method gets the contents of its type, and the metadata that every record has. A method that
/// a visitor has no use for is the line `self.visit_unimplemented(metadata)`, and
/// [`Visitor::visit_mmap2`] is the line `self.visit_mmap(content.into_mmap(), metadata)`; a visitor
/// whose outputs borrow nothing can be written without these lines as a
/// [`PartialVisitor`](crate::partial::PartialVisitor).
pub trait Visitor<'a>: Drop {
    /// What is made of a record.
    type Output;

    // which outputs belong to an event
    ghost gives: { Event → Self.Output → Type 0 };

    /// What the visitor makes of a record that it leaves out. Only the visitor itself calls it, and
    /// each visitor specifies its own result.
    fn visit_unimplemented(self, metadata: RecordMetadata) -> Self::Output;

    /// A memory mapping was made (`PERF_RECORD_MMAP`).
    ///
    /// In a visitor that leaves it out: `self.visit_unimplemented(metadata)`.
    fn visit_mmap(self, content: Mmap<'a>, metadata: RecordMetadata) -> Self::Output
        ensures { gives (event (prelude.mmap_is (prelude.mmap_value content.entry))
            (prelude.is_borrowed content.entry.filename) metadata) result };

    /// Events were lost (`PERF_RECORD_LOST`).
    ///
    /// In a visitor that leaves it out: `self.visit_unimplemented(metadata)`.
    fn visit_lost(self, content: Lost, metadata: RecordMetadata) -> Self::Output
        ensures { gives (event (prelude.lost_is content) true metadata) result };

    /// A task changed its name (`PERF_RECORD_COMM`).
    ///
    /// In a visitor that leaves it out: `self.visit_unimplemented(metadata)`.
    fn visit_comm(self, content: Comm<'a>, metadata: RecordMetadata) -> Self::Output
        ensures { gives (event (prelude.comm_is (prelude.comm_value content.entry))
            (prelude.is_borrowed content.entry.comm) metadata) result };

    /// A task ended (`PERF_RECORD_EXIT`).
    ///
    /// In a visitor that leaves it out: `self.visit_unimplemented(metadata)`.
    fn visit_exit(self, content: Exit, metadata: RecordMetadata) -> Self::Output
        ensures { gives (event (prelude.exit_is content) true metadata) result };

    /// The kernel began to throttle samples (`PERF_RECORD_THROTTLE`).
    ///
    /// In a visitor that leaves it out: `self.visit_unimplemented(metadata)`.
    fn visit_throttle(self, content: Throttle, metadata: RecordMetadata) -> Self::Output
        ensures { gives (event (prelude.throttle_is content) true metadata) result };

    /// The kernel takes samples again (`PERF_RECORD_UNTHROTTLE`).
    ///
    /// In a visitor that leaves it out: `self.visit_unimplemented(metadata)`.
    fn visit_unthrottle(self, content: Throttle, metadata: RecordMetadata) -> Self::Output
        ensures { gives (event (prelude.unthrottle_is content) true metadata) result };

    /// A task was created (`PERF_RECORD_FORK`).
    ///
    /// In a visitor that leaves it out: `self.visit_unimplemented(metadata)`.
    fn visit_fork(self, content: Fork, metadata: RecordMetadata) -> Self::Output
        ensures { gives (event (prelude.fork_is content) true metadata) result };

    /// A counter of a task was read (`PERF_RECORD_READ`).
    ///
    /// In a visitor that leaves it out: `self.visit_unimplemented(metadata)`.
    fn visit_read(self, content: Read, metadata: RecordMetadata) -> Self::Output
        ensures { gives (event (prelude.read_is (prelude.task_read content)) true metadata) result };

    /// An event happened (`PERF_RECORD_SAMPLE`).
    ///
    /// In a visitor that leaves it out: `self.visit_unimplemented(metadata)`.
    fn visit_sample(self, content: Sample<'a>, metadata: RecordMetadata) -> Self::Output
        ensures { gives (event (prelude.sample_is (prelude.sample_value content.entry))
            (prelude.is_borrowed_sample content.entry) metadata) result };

    /// A file was mapped, with the file's identity (`PERF_RECORD_MMAP2`).
    ///
    /// In a visitor that does not need the file's identity:
    /// `self.visit_mmap(content.into_mmap(), metadata)`.
    fn visit_mmap2(self, content: Mmap2<'a>, metadata: RecordMetadata) -> Self::Output
        ensures { gives (event (prelude.mmap2_is (prelude.mmap2_value content.entry))
            (prelude.is_borrowed content.entry.filename) metadata) result };

    /// There is new data in the AUX buffer (`PERF_RECORD_AUX`).
    ///
    /// In a visitor that leaves it out: `self.visit_unimplemented(metadata)`.
    fn visit_aux(self, content: Aux, metadata: RecordMetadata) -> Self::Output
        ensures { gives (event (prelude.aux_is (prelude.aux_value content)) true metadata) result };

    /// An instruction trace began (`PERF_RECORD_ITRACE_START`).
    ///
    /// In a visitor that leaves it out: `self.visit_unimplemented(metadata)`.
    fn visit_itrace_start(self, content: ITraceStart, metadata: RecordMetadata) -> Self::Output
        ensures { gives (event (prelude.itrace_start_is content) true metadata) result };

    /// Samples were lost (`PERF_RECORD_LOST_SAMPLES`).
    ///
    /// In a visitor that leaves it out: `self.visit_unimplemented(metadata)`.
    fn visit_lost_samples(self, content: LostSamples, metadata: RecordMetadata) -> Self::Output
        ensures { gives (event (prelude.lost_samples_is content) true metadata) result };

    /// A task was scheduled on its CPU or off it (`PERF_RECORD_SWITCH`); the record contains
    /// nothing else.
    ///
    /// In a visitor that leaves it out: `self.visit_unimplemented(metadata)`.
    fn visit_switch(self, metadata: RecordMetadata) -> Self::Output
        ensures { gives (event prelude.switch_is true metadata) result };

    /// Which task another one handed its CPU to, or got it from (`PERF_RECORD_SWITCH_CPU_WIDE`).
    ///
    /// In a visitor that leaves it out: `self.visit_unimplemented(metadata)`.
    fn visit_switch_cpu_wide(self, content: SwitchCpuWide, metadata: RecordMetadata) -> Self::Output
        ensures { gives (event (prelude.switch_cpu_wide_is content) true metadata) result };

    /// The namespaces of a task (`PERF_RECORD_NAMESPACES`).
    ///
    /// In a visitor that leaves it out: `self.visit_unimplemented(metadata)`.
    fn visit_namespaces(self, content: Namespaces<'a>, metadata: RecordMetadata) -> Self::Output
        ensures { gives (event (prelude.namespaces_is (prelude.namespaces_value content.entry))
            true metadata) result };

    /// A kernel symbol was registered or unregistered (`PERF_RECORD_KSYMBOL`).
    ///
    /// In a visitor that leaves it out: `self.visit_unimplemented(metadata)`.
    fn visit_ksymbol(self, content: KSymbol<'a>, metadata: RecordMetadata) -> Self::Output
        ensures { gives (event (prelude.ksymbol_is (prelude.ksymbol_value content.entry))
            (prelude.is_borrowed content.entry.name) metadata) result };

    /// A BPF program was loaded or unloaded (`PERF_RECORD_BPF_EVENT`).
    ///
    /// In a visitor that leaves it out: `self.visit_unimplemented(metadata)`.
    fn visit_bpf_event(self, content: BpfEvent, metadata: RecordMetadata) -> Self::Output
        ensures { gives (event (prelude.bpf_event_is (prelude.bpf_event_value content))
            true metadata) result };

    /// A control group: its id and path (`PERF_RECORD_CGROUP`).
    ///
    /// In a visitor that leaves it out: `self.visit_unimplemented(metadata)`.
    fn visit_cgroup(self, content: CGroup<'a>, metadata: RecordMetadata) -> Self::Output
        ensures { gives (event (prelude.cgroup_is (prelude.cgroup_value content.entry))
            (prelude.is_borrowed content.entry.path) metadata) result };

    /// The kernel changed its own instructions (`PERF_RECORD_TEXT_POKE`).
    ///
    /// In a visitor that leaves it out: `self.visit_unimplemented(metadata)`.
    fn visit_text_poke(self, content: TextPoke<'a>, metadata: RecordMetadata) -> Self::Output
        ensures { gives (event (prelude.text_poke_is (prelude.text_poke_value content.entry))
            (prelude.is_borrowed_text_poke content.entry) metadata) result };

    /// The hardware's id of an event whose data is in the AUX buffer
    /// (`PERF_RECORD_AUX_OUTPUT_HW_ID`).
    ///
    /// In a visitor that leaves it out: `self.visit_unimplemented(metadata)`.
    fn visit_aux_output_hw_id(
        self,
        content: AuxOutputHwId,
        metadata: RecordMetadata,
    ) -> Self::Output
        ensures { gives (event (prelude.aux_output_hw_id_is content) true metadata) result };

    /// A record of a type that this library does not know: the bytes between its header and its
    /// sample id. The metadata gives its type.
    ///
    /// In a visitor that leaves it out: `self.visit_unimplemented(metadata)`.
    fn visit_unknown(self, bytes: CowSlice<'a, u8>, metadata: RecordMetadata) -> Self::Output
        ensures { gives (event (prelude.unknown_is metadata.ty (prelude.cow_items bytes.entry))
            (prelude.is_borrowed bytes.entry) metadata) result };
}

/// How visited records are returned.
pub trait RecordResult<'a>: Drop {
    /// What is returned.
    type Output;

    // which results belong to an event
    ghost gives: { Event → Self.Output → Type 0 };

    /// The result for a record.
    fn record(self, content: Record<'a>) -> Self::Output
        ensures { MakesRecord gives content.entry result };

    /// The result for a sample when there is no memory for its box.
    fn no_memory(self) -> Self::Output
        ensures { MakesNoSample gives result };
}

/// Returns a record, or an error.
#[derive(Copy, Clone)]
pub struct OrError;

impl<'a> RecordResult<'a> for OrError {
    type Output = ParseResult<Record<'a>>;

    ghost gives = { λ e output. prelude.GivesRecord e (prelude.error_kinds output) };

    #[inline]
    #[tactic(auto, unfolding(crate::specs::Gives::GivesRecord))]
    fn record(self, content: Record<'a>) -> Self::Output {
        Ok(content)
    }

    #[inline]
    #[tactic(auto, unfolding(crate::specs::Gives::GivesRecord))]
    fn no_memory(self) -> Self::Output {
        Err(ParseError::out_of_memory())
    }
}

/// Returns a record, or a small refusal, for code that reads records by the thousand.
#[derive(Copy, Clone)]
pub struct OrRefusal;

impl<'a> RecordResult<'a> for OrRefusal {
    type Output = ReadResult<Record<'a>>;

    ghost gives = { λ e output. prelude.GivesRecord e (prelude.kinds output) };

    #[inline]
    #[tactic(auto, unfolding(crate::specs::Gives::GivesRecord))]
    fn record(self, content: Record<'a>) -> Self::Output {
        Ok(content)
    }

    #[inline]
    #[tactic(auto, unfolding(crate::specs::Gives::GivesRecord))]
    fn no_memory(self) -> Self::Output {
        Err(Refusal::OutOfMemory)
    }
}

/// Makes the record itself from what it visits.
#[derive(Drop)]
pub struct Recording<A> {
    answer: A,
    alloc: Global,
}

/// Makes the record itself from what it visits. A sample is boxed: if there is no memory for the
/// box, the output is `OutOfMemory`.
pub type RecordVisitor = Recording<OrError>;

impl Recording<OrError> {
    /// A visitor whose boxes are allocated in `alloc`.
    #[inline]
    pub fn new(alloc: Global) -> Recording<OrError> {
        Recording {
            answer: OrError,
            alloc,
        }
    }
}

impl Recording<OrRefusal> {
    /// The same, with small refusals.
    #[inline]
    pub fn small(alloc: Global) -> Recording<OrRefusal> {
        Recording {
            answer: OrRefusal,
            alloc,
        }
    }
}

impl<'a, A: RecordResult<'a>> Visitor<'a> for Recording<A> {
    type Output = A::Output;

    ghost gives = { λ e output. A.gives e output };

    // never called
    #[inline]
    fn visit_unimplemented(self, metadata: RecordMetadata) -> Self::Output {
        self.answer.record(Record::Unknown {
            ty: metadata.ty(),
            bytes: CowSlice::Borrowed(&[]),
        })
    }

    #[inline]
    fn visit_mmap(self, content: Mmap<'a>, _metadata: RecordMetadata) -> Self::Output {
        self.answer.record(Record::Mmap(content))
    }

    #[inline]
    fn visit_lost(self, content: Lost, _metadata: RecordMetadata) -> Self::Output {
        self.answer.record(Record::Lost(content))
    }

    #[inline]
    fn visit_comm(self, content: Comm<'a>, _metadata: RecordMetadata) -> Self::Output {
        self.answer.record(Record::Comm(content))
    }

    #[inline]
    fn visit_exit(self, content: Exit, _metadata: RecordMetadata) -> Self::Output {
        self.answer.record(Record::Exit(content))
    }

    #[inline]
    fn visit_throttle(self, content: Throttle, _metadata: RecordMetadata) -> Self::Output {
        self.answer.record(Record::Throttle(content))
    }

    #[inline]
    fn visit_unthrottle(self, content: Throttle, _metadata: RecordMetadata) -> Self::Output {
        self.answer.record(Record::Unthrottle(content))
    }

    #[inline]
    fn visit_fork(self, content: Fork, _metadata: RecordMetadata) -> Self::Output {
        self.answer.record(Record::Fork(content))
    }

    #[inline]
    fn visit_read(self, content: Read, _metadata: RecordMetadata) -> Self::Output {
        self.answer.record(Record::Read(content))
    }

    // A sample is large, and should be moved only once, into its box.
    #[inline(always)]
    fn visit_sample(self, content: Sample<'a>, _metadata: RecordMetadata) -> Self::Output {
        match Box::new(self.alloc, content) {
            Ok(content) => self.answer.record(Record::Sample(content)),
            Err(error) => {
                drop(error);
                self.answer.no_memory()
            }
        }
    }

    #[inline]
    fn visit_mmap2(self, content: Mmap2<'a>, _metadata: RecordMetadata) -> Self::Output {
        self.answer.record(Record::Mmap2(content))
    }

    #[inline]
    fn visit_aux(self, content: Aux, _metadata: RecordMetadata) -> Self::Output {
        self.answer.record(Record::Aux(content))
    }

    #[inline]
    fn visit_itrace_start(self, content: ITraceStart, _metadata: RecordMetadata) -> Self::Output {
        self.answer.record(Record::ITraceStart(content))
    }

    #[inline]
    fn visit_lost_samples(self, content: LostSamples, _metadata: RecordMetadata) -> Self::Output {
        self.answer.record(Record::LostSamples(content))
    }

    #[inline]
    fn visit_switch(self, _metadata: RecordMetadata) -> Self::Output {
        self.answer.record(Record::Switch)
    }

    #[inline]
    fn visit_switch_cpu_wide(
        self,
        content: SwitchCpuWide,
        _metadata: RecordMetadata,
    ) -> Self::Output {
        self.answer.record(Record::SwitchCpuWide(content))
    }

    #[inline]
    fn visit_namespaces(self, content: Namespaces<'a>, _metadata: RecordMetadata) -> Self::Output {
        self.answer.record(Record::Namespaces(content))
    }

    #[inline]
    fn visit_ksymbol(self, content: KSymbol<'a>, _metadata: RecordMetadata) -> Self::Output {
        self.answer.record(Record::KSymbol(content))
    }

    #[inline]
    fn visit_bpf_event(self, content: BpfEvent, _metadata: RecordMetadata) -> Self::Output {
        self.answer.record(Record::BpfEvent(content))
    }

    #[inline]
    fn visit_cgroup(self, content: CGroup<'a>, _metadata: RecordMetadata) -> Self::Output {
        self.answer.record(Record::CGroup(content))
    }

    #[inline]
    fn visit_text_poke(self, content: TextPoke<'a>, _metadata: RecordMetadata) -> Self::Output {
        self.answer.record(Record::TextPoke(content))
    }

    #[inline]
    fn visit_aux_output_hw_id(
        self,
        content: AuxOutputHwId,
        _metadata: RecordMetadata,
    ) -> Self::Output {
        self.answer.record(Record::AuxOutputHwId(content))
    }

    #[inline]
    fn visit_unknown(self, bytes: CowSlice<'a, u8>, metadata: RecordMetadata) -> Self::Output {
        let ty = metadata.ty();
        self.answer.record(Record::Unknown { ty, bytes })
    }
}
