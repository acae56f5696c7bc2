//! Visitors that handle only some types of records.

ghost use Rattle.std.specs.Prelude.{true};
ghost use Rattle.perf_records.specs.Prelude as prelude;
ghost use Rattle.perf_records.specs.Prelude.{Event, event, GivesOrLeavesOut, MetadataValue};

use crate::metadata::RecordMetadata;
use crate::visitor::Visitor;
use perf_base::CowSlice;
use perf_sample_types::sample::Sample;
use perf_types::{
    Aux, AuxOutputHwId, BpfEvent, CGroup, Comm, Exit, Fork, ITraceStart, KSymbol, Lost,
    LostSamples, Mmap, Mmap2, Namespaces, Read, SwitchCpuWide, TextPoke, Throttle,
};

/// Takes one record, and makes one output for all types that it leaves out.
///
/// Only [`PartialVisitor::visit_unimplemented`] is required, and the method of each type of record
/// that matters; [`Partial`] then makes it a [`Visitor`]. An output borrows nothing from the input.
pub trait PartialVisitor: Drop + Sized {
    /// What is made of a record.
    type Output;

    // which outputs belong to an event
    ghost gives: { Event → Self.Output → Type 0 };

    // which outputs belong to a record that is left out
    ghost left_out: { MetadataValue → Self.Output → Type 0 };

    /// What is made of a record that is left out.
    fn visit_unimplemented(self, metadata: RecordMetadata) -> Self::Output
        ensures { left_out metadata result };

    /// A memory mapping was made (`PERF_RECORD_MMAP`).
    #[inline]
    fn visit_mmap(self, content: Mmap<'_>, metadata: RecordMetadata) -> Self::Output
        ensures { GivesOrLeavesOut gives left_out
            (event (prelude.mmap_is (prelude.mmap_value content.entry))
            (prelude.is_borrowed content.entry.filename) metadata) result }
    {
        drop(content);
        self.visit_unimplemented(metadata)
    }

    /// Events were lost (`PERF_RECORD_LOST`).
    #[inline]
    fn visit_lost(self, content: Lost, metadata: RecordMetadata) -> Self::Output
        ensures { GivesOrLeavesOut gives left_out
            (event (prelude.lost_is content) true metadata) result }
    {
        let _ = content;
        self.visit_unimplemented(metadata)
    }

    /// A task changed its name (`PERF_RECORD_COMM`).
    #[inline]
    fn visit_comm(self, content: Comm<'_>, metadata: RecordMetadata) -> Self::Output
        ensures { GivesOrLeavesOut gives left_out
            (event (prelude.comm_is (prelude.comm_value content.entry))
            (prelude.is_borrowed content.entry.comm) metadata) result }
    {
        drop(content);
        self.visit_unimplemented(metadata)
    }

    /// A task ended (`PERF_RECORD_EXIT`).
    #[inline]
    fn visit_exit(self, content: Exit, metadata: RecordMetadata) -> Self::Output
        ensures { GivesOrLeavesOut gives left_out
            (event (prelude.exit_is content) true metadata) result }
    {
        drop(content);
        self.visit_unimplemented(metadata)
    }

    /// The kernel began to throttle samples (`PERF_RECORD_THROTTLE`).
    #[inline]
    fn visit_throttle(self, content: Throttle, metadata: RecordMetadata) -> Self::Output
        ensures { GivesOrLeavesOut gives left_out
            (event (prelude.throttle_is content) true metadata) result }
    {
        drop(content);
        self.visit_unimplemented(metadata)
    }

    /// The kernel takes samples again (`PERF_RECORD_UNTHROTTLE`).
    #[inline]
    fn visit_unthrottle(self, content: Throttle, metadata: RecordMetadata) -> Self::Output
        ensures { GivesOrLeavesOut gives left_out
            (event (prelude.unthrottle_is content) true metadata) result }
    {
        drop(content);
        self.visit_unimplemented(metadata)
    }

    /// A task was created (`PERF_RECORD_FORK`).
    #[inline]
    fn visit_fork(self, content: Fork, metadata: RecordMetadata) -> Self::Output
        ensures { GivesOrLeavesOut gives left_out
            (event (prelude.fork_is content) true metadata) result }
    {
        drop(content);
        self.visit_unimplemented(metadata)
    }

    /// A counter of a task was read (`PERF_RECORD_READ`).
    #[inline]
    fn visit_read(self, content: Read, metadata: RecordMetadata) -> Self::Output
        ensures { GivesOrLeavesOut gives left_out
            (event (prelude.read_is (prelude.task_read content)) true metadata) result }
    {
        drop(content);
        self.visit_unimplemented(metadata)
    }

    /// An event happened (`PERF_RECORD_SAMPLE`).
    #[inline]
    fn visit_sample(self, content: Sample<'_>, metadata: RecordMetadata) -> Self::Output
        ensures { GivesOrLeavesOut gives left_out
            (event (prelude.sample_is (prelude.sample_value content.entry))
            (prelude.is_borrowed_sample content.entry) metadata) result }
    {
        drop(content);
        self.visit_unimplemented(metadata)
    }

    /// A file was mapped, with the file's identity (`PERF_RECORD_MMAP2`).
    ///
    /// By default it is handled like [`PartialVisitor::visit_mmap`].
    #[inline]
    fn visit_mmap2(self, content: Mmap2<'_>, metadata: RecordMetadata) -> Self::Output
        ensures { GivesOrLeavesOut gives left_out
            (event (prelude.mmap2_is (prelude.mmap2_value content.entry))
            (prelude.is_borrowed content.entry.filename) metadata) result }
    {
        self.visit_mmap(content.into_mmap(), metadata)
    }

    /// There is new data in the AUX buffer (`PERF_RECORD_AUX`).
    #[inline]
    fn visit_aux(self, content: Aux, metadata: RecordMetadata) -> Self::Output
        ensures { GivesOrLeavesOut gives left_out
            (event (prelude.aux_is (prelude.aux_value content)) true metadata) result }
    {
        drop(content);
        self.visit_unimplemented(metadata)
    }

    /// An instruction trace began (`PERF_RECORD_ITRACE_START`).
    #[inline]
    fn visit_itrace_start(self, content: ITraceStart, metadata: RecordMetadata) -> Self::Output
        ensures { GivesOrLeavesOut gives left_out
            (event (prelude.itrace_start_is content) true metadata) result }
    {
        drop(content);
        self.visit_unimplemented(metadata)
    }

    /// Samples were lost (`PERF_RECORD_LOST_SAMPLES`).
    #[inline]
    fn visit_lost_samples(self, content: LostSamples, metadata: RecordMetadata) -> Self::Output
        ensures { GivesOrLeavesOut gives left_out
            (event (prelude.lost_samples_is content) true metadata) result }
    {
        drop(content);
        self.visit_unimplemented(metadata)
    }

    /// A task was scheduled on its CPU or off it (`PERF_RECORD_SWITCH`); the record contains
    /// nothing else.
    #[inline]
    fn visit_switch(self, metadata: RecordMetadata) -> Self::Output
        ensures { GivesOrLeavesOut gives left_out (event prelude.switch_is true metadata) result }
    {
        self.visit_unimplemented(metadata)
    }

    /// Which task another one handed its CPU to, or got it from (`PERF_RECORD_SWITCH_CPU_WIDE`).
    #[inline]
    fn visit_switch_cpu_wide(self, content: SwitchCpuWide, metadata: RecordMetadata) -> Self::Output
        ensures { GivesOrLeavesOut gives left_out
            (event (prelude.switch_cpu_wide_is content) true metadata) result }
    {
        let _ = content;
        self.visit_unimplemented(metadata)
    }

    /// The namespaces of a task (`PERF_RECORD_NAMESPACES`).
    #[inline]
    fn visit_namespaces(self, content: Namespaces<'_>, metadata: RecordMetadata) -> Self::Output
        ensures { GivesOrLeavesOut gives left_out
            (event (prelude.namespaces_is (prelude.namespaces_value content.entry)) true metadata) result }
    {
        drop(content);
        self.visit_unimplemented(metadata)
    }

    /// A kernel symbol was registered or unregistered (`PERF_RECORD_KSYMBOL`).
    #[inline]
    fn visit_ksymbol(self, content: KSymbol<'_>, metadata: RecordMetadata) -> Self::Output
        ensures { GivesOrLeavesOut gives left_out
            (event (prelude.ksymbol_is (prelude.ksymbol_value content.entry))
            (prelude.is_borrowed content.entry.name) metadata) result }
    {
        drop(content);
        self.visit_unimplemented(metadata)
    }

    /// A BPF program was loaded or unloaded (`PERF_RECORD_BPF_EVENT`).
    #[inline]
    fn visit_bpf_event(self, content: BpfEvent, metadata: RecordMetadata) -> Self::Output
        ensures { GivesOrLeavesOut gives left_out
            (event (prelude.bpf_event_is (prelude.bpf_event_value content)) true metadata) result }
    {
        let _ = content;
        self.visit_unimplemented(metadata)
    }

    /// A control group: its id and path (`PERF_RECORD_CGROUP`).
    #[inline]
    fn visit_cgroup(self, content: CGroup<'_>, metadata: RecordMetadata) -> Self::Output
        ensures { GivesOrLeavesOut gives left_out
            (event (prelude.cgroup_is (prelude.cgroup_value content.entry))
            (prelude.is_borrowed content.entry.path) metadata) result }
    {
        drop(content);
        self.visit_unimplemented(metadata)
    }

    /// The kernel changed its own instructions (`PERF_RECORD_TEXT_POKE`).
    #[inline]
    fn visit_text_poke(self, content: TextPoke<'_>, metadata: RecordMetadata) -> Self::Output
        ensures { GivesOrLeavesOut gives left_out
            (event (prelude.text_poke_is (prelude.text_poke_value content.entry))
            (prelude.is_borrowed_text_poke content.entry) metadata) result }
    {
        drop(content);
        self.visit_unimplemented(metadata)
    }

    /// The hardware's id of an event whose data is in the AUX buffer
    /// (`PERF_RECORD_AUX_OUTPUT_HW_ID`).
    #[inline]
    fn visit_aux_output_hw_id(
        self,
        content: AuxOutputHwId,
        metadata: RecordMetadata,
    ) -> Self::Output
        ensures { GivesOrLeavesOut gives left_out
            (event (prelude.aux_output_hw_id_is content) true metadata) result }
    {
        let _ = content;
        self.visit_unimplemented(metadata)
    }

    /// A record of a type that this library does not know: the bytes between its header and its
    /// sample id. The metadata gives its type.
    #[inline]
    fn visit_unknown(self, bytes: CowSlice<'_, u8>, metadata: RecordMetadata) -> Self::Output
        ensures { GivesOrLeavesOut gives left_out
            (event (prelude.unknown_is metadata.ty (prelude.cow_items bytes.entry))
            (prelude.is_borrowed bytes.entry) metadata) result }
    {
        drop(bytes);
        self.visit_unimplemented(metadata)
    }
}

/// A [`Visitor`] made from a [`PartialVisitor`].
#[derive(Drop)]
pub struct Partial<V>(pub V);

impl<'a, V: PartialVisitor> Visitor<'a> for Partial<V> {
    type Output = V::Output;

    ghost gives = { λ e output. GivesOrLeavesOut V.gives V.left_out e output };

    #[inline]
    fn visit_unimplemented(self, metadata: RecordMetadata) -> Self::Output {
        self.0.visit_unimplemented(metadata)
    }

    #[inline]
    fn visit_mmap(self, content: Mmap<'a>, metadata: RecordMetadata) -> Self::Output {
        self.0.visit_mmap(content, metadata)
    }

    #[inline]
    fn visit_lost(self, content: Lost, metadata: RecordMetadata) -> Self::Output {
        self.0.visit_lost(content, metadata)
    }

    #[inline]
    fn visit_comm(self, content: Comm<'a>, metadata: RecordMetadata) -> Self::Output {
        self.0.visit_comm(content, metadata)
    }

    #[inline]
    fn visit_exit(self, content: Exit, metadata: RecordMetadata) -> Self::Output {
        self.0.visit_exit(content, metadata)
    }

    #[inline]
    fn visit_throttle(self, content: Throttle, metadata: RecordMetadata) -> Self::Output {
        self.0.visit_throttle(content, metadata)
    }

    #[inline]
    fn visit_unthrottle(self, content: Throttle, metadata: RecordMetadata) -> Self::Output {
        self.0.visit_unthrottle(content, metadata)
    }

    #[inline]
    fn visit_fork(self, content: Fork, metadata: RecordMetadata) -> Self::Output {
        self.0.visit_fork(content, metadata)
    }

    #[inline]
    fn visit_read(self, content: Read, metadata: RecordMetadata) -> Self::Output {
        self.0.visit_read(content, metadata)
    }

    #[inline]
    fn visit_sample(self, content: Sample<'a>, metadata: RecordMetadata) -> Self::Output {
        self.0.visit_sample(content, metadata)
    }

    #[inline]
    fn visit_mmap2(self, content: Mmap2<'a>, metadata: RecordMetadata) -> Self::Output {
        self.0.visit_mmap2(content, metadata)
    }

    #[inline]
    fn visit_aux(self, content: Aux, metadata: RecordMetadata) -> Self::Output {
        self.0.visit_aux(content, metadata)
    }

    #[inline]
    fn visit_itrace_start(self, content: ITraceStart, metadata: RecordMetadata) -> Self::Output {
        self.0.visit_itrace_start(content, metadata)
    }

    #[inline]
    fn visit_lost_samples(self, content: LostSamples, metadata: RecordMetadata) -> Self::Output {
        self.0.visit_lost_samples(content, metadata)
    }

    #[inline]
    fn visit_switch(self, metadata: RecordMetadata) -> Self::Output {
        self.0.visit_switch(metadata)
    }

    #[inline]
    fn visit_switch_cpu_wide(
        self,
        content: SwitchCpuWide,
        metadata: RecordMetadata,
    ) -> Self::Output {
        self.0.visit_switch_cpu_wide(content, metadata)
    }

    #[inline]
    fn visit_namespaces(self, content: Namespaces<'a>, metadata: RecordMetadata) -> Self::Output {
        self.0.visit_namespaces(content, metadata)
    }

    #[inline]
    fn visit_ksymbol(self, content: KSymbol<'a>, metadata: RecordMetadata) -> Self::Output {
        self.0.visit_ksymbol(content, metadata)
    }

    #[inline]
    fn visit_bpf_event(self, content: BpfEvent, metadata: RecordMetadata) -> Self::Output {
        self.0.visit_bpf_event(content, metadata)
    }

    #[inline]
    fn visit_cgroup(self, content: CGroup<'a>, metadata: RecordMetadata) -> Self::Output {
        self.0.visit_cgroup(content, metadata)
    }

    #[inline]
    fn visit_text_poke(self, content: TextPoke<'a>, metadata: RecordMetadata) -> Self::Output {
        self.0.visit_text_poke(content, metadata)
    }

    #[inline]
    fn visit_aux_output_hw_id(
        self,
        content: AuxOutputHwId,
        metadata: RecordMetadata,
    ) -> Self::Output {
        self.0.visit_aux_output_hw_id(content, metadata)
    }

    #[inline]
    fn visit_unknown(self, bytes: CowSlice<'a, u8>, metadata: RecordMetadata) -> Self::Output {
        self.0.visit_unknown(bytes, metadata)
    }
}
