//! A visitor with a generic output: what another visitor makes of a record, with its metadata.

ghost use Rattle.std.specs.Prelude.{◌≡◌};

use perf_event_data::{
    Aux, AuxOutputHwId, BpfEvent, CGroup, Comm, CowSlice, Exit, Fork, ITraceStart, KSymbol, Lost,
    LostSamples, Mmap, Mmap2, Namespaces, Read, RecordMetadata, Sample, SwitchCpuWide, TextPoke,
    Throttle, Visitor,
};

// The same metadata once more.
fn copy_of(metadata: &RecordMetadata) -> RecordMetadata
    ensures { result ≡ metadata.now }
{
    RecordMetadata::from_parts(metadata.ty(), metadata.misc(), *metadata.sample_id())
}

/// Returns the metadata of a record, with what another visitor makes of the record.
#[derive(Drop)]
pub struct Stamped<V>(pub V);

impl<'a, V: Visitor<'a>> Visitor<'a> for Stamped<V> {
    type Output = (RecordMetadata, V::Output);

    ghost gives = { λ event output. (output.0 ≡ event.metadata) × V.gives event output.1 };

    fn visit_unimplemented(self, metadata: RecordMetadata) -> Self::Output {
        (copy_of(&metadata), self.0.visit_unimplemented(metadata))
    }

    fn visit_mmap(self, record: Mmap<'a>, metadata: RecordMetadata) -> Self::Output {
        (copy_of(&metadata), self.0.visit_mmap(record, metadata))
    }

    fn visit_lost(self, record: Lost, metadata: RecordMetadata) -> Self::Output {
        (copy_of(&metadata), self.0.visit_lost(record, metadata))
    }

    fn visit_comm(self, record: Comm<'a>, metadata: RecordMetadata) -> Self::Output {
        (copy_of(&metadata), self.0.visit_comm(record, metadata))
    }

    fn visit_exit(self, record: Exit, metadata: RecordMetadata) -> Self::Output {
        (copy_of(&metadata), self.0.visit_exit(record, metadata))
    }

    fn visit_throttle(self, record: Throttle, metadata: RecordMetadata) -> Self::Output {
        (copy_of(&metadata), self.0.visit_throttle(record, metadata))
    }

    fn visit_unthrottle(self, record: Throttle, metadata: RecordMetadata) -> Self::Output {
        (
            copy_of(&metadata),
            self.0.visit_unthrottle(record, metadata),
        )
    }

    fn visit_fork(self, record: Fork, metadata: RecordMetadata) -> Self::Output {
        (copy_of(&metadata), self.0.visit_fork(record, metadata))
    }

    fn visit_read(self, record: Read, metadata: RecordMetadata) -> Self::Output {
        (copy_of(&metadata), self.0.visit_read(record, metadata))
    }

    fn visit_sample(self, record: Sample<'a>, metadata: RecordMetadata) -> Self::Output {
        (copy_of(&metadata), self.0.visit_sample(record, metadata))
    }

    fn visit_mmap2(self, record: Mmap2<'a>, metadata: RecordMetadata) -> Self::Output {
        (copy_of(&metadata), self.0.visit_mmap2(record, metadata))
    }

    fn visit_aux(self, record: Aux, metadata: RecordMetadata) -> Self::Output {
        (copy_of(&metadata), self.0.visit_aux(record, metadata))
    }

    fn visit_itrace_start(self, record: ITraceStart, metadata: RecordMetadata) -> Self::Output {
        (
            copy_of(&metadata),
            self.0.visit_itrace_start(record, metadata),
        )
    }

    fn visit_lost_samples(self, record: LostSamples, metadata: RecordMetadata) -> Self::Output {
        (
            copy_of(&metadata),
            self.0.visit_lost_samples(record, metadata),
        )
    }

    fn visit_switch(self, metadata: RecordMetadata) -> Self::Output {
        (copy_of(&metadata), self.0.visit_switch(metadata))
    }

    fn visit_switch_cpu_wide(
        self,
        record: SwitchCpuWide,
        metadata: RecordMetadata,
    ) -> Self::Output {
        (
            copy_of(&metadata),
            self.0.visit_switch_cpu_wide(record, metadata),
        )
    }

    fn visit_namespaces(self, record: Namespaces<'a>, metadata: RecordMetadata) -> Self::Output {
        (
            copy_of(&metadata),
            self.0.visit_namespaces(record, metadata),
        )
    }

    fn visit_ksymbol(self, record: KSymbol<'a>, metadata: RecordMetadata) -> Self::Output {
        (copy_of(&metadata), self.0.visit_ksymbol(record, metadata))
    }

    fn visit_bpf_event(self, record: BpfEvent, metadata: RecordMetadata) -> Self::Output {
        (copy_of(&metadata), self.0.visit_bpf_event(record, metadata))
    }

    fn visit_cgroup(self, record: CGroup<'a>, metadata: RecordMetadata) -> Self::Output {
        (copy_of(&metadata), self.0.visit_cgroup(record, metadata))
    }

    fn visit_text_poke(self, record: TextPoke<'a>, metadata: RecordMetadata) -> Self::Output {
        (copy_of(&metadata), self.0.visit_text_poke(record, metadata))
    }

    fn visit_aux_output_hw_id(
        self,
        record: AuxOutputHwId,
        metadata: RecordMetadata,
    ) -> Self::Output {
        (
            copy_of(&metadata),
            self.0.visit_aux_output_hw_id(record, metadata),
        )
    }

    fn visit_unknown(self, bytes: CowSlice<'a, u8>, metadata: RecordMetadata) -> Self::Output {
        (copy_of(&metadata), self.0.visit_unknown(bytes, metadata))
    }
}
