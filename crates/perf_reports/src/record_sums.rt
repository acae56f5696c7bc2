//! What a record adds to the checksum.

ghost use Rattle.perf_reports.specs.Counting.{Adds};

use crate::sums::{comm_sum, lost_sum, mmap_sum, mmap2_sum, sample_sum, task_sum};
use perf_base::CowSlice;
use perf_records::metadata::RecordMetadata;
use perf_records::visitor::Visitor;
use perf_sample_types::sample::Sample;
use perf_types::{
    Aux, AuxOutputHwId, BpfEvent, CGroup, Comm, Exit, Fork, ITraceStart, KSymbol, Lost,
    LostSamples, Mmap, Mmap2, Namespaces, Read, SwitchCpuWide, TextPoke, Throttle,
};

// Turns a record into what it adds to the checksum.
#[derive(Copy, Clone)]
pub(crate) struct SumVisitor;

impl<'a> Visitor<'a> for SumVisitor {
    type Output = u64;

    ghost gives = { Adds };

    #[inline]
    fn visit_unimplemented(self, _metadata: RecordMetadata) -> u64 {
        0
    }

    #[inline]
    fn visit_mmap(self, content: Mmap<'a>, _metadata: RecordMetadata) -> u64 {
        let sum = mmap_sum(&content);
        drop(content);
        sum
    }

    #[inline]
    fn visit_lost(self, content: Lost, _metadata: RecordMetadata) -> u64 {
        lost_sum(&content)
    }

    #[inline]
    fn visit_comm(self, content: Comm<'a>, _metadata: RecordMetadata) -> u64 {
        let sum = comm_sum(&content);
        drop(content);
        sum
    }

    #[inline]
    fn visit_exit(self, content: Exit, _metadata: RecordMetadata) -> u64 {
        task_sum(&content)
    }

    #[inline]
    fn visit_throttle(self, _content: Throttle, _metadata: RecordMetadata) -> u64 {
        0
    }

    #[inline]
    fn visit_unthrottle(self, _content: Throttle, _metadata: RecordMetadata) -> u64 {
        0
    }

    #[inline]
    fn visit_fork(self, content: Fork, _metadata: RecordMetadata) -> u64 {
        task_sum(&content)
    }

    #[inline]
    fn visit_read(self, _content: Read, _metadata: RecordMetadata) -> u64 {
        0
    }

    #[inline]
    fn visit_sample(self, content: Sample<'a>, _metadata: RecordMetadata) -> u64 {
        let sum = sample_sum(&content);
        drop(content);
        sum
    }

    #[inline]
    fn visit_mmap2(self, content: Mmap2<'a>, _metadata: RecordMetadata) -> u64 {
        let sum = mmap2_sum(&content);
        drop(content);
        sum
    }

    #[inline]
    fn visit_aux(self, _content: Aux, _metadata: RecordMetadata) -> u64 {
        0
    }

    #[inline]
    fn visit_itrace_start(self, _content: ITraceStart, _metadata: RecordMetadata) -> u64 {
        0
    }

    #[inline]
    fn visit_lost_samples(self, content: LostSamples, _metadata: RecordMetadata) -> u64 {
        content.lost
    }

    #[inline]
    fn visit_switch(self, _metadata: RecordMetadata) -> u64 {
        0
    }

    #[inline]
    fn visit_switch_cpu_wide(self, _content: SwitchCpuWide, _metadata: RecordMetadata) -> u64 {
        0
    }

    #[inline]
    fn visit_namespaces(self, content: Namespaces<'a>, _metadata: RecordMetadata) -> u64 {
        drop(content);
        0
    }

    #[inline]
    fn visit_ksymbol(self, content: KSymbol<'a>, _metadata: RecordMetadata) -> u64 {
        drop(content);
        0
    }

    #[inline]
    fn visit_bpf_event(self, _content: BpfEvent, _metadata: RecordMetadata) -> u64 {
        0
    }

    #[inline]
    fn visit_cgroup(self, content: CGroup<'a>, _metadata: RecordMetadata) -> u64 {
        drop(content);
        0
    }

    #[inline]
    fn visit_text_poke(self, content: TextPoke<'a>, _metadata: RecordMetadata) -> u64 {
        drop(content);
        0
    }

    #[inline]
    fn visit_aux_output_hw_id(self, _content: AuxOutputHwId, _metadata: RecordMetadata) -> u64 {
        0
    }

    #[inline]
    fn visit_unknown(self, bytes: CowSlice<'a, u8>, _metadata: RecordMetadata) -> u64 {
        drop(bytes);
        0
    }
}
