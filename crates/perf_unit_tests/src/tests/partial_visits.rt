//! Partial visitors: their own calls are made, and no others.

ghost use Rattle.std.specs.Prelude.{⊤};

use perf_event_data::{
    Aux, AuxOutputHwId, BpfEvent, CGroup, Comm, CowSlice, Exit, Fork, ITraceStart, KSymbol, Lost,
    LostSamples, Mmap, Mmap2, Namespaces, PartialVisitor, Read, RecordMetadata, Sample,
    SwitchCpuWide, TextPoke, Throttle,
};
use perf_test_helpers::drops::drop_sample;
use perf_test_texts::texts::WriteText;
use std::alloc::AllocError;
use std::cell::Cell;

/// The name of each call; it has all of them itself.
#[derive(Copy, Clone)]
pub struct OwnCalls;

impl PartialVisitor for OwnCalls {
    type Output = &'static str;

    // Nothing is specified.
    ghost gives = { λ event output. ⊤ };

    ghost left_out = { λ metadata output. ⊤ };

    fn visit_unimplemented(self, _metadata: RecordMetadata) -> Self::Output {
        "unimplemented"
    }

    fn visit_mmap(self, content: Mmap<'_>, _metadata: RecordMetadata) -> Self::Output {
        drop(content);
        "mmap"
    }

    fn visit_lost(self, _content: Lost, _metadata: RecordMetadata) -> Self::Output {
        "lost"
    }

    fn visit_comm(self, content: Comm<'_>, _metadata: RecordMetadata) -> Self::Output {
        drop(content);
        "comm"
    }

    fn visit_exit(self, _content: Exit, _metadata: RecordMetadata) -> Self::Output {
        "exit"
    }

    fn visit_throttle(self, _content: Throttle, _metadata: RecordMetadata) -> Self::Output {
        "throttle"
    }

    fn visit_unthrottle(self, _content: Throttle, _metadata: RecordMetadata) -> Self::Output {
        "unthrottle"
    }

    fn visit_fork(self, _content: Fork, _metadata: RecordMetadata) -> Self::Output {
        "fork"
    }

    fn visit_read(self, _content: Read, _metadata: RecordMetadata) -> Self::Output {
        "read"
    }

    fn visit_sample(self, content: Sample<'_>, _metadata: RecordMetadata) -> Self::Output {
        drop_sample(content);
        "sample"
    }

    fn visit_mmap2(self, content: Mmap2<'_>, _metadata: RecordMetadata) -> Self::Output {
        drop(content);
        "mmap2"
    }

    fn visit_aux(self, _content: Aux, _metadata: RecordMetadata) -> Self::Output {
        "aux"
    }

    fn visit_itrace_start(self, _content: ITraceStart, _metadata: RecordMetadata) -> Self::Output {
        "itrace_start"
    }

    fn visit_lost_samples(self, _content: LostSamples, _metadata: RecordMetadata) -> Self::Output {
        "lost_samples"
    }

    fn visit_switch(self, _metadata: RecordMetadata) -> Self::Output {
        "switch"
    }

    fn visit_switch_cpu_wide(
        self,
        _content: SwitchCpuWide,
        _metadata: RecordMetadata,
    ) -> Self::Output {
        "switch_cpu_wide"
    }

    fn visit_namespaces(self, content: Namespaces<'_>, _metadata: RecordMetadata) -> Self::Output {
        drop(content);
        "namespaces"
    }

    fn visit_ksymbol(self, content: KSymbol<'_>, _metadata: RecordMetadata) -> Self::Output {
        drop(content);
        "ksymbol"
    }

    fn visit_bpf_event(self, _content: BpfEvent, _metadata: RecordMetadata) -> Self::Output {
        "bpf_event"
    }

    fn visit_cgroup(self, content: CGroup<'_>, _metadata: RecordMetadata) -> Self::Output {
        drop(content);
        "cgroup"
    }

    fn visit_text_poke(self, content: TextPoke<'_>, _metadata: RecordMetadata) -> Self::Output {
        drop(content);
        "text_poke"
    }

    fn visit_aux_output_hw_id(
        self,
        _content: AuxOutputHwId,
        _metadata: RecordMetadata,
    ) -> Self::Output {
        "aux_output_hw_id"
    }

    fn visit_unknown(self, bytes: CowSlice<'_, u8>, _metadata: RecordMetadata) -> Self::Output {
        drop(bytes);
        "unknown"
    }
}

/// It has a call of its own for mappings only, and counts visits.
#[derive(Copy, Clone)]
pub struct Mappings<'v> {
    pub visits: &'v Cell<u32>,
}

/// Which call was made, and the time, the CPU and the type of the record, from its metadata.
#[derive(Copy, Clone)]
pub struct Moment {
    call: &'static str,
    time: Option<u64>,
    cpu: Option<u32>,
    ty: u32,
}

impl WriteText for Moment {
    fn write_text(&self, text: &mut String) -> Result<(), AllocError> {
        let (call, time, cpu, ty) = (self.call, self.time, self.cpu, self.ty);
        write!(text, "{call} {time:?} {cpu:?} {ty}")
    }
}

impl Mappings<'_> {
    fn moment_of(self, call: &'static str, metadata: &RecordMetadata) -> Moment {
        self.visits.set(self.visits.get().wrapping_add(1));
        let id = metadata.sample_id();
        Moment {
            call,
            time: id.time(),
            cpu: id.cpu(),
            ty: metadata.ty(),
        }
    }
}

impl PartialVisitor for Mappings<'_> {
    type Output = Moment;

    // Nothing is specified.
    ghost gives = { λ event output. ⊤ };

    ghost left_out = { λ metadata output. ⊤ };

    fn visit_unimplemented(self, metadata: RecordMetadata) -> Self::Output {
        self.moment_of("unimplemented", &metadata)
    }

    fn visit_mmap(self, content: Mmap<'_>, metadata: RecordMetadata) -> Self::Output {
        drop(content);
        self.moment_of("mmap", &metadata)
    }
}
