//! The loop of a run.

ghost use Rattle.std.specs.Prelude.{◌≡◌, true};
ghost use Rattle.perf_parser.specs.Steps as steps;
ghost use Rattle.perf_reader.specs.Prelude as prelude;

use crate::run::{FrameRun, RunEnd};
use perf_base::Endian;
use perf_buffers::outer::Outer;
use perf_buffers::parsebuf::ParseBuf;
use perf_reader::header::Stop;
use perf_reader::reader::Reader;

// Takes the next frame of a run, which changes a state.
pub(crate) trait Step<'p, B: ParseBuf<'p>, E: Endian, S> {
    // what is stated of the states
    ghost kind: { steps.StepKind S };

    // Takes the next frame and returns whether the run goes on, or why it stops.
    fn step(&self, reader: &mut Reader<Outer<B>, E>, state: &mut S) -> Result<bool, Stop>
        ensures config { prelude.config_of reader.new ≡ prelude.config_of reader.old }
        ensures step { steps.TakesStep kind
            (prelude.state_of (λ (o : Outer B). B.source o.buf) E.order reader.old) state.old result
            (prelude.state_of (λ (o : Outer B). B.source o.buf) E.order reader.new) state.new };
}

// How a run ends that was stopped in this way.
fn end_of<'p, B: ParseBuf<'p>, E: Endian>(reader: &mut Reader<Outer<B>, E>, stop: Stop) -> RunEnd
    ensures end { steps.IsEndOf stop result }
    ensures buf { prelude.buffer_of reader.new ≡ prelude.buffer_of reader.old }
    ensures config { prelude.config_of reader.new ≡ prelude.config_of reader.old }
    ensures reads { prelude.reads_of reader.new ≡ prelude.reads_of reader.old }
{
    match stop {
        Stop::Done => RunEnd::Done,
        Stop::CutHeader => RunEnd::CutHeader,
        Stop::Refused(refusal) => RunEnd::Fault(reader.error_of(refusal)),
    }
}

// Takes the next frames, at most `limit`, until a step ends the run. This is the loop of every run.
#[inline]
pub(crate) fn run_steps<'p, S, B: ParseBuf<'p>, E: Endian, T: Step<'p, B, E, S>>(
    reader: &mut Reader<Outer<B>, E>,
    limit: usize,
    step: &T,
    state: &mut S,
) -> FrameRun
    requires { T.kind.so_far (prelude.state_of (λ (o : Outer B). B.source o.buf) E.order reader.old)
        state.old 0 true state.old }
    ensures config { prelude.config_of reader.new ≡ prelude.config_of reader.old }
    ensures run { steps.TakesSteps T.kind
        (prelude.state_of (λ (o : Outer B). B.source o.buf) E.order reader.old) state.old limit
        result.count result.end
        (prelude.state_of (λ (o : Outer B). B.source o.buf) E.order reader.new) state.new }
{
    for count in 0..limit {
        match step.step(reader, state) {
            Ok(true) => {}
            Ok(false) => {
                return FrameRun {
                    count: count + 1,
                    end: None,
                };
            }
            Err(stop) => {
                let end = end_of(reader, stop);
                return FrameRun {
                    count,
                    end: Some(end),
                };
            }
        }
    }
    FrameRun {
        count: limit,
        end: Some(RunEnd::Limit),
    }
}
