//! Runs that hand out frames.

ghost use Rattle.std.specs.Prelude.{◌≡◌, ◌≢◌, ◌≤◌, Some, IsTrue};
ghost use Rattle.perf_parser.specs.FrameRuns as hands;
ghost use Rattle.perf_parser.specs.Runs as runs;
ghost use Rattle.perf_parser.specs.Prelude.{parser_buffer, parser_config, parser_reads, parser_state};
ghost use Rattle.perf_reader.specs.Prelude as prelude;
ghost use Rattle.perf_records.specs.Frames.{first_frames};

use crate::parser::Parser;
use crate::run::FrameRun;
use crate::steps::{Step, run_steps};
use perf_base::Endian;
use perf_buffers::outer::Outer;
use perf_buffers::parsebuf::ParseBuf;
use perf_reader::header::Stop;
use perf_reader::reader::Reader;
use perf_records::frame_after::hand_after;
use perf_records::frame_handler::FrameHandler;

// Hands the next frame to a handler.
struct Handing;

impl<'p, B: ParseBuf<'p>, E: Endian, H: FrameHandler<'p, E>> Step<'p, B, E, H> for Handing {
    ghost kind = { record {
      refusals = λ handler. 0;
      reads = λ c o frame. 2;
      so_far = λ start first k go now. IsTrue start.source.told →
          hands.Handed (λ s x. H.gets s start.settings start.order x) start.order
          start.source.whole first (first_frames start.order k start.source.left) go now;
      allocates = ⊥;
    } };

    #[inline]
    fn step(&self, reader: &mut Reader<Outer<B>, E>, handler: &mut H) -> Result<bool, Stop> {
        let header = match reader.next_header() {
            Ok(header) => header,
            Err(stop) => return Err(stop),
        };
        match hand_after(reader, header, handler) {
            Ok(go) => Ok(go),
            Err(refusal) => Err(Stop::Refused(refusal)),
        }
    }
}

/// Hands the next frames to a handler, at most `limit`, until it ends the run.
///
/// A frame that the buffer shows whole is handed out in place, whatever its type; any other is
/// assembled in memory that the parser keeps for the next. Nothing else is allocated. A header that
/// no whole frame follows is handed out as a `BadFrame`: if its size is below 8, the next frame
/// begins after the header. Only a fault of the buffer and a failed allocation for a frame
/// end a run early. Each header is two elementary reads; what a handler reads of a frame is not
/// counted here.
pub fn each_frame<'p, B: ParseBuf<'p>, E: Endian, H: FrameHandler<'p, E>>(
    parser: &mut Parser<B, E>,
    limit: usize,
    handler: &mut H,
) -> FrameRun
    ensures config { parser_config parser.new ≡ parser_config parser.old }
    ensures count { result.count ≤ limit }

    // What the handler got: the first frames of the bytes, each once, in order.
    ensures handed { let start = parser_state B.source E.order parser.old in
        IsTrue start.source.told → hands.HandsFirst (λ s x. H.gets s start.settings start.order x)
        start result.count result.end handler.old handler.new }

    // How it ends, and what it leaves.
    ensures end { let start = parser_state B.source E.order parser.old in
        IsTrue start.source.told → hands.EndsFrames start.order limit start.source.left
        result.count result.end (B.source (parser_buffer parser.new)).left }

    // Over a slice it takes no memory, so no allocation can fail.
    ensures whole_memory { IsTrue (B.source (parser_buffer parser.old)).told →
        IsTrue (B.source (parser_buffer parser.old)).whole →
        hands.frames_refusal result.end ≢ Some prelude.OutOfMemory }

    // The number of elementary reads.
    ensures reads { IsTrue (B.source (parser_buffer parser.old)).told → hands.CountsHeaders
        result.count result.end (parser_reads parser.old) (parser_reads parser.new) }

    // Whatever the buffer, faults are counted. If its bytes are known, no more is read than is taken.
    ensures keeps { runs.RunInvariant (parser_state B.source E.order parser.old)
        (hands.one_if_run_ended result.end) (hands.frames_refusal result.end)
        (parser_state B.source E.order parser.new) }
{
    run_steps(&mut parser.reader, limit, &Handing, handler)
}
