//! What is made of the bytes of one frame, under a reader's configuration.

ghost use Rattle.std.specs.Prelude.{◌≡◌, ℕ, List, Bool, length};
ghost use Rattle.perf_base.specs.Configuration.{Configuration};
ghost use Rattle.perf_base.specs.Configured.{configuration_of, endian_of};
ghost use Rattle.perf_base.specs.Order.{Order};
ghost use Rattle.perf_buffers.specs.Prelude.{chunk_bytes, chunk_is_borrowed};

use perf_base::{Endian, ParseConfig, ReadCounter};
use perf_buffers::frame_reader::FrameReader;
use perf_buffers::parsebuf::ParseBufChunk;
use std::alloc::Global;

/// Makes something of the bytes of a frame, under a configuration and with a state of the caller's,
/// and counts its reads.
pub trait ConfiguredFrameReader<'p, E: Endian, S>: Drop {
    /// What is made of them.
    type Output;

    // how many bytes it reads
    ghost len: { Self → ℕ };

    // which outputs and new states belong to a configuration, an order, bytes (borrowed from the
    // input or not), a number of reads and a state
    ghost gives: { Self → Configuration → Order → List ℕ → Bool → ℕ → S → Self.Output → S → Type 0 };

    /// What is made of a frame's bytes, and how many elementary reads that took.
    fn read(
        self,
        alloc: Global,
        config: &ParseConfig<E>,
        state: &mut S,
        bytes: ParseBufChunk<'_, 'p>,
    ) -> (Self::Output, ReadCounter)
        requires { length (chunk_bytes bytes) ≡ len self }
        ensures { gives self (configuration_of config.now) (E.order (endian_of config.now))
            (chunk_bytes bytes.entry) (chunk_is_borrowed bytes.entry) result.1 state.old result.0 state.new };
}

// A reader of frames, and what it needs besides the bytes.
#[derive(Drop)]
pub(crate) struct Configured<'c, E, F> {
    pub(crate) alloc: Global,
    pub(crate) config: &'c ParseConfig<E>,
    pub(crate) reader: F,
}

impl<'c, 'p, S, E: Endian, F: ConfiguredFrameReader<'p, E, S>> FrameReader<'p, S>
    for Configured<'c, E, F> {
    type Output = (F::Output, ReadCounter);

    ghost len = { λ c. F.len c.reader };

    ghost gives = { λ c bytes borrowed was output now. F.gives c.reader
        (configuration_of c.config.now) (E.order (endian_of c.config.now)) bytes borrowed output.1
        was output.0 now };

    #[inline]
    fn read(self, state: &mut S, bytes: ParseBufChunk<'_, 'p>) -> Self::Output {
        self.reader.read(self.alloc, self.config, state, bytes)
    }
}
