//! Handlers, which take the frames of a run.

ghost use Rattle.std.specs.Prelude.{◌≡◌, Bool};
ghost use Rattle.perf_base.specs.Configuration.{Configuration};
ghost use Rattle.perf_base.specs.Order.{Order};
ghost use Rattle.perf_base.specs.Refusals.{IsErrorOf};
ghost use Rattle.perf_records.specs.Sights.{Sight, sight_of};
ghost use Rattle.perf_records.specs.Prelude.{configuration_of, endian_of, refusal_kind};

use crate::frame::Frame;
use perf_base::sys::perf_event_header;
use perf_base::{Endian, ErrorKind, Kept, ParseConfig, ParseError, Refusal};

/// A header without a whole frame after it: its `size` is below 8, or fewer bytes are left than it
/// states. [`Frame::try_visit`] and [`Frame::try_sample_into`] also return it for a whole frame that
/// is refused.
#[derive(Copy, Clone, Debug)]
pub struct BadFrame {
    pub(crate) header: perf_event_header,
    pub(crate) refusal: Refusal,
}

/// Takes the frames of a run, one after another.
pub trait FrameHandler<'p, E: Endian> {
    // its new state after what it gets under a configuration, and whether the run goes on
    ghost gets: { Self → Configuration → Order → Sight → Bool → Self → Type 0 };

    /// Takes a whole frame, or a header without one, and returns whether the run goes on. The
    /// configuration is that of the run's parser.
    fn frame(&mut self, config: &ParseConfig<E>, frame: Result<Frame<'_, 'p>, BadFrame>) -> bool
        ensures { gets self.old (configuration_of config.now) (E.order (endian_of config.now))
            (sight_of frame.entry) result self.new };
}

impl BadFrame {
    /// The bad frame with that header.
    #[inline]
    pub fn new(header: perf_event_header, refusal: Refusal) -> BadFrame
        ensures header { result.header ≡ header }
        ensures refusal { result.refusal ≡ refusal }
    {
        BadFrame { header, refusal }
    }

    /// The header.
    #[inline]
    pub fn header(&self) -> perf_event_header
        ensures { result ≡ self.now.header }
    {
        self.header
    }

    /// The kind of its refusal: [`ErrorKind::InvalidRecord`] if the size does not count the header,
    /// [`ErrorKind::Eof`] if bytes are missing, and otherwise that of [`Frame::record`].
    #[inline]
    pub fn kind(&self) -> ErrorKind
        ensures { result ≡ refusal_kind self.now.refusal }
    {
        self.refusal.kind()
    }

    /// The error that `read_records` lists for it.
    pub fn error(&self) -> ParseError
        ensures { IsErrorOf result self.now.refusal }
    {
        Kept::none().error_of(self.refusal)
    }
}
