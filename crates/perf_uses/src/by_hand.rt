//! One frame by hand: its header, its metadata, and its body under its own `misc`.

use perf_event_data::Mmap2;
use perf_event_data::endian::Endian;
use perf_event_data::parse::{ErrorKind, ParseBuf, ParseResult, Parser};
use perf_event_data::sys::{PERF_RECORD_MMAP2, perf_event_header};

/// The header of the next frame, or `None` if fewer bytes are left than a header has.
pub fn next_header<'p, B: ParseBuf<'p>, E: Endian>(
    parser: &mut Parser<B, E>,
) -> ParseResult<Option<perf_event_header>> {
    match parser.parse::<perf_event_header>() {
        Ok(header) => Ok(Some(header)),
        Err(error) if error.kind() == ErrorKind::Eof => Ok(None),
        Err(error) => Err(error),
    }
}

/// The MMAP2 record after a header, or `None` if the frame is of another type.
pub fn mapping_after<'p, B: ParseBuf<'p>, E: Endian>(
    parser: &mut Parser<B, E>,
    header: perf_event_header,
) -> ParseResult<Option<Mmap2<'p>>> {
    let (body, metadata) = parser.parse_metadata_with_header(header)?;
    if metadata.ty() != PERF_RECORD_MMAP2 {
        return Ok(None);
    }

    // Whether the record has an inode or a build id depends on a bit of `misc`.
    let config = body.config().duplicate()?.with_misc(metadata.misc());
    body.reconfigure(config).parse().map(Some)
}
