//! A recording with its attribute.

ghost use Rattle.std.specs.Prelude.{◌≡◌, IfOk, IsTrue};
ghost use Rattle.perf_base.specs.Attribute.{attribute};
ghost use Rattle.perf_base.specs.Configuration.{configured_by};
ghost use Rattle.perf_base.specs.Order.{little};
ghost use Rattle.perf_base.specs.Took.{took, took_by_places};
ghost use Rattle.perf_base.specs.declared.sys.perf_event_attr.{perf_event_attr};
ghost use Rattle.perf_parser.specs.Prelude.{parser_buffer, parser_config, configuration_of, parser_reads};

use perf_event_data::endian::Little;
use perf_event_data::parse::{ParseBuf, ParseConfig, ParseResult, Parser};
use std::alloc::Global;

/// A parser of the records after the attribute that a recording begins with, under the configuration
/// of that attribute.
pub fn open_recording<'p, B: ParseBuf<'p> + Drop>(
    alloc: Global,
    input: B,
) -> ParseResult<Parser<B, Little>>
    ensures { IsTrue (B.source input).told → IfOk result (λ parser. (attr : perf_event_attr)
        × (took_by_places little attribute (B.source input).left 0
        ≡ took attr (B.source (parser_buffer parser)).left (parser_reads parser))
        × (configuration_of (parser_config parser) ≡ configured_by attr)) }
{
    Parser::new(alloc, input, ParseConfig::<Little>::default()).after_attribute()
}
