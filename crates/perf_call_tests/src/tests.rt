//! The tests.

mod checks;
mod failing;
mod flat_calls;
mod flat_frames;
mod metadata;
mod parser_calls;
mod reader_lengths;
mod reads;
mod rooms;
mod runs;
mod texts;
