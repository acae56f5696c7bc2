//! What a program prints of itself.

ghost use Rattle.std.specs.Prelude.{◌≡◌, map, string_bytes, false, IfOk, IsOk};
ghost use Rattle.perf_text.specs.Usage.{asks_for_usage, usage_status};

use std::io;

/// Prints the usage of a program, and returns the exit status: on standard output and 0 if `--help`
/// is the only argument, and on standard error and 2 for other arguments. It fails if standard output
/// does; if standard error fails, the status alone reports it.
pub fn print_usage(rt: &(impl Print + Eprint), words: &[String], usage: &str) -> io::Result<u8>
    ensures status { IfOk result (λ status. status ≡ usage_status (map string_bytes words.now)) }
    ensures other { asks_for_usage (map string_bytes words.now) ≡ false → IsOk result }
{
    if asks_for_usage(words) {
        rt.println(usage)?;
        return Ok(0);
    }
    let _ = rt.eprintln(usage);
    Ok(2)
}

fn asks_for_usage(words: &[String]) -> bool
    ensures { result ≡ asks_for_usage (map string_bytes words.now) }
{
    match words {
        [word] => word.as_str() == "--help",
        _ => false,
    }
}
