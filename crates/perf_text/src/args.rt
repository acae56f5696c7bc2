//! Parses the command line.

ghost use Rattle.std.specs.Prelude.{◌≡◌, map, string_bytes};
ghost use Rattle.std.specs.Char.{is_ascii_digit};
ghost use Rattle.std.specs.List.{list_all};
ghost use Rattle.perf_text.specs.Args.{limit_named, command_with_limit, command_of};
ghost use Rattle.perf_text.specs.Args.{command_without_limit, unlimited_command_of};

use crate::command::Command;
use crate::order::OrderName;

/// What the arguments of the program ask for: the name of a byte order, a limit in decimal digits
/// alone, and then `attr` if the input begins with an attribute. `None` for any other arguments.
pub fn command(words: &[String]) -> Option<Command>
    ensures { result ≡ command_of (map string_bytes words.now) }
{
    match words {
        [order, limit] => command_with_limit(order.as_str(), limit.as_str(), false),
        [order, limit, third] if third.as_str() == "attr" => {
            command_with_limit(order.as_str(), limit.as_str(), true)
        }
        _ => None,
    }
}

/// What the arguments ask for if they name no limit, so that all frames are printed: the name of a
/// byte order, and then `attr` if the input begins with an attribute. `None` for any other arguments.
pub fn unlimited_command(words: &[String]) -> Option<Command>
    ensures { result ≡ unlimited_command_of (map string_bytes words.now) }
{
    match words {
        [order] => command_without_limit(order.as_str(), false),
        [order, second] if second.as_str() == "attr" => command_without_limit(order.as_str(), true),
        _ => None,
    }
}

fn command_with_limit(order: &str, limit: &str, with_attr: bool) -> Option<Command>
    ensures { result ≡ command_with_limit with_attr order.now limit.now }
{
    Some(Command {
        order: OrderName::of(order)?,
        limit: limit_named(limit)?,
        with_attr,
    })
}

fn command_without_limit(order: &str, with_attr: bool) -> Option<Command>
    ensures { result ≡ command_without_limit with_attr order.now }
{
    Some(Command {
        order: OrderName::of(order)?,
        limit: usize::MAX,
        with_attr,
    })
}

// `parse` alone would also accept a sign.
fn limit_named(word: &str) -> Option<usize>
    ensures { result ≡ limit_named word.now }
{
    if !is_number(word) {
        return None;
    }
    word.parse().ok()
}

fn is_number(word: &str) -> bool
    ensures { result ≡ list_all is_ascii_digit word.now }
{
    word.as_bytes().iter().all(|byte| byte.is_ascii_digit())
}
