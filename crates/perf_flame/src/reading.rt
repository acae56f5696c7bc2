//! Reads the text of folded stacks.

ghost use Rattle.std.specs.Prelude.{◌≡◌, ◌∷◌, ◌-◌, ◌==◌, ◌≤◌, length, take, drop, not, option_map, position};
ghost use Rattle.std.specs.Char.{is_ascii_digit};
ghost use Rattle.std.specs.List.{list_all, suffix_len, before_first, after_first};
ghost use Rattle.perf_flame.specs.FoldedLines.{folded_lines};
ghost use Rattle.perf_flame.specs.Lines.{stack_line};
ghost use Rattle.perf_flame.specs.Reading as reading;

use crate::error::FoldedError;
use crate::folded::Folded;

/// Adds the lines of a text to folded stacks: each has a stack, a space and a count in decimal digits.
/// The last line may end without a line feed.
///
/// A line is refused if what follows its last space is no number below 2^64, or if it has no space.
/// The lines before it are added then, and no others. If memory runs out, some first lines are.
pub fn read_lines(folded: &mut Folded, text: &[u8]) -> Result<(), FoldedError>
    ensures { reading.Reads (folded_lines folded.old) text.now result (folded_lines folded.new) }
{
    let mut rest = text;
    let mut number = 0;
    let most = text.len();
    while number < most && !rest.is_empty() {
        let (line, after) = first_line(rest);
        let Some((stack, count)) = line_in(line) else {
            return Err(FoldedError::BadLine(number + 1));
        };
        folded.add(stack, count)?;
        rest = after;
        number += 1;
    }
    Ok(())
}

// The first line of a text, and what follows its line feed.
fn first_line(text: &[u8]) -> (&[u8], &[u8])
    ensures first { result.0.now ≡ before_first (λ b. b == 10) text.now }
    ensures rest { result.1.now ≡ after_first (λ b. b == 10) text.now }
{
    match first_feed(text) {
        Some(end) => (&text[..end], &text[end + 1..]),
        None => (text, &text[text.len()..]),
    }
}

fn first_feed(text: &[u8]) -> Option<usize>
    ensures { result ≡ position (λ b. b == 10) text.now }
{
    text.iter().position(|byte| *byte == b'\n')
}

// The stack and the count of a line.
fn line_in(line: &[u8]) -> Option<(&[u8], u64)>
    ensures { option_map (λ found. stack_line found.0.now found.1) result ≡ reading.line_in line.now }
{
    let at = count_at(line);
    if at == 0 {
        return None;
    }
    let count = count_in(&line[at..])?;
    Some((&line[..at - 1], count))
}

// Where the count of a line begins: after its last space, or at 0 if it has none.
fn count_at(line: &[u8]) -> usize
    ensures within { result ≤ length line.now }
    ensures at { result ≡ reading.count_at line.now }
{
    let mut at = line.len();
    while at > 0 && line[at - 1] != b' ' {
        at -= 1;
    }
    at
}

// The number that decimal digits write, if it is below 2^64.
fn count_in(word: &[u8]) -> Option<u64>
    ensures { result ≡ reading.count_in word.now }
{
    if !has_digits_alone(word) {
        return None;
    }
    match str::from_utf8(word) {
        Ok(digits) => digits.parse().ok(),
        Err(_) => None,
    }
}

fn has_digits_alone(word: &[u8]) -> bool
    ensures { result ≡ list_all is_ascii_digit word.now }
{
    word.iter().all(|byte| byte.is_ascii_digit())
}
