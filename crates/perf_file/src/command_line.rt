//! Strings one after another, as the words of a command.

ghost use Rattle.std.specs.Prelude.{◌≡◌, ◌<◌, ◌≤◌, ◌-◌, [], ◌∷◌, length, drop, IsTrue, IfSome, MatchOption, MatchResult};
ghost use Rattle.std.specs.Iterator.{YieldsFirstBy, item_count};
ghost use Rattle.perf_base.specs.Dynamic.{order_of};
ghost use Rattle.perf_file.specs.FeatureTexts as texts;

use crate::feature::BadFeature;
use perf_base::endian::Dynamic;
use perf_sections::descriptions::before_zero;
use perf_sections::number::{bytes_at, small_number_at};

/// The words of a command, each once, in order: an iterator over their bytes. Made by
/// [`Recording::command_line`](crate::Recording::command_line).
#[derive(Copy, Clone, Debug, Drop)]
pub struct CommandLine<'p> {
    order: Dynamic,
    count: u32,
    left: &'p [u8],
}

// How many bytes the string at the front takes.
fn string_size(order: Dynamic, bytes: &[u8]) -> usize
    requires { 4 ≤ length bytes.now }
    ensures { result ≡ texts.string_size (order_of order) bytes.now }
{
    4 + small_number_at(order, bytes, 0) as usize
}

// Whether it is whole.
fn is_whole(order: Dynamic, bytes: &[u8]) -> bool
    ensures { result ≡ texts.is_whole (order_of order) bytes.now }
{
    if bytes.len() < 4 {
        return false;
    }
    string_size(order, bytes) <= bytes.len()
}

// Its text.
fn text_in(order: Dynamic, bytes: &[u8]) -> &[u8]
    requires { IsTrue (texts.is_whole (order_of order) bytes.now) }
    ensures { result.now ≡ texts.text_in (order_of order) bytes.now }
{
    let length = small_number_at(order, bytes, 0) as usize;
    before_zero(bytes_at(bytes, 4, length))
}

// The bytes after it.
fn after_string(order: Dynamic, bytes: &[u8]) -> &[u8]
    requires { IsTrue (texts.is_whole (order_of order) bytes.now) }
    ensures { result.now ≡ drop (texts.string_size (order_of order) bytes.now) bytes.now }
{
    bytes.split_at(string_size(order, bytes)).1
}

/// The text of a feature that is a string.
pub fn checked_text(order: Dynamic, bytes: &[u8]) -> Result<&[u8], BadFeature>
    ensures { MatchResult result
        (λ text. texts.checked_text (order_of order) bytes.now ≡ Ok text.now)
        (λ e. texts.checked_text (order_of order) bytes.now ≡ Err e) }
{
    if is_whole(order, bytes) {
        Ok(text_in(order, bytes))
    } else {
        Err(BadFeature::Short)
    }
}

// Whether so many strings are whole.
#[tactic(auto, using(crate::proofs::Strings::more_whole, crate::proofs::Strings::not_whole, crate::proofs::Strings::all_whole))]
fn are_whole(order: Dynamic, count: u32, bytes: &[u8]) -> bool
    ensures { result ≡ texts.are_whole (order_of order) count bytes.now }
{
    let mut left = bytes;
    for _index in 0..count {
        if !is_whole(order, left) {
            return false;
        }
        left = after_string(order, left);
    }
    true
}

/// The words of the feature.
pub fn checked_words(order: Dynamic, bytes: &[u8]) -> Result<CommandLine<'_>, BadFeature>
    ensures { MatchResult result
        (λ line. texts.checked_words (order_of order) bytes.now ≡ Ok (texts.words_left line))
        (λ e. texts.checked_words (order_of order) bytes.now ≡ Err e) }
{
    if bytes.len() < 4 {
        return Err(BadFeature::Short);
    }
    let count = small_number_at(order, bytes, 0);
    let left = bytes.split_at(4).1;
    if are_whole(order, count, left) {
        Ok(CommandLine { order, count, left })
    } else {
        Err(BadFeature::Short)
    }
}

// The first word that is left, and the bytes after it.
#[tactic(auto, using(crate::proofs::Strings::no_word, crate::proofs::Strings::cut_word, crate::proofs::Strings::next_word))]
fn first_word<'p>(line: &CommandLine<'p>) -> Option<(&'p [u8], &'p [u8])>
    ensures some { IfSome result (λ _. 0 < line.now.count) }
    ensures words { MatchOption result (texts.words_left line.now ≡ [])
        (λ found. texts.words_left line.now ≡ found.0.now
        ∷ texts.words (order_of line.now.order) (line.now.count - 1) found.1.now) }
{
    if line.count == 0 || !is_whole(line.order, line.left) {
        return None;
    }
    Some((
        text_in(line.order, line.left),
        after_string(line.order, line.left),
    ))
}

impl<'p> Iterator for CommandLine<'p> {
    type Item = &'p [u8];

    ghost next_gives = { YieldsFirstBy (λ word. word.now) texts.words_left };

    ghost remaining = { item_count texts.words_left };

    fn next(&mut self) -> Option<&'p [u8]> {
        let (word, left) = first_word(self)?;
        self.count -= 1;
        self.left = left;
        Some(word)
    }
}
