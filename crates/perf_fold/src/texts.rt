//! Adds up texts of folded stacks.

ghost use Rattle.std.specs.Prelude.{◌≡◌, IfErr, OnOk, None, map};
ghost use Rattle.perf_flame.specs.FoldedLines.{folded_lines};
ghost use Rattle.perf_flame.specs.Lines.{add_lines};
ghost use Rattle.perf_fold.specs.Sums as sums;

use crate::error::TextError;
use perf_flame::error::FoldedError;
use perf_flame::folded::Folded;
use perf_flame::reading::read_lines;
use std::alloc::Global;

/// The sums of the lines of texts: those of each text, added up. Texts in another order have the same
/// sums.
///
/// If a line is refused, so are all texts: the first such line is told.
pub fn read_texts(alloc: Global, texts: &[Vec<u8>]) -> Result<Folded, TextError>
    ensures { sums.IsSumOf (map sums.bytes_of texts.now) result }
{
    let mut folded = Folded::new(alloc);
    for index in 0..texts.len() {
        add_text(&mut folded, index, &texts[index])?;
    }
    Ok(folded)
}

// Adds the lines of the text with that index.
fn add_text(folded: &mut Folded, index: usize, text: &[u8]) -> Result<(), TextError>
    ensures read { OnOk result (sums.refused_line text.now ≡ None) }
    ensures added { OnOk result
        (folded_lines folded.new ≡ add_lines (folded_lines folded.old) (sums.sums_of text.now)) }
    ensures refused { IfErr result (sums.IsRefused index text.now) }
{
    match read_lines(folded, text) {
        Ok(()) => Ok(()),
        Err(FoldedError::BadLine(line)) => Err(TextError::BadLine { text: index, line }),
        Err(FoldedError::OutOfMemory) => Err(TextError::OutOfMemory),
    }
}
