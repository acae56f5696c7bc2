//! What perf states about the machine and the command, a line each.

ghost use Rattle.std.specs.Prelude.{◌≡◌, ◌++◌, IfOk, OnOk, codes, is_err, string_bytes};
ghost use Rattle.perf_file.specs.BuildIds.{build_of, builds_left};
ghost use Rattle.perf_file.specs.FeatureTable.{seen};
ghost use Rattle.perf_file.specs.FeatureTexts.{words_left};
ghost use Rattle.perf_data_text.specs.HeaderText as headers;

use perf_file::{BadFeature, BuildId, BuildIds, CommandLine, EscapedBytes, Recording, SampleTimes};
use perf_text::hex_bytes::push_hex_bytes;
use std::alloc::{AllocError, Global};

/// A line for each feature that a file has of these, and whether one of them cannot be read: the name
/// of the machine, the release of its kernel, the words of the command, the build ids of files, of
/// which each has a line, and the times of the first and of the last sample.
pub fn text_of_header(
    alloc: Global,
    recording: &Recording<'_>,
) -> Result<(String, bool), AllocError>
    ensures text { IfOk result (λ made. string_bytes made.0
        ≡ headers.header_text recording.now.order recording.now.bytes.now) }
    ensures refused { IfOk result (λ made. made.1
        ≡ headers.is_refused recording.now.order recording.now.bytes.now) }
{
    let mut text = String::new(alloc);
    let host = push_text(&mut text, "hostname", recording.hostname())?;
    let release = push_text(&mut text, "os release", recording.os_release())?;
    let words = push_command_line(&mut text, recording.command_line())?;
    let builds = push_build_ids(&mut text, recording.build_ids())?;
    let times = push_sample_times(&mut text, recording.sample_times())?;
    Ok((text, host || release || words || builds || times))
}

// Appends the line of a feature that cannot be read.
fn push_refused(text: &mut String, name: &str) -> Result<(), AllocError>
    ensures { OnOk result (string_bytes text.new
        ≡ string_bytes text.old ++ headers.refused_line name.now) }
{
    write!(text, "# {name} refused\n")
}

/// Appends the line of a text, and returns whether it is refused: its name and the text, or nothing if the
/// file does not have it.
pub fn push_text(
    text: &mut String,
    name: &str,
    found: Result<Option<&[u8]>, BadFeature>,
) -> Result<bool, AllocError>
    ensures text { OnOk result (string_bytes text.new ≡ string_bytes text.old
        ++ headers.feature_lines name.now (headers.text_line name.now)
        (seen (λ b. b.now) found.entry)) }
    ensures refused { IfOk result (λ refused. refused ≡ is_err (seen (λ b. b.now) found.entry)) }
{
    match found {
        Ok(Some(bytes)) => write!(text, "# {name} : {}\n", EscapedBytes(bytes))?,
        Ok(None) => {}
        Err(_) => {
            push_refused(text, name)?;
            return Ok(true);
        }
    }
    Ok(false)
}

// Appends words, each after a space.
#[tactic(auto, unfolding(crate::specs::HeaderText::spaced))]
fn push_words(text: &mut String, line: CommandLine<'_>) -> Result<(), AllocError>
    ensures { OnOk result (string_bytes text.new
        ≡ string_bytes text.old ++ headers.spaced (words_left line.entry)) }
{
    for word in line {
        write!(text, " {}", EscapedBytes(word))?;
    }
    Ok(())
}

// Appends the line of words.
fn push_words_line(text: &mut String, line: CommandLine<'_>) -> Result<(), AllocError>
    ensures { OnOk result (string_bytes text.new
        ≡ string_bytes text.old ++ headers.words_line (words_left line.entry)) }
{
    text.push_str("# cmdline :")?;
    push_words(text, line)?;
    text.push_str("\n")?;
    Ok(())
}

/// Appends the line of the words of the command, and returns whether they are refused: nothing if the file
/// does not have them.
pub fn push_command_line(
    text: &mut String,
    found: Result<Option<CommandLine<'_>>, BadFeature>,
) -> Result<bool, AllocError>
    ensures text { OnOk result (string_bytes text.new ≡ string_bytes text.old
        ++ headers.feature_lines (codes "cmdline") headers.words_line (seen words_left found.entry)) }
    ensures refused { IfOk result (λ refused. refused ≡ is_err (seen words_left found.entry)) }
{
    match found {
        Ok(Some(line)) => push_words_line(text, line)?,
        Ok(None) => {}
        Err(_) => {
            push_refused(text, "cmdline")?;
            return Ok(true);
        }
    }
    Ok(false)
}

// Appends the line of a build id.
fn push_build_id(text: &mut String, build: &BuildId<'_>) -> Result<(), AllocError>
    ensures { OnOk result (string_bytes text.new
        ≡ string_bytes text.old ++ headers.build_line (build_of build.now)) }
{
    text.push_str("# build id : ")?;
    push_hex_bytes(text, build.id)?;
    write!(text, " {}\n", EscapedBytes(build.filename))
}

// Appends the lines of build ids.
fn push_builds(text: &mut String, list: BuildIds<'_, '_>) -> Result<(), AllocError>
    ensures { OnOk result (string_bytes text.new
        ≡ string_bytes text.old ++ headers.build_lines (builds_left list.entry)) }
{
    for build in list {
        push_build_id(text, &build)?;
    }
    Ok(())
}

// Appends the lines of the build ids, and returns whether they are refused.
fn push_build_ids(
    text: &mut String,
    found: Result<Option<BuildIds<'_, '_>>, BadFeature>,
) -> Result<bool, AllocError>
    ensures text { OnOk result (string_bytes text.new ≡ string_bytes text.old
        ++ headers.feature_lines (codes "build id") headers.build_lines
        (seen builds_left found.entry)) }
    ensures refused { IfOk result (λ refused. refused ≡ is_err (seen builds_left found.entry)) }
{
    match found {
        Ok(Some(list)) => push_builds(text, list)?,
        Ok(None) => {}
        Err(_) => {
            push_refused(text, "build id")?;
            return Ok(true);
        }
    }
    Ok(false)
}

// Appends the line of the times of samples, and returns whether they are refused.
fn push_sample_times(
    text: &mut String,
    found: Result<Option<SampleTimes>, BadFeature>,
) -> Result<bool, AllocError>
    ensures text { OnOk result (string_bytes text.new ≡ string_bytes text.old
        ++ headers.feature_lines (codes "sample times") headers.times_line found) }
    ensures refused { IfOk result (λ refused. refused ≡ is_err found) }
{
    match found {
        Ok(Some(times)) => write!(text, "# sample times : {} {}\n", times.first, times.last)?,
        Ok(None) => {}
        Err(_) => {
            push_refused(text, "sample times")?;
            return Ok(true);
        }
    }
    Ok(false)
}
