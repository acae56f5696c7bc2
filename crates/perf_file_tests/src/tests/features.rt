//! The features of a file: what is read of them, and what a bad one refuses.

use crate::tests::checks::{Told, check_str, check_told};
use crate::tests::files::{BIG, SMALL, WORDS, big, little};
use perf_file::{BadFeature, EscapedBytes, Feature, Recording};
use std::alloc::{AllocError, Global};
use std::process::Abort;

// How many numbers the small file has with features.
const ALL: usize = WORDS + 33;

// Of the small file the table of the features 2, 3, 4, 11, 21 and 130, and these. They begin at 520.
const FEATURES: [u64; 33] = [
    520,
    88,
    608,
    16,
    624,
    8,
    632,
    32,
    664,
    16,
    680,
    8,
    // a build id: a header of a record of 48 bytes of a program, with bit 15 of `misc`
    (0x8002 << 32) + (48 << 48),
    // process 7, 20 bytes from 1 on, how many of them count, and `/bin/ls`
    7 + (0x0403_0201 << 32),
    0x0c0b_0a09_0807_0605,
    0x1413_1211_100f_0e0d,
    18 + (0x6e69_622f << 32),
    0x0073_6c2f,
    // one of the kernel's, of 40 bytes, without the bit: `[k]`
    (1 << 32) + (40 << 48),
    0xffff_ffff + (0xaaaa_aaaa << 32),
    0xaaaa_aaaa_aaaa_aaaa,
    0xaaaa_aaaa_aaaa_aaaa,
    3 + (0x005d_6b5b << 32),
    // the name of the machine: 12 bytes, `host` and zeros
    12 + (0x7473_6f68 << 32),
    0,
    // the release: `6.18`, without a zero
    4 + (0x3831_2e36 << 32),
    // three words: `perf`, none, and `a b`
    3 + (8 << 32),
    0x6672_6570,
    4,
    4 + (0x0062_2061 << 32),
    // the times of the first and the last sample
    500,
    1000,
    // the feature 130
    0x0102,
];

// The small file with features, of which one number is another.
fn with_features(alloc: Global, place: usize, number: u64) -> Result<Vec<u8>, AllocError> {
    let features = (1 << 2) + (1 << 3) + (1 << 4) + (1 << 11) + (1 << 21);
    let changes = [(9, features), (11, 1 << 2), (place, number)];
    little(alloc, &SMALL, &FEATURES, &changes)
}

// Appends why a feature cannot be read.
fn push_bad(text: &mut String, error: BadFeature) -> Result<(), AllocError> {
    match error {
        BadFeature::PastEnd => text.push_str("past the end"),
        BadFeature::Short => text.push_str("short"),
    }
}

fn push_bytes(
    text: &mut String,
    found: Result<Option<&[u8]>, BadFeature>,
) -> Result<(), AllocError> {
    match found {
        Ok(Some(bytes)) => write!(text, "{}", EscapedBytes(bytes))?,
        Ok(None) => text.push_str("-")?,
        Err(error) => push_bad(text, error)?,
    }
    text.push_str("\n")
}

fn push_words(text: &mut String, recording: &Recording<'_>) -> Result<(), AllocError> {
    match recording.command_line() {
        Ok(Some(words)) => {
            for word in words {
                write!(text, "[{}]", EscapedBytes(word))?;
            }
        }
        Ok(None) => text.push_str("-")?,
        Err(error) => push_bad(text, error)?,
    }
    text.push_str("\n")
}

/// Appends the build ids of a file.
pub fn write_builds(text: &mut String, recording: &Recording<'_>) -> Result<(), AllocError> {
    match recording.build_ids() {
        Ok(Some(builds)) => {
            for build in builds {
                write!(text, "{} {} {} ", build.misc, build.pid, build.id.len())?;
                for byte in build.id {
                    write!(text, "{byte:02x}")?;
                }
                write!(text, " {};", EscapedBytes(build.filename))?;
            }
        }
        Ok(None) => text.push_str("-")?,
        Err(error) => push_bad(text, error)?,
    }
    text.push_str("\n")
}

fn push_times(text: &mut String, recording: &Recording<'_>) -> Result<(), AllocError> {
    match recording.sample_times() {
        Ok(Some(times)) => write!(text, "{} {}", times.first, times.last)?,
        Ok(None) => text.push_str("-")?,
        Err(error) => push_bad(text, error)?,
    }
    text.push_str("\n")
}

/// Writes a line for each call.
pub fn write_features(text: &mut String, recording: &Recording<'_>) -> Result<(), AllocError> {
    push_bytes(text, recording.hostname())?;
    push_bytes(text, recording.os_release())?;
    push_words(text, recording)?;
    write_builds(text, recording)?;
    push_times(text, recording)?;
    push_bytes(text, recording.feature(Feature(130)))?;
    push_bytes(text, recording.feature(Feature::ARCH))
}

// The text of lines.
fn text_of(alloc: Global, lines: &[&str; 7]) -> Result<String, AllocError> {
    let mut text = String::new(alloc);
    for line in lines {
        write!(text, "{line}\n")?;
    }
    Ok(text)
}

fn check_features(
    rt: &(impl AllocGlobal + Abort),
    bytes: Result<Vec<u8>, AllocError>,
    want: &[&str; 7],
) {
    match text_of(rt.alloc(), want) {
        Ok(want) => check_told(rt, bytes, Told::Features, &want),
        Err(_) => panic!(rt; "no memory"),
    }
}

const HOST: &str = "host";

const RELEASE: &str = "6.18";

const COMMAND: &str = "[perf][][a b]";

const BUILDS: &str =
    "32770 7 18 0102030405060708090a0b0c0d0e0f101112 /bin/ls;1 4294967295 20 aaaaaaaaaaaaaaaaaaaaaaaaaaaaaaaaaaaaaaaa [k];";

const TIMES: &str = "500 1000";

const OTHER: &str = "\\x02\\x01\\x00\\x00\\x00\\x00\\x00\\x00";

const NONE: &str = "-";

const PAST: &str = "past the end";

const SHORT: &str = "short";

#[test]
fn features_of_a_file(rt: HostRuntime) {
    let want = [HOST, RELEASE, COMMAND, BUILDS, TIMES, OTHER, NONE];
    check_features(&rt, with_features(rt.alloc(), ALL, 0), &want);
}

// Which number is another, and what is read then.
const LIES: [(usize, u64, [&str; 7]); 16] = [
    // perf was killed
    (6, 0, [NONE, NONE, NONE, NONE, NONE, NONE, NONE]),
    // without the features 2 and 3 the release is at the first place, where a length of 0 is, and the last
    // feature at the second one
    (9, 1 << 4, [NONE, "", NONE, NONE, NONE, HOST_PART, NONE]),
    // the table ends beyond the file
    (
        10,
        u64::MAX,
        [HOST, RELEASE, COMMAND, BUILDS, TIMES, PAST, NONE],
    ),
    // the name of the machine ends beyond the file
    (
        WORDS + 2,
        1 << 20,
        [PAST, RELEASE, COMMAND, BUILDS, TIMES, OTHER, NONE],
    ),
    (
        WORDS + 3,
        u64::MAX,
        [PAST, RELEASE, COMMAND, BUILDS, TIMES, OTHER, NONE],
    ),
    // it has fewer bytes than its length states, or no length
    (
        WORDS + 3,
        15,
        [SHORT, RELEASE, COMMAND, BUILDS, TIMES, OTHER, NONE],
    ),
    (
        WORDS + 3,
        3,
        [SHORT, RELEASE, COMMAND, BUILDS, TIMES, OTHER, NONE],
    ),
    // the length of the release
    (
        WORDS + 25,
        0xffff_ffff,
        [HOST, SHORT, COMMAND, BUILDS, TIMES, OTHER, NONE],
    ),
    // how many words there are
    (
        WORDS + 26,
        4 + (8 << 32),
        [HOST, RELEASE, SHORT, BUILDS, TIMES, OTHER, NONE],
    ),
    (
        WORDS + 26,
        0xffff_ffff + (8 << 32),
        [HOST, RELEASE, SHORT, BUILDS, TIMES, OTHER, NONE],
    ),
    (
        WORDS + 26,
        1 + (8 << 32),
        [HOST, RELEASE, "[perf]", BUILDS, TIMES, OTHER, NONE],
    ),
    // the size of the first build id
    (
        WORDS + 12,
        (0x8002 << 32) + (35 << 48),
        [HOST, RELEASE, COMMAND, SHORT, TIMES, OTHER, NONE],
    ),
    // the bytes of all of them
    (
        WORDS + 1,
        87,
        [HOST, RELEASE, COMMAND, SHORT, TIMES, OTHER, NONE],
    ),
    (
        WORDS + 1,
        0,
        [HOST, RELEASE, COMMAND, "", TIMES, OTHER, NONE],
    ),
    // how many bytes of the first one count
    (
        WORDS + 16,
        255 + (0x6e69_622f << 32),
        [HOST, RELEASE, COMMAND, LONG_BUILD, TIMES, OTHER, NONE],
    ),
    // one time
    (
        WORDS + 9,
        8,
        [HOST, RELEASE, COMMAND, BUILDS, SHORT, OTHER, NONE],
    ),
];

// What the feature 130 is then: the name of the machine, with its length.
const HOST_PART: &str = "\\x0c\\x00\\x00\\x00host\\x00\\x00\\x00\\x00\\x00\\x00\\x00\\x00";

const LONG_BUILD: &str =
    "32770 7 20 0102030405060708090a0b0c0d0e0f1011121314 /bin/ls;1 4294967295 20 aaaaaaaaaaaaaaaaaaaaaaaaaaaaaaaaaaaaaaaa [k];";

#[test]
fn a_bad_feature_refuses_its_own_call_alone(rt: HostRuntime) {
    for (place, number, want) in &LIES {
        check_features(&rt, with_features(rt.alloc(), *place, *number), want);
    }
}

// Of a big-endian file the features 3 and 21. They begin at 256.
const BIG_FEATURES: [u64; 7] = [
    256,
    8,
    264,
    16,
    // `host`
    (4 << 32) + 0x686f_7374,
    600,
    700,
];

#[test]
fn features_of_a_big_endian_file(rt: HostRuntime) {
    let bytes = big(
        rt.alloc(),
        &BIG,
        &BIG_FEATURES,
        &[(9, (1 << 3) + (1 << 21))],
    );
    let want = [HOST, NONE, NONE, NONE, "600 700", NONE, NONE];
    check_features(&rt, bytes, &want);
}

#[test]
fn messages_of_features(rt: HostRuntime) {
    check_str(
        &rt,
        BadFeature::Short.message(),
        "the feature is damaged: copy the file again, or record again",
    );
    check_str(
        &rt,
        BadFeature::PastEnd.message(),
        "the feature ends beyond the file, so it is cut off: copy it again, or record again",
    );
}
