//! A case of the list.

use crate::asks::{text_after_attribute, text_of_calls};
use crate::perfrec;
use anyhow::{Context, Result, bail};
use perf_event_data::endian::Dynamic;
use perf_event_data::sys::perf_event_attr;
use perf_test_helpers::everywhere::add_other;
use perf_test_helpers::sample_bytes::{Part, frames, put_parts};
use perf_test_runs::perfrec::Perfrec;
use perf_test_runs::{runs_everywhere, text_of_records};
use perf_test_texts::reasons::reasons;
use std::alloc::{AllocError, Global};

/// What the lines of a case have set so far.
#[derive(Drop)]
pub struct Case<'a> {
    name: &'a str,
    alloc: Global,
    attr: perf_event_attr,
    // The bytes, in little endian and in big endian.
    little: Vec<u8>,
    big: Vec<u8>,
    // Whether the next bytes replace those so far.
    is_complete: bool,
    // The byte order of the parser.
    order: Dynamic,
    // How it is asked, and for what.
    how: &'a str,
    request: &'a str,
    // The lines of a longer result so far.
    lines: String,
}

impl<'a> Case<'a> {
    pub fn new(alloc: Global, name: &'a str) -> Self {
        Case {
            name,
            alloc,
            attr: perf_event_attr::default(),
            little: Vec::new(alloc),
            big: Vec::new(alloc),
            is_complete: false,
            order: Dynamic::Little,
            how: "",
            request: "",
            lines: String::new(alloc),
        }
    }

    /// Begins another case, in which nothing is set yet.
    pub fn begin(&mut self, name: &'a str) {
        self.name = name;
        self.attr = perf_event_attr::default();
        self.little.clear();
        self.big.clear();
        self.is_complete = false;
        self.order = Dynamic::Little;
        self.how = "";
        self.request = "";
        self.lines.clear();
    }

    pub fn name(&self) -> &'a str {
        self.name
    }

    /// Sets what a line specifies.
    pub fn set(&mut self, word: &'a str, rest: &'a str) -> Result<()> {
        match word {
            "under" => set_attribute(&mut self.attr, rest)?,
            "big" => self.order = Dynamic::Big,
            "little" => self.order = Dynamic::Little,
            "run" | "after" | "ask" | "shown" | "sample" | "perfrec" | "refused" => {
                self.how = word;
                self.request = rest;
            }
            ">" | "~" => write!(self.lines, "{rest}; ")?,
            _ => self.append(word, rest)?,
        }
        Ok(())
    }

    /// The expected result: the lines before, and the rest.
    pub fn expectation(&mut self, rest: &str) -> Result<String, AllocError> {
        let want = format!(in self.alloc; "{}{rest}", self.lines)?;
        self.lines.clear();
        Ok(want)
    }

    fn append(&mut self, word: &str, rest: &str) -> Result<()> {
        if self.is_complete {
            self.little.clear();
            self.big.clear();
            self.is_complete = false;
        }
        for item in rest.split(' ') {
            self.append_item(word, item)?;
        }
        Ok(())
    }

    fn append_item(&mut self, word: &str, item: &str) -> Result<()> {
        if word == "bytes" {
            return self.append_digits(item);
        }
        let number = number(item)?;
        if word == "zeros" {
            self.append_zeros(number)?;
        } else {
            self.append_part(part(word, number)?)?;
        }
        Ok(())
    }

    // Appends bytes that are written as pairs of digits.
    fn append_digits(&mut self, digits: &str) -> Result<()> {
        for pair in digits.as_bytes().chunks(2) {
            let byte = byte_of(pair)?;
            self.append_part(Part::Bytes(&[byte]))?;
        }
        Ok(())
    }

    fn append_zeros(&mut self, count: u64) -> Result<(), AllocError> {
        for _ in 0..count {
            self.append_part(Part::Bytes(&[0]))?;
        }
        Ok(())
    }

    fn append_part(&mut self, part: Part<'_>) -> Result<(), AllocError> {
        put_parts(&mut self.little, false, &[part])?;
        put_parts(&mut self.big, true, &[part])
    }

    /// The actual result.
    pub fn actual_text(&mut self) -> Result<String> {
        self.is_complete = true;
        match self.how {
            "ask" => self.text_of_requests(),
            "run" => self.text_of_runs(),
            "after" => self.text_after_attribute(),
            "shown" => Ok(text_of_records(self.alloc, &self.little)?),
            "sample" => self.text_of_sample(),
            "perfrec" => perfrec::text_of(self.alloc, self.request, &self.little),
            "refused" => self.text_of_reasons(),
            _ => bail!("nothing is asked in {}", self.name),
        }
    }

    fn text_of_requests(&self) -> Result<String> {
        let bytes = self.bytes(self.order);
        Ok(text_of_calls(self.alloc, bytes, self.order, &self.attr, self.request)?)
    }

    fn text_after_attribute(&self) -> Result<String> {
        let limits = self.limits()?;
        Ok(text_after_attribute(self.alloc, &self.little, &limits)?)
    }

    fn text_of_reasons(&self) -> Result<String> {
        Ok(reasons(self.alloc, self.request, &self.attr, &self.little)?)
    }

    fn limits(&self) -> Result<Vec<usize>> {
        let mut limits = Vec::new(self.alloc);
        for limit in self.request.split(' ') {
            limits.push(limit.parse::<usize>()?)?;
        }
        Ok(limits)
    }

    fn text_of_runs(&self) -> Result<String> {
        let limits = self.limits()?;
        Ok(runs_everywhere(
            self.alloc,
            &Perfrec,
            &self.little,
            Dynamic::Little,
            &self.attr,
            &limits,
        )?)
    }

    // The result in one order, and that in the other one if it differs.
    fn text_of_sample(&self) -> Result<String> {
        let mut text = self.text_in_order(Dynamic::Little)?;
        let other = self.text_in_order(Dynamic::Big)?;
        if other.as_str() != text.as_str() {
            write!(text, " but {other}")?;
        }
        Ok(text)
    }

    // The bytes in a byte order.
    fn bytes(&self, order: Dynamic) -> &[u8] {
        match order {
            Dynamic::Big => &self.big,
            Dynamic::Little => &self.little,
        }
    }

    fn text_in_order(&self, order: Dynamic) -> Result<String> {
        let body = self.bytes(order);
        let frame = frames(self.alloc, order == Dynamic::Big, body)?;
        self.text_of_body(order, body, &frame)
    }

    // The result of a body: the sample, or the kind of its error; how many bytes are left after a
    // sample, if not as many as there should be, or if buffers differ in that; and the result of
    // its frame and the next one, if that differs from the body's.
    fn text_of_body(&self, order: Dynamic, body: &[u8], frame: &[u8]) -> Result<String> {
        let request = text_of_calls(self.alloc, body, order, &self.attr, "Sample left")?;
        let (sample, left) = request.as_str().split_once("; ").context("one answer")?;
        let mut text = String::from_str(self.alloc, sample)?;
        self.write_left(&mut text, sample, left)?;
        let size = body.len().saturating_add(8);
        self.write_frame(&mut text, sample, size, order, frame)?;
        Ok(text)
    }

    fn write_left(&self, text: &mut String, sample: &str, left: &str) -> Result<(), AllocError> {
        let is_other = sample.starts_with("Sample") && left != self.request;
        if is_other || left.contains(' ') {
            write!(text, ", {left} left")
        } else {
            Ok(())
        }
    }

    fn write_frame(
        &self,
        text: &mut String,
        sample: &str,
        size: usize,
        order: Dynamic,
        frame: &[u8],
    ) -> Result<(), AllocError> {
        let want = format!(in self.alloc;
            "0 9 2 {size} {sample}; 1 13 0 16 LostSamples lost=5; done"
        )?;
        let actual = runs_everywhere(self.alloc, &Perfrec, frame, order, &self.attr, &[10])?;
        add_other(text, actual.as_str(), want.as_str())
    }
}

fn part(word: &str, number: u64) -> Result<Part<'static>> {
    match word {
        "u16" => Ok(Part::U16(u16::try_from(number)?)),
        "u32" => Ok(Part::U32(u32::try_from(number)?)),
        "u64" => Ok(Part::U64(number)),
        _ => bail!("what is {word}?"),
    }
}

// A byte, in two hexadecimal digits.
fn byte_of(digits: &[u8]) -> Result<u8> {
    Ok(u8::from_str_radix(str::from_utf8(digits)?, 16)?)
}

// A number, in hexadecimal digits after 0x.
fn number(word: &str) -> Result<u64> {
    match word.strip_prefix("0x") {
        Some(digits) => Ok(u64::from_str_radix(digits, 16)?),
        None => Ok(word.parse()?),
    }
}

// Sets an attribute to the one with these fields.
fn set_attribute(attr: &mut perf_event_attr, fields: &str) -> Result<()> {
    *attr = perf_event_attr::default();
    for field in fields.split(' ') {
        let (name, value) = field.split_once('=').context("a field without a value")?;
        set_field(attr, name, number(value)?)?;
    }
    Ok(())
}

fn set_field(attr: &mut perf_event_attr, name: &str, value: u64) -> Result<()> {
    match name {
        "sample_type" => attr.sample_type = value,
        "read_format" => attr.read_format = value,
        "flags" => attr.flags = value,
        "branch_sample_type" => attr.branch_sample_type = value,
        "sample_regs_user" => attr.sample_regs_user = value,
        "sample_regs_intr" => attr.sample_regs_intr = value,
        _ => bail!("what is {name}?"),
    }
    Ok(())
}
