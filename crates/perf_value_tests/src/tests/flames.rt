//! Folded stacks and flame graphs, computed by hand.

use crate::tests::checks::{check_bytes, check_debug};
use perf_flame::error::FoldedError;
use perf_flame::flame::flame;
use perf_flame::folded::Folded;
use perf_flame::laws::{apart_law, escaped_law, inside_law, merging_law, sums_law, total_law};
use perf_flame::reading::read_lines;
use perf_flame::stack::Stack;
use std::alloc::{AllocError, Global};
use std::process::Abort;

// Six lines of four stacks: a command `sh` alone and in two functions, one like it, and one whose name
// opens a tag.
const LINES: &[u8] =
    b"sh;main;read 3\nsh;main 4\n<b>;\"x\" 2\nsh;main;read 1\nsh2;main 10\nsh;main 0";

// The same stacks, once each, by their bytes.
const SUMS: &[u8] = b"<b>;\"x\" 2\nsh2;main 10\nsh;main 4\nsh;main;read 4\n";

// Their flame graph. All is 20: `<b>` has 2 of them, or 120 pixels, then `sh` has 8 and `sh2` 10.
const GRAPH: &[u8] =
    b"<svg xmlns=\"http://www.w3.org/2000/svg\" width=\"1200\" height=\"64\" viewBox=\"0 0 1200 64\" font-family=\"monospace\" font-size=\"12\">
<g><title>all (20, 100.00%)</title><rect x=\"0.000\" y=\"48\" width=\"1200.000\" height=\"15\" fill=\"rgb(254,154,55)\"/><text x=\"0.000\" y=\"48\" dx=\"2\" dy=\"12\">all</text></g>
<g><title>&lt;b&gt; (2, 10.00%)</title><rect x=\"0.000\" y=\"32\" width=\"120.000\" height=\"15\" fill=\"rgb(221,213,48)\"/><text x=\"0.000\" y=\"32\" dx=\"2\" dy=\"12\">&lt;b&gt;</text></g>
<g><title>&quot;x&quot; (2, 10.00%)</title><rect x=\"0.000\" y=\"16\" width=\"120.000\" height=\"15\" fill=\"rgb(225,185,52)\"/><text x=\"0.000\" y=\"16\" dx=\"2\" dy=\"12\">&quot;x&quot;</text></g>
<g><title>sh (8, 40.00%)</title><rect x=\"120.000\" y=\"32\" width=\"480.000\" height=\"15\" fill=\"rgb(215,63,53)\"/><text x=\"120.000\" y=\"32\" dx=\"2\" dy=\"12\">sh</text></g>
<g><title>main (8, 40.00%)</title><rect x=\"120.000\" y=\"16\" width=\"480.000\" height=\"15\" fill=\"rgb(241,72,44)\"/><text x=\"120.000\" y=\"16\" dx=\"2\" dy=\"12\">main</text></g>
<g><title>read (4, 20.00%)</title><rect x=\"360.000\" y=\"0\" width=\"240.000\" height=\"15\" fill=\"rgb(226,202,0)\"/><text x=\"360.000\" y=\"0\" dx=\"2\" dy=\"12\">read</text></g>
<g><title>sh2 (10, 50.00%)</title><rect x=\"600.000\" y=\"32\" width=\"600.000\" height=\"15\" fill=\"rgb(215,36,40)\"/><text x=\"600.000\" y=\"32\" dx=\"2\" dy=\"12\">sh2</text></g>
<g><title>main (10, 50.00%)</title><rect x=\"600.000\" y=\"16\" width=\"600.000\" height=\"15\" fill=\"rgb(241,72,44)\"/><text x=\"600.000\" y=\"16\" dx=\"2\" dy=\"12\">main</text></g>
</svg>
";

// The graph of the one stack `sh;read`, from the innermost function on.
const INVERTED: &[u8] =
    b"<svg xmlns=\"http://www.w3.org/2000/svg\" width=\"1200\" height=\"48\" viewBox=\"0 0 1200 48\" font-family=\"monospace\" font-size=\"12\">
<g><title>all (1, 100.00%)</title><rect x=\"0.000\" y=\"32\" width=\"1200.000\" height=\"15\" fill=\"rgb(254,154,55)\"/><text x=\"0.000\" y=\"32\" dx=\"2\" dy=\"12\">all</text></g>
<g><title>read (1, 100.00%)</title><rect x=\"0.000\" y=\"16\" width=\"1200.000\" height=\"15\" fill=\"rgb(226,202,0)\"/><text x=\"0.000\" y=\"16\" dx=\"2\" dy=\"12\">read</text></g>
<g><title>sh (1, 100.00%)</title><rect x=\"0.000\" y=\"0\" width=\"1200.000\" height=\"15\" fill=\"rgb(215,63,53)\"/><text x=\"0.000\" y=\"0\" dx=\"2\" dy=\"12\">sh</text></g>
</svg>
";

// A stack with a byte that is not ASCII, whose box is exactly 0.1 pixels wide: no label fits.
const NARROW: &[u8] =
    b"<svg xmlns=\"http://www.w3.org/2000/svg\" width=\"1200\" height=\"32\" viewBox=\"0 0 1200 32\" font-family=\"monospace\" font-size=\"12\">
<g><title>all (12000, 100.00%)</title><rect x=\"0.000\" y=\"16\" width=\"1200.000\" height=\"15\" fill=\"rgb(254,154,55)\"/><text x=\"0.000\" y=\"16\" dx=\"2\" dy=\"12\">all</text></g>
<g><title>sh (11999, 99.99%)</title><rect x=\"0.000\" y=\"0\" width=\"1199.900\" height=\"15\" fill=\"rgb(215,63,53)\"/><text x=\"0.000\" y=\"0\" dx=\"2\" dy=\"12\">sh</text></g>
<g><title>\\xe9 (1, 0.00%)</title><rect x=\"1199.900\" y=\"0\" width=\"0.100\" height=\"15\" fill=\"rgb(230,93,42)\"/></g>
</svg>
";

// Texts that are refused, each for its first bad line.
const BAD: [(&[u8], &str); 6] = [
    (b"sh", "Some(BadLine(1))"),
    (b"sh 1\n\n", "Some(BadLine(2))"),
    (b"sh +1\n", "Some(BadLine(1))"),
    (b"sh 1\nsh 1 \nsh 2", "Some(BadLine(2))"),
    (b"sh 18446744073709551616", "Some(BadLine(1))"),
    (b"sh 18446744073709551615\nsh x1", "Some(BadLine(2))"),
];

// Asserts bytes that need memory.
fn check_answer(rt: &impl Abort, answer: Option<Vec<u8>>, want: &[u8]) {
    match answer {
        Some(bytes) => check_bytes(rt, &bytes, want),
        None => panic!(rt; "no bytes"),
    }
}

fn folded(alloc: Global, text: &[u8]) -> Result<Folded, FoldedError> {
    let mut sums = Folded::new(alloc);
    match read_lines(&mut sums, text) {
        Ok(()) => Ok(sums),
        Err(error) => {
            drop(sums);
            Err(error)
        }
    }
}

fn drawn(alloc: Global, text: &[u8], inverted: bool) -> Option<Vec<u8>> {
    match folded(alloc, text) {
        Ok(sums) => {
            let graph = flame(alloc, &sums, inverted);
            drop(sums);
            graph.ok()
        }
        Err(_) => None,
    }
}

// Asserts the text of the sums of lines, and their total with why they are not drawn.
fn check_sums(rt: &(impl AllocGlobal + Abort), lines: &[u8], text: &[u8], want: &str) {
    match folded(rt.alloc(), lines) {
        Ok(sums) => {
            let graph = flame(rt.alloc(), &sums, false);
            check_answer(rt, sums.text().ok(), text);
            check_debug(rt, (sums.total(), graph.err()), want);
            drop(sums);
        }
        Err(_) => panic!(rt; "no sums"),
    }
}

#[test]
fn lines_are_summed(rt: HostRuntime) {
    check_sums(&rt, LINES, SUMS, "(Some(20), None)");
}

// Three lines whose counts wrap for one stack, and together.
const WRAPPING: &[u8] = b"sh 18446744073709551615\nsh 3\nls 18446744073709551615\n";

#[test]
fn counts_wrap(rt: HostRuntime) {
    let want = b"ls 18446744073709551615\nsh 2\n";
    check_sums(&rt, WRAPPING, want, "(None, Some(TooMany))");
}

#[test]
fn bad_lines_are_named(rt: HostRuntime) {
    for &(text, want) in &BAD {
        check_debug(&rt, folded(rt.alloc(), text).err(), want);
    }
}

#[test]
fn lines_before_a_bad_one_are_added(rt: HostRuntime) {
    let mut sums = Folded::new(rt.alloc());
    let fault = read_lines(&mut sums, b"sh 1\nsh\nsh 4\n").err();
    let text = sums.text();
    drop(sums);
    check_debug(&rt, fault, "Some(BadLine(2))");
    check_answer(&rt, text.ok(), b"sh 1\n");
}

// A command that replaces an earlier one, and three functions.
fn cleaned(stack: &mut Stack) -> Result<(), AllocError> {
    stack.start(b"a command")?;
    stack.start(b"s;h\x01")?;
    stack.push_frame(b"operator new(int)")?;
    stack.push_frame(b"")?;
    stack.push_frame(b"\x7f\xc3\xa9\n")
}

#[test]
fn stacks_are_cleaned(rt: HostRuntime) -> Result<(), AllocError> {
    let mut stack = Stack::new(rt.alloc());
    let is_cleaned = cleaned(&mut stack);
    check_bytes(&rt, stack.text(), b"s_h_;operator new(int);;_\xc3\xa9_");
    is_cleaned
}

#[test]
fn stacks_are_drawn(rt: HostRuntime) {
    check_answer(&rt, drawn(rt.alloc(), LINES, false), GRAPH);
    check_answer(&rt, drawn(rt.alloc(), b"sh;read 1", true), INVERTED);
}

// How many lines there are.
fn count_lines(graph: &[u8]) -> usize {
    let mut count = 0usize;
    for byte in graph {
        count = count.saturating_add(usize::from(*byte == b'\n'));
    }
    count
}

#[test]
fn narrow_boxes_are_left_out(rt: HostRuntime) {
    check_answer(&rt, drawn(rt.alloc(), b"sh 11999\n\xe9 1\n", false), NARROW);
    match drawn(rt.alloc(), b"sh 12000\n\xe9 1\n", false) {
        Some(graph) => check_debug(&rt, count_lines(&graph), "4"),
        None => panic!(rt; "no graph"),
    }
}

#[test]
fn laws_do_nothing() {
    sums_law();
    merging_law();
    total_law();
    inside_law();
    apart_law();
    escaped_law();
}
