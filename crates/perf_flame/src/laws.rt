//! Laws of folded stacks and flame graphs. A law is the contract of a call; at run time the call does
//! nothing.

ghost use Rattle.perf_flame.specs.Laws as laws;

/// Lines that are added one after another have a line for each stack that was added, once and in the
/// order of the stacks. Its count is the sum of the counts that were added for it, modulo 2^64.
pub fn sums_law()
    ensures sums { laws.LinesAreSums }
    ensures order { laws.LinesAscend }
{}

/// Lines may be added in any order, and be added up before: folded stacks that are merged are the same
/// in any order and grouping.
pub fn merging_law()
    ensures order { laws.OrderIsFree }
    ensures grouping { laws.GroupingIsFree }
{}

/// All counts add up: the sum of the lines is that of the counts that were added, modulo 2^64.
pub fn total_law()
    ensures { laws.TotalIsKept }
{}

/// In a flame graph the box of a beginning is inside that of each beginning of it, also as drawn, in
/// thousandths of a pixel.
pub fn inside_law()
    ensures counts { laws.ChildIsInside }
    ensures drawn { laws.ChildIsDrawnInside }
{}

/// The boxes of two beginnings, of which neither begins with the other, do not overlap, also as drawn.
pub fn apart_law()
    ensures counts { laws.OthersAreApart }
    ensures drawn { laws.OthersAreDrawnApart }
{}

/// In a text as XML writes it no `<`, `>` or `"` is left, and each `&` begins one of four entities.
pub fn escaped_law()
    ensures { laws.EscapedOpensNothing }
{}
