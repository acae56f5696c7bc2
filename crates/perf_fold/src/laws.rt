//! Laws of texts that are added up. A law is the contract of a call; at run time the call does nothing.

ghost use Rattle.perf_fold.specs.Laws as laws;

/// Texts have the same sums in any order: two runs of texts that follow each other may be exchanged,
/// wherever they are. And runs of texts may be added up before: the sums of all are the sums of those.
pub fn texts_law()
    ensures order { laws.OrderIsFree }
    ensures grouping { laws.GroupingIsFree }
{}
