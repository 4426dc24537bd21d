ghost use Rattle.mcs_merge.specs.laws.Calls.{TakesMerged, TakesPrefix};
ghost use Rattle.mcs_merge.specs.laws.Steps.{AddsMerged, BeginsMerged, EndsMerged, PoursAll, PoursMerged};

/// Law of mergers, step by step. At the start, and after rows are added, two lists together are the
/// merge of all added rows before the minimum clock: the rows given so far, and the rows that all
/// clocks have passed. Once all clocks have passed each row, the given rows and the rest are the
/// merge of all rows.
pub fn steps_are_merged()
    ensures begins { BeginsMerged }
    ensures adds { AddsMerged }
    ensures ends { EndsMerged }
{}

/// Law of mergers: if all clocks have passed a moment, giving the rows before it appends them to
/// those taken so far. If the moment is the minimum clock, the rows taken are then the merge of all
/// rows before it.
pub fn pours_are_merged()
    ensures pours { PoursMerged }
    ensures all { PoursAll }
{}

/// Law of mergers, for every list of calls: the rows given so far and then those that all clocks
/// have passed are the merge of all rows added before the minimum clock. For any later calls, the
/// merge of all rows begins with the rows given so far.
pub fn calls_are_merged()
    ensures so_far { TakesMerged }
    ensures prefix { TakesPrefix }
{}
