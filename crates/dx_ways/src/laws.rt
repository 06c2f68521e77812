// The laws of ways. The definitions alone carry them: the bodies compute nothing.
ghost use Rattle.dx_ways.specs.Laws.{OnePickList, WaysAre, WaysAscend, WaysGrow};

/// A pick is in the list of ways exactly if some line, an occurrence of its target table, and a choice of an
/// occurrence for each table that its source names give it.
pub fn ways_are()
    ensures { WaysAre }
{}

/// The list of ways strictly ascends.
pub fn ways_ascend()
    ensures { WaysAscend }
{}

/// Two strictly ascending lists of picks that have the same members are one.
pub fn one_ascending()
    ensures { OnePickList }
{}

/// More occurrences have the same ways, and maybe more.
pub fn ways_grow()
    ensures { WaysGrow }
{}
