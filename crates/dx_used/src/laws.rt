// The laws of used columns. The definitions alone carry them: no body computes anything.
ghost use Rattle.dx_used.specs.Laws.{SamePassing, SameRows, SameSolutions, SameTargets, SameUniversal};

/// Instances that agree on the columns that rules use have the same rows of each rule.
pub fn same_rows_if_they_agree()
    ensures { SameRows }
{}

/// Such instances are satisfied by the same targets; they have the same solutions, and the same universal ones.
pub fn same_solutions_if_they_agree()
    ensures targets { SameTargets }
    ensures solutions { SameSolutions }
    ensures universal { SameUniversal }
{}

/// Of instances that agree on the columns that are read, the rows that pass agree too, whatever the tests are.
pub fn passing_rows_agree()
    ensures { SamePassing }
{}
