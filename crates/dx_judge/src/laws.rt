// The laws of verdicts. The definitions alone carry them: no body computes anything.
ghost use Rattle.dx_judge.specs.Laws.{EachHasVerdict, JudgedOrLimit, NoClash, VerdictByMatches, VerdictByMembers, VerdictsAreOne, VerdictsSay};

/// Each instance of the target's schema has a verdict, and no two of different kinds; within a limit it is judged, or the canonical
/// cells pass the limit, and never both.
pub fn each_has_one_verdict()
    ensures each { EachHasVerdict }
    ensures one { VerdictsAreOne }
    ensures limit { JudgedOrLimit }
{}

/// What a verdict says is so.
pub fn verdicts_say()
    ensures { VerdictsSay }
{}

/// What counts of an instance that is judged are its members, and of source rows the rows of the rules on them.
pub fn members_are_judged()
    ensures members { VerdictByMembers }
    ensures matches { VerdictByMatches }
{}

/// If there is a solution, some instance in which keys hold receives the canonical instance.
pub fn solutions_are_received()
    ensures { NoClash }
{}
