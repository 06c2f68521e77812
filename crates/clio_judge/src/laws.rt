// The laws of verdicts. The definitions alone carry them: no body computes anything.
ghost use Rattle.clio_judge.specs.Laws.{VerdictOrRefusal, VerdictsAreSo};

/// There is a verdict on the given files, or one reason to refuse it, and never both; and it is so.
pub fn a_verdict_or_a_refusal()
    ensures decided { VerdictOrRefusal }
    ensures so { VerdictsAreSo }
{}
