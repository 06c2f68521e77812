// The laws of answers. The definitions alone carry them: no body computes anything.
ghost use Rattle.clio_answer.specs.Laws.{AnswersAreCertain, AnswersOrRefusal};

/// There are answers to a query, or one reason to refuse them, and never both; and they are exactly the certain answers: those that
/// the query has on every solution.
pub fn answers_or_a_refusal()
    ensures decided { AnswersOrRefusal }
    ensures certain { AnswersAreCertain }
{}
