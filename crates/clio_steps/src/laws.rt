// The laws of the steps that commands share. The definitions alone carry them: no body computes anything.
ghost use Rattle.clio_steps.specs.Laws.{ExchangeOrRefusal, ExchangesAreInWorlds, OnceInWorlds, SolutionsHaveExchanges, SolvedOrNot};

/// There is an exchange of the files, or one reason to refuse it, and never both; it is that of an accepted mapping text and of the
/// source files; and what has a solution within the limits has an exchange.
pub fn an_exchange_or_a_refusal()
    ensures decided { ExchangeOrRefusal }
    ensures worlds { ExchangesAreInWorlds }
    ensures solutions { SolutionsHaveExchanges }
{}

/// What is accepted is an accepted mapping; and what is read too, within the limits, has a solution or none, and never both.
pub fn a_solution_or_none()
    ensures { SolvedOrNot }
{}

/// In a world there is at most one mapping text, one mapping of it and, under that, one list of rows; and exactly one list of matches.
pub fn each_step_comes_once()
    ensures { OnceInWorlds }
{}
