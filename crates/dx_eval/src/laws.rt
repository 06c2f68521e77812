// The laws of runs. The definitions alone carry them: no body computes anything.
ghost use Rattle.dx_eval.specs.Laws.{MadeOrPassed, MadeOrTooMany, RunsAgree, TablesOfMeaning};

/// Two runs of a script on the same rows have the same matches and the same facts.
pub fn runs_agree()
    ensures { RunsAgree }
{}

/// A script that makes something within a limit doesn't pass it.
pub fn made_or_too_many()
    ensures { MadeOrTooMany }
{}

/// What a script means is made within a limit, or the script passes it, with the fault that is told.
pub fn made_or_passed()
    ensures { MadeOrPassed }
{}

/// The match tables of a script are those of its meaning.
pub fn tables_of_meaning()
    ensures { TablesOfMeaning }
{}
