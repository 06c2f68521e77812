// Worked examples of what the program reads, says and puts. The definitions alone carry them: no body computes anything.
ghost use Rattle.dx_worked.specs.Answered.{TwoArePlanned, TwoAreSaid};
ghost use Rattle.dx_worked.specs.Exchanged.{CoreScriptIsPlanned, CoreScriptIsWritten, DocumentIsPlanned, DocumentIsWritten};
ghost use Rattle.dx_worked.specs.Judged.{RuleIsMissed, TargetSetIsNamed, TargetSetIsSaid};
ghost use Rattle.dx_worked.specs.Reading.{NamedAreRead};

/// Of three employees, one of whom has no name, `only emp.name filled;` lets exactly the two others be read.
pub fn a_condition_leaves_out_a_row()
    ensures { NamedAreRead }
{}

/// A given target without the telephone that a rule asks for is no solution, and a rule is the reason.
pub fn a_target_is_judged_by_rules()
    ensures { RuleIsMissed }
{}

/// If a key of the target doesn't hold, the line of the verdict names the target's set, whatever the source calls its own.
pub fn a_verdict_names_a_target_set()
    ensures planned { TargetSetIsNamed }
    ensures said { TargetSetIsSaid }
{}

/// Of two answers one file is put, and it is said with their number.
pub fn two_answers_are_counted()
    ensures planned { TwoArePlanned }
    ensures said { TwoAreSaid }
{}

/// In core mode the script that is put leaves out the persons that another rule makes with their telephone.
pub fn core_mode_has_its_own_script()
    ensures planned { CoreScriptIsPlanned }
    ensures written { CoreScriptIsWritten }
{}

/// With `nested` a document of units with their staff is put after the tables, and without it there is none.
pub fn nested_puts_a_document()
    ensures planned { DocumentIsPlanned }
    ensures written { DocumentIsWritten }
{}
