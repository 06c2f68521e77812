// The laws of scripts' texts. The definitions alone carry them: no body computes anything.
ghost use Rattle.dx_script_text.specs.Laws.{NeverScriptAndFault, OneScriptFault, OneScript, ScriptOrFault, StartsAreSpelled, TextsAreSpelled};

/// The texts of the grammar are the token lists that spell a script, and its starts are the fronts of these.
pub fn a_script_is_spelled()
    ensures spelled { TextsAreSpelled }
    ensures starts { StartsAreSpelled }
{}

/// A text says one script, or it has one first fault.
pub fn a_text_says_one_thing()
    ensures script { OneScript }
    ensures fault { OneScriptFault }
    ensures either { ScriptOrFault }
    ensures never_both { NeverScriptAndFault }
{}
