// The law of tokens. The definitions alone carry it: no body computes anything.
ghost use Rattle.std.specs.Prelude.{List, ℕ};
ghost use Rattle.dx_script_tokens.specs.Lexing.{FirstScriptFaultIsStop, ScriptFaultIsScanned, IsScriptTokensOrFault, ScriptTokensAreScanned};

/// The scan of a text has exactly the tokens that the text has, or those before its first fault, and that fault.
pub fn scan_is_of_the_text()
    ensures either { (text : List ℕ) → IsScriptTokensOrFault text }
    ensures tokens { (text : List ℕ) → ScriptTokensAreScanned text }
    ensures fault { (text : List ℕ) → ScriptFaultIsScanned text }
    ensures first { (text : List ℕ) → FirstScriptFaultIsStop text }
{}
