// The laws of what is shown. The definitions alone carry them: the body computes nothing.
ghost use Rattle.clio_terminal.specs.Laws.{HarmlessStays, ShownIsHarmless};

/// What is shown has no character that can do more than to be seen, and a text that has none is shown as it is.
pub fn shown_is_harmless()
    ensures harmless { ShownIsHarmless }
    ensures same { HarmlessStays }
{}
