// The law of names. The definitions alone carry it: the body computes nothing.
ghost use Rattle.dx_line_text.specs.Laws.{NamesAlone, UnknownAlone};

/// What can be wrong with lines is a word that names nothing, and another number of arguments: nothing else. What can be
/// wrong with conditions is a word that names nothing.
pub fn names_alone_are_at_fault()
    ensures lines { NamesAlone }
    ensures conditions { UnknownAlone }
{}
