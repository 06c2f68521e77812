// The laws of accepted mappings. The definitions alone carry them: no body computes anything.
ghost use Rattle.clio_accept.specs.Laws.{AcceptedFits, AcceptedNamesAreFree, AcceptedOrRefused, OneAcceptedMapping};

/// A text is accepted with one mapping or refused for one reason, and never both.
pub fn a_text_is_accepted_or_refused()
    ensures mapping { OneAcceptedMapping }
    ensures refused { AcceptedOrRefused }
{}

/// An accepted mapping has two schemas, and conditions and rules that fit them.
pub fn an_accepted_mapping_fits()
    ensures { AcceptedFits }
{}

/// No target set of an accepted mapping is named `nulls` or `fold`, as files of clio's own are.
pub fn accepted_names_are_free()
    ensures { AcceptedNamesAreFree }
{}
