// The laws of given files. The definitions alone carry them: no body computes anything.
ghost use Rattle.clio_given.specs.Laws.{GivenFits, GivenOrRefused, OneGiven};

/// Files say one given target, an instance of the schema, or are refused for one reason, and never both.
pub fn given_is_read_or_refused()
    ensures given { OneGiven }
    ensures refused { GivenOrRefused }
    ensures fits { GivenFits }
{}
