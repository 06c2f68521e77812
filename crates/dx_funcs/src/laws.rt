// Laws of conversions by their names and by their codes.
ghost use Rattle.dx_funcs.specs.Laws.{CallsByNameAreByCode, EachIsTold};

/// In a list without double names and codes, a name or a code tells which conversion it is.
pub fn names_and_codes_tell()
    ensures { EachIsTold }
{}

/// A call by the name of a listed code gives what a call by the code gives.
pub fn calls_by_name_are_by_code()
    ensures { CallsByNameAreByCode }
{}
