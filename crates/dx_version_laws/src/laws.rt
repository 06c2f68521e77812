// The laws of the earlier versions. The definitions alone carry them: no body computes anything.
ghost use Rattle.dx_version_laws.specs.Laws.{EarlierHaveKeysAlone, FirstVersionIsPlain};

/// A text of version 1 says no condition, and no table of its source or its target has an optional link or a dependency.
pub fn first_version_is_plain()
    ensures { FirstVersionIsPlain }
{}

/// No table of the source or the target of a text of version 1 or 2 has a dependency.
pub fn earlier_versions_have_keys_alone()
    ensures { EarlierHaveKeysAlone }
{}
