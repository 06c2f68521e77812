// What conversions and row tests mean.

/// What conversions and row tests mean.
pub trait Meaning {
    ghost use Rattle.std.specs.Prelude.{ℕ, List, Bool, false};

    /// The text that a code makes of texts.
    ghost apply: { ℕ → List (List ℕ) → List ℕ };

    /// Whether a text passes the row test of a code. No text passes, unless it is said.
    ghost passes: { ℕ → List ℕ → Bool } = { λ _ _. false };
}
