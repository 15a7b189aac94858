//! What the caller says of versions.
ghost use Rattle.std.specs.Prelude.{ℕ, List, []};
ghost use Rattle.act_rows.specs.declared.views.Snapshot.{Snapshot};

use std::marker::Brand;

/// Which history, root and image may stand together. The rule says of each version that a reader
/// may hold that they do. Its member is for contracts alone.
pub trait Fact {
    ghost fact: { List (List ℕ) → ℕ → Snapshot → Type 0 };
}

/// What a publication adds. Its members are for contracts alone, and the caller picks them for the
/// call, by `Brand`.
pub trait Added {
    // The new entry of the history.
    ghost entry: { List ℕ };

    // The rows of the new image.
    ghost rows: { List ℕ };

    // The keys of the new image, each with its first row.
    ghost firsts: { List (ℕ × ℕ) };
}

impl Added for Brand {
    ghost entry = { [] };

    ghost rows = { [] };

    ghost firsts = { [] };
}
