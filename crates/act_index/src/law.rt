//! Laws of histories. Their function does nothing when it runs: what it ensures is the law.

ghost use Rattle.std.specs.Prelude.{◌≡◌, ℕ, ◌<◌, List, filter, length, take};
ghost use Rattle.act_grid.specs.declared.Settings.{Settings};
ghost use Rattle.act_super.specs.declared.entry.Entry.{Entry};
ghost use Rattle.act_super.specs.Histories.{is_update};
ghost use Rattle.act_rows.specs.History.{History, Begins};
ghost use Rattle.act_index.specs.Codes.{IsTold, updates_in};

/// A history of numbers is that of one list of entries, under one choice of settings where there is an entry. A
/// beginning of the history is that of a beginning of the list, and as many entries of it count as updates as of the
/// list.
pub fn histories_tell_entries()
    ensures one { (h : History) (k j : Settings) (es fs : List Entry) → IsTold h k es → IsTold h j fs → es ≡ fs }
    ensures settings { (h : History) (k j : Settings) (es fs : List Entry) → IsTold h k es → IsTold h j fs → 0 < length h → k ≡ j }
    ensures begins { (g h : History) (k : Settings) (es : List Entry) → Begins g h → IsTold h k es → IsTold g k (take (length g) es) }
    ensures updates { (h : History) (k : Settings) (es : List Entry) → IsTold h k es → updates_in h ≡ length (filter is_update es) }
{}
