//! Laws of words, each the contract of a function that does nothing.

ghost use Rattle.std.specs.Prelude.{◌≡◌, ℕ, ◌<◌, ◌^◌, Option, Some};
ghost use Rattle.act_entry.specs.declared.reference.Ref.{Ref};
ghost use Rattle.act_entry.specs.declared.entry.Entry.{Entry};
ghost use Rattle.act_entry.specs.Entries.{IsEntry, entry_of, entry_word};
ghost use Rattle.act_entry.specs.Lists.{IsPair, pair_of, pair_word};

/// The word of an entry tells it, and a word that tells an entry is that entry's word.
pub fn entries_are_told_back()
    ensures encoded { (e : Entry) → IsEntry e → entry_of (entry_word e) ≡ Some e }
    ensures decoded { (word : ℕ) (e : Entry) → word < 2 ^ 64 → entry_of word ≡ Some e → IsEntry e × (entry_word e ≡ word) }
{}

/// The word of references tells them, and a word that tells references is theirs.
pub fn lists_are_told_back()
    ensures packed { (a : Ref) (b : Option Ref) → IsPair a b → pair_of (pair_word a b) ≡ Some (a, b) }
    ensures unpacked { (word : ℕ) (a : Ref) (b : Option Ref) → pair_of word ≡ Some (a, b) → IsPair a b × (pair_word a b ≡ word) }
{}
