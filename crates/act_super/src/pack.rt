//! Lists in list rows.

ghost use Rattle.std.specs.Prelude.{◌≡◌, ◌<◌, ◌≤◌, ◌^◌};
ghost use Rattle.act_super.specs.Packs.{empty_pack, put_leaf};

/// The words of a row.
const ROW_WORDS: u64 = 256;

/// How far the lists of a node fill its list rows: the rows so far, and the words that are taken in the last one.
#[derive(Clone, Copy, Debug, PartialEq, Eq)]
pub(crate) struct Pack {
    pub rows: u64,
    pub at: u64,
}

impl Pack {
    /// No list row yet.
    pub fn empty() -> Pack
        ensures { result ≡ empty_pack }
    {
        Pack {
            rows: 0,
            at: ROW_WORDS,
        }
    }

    /// Puts the list of a leaf with so many references, where it has one.
    pub fn put_leaf(&mut self, references: usize)
        requires rows { self.old.rows < 2 ^ 32 }
        requires at { self.old.at ≤ 2 ^ 32 }
        requires few { references ≤ 2 ^ 32 }
        ensures put { self.new ≡ put_leaf self.old references }
        ensures at { self.new.at ≤ 2 ^ 32 }
    {
        if references < 3 {
            return;
        }
        let words = 1 + (references as u64 + 1) / 2;
        if ROW_WORDS < self.at + words {
            self.rows += 1;
            self.at = words;
        } else {
            self.at += words;
        }
    }
}
