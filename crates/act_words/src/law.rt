//! What the definition of the words reads, by a grammar.

ghost use Rattle.act_words.specs.Spelling.{ReadsWhatIsSpelled};

/// The options that words are read as are those that spell them, and no others do.
pub fn reads_what_is_spelled()
    ensures { ReadsWhatIsSpelled }
{}
