//! Words by how they begin.

ghost use Rattle.std.specs.Prelude.{◌≡◌, ◌≤◌, length};
ghost use Rattle.clap.specs.Lexer.{has_byte};
ghost use Rattle.act_words.specs.Words.{kind_of};

/// What a word is where an option may begin.
#[derive(Clone, Copy, Debug, PartialEq, Eq)]
pub enum WordKind {
    /// It begins no option.
    Plain,
    /// `--name`: the next word is its value.
    Name,
    /// `--name=value`.
    Whole,
}

/// Whether some byte is `=`.
fn has_equals(bytes: &[u8]) -> bool
    ensures { result ≡ has_byte 61 bytes.now }
{
    bytes.iter().any(|b| *b == b'=')
}

/// What the word is where an option may begin.
pub fn kind_of(word: &[u8]) -> WordKind
    ensures { result ≡ kind_of word.now }
{
    if word.len() < 3 {
        return WordKind::Plain;
    }
    if word[0] != b'-' {
        return WordKind::Plain;
    }
    if word[1] != b'-' {
        return WordKind::Plain;
    }
    if has_equals(&word[2..]) {
        WordKind::Whole
    } else {
        WordKind::Name
    }
}
