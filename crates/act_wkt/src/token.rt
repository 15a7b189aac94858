//! Blanks, words and numbers of a text.

ghost use Rattle.std.specs.Prelude.{◌≡◌, ◌≤◌, ◌<◌, length};
ghost use Rattle.act_wkt.specs.Tokens.{begins, behind, front_of, is_in, is_word, run_of, skip};

/// A class of bytes.
#[derive(Clone, Copy)]
pub(crate) enum Class {
    Blank,
    Letter,
    Number,
}

/// Whether the byte is of the class.
fn is_of(class: Class, byte: u8) -> bool
    ensures { result ≡ is_in class byte }
{
    match class {
        Class::Blank => byte == b' ' || byte == b'\t' || byte == b'\n' || byte == b'\r',
        Class::Letter => byte.is_ascii_alphabetic(),
        Class::Number => {
            byte.is_ascii_digit()
                || byte == b'+'
                || byte == b'-'
                || byte == b'.'
                || byte == b'e'
                || byte == b'E'
        }
    }
}

/// How many bytes of the class stand first.
#[tactic(auto, using(crate::proofs::Runs::run_more, crate::proofs::Runs::run_none))]
fn run_len(class: Class, text: &[u8]) -> usize
    ensures value { result ≡ run_of class text.now }
    ensures within { result ≤ length text.now }
{
    for (i, byte) in text.iter().enumerate() {
        if !is_of(class, *byte) {
            return i;
        }
    }
    text.len()
}

/// The bytes of the class that stand first, and the text behind them.
pub(crate) fn split_run(class: Class, text: &[u8]) -> (&[u8], &[u8])
    ensures front { result.0.now ≡ front_of class text.now }
    ensures rest { result.1.now ≡ behind class text.now }
{
    let end = run_len(class, text);
    text.split_at(end)
}

/// The text from its next token on.
#[tactic(auto, unfolding(crate::specs::Tokens::skip))]
pub(crate) fn skipped(text: &[u8]) -> &[u8]
    ensures { result.now ≡ skip text.now }
{
    let end = run_len(Class::Blank, text);
    &text[end..]
}

/// Whether the byte stands first.
pub(crate) fn is_first(text: &[u8], byte: u8) -> bool
    requires { 0 < byte }
    ensures { result ≡ begins text.now byte }
{
    !text.is_empty() && text[0] == byte
}

/// Whether the word is this one, in whichever case its letters are.
pub(crate) fn is_the_word(word: &[u8], name: &[u8]) -> bool
    ensures { result ≡ is_word word.now name.now }
{
    word.eq_ignore_ascii_case(name)
}
