//! The words that a text may begin with.

ghost use Rattle.std.specs.Prelude.{◌≡◌};
ghost use Rattle.act_wkt.specs.Wkt.{geometry_of, has_dimension, is_dimension, is_other_type};

use crate::fault::WktKind;
use crate::token::is_the_word;

/// What a text writes.
#[derive(Clone, Copy)]
pub(crate) enum Geometry {
    Polygon,
    Multi,
}

/// What the first word says that the text writes.
#[tactic(auto, unfolding(crate::specs::Wkt::geometry_of))]
pub(crate) fn named_geometry(word: &[u8]) -> Result<Geometry, WktKind>
    ensures { result ≡ geometry_of word.now }
{
    if is_the_word(word, b"POLYGON") {
        Ok(Geometry::Polygon)
    } else if is_the_word(word, b"MULTIPOLYGON") {
        Ok(Geometry::Multi)
    } else if names_dimension(word) {
        Err(WktKind::Dimension)
    } else if names_other_type(word) {
        Err(WktKind::OtherType)
    } else {
        Err(WktKind::Keyword)
    }
}

/// Whether the word says that points have more than two numbers.
#[tactic(auto, unfolding(crate::specs::Wkt::is_dimension))]
pub(crate) fn is_dimension_word(word: &[u8]) -> bool
    ensures { result ≡ is_dimension word.now }
{
    is_the_word(word, b"Z") || is_the_word(word, b"M") || is_the_word(word, b"ZM")
}

/// Whether the word is `POLYGON` or `MULTIPOLYGON` with such a word joined to it.
#[tactic(auto, unfolding(crate::specs::Wkt::has_dimension))]
fn names_dimension(word: &[u8]) -> bool
    ensures { result ≡ has_dimension word.now }
{
    is_the_word(word, b"POLYGONZ")
        || is_the_word(word, b"POLYGONM")
        || is_the_word(word, b"POLYGONZM")
        || is_the_word(word, b"MULTIPOLYGONZ")
        || is_the_word(word, b"MULTIPOLYGONM")
        || is_the_word(word, b"MULTIPOLYGONZM")
}

/// Whether the word names a geometry of another type.
#[tactic(auto, unfolding(crate::specs::Wkt::is_other_type))]
fn names_other_type(word: &[u8]) -> bool
    ensures { result ≡ is_other_type word.now }
{
    is_the_word(word, b"POINT")
        || is_the_word(word, b"LINESTRING")
        || is_the_word(word, b"MULTIPOINT")
        || is_the_word(word, b"MULTILINESTRING")
        || is_the_word(word, b"GEOMETRYCOLLECTION")
        || is_the_word(word, b"TRIANGLE")
        || is_the_word(word, b"TIN")
        || is_the_word(word, b"POLYHEDRALSURFACE")
}
