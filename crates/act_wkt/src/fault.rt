//! Why a text gives no shape.

ghost use Rattle.std.specs.Prelude.{◌≡◌};
ghost use Rattle.act_wkt.specs.Tokens.{miss};

use act_grid::NoMemory;
use std::alloc::{AllocError, AllocFailed};

/// What is wrong with a text.
#[derive(Clone, Copy, Debug, PartialEq, Eq)]
pub enum WktKind {
    /// The text doesn't begin with a word that is known. The place is that of its first token.
    Keyword,
    /// Points have more than two numbers, or a `Z`, `M` or `ZM` says so.
    Dimension,
    /// The text is a geometry of another type.
    OtherType,
    /// Neither `(` nor `EMPTY` stands where one of them is due.
    NoOpen,
    /// Neither `,` nor `)` stands where one of them is due.
    NoClose,
    /// No number stands where one is due. The place is where its bytes begin.
    Number,
    /// A number is out of range. The place is where it begins.
    Range,
    /// A ring has fewer than four points. The place is that of its `)`.
    TooFew,
    /// A ring's last point isn't its first one. The place is that of its `)`.
    NotClosed,
    /// Something stands behind the whole.
    Trailing,
    /// One more point is due where the text has 262,144.
    Vertices,
}

/// Why a text gives no shape.
#[derive(Clone, Copy, Debug, PartialEq, Eq)]
pub enum WktFault {
    /// The first fault of the text.
    At {
        kind: WktKind,
        /// The bytes before it.
        place: u32,
    },
    /// There was not memory enough.
    NoMemory,
}

/// A fault with the number of bytes from its place to the end of the text.
#[derive(Clone, Copy)]
pub(crate) struct Miss {
    pub(crate) kind: WktKind,
    pub(crate) left: usize,
}

/// Why a reader stops.
#[derive(Clone, Copy)]
pub(crate) enum Stop {
    At(Miss),
    NoMemory,
}

impl Stop {
    /// The fault at the front of this rest of the text.
    pub(crate) fn at(kind: WktKind, rest: &[u8]) -> Stop
        ensures { result ≡ Stop.At (miss kind rest.now) }
    {
        Stop::At(Miss {
            kind,
            left: rest.len(),
        })
    }
}

impl<T: Drop> From<AllocFailed<T>> for Stop {
    ghost use Rattle.act_wkt.specs.declared.fault.Stop.TheVariants.{NoMemory};

    ghost from_gives = { λ _ e. e ≡ NoMemory };

    fn from(_: AllocFailed<T>) -> Self {
        Stop::NoMemory
    }
}
