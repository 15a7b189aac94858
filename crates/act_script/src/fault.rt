//! Why a line gives no item.

use act_wkt::WktKind;

/// The first fault of a line.
#[derive(Clone, Copy, Debug, PartialEq, Eq)]
pub enum LineFault {
    /// The first field is no kind of record.
    Kind,
    /// The kind has another number of fields, a quote isn't closed, or a carriage return stands within the line.
    Fields,
    /// The key is no number from 0 to 2^32-1.
    Key,
    /// The id of the point is no number from 0 to 2^64-1.
    PointId,
    /// The threshold is no number from 1 to 2^32-1.
    Threshold,
    /// A coordinate is no number.
    Number,
    /// A coordinate is out of range.
    Range,
    /// The text of the shape has this fault, at this byte of the field.
    Wkt { kind: WktKind, place: u32 },
    /// The set is neither `*` nor numbers of layers.
    Layers,
    /// There was not memory enough.
    NoMemory,
}
