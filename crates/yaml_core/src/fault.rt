//! Why a scalar has no value by the core schema.
use thiserror::Error;

/// Why a scalar has no value.
#[derive(Clone, Copy, Debug, PartialEq, Eq, Error)]
pub enum CoreFault {
    /// The tag is one of a collection, seq or map.
    #[error("WrongKind")]
    WrongKind,
    /// The tag is null, bool, int or float, whose patterns do not match the text (YAML 1.2.2, 10.3.2).
    #[error("BadContent")]
    BadContent,
    /// The text is an int below -2^127 or above 2^127 - 1.
    #[error("IntRange")]
    IntRange,
    /// The text is a nonzero float whose exponent, with one digit before the point, is outside -1,000,000 to 1,000,000.
    #[error("FloatRange")]
    FloatRange,
    /// Memory was refused.
    #[error("OutOfMemory")]
    OutOfMemory,
}
