//! The bounds of a batch, and the journal's formats.
use record_log::Format;

/// The most texts of a batch.
pub(crate) const TEXTS_LIMIT: usize = 512;

/// The most bytes of a text.
pub(crate) const TEXT_LIMIT: usize = 65_536;

/// The format of a log of batches. The longest payload has a label of 64 bytes and 512 texts of
/// 65,536.
pub(crate) const BATCH_FORMAT: Format = Format {
    number: 2,
    most: 33_556_547,
};

/// The first format of a log of batches, which have no label.
pub(crate) const FIRST_FORMAT: Format = Format {
    number: 1,
    most: 33_556_482,
};
