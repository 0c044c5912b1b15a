//! What formats of log files are.
/// A format of log files, which the layer above chooses.
#[derive(Clone, Copy, Debug, PartialEq, Eq)]
pub struct Format {
    /// The number in the file's header.
    pub number: u32,
    /// The most bytes that a payload has.
    pub most: u32,
}
