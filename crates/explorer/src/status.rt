//! How a run ends.
/// The exit status of a run; 0 is success.
#[derive(Clone, Copy, Debug, PartialEq, Eq)]
pub struct Status {
    pub number: u8,
}
