//! What may hold a caller up round each line.
use cf_types::ConnId;

/// Is told of each line before and after it is done. A test lets threads wait for one another by
/// it; nothing else is to be done in it.
pub trait Gate: Sync {
    /// The caller is about to do the line with this number in the script's text.
    fn before(&self, who: ConnId, line: u32);

    /// The caller has done the line.
    fn after(&self, who: ConnId, line: u32);
}

/// A gate that holds nobody up.
#[derive(Clone, Copy, Debug, PartialEq, Eq)]
pub struct OpenGate;

impl Gate for OpenGate {
    fn before(&self, _who: ConnId, _line: u32) {}

    fn after(&self, _who: ConnId, _line: u32) {}
}
