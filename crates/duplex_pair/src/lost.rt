use cf_types::CfId;

/// Whose links answered that the instance is lost: the facility of the primary, and that of the
/// secondary.
#[derive(Clone, Copy, PartialEq, Eq)]
pub struct Lost {
    pub first: Option<CfId>,
    pub second: Option<CfId>,
}
