use cf_types::{Name16, Pref, StrForm, StrNo};

/// What a line of the policy declares.
#[derive(Drop)]
pub enum Declaration {
    /// A facility and its units.
    Facility(Pref),
    /// A structure, with no facility set aside yet.
    Structure(StrForm),
    /// Units of a facility that are set aside for a structure.
    Pref { on: StrNo, pref: Pref },
    /// A connector.
    Connector(Name16),
}
