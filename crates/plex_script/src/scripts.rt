use cf_types::{
    AlterCmd, CacheCmd, ConnId, Listing, LockCmd, Name16, Pref, QueueCmd, StrForm, StrNo,
};
use engine_api::Ask;

/// A call of a structure of any kind.
#[derive(Drop)]
pub enum AnyAsk {
    Cache(Ask<AlterCmd<CacheCmd>>),
    List(Ask<QueueCmd>),
    Lock(Ask<LockCmd>),
}

/// What a line of a script does.
#[derive(Drop)]
pub enum Act {
    /// Calls the structure.
    Call(AnyAsk),
    /// Tests the bit at this index, from 0, of the connector's own vector (IXLVECTR).
    Test(u32),
    /// Tests the 32 bits of this word, from 0, of the connector's own vector (IXLVECTR).
    TestWord(u32),
    /// Shows how much of the structure's history the connector is sure of, to who takes it.
    Post,
    /// Takes what was posted last.
    Take,
    /// Is given the events that wait, and answers those that are to be answered.
    Events,
}

/// A line of a script that does something.
#[derive(Drop)]
pub struct Line {
    /// The number of the line in the text, from 1; it stands still at the greatest of 32 bits.
    pub at: u32,
    /// Who does it: the operator or a connector.
    pub by: ConnId,
    /// The structure.
    pub on: StrNo,
    pub act: Act,
    /// How many times a call is asked again while a rebuild holds it up, 0 to 1,000.
    pub retry: u32,
}

/// A script: the policy in the order in which it is declared, and the lines that do something.
pub struct Script {
    /// The facilities and their units.
    pub facilities: Listing<Pref>,
    pub structures: Listing<StrForm>,
    pub connectors: Listing<Name16>,
    pub lines: Listing<Line>,
}

impl Drop for Script {
    fn drop(self) {
        let Script {
            facilities: _,
            structures: _,
            connectors: _,
            lines: _,
        } = self;
    }
}
