use crate::conn_sets::ConnSet;

/// The state of a defined connection (IXLCONN). A connection that is gone has none.
#[derive(Clone, Copy)]
pub enum ConnState {
    /// The connector uses the structure; with `keep` its connection stays when it fails.
    Active { keep: bool },
    /// The connector departed, and these have not answered yet; with `keep` it will be failed, else
    /// gone.
    Leaving { keep: bool, awaits: ConnSet },
    /// The connector failed; its connection waits to be taken up again, or to be forced away.
    Failed,
}
