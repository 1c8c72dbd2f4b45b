//! What the reader saw of the page.
use plex_board::AnyReply;
use plex_board::api::Reply;
use plex_board::types::{AlterReply, CacheReply};
use plex_board::vectors::Tested;

/// What the reader saw: the reply to its READ, by the call's number, the number of a call that it
/// had seen complete before it tested, and its last test.
#[derive(Drop)]
pub struct Seen {
    pub no: u32,
    pub reply: Option<AnyReply>,
    pub sure: u32,
    pub tested: Tested,
}

impl Seen {
    /// A word for the reply.
    pub fn word(&self) -> &'static str {
        match &self.reply {
            Some(AnyReply::Cache(Reply::Content(AlterReply::Inner(reply)))) => match reply {
                CacheReply::NoData => "NODATA",
                CacheReply::Data { .. } => "DATA",
                _ => "OTHER",
            },
            Some(AnyReply::Cache(Reply::Refused(_))) => "REFUSED",
            Some(_) => "OTHER",
            None => "NONE",
        }
    }
}
