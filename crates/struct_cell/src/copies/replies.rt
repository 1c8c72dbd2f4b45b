//! Copies of a reply, whatever it replies to.
ghost use Rattle.std.specs.Prelude.{◌≡◌, IfOk};

use cf_types::{Listing, NoMemory};
use engine_api::Reply;
use std::alloc::Global;

/// Values of which a second one can be made, where there is memory for it.
pub trait TryClone: Sized {
    /// A second value, equal to the first.
    fn try_clone(&self, alloc: Global) -> Result<Self, NoMemory>
        ensures { IfOk result (λ copy. copy ≡ self.now) };
}

/// A second reply, equal to the first.
pub fn copy_reply<R: TryClone>(alloc: Global, reply: &Reply<R>) -> Result<Reply<R>, NoMemory>
    ensures { IfOk result (λ copy. copy ≡ reply.now) }
{
    match reply {
        Reply::Shell(answer) => Ok(Reply::Shell(*answer)),
        Reply::Content(answer) => Ok(Reply::Content(answer.try_clone(alloc)?)),
        Reply::Refused(refusal) => Ok(Reply::Refused(*refusal)),
    }
}

// A copy of a listing.
pub(crate) fn copy_listing<T: Copy>(
    alloc: Global,
    listing: &Listing<T>,
) -> Result<Listing<T>, NoMemory>
    ensures { IfOk result (λ copy. copy ≡ listing.now) }
{
    let items = Vec::from_slice(alloc, listing.items())?;
    Ok(Listing::from_vec(items))
}
