//! The engines that a board of the program runs.
use cache_core::CacheEngine;
use cf_alter::Altered;
use list_queues::QueueEngine;
use lock_core::LockEngine;
use plex_board::Kinds;
use std::marker::PhantomData;

/// The engines of the program, one for each type of structure: a cache whose capacity can be
/// altered, a list with event queues for sublists, and a lock structure. The parameter plays no
/// part: the kit takes an engine round another one in no impl without parameters.
pub struct EnginesFor<T>(PhantomData<T>);

/// The engines of the program.
pub type Engines = EnginesFor<()>;

impl<T> Kinds for EnginesFor<T> {
    ghost use Rattle.plex_board.specs.LockModel.Meaning.{lock_meaning};
    ghost use Rattle.plex_board.specs.QueueModel.ListQueues.{queued_lists};
    ghost use Rattle.plex_board.specs.RunShown.Meanings.{altered_caches};
    ghost use Rattle.plex_board.specs.Means.{means_itself};

    type Cache = Altered<CacheEngine>;

    type List = QueueEngine;

    type Lock = LockEngine;

    ghost cache_kind = { λ kind is. is };

    ghost list_kind = { λ kind is. is };

    ghost lock_kind = { λ kind is. is };

    ghost cache_means = { means_itself altered_caches };

    ghost list_means = { means_itself queued_lists };

    ghost lock_means = { means_itself lock_meaning };
}

/// A board that runs them.
pub type Board<L> = plex_board::Board<Engines, L>;
