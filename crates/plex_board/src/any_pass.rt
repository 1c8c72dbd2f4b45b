//! The passes of a structure of whatever type.
ghost use Rattle.std.specs.Prelude.{◌≡◌, ◌<◌, ◌≤◌, ◌++◌, ◌∷◌, [], IfSome, IfNone, length};
ghost use Rattle.plex_board.specs.Passes.{pass_shown, passes_shown, type_of_passes, room_of};

use plex_script::api::{Ask, Reply};
use plex_script::types::{
    AlterCmd, AlterReply, CacheCmd, CacheReply, LockCmd, LockReply, QueueCmd, QueueReply,
};
use struct_cell::vectors::Pass;

/// A caller's pass to a structure. It may go to another thread.
#[derive(Drop)]
pub enum AnyPass {
    Cache(Pass<(Ask<AlterCmd<CacheCmd>>, Reply<AlterReply<CacheReply>>)>),
    List(Pass<(Ask<QueueCmd>, Reply<QueueReply>)>),
    Lock(Pass<(Ask<LockCmd>, Reply<LockReply>)>),
}

impl AnyPass {
    /// The greatest number of a call that the pass has seen complete. It is at most the number that
    /// the pass knows.
    pub fn sure(&self) -> u32
        ensures sure { result ≡ (pass_shown self.now).sure }
        ensures ordered { result ≤ (pass_shown self.now).known }
    {
        match self {
            AnyPass::Cache(pass) => pass.sure(),
            AnyPass::List(pass) => pass.sure(),
            AnyPass::Lock(pass) => pass.sure(),
        }
    }
}

/// Passes of one structure.
#[derive(Drop)]
pub enum AnyPasses {
    Cache(Vec<Pass<(Ask<AlterCmd<CacheCmd>>, Reply<AlterReply<CacheReply>>)>>),
    List(Vec<Pass<(Ask<QueueCmd>, Reply<QueueReply>)>>),
    Lock(Vec<Pass<(Ask<LockCmd>, Reply<LockReply>)>>),
}

impl AnyPasses {
    /// Takes the last pass out, if there is one. The room stays.
    pub fn pop(&mut self) -> Option<AnyPass>
        ensures some { IfSome result (λ pass. passes_shown self.old
            ≡ passes_shown self.new ++ pass_shown pass ∷ []) }
        ensures none { IfNone result ((passes_shown self.old ≡ [])
            × (passes_shown self.new ≡ [])) }
        ensures str_type { type_of_passes self.new ≡ type_of_passes self.old }
        ensures room { room_of self.new ≡ room_of self.old }
    {
        match self {
            AnyPasses::Cache(passes) => Some(AnyPass::Cache(passes.pop()?)),
            AnyPasses::List(passes) => Some(AnyPass::List(passes.pop()?)),
            AnyPasses::Lock(passes) => Some(AnyPass::Lock(passes.pop()?)),
        }
    }

    /// Puts a pass of the structure behind the others, where there is room. It takes no memory.
    pub fn put(&mut self, pass: AnyPass)
        requires str_type { (pass_shown pass).str_type ≡ type_of_passes self.old }
        requires room { length (passes_shown self.old) < room_of self.old }
        ensures passes { passes_shown self.new ≡ passes_shown self.old ++ pass_shown pass ∷ [] }
        ensures str_type { type_of_passes self.new ≡ type_of_passes self.old }
        ensures room { room_of self.new ≡ room_of self.old }
    {
        match (self, pass) {
            (AnyPasses::Cache(passes), AnyPass::Cache(pass)) => passes.push_reserved(pass),
            (AnyPasses::List(passes), AnyPass::List(pass)) => passes.push_reserved(pass),
            (AnyPasses::Lock(passes), AnyPass::Lock(pass)) => passes.push_reserved(pass),
            _ => unreachable!(),
        }
    }
}
