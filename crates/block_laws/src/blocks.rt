ghost use Rattle.std.specs.Prelude.{◌≡◌, ◌↔◌, ◌<◌, ◌≤◌, ◌++◌, ℕ, Bool, List, [], length};
ghost use Rattle.cf_types.specs.declared.numbers.ConnId.{ConnId};
ghost use Rattle.engine_api.specs.declared.histories.Entry.{Entry};
ghost use Rattle.engine_api.specs.Answers.{read_all};
ghost use Rattle.engine_api.specs.History.{IsLegal, Tells, stands_after};
ghost use Rattle.block_laws.specs.Blocks.{AreFit, EndsBlock, TellsNow};

use cf_types::StrForm;
use engine_api::{Engine, History};

/// Entries behind a legal history make it a longer legal one exactly where each fits behind those
/// before it, and no mark is left at the end.
pub fn block_decides<E: Engine>(form: &StrForm, history: &History<E::Cmd, E::Reply>)
    requires { IsLegal E.meaning form.now history.now }
    ensures { (block : List (Entry E.Cmd E.Reply))
        → IsLegal E.meaning form.now (history.now ++ block)
        ↔ (AreFit E.meaning form.now history.now block
        × ((read_all E.meaning form.now (history.now ++ block)).marks ≡ [])) }
{
    let _ = form;
    let _ = history;
}

/// A legal history is legal up to the end of each of its blocks.
pub fn whole_blocks<E: Engine>(form: &StrForm, history: &History<E::Cmd, E::Reply>)
    requires { (read_all E.meaning form.now history.now).marks ≡ [] }
    ensures { (more : List (Entry E.Cmd E.Reply))
        → IsLegal E.meaning form.now (history.now ++ more)
        → IsLegal E.meaning form.now history.now }
{
    let _ = form;
    let _ = history;
}

/// A test that shows the number of the last call of a history tells what stands there, or, where
/// that call wasn't seen complete, what stood before its block.
pub fn tells_at_the_end<E: Engine>(form: &StrForm, history: &History<E::Cmd, E::Reply>)
    requires { IsLegal E.meaning form.now history.now }
    ensures { (block : List (Entry E.Cmd E.Reply)) (sure : ℕ) (conn : ConnId) (index : ℕ)
        (bit : Bool) → IsLegal E.meaning form.now (history.now ++ block) → EndsBlock block
        → Tells E.meaning form.now (history.now ++ block) (length (history.now ++ block)) sure
        conn index bit ↔ TellsNow E.meaning form.now history.now block sure conn index bit }
{
    let _ = form;
    let _ = history;
}

/// Whatever comes behind a legal history changes nothing of a test that shows a number up to its
/// end.
pub fn tells_whatever_comes<E: Engine>(form: &StrForm, history: &History<E::Cmd, E::Reply>)
    requires { IsLegal E.meaning form.now history.now }
    ensures { (more : List (Entry E.Cmd E.Reply)) (at sure : ℕ) (conn : ConnId) (index : ℕ)
        (bit : Bool) → IsLegal E.meaning form.now (history.now ++ more)
        → at ≤ length history.now
        → Tells E.meaning form.now history.now at sure conn index bit
        ↔ Tells E.meaning form.now (history.now ++ more) at sure conn index bit }
{
    let _ = form;
    let _ = history;
}

/// A test that shows a mark's number, or one past the end, tells nothing.
pub fn never_tells<E: Engine>(form: &StrForm, history: &History<E::Cmd, E::Reply>)
    requires { IsLegal E.meaning form.now history.now }
    ensures marks { (block : List (Entry E.Cmd E.Reply)) (at sure : ℕ) (conn : ConnId)
        (index : ℕ) (bit : Bool) → IsLegal E.meaning form.now (history.now ++ block)
        → EndsBlock block → length history.now < at → at < length (history.now ++ block)
        → Tells E.meaning form.now (history.now ++ block) at sure conn index bit → ⊥ }
    ensures past { (at sure : ℕ) (conn : ConnId) (index : ℕ) (bit : Bool)
        → length history.now < at
        → Tells E.meaning form.now history.now at sure conn index bit → ⊥ }
{
    let _ = form;
    let _ = history;
}

/// A test that shows 0 tells what stood before the first call, to a connector that has seen none
/// complete.
pub fn starts_tell<E: Engine>(form: &StrForm, history: &History<E::Cmd, E::Reply>)
    ensures { (sure : ℕ) (conn : ConnId) (index : ℕ) (bit : Bool)
        → Tells E.meaning form.now history.now 0 sure conn index bit
        ↔ ((sure ≡ 0) × (bit ≡ stands_after E.meaning form.now [] conn index)) }
{
    let _ = form;
    let _ = history;
}
