//! A pair of engines that are counted, without a machine.
ghost use Rattle.std.specs.Prelude.{◌≡◌, IfOk, is_some, true};

use super::{A, FIRST, SECOND, form_of, links_of, live};
use crate::counted::Counted;
use crate::tokens::{Share, Token};
use engine_api::Engine;
use engine_api::types::{Effects, NoMemory};
use std::alloc::Global;
use std::sync::Arc;
use std::test::Fail;
use struct_machine::links::ListLink;
use struct_machine::pairs::Pair;

// Two instances with nothing in them.
fn two_of(alloc: Global) -> Result<Pair<Counted, ListLink>, NoMemory>
    ensures { IfOk result (λ pair. is_some pair.primary ≡ true) }
{
    let form = form_of(alloc)?;
    let engine = Counted::empty(alloc, &form, form.caps)?;
    let second = engine.copy(alloc)?;
    let links = links_of(alloc, &[], &[])?;
    let mut pair = Pair::one(alloc, engine, FIRST, links);
    pair.add(second, SECOND);
    Ok(pair)
}

// Whether a number is stored in both.
fn stores(
    pair: &mut Pair<Counted, ListLink>,
    share: &Option<Share>,
    out: &mut Effects,
) -> Result<bool, NoMemory>
    requires { is_some pair.old.primary ≡ true }
    ensures { is_some pair.new.primary ≡ true }
{
    let token = Token::new(7, share)?;
    pair.ready(A, &token, out)?;
    Ok(pair.apply(A, &token, out).is_ok())
}

// The first number, where there is one.
fn first_of(alloc: Global, pair: &Pair<Counted, ListLink>) -> Result<Option<u32>, NoMemory>
    requires { is_some pair.now.primary ≡ true }
{
    if pair.count() == 0 {
        return Ok(None);
    }
    let token = pair.item(alloc, 0)?;
    Ok(Some(token.number))
}

// What is first once registrations have ended.
fn forgets(
    alloc: Global,
    pair: &mut Pair<Counted, ListLink>,
    out: &mut Effects,
) -> Result<Option<u32>, NoMemory>
    requires { is_some pair.old.primary ≡ true }
{
    pair.forget_ready(out)?;
    pair.forget(out);
    first_of(alloc, pair)
}

// Whether a pair keeps its number where registrations end, and both engines.
fn keeps_its_number(
    alloc: Global,
    pair: &mut Pair<Counted, ListLink>,
    share: &Option<Share>,
    out: &mut Effects,
) -> Result<bool, NoMemory>
    requires { is_some pair.old.primary ≡ true }
{
    let stored = stores(pair, share, out)? && live(share) == 2;
    let first = forgets(alloc, pair, out)?;
    Ok(stored && first == Some(7) && live(share) == 2)
}

// The same of two instances with nothing in them, which go then.
fn keeps_numbers(alloc: Global, share: &Option<Share>) -> Result<bool, NoMemory> {
    let mut pair = two_of(alloc)?;
    keeps_its_number(alloc, &mut pair, share, &mut Effects::new(alloc))
}

#[test]
fn pair_that_forgets_keeps_its_numbers(rt: HostRuntime) -> Result<(), Fail> {
    let share = Some(Arc::new(rt.alloc(), 0)?);
    let kept = keeps_numbers(rt.alloc(), &share)?;
    assert!(rt; kept && live(&share) == 0);
    Ok(())
}
