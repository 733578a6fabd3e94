//! The changes of a list of facts that the moves are made of.

ghost use Rattle.std.specs.Prelude.{◌≡◌, ◌≤◌, ◌++◌, [], ◌∷◌, not, map, OnOk, OnErr, vec_len};
ghost use Rattle.std.specs.Vec.{vec_capacity};
ghost use Rattle.std.specs.Bool.{OnTrue, OnFalse};
ghost use Rattle.std.specs.List.{filter};
ghost use Rattle.brc_model.specs.declared.fact.Fact.TheVariants.{Holds};
ghost use Rattle.brc_model.specs.Facts.{says_held, says_lives};
ghost use Rattle.brc_model.specs.Edits.{begun, ended, without_hold, replaced, handed_fact, is_about, test_hand};
ghost use Rattle.brc_model.specs.Edits.{test_hand_all, hand_all};

use crate::fact::{Fact, is_hold, is_life, is_outside};
use crate::holder::Holder;
use crate::moves::Handover;
use crate::reads::{has, may_hold};
use brc_words::Kind;
use std::alloc::{AllocError, Allocator};

fn is_about_cell(fact: &Fact, cell: u32) -> bool
    ensures { result ≡ is_about cell fact.now }
{
    match *fact {
        Fact::Lives { object, .. } | Fact::Holds { object, .. } => cell == object,
        Fact::Contains {
            cell: container,
            ..
        } => cell == container,
    }
}

fn clear<A: Allocator>(facts: &mut Vec<Fact, A>, cell: u32)
    ensures kept { facts.new.items ≡ filter (λ f. not (is_about cell f)) facts.old.items }
    ensures len { vec_len facts.new ≤ vec_len facts.old }
    ensures room { vec_capacity facts.new ≡ vec_capacity facts.old }
{
    facts.retain(|fact| !is_about_cell(fact, cell));
}

/// An object begins with one holder.
pub fn begin<A: Allocator>(
    facts: &mut Vec<Fact, A>,
    object: u32,
    kind: Kind,
    holder: Holder,
) -> Result<(), AllocError>
    ensures begun { OnOk result (facts.new.items ≡ begun facts.old.items object kind holder) }
    ensures unchanged { OnErr result (facts.new.items ≡ facts.old.items) }
{
    facts.reserve(2)?;
    clear(facts, object);
    facts.push_reserved(Fact::Lives { object, kind });
    facts.push_reserved(Fact::Holds { object, holder });
    Ok(())
}

/// The object has one more holder.
pub fn add<A: Allocator>(
    facts: &mut Vec<Fact, A>,
    object: u32,
    holder: Holder,
) -> Result<(), AllocError>
    ensures added { OnOk result (facts.new.items ≡ facts.old.items ++ Holds object holder ∷ []) }
    ensures unchanged { OnErr result (facts.new.items ≡ facts.old.items) }
{
    facts.reserve(1)?;
    facts.push_reserved(Fact::Holds { object, holder });
    Ok(())
}

/// The object no longer lives.
pub fn end<A: Allocator>(facts: &mut Vec<Fact, A>, object: u32)
    ensures { facts.new.items ≡ ended facts.old.items object }
{
    facts.retain(|fact| !is_life(fact, object));
}

/// The place no longer holds the object.
pub fn forget<A: Allocator>(facts: &mut Vec<Fact, A>, object: u32, holder: &Holder)
    ensures kept { facts.new.items ≡ without_hold facts.old.items object holder.now }
    ensures len { vec_len facts.new ≤ vec_len facts.old }
    ensures room { vec_capacity facts.new ≡ vec_capacity facts.old }
{
    facts.retain(|fact| !is_hold(fact, object, holder));
}

fn renamed(fact: Fact, object: u32, from: &Holder, to: Holder) -> Fact
    ensures { result ≡ replaced object from.now to fact }
{
    if is_hold(&fact, object, from) {
        Fact::Holds { object, holder: to }
    } else {
        fact
    }
}

fn replace(facts: &mut [Fact], object: u32, from: &Holder, to: Holder)
    ensures { facts.new ≡ map (replaced object from.now to) facts.old }
{
    for fact in facts.iter_mut() {
        *fact = renamed(*fact, object, from, to);
    }
}

fn may_be_handed(facts: &[Fact], handover: &Handover) -> bool
    ensures { result ≡ test_hand facts.now handover.now }
{
    is_outside(&handover.from)
        && has(facts, handover.object, &handover.from)
        && !has(facts, handover.object, &handover.to)
        && may_hold(facts, handover.object, &handover.to)
}

/// The references go from holder to holder one after the other, or all stay where they are.
fn hand_over(facts: &mut [Fact], list: &[Handover]) -> bool
    ensures tested { result ≡ test_hand_all facts.old list.now }
    ensures handed { OnTrue result (facts.new ≡ hand_all facts.old list.now) }
    ensures unchanged { OnFalse result (facts.new ≡ facts.old) }
{
    match list {
        [] => true,
        [first, rest @ ..] => {
            if !may_be_handed(facts, first) {
                return false;
            }
            replace(facts, first.object, &first.from, first.to);
            let handed = hand_over(facts, rest);
            if !handed {
                // The new holder was nobody's before, so what has it now is what had the old one.
                replace(facts, first.object, &first.to, first.from);
            }
            handed
        }
    }
}

/// The references go from holder to holder, or all stay; no fact is added, so no memory is asked for.
pub fn pass_on<A: Allocator>(facts: &mut Vec<Fact, A>, list: &[Handover]) -> bool
    ensures tested { result ≡ test_hand_all facts.old.items list.now }
    ensures handed { OnTrue result (facts.new.items ≡ hand_all facts.old.items list.now) }
    ensures unchanged { OnFalse result (facts.new.items ≡ facts.old.items) }
{
    hand_over(facts.as_mut_slice(), list)
}
