//! Translating through the lenses that keep nothing: identity, bijection and disconnection.

ghost use Rattle.std.specs.Prelude.{◌≡◌, IsTrue, MatchResult, MatchOption, IfOk, Some, None};
ghost use Rattle.edit_module.specs.Views.{primitive_tree, word_tree};
ghost use Rattle.edit_module.specs.Words.{no_primitives};
ghost use Rattle.lens_forms.specs.Forms.{form_tree};
ghost use Rattle.lens_core.specs.Complements.{nil};
ghost use Rattle.lens_core.specs.Emitted.{one};
ghost use Rattle.lens_core.specs.Leaves.{is_leaf};
ghost use Rattle.lens_core.specs.Sides.{near, far};
ghost use Rattle.lens_core.specs.Translation.{at_nil, partner, set_partner, translate_one, carried_tree, IsCarryFault};

use crate::carry::{Carried, CarryFault};
use crate::comp::Comp;
use edit_module::word::Primitive;
use edit_module::{Atom, Word};
use lens_forms::Form;
use program_terms::Pairs;
use std::alloc::{AllocError, Global};
use texts::{Name, Side, Str, Twin};

/// Translates one primitive of a side by an identity, a bijection or a disconnection, at the complement Nil.
///
/// An identity passes on the primitive, a bijection sets the partner of a member, a disconnection translates to the
/// empty word.
///
/// - `Unfit`: if and only if the translation has no value.
/// - `NoMemory`: only if memory ran out.
pub fn leaf_step(
    alloc: Global,
    form: &Form,
    side: Side,
    primitive: &Primitive,
) -> Result<Carried, CarryFault>
    requires { IsTrue (is_leaf (form_tree form.now)) }
    ensures { MatchResult result
        (λ r. translate_one (form_tree form.now) side nil (primitive_tree primitive.now) ≡ Some (carried_tree r))
        (IsCarryFault (translate_one (form_tree form.now) side nil (primitive_tree primitive.now))) }
{
    match form {
        Form::Id(_) => Ok(of_one(alloc, primitive.twin(alloc)?)?),
        Form::Disc(_, _) => Ok(of_none(alloc)),
        Form::Bij(pairs, _) => set_partner(alloc, pairs, side, primitive),
        _ => unreachable!(),
    }
}

// A word of one primitive, at Nil.
#[tactic(auto, using(crate::proofs::LeafSteps::word_rules))]
fn of_one(alloc: Global, primitive: Primitive) -> Result<Carried, AllocError>
    ensures { IfOk result (λ r. carried_tree r ≡ (one (primitive_tree primitive), nil)) }
{
    let word = Word::from_vec(vec![in alloc; primitive]?);
    Ok(Carried {
        word,
        comp: Comp::Nil,
    })
}

// The empty word, at Nil.
fn of_none(alloc: Global) -> Carried
    ensures { carried_tree result ≡ (no_primitives, nil) }
{
    Carried {
        word: Word::from_vec(Vec::new(alloc)),
        comp: Comp::Nil,
    }
}

// Set of a near member gives Set of its partner.
fn set_partner(
    alloc: Global,
    pairs: &Pairs,
    side: Side,
    primitive: &Primitive,
) -> Result<Carried, CarryFault>
    ensures { MatchResult result
        (λ r. at_nil nil (set_partner side pairs.now (primitive_tree primitive.now)) ≡ Some (carried_tree r))
        (IsCarryFault (at_nil nil (set_partner side pairs.now (primitive_tree primitive.now)))) }
{
    let Primitive::Set(Atom::Letters(member)) = primitive else {
        return Err(CarryFault::Unfit);
    };
    let Some(partner) = partner_of(pairs, side, member) else {
        return Err(CarryFault::Unfit);
    };
    let letters = Str::from_string(String::from_str(alloc, partner.as_str())?);
    Ok(of_one(alloc, Primitive::Set(Atom::Letters(letters)))?)
}

// The partner of a member of the edited side, in the first pair that has the member.
#[tactic(auto, using(crate::proofs::LeafSteps::partner_rules))]
fn partner_of<'a>(pairs: &'a Pairs, side: Side, member: &Str) -> Option<&'a Name>
    ensures { MatchOption result
        (partner side pairs.now member.now ≡ None)
        (λ name. partner side pairs.now member.now ≡ Some name.now) }
{
    for pair in pairs.as_slice() {
        let (near, far) = ends(side, pair);
        if near.as_str() == member.as_str() {
            return Some(far);
        }
    }
    None
}

// The member of the edited side and that of the other.
fn ends(side: Side, pair: &(Name, Name)) -> (&Name, &Name)
    ensures near_is { result.0.now ≡ near side pair.now.0 pair.now.1 }
    ensures far_is { result.1.now ≡ far side pair.now.0 pair.now.1 }
{
    match side {
        Side::Left => (&pair.0, &pair.1),
        Side::Right => (&pair.1, &pair.0),
    }
}
