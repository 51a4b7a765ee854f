//! The missing complement of a form: the first one, which belongs to the initial documents.

ghost use Rattle.std.specs.Prelude.{◌≡◌, [], ◌∷◌, IfOk};
ghost use Rattle.hold_shapes.specs.declared.shape.Shape.TheVariants.{Tree as TreeOf};
ghost use Rattle.lens_core.specs.Complements.{comp_tree, comps_tree, hold_comp, more_comps, no_comps, missing};
ghost use Rattle.lens_core.specs.Complements.{missing_rows, missing_arm};
ghost use Rattle.lens_forms.specs.Forms.{form_tree, rows_tree, arms_tree};

use crate::comp::{Comp, Comps, then_join};
use hold_shapes::{DepthSeq, KeyedShape, ListShape, Shape, TreeShape};
use lens_forms::{Form, FormArms, FormRow, FormRows};
use shared_lists::SharedList;
use std::alloc::{AllocError, Global};
use tag_seq::TagSeq;
use texts::Twin;

/// The missing complement of a form, which belongs to the initial documents.
///
/// It is Nil for an identity, a bijection and a disconnection; those of both lenses for a composition; that of each
/// paired row for a record; that of the first arm for alternatives; an empty list and an empty keyed map; a tree of one
/// node with that of its lens; no tags for a partition; that of its lens for an inverse. Fails only if memory runs out.
/// See docs/MEANING.md.
#[cycle(missing)]
pub fn missing(alloc: Global, form: &Form) -> Result<Comp, AllocError>
    ensures { IfOk result (λ c. comp_tree c ≡ missing (form_tree form.now)) }
{
    match form {
        Form::Id(_) => Ok(Comp::Nil),
        Form::Bij(_, _) => Ok(Comp::Nil),
        Form::Disc(_, _) => Ok(Comp::Nil),
        Form::Then(first, second) => {
            let first = missing(alloc, first)?;
            then_join(alloc, first, missing(alloc, second)?)
        }
        Form::Rec(rows) => Ok(Comp::Rec(missing_rows(alloc, rows)?)),
        Form::Alt(arms) => missing_arm(alloc, arms),
        Form::Each(_) => Ok(Comp::Hold(Shape::List(ListShape { count: 0 }), Comps::empty())),
        Form::Keyed(_) => Ok(Comp::Hold(Shape::Keyed(no_keys()), Comps::empty())),
        Form::Tree(inner) => one_node(alloc, missing(alloc, inner)?),
        Form::Part(_) => Ok(Comp::Tags(TagSeq::new(alloc))),
        Form::Inv(inner) => missing(alloc, inner),
    }
}

#[cycle(missing)]
fn missing_rows(alloc: Global, rows: &FormRows) -> Result<Comps, AllocError>
    ensures { IfOk result (λ cs. comps_tree cs ≡ missing_rows (rows_tree rows.now)) }
{
    let mut items = Vec::new(alloc);
    for row in rows.as_slice() {
        match row {
            FormRow::Both(_, _, form) => items.push(missing(alloc, form)?)?,
            FormRow::OnlyLeft(_, _) => {}
            FormRow::OnlyRight(_, _) => {}
        }
    }
    Comps::from_vec(alloc, items)
}

// That of the first arm.
#[cycle(missing)]
#[tactic(auto, using(crate::proofs::MissingRows::arm_rules))]
fn missing_arm(alloc: Global, arms: &FormArms) -> Result<Comp, AllocError>
    ensures { IfOk result (λ c. comp_tree c ≡ missing_arm (arms_tree arms.now)) }
{
    let arms = arms.as_slice();
    if arms.is_empty() {
        return Ok(Comp::Nil);
    }
    let tag = arms[0].0.twin(alloc)?;
    Ok(Comp::Alt(tag, Box::new(alloc, missing(alloc, &arms[0].2)?)?))
}

// A keyed map's shape with no key.
fn no_keys() -> KeyedShape
    ensures { result ≡ [] }
{
    match KeyedShape::from_names(SharedList::empty()) {
        Some(keys) => keys,
        None => unreachable!(),
    }
}

// A tree of one node with a complement.
#[tactic(auto, using(crate::proofs::ComplementTrees::list_rules))]
fn one_node(alloc: Global, part: Comp) -> Result<Comp, AllocError>
    ensures { IfOk result (λ c. comp_tree c ≡ hold_comp (TreeOf (0 ∷ [])) (more_comps (comp_tree part) no_comps)) }
{
    let depths = DepthSeq::from_vec(alloc, vec![in alloc; 0]?)?;
    let shape = match TreeShape::from_depths(depths) {
        Some(shape) => shape,
        None => unreachable!(),
    };
    let items = Comps::from_vec(alloc, vec![in alloc; part]?)?;
    Ok(Comp::Hold(Shape::Tree(shape), items))
}
