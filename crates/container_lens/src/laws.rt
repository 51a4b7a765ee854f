//! The laws of containers. Each is the contract of a function that does nothing: a caller that proves something about a
//! run calls it, or cites the lemma that it names.

ghost use Rattle.std.specs.Prelude.{◌≡◌, ℕ, List, option_and_then};
ghost use Rattle.texts.specs.declared.side.Side.{Side};
ghost use Rattle.hold_shapes.specs.declared.shape.ListShape.{ListShape};
ghost use Rattle.hold_shapes.specs.declared.shape.Shape.TheVariants.{List as ListOf, Keyed as KeyedOf, Tree as TreeOf};
ghost use Rattle.edit_module.specs.Words.{PrimitiveTree};
ghost use Rattle.lens_forms.specs.Forms.{FormTree, form_each, form_keyed, form_ordered};
ghost use Rattle.lens_core.specs.Beginnings.{carried_on};
ghost use Rattle.lens_core.specs.Complements.{CompTrees, hold_comp, missing};
ghost use Rattle.lens_core.specs.Laws.{Laws};
ghost use Rattle.lens_core.specs.Translation.{translate, translate_one};
ghost use Rattle.container_lens.specs.HeldSteps.{begin_held, finish_held};

/// The map of a lens over a list, a keyed map or an ordered tree keeps the laws if the lens does.
#[tactic(auto, using(crate::proofs::LawsOfContainers::container_laws))]
pub fn container_laws()
    ensures list { (l : FormTree) → Laws l → Laws (form_each l) }
    ensures keyed { (l : FormTree) → Laws l → Laws (form_keyed l) }
    ensures ordered { (l : FormTree) → Laws l → Laws (form_ordered l) }
{}

/// The translation of each of the three forms, at a complement with a shape of the form's kind, is the beginning, the
/// translation of the lens inside, and the finish.
#[tactic(auto, using(crate::proofs::HeldSteps::round_rules))]
pub fn container_goes_round()
    ensures list { (l : FormTree) (side : Side) (s : ListShape) (cs : CompTrees) (p : PrimitiveTree)
        → translate_one (form_each l) side (hold_comp (ListOf s) cs) p
        ≡ option_and_then (carried_on (λ i c w. translate l side c w) (finish_held (ListOf s) cs p))
        (begin_held (missing l) (ListOf s) cs p) }
    ensures keyed { (l : FormTree) (side : Side) (names : List (List ℕ)) (cs : CompTrees) (p : PrimitiveTree)
        → translate_one (form_keyed l) side (hold_comp (KeyedOf names) cs) p
        ≡ option_and_then (carried_on (λ i c w. translate l side c w) (finish_held (KeyedOf names) cs p))
        (begin_held (missing l) (KeyedOf names) cs p) }
    ensures ordered { (l : FormTree) (side : Side) (depths : List ℕ) (cs : CompTrees) (p : PrimitiveTree)
        → translate_one (form_ordered l) side (hold_comp (TreeOf depths) cs) p
        ≡ option_and_then (carried_on (λ i c w. translate l side c w) (finish_held (TreeOf depths) cs p))
        (begin_held (missing l) (TreeOf depths) cs p) }
{}
