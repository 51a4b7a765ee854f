//! The laws of images. Each is the contract of a function that does nothing: a caller that proves something about
//! consistency calls it, or cites the lemma that it names.

ghost use Rattle.std.specs.Prelude.{IsTrue};
ghost use Rattle.lens_forms.specs.Forms.{FormTree};
ghost use Rattle.lens_forms.specs.Typing.{is_typed};
ghost use Rattle.law_images.specs.ImageLaws.{ImagesAreExact, DecidesConsistency};

/// Images are exact. For a complement that fits and a pattern of the type of its side, the documents in the image are
/// those of the other side that are consistent, with this complement, with some document in the pattern. There is no
/// image if and only if there is no such document.
#[tactic(auto, using(crate::proofs::ExactImages::images_are_exact))]
pub fn images_are_exact()
    ensures { (form : FormTree) → IsTrue (is_typed form) → ImagesAreExact form }
{}

/// Three values are consistent if and only if the left document has its type, the complement fits, and the right
/// document is in the image of the left one.
#[tactic(auto, using(crate::proofs::ExactImages::decides_consistency))]
pub fn images_decide_consistency()
    ensures { (form : FormTree) → IsTrue (is_typed form) → DecidesConsistency form }
{}
