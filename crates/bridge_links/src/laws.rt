//! What links keep, as laws. Each function does nothing: its clauses are the laws. What a place has is a number here.
ghost use Rattle.std.specs.Prelude.{◌≡◌, ◌+◌, ◌≤◌, ℕ, Bool, List, Some, IsTrue, length};
ghost use Rattle.bridge_links.specs.declared.link.Link.{Link};
ghost use Rattle.bridge_links.specs.Links.{far_at, far_planned, near_planned, fresh_count, gathered};
ghost use Rattle.bridge_links.specs.Spans.{AreApart, AreBelow, AreFree, AreFresh, SpansBy};

/// After an edit of the far shape, each link leads to what it led to.
///
/// - `apart`: no two links lead to one place.
/// - `below`: each leads to a place of the new shape.
/// - `kept`: a link is lost only where its place is.
/// - `spans`: what is there is related as before.
pub fn an_edit_of_the_far_shape_keeps_links()
    ensures apart { (plan ls : List Link) → AreApart ls → AreApart (far_planned plan ls) }
    ensures below { (plan ls : List Link) → AreBelow (length plan) (far_planned plan ls) }
    ensures kept { (plan ls : List Link) (x y z : ℕ) → AreApart plan → far_at ls x ≡ Some y → far_at plan z ≡ Some y
        → far_at (far_planned plan ls) x ≡ Some z }
    ensures spans { (r : ℕ → ℕ → Bool) (plan ls : List Link) (b : ℕ) (s t : List ℕ) → SpansBy r ls s t
        → SpansBy r (far_planned plan ls) s (gathered plan b t) }
{}

/// After an edit of the near shape, each place has the link of its old place, and fresh places are linked in order to
/// fresh ones of the far shape.
///
/// - `apart`: no two links lead to one place, if none led to a fresh one.
/// - `below`: each leads to a place of the far shape.
/// - `kept`: no link is lost.
pub fn an_edit_of_the_near_shape_keeps_links()
    ensures apart { (n : ℕ) (plan ls : List Link) → AreApart plan → AreApart ls → AreFree n (fresh_count plan) ls
        → AreApart (near_planned n plan ls) }
    ensures below { (n m : ℕ) (plan ls : List Link) → AreBelow m ls → n + fresh_count plan ≤ m
        → AreBelow m (near_planned n plan ls) }
    ensures kept { (n : ℕ) (plan ls : List Link) (x k y : ℕ) → far_at plan x ≡ Some k → far_at ls k ≡ Some y
        → far_at (near_planned n plan ls) x ≡ Some y }
{}

/// After an edit of both shapes that adds as many fresh places to each, what is there is related as before, and what is
/// fresh to what is fresh.
pub fn an_edit_of_both_shapes_keeps_what_is_there()
    ensures { (r : ℕ → ℕ → Bool) (n : ℕ) (near far ls : List Link) (a b : ℕ) (s t : List ℕ) → SpansBy r ls s t
        → AreApart near → AreFresh n near far → IsTrue (r a b)
        → SpansBy r (near_planned n near (far_planned far ls)) (gathered near a s) (gathered far b t) }
{}
