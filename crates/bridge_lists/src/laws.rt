//! What bridges between lists keep, as laws. Each function does nothing: its clauses are the laws.
//!
//! What an item has is a number here, and `r` says which numbers are related. What a fresh item of the near list has,
//! `a`, and what one of the far list has, `b`, are related.
ghost use Rattle.std.specs.Prelude.{◌≡◌, ◌<◌, ◌≤◌, ◌-◌, ◌++◌, ◌∷◌, [], ℕ, Bool, true, List, Some, None, IsTrue, length};
ghost use Rattle.std.specs.Prelude.{map, slice_set};
ghost use Rattle.hold_shapes.specs.declared.edit.ShapeEdit.{ShapeEdit};
ghost use Rattle.hold_shapes.specs.declared.edit.ShapeEdit.TheVariants.{Ins, Del, MoveItem, Reorder};
ghost use Rattle.hold_shapes.specs.Plans.{is_count, is_each_new};
ghost use Rattle.bridge_links.specs.declared.link.Link.{Link};
ghost use Rattle.bridge_links.specs.declared.link.Link.TheVariants.{Stays};
ghost use Rattle.bridge_links.specs.Links.{same_places, moved_place, gathered, link_at, far_at};
ghost use Rattle.bridge_links.specs.Spans.{SpansBy};
ghost use Rattle.bridge_lists.specs.Carried.{Carried, longer, far_place, carried, carried_ins, carried_move};
ghost use Rattle.bridge_lists.specs.Carried.{carried_del};
ghost use Rattle.bridge_lists.specs.Carried.{carried_reorder};
ghost use Rattle.bridge_lists.specs.Laws.{edited, all_edited, MovesLost, CarriesBy};

/// The plans that bridges read as links are those of the edits.
pub fn a_plan_is_followed()
    ensures ins { (b c : ℕ) (t : List ℕ) → is_count c ≡ true
        → edited b (Ins c) t ≡ Some (gathered (longer (length t) c) b t) }
    ensures del { (b c : ℕ) (t : List ℕ) → is_count c ≡ true → c ≤ length t
        → edited b (Del c) t ≡ Some (gathered (same_places (length t - c)) b t) }
    ensures moved { (b i j : ℕ) (t : List ℕ) → i < length t → j < length t
        → edited b (MoveItem i j) t ≡ Some (gathered (moved_place (length t) i j) b t) }
    ensures order { (b : ℕ) (f t : List ℕ) → length f ≡ length t
        → is_each_new (length t) [] f ≡ true
        → edited b (Reorder f) t ≡ Some (gathered (map Stays f) b t) }
{}

/// Items more at the end of the near list are carried to items more at the end of the far one.
pub fn an_insertion_is_carried()
    ensures { (r : ℕ → ℕ → Bool) (c m a b : ℕ) (ls : List Link) (s t : List ℕ)
        → SpansBy r ls s t → length t ≡ m → is_count c ≡ true → IsTrue (r a b)
        → CarriesBy r (carried_ins c m ls) (edited a (Ins c) s) b t }
{}

/// A move of an item of the near list is carried to edits that have plans in the far one, and the links lead from the
/// new near list to the new far one.
pub fn a_move_is_carried()
    ensures { (r : ℕ → ℕ → Bool) (i j m a b : ℕ) (ls : List Link) (s t : List ℕ) (q : Carried)
        → SpansBy r ls s t → length t ≡ m → i < length s → j < length s → IsTrue (r a b)
        → carried_move i j m ls ≡ Some q
        → CarriesBy r q (edited a (MoveItem i j) s) b t }
{}

/// The removal of the last items of the near list is carried to edits that have plans in the far one, and the links
/// lead from the new near list to the new far one.
pub fn a_deletion_is_carried()
    ensures { (r : ℕ → ℕ → Bool) (c m a b : ℕ) (ls : List Link) (s t : List ℕ)
        → SpansBy r ls s t → length t ≡ m → is_count c ≡ true → c ≤ length s → IsTrue (r a b)
        → CarriesBy r (carried_del c m ls) (edited a (Del c) s) b t }
{}

/// Another order of the near list is carried to an edit that has a plan in the far one, and the links lead from the new
/// near list to the new far one.
pub fn a_reorder_is_carried()
    ensures { (r : ℕ → ℕ → Bool) (f : List ℕ) (m a b : ℕ) (ls : List Link) (s t : List ℕ)
        → SpansBy r ls s t → length t ≡ m → length f ≡ length s
        → is_each_new (length s) [] f ≡ true → IsTrue (r a b)
        → CarriesBy r (carried_reorder f m ls) (edited a (Reorder f) s) b t }
{}

/// Of an edit that has a plan for the near list, what is carried has plans in the far one, one after another.
///
/// - `carried`: the links then lead from the new near list to the new far one.
/// - `refused`: nothing is carried only of a move, of an item that the far list does not have.
pub fn an_edit_is_carried()
    ensures carried { (r : ℕ → ℕ → Bool) (e : ShapeEdit) (m a b : ℕ) (ls : List Link)
        (s t near : List ℕ) (q : Carried)
        → SpansBy r ls s t → length t ≡ m → edited a e s ≡ Some near → IsTrue (r a b)
        → carried e m ls ≡ Some q
        → CarriesBy r q (edited a e s) b t }
    ensures refused { (e : ShapeEdit) (m a : ℕ) (ls : List Link) (s near : List ℕ)
        → edited a e s ≡ Some near → carried e m ls ≡ None
        → MovesLost m ls e }
{}

/// A change of an item is carried to the place where the far list has it.
///
/// - `kept`: with related contents there, both lists are related as before.
/// - `gone`: where no place is found, the far list does not have the item.
pub fn a_change_is_carried()
    ensures kept { (r : ℕ → ℕ → Bool) (m x y a b : ℕ) (ls : List Link) (s t : List ℕ)
        → SpansBy r ls s t → far_place m (link_at ls x) ≡ Some y → IsTrue (r a b)
        → SpansBy r ls (slice_set s x a) (slice_set t y b) }
    ensures gone { (r : ℕ → ℕ → Bool) (m x y : ℕ) (ls : List Link) (s t : List ℕ)
        → SpansBy r ls s t → length t ≡ m → far_place m (link_at ls x) ≡ None
        → far_at ls x ≡ Some y → ⊥ }
{}

/// A list was edited by an edit, and by others. What takes the edit back, then the others, and then what was carried of
/// the edit lead to the same list as the others and then what was carried of it.
///
/// - `one`: for any edits that take the edit back.
/// - `ins`, `moved`: an insertion is taken back by a deletion, and a move by the move back.
pub fn both_ways_lead_to_one_list()
    ensures one { (a : ℕ) (s t near : List ℕ) (back edits last : List ShapeEdit)
        → all_edited a back near ≡ Some s → all_edited a edits s ≡ Some t
        → all_edited a (back ++ (edits ++ last)) near ≡ all_edited a last t }
    ensures ins { (c a : ℕ) (s t near : List ℕ) (edits last : List ShapeEdit)
        → is_count c ≡ true → edited a (Ins c) s ≡ Some near → all_edited a edits s ≡ Some t
        → all_edited a (Del c ∷ (edits ++ last)) near ≡ all_edited a last t }
    ensures moved { (i j a : ℕ) (s t near : List ℕ) (edits last : List ShapeEdit)
        → i < length s → j < length s
        → edited a (MoveItem i j) s ≡ Some near → all_edited a edits s ≡ Some t
        → all_edited a (MoveItem j i ∷ (edits ++ last)) near ≡ all_edited a last t }
{}
