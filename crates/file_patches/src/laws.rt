//! Laws of patches.
//!
//! Each function here does nothing: its clauses are the laws, which other crates rely on.

ghost use Rattle.std.specs.Prelude.{◌≡◌, ◌++◌, ℕ, List, [], length, true, Ok};
ghost use Rattle.json.specs.Json.{Json};
ghost use Rattle.json.specs.Strict.{HasUniqueKeys};
ghost use Rattle.file_patches.specs.Equality.{equal};
ghost use Rattle.file_patches.specs.Operations.{OperationTree, test};
ghost use Rattle.file_patches.specs.Patching.{operated, patched, patched_from};
ghost use Rattle.file_patches.specs.Places.{content_at};
ghost use Rattle.file_patches.specs.Reading.{patch_of};
ghost use Rattle.file_patches.specs.Results.{and_then};
ghost use Rattle.file_patches.specs.Values.{ValuesHave};

/// A patch with no operations changes nothing, and two patches one after another are the patch of both.
///
/// The operations of the second patch are numbered on from those of the first.
pub fn patches_join()
    ensures empty { (tree : Json) → patched [] tree ≡ Ok tree }
    ensures joined { (first second : List OperationTree) (tree : Json) → patched (first ++ second) tree
        ≡ and_then (patched_from (length first) second) (patched first tree) }
{}

/// A tree in which no object has a name twice is equal to itself, so a test of a content against itself passes.
pub fn trees_equal_themselves()
    ensures equal { (tree : Json) → HasUniqueKeys tree → equal tree tree ≡ true }
    ensures tested { (place : List (List ℕ)) (tree content : Json) → content_at place tree ≡ Ok content
        → HasUniqueKeys content → operated (test place content) tree ≡ Ok tree }
{}

/// What a patch makes has no object with a name twice, if neither the tree nor a value of the patch has one. The values
/// of a patch that is read have none, if the tree that it is read from has none.
pub fn names_stay_unique()
    ensures made { (patch : List OperationTree) (tree made : Json) → ValuesHave HasUniqueKeys patch
        → HasUniqueKeys tree → patched patch tree ≡ Ok made → HasUniqueKeys made }
    ensures read { (tree : Json) (patch : List OperationTree) → HasUniqueKeys tree → patch_of tree ≡ Ok patch
        → ValuesHave HasUniqueKeys patch }
{}
