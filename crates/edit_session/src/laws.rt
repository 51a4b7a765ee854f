//! The laws of runs and of groups, as the contracts of functions that do nothing.

ghost use Rattle.edit_session.specs.Run.{RunsStayInStep, GroupsStayInStep};

use lens_core::EditLens;

/// Every run of a lens from a consistent triple goes on to its end, whatever its items are, and each of its triples is
/// consistent. An item is an entry, a group of entries or a line that is neither. `F` is the type of what may be wrong
/// with a line.
pub fn runs_stay_in_step<L: EditLens, F>(_lens: &L)
    ensures { RunsStayInStep F (L.holds _lens.now) (L.left_type _lens.now) (L.right_type _lens.now)
        (L.carried _lens.now) }
{}

/// The three after each entry of a group are consistent, from a consistent triple on and up to the first entry that is
/// refused. So a group keeps its documents in step inside, too, and not at its end alone.
pub fn groups_stay_in_step<L: EditLens>(_lens: &L)
    ensures { GroupsStayInStep (L.holds _lens.now) (L.left_type _lens.now)
        (L.right_type _lens.now) (L.carried _lens.now) }
{}
