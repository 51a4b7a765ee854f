//! The law of words between documents, for use by the crates above.

ghost use Rattle.edit_between.specs.Laws.{BetweenLeads};

/// The word between two documents of a well-formed type takes the first to the second.
pub fn between_leads()
    ensures { BetweenLeads }
{}
