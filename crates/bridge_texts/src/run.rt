//! Runs of characters: what two texts have in common, and what one of them alone has.
ghost use Rattle.std.specs.Prelude.{◌≡◌, ◌≤◌, ◌∷◌, [], IfOk};
ghost use Rattle.bridge_texts.specs.Runs.{size_at, of_size, less_by, is_empty_run, is_kept_run, is_added_run};
ghost use Rattle.bridge_texts.specs.Runs.{joined_run, one_or_both};

use std::alloc::AllocError;

/// Neighbouring characters of one sort, of two texts that a bridge relates.
#[derive(Clone, Copy, Debug, PartialEq, Eq)]
pub enum Run {
    /// This number of characters is in both texts.
    Kept(u64),
    /// This number of characters is in the far text alone.
    Added(u64),
    /// This number of characters is in the near text alone.
    Gone(u64),
}

/// One of the two texts that a bridge relates.
#[derive(Clone, Copy, Debug, PartialEq, Eq)]
pub enum End {
    /// The text that the bridge begins at.
    Near,
    /// The text that the bridge leads to.
    Far,
}

impl Run {
    /// How many characters of one of the texts the run has.
    pub(crate) fn size_at(self, end: End) -> u64
        ensures { result ≡ size_at end self }
    {
        match end {
            End::Near => match self {
                Run::Kept(size) | Run::Gone(size) => size,
                Run::Added(_) => 0,
            },
            End::Far => match self {
                Run::Kept(size) | Run::Added(size) => size,
                Run::Gone(_) => 0,
            },
        }
    }

    /// A run of the same sort that has this number of characters.
    pub(crate) fn of_size(self, size: u64) -> Run
        ensures { result ≡ of_size size self }
    {
        match self {
            Run::Kept(_) => Run::Kept(size),
            Run::Added(_) => Run::Added(size),
            Run::Gone(_) => Run::Gone(size),
        }
    }

    /// A run of the same sort that has this number of characters fewer.
    pub(crate) fn less_by(self, size: u64) -> Run
        ensures { result ≡ less_by size self }
    {
        match self {
            Run::Kept(all) => Run::Kept(all.saturating_sub(size)),
            Run::Added(all) => Run::Added(all.saturating_sub(size)),
            Run::Gone(all) => Run::Gone(all.saturating_sub(size)),
        }
    }

    /// Whether the run has no characters.
    pub(crate) fn is_empty(self) -> bool
        ensures { result ≡ is_empty_run self }
    {
        match self {
            Run::Kept(size) | Run::Added(size) | Run::Gone(size) => size == 0,
        }
    }

    /// Whether the run is in both texts.
    pub(crate) fn is_kept(self) -> bool
        ensures { result ≡ is_kept_run self }
    {
        matches!(self, Run::Kept(_))
    }

    /// Whether the run is in the far text alone.
    pub(crate) fn is_added(self) -> bool
        ensures { result ≡ is_added_run self }
    {
        matches!(self, Run::Added(_))
    }

    /// Both runs as one, if they are of one sort.
    ///
    /// A number of characters that does not fit in 64 bits is refused as running out of memory.
    pub(crate) fn joined(self, next: Run) -> Result<Option<Run>, AllocError>
        ensures { IfOk result (λ both. one_or_both both self next ≡ joined_run self next) }
    {
        let both = match (self, next) {
            (Run::Kept(size), Run::Kept(more)) => size.checked_add(more).map(Run::Kept),
            (Run::Added(size), Run::Added(more)) => size.checked_add(more).map(Run::Added),
            (Run::Gone(size), Run::Gone(more)) => size.checked_add(more).map(Run::Gone),
            _ => return Ok(None),
        };
        match both {
            Some(run) => Ok(Some(run)),
            None => Err(AllocError),
        }
    }
}
