//! One link.
ghost use Rattle.std.specs.Prelude.{◌≡◌, ◌+◌, ◌<◌, ◌^◌, Some};
ghost use Rattle.bridge_links.specs.Links.{RunFits};
ghost use Rattle.bridge_links.specs.Links.{place_of, as_moved, put_there, put_as, moved_as, is_moved, placed, ahead};

/// Where a place of the near shape is in the far shape.
///
/// A plan is links too, from its new places to its old ones: what it has moved leads to `Moved`, and a fresh place is
/// `Gone`.
#[derive(Clone, Copy, Debug, PartialEq, Eq)]
pub enum Link {
    /// At this place of the far shape.
    Stays(u64),
    /// At this place of the far shape, which an edit of that shape has given it.
    Moved(u64),
    /// Nowhere.
    Gone,
    /// Nowhere, and an edit of the near shape has moved it.
    Missed,
}

impl Link {
    /// The far place that the link leads to.
    pub fn place(self) -> Option<u64>
        ensures { result ≡ place_of self }
    {
        match self {
            Link::Stays(place) | Link::Moved(place) => Some(place),
            Link::Gone | Link::Missed => None,
        }
    }

    /// The same link, where an edit of the far shape has moved what it leads to.
    pub(crate) fn as_moved(self) -> Link
        ensures { result ≡ as_moved self }
    {
        match self {
            Link::Stays(place) => Link::Moved(place),
            other => other,
        }
    }

    /// The same link, where an edit of the near shape has moved its place.
    pub(crate) fn put_there(self) -> Link
        ensures { result ≡ put_there self }
    {
        match self {
            Link::Moved(place) => Link::Stays(place),
            Link::Gone => Link::Missed,
            other => other,
        }
    }

    /// What becomes of the link if its far place is now where another link leads.
    pub(crate) fn moved_as(self, now: Link) -> Link
        ensures { result ≡ moved_as self now }
    {
        match self {
            Link::Moved(_) => now.as_moved(),
            _ => now,
        }
    }

    /// The same link, where an edit of the near shape may have moved its place.
    pub(crate) fn put_as(self, moved: bool) -> Link
        ensures { result ≡ put_as moved self }
    {
        if moved { self.put_there() } else { self }
    }

    /// A link of the same sort that leads to a place.
    pub(crate) fn placed(self, place: u64) -> Link
        ensures { result ≡ placed place self }
    {
        match self {
            Link::Stays(_) => Link::Stays(place),
            Link::Moved(_) => Link::Moved(place),
            other => other,
        }
    }

    /// A link of the same sort, so many places further on.
    pub(crate) fn ahead(self, count: u64) -> Link
        requires { RunFits self count }
        ensures { result ≡ ahead count self }
    {
        match self {
            Link::Stays(place) => Link::Stays(place + count),
            Link::Moved(place) => Link::Moved(place + count),
            other => other,
        }
    }

    /// Read of a plan: whether it has moved what the link leads to.
    pub(crate) fn is_moved(self) -> bool
        ensures { result ≡ is_moved self }
    {
        matches!(self, Link::Moved(_))
    }
}
