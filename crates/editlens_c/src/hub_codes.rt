//! The numbers of what a hub can show, and of the causes that hubs alone have. `editlens.h` has the same.

/// The state lines.
pub const HUB_STATE: u32 = 0;
/// The hub's document.
pub const HUB_DOCUMENT: u32 = 1;
/// The document of a view.
pub const VIEW_DOCUMENT: u32 = 2;
/// The complement of a view.
pub const VIEW_COMPLEMENT: u32 = 3;

/// `no-view`: the view does not exist.
pub const NO_VIEW: u32 = 61;
/// `too-many-views`: there are more than 64.
pub const TOO_MANY_VIEWS: u32 = 62;
/// `views-differ`: the left type of the view is not that of view 0, with the number of the view.
pub const VIEWS_DIFFER: u32 = 63;

/// A state has not one text of the hub and two of each view.
pub const OTHER_COUNT: u32 = 64;
/// The first text of a state is of no document of the hub.
pub const NOT_HUB: u32 = 65;
/// A text of a state is of no document of the view, with the number of the view.
pub const NOT_VIEW: u32 = 66;
