//! Where a search among depths ends.

/// Where a search for a child of a node ends, which goes over the depths behind that node.
#[derive(Clone, Copy)]
pub enum Found {
    /// At the child, at this place.
    Child(usize),
    /// At the first place that is not below the node, after this number of children.
    End(usize, u64),
    /// Behind the last place, after this number of children.
    Behind(u64),
}
