//! The depths of the nodes of trees, compared.

ghost use Rattle.std.specs.Prelude.{◌≡◌, bytes_eq};

use hold_shapes::DepthSeq;

// Whether both have the same depths in the same order.
pub(crate) fn are_same(depths: &DepthSeq, others: &DepthSeq) -> bool
    ensures { result ≡ bytes_eq depths.now others.now }
{
    if depths.len() != others.len() {
        return false;
    }
    for i in 0..depths.len() {
        if *depths.get(i) != *others.get(i) {
            return false;
        }
    }
    true
}
