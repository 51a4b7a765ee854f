//! Keys in byte order: a test of the order, the place of a key, and the place for a new one.
ghost use Rattle.std.specs.Prelude.{◌≡◌, ◌↔◌, ◌<◌, ◌≤◌, length, slice_index_or, Some, None, IfSome, IsTrue, true};
ghost use Rattle.std.specs.Prelude.{false};
ghost use Rattle.texts.specs.Keys.{is_before, is_rising, key_place, key_rank};

use shared_lists::{Hint, SharedList, Test};
use std::cmp::Ordering;
use texts::Name;

// The name at a place.
#[tactic(auto, using(crate::proofs::SharedItems::item_rules))]
fn name_at(names: &SharedList<Name>, at: usize) -> &Name
    requires { at < length names.now }
    ensures { result.now ≡ slice_index_or names.now at result.now }
{
    names.get(at)
}

/// Whether each name is before the next one in byte order. Does not allocate.
pub(crate) fn is_rising(names: &SharedList<Name>) -> bool
    ensures { result ≡ is_rising names.now }
{
    let mut before: Option<&Name> = None;
    for name in names {
        if let Some(earlier) = before {
            if !earlier.is_before(name) {
                return false;
            }
        }
        before = Some(name);
    }
    true
}

/// The place of a name among names in byte order, from 0, or None if it is not among them.
///
/// Does not allocate. It looks at the first bytes of some log n names, where n is how many there are, and compares a
/// few.
#[tactic(auto, using(texts::proofs::KeyOrder::search_rules))]
pub(crate) fn place(names: &SharedList<Name>, name: &Name) -> Option<u64>
    requires { is_rising names.now ≡ true }
    ensures value { result ≡ key_place name.now names.now }
    ensures within { IfSome result (λ p. p < length names.now) }
{
    let at = rank(names, name);
    if is_at(names, at, name) {
        Some(at as u64)
    } else {
        None
    }
}

/// Whether a name is among names in byte order, given how many of them are before it. Does not allocate.
#[tactic(auto, using(texts::proofs::KeyOrder::search_rules))]
pub(crate) fn is_at(names: &SharedList<Name>, at: usize, name: &Name) -> bool
    requires rising { is_rising names.now ≡ true }
    requires place { at ≡ key_rank name.now names.now }
    ensures there { result ≡ true → key_place name.now names.now ≡ Some at }
    ensures absent { result ≡ false → key_place name.now names.now ≡ None }
    ensures within { result ≡ true → at < length names.now }
{
    if at >= names.len() {
        return false;
    }
    name.is_same(name_at(names, at))
}

// The test whether a name is before another one.
#[derive(Clone, Copy)]
struct BeforeName<'a> {
    name: &'a Name,
    hint: u64,
}

impl<'a> Test<Name> for BeforeName<'a> {
    ghost test = { λ before item. is_before item before.name.now };

    fn passes(&self, item: &Name) -> bool {
        item.is_before(self.name)
    }

    fn passes_hint(&self, hint: u64) -> Option<bool> {
        match hint.cmp(&self.hint) {
            Ordering::Less => Some(true),
            Ordering::Equal => None,
            Ordering::Greater => Some(false),
        }
    }
}

/// How many of these names in byte order are before a name: the place that a new one takes.
///
/// Does not allocate. It looks at the first bytes of some log n names, where n is how many there are, and compares a
/// few.
pub(crate) fn rank(names: &SharedList<Name>, name: &Name) -> usize
    requires { is_rising names.now ≡ true }
    ensures value { result ≡ key_rank name.now names.now }
    ensures within { result ≤ length names.now }
{
    let hint = name.hint();
    names.edge(&BeforeName { name, hint })
}

/// Whether both lists have the same names in the same order. Does not allocate.
pub(crate) fn are_same(names: &SharedList<Name>, others: &SharedList<Name>) -> bool
    ensures { IsTrue result ↔ (names.now ≡ others.now) }
{
    if names.len() != others.len() {
        return false;
    }
    for i in 0..names.len() {
        if !name_at(names, i).is_same(name_at(others, i)) {
            return false;
        }
    }
    true
}
