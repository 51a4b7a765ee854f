//! Patterns: documents with holes.

ghost use Rattle.std.specs.Prelude.{◌≡◌, ◌↔◌, ◌<◌, IsTrue, IfOk, map, slice_index_or};
ghost use Rattle.law_images.specs.Patterns.{pattern_tree, patterns_tree, patterns_from, pattern_list, pattern_count};
ghost use Rattle.law_images.specs.Patterns.{hole, no_patterns};

use hold_shapes::Shape;
use shared_lists::{Hint, Iter, SharedList};
use std::alloc::{AllocError, Global};
use texts::{Name, Str, Twin};

/// A document in which some parts are left open.
///
/// Its documents are those that differ from it only in its holes. A pattern without holes has one document.
/// A copy shares the contents of its records and containers.
#[derive(Drop)]
#[cycle(pattern)]
pub enum Pattern {
    /// A hole: any document.
    Hole,
    /// Null.
    Unit,
    /// True or false.
    Bool(bool),
    /// A whole number.
    Int(i64),
    /// A text.
    Text(Str),
    /// A member of an enum.
    Pick(Name),
    /// A record: the patterns of its contents, in the order of its type's fields.
    Rec(Patterns),
    /// A tag with the pattern of its content.
    Alt(Name, Box<Pattern>),
    /// A container: its shape, and the pattern of each place's content.
    Hold(Shape, Patterns),
}

/// The patterns of a record's or a container's contents, in order. A copy shares them.
#[derive(Drop)]
#[cycle(pattern)]
pub struct Patterns {
    pub(crate) items: SharedList<Pattern>,
}

impl Patterns {
    /// No patterns. Does not allocate.
    pub fn empty() -> Patterns
        ensures { patterns_tree result ≡ no_patterns }
    {
        Patterns {
            items: SharedList::empty(),
        }
    }

    /// These patterns, in this order. Fails only if memory runs out; the patterns are then dropped.
    pub fn from_vec(alloc: Global, items: Vec<Pattern>) -> Result<Patterns, AllocError>
        ensures { IfOk result (λ ps. patterns_tree ps ≡ patterns_from (map pattern_tree items.items)) }
    {
        let items = SharedList::from_vec(alloc, items)?;
        Ok(Patterns { items })
    }

    /// How many patterns there are.
    #[tactic(auto, using(crate::proofs::PatternLists::list_rules))]
    pub fn len(&self) -> usize
        ensures { result ≡ pattern_count (patterns_tree self.now) }
    {
        self.items.len()
    }

    /// Whether there are no patterns.
    #[tactic(auto, using(crate::proofs::PatternLists::list_rules))]
    pub fn is_empty(&self) -> bool
        ensures { IsTrue result ↔ (pattern_count (patterns_tree self.now) ≡ 0) }
    {
        self.items.is_empty()
    }

    /// The pattern at a place, which is counted from 0 and is one of the places.
    ///
    /// Takes time that grows with the logarithm of the number of patterns.
    #[tactic(auto, using(crate::proofs::PatternLists::list_rules))]
    pub fn get(&self, place: usize) -> &Pattern
        requires { place < pattern_count (patterns_tree self.now) }
        ensures { pattern_tree result.now ≡ slice_index_or (pattern_list (patterns_tree self.now)) place hole }
    {
        self.items.get(place)
    }

    /// The patterns in order. Does not allocate.
    pub fn iter(&self) -> Iter<'_, Pattern>
        ensures { patterns_from (map pattern_tree result) ≡ patterns_tree self.now }
    {
        self.items.iter()
    }
}

impl Hint for Pattern {}

impl Twin for Pattern {
    ghost use Rattle.law_images.specs.Patterns.{PatternTree, pattern_tree};

    ghost Meaning = { PatternTree };

    ghost meaning = { pattern_tree };

    fn twin(&self, alloc: Global) -> Result<Self, AllocError> {
        copy_pattern(alloc, self)
    }
}

impl Twin for Patterns {
    ghost use Rattle.law_images.specs.Patterns.{PatternTrees, patterns_tree};

    ghost Meaning = { PatternTrees };

    ghost meaning = { patterns_tree };

    fn twin(&self, alloc: Global) -> Result<Self, AllocError> {
        copy_patterns(alloc, self)
    }
}

#[cycle(copy_pattern)]
fn copy_pattern(alloc: Global, pattern: &Pattern) -> Result<Pattern, AllocError>
    ensures { IfOk result (λ p. pattern_tree p ≡ pattern_tree pattern.now) }
{
    match pattern {
        Pattern::Hole => Ok(Pattern::Hole),
        Pattern::Unit => Ok(Pattern::Unit),
        Pattern::Bool(b) => Ok(Pattern::Bool(*b)),
        Pattern::Int(n) => Ok(Pattern::Int(*n)),
        Pattern::Text(text) => Ok(Pattern::Text(text.twin(alloc)?)),
        Pattern::Pick(name) => Ok(Pattern::Pick(name.twin(alloc)?)),
        Pattern::Rec(patterns) => Ok(Pattern::Rec(copy_patterns(alloc, patterns)?)),
        Pattern::Alt(tag, content) => Ok(Pattern::Alt(
            tag.twin(alloc)?,
            Box::new(alloc, copy_pattern(alloc, content)?)?,
        )),
        Pattern::Hold(shape, patterns) => Ok(Pattern::Hold(
            shape.twin(alloc)?,
            copy_patterns(alloc, patterns)?,
        )),
    }
}

#[tactic(auto, using(crate::proofs::PatternLists::list_rules))]
fn copy_patterns(alloc: Global, patterns: &Patterns) -> Result<Patterns, AllocError>
    ensures { IfOk result (λ ps. patterns_tree ps ≡ patterns_tree patterns.now) }
{
    let items = patterns.items.copy(alloc)?;
    Ok(Patterns { items })
}
