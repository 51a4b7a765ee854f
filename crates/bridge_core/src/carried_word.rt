//! A carried word with the bridge behind it: the steps that need no inner word.
ghost use Rattle.std.specs.Prelude.{◌≡◌, Ok, IfOk, MatchResult};
ghost use Rattle.std.specs.Str.{is_utf8};
ghost use Rattle.hold_shapes.specs.declared.edit.Place.TheVariants.{Index};
ghost use Rattle.edit_module.specs.Words.{joined, no_primitives, more_primitives, at, stay, modify};
ghost use Rattle.edit_module.specs.Views.{primitive_tree, word_tree};
ghost use Rattle.bridge_core.specs.Bridges.{bridge_tree, bridges_tree, parts, arm, linked, put_bridge_at};
ghost use Rattle.bridge_core.specs.Carried.{carry_other, carry_lost, carry_splice, carry_left, carry_switch, passes};
ghost use Rattle.bridge_core.specs.Carried.{splices, splice_of};
ghost use Rattle.bridge_core.specs.Refusals.{carried_tree, IsNotCarried};

use crate::bridge::{Bridge, Bridges};
use crate::fault::CarryFault;
use crate::laws::a_text_is_utf8;
use bridge_lists::ListBridge;
use bridge_texts::{Splice, TextBridge};
use edit_module::Cause;
use edit_module::word::{Primitive, Word};
use hold_shapes::Place;
use std::alloc::{AllocError, Global};
use std::rc::Rc;
use texts::{Name, Str, Twin};

/// A word for the far document, and the bridge behind it.
#[derive(Drop)]
pub struct CarriedWord {
    /// What the word of the near document is for the far one.
    pub word: Word,
    /// The bridge between both documents after them.
    pub bridge: Bridge,
}

// The empty word.
pub(crate) fn nothing(alloc: Global, bridge: &Bridge) -> Result<CarriedWord, AllocError>
    ensures { IfOk result (λ it. carried_tree it ≡ (no_primitives, bridge_tree bridge.now)) }
{
    let bridge = bridge.twin(alloc)?;
    let word = Word::from_vec(Vec::new(alloc));
    Ok(CarriedWord { word, bridge })
}

// A word behind another, and the bridge behind both.
pub(crate) fn followed(first: CarriedWord, next: CarriedWord) -> Result<CarriedWord, AllocError>
    ensures { IfOk result (λ it.
        carried_tree it ≡ (joined (word_tree first.word) (word_tree next.word), bridge_tree next.bridge)) }
{
    let word = first.word.joined(next.word)?;
    Ok(CarriedWord {
        word,
        bridge: next.bridge,
    })
}

// A primitive as it is.
pub(crate) fn passed(
    alloc: Global,
    primitive: &Primitive,
    bridge: Bridge,
) -> Result<CarriedWord, AllocError>
    ensures { IfOk result (λ it. passes (primitive_tree primitive.now) (bridge_tree bridge) ≡ Ok (carried_tree it)) }
{
    let primitive = primitive.twin(alloc)?;
    let word = one(alloc, primitive)?;
    Ok(CarriedWord { word, bridge })
}

// The word of a primitive.
fn one(alloc: Global, primitive: Primitive) -> Result<Word, AllocError>
    ensures { IfOk result (λ w. word_tree w ≡ more_primitives (primitive_tree primitive) no_primitives) }
{
    let mut primitives = Vec::new(alloc);
    primitives.push(primitive)?;
    Ok(Word::from_vec(primitives))
}

// Where both documents have any value of a type without parts.
pub(crate) fn on_other(alloc: Global, primitive: &Primitive) -> Result<CarriedWord, CarryFault>
    ensures { MatchResult result
        (λ it. carry_other (primitive_tree primitive.now) ≡ Ok (carried_tree it))
        (λ fault. IsNotCarried (carry_other (primitive_tree primitive.now)) fault) }
{
    match primitive {
        Primitive::Set(_) => Ok(passed(alloc, primitive, Bridge::Same)?),
        Primitive::Add(_) => Ok(passed(alloc, primitive, Bridge::Other)?),
        _ => Err(CarryFault::NoApply(Cause::Kind)),
    }
}

// Where nothing of the near document is followed.
pub(crate) fn on_lost(alloc: Global, primitive: &Primitive) -> Result<CarriedWord, CarryFault>
    ensures { MatchResult result
        (λ it. carry_lost (primitive_tree primitive.now) ≡ Ok (carried_tree it))
        (λ fault. IsNotCarried (carry_lost (primitive_tree primitive.now)) fault) }
{
    match primitive {
        Primitive::Set(_) => Ok(passed(alloc, primitive, Bridge::Same)?),
        Primitive::Splice(..) | Primitive::Mod(..) | Primitive::Shape(_) => Err(CarryFault::Gone),
        _ => Err(CarryFault::NoApply(Cause::Kind)),
    }
}

// A splice, as splices of the far text.
pub(crate) fn spliced(
    alloc: Global,
    runs: &TextBridge,
    from: u64,
    count: u64,
    text: &Str,
) -> Result<CarriedWord, AllocError>
    ensures { IfOk result (λ it. carry_splice (is_utf8 text.now) runs.now from count text.now ≡ Ok (carried_tree it)) }
{
    a_text_is_utf8(text.as_str());
    let text = text.twin(alloc)?;
    let splice = Splice {
        at: from,
        count,
        text,
    };
    let carried = runs.carry(alloc, &splice)?;
    let word = splices(alloc, carried.splices)?;
    let runs = Rc::new(alloc, carried.bridge)?;
    Ok(CarriedWord {
        word,
        bridge: Bridge::Text(runs),
    })
}

// The word of splices, one after another.
fn splices(alloc: Global, pieces: Vec<Splice>) -> Result<Word, AllocError>
    ensures { IfOk result (λ w. word_tree w ≡ splices pieces.items) }
{
    let mut out = Vec::new(alloc);
    for piece in pieces {
        out.push(splice_of(piece))?;
    }
    Ok(Word::from_vec(out))
}

// The primitive of a splice.
fn splice_of(piece: Splice) -> Primitive
    ensures { primitive_tree result ≡ splice_of piece }
{
    Primitive::Splice(piece.at, piece.count, piece.text)
}

// The word of a field, and the bridges of all fields with the one behind it.
pub(crate) fn with_field(
    alloc: Global,
    bridges: &Bridges,
    place: usize,
    name: &Name,
    made: CarriedWord,
) -> Result<CarriedWord, AllocError>
    ensures word { IfOk result (λ it.
        word_tree it.word ≡ more_primitives (at name.now (word_tree made.word)) no_primitives) }
    ensures bridge { IfOk result (λ it.
        bridge_tree it.bridge ≡ parts (put_bridge_at (bridges_tree bridges.now) place (bridge_tree made.bridge))) }
{
    let name = name.twin(alloc)?;
    let word = one(alloc, Primitive::At(name, made.word))?;
    let next = bridges.with(alloc, place, made.bridge)?;
    Ok(CarriedWord {
        word,
        bridge: Bridge::Rec(next),
    })
}

// The word of the content of a tag, and the bridge behind it.
pub(crate) fn with_tag(
    alloc: Global,
    tag: &Name,
    made: CarriedWord,
) -> Result<CarriedWord, AllocError>
    ensures word { IfOk result (λ it.
        word_tree it.word ≡ more_primitives (stay tag.now (word_tree made.word)) no_primitives) }
    ensures bridge { IfOk result (λ it. bridge_tree it.bridge ≡ arm tag.now (bridge_tree made.bridge)) }
{
    let name = tag.twin(alloc)?;
    let word = one(alloc, Primitive::Stay(name, made.word))?;
    let bridge = Bridge::with_tag(alloc, tag, made.bridge)?;
    Ok(CarriedWord { word, bridge })
}

// A switch from a tag, where the near document has the tag `old` and the far one `new`.
pub(crate) fn switched(
    alloc: Global,
    old: &Name,
    new: &Name,
    from: &Name,
    to: &Name,
    word: &Word,
) -> Result<CarriedWord, CarryFault>
    ensures { MatchResult result
        (λ it. carry_switch old.now new.now from.now to.now (word_tree word.now) ≡ Ok (carried_tree it))
        (λ fault. IsNotCarried (carry_switch old.now new.now from.now to.now (word_tree word.now)) fault) }
{
    if !from.is_same(old) {
        return Err(CarryFault::NoApply(Cause::Tag));
    }
    let from = new.twin(alloc)?;
    let to = to.twin(alloc)?;
    let word = one(alloc, Primitive::Switch(from, to, word.twin(alloc)?))?;
    Ok(CarriedWord {
        word,
        bridge: Bridge::Same,
    })
}

// Why an edit of the content of a tag is refused, where the far document has left that of the near one.
pub(crate) fn left(held: &Name, old: &Name) -> CarryFault
    ensures { IsNotCarried (carry_left old.now held.now) result }
{
    if held.is_same(old) {
        CarryFault::Gone
    } else {
        CarryFault::NoApply(Cause::Tag)
    }
}

// The word of an item at its place in the far list, and the bridges of all items with the one behind it.
pub(crate) fn with_item(
    alloc: Global,
    links: &Rc<ListBridge>,
    bridges: &Bridges,
    index: u64,
    far: u64,
    made: CarriedWord,
) -> Result<CarriedWord, AllocError>
    ensures word { IfOk result (λ it.
        word_tree it.word ≡ more_primitives (modify (Index far) (word_tree made.word)) no_primitives) }
    ensures bridge { IfOk result (λ it. bridge_tree it.bridge ≡ linked links.now.value.0 links.now.value.1
        (put_bridge_at (bridges_tree bridges.now) index (bridge_tree made.bridge))) }
{
    let word = one(alloc, Primitive::Mod(Place::Index(far), made.word))?;
    let next = bridges.with(alloc, index as usize, made.bridge)?;
    Ok(CarriedWord {
        word,
        bridge: Bridge::List(links.clone()?, next),
    })
}
