//! Calls that allocate, and generic calls, each once.
ghost use Rattle.std.specs.Prelude.{◌≡◌, List, Ok, MatchResult, map, length};
ghost use Rattle.hold_shapes.specs.declared.shape.Shape.{Shape};
ghost use Rattle.hold_shapes.specs.declared.origins.Origin.{Origin};
ghost use Rattle.hold_shapes.specs.Causes.{IsRefusal};
ghost use Rattle.hold_shapes.specs.Shapes.{size_of};
ghost use Rattle.hold_shapes.specs.Plans.{plan as plan_of};
ghost use Rattle.hold_shapes.specs.Gather.{content_at};

use bridge_texts::{Splice, TextBridge};
use hold_shapes::{
    DepthSeq, Held, KeyedShape, ListShape, Origin, Origins, Path, Place, PlanFault, Shape,
    ShapeEdit, TreeShape, gather,
};
use law_shapes::plans_are_lawful;
use shared_lists::{Hint, SharedList};
use std::alloc::{AllocError, Global};
use texts::{Name, Names, Str, Twin, twin_all};

// Values of many variants are let go by `drop`, in one call. At the end of a block they would be dropped variant by
// variant, which takes long to prove.

fn name(alloc: Global, text: &str) -> Result<Name, AllocError> {
    Ok(Name::from_string(String::from_str(alloc, text)?))
}

fn text(alloc: Global, text: &str) -> Result<Str, AllocError> {
    Ok(Str::from_string(String::from_str(alloc, text)?))
}

// The keys "a" and "c".
fn keyed(alloc: Global) -> Result<Option<KeyedShape>, AllocError> {
    let names = vec![in alloc; name(alloc, "a")?, name(alloc, "c")?]?;
    Ok(KeyedShape::from_names(SharedList::from_vec(alloc, names)?))
}

// A root with two leaves.
fn tree(alloc: Global) -> Result<Option<TreeShape>, AllocError> {
    let depths = Vec::from_slice(alloc, &[0, 1, 1])?;
    Ok(TreeShape::from_depths(DepthSeq::from_vec(alloc, depths)?))
}

// Origins written one after another: a number for an old place, a star for a fresh one.
fn written(alloc: Global, from: &Origins) -> Result<String, AllocError> {
    let mut origins = String::new(alloc);
    for origin in from {
        match origin.twin(alloc)? {
            Origin::Old(place) => origins.push_str(format!(in alloc; "{place}")?.as_str())?,
            Origin::Fresh => origins.push_str("*")?,
        }
    }
    Ok(origins)
}

// A copy of a value, which is dropped.
fn copy_of<T: Twin + Drop>(alloc: Global, value: T) -> Result<T, AllocError> {
    value.twin(alloc)
}

// The origins of a copy of the plan of an edit.
fn planned<H: Held + Drop>(alloc: Global, held: H, edit: ShapeEdit) -> Result<String, AllocError> {
    let plan = held.plan(alloc, &edit);
    drop(edit);
    match plan {
        Ok(plan) => written(alloc, &copy_of(alloc, plan)?.from),
        Err(_) => Ok(String::new(alloc)),
    }
}

// One fresh item at the end of a list of two.
fn list_origins(alloc: Global) -> Result<String, AllocError> {
    planned(alloc, ListShape { count: 2 }, ShapeEdit::Ins(1))
}

// The key "b" between "a" and "c".
fn keyed_origins(alloc: Global) -> Result<String, AllocError> {
    match keyed(alloc)? {
        Some(keys) => put_origins(alloc, copy_of(alloc, keys)?),
        None => Ok(String::new(alloc)),
    }
}

fn put_origins(alloc: Global, keys: KeyedShape) -> Result<String, AllocError> {
    let edit = copy_of(alloc, ShapeEdit::PutKey(name(alloc, "b")?))?;
    planned(alloc, keys, edit)
}

// A fresh child of the first of two leaves.
fn tree_origins(alloc: Global) -> Result<String, AllocError> {
    match tree(alloc)? {
        Some(nodes) => graft_origins(alloc, copy_of(alloc, nodes)?),
        None => Ok(String::new(alloc)),
    }
}

fn graft_origins(alloc: Global, nodes: TreeShape) -> Result<String, AllocError> {
    let path = Path::from_vec(Vec::from_slice(alloc, &[0])?);
    planned(alloc, nodes, ShapeEdit::Graft(path))
}

// Old places and fresh ones, as a vector gives them.
fn given_origins(alloc: Global) -> Result<String, AllocError> {
    let origins = vec![in alloc;
        Origin::Old(4),
        Origin::Old(5),
        Origin::Fresh,
        Origin::Old(0),
    ]?;
    written(alloc, &Origins::from_vec(alloc, origins)?)
}

// How many places the longest list has after an edit, if there is a plan.
fn longest_after(alloc: Global, edit: ShapeEdit) -> Result<u64, PlanFault> {
    let longest = ListShape { count: u64::MAX };
    let plan = longest.plan(alloc, &edit);
    drop(edit);
    Ok(plan?.from.len())
}

// Whether a copy of a root with two leaves is the same shape.
fn is_tree_copied(alloc: Global) -> Result<Option<bool>, AllocError> {
    match tree(alloc)? {
        Some(nodes) => {
            let shape = Shape::Tree(nodes);
            let is_copied = is_copied(alloc, &shape);
            drop(shape);
            Ok(Some(is_copied?))
        }
        None => Ok(None),
    }
}

// Whether a copy of a shape of any kind is the same shape.
fn is_copied(alloc: Global, shape: &Shape) -> Result<bool, AllocError> {
    let copy = shape.twin(alloc)?;
    let is_same = copy.is_same(shape);
    drop(copy);
    Ok(is_same)
}

// The contents after an edit of the shape: the caller knows any shape through its trait alone.
fn contents_after<H: Held + Drop, T: Twin + Drop + Hint>(
    alloc: Global,
    held: &H,
    edit: &ShapeEdit,
    items: &SharedList<T>,
    fresh: &T,
) -> Result<SharedList<T>, PlanFault>
    requires { length items.now ≡ size_of (H.shape_of held.now) }
    ensures { MatchResult result
        (λ list. (shape : Shape) × (from : List Origin)
        × (plan_of (H.shape_of held.now) edit.now ≡ Ok (shape, from))
        × (map T.meaning list
        ≡ map (content_at (map T.meaning items.now) (T.meaning fresh.now)) from))
        (λ fault. IsRefusal (plan_of (H.shape_of held.now) edit.now) fault) }
{
    let plan = held.plan(alloc, edit)?;
    plans_are_lawful(held, edit);
    Ok(gather(alloc, &plan.from, items, fresh)?)
}

// The contents "x" and "y" after the first moved to the end, written one after another.
fn moved_contents(alloc: Global) -> Result<String, PlanFault> {
    let texts = vec![in alloc; text(alloc, "x")?, text(alloc, "y")?]?;
    let items = SharedList::from_vec(alloc, texts)?;
    prove!(items.len() == 2);
    let contents = moved(alloc, &items)?;
    Ok(together(alloc, &contents)?)
}

// The contents of a list of two after its first item moved to the end.
fn moved(alloc: Global, items: &SharedList<Str>) -> Result<SharedList<Str>, PlanFault>
    requires { length items.now ≡ 2 }
{
    let fresh = text(alloc, "-")?;
    let edit = ShapeEdit::MoveItem(0, 1);
    let contents = contents_after(alloc, &ListShape { count: 2 }, &edit, items, &fresh);
    drop(edit);
    contents
}

fn together(alloc: Global, texts: &SharedList<Str>) -> Result<String, AllocError> {
    let mut together = String::new(alloc);
    for text in texts {
        together.push_str(text.as_str())?;
    }
    Ok(together)
}

// The text "añb" with its last two characters replaced.
fn spliced(alloc: Global) -> Result<Option<Str>, AllocError> {
    let word = text(alloc, "añb")?.twin(alloc)?;
    word.splice(alloc, 1, 2, &text(alloc, "xyz")?)
}

// Whether copies of names, made one by one and together, are the same.
fn are_names_copied(alloc: Global) -> Result<bool, AllocError> {
    let names = vec![in alloc; name(alloc, "x")?, name(alloc, "y")?]?;
    let copies = twin_all(alloc, names.as_slice())?;
    let names = copy_of(alloc, Names::from_vec(names))?;
    Ok(Names::from_vec(copies).is_same(&names))
}

// Whether a copy of a place is the same.
fn is_place_copied(alloc: Global) -> Result<bool, AllocError> {
    let place = Place::Key(name(alloc, "k")?);
    let is_same = is_same_copy(alloc, &place);
    drop(place);
    is_same
}

fn is_same_copy(alloc: Global, place: &Place) -> Result<bool, AllocError> {
    let copy = place.twin(alloc)?;
    let is_same = copy.is_same(place);
    drop(copy);
    Ok(is_same)
}

#[test]
fn plans(rt: HostRuntime) {
    let alloc = rt.alloc();
    let list = list_origins(alloc).expect(&rt, "memory");
    assert_eq!(rt; list.as_str(), "01*");
    let keyed = keyed_origins(alloc).expect(&rt, "memory");
    assert_eq!(rt; keyed.as_str(), "0*1");
    let tree = tree_origins(alloc).expect(&rt, "memory");
    assert_eq!(rt; tree.as_str(), "01*2");
    assert_eq!(rt; is_tree_copied(alloc), Ok(Some(true)));
}

#[test]
fn origins(rt: HostRuntime) {
    let alloc = rt.alloc();
    let given = given_origins(alloc).expect(&rt, "memory");
    assert_eq!(rt; given.as_str(), "45*0");
    let shorter = longest_after(alloc, ShapeEdit::Del(1));
    assert_eq!(rt; shorter, Ok(u64::MAX - 1));
    let longer = longest_after(alloc, ShapeEdit::Ins(1));
    assert_eq!(rt; longer, Err(PlanFault::NoMemory));
}

#[test]
fn contents(rt: HostRuntime) {
    let moved = moved_contents(rt.alloc()).expect(&rt, "a plan");
    assert_eq!(rt; moved.as_str(), "yx");
}

#[test]
fn copies(rt: HostRuntime) {
    let alloc = rt.alloc();
    let spliced = spliced(alloc).expect(&rt, "memory");
    assert_eq!(rt; spliced.expect(&rt, "a range of the text").as_str(), "axyz");
    assert_eq!(rt; Str::empty(alloc).as_str(), "");
    assert_eq!(rt; are_names_copied(alloc), Ok(true));
    assert_eq!(rt; is_place_copied(alloc), Ok(true));
}

// "abc" became "aXbc" by a splice. One that makes "aYc" of "abc" is carried behind the X: it is written with its place,
// its count and its text.
fn carried_splice(alloc: Global) -> Result<String, AllocError> {
    let bridge = TextBridge::between_the_same(alloc).after_splice(alloc, 1, 0, 1)?;
    let splice = Splice {
        at: 1,
        count: 1,
        text: text(alloc, "Y")?,
    };
    let carried = bridge.carry(alloc, &splice)?;
    let mut out = format!(in alloc; "{}", carried.bridge.runs().len())?;
    for splice in &carried.splices {
        let text = splice.text.as_str();
        out.push_str(format!(in alloc; " {} {} {text}", splice.at, splice.count)?.as_str())?;
    }
    Ok(out)
}

#[test]
fn carried_splices(rt: HostRuntime) {
    let written = carried_splice(rt.alloc()).expect(&rt, "memory");
    assert_eq!(rt; written.as_str(), "2 2 1 Y");
}
