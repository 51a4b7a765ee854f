//! Each call that allocates, once.

use doc_values::{Doc, Docs, Fields, Ty, init};
use edit_journal::{Line, append_change, read_entry};
use edit_json::{append_word, has_tree, read_word};
use edit_module::{Word, act};
use serde_json::Value;
use std::alloc::Global;
use std::test::Fail;
use texts::{Name, Names, Str, Twin};
use value_json::{read_counts, read_doc, write_counts, write_doc_text};

// Values of many variants are let go by `drop`, in one call. At the end of a block they would be dropped variant by
// variant, which takes long to prove.

// The type of records of a list of ints `a`.
fn record_ty(alloc: Global) -> Result<Ty, Fail> {
    let field = name(alloc, "a")?;
    let list = Ty::List(Box::new(alloc, Ty::Int(0))?);
    Ok(Ty::Rec(Fields::from_vec(vec![in alloc; (field, list)]?)))
}

pub(crate) fn name(alloc: Global, text: &str) -> Result<Name, Fail> {
    Ok(Name::from_string(String::from_str(alloc, text)?))
}

// A copy of that type.
fn record_copy(alloc: Global) -> Result<Ty, Fail> {
    let ty = record_ty(alloc)?;
    let copy = ty.twin(alloc);
    drop(ty);
    Ok(copy?)
}

// The type of records of an enum `e`, an int `n` and a text `t`, with initial values that are not the usual ones.
fn declared_ty(alloc: Global) -> Result<Ty, Fail> {
    let mut fields = Vec::new(alloc);
    fields.push((name(alloc, "e")?, declared_enum(alloc)?))?;
    fields.push((name(alloc, "n")?, Ty::Int(-7)))?;
    fields.push((name(alloc, "t")?, declared_text(alloc)?))?;
    Ok(Ty::Rec(Fields::from_vec(fields)))
}

fn declared_enum(alloc: Global) -> Result<Ty, Fail> {
    let members = Names::from_vec(vec![in alloc; name(alloc, "a")?, name(alloc, "b")?]?);
    Ok(Ty::Enum(members, name(alloc, "b")?))
}

fn declared_text(alloc: Global) -> Result<Ty, Fail> {
    let text = String::from_str(alloc, "x")?;
    Ok(Ty::Text(Str::from_string(text)))
}

// A record of two ints.
fn pair(alloc: Global, first: i64, second: i64) -> Result<Docs, Fail> {
    Ok(Docs::from_vec(alloc, vec![in alloc; Doc::Int(first), Doc::Int(second)]?)?)
}

// Whether the items are those of this pair.
fn is_pair(alloc: Global, items: Docs, first: i64, second: i64) -> Result<bool, Fail> {
    let wanted = Doc::Rec(pair(alloc, first, second)?);
    let record = Doc::Rec(items);
    let is_same = record.is_same(&wanted);
    drop(record);
    drop(wanted);
    Ok(is_same)
}

pub(crate) fn document(alloc: Global, ty: &Ty, text: &str) -> Result<Doc, Fail> {
    let tree = Value::from_str(alloc, text)?;
    let read = read_doc(alloc, ty, &tree);
    drop(tree);
    Ok(read?)
}

pub(crate) fn word(alloc: Global, text: &str) -> Result<Word, Fail> {
    let tree = Value::from_str(alloc, text)?;
    let read = read_word(alloc, &tree);
    drop(tree);
    Ok(read?)
}

// The text of the initial value of a type. It fails if the type is ill formed.
fn initial_text(alloc: Global, ty: &Ty) -> Result<String, Fail> {
    if !ty.is_well_formed() {
        return Err("the type is ill formed")?;
    }
    let fresh = init(alloc, ty)?;
    let text = write_doc_text(alloc, ty, &fresh);
    drop(fresh);
    Ok(text?)
}

// Whether a copy of the document of this text is the same.
fn is_copied(alloc: Global, ty: &Ty, text: &str) -> Result<bool, Fail> {
    let doc = document(alloc, ty, text)?;
    let is_same = is_same_copy(alloc, &doc);
    drop(doc);
    is_same
}

fn is_same_copy(alloc: Global, doc: &Doc) -> Result<bool, Fail> {
    let copy = doc.twin(alloc)?;
    let is_same = copy.is_same(doc);
    drop(copy);
    Ok(is_same)
}

// The text of the initial value of a type, and whether a copy of the document of a text is the same.
fn initial_and_copied(alloc: Global, ty: &Ty, doc: &str) -> Result<(String, bool), Fail> {
    let text = initial_text(alloc, ty)?;
    Ok((text, is_copied(alloc, ty, doc)?))
}

#[test]
fn documents(rt: HostRuntime) -> Result<(), Fail> {
    let alloc = rt.alloc();
    let ty = record_copy(alloc)?;
    let found = initial_and_copied(alloc, &ty, "{\"a\":[4,5]}");
    drop(ty);
    let (text, is_copied) = found?;
    assert_eq!(rt; text.as_str(), "{\"a\":[]}");
    assert!(rt; is_copied);
    Ok(())
}

// The text of the initial value of a type, and whether a copy of the type is the same.
fn initial_and_same(alloc: Global, ty: &Ty) -> Result<(String, bool), Fail> {
    let text = initial_text(alloc, ty)?;
    let copy = ty.twin(alloc)?;
    let is_same = copy.is_same(ty);
    drop(copy);
    Ok((text, is_same))
}

#[test]
fn initial_values(rt: HostRuntime) -> Result<(), Fail> {
    let alloc = rt.alloc();
    let ty = declared_ty(alloc)?;
    let found = initial_and_same(alloc, &ty);
    drop(ty);
    let (text, is_same) = found?;
    assert_eq!(rt; text.as_str(), "{\"e\":\"b\",\"n\":-7,\"t\":\"x\"}");
    assert!(rt; is_same);
    Ok(())
}

// A copy of a pair, whose second item is then another one. It fails if the copy is not of two items.
fn changed(alloc: Global, pair: &Docs) -> Result<Docs, Fail> {
    let mut copy = pair.twin(alloc)?;
    if copy.len() != 2 {
        return Err("the copy has another length")?;
    }
    copy.set(alloc, 1, Doc::Int(6))?;
    Ok(copy)
}

#[test]
fn shared_contents(rt: HostRuntime) -> Result<(), Fail> {
    let alloc = rt.alloc();
    let before = pair(alloc, 4, 5)?;
    let after = changed(alloc, &before)?;
    assert!(rt; is_pair(alloc, after, 4, 6)?);
    assert!(rt; is_pair(alloc, before, 4, 5)?);
    assert!(rt; Docs::empty().is_empty());
    Ok(())
}

// The text of the document after the word of this text. It fails if the type is ill formed or the document does not
// have it.
fn text_after(alloc: Global, ty: &Ty, doc: &Doc, edit: &str) -> Result<String, Fail> {
    if !ty.is_well_formed() || !doc.has_type(ty) {
        return Err("the document has another type")?;
    }
    let edit = word(alloc, edit)?;
    let after = act(alloc, ty, &edit, doc)?;
    let text = write_doc_text(alloc, ty, &after);
    drop(after);
    Ok(text?)
}

// The text of the document of a first text after the word of a second one.
fn acted(alloc: Global, ty: &Ty, doc: &str, edit: &str) -> Result<String, Fail> {
    let doc = document(alloc, ty, doc)?;
    let text = text_after(alloc, ty, &doc, edit);
    drop(doc);
    text
}

#[test]
fn actions(rt: HostRuntime) -> Result<(), Fail> {
    let alloc = rt.alloc();
    let ty = record_ty(alloc)?;
    let edit = "[{\"at\":[\"a\",[{\"ins\":1},{\"move\":[2,0]}]]}]";
    let text = acted(alloc, &ty, "{\"a\":[4,5]}", edit);
    drop(ty);
    assert_eq!(rt; text?.as_str(), "{\"a\":[0,4,5]}");
    Ok(())
}

// A word and a copy of another one, joined.
fn both_words(alloc: Global) -> Result<Word, Fail> {
    let first = word(alloc, "[{\"put\":\"k\"}]")?;
    let second = word_copy(alloc, "[{\"mod\":[\"k\",[{\"set\":true}]]}]")?;
    Ok(first.joined(second)?)
}

fn word_copy(alloc: Global, text: &str) -> Result<Word, Fail> {
    let word = word(alloc, text)?;
    Ok(word.twin(alloc)?)
}

#[test]
fn words(rt: HostRuntime) -> Result<(), Fail> {
    let alloc = rt.alloc();
    let both = both_words(alloc)?;
    assert!(rt; has_tree(&both));
    let text = append_word(Vec::new(alloc), &both)?;
    let wanted = "[{\"put\":\"k\"},{\"mod\":[\"k\",[{\"set\":true}]]}]";
    assert_eq!(rt; text.as_slice(), wanted.as_bytes());
    Ok(())
}

// The text of a copy of the change of a line.
fn change_text(alloc: Global, line: &Line) -> Result<Vec<u8>, Fail> {
    let change = read_entry(alloc, line)?;
    let copy = change.twin(alloc)?;
    Ok(append_change(Vec::new(alloc), &copy)?)
}

#[test]
fn lines(rt: HostRuntime) -> Result<(), Fail> {
    let alloc = rt.alloc();
    let line = Line::from_slice(alloc, b"{\"side\":\"left\",\"edit\":[{\"add\":1}]}")?;
    let text = change_text(alloc, &line.twin(alloc)?)?;
    let wanted = "{\"edit\":[{\"add\":1}],\"side\":\"left\"}";
    assert_eq!(rt; text.as_slice(), wanted.as_bytes());
    Ok(())
}

#[test]
fn groups(rt: HostRuntime) -> Result<(), Fail> {
    let alloc = rt.alloc();
    let line = Line::from_slice(
        alloc,
        b"{\"group\":[{\"side\":\"right\",\"edit\":[]},{\"side\":\"left\",\"edit\":[{\"add\":1}]}]}",
    )?;
    let text = change_text(alloc, &line)?;
    let wanted =
        "{\"group\":[{\"edit\":[],\"side\":\"right\"},{\"edit\":[{\"add\":1}],\"side\":\"left\"}]}";
    assert_eq!(rt; text.as_slice(), wanted.as_bytes());
    Ok(())
}

// The numbers of the array that these are written as.
fn written_and_read(alloc: Global, numbers: &[u64]) -> Result<Option<Vec<u64>>, Fail> {
    let tree = write_counts(alloc, numbers)?;
    let counts = counts_of(alloc, &tree);
    drop(tree);
    counts
}

fn counts_of(alloc: Global, tree: &Value) -> Result<Option<Vec<u64>>, Fail> {
    let Some(items) = tree.as_array() else {
        return Err("no array")?;
    };
    Ok(read_counts(alloc, items)?)
}

#[test]
fn numbers(rt: HostRuntime) -> Result<(), Fail> {
    let counts = written_and_read(rt.alloc(), &[0, 18446744073709551615])?;
    assert!(rt; counts.is_some_and(|all| all.len() == 2 && all[1] == 18446744073709551615));
    Ok(())
}
