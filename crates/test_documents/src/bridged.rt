//! Words that are carried over a bridge: each row.

use crate::bridged_rows::{CARRIED, DOCUMENT};
use crate::tests::{document, name, word};
use bridge_core::{Bridge, CarriedWord, CarryFault, bridge_of, carry};
use doc_values::{Doc, Fields, Ty};
use edit_json::append_word;
use edit_module::ActFault;
use std::alloc::Global;
use std::test::Fail;
use texts::Str;

fn text_ty(alloc: Global) -> Result<Ty, Fail> {
    Ok(Ty::Text(Str::from_string(String::new(alloc))))
}

fn list_ty(alloc: Global) -> Result<Ty, Fail> {
    Ok(Ty::List(Box::new(alloc, Ty::Int(0))?))
}

fn keyed_ty(alloc: Global) -> Result<Ty, Fail> {
    Ok(Ty::Keyed(Box::new(alloc, Ty::Int(0))?))
}

fn lines_ty(alloc: Global) -> Result<Ty, Fail> {
    Ok(Ty::List(Box::new(alloc, text_ty(alloc)?)?))
}

fn tags_ty(alloc: Global) -> Result<Ty, Fail> {
    let mut tags = Vec::new(alloc);
    tags.push((name(alloc, "a")?, Ty::Int(0)))?;
    tags.push((name(alloc, "b")?, text_ty(alloc)?))?;
    Ok(Ty::Alt(Fields::from_vec(tags)))
}

// The type of the document.
fn row_ty(alloc: Global) -> Result<Ty, Fail> {
    let mut fields = Vec::new(alloc);
    fields.push((name(alloc, "alt")?, tags_ty(alloc)?))?;
    fields.push((name(alloc, "flag")?, Ty::Bool))?;
    fields.push((name(alloc, "items")?, list_ty(alloc)?))?;
    fields.push((name(alloc, "keys")?, keyed_ty(alloc)?))?;
    fields.push((name(alloc, "lines")?, lines_ty(alloc)?))?;
    fields.push((name(alloc, "n")?, Ty::Int(0)))?;
    fields.push((name(alloc, "text")?, text_ty(alloc)?))?;
    Ok(Ty::Rec(Fields::from_vec(fields)))
}

// The bridge from a document to what the word of a text makes of it, if it acts there. It fails if the document does
// not have the type.
fn bridge_after(alloc: Global, ty: &Ty, doc: &Doc, text: &str) -> Result<Option<Bridge>, Fail> {
    if !ty.is_well_formed() || !doc.has_type(ty) {
        return Err("the document has another type")?;
    }
    let accepted = word(alloc, text)?;
    let bridge = bridge_of(alloc, ty, &accepted, doc);
    drop(accepted);
    match bridge {
        Ok(bridge) => Ok(Some(bridge)),
        Err(ActFault::NoApply { .. }) => Ok(None),
        Err(ActFault::NoMemory) => Err("out of memory")?,
    }
}

// What the word of a text becomes, or why it is refused.
fn carried(alloc: Global, ty: &Ty, bridge: &Bridge, text: &str) -> Result<String, Fail> {
    let offered = word(alloc, text)?;
    let found = carry(alloc, ty, bridge, &offered);
    drop(offered);
    match found {
        Ok(it) => written(alloc, it),
        Err(CarryFault::Gone) => Ok(String::from_str(alloc, "Gone")?),
        Err(CarryFault::NoApply(cause)) => Ok(format!(in alloc; "{cause:?}")?),
        Err(CarryFault::NoMemory) => Err("out of memory")?,
    }
}

fn written(alloc: Global, it: CarriedWord) -> Result<String, Fail> {
    let text = append_word(Vec::new(alloc), &it.word);
    drop(it);
    Ok(String::from_utf8(text?)?)
}

// What the second word of a row becomes.
fn row(alloc: Global, ty: &Ty, accepted: &str, offered: &str) -> Result<String, Fail> {
    let doc = document(alloc, ty, DOCUMENT)?;
    let bridge = bridge_after(alloc, ty, &doc, accepted);
    drop(doc);
    let Some(bridge) = bridge? else {
        return Ok(String::from_str(alloc, "no bridge")?);
    };
    let found = carried(alloc, ty, &bridge, offered);
    drop(bridge);
    found
}

#[test]
fn rows(rt: HostRuntime) -> Result<(), Fail> {
    let alloc = rt.alloc();
    let ty = row_ty(alloc)?;
    for (accepted, offered, wanted) in CARRIED {
        let found = row(alloc, &ty, accepted, offered)?;
        assert_eq!(rt; found.as_str(), wanted);
    }
    Ok(())
}
