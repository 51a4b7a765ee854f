//! Files by forms, a row each: what is written of the document that a file is, or why it is none; and documents that no
//! file shows.

ghost use Rattle.std.specs.Prelude.{◌≡◌, true};
ghost use Rattle.file_forms.specs.Fitting.{is_fit};
ghost use Rattle.file_forms.specs.Forms.{file_form_tree};

use doc_values::Doc;
use file_forms::{FileForm, Literal};
use file_trees::{read_file, write_file};
use file_values::{FileMisfit, FileStep, ReadCause, ReadFault, WriteFault, read_tree, write_tree};
use std::alloc::{AllocError, Global};
use std::test::Fail;
use texts::{Name, Names, Str};

fn name(alloc: Global, text: &str) -> Result<Name, AllocError> {
    Ok(Name::from_string(String::from_str(alloc, text)?))
}

// A record of a truth value, a text that may be left out, a number, a list of texts and a keyed map of ints.
fn task(alloc: Global) -> Result<FileForm, Fail> {
    let mut fields = Vec::new(alloc);
    fields.push((name(alloc, "done")?, FileForm::Bool))?;
    fields.push((name(alloc, "note")?, note(alloc)?))?;
    fields.push((name(alloc, "size")?, FileForm::Number(Str::empty(alloc))))?;
    fields.push((name(alloc, "tags")?, tags(alloc)?))?;
    fields.push((
        name(alloc, "who")?,
        FileForm::Map(Box::new(alloc, FileForm::Int(0))?),
    ))?;
    Ok(FileForm::Object(fields))
}

fn note(alloc: Global) -> Result<FileForm, Fail> {
    let mut tags = Vec::new(alloc);
    tags.push((name(alloc, "none")?, FileForm::Literal(Literal::Gone)))?;
    tags.push((name(alloc, "some")?, FileForm::Text(Str::empty(alloc))))?;
    Ok(FileForm::Bare(tags))
}

fn tags(alloc: Global) -> Result<FileForm, Fail> {
    let inner = FileForm::Text(Str::empty(alloc));
    Ok(FileForm::Items(Box::new(alloc, inner)?))
}

// Alternatives with their tags: null, or a color.
fn paint(alloc: Global) -> Result<FileForm, Fail> {
    let mut tags = Vec::new(alloc);
    tags.push((name(alloc, "none")?, FileForm::Literal(Literal::Null)))?;
    tags.push((name(alloc, "one")?, color(alloc)?))?;
    Ok(FileForm::Tagged(tags))
}

fn color(alloc: Global) -> Result<FileForm, Fail> {
    let members = vec![in alloc; name(alloc, "blue")?, name(alloc, "red")?]?;
    Ok(FileForm::Enum(Names::from_vec(members), name(alloc, "blue")?))
}

// What is written of the document that a file is.
fn written(alloc: Global, form: FileForm, bytes: &[u8]) -> Result<Vec<u8>, Fail> {
    let text = written_by(alloc, &form, bytes);
    drop(form);
    text
}

fn written_by(alloc: Global, form: &FileForm, bytes: &[u8]) -> Result<Vec<u8>, Fail> {
    let tree = read_file(alloc, bytes)?;
    let doc = read_tree(alloc, form, &tree);
    drop(tree);
    let doc = doc?;
    let text = text_of(alloc, form, &doc);
    drop(doc);
    text
}

// The file of a document by a form, which has to be fit.
fn text_of(alloc: Global, form: &FileForm, doc: &Doc) -> Result<Vec<u8>, Fail> {
    match form.misfit(alloc)? {
        None => text_by_fit(alloc, form, doc),
        Some(misfit) => {
            drop(misfit);
            return Err("the form is not fit")?;
        }
    }
}

fn text_by_fit(alloc: Global, form: &FileForm, doc: &Doc) -> Result<Vec<u8>, Fail>
    requires { is_fit (file_form_tree form.now) ≡ true }
{
    let tree = write_tree(alloc, form, doc)?;
    let text = write_file(alloc, &tree);
    drop(tree);
    Ok(text?)
}

// Where a file is not as its form has it: names and places, each with a slash before it.
fn place(alloc: Global, misfit: &FileMisfit) -> Result<String, AllocError> {
    let mut text = String::new(alloc);
    for step in &misfit.place {
        text.push_str("/")?;
        match step {
            FileStep::Member(name) => text.push_str(name.as_str())?,
            FileStep::Item(place) => text.push_str(format!(in alloc; "{place}")?.as_str())?,
        }
    }
    Ok(text)
}

// The place and the cause of a file that is not as its form has it.
fn misfit(alloc: Global, form: FileForm, bytes: &[u8]) -> Result<(String, ReadCause), Fail> {
    let tree = read_file(alloc, bytes)?;
    let found = read_tree(alloc, &form, &tree);
    drop(tree);
    drop(form);
    match found {
        Ok(doc) => {
            drop(doc);
            return Err("the file is as its form has it")?;
        }
        Err(ReadFault::Misfit(misfit)) => {
            let at = place(alloc, &misfit)?;
            Ok((at, misfit.cause))
        }
        Err(ReadFault::NoMemory) => return Err("memory ran out")?,
    }
}

#[test]
fn records_come_back(rt: HostRuntime) -> Result<(), Fail> {
    for (text, wanted) in [
        // A member may be left out where its form says so.
        (
            "{\"done\":true,\"size\":1.50,\"tags\":[],\"who\":{}}",
            "{\"done\":true,\"size\":1.50,\"tags\":[],\"who\":{}}",
        ),
        // Members are written in byte order, and numbers keep their letters.
        (
            "{\"who\":{\"b\":-2,\"a\":1},\"tags\":[\"y\",\"x\"],\"size\":-0,\"note\":\"n\",\"done\":false}",
            "{\"done\":false,\"note\":\"n\",\"size\":-0,\"tags\":[\"y\",\"x\"],\"who\":{\"a\":1,\"b\":-2}}",
        ),
        (
            "{\"done\":true,\"size\":1e400,\"tags\":[],\"who\":{\"\":-9223372036854775808}}",
            "{\"done\":true,\"size\":1e400,\"tags\":[],\"who\":{\"\":-9223372036854775808}}",
        ),
    ] {
        let bytes = written(rt.alloc(), task(rt.alloc())?, text.as_bytes())?;
        assert_eq!(rt; bytes.as_slice(), wanted.as_bytes());
    }
    Ok(())
}

#[test]
fn alternatives_come_back(rt: HostRuntime) -> Result<(), Fail> {
    for text in ["{\"none\":null}", "{\"one\":\"red\"}"] {
        let bytes = written(rt.alloc(), paint(rt.alloc())?, text.as_bytes())?;
        assert_eq!(rt; bytes.as_slice(), text.as_bytes());
    }
    Ok(())
}

// A member of an enum as any literal.
fn level(alloc: Global) -> Result<FileForm, Fail> {
    let mut words = Vec::new(alloc);
    words.push((
        name(alloc, "high")?,
        Literal::Number(letters(alloc, "1.0")?),
    ))?;
    words.push((name(alloc, "low")?, Literal::Number(letters(alloc, "1")?)))?;
    words.push((name(alloc, "none")?, Literal::Null))?;
    words.push((name(alloc, "off")?, Literal::Bool(false)))?;
    words.push((name(alloc, "on")?, Literal::Text(letters(alloc, "yes")?)))?;
    Ok(FileForm::Words(words, name(alloc, "low")?))
}

fn letters(alloc: Global, text: &str) -> Result<Str, AllocError> {
    Ok(Str::from_string(String::from_str(alloc, text)?))
}

// A truth value as a number.
fn flag(alloc: Global) -> Result<FileForm, Fail> {
    let no = Literal::Number(letters(alloc, "0")?);
    let yes = Literal::Number(letters(alloc, "1")?);
    Ok(FileForm::Truths(no, yes))
}

#[test]
fn literals_come_back(rt: HostRuntime) -> Result<(), Fail> {
    for text in ["1.0", "1", "null", "false", "\"yes\""] {
        let bytes = written(rt.alloc(), level(rt.alloc())?, text.as_bytes())?;
        assert_eq!(rt; bytes.as_slice(), text.as_bytes());
    }
    for text in ["0", "1"] {
        let bytes = written(rt.alloc(), flag(rt.alloc())?, text.as_bytes())?;
        assert_eq!(rt; bytes.as_slice(), text.as_bytes());
    }
    Ok(())
}

#[test]
fn other_literals(rt: HostRuntime) -> Result<(), Fail> {
    for text in ["1.00", "10e-1", "true", "\"no\"", "[]", "{}"] {
        let (place, found) = misfit(rt.alloc(), level(rt.alloc())?, text.as_bytes())?;
        assert_eq!(rt; place.as_str(), "");
        assert!(rt; found == ReadCause::NotAMember);
    }
    for text in ["2", "1.0", "false", "null"] {
        let (place, found) = misfit(rt.alloc(), flag(rt.alloc())?, text.as_bytes())?;
        assert_eq!(rt; place.as_str(), "");
        assert!(rt; found == ReadCause::OtherLiteral);
    }
    Ok(())
}

#[test]
fn misfits_of_records(rt: HostRuntime) -> Result<(), Fail> {
    for (text, at, cause) in [
        ("[]", "", ReadCause::OtherSort),
        // A member that no field has comes first.
        ("{\"done\":1,\"zip\":1}", "/zip", ReadCause::NoField),
        ("{\"done\":1}", "/done", ReadCause::OtherSort),
        ("{}", "/done", ReadCause::Missing),
        ("{\"done\":true,\"note\":null}", "/note", ReadCause::NoTag),
        (
            "{\"done\":true,\"size\":\"1\"}",
            "/size",
            ReadCause::OtherSort,
        ),
        (
            "{\"done\":true,\"size\":1,\"tags\":[\"a\",1,2]}",
            "/tags/1",
            ReadCause::OtherSort,
        ),
        // The members of a keyed map come in byte order.
        (
            "{\"done\":true,\"size\":1,\"tags\":[],\"who\":{\"c\":null,\"b\":1.0,\"a\":1}}",
            "/who/b",
            ReadCause::NotAnInt,
        ),
        (
            "{\"done\":true,\"size\":1,\"tags\":[],\"who\":{\"a\":9223372036854775808}}",
            "/who/a",
            ReadCause::NotAnInt,
        ),
    ] {
        let (place, found) = misfit(rt.alloc(), task(rt.alloc())?, text.as_bytes())?;
        assert_eq!(rt; place.as_str(), at);
        assert!(rt; found == cause);
    }
    Ok(())
}

#[test]
fn misfits_of_alternatives(rt: HostRuntime) -> Result<(), Fail> {
    for (text, at, cause) in [
        ("{}", "", ReadCause::NotOneTag),
        ("{\"two\":null}", "", ReadCause::NotOneTag),
        ("{\"none\":null,\"one\":\"red\"}", "", ReadCause::NotOneTag),
        ("{\"none\":false}", "/none", ReadCause::OtherLiteral),
        ("{\"one\":\"rot\"}", "/one", ReadCause::NotAMember),
        ("{\"one\":null}", "/one", ReadCause::OtherSort),
    ] {
        let (place, found) = misfit(rt.alloc(), paint(rt.alloc())?, text.as_bytes())?;
        assert_eq!(rt; place.as_str(), at);
        assert!(rt; found == cause);
    }
    Ok(())
}

// Whether the document is refused since no file of the form shows it.
fn is_without_file(alloc: Global, form: FileForm, doc: Doc) -> bool {
    let written = write_tree(alloc, &form, &doc);
    drop(doc);
    drop(form);
    match written {
        Ok(tree) => {
            drop(tree);
            false
        }
        Err(fault) => fault == WriteFault::NoFile,
    }
}

#[test]
fn documents_without_a_file(rt: HostRuntime) -> Result<(), Fail> {
    let alloc = rt.alloc();
    for letters in ["", "+1", "1.", "01"] {
        let text = Str::from_string(String::from_str(alloc, letters)?);
        let form = FileForm::Number(Str::empty(alloc));
        assert!(rt; is_without_file(alloc, form, Doc::Text(text)));
    }
    let green = name(alloc, "green")?;
    assert!(rt; is_without_file(alloc, color(alloc)?, Doc::Pick(green)));
    assert!(rt; is_without_file(alloc, FileForm::Bool, Doc::Int(1)));
    Ok(())
}
