//! Files as bytes and forms as values, a row each.

use file_forms::{FileForm, FormFault, FormMisfit, FormStep, Literal};
use file_trees::{FileFault, read_file, write_file};
use std::alloc::{AllocError, Global};
use std::test::Fail;
use texts::{Name, Str};

// What is written of the tree of a file.
fn rewritten(alloc: Global, bytes: &[u8]) -> Result<Vec<u8>, Fail> {
    let tree = read_file(alloc, bytes)?;
    let written = write_file(alloc, &tree);
    drop(tree);
    Ok(written?)
}

// Why the bytes are not a file. It fails if they are one.
fn refusal(alloc: Global, bytes: &[u8]) -> Result<FileFault, Fail> {
    match read_file(alloc, bytes) {
        Ok(tree) => {
            drop(tree);
            return Err("the bytes are a file")?;
        }
        Err(fault) => Ok(fault),
    }
}

// The text of an array in arrays, as many as `levels`.
fn nested(alloc: Global, levels: usize) -> Result<Vec<u8>, Fail> {
    let mut text = Vec::new(alloc);
    for _ in 0..levels {
        text.push(b'[')?;
    }
    for _ in 0..levels {
        text.push(b']')?;
    }
    Ok(text)
}

#[test]
fn written_again(rt: HostRuntime) -> Result<(), Fail> {
    for (text, wanted) in [
        // Numbers keep their letters.
        (
            " [1.50, -0 ,1e400,\t100000000000000000000000]\n",
            "[1.50,-0,1e400,100000000000000000000000]",
        ),
        // Members keep their order.
        (
            "{\"b\":1, \"a\" : {\"d\":null,\"c\":[true,false]}}",
            "{\"b\":1,\"a\":{\"d\":null,\"c\":[true,false]}}",
        ),
        // Escapes are the shortest.
        ("[\"\\u0061\\/\\n\\u0001\",\"\"]", "[\"a/\\n\\u0001\",\"\"]"),
        ("[ {} , [ ] ]", "[{},[]]"),
    ] {
        let bytes = rewritten(rt.alloc(), text.as_bytes())?;
        assert_eq!(rt; bytes.as_slice(), wanted.as_bytes());
    }
    Ok(())
}

#[test]
fn refused(rt: HostRuntime) -> Result<(), Fail> {
    for (bytes, wanted) in [
        (b"\"\xff\"".as_slice(), FileFault::NotUtf8),
        (b"[1,]".as_slice(), FileFault::NotJson),
        (b"\xef\xbb\xbf[]".as_slice(), FileFault::NotJson),
        (b"".as_slice(), FileFault::NotJson),
        (b"{\"a\":1,\"\\u0061\":2}".as_slice(), FileFault::NameTwice),
    ] {
        assert!(rt; refusal(rt.alloc(), bytes)? == wanted);
    }
    Ok(())
}

#[test]
fn levels(rt: HostRuntime) -> Result<(), Fail> {
    let alloc = rt.alloc();
    let deep = nested(alloc, 129)?;
    assert!(rt; refusal(alloc, deep.as_slice())? == FileFault::NotJson);
    let allowed = nested(alloc, 128)?;
    let bytes = rewritten(alloc, allowed.as_slice())?;
    assert_eq!(rt; bytes.as_slice(), allowed.as_slice());
    Ok(())
}

// A field or a tag with a form.
fn named(alloc: Global, name: &str, form: FileForm) -> Result<(Name, FileForm), AllocError> {
    Ok((Name::from_string(String::from_str(alloc, name)?), form))
}

// Two fields, or two tags.
fn two(
    alloc: Global,
    first: &str,
    one: FileForm,
    second: &str,
    other: FileForm,
) -> Result<Vec<(Name, FileForm)>, AllocError> {
    let one = named(alloc, first, one)?;
    let other = named(alloc, second, other)?;
    Ok(vec![in alloc; one, other]?)
}

// Where a form is not fit: the names on the way, each with a slash before it, and `*` for contents.
fn place(alloc: Global, misfit: &FormMisfit) -> Result<String, AllocError> {
    let mut text = String::new(alloc);
    for step in &misfit.place {
        text.push_str("/")?;
        match step {
            FormStep::Named(name) => text.push_str(name.as_str())?,
            FormStep::Inside => text.push_str("*")?,
        }
    }
    Ok(text)
}

// The place and the fault of a form that is not fit.
fn misfit(alloc: Global, form: FileForm) -> Result<(String, FormFault), Fail> {
    let found = form.misfit(alloc)?;
    drop(form);
    match found {
        Some(misfit) => {
            let at = place(alloc, &misfit)?;
            Ok((at, misfit.fault))
        }
        None => return Err("the form is fit")?,
    }
}

#[test]
fn contents_alone(rt: HostRuntime) -> Result<(), Fail> {
    let alloc = rt.alloc();
    let null = FileForm::Literal(Literal::Null);
    let gone = FileForm::Literal(Literal::Gone);
    let fit = FileForm::Bare(two(alloc, "a", null, "b", gone)?);
    assert!(rt; fit.misfit(alloc)?.is_none());
    drop(fit);
    let same = two(
        alloc,
        "a",
        FileForm::Int(1),
        "b",
        FileForm::Number(Str::empty(alloc)),
    )?;
    let (at, fault) = misfit(alloc, FileForm::Bare(same))?;
    assert_eq!(rt; at.as_str(), "/a");
    assert!(rt; fault == FormFault::SameSlot);
    Ok(())
}

#[test]
fn fields_and_tags(rt: HostRuntime) -> Result<(), Fail> {
    let alloc = rt.alloc();
    let fields = FileForm::Object(two(alloc, "b", FileForm::Bool, "a", FileForm::Bool)?);
    let outer = two(
        alloc,
        "x",
        FileForm::Bool,
        "y",
        FileForm::Items(Box::new(alloc, fields)?),
    )?;
    let (at, fault) = misfit(alloc, FileForm::Object(outer))?;
    assert_eq!(rt; at.as_str(), "/y/*/a");
    assert!(rt; fault == FormFault::FieldOrder);
    let tags = FileForm::Tagged(two(alloc, "a", FileForm::Bool, "a", FileForm::Int(0))?);
    let (at, fault) = misfit(alloc, tags)?;
    assert_eq!(rt; at.as_str(), "/a");
    assert!(rt; fault == FormFault::TagTwice);
    Ok(())
}

// A member of an enum with its literal, a number.
fn word(alloc: Global, name: &str, letters: &str) -> Result<(Name, Literal), AllocError> {
    let name = Name::from_string(String::from_str(alloc, name)?);
    let letters = Str::from_string(String::from_str(alloc, letters)?);
    Ok((name, Literal::Number(letters)))
}

// The form of an enum with two members as numbers.
fn words(
    alloc: Global,
    first: &str,
    one: &str,
    second: &str,
    other: &str,
) -> Result<FileForm, AllocError> {
    let one = word(alloc, first, one)?;
    let other = word(alloc, second, other)?;
    let initial = Name::from_string(String::from_str(alloc, first)?);
    Ok(FileForm::Words(vec![in alloc; one, other]?, initial))
}

#[test]
fn literals_of_members(rt: HostRuntime) -> Result<(), Fail> {
    let alloc = rt.alloc();
    let fit = words(alloc, "a", "1", "b", "1.0")?;
    assert!(rt; fit.misfit(alloc)?.is_none());
    drop(fit);
    for (first, one, second, other, wanted, fault) in [
        ("a", "1", "a", "2", "/a", FormFault::MemberTwice),
        ("a", "1", "b", "1", "/a", FormFault::SameLiteral),
        ("a", "1", "b", "1.", "/b", FormFault::NotANumber),
    ] {
        let (at, found) = misfit(alloc, words(alloc, first, one, second, other)?)?;
        assert_eq!(rt; at.as_str(), wanted);
        assert!(rt; found == fault);
    }
    Ok(())
}
