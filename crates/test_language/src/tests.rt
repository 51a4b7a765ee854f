//! Each call once, over ample memory.
use lens_syntax::{
    ProgramFault, read_program, read_unbounded, write_name, write_program, write_type,
};
use program_grammar::{Mention, NameFault, Sort};
use program_reader::{ProgramReadFault, read_tokens};
use program_terms::{AddFault, Def, Definitions, Lens, Program, TyExpr};
use program_tokens::{Token, Tokens, tokens};
use std::alloc::{AllocError, Global};
use texts::{Name, Str, Twin};

/// A program with each construct of the language, in canonical text.
const EACH_CONSTRUCT: &str =
    "type t = {a: enum[\"on\", \"off\"], b: <p: unit, o: list keyed tree bool>};\nlens l = then(id t, inv disc text int);\nmain {a ~ b: each keyed tree l, left f: t, right g: text, c ~ d: <p ~ q: bij[\"on\"=\"yes\"], r ~ s: part <p: text, o: int>>}";

/// A program with each kind of initial value, in canonical text.
const INITIAL_VALUES: &str =
    "main {a ~ b: bij[\"on\"=\"yes\", \"off\"=\"no\"] = \"off\", left c: int = -9223372036854775808, left d: text = \"x\", right e: enum[\"up\", \"down\"] = \"down\"}";

// Values of many variants are let go by `drop`, in one call. At the end of a block they would be dropped variant by
// variant, which takes long to prove.

fn name(alloc: Global, text: &str) -> Result<Name, AllocError> {
    Ok(Name::from_string(String::from_str(alloc, text)?))
}

// The text of a copy of a program.
fn copied_text(alloc: Global, program: &Program) -> Result<Str, AllocError> {
    let copy = program.twin(alloc)?;
    let text = write_program(alloc, &copy);
    drop(copy);
    text
}

#[test]
fn a_program_and_its_copy(rt: HostRuntime) {
    let alloc = rt.alloc();
    let program = read_program(alloc, EACH_CONSTRUCT.as_bytes()).expect(&rt, "a program");
    let text = copied_text(alloc, &program).expect(&rt, "memory for the copy and its text");
    drop(program);
    assert_eq!(rt; text.as_str(), EACH_CONSTRUCT);
}

#[test]
fn initial_values(rt: HostRuntime) {
    let alloc = rt.alloc();
    let program = read_program(alloc, INITIAL_VALUES.as_bytes()).expect(&rt, "a program");
    let text = copied_text(alloc, &program).expect(&rt, "memory for the copy and its text");
    drop(program);
    assert_eq!(rt; text.as_str(), INITIAL_VALUES);
}

#[test]
fn a_text_of_any_length(rt: HostRuntime) {
    let alloc = rt.alloc();
    let program = read_unbounded(alloc, EACH_CONSTRUCT.as_bytes()).expect(&rt, "a program");
    assert_eq!(rt; program.count(), 2);
    assert_eq!(rt; program.name(1).as_str(), "l");
    drop(program);
}

#[test]
fn tokens_one_by_one(rt: HostRuntime) {
    let alloc = rt.alloc();
    let mut left = tokens(alloc, b"a \"b\"").expect(&rt, "memory for the tokens");
    assert_eq!(rt; left.len(), 3);
    let first = left.pop().expect(&rt, "a name");
    assert_eq!(rt; first.at, 0);
    left.push(first).expect(&rt, "memory for a token");
    let text = left.pop().expect(&rt, "a string");
    assert!(rt; matches!(text.token, Token::Text(_)));
    drop(text);
}

#[test]
fn faults(rt: HostRuntime) {
    let alloc = rt.alloc();
    let fault = read_program(alloc, b"main id t").err();
    assert_eq!(rt; fault, Some(ProgramFault::UnknownName { at: 8 }));
    let fault = read_tokens(alloc, Tokens::new(alloc)).err();
    assert_eq!(rt; fault, Some(ProgramReadFault::Ended));
}

#[test]
fn definitions_by_name(rt: HostRuntime) {
    let alloc = rt.alloc();
    let mut all = Definitions::new(alloc);
    let t = name(alloc, "t").expect(&rt, "memory for a name");
    assert_eq!(rt; all.add(t, Def::OfType(TyExpr::Int(0))), Ok(()));
    let t = name(alloc, "t").expect(&rt, "memory for a name");
    let again = Def::OfLens(Lens::Id(TyExpr::Int(0)));
    assert_eq!(rt; all.add(t, again), Err(AddFault::Repeated));
    assert_eq!(rt; all.len(), 1);
    let t = name(alloc, "t").expect(&rt, "memory for a name");
    let u = name(alloc, "u").expect(&rt, "memory for a name");
    assert!(rt; all.find(&t).is_some() && all.find(&u).is_none());
    let program = Program::from_parts(all, Lens::Id(TyExpr::Int(0)));
    assert!(rt; program.find(&t).is_some() && program.find(&u).is_none());
    drop(program);
}

#[test]
fn types_and_names(rt: HostRuntime) {
    let alloc = rt.alloc();
    let inner = Box::new(alloc, doc_values::Ty::Int(5)).expect(&rt, "memory for a type");
    let list = doc_values::Ty::List(inner);
    let text = write_type(alloc, &list).expect(&rt, "memory for the text");
    drop(list);
    assert_eq!(rt; text.as_str(), "list int = 5");
    let inv = name(alloc, "inv").expect(&rt, "memory for a name");
    let text = write_name(alloc, &inv).expect(&rt, "memory for the text");
    assert_eq!(rt; text.as_str(), "\"inv\"");
}

#[test]
fn copies(rt: HostRuntime) {
    let alloc = rt.alloc();
    let mentioned = Mention::new(
        Sort::Lens,
        name(alloc, "l").expect(&rt, "memory for a name"),
        7,
    );
    let copy = mentioned.twin(alloc).expect(&rt, "memory for a copy");
    assert_eq!(rt; copy.at, 7);
    assert_eq!(rt; copy.name.as_str(), "l");
    assert_eq!(rt; copy.sort, Sort::Lens);
    let fault = NameFault::Repeated { at: 3 };
    assert_eq!(rt; fault.twin(alloc).ok(), Some(fault));
    let fault = ProgramFault::NotAProgram { at: 4 };
    assert_eq!(rt; fault.twin(alloc).ok(), Some(fault));
}
