//! Programs that are accepted, programs that are refused, and copies.
use doc_values::Ty;
use lens_types::{Form, FormArms, FormRow, FormRows, TypeFault, Typed, check};
use program_terms::{Definitions, Lens, Pairs, Program, Row, Rows, TyExpr};
use std::alloc::{AllocError, Global};
use texts::{Name, Names, Str, Twin};

// Values of many variants are let go by `drop`, in one call. At the end of a block they would be dropped variant by
// variant, which takes long to prove.

fn name(alloc: Global, text: &str) -> Result<Name, AllocError> {
    Ok(Name::from_string(String::from_str(alloc, text)?))
}

// {a ~ b: id int, left c: text}, or with a second row `left a: text`.
fn record(alloc: Global, alone: &str) -> Result<Program, AllocError> {
    let mut rows = Vec::new(alloc);
    rows.push(paired(alloc)?)?;
    rows.push(on_left(alloc, alone)?)?;
    let lens = Lens::Rec(Rows::from_vec(rows));
    Ok(Program::from_parts(Definitions::new(alloc), lens))
}

// a ~ b: id int
fn paired(alloc: Global) -> Result<Row, AllocError> {
    let left = name(alloc, "a")?;
    let right = name(alloc, "b")?;
    Ok(Row::Both(left, right, Lens::Id(TyExpr::Int(0))))
}

// left c: text, or of another name
fn on_left(alloc: Global, field: &str) -> Result<Row, AllocError> {
    let field = name(alloc, field)?;
    Ok(Row::OnlyLeft(field, TyExpr::Text(Str::empty(alloc))))
}

// A copy of a value, which is dropped.
fn copy_of<T: Twin + Drop>(alloc: Global, value: T) -> Result<T, AllocError> {
    value.twin(alloc)
}

// A copy of what the checker makes of a program that it accepts.
fn accepted_copy(alloc: Global, program: Program) -> Option<Typed> {
    let checked = check(alloc, &program);
    drop(program);
    copy_of(alloc, checked.ok()?).ok()
}

// A copy of the fault of a program that the checker refuses.
fn refused_copy(alloc: Global, program: Program) -> Option<TypeFault> {
    let checked = check(alloc, &program);
    drop(program);
    copy_of(alloc, checked.err()?).ok()
}

// How many fields a record has.
fn field_count(ty: &Ty) -> Option<usize> {
    match ty {
        Ty::Rec(fields) => Some(fields.len()),
        _ => None,
    }
}

// How many fields the two types of a record's form have.
fn field_counts(typed: &Typed) -> Option<(usize, usize)> {
    match typed.form() {
        Form::Rec(_) => Some((field_count(typed.left())?, field_count(typed.right())?)),
        _ => None,
    }
}

#[test]
fn accepted(rt: HostRuntime) {
    let alloc = rt.alloc();
    let program = record(alloc, "c").expect(&rt, "memory");
    let typed = accepted_copy(alloc, program).expect(&rt, "accepted");
    assert_eq!(rt; field_counts(&typed), Some((2, 1)));
    drop(typed);
}

// The name of a field that is there twice.
fn repeated_field(fault: &TypeFault) -> Option<&str> {
    match fault {
        TypeFault::RepeatedField { name } => Some(name.as_str()),
        _ => None,
    }
}

#[test]
fn refused(rt: HostRuntime) {
    let alloc = rt.alloc();
    let program = record(alloc, "a").expect(&rt, "memory");
    let fault = refused_copy(alloc, program).expect(&rt, "refused");
    let name = repeated_field(&fault).expect(&rt, "a repeated field");
    assert_eq!(rt; name, "a");
    drop(fault);
}

// bij["a"="b", "c"="d"] = VALUE
fn bijection(alloc: Global, value: &str) -> Result<Program, AllocError> {
    let first = (name(alloc, "a")?, name(alloc, "b")?);
    let second = (name(alloc, "c")?, name(alloc, "d")?);
    let pairs = Pairs::from_vec(vec![in alloc; first, second]?);
    let lens = Lens::Bij(pairs, name(alloc, value)?);
    Ok(Program::from_parts(Definitions::new(alloc), lens))
}

// The initial value of an enum.
fn initial(ty: &Ty) -> Option<&str> {
    match ty {
        Ty::Enum(_, value) => Some(value.as_str()),
        _ => None,
    }
}

// Whether the two types are enums with these initial values.
fn starts_at(typed: &Typed, left: &str, right: &str) -> bool {
    initial(typed.left()) == Some(left) && initial(typed.right()) == Some(right)
}

#[test]
fn initial_values(rt: HostRuntime) {
    let alloc = rt.alloc();
    let program = bijection(alloc, "c").expect(&rt, "memory");
    let typed = accepted_copy(alloc, program).expect(&rt, "accepted");
    assert!(rt; starts_at(&typed, "c", "d"));
    drop(typed);
}

// id enum["a"] = "b"
fn stranger(alloc: Global) -> Result<Program, AllocError> {
    let members = Names::from_vec(vec![in alloc; name(alloc, "a")?]?);
    let lens = Lens::Id(TyExpr::Enum(members, name(alloc, "b")?));
    Ok(Program::from_parts(Definitions::new(alloc), lens))
}

// The name of a value that is not a member.
fn no_member(fault: &TypeFault) -> Option<&str> {
    match fault {
        TypeFault::NotAMember { name } => Some(name.as_str()),
        _ => None,
    }
}

#[test]
fn not_members(rt: HostRuntime) {
    let alloc = rt.alloc();
    let program = stranger(alloc).expect(&rt, "memory");
    let fault = refused_copy(alloc, program).expect(&rt, "refused");
    let value = no_member(&fault).expect(&rt, "not a member");
    assert_eq!(rt; value, "b");
    drop(fault);
}

#[test]
fn not_left_members(rt: HostRuntime) {
    let alloc = rt.alloc();
    let program = bijection(alloc, "d").expect(&rt, "memory");
    let fault = refused_copy(alloc, program).expect(&rt, "refused");
    let value = no_member(&fault).expect(&rt, "not a member");
    assert_eq!(rt; value, "d");
    drop(fault);
}

// A form of each list, copied.
fn copied(alloc: Global) -> Result<Form, AllocError> {
    let arms = FormArms::from_vec(vec![in alloc; arm(alloc)?]?);
    copy_of(alloc, Form::Alt(copy_of(alloc, arms)?))
}

// p ~ q: {a ~ b: id int}, of copies.
fn arm(alloc: Global) -> Result<(Name, Name, Form), AllocError> {
    let left = name(alloc, "p")?;
    let right = name(alloc, "q")?;
    let rows = FormRows::from_vec(vec![in alloc; copy_of(alloc, row(alloc)?)?]?);
    Ok((left, right, Form::Rec(copy_of(alloc, rows)?)))
}

// a ~ b: id int
fn row(alloc: Global) -> Result<FormRow, AllocError> {
    let left = name(alloc, "a")?;
    let right = name(alloc, "b")?;
    Ok(FormRow::Both(left, right, Form::Id(Ty::Int(0))))
}

// The arms of alternatives.
fn arms_of(form: &Form) -> Option<&FormArms> {
    match form {
        Form::Alt(arms) => Some(arms),
        _ => None,
    }
}

#[test]
fn copies(rt: HostRuntime) {
    let form = copied(rt.alloc()).expect(&rt, "memory");
    let arms = arms_of(&form).expect(&rt, "another form").as_slice();
    assert_eq!(rt; arms.len(), 1);
    assert_eq!(rt; arms[0].1.as_str(), "q");
    drop(form);
}
