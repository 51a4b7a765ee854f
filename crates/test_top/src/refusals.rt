//! Refusals that no command shows: of calls that a caller of the libraries may make otherwise than the program does.
use command_ends::Status;
use edit_journal::Line;
use edit_json::read_word;
use edit_module::Word;
use lens_branch::{arm_form, row_form};
use lens_core::{CarryFault, Comp, EditLens};
use lens_flat::Flat;
use lens_io::MemSink;
use lens_syntax::read_program;
use lens_types::{Form, Typed, check};
use script_input::ProgramText;
use serde_json::Value;
use std::alloc::Global;
use std::rc::Rc;
use store_new::give_line;
use texts::Side;
use turn_link::{Batch, LeftSite, ReceiveFault, RightSite};
use view_hub::Hub;

const INTS: &str = "main {a ~ b: id int}";

const EACH: &str = "main each id int";

const TAGS: &str = "main <p ~ q: id int>";

const PART: &str = "main part <p: text, o: int>";

// The checked program of a text.
fn typed(alloc: Global, text: &str) -> Option<Typed> {
    let program = read_program(alloc, text.as_bytes()).ok()?;
    let typed = check(alloc, &program).ok();
    drop(program);
    typed
}

fn flat(alloc: Global, text: &str) -> Option<Flat> {
    let typed = typed(alloc, text)?;
    let lens = Flat::compile(alloc, &typed).ok();
    drop(typed);
    lens
}

fn word(alloc: Global, text: &str) -> Option<Word> {
    let tree = Value::from_str(alloc, text).ok()?;
    read_word(alloc, &tree).ok()
}

// The first complement of a lens.
fn first_complement(alloc: Global, text: &str) -> Option<Comp> {
    let lens = flat(alloc, text)?;
    lens.missing(alloc).ok()
}

// Whether a word of a side has no translation by a lens, with the first complement of a lens.
fn is_unfit(alloc: Global, lens: &str, of: &str, side: Side, text: &str) -> Option<bool> {
    let lens = flat(alloc, lens)?;
    let comp = first_complement(alloc, of)?;
    let edit = word(alloc, text)?;
    let fault = lens.carry(alloc, side, &comp, &edit).err();
    Some(fault == Some(CarryFault::Unfit))
}

// A word that does not fit the type of its side.
fn has_no_translation(alloc: Global, lens: &str, side: Side, text: &str) -> bool {
    is_unfit(alloc, lens, lens, side, text) == Some(true)
}

// A word with a complement that does not fit the lens.
fn has_other_complement(alloc: Global, lens: &str, of: &str, text: &str) -> bool {
    is_unfit(alloc, lens, of, Side::Left, text) == Some(true)
}

#[test]
fn words_without_a_translation(rt: HostRuntime) {
    let alloc = rt.alloc();
    let stays = "[{\"stay\":[\"q\",[]]}]";
    assert!(rt; has_no_translation(alloc, TAGS, Side::Left, stays));
    let at_left = "[{\"at\":[\"a\",[]]}]";
    assert!(rt; has_no_translation(alloc, INTS, Side::Right, at_left));
    let of_item = "[{\"mod\":[0,[]]}]";
    assert!(rt; has_no_translation(alloc, EACH, Side::Left, of_item));
    assert!(rt; has_no_translation(alloc, PART, Side::Left, of_item));
    let at_right = "[{\"at\":[\"q\",[]]}]";
    assert!(rt; has_no_translation(alloc, PART, Side::Right, at_right));
    let sets = "[{\"set\":\"b\"}]";
    assert!(rt; has_no_translation(alloc, "main bij[\"a\"=\"b\"]", Side::Left, sets));
}

#[test]
fn complements_of_other_lenses(rt: HostRuntime) {
    let alloc = rt.alloc();
    let inserts = "[{\"ins\":1}]";
    assert!(rt; has_other_complement(alloc, PART, "main id int", inserts));
    assert!(rt; has_other_complement(alloc, EACH, "main keyed id int", inserts));
    let adds = "[{\"add\":1}]";
    assert!(rt; has_other_complement(alloc, "main id int", EACH, adds));
}

fn batch(alloc: Global, number: u64, text: &str) -> Option<Batch> {
    let word = Rc::new(alloc, word(alloc, text)?).ok()?;
    Some(Batch { number, word })
}

fn left_site(alloc: Global, text: &str) -> Option<LeftSite<Flat>> {
    let lens = flat(alloc, text)?;
    LeftSite::start(alloc, lens).ok()
}

// Batches for the left site, which has sent batch 1: one that is two ahead, and two of the next number, whose word has
// no translation or does not apply.
const BAD_BATCHES: [(u64, &str, ReceiveFault); 3] = [
    (3, "[]", ReceiveFault::Ahead { have: 1, got: 3 }),
    (2, "[{\"at\":[\"a\",[]]}]", ReceiveFault::BadBatch),
    (
        2,
        "[{\"at\":[\"b\",[{\"set\":true}]]}]",
        ReceiveFault::BadBatch,
    ),
];

#[test]
fn batches_that_the_left_site_refuses(rt: HostRuntime) {
    let alloc = rt.alloc();
    let mut site = left_site(alloc, INTS).expect(&rt, "a site");
    let next = batch(alloc, 1, "[]").expect(&rt, "a batch");
    let fault = site.receive(&next).err();
    assert_eq!(rt; fault, Some(ReceiveFault::Ahead { have: 0, got: 1 }));
    assert!(rt; site.seal().is_ok());
    for (number, text, wanted) in BAD_BATCHES {
        let bad = batch(alloc, number, text).expect(&rt, "a batch");
        assert_eq!(rt; site.receive(&bad).err(), Some(wanted));
    }
    assert_eq!(rt; site.number(), 1);
}

#[test]
fn batches_that_the_right_site_refuses(rt: HostRuntime) {
    let alloc = rt.alloc();
    let mut site = RightSite::start(alloc, doc_values::Ty::Int(0))
        .ok()
        .expect(&rt, "a site");
    let later = batch(alloc, 2, "[]").expect(&rt, "a batch");
    let fault = site.receive(&later).err();
    assert_eq!(rt; fault, Some(ReceiveFault::Ahead { have: 0, got: 2 }));
    let bad = batch(alloc, 1, "[{\"set\":true}]").expect(&rt, "a batch");
    assert_eq!(rt; site.receive(&bad).err(), Some(ReceiveFault::BadBatch));
}

// How many of the first two parts of a form are there: arms, or paired rows.
fn parts_of(form: &Form) -> (bool, bool) {
    match form {
        Form::Alt(arms) => (arm_form(arms, 0).is_some(), arm_form(arms, 1).is_some()),
        Form::Rec(rows) => (row_form(rows, 0).is_some(), row_form(rows, 1).is_some()),
        _ => (false, false),
    }
}

#[test]
fn parts_that_are_not_there(rt: HostRuntime) {
    let alloc = rt.alloc();
    for text in [TAGS, "main {a ~ b: id int, left c: text}"] {
        let typed = typed(alloc, text).expect(&rt, "a type");
        assert_eq!(rt; parts_of(typed.form()), (true, false));
    }
    let lens = flat(alloc, INTS).expect(&rt, "a lens");
    let mut lenses = Vec::new(alloc);
    assert!(rt; lenses.push(lens).is_ok());
    let hub = Hub::start(alloc, lenses).ok().expect(&rt, "a hub");
    assert!(rt; hub.view(0).is_some() && hub.view(1).is_none());
    assert!(rt; hub.comp(0).is_some() && hub.comp(1).is_none());
}

#[test]
fn texts_that_are_not_there(rt: HostRuntime) {
    let alloc = rt.alloc();
    let mut part = ProgramText::new(alloc);
    assert!(rt; part.text().is_some());
    assert!(rt; part.add(&Line::TooLong, b"\n").is_ok());
    assert!(rt; part.text().is_none());
}

// A line that is written ends a command with the status that is given.
#[test]
fn statuses_behind_a_line(rt: HostRuntime) {
    let alloc = rt.alloc();
    for status in [Status::SourceFault, Status::DiskFault, Status::InputTooLong] {
        let mut sink = MemSink::new(alloc, Vec::new(alloc), Vec::new(alloc));
        assert_eq!(rt; give_line(&mut sink, b"a line\n", status), status);
        assert_eq!(rt; sink.bytes(), b"a line\n".as_slice());
    }
}
