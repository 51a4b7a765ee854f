//! Writing the tree of a word as tokens and as compact text, without making the tree.

ghost use Rattle.std.specs.Prelude.{◌≡◌, ◌∷◌, ◌++◌, [], true, codes, IfOk, OnOk};
ghost use Rattle.json.specs.Token.{begin_object, end_object, begin_array, end_array, key};
ghost use Rattle.serde_json.specs.Data.{string};
ghost use Rattle.serde_json.specs.Written.{compact_text};
ghost use Rattle.hold_shapes.specs.declared.edit.ShapeEdit;
ghost use Rattle.edit_module.specs.Views.{primitive_tree, word_tree};
ghost use Rattle.edit_module.specs.Words.{splice, switch, modify};
ghost use Rattle.value_json.specs.Numbers.{int_tree, count_tree};
ghost use Rattle.edit_json.specs.Tokens.{tokens_of};
ghost use Rattle.edit_json.specs.Values.{tree_of_counts, tree_of_atom, tree_of_place, all_fit_u64, atom_fits};
ghost use Rattle.edit_json.specs.Values.{place_fits};
ghost use Rattle.edit_json.specs.WordJson.{tree_of_shape_edit, tree_of_primitive, tree_of_word};
ghost use Rattle.value_json.specs.SmallTrees.{one_member, array_of_two};
ghost use Rattle.edit_json.specs.WordJson.{edit_numbers_fit, primitive_numbers_fit, numbers_fit};

use edit_module::word::Primitive;
use edit_module::{Atom, Word};
use hold_shapes::{Name, Path, Place, ShapeEdit};
use json::Writer;
use std::alloc::AllocError;

/// These bytes, and behind them the text of a word's tree, with no space between its parts. The page
/// docs/FORMATS.md says which tree this is.
///
/// The text is read back as the word if `has_tree` holds and words are not nested too deep for a
/// reader of JSON (`laws`). Fails only if memory runs out; the bytes are then dropped.
pub fn append_word(bytes: Vec<u8>, word: &Word) -> Result<Vec<u8>, AllocError>
    ensures text { IfOk result (λ all. all.items
        ≡ bytes.items ++ compact_text (tree_of_word (word_tree word.now))) }

    // The program can hold every number in the word.
    ensures whole { OnOk result (numbers_fit (word_tree word.now) ≡ true) }
{
    let mut out = Writer::new(bytes);
    put_word(&mut out, word)?;
    Ok(out.into_inner())
}

/// Writes the tokens of a word's tree behind those that were written before. The page
/// docs/FORMATS.md says which tree this is.
///
/// Each insertion and each deletion in the word, inner words included, should be of 1 to 65,536 items,
/// which `has_tree` tests: else no reader takes the tree for a word. Fails only if memory runs out; a
/// part of the tokens may be written then.
#[cycle(put)]
#[tactic(auto, using(crate::proofs::Counts::number_rules))]
pub fn put_word(out: &mut Writer, word: &Word) -> Result<(), AllocError>
    ensures before { out.new.before ≡ out.old.before }
    ensures tokens { OnOk result
        (out.new.tokens ≡ out.old.tokens ++ tokens_of (tree_of_word (word_tree word.now))) }

    // The program can hold every number in the word.
    ensures whole { OnOk result (numbers_fit (word_tree word.now) ≡ true) }
{
    out.begin_array()?;
    for primitive in word.as_slice() {
        put_primitive(out, primitive)?;
    }
    out.end_array()
}

// Each function below puts the tokens of the tree that its own name says, and says that the program
// can hold the numbers in it.

#[cycle(put)]
fn put_primitive(out: &mut Writer, primitive: &Primitive) -> Result<(), AllocError>
    ensures before { out.new.before ≡ out.old.before }
    ensures tokens { OnOk result (out.new.tokens
        ≡ out.old.tokens ++ tokens_of (tree_of_primitive (primitive_tree primitive.now))) }
    ensures whole { OnOk result (primitive_numbers_fit (primitive_tree primitive.now) ≡ true) }
{
    match primitive {
        Primitive::Set(atom) => put_set(out, atom),
        Primitive::Add(number) => put_add(out, *number),
        Primitive::Splice(from, count, text) => put_splice(out, *from, *count, text.as_str()),
        Primitive::At(field, word) => put_inner(out, "at", field, word),
        Primitive::Stay(tag, word) => put_inner(out, "stay", tag, word),
        Primitive::Switch(old, new, word) => put_switch(out, old, new, word),
        Primitive::Mod(place, word) => put_mod(out, place, word),
        Primitive::Shape(edit) => put_shape(out, edit),
    }
}

// ---- primitives with an inner word

// An edit of a field or of a tag's content.
#[cycle(put)]
fn put_inner(out: &mut Writer, name: &str, part: &Name, word: &Word) -> Result<(), AllocError>
    ensures before { out.new.before ≡ out.old.before }
    ensures tokens { OnOk result (out.new.tokens
        ≡ out.old.tokens
        ++ tokens_of (one_member name.now (array_of_two (string part.now) (tree_of_word (word_tree word.now))))) }
    ensures whole { OnOk result (numbers_fit (word_tree word.now) ≡ true) }
{
    open_list(out, name)?;
    out.string(part.as_str())?;
    put_word(out, word)?;
    close_list(out)
}

#[cycle(put)]
fn put_switch(out: &mut Writer, old: &Name, new: &Name, word: &Word) -> Result<(), AllocError>
    ensures before { out.new.before ≡ out.old.before }
    ensures tokens { OnOk result (out.new.tokens
        ≡ out.old.tokens ++ tokens_of (tree_of_primitive (switch old.now new.now (word_tree word.now)))) }
    ensures whole { OnOk result (numbers_fit (word_tree word.now) ≡ true) }
{
    open_list(out, "switch")?;
    out.string(old.as_str())?;
    out.string(new.as_str())?;
    put_word(out, word)?;
    close_list(out)
}

#[cycle(put)]
fn put_mod(out: &mut Writer, place: &Place, word: &Word) -> Result<(), AllocError>
    ensures before { out.new.before ≡ out.old.before }
    ensures tokens { OnOk result (out.new.tokens
        ≡ out.old.tokens ++ tokens_of (tree_of_primitive (modify place.now (word_tree word.now)))) }
    ensures whole { OnOk result
        (primitive_numbers_fit (modify place.now (word_tree word.now)) ≡ true) }
{
    open_list(out, "mod")?;
    put_place(out, place)?;
    put_word(out, word)?;
    close_list(out)
}

// ---- primitives that are leaves

fn put_set(out: &mut Writer, atom: &Atom) -> Result<(), AllocError>
    ensures before { out.new.before ≡ out.old.before }
    ensures tokens { OnOk result
        (out.new.tokens ≡ out.old.tokens ++ tokens_of (one_member (codes "set") (tree_of_atom atom.now))) }
    ensures whole { OnOk result (atom_fits atom.now ≡ true) }
{
    open(out, "set")?;
    put_atom(out, atom)?;
    out.end_object()
}

fn put_add(out: &mut Writer, number: i64) -> Result<(), AllocError>
    ensures before { out.new.before ≡ out.old.before }
    ensures tokens { OnOk result
        (out.new.tokens ≡ out.old.tokens ++ tokens_of (one_member (codes "add") (int_tree number))) }
{
    open(out, "add")?;
    put_int(out, number)?;
    out.end_object()
}

fn put_splice(out: &mut Writer, from: u64, count: u64, text: &str) -> Result<(), AllocError>
    ensures before { out.new.before ≡ out.old.before }
    ensures tokens { OnOk result (out.new.tokens
        ≡ out.old.tokens ++ tokens_of (tree_of_primitive (splice from count text.now))) }
{
    open_list(out, "splice")?;
    out.u64(from)?;
    out.u64(count)?;
    out.string(text)?;
    close_list(out)
}

// ---- edits of shapes

fn put_shape(out: &mut Writer, edit: &ShapeEdit) -> Result<(), AllocError>
    ensures before { out.new.before ≡ out.old.before }
    ensures tokens { OnOk result
        (out.new.tokens ≡ out.old.tokens ++ tokens_of (tree_of_shape_edit edit.now)) }
    ensures whole { OnOk result (edit_numbers_fit edit.now ≡ true) }
{
    match edit {
        ShapeEdit::Ins(count) => put_count(out, "ins", *count),
        ShapeEdit::Del(count) => put_count(out, "del", *count),
        ShapeEdit::MoveItem(from, to) => put_move(out, *from, *to),
        ShapeEdit::Reorder(places) => put_path(out, "reorder", places.as_slice()),
        ShapeEdit::PutKey(key) => put_key(out, "put", key),
        ShapeEdit::DropKey(key) => put_key(out, "drop", key),
        ShapeEdit::RenameKey(old, new) => put_rename(out, old, new),
        ShapeEdit::Graft(path) => put_path(out, "graft", path.as_slice()),
        ShapeEdit::Prune(path) => put_path(out, "prune", path.as_slice()),
        ShapeEdit::Shift(path, from, to) => put_shift(out, path, *from, *to),
        ShapeEdit::Hang(from, to) => put_hang(out, from, to),
    }
}

// A number of items that are inserted or deleted.
fn put_count(out: &mut Writer, name: &str, count: u32) -> Result<(), AllocError>
    ensures before { out.new.before ≡ out.old.before }
    ensures tokens { OnOk result
        (out.new.tokens ≡ out.old.tokens ++ tokens_of (one_member name.now (count_tree count))) }
{
    open(out, name)?;
    out.u64(count as u64)?;
    out.end_object()
}

// A key that is added or removed.
fn put_key(out: &mut Writer, name: &str, key: &Name) -> Result<(), AllocError>
    ensures before { out.new.before ≡ out.old.before }
    ensures tokens { OnOk result
        (out.new.tokens ≡ out.old.tokens ++ tokens_of (one_member name.now (string key.now))) }
{
    open(out, name)?;
    out.string(key.as_str())?;
    out.end_object()
}

// A path, or the places of a reorder.
fn put_path(out: &mut Writer, name: &str, numbers: &[u64]) -> Result<(), AllocError>
    ensures before { out.new.before ≡ out.old.before }
    ensures tokens { OnOk result
        (out.new.tokens ≡ out.old.tokens ++ tokens_of (one_member name.now (tree_of_counts numbers.now))) }
    ensures whole { OnOk result (all_fit_u64 numbers.now ≡ true) }
{
    open(out, name)?;
    put_numbers(out, numbers)?;
    out.end_object()
}

fn put_move(out: &mut Writer, from: u64, to: u64) -> Result<(), AllocError>
    ensures before { out.new.before ≡ out.old.before }
    ensures tokens { OnOk result (out.new.tokens
        ≡ out.old.tokens ++ tokens_of (tree_of_shape_edit (ShapeEdit.MoveItem from to))) }
    ensures whole { OnOk result (edit_numbers_fit (ShapeEdit.MoveItem from to) ≡ true) }
{
    open_list(out, "move")?;
    out.u64(from)?;
    out.u64(to)?;
    close_list(out)
}

fn put_rename(out: &mut Writer, old: &Name, new: &Name) -> Result<(), AllocError>
    ensures before { out.new.before ≡ out.old.before }
    ensures tokens { OnOk result
        (out.new.tokens ≡ out.old.tokens ++ tokens_of (tree_of_shape_edit (ShapeEdit.RenameKey old.now new.now))) }
{
    open_list(out, "rename")?;
    out.string(old.as_str())?;
    out.string(new.as_str())?;
    close_list(out)
}

fn put_shift(out: &mut Writer, path: &Path, from: u64, to: u64) -> Result<(), AllocError>
    ensures before { out.new.before ≡ out.old.before }
    ensures tokens { OnOk result
        (out.new.tokens ≡ out.old.tokens ++ tokens_of (tree_of_shape_edit (ShapeEdit.Shift path.now from to))) }
    ensures whole { OnOk result (edit_numbers_fit (ShapeEdit.Shift path.now from to) ≡ true) }
{
    open_list(out, "shift")?;
    put_numbers(out, path.as_slice())?;
    out.u64(from)?;
    out.u64(to)?;
    close_list(out)
}

fn put_hang(out: &mut Writer, from: &Path, to: &Path) -> Result<(), AllocError>
    ensures before { out.new.before ≡ out.old.before }
    ensures tokens { OnOk result
        (out.new.tokens ≡ out.old.tokens ++ tokens_of (tree_of_shape_edit (ShapeEdit.Hang from.now to.now))) }
    ensures whole { OnOk result (edit_numbers_fit (ShapeEdit.Hang from.now to.now) ≡ true) }
{
    open_list(out, "hang")?;
    put_numbers(out, from.as_slice())?;
    put_numbers(out, to.as_slice())?;
    close_list(out)
}

// ---- the values that primitives hold

fn put_atom(out: &mut Writer, atom: &Atom) -> Result<(), AllocError>
    ensures before { out.new.before ≡ out.old.before }
    ensures tokens { OnOk result
        (out.new.tokens ≡ out.old.tokens ++ tokens_of (tree_of_atom atom.now)) }
    ensures whole { OnOk result (atom_fits atom.now ≡ true) }
{
    match atom {
        Atom::Truth(truth) => out.boolean(*truth),
        Atom::Number(number) => put_int(out, *number),
        Atom::Letters(letters) => out.string(letters.as_str()),
    }
}

fn put_int(out: &mut Writer, number: i64) -> Result<(), AllocError>
    ensures before { out.new.before ≡ out.old.before }
    ensures tokens { OnOk result (out.new.tokens ≡ out.old.tokens ++ tokens_of (int_tree number)) }
{
    out.i64(number)
}

fn put_place(out: &mut Writer, place: &Place) -> Result<(), AllocError>
    ensures before { out.new.before ≡ out.old.before }
    ensures tokens { OnOk result
        (out.new.tokens ≡ out.old.tokens ++ tokens_of (tree_of_place place.now)) }
    ensures whole { OnOk result (place_fits place.now ≡ true) }
{
    match place {
        Place::Index(index) => out.u64(*index),
        Place::Key(key) => out.string(key.as_str()),
        Place::Node(path) => put_numbers(out, path.as_slice()),
    }
}

// An array of numbers.
fn put_numbers(out: &mut Writer, numbers: &[u64]) -> Result<(), AllocError>
    ensures before { out.new.before ≡ out.old.before }
    ensures tokens { OnOk result
        (out.new.tokens ≡ out.old.tokens ++ tokens_of (tree_of_counts numbers.now)) }
    ensures whole { OnOk result (all_fit_u64 numbers.now ≡ true) }
{
    out.begin_array()?;
    for number in numbers {
        out.u64(*number)?;
    }
    out.end_array()
}

// ---- objects with one member

// What begins an object, and the name of its member.
fn open(out: &mut Writer, name: &str) -> Result<(), AllocError>
    ensures before { out.new.before ≡ out.old.before }
    ensures tokens { OnOk result
        (out.new.tokens ≡ out.old.tokens ++ begin_object ∷ key name.now ∷ []) }
{
    out.begin_object()?;
    out.key(name)
}

// The same, where the content of the member is an array.
fn open_list(out: &mut Writer, name: &str) -> Result<(), AllocError>
    ensures before { out.new.before ≡ out.old.before }
    ensures tokens { OnOk result
        (out.new.tokens ≡ out.old.tokens ++ begin_object ∷ key name.now ∷ begin_array ∷ []) }
{
    open(out, name)?;
    out.begin_array()
}

// What ends such an array, and its object.
fn close_list(out: &mut Writer) -> Result<(), AllocError>
    ensures before { out.new.before ≡ out.old.before }
    ensures tokens { OnOk result (out.new.tokens ≡ out.old.tokens ++ end_array ∷ end_object ∷ []) }
{
    out.end_array()?;
    out.end_object()
}
