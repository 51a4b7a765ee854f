// The document of a journal part.
ghost use Rattle.std.specs.Prelude.{◌≡◌, ◌<◌, ◌≤◌, [], length, true, Ok, IfOk, OnOk, MatchResult, IsErrOf};
ghost use Rattle.doc_values.specs.Documents.{doc_tree};
ghost use Rattle.doc_values.specs.Types.{ty_tree};
ghost use Rattle.doc_values.specs.Typing.{has};
ghost use Rattle.edit_journal.specs.EntryJson.{tree_of_text};
ghost use Rattle.lens_io.specs.Calls.{SourceFailed};
ghost use Rattle.script_input.specs.Taking.{IsTakenWithin};
ghost use Rattle.store_new.specs.Found.{added, added_last, added_all, document_of_found, IsDocumentFault, FindsRest};
ghost use Rattle.store_new.specs.Found.{StopsRest};
ghost use Rattle.store_new.specs.Import.{document_of_line, if_json, if_typed};
ghost use Rattle.serde_json.specs.View.{view};
ghost use Rattle.value_json.specs.DocumentJson.{document_of};

use crate::refused::ImportRefusal;
use doc_values::{Doc, Ty};
use edit_journal::{Line, is_blank};
use json::Scratch;
use lens_io::{Source, TakeFault};
use lens_tokens::document_of_tokens;
use script_input::Input;
use serde_json::Value;
use std::alloc::{AllocError, Global};
use store_records::read_tree;
use value_json::{DocFault, read_doc};

/// The lines of a journal part that are not blank: none, one, or more than one.
#[derive(Drop)]
pub enum Found {
    Nothing,
    One(Line),
    More,
}

/// Why a journal part gives no document.
#[derive(Clone, Copy, Debug, PartialEq, Eq)]
pub enum DocumentFault {
    Refused(ImportRefusal),
    NoMemory,
}

impl Found {
    // One more line. Does not allocate.
    fn add(self, line: Line) -> Found
        ensures { result ≡ added self line }
    {
        if is_blank(&line) {
            return self;
        }
        match self {
            Found::Nothing => Found::One(line),
            Found::One(_) | Found::More => Found::More,
        }
    }

    // The last line, if there is one. Does not allocate.
    fn add_last(self, last: Option<Line>) -> Found
        ensures { result ≡ added_last self last }
    {
        match last {
            Some(line) => self.add(line),
            None => self,
        }
    }
}

/// Reads a journal part to its end, and finds its lines that are not blank. At most one line is kept.
///
/// - `SourceFault`: only if the source's count of faults increased.
/// - `TooLong`: if and only if more than `MOST_BYTES` bytes were taken, also before.
/// - `NoMemory`: only if memory ran out.
pub(crate) fn find_lines<S: Source>(
    input: Input,
    source: &mut S,
    piece: &mut [u8],
) -> Result<Found, TakeFault>
    requires some { 0 < length piece.old }
    requires within { IsTakenWithin input }
    ensures found { MatchResult result
        (FindsRest S.Source source.old source.new input)
        (StopsRest S.Source source.old source.new input) }
    ensures faults { S.faults source.old ≤ S.faults source.new }
    ensures cause { IsErrOf result TakeFault.SourceFault → SourceFailed S.Source source.old source.new }
{
    let mut input = input;
    let mut found = Found::Nothing;
    'pieces: loop {
        found = add_lines(found, &mut input)?;
        if !input.take_piece(source, piece)? {
            return Ok(found.add_last(input.last()));
        }
    }
}

// Adds the lines that an LF has ended.
fn add_lines(found: Found, input: &mut Input) -> Result<Found, AllocError>
    ensures adds { IfOk result (λ new. new ≡ added_all found input.old.lines.ended) }
    ensures rest { OnOk result
        (input.new.lines ≡ record { ended = []; begun = input.old.lines.begun }) }
    ensures count { input.new.taken ≡ input.old.taken }
{
    let mut found = found;
    'lines: while let Some(line) = input.take_line()? {
        found = found.add(line);
    }
    Ok(found)
}

/// The document of the lines that were found, or why there is none: the first of the refusals that holds, in the order
/// of [`ImportRefusal`]. Running out of memory says nothing of the lines.
pub(crate) fn document_of(alloc: Global, ty: &Ty, found: &Found) -> Result<Doc, DocumentFault>
    ensures document { MatchResult result
        (λ doc. document_of_found (ty_tree ty.now) found.now ≡ Ok (doc_tree doc))
        (IsDocumentFault (document_of_found (ty_tree ty.now) found.now)) }
    ensures typed { IfOk result (λ doc. has (ty_tree ty.now) (doc_tree doc) ≡ true) }
{
    match found {
        Found::Nothing => Err(DocumentFault::Refused(ImportRefusal::NoDocument)),
        Found::One(line) => document_of_line(alloc, ty, line),
        Found::More => Err(DocumentFault::Refused(ImportRefusal::ExtraLine)),
    }
}

// The document of a line.
fn document_of_line(alloc: Global, ty: &Ty, line: &Line) -> Result<Doc, DocumentFault>
    ensures document { MatchResult result
        (λ doc. document_of_line (ty_tree ty.now) line.now ≡ Ok (doc_tree doc))
        (IsDocumentFault (document_of_line (ty_tree ty.now) line.now)) }
    ensures typed { IfOk result (λ doc. has (ty_tree ty.now) (doc_tree doc) ≡ true) }
{
    match line {
        Line::Text(bytes) => document_of_text(alloc, ty, bytes.as_slice()),
        Line::TooLong => Err(DocumentFault::Refused(ImportRefusal::LineTooLong)),
    }
}

// The document of a text: by its tokens where that serves, and otherwise by its tree.
#[tactic(auto, using(crate::proofs::TokenDocuments::document_read))]
fn document_of_text(alloc: Global, ty: &Ty, text: &[u8]) -> Result<Doc, DocumentFault>
    ensures document { MatchResult result
        (λ doc. if_json (ty_tree ty.now) (tree_of_text text.now) ≡ Ok (doc_tree doc))
        (IsDocumentFault (if_json (ty_tree ty.now) (tree_of_text text.now))) }
    ensures typed { IfOk result (λ doc. has (ty_tree ty.now) (doc_tree doc) ≡ true) }
{
    let mut scratch = Scratch::new(alloc);
    match document_of_tokens(alloc, ty, text, &mut scratch) {
        Some(doc) => Ok(doc),
        None => document_by_tree(alloc, ty, text),
    }
}

// The document of a text, by its tree.
fn document_by_tree(alloc: Global, ty: &Ty, text: &[u8]) -> Result<Doc, DocumentFault>
    ensures document { MatchResult result
        (λ doc. if_json (ty_tree ty.now) (tree_of_text text.now) ≡ Ok (doc_tree doc))
        (IsDocumentFault (if_json (ty_tree ty.now) (tree_of_text text.now))) }
    ensures typed { IfOk result (λ doc. has (ty_tree ty.now) (doc_tree doc) ≡ true) }
{
    match read_tree(alloc, text) {
        Ok(Some(tree)) => document_of_tree(alloc, ty, &tree),
        Ok(None) => Err(DocumentFault::Refused(ImportRefusal::NotJson)),
        Err(_) => Err(DocumentFault::NoMemory),
    }
}

// The document of a tree.
fn document_of_tree(alloc: Global, ty: &Ty, tree: &Value) -> Result<Doc, DocumentFault>
    ensures document { MatchResult result
        (λ doc. if_typed (document_of (ty_tree ty.now) (view tree.now)) ≡ Ok (doc_tree doc))
        (IsDocumentFault (if_typed (document_of (ty_tree ty.now) (view tree.now)))) }
    ensures typed { IfOk result (λ doc. has (ty_tree ty.now) (doc_tree doc) ≡ true) }
{
    match read_doc(alloc, ty, tree) {
        Ok(doc) => Ok(doc),
        Err(DocFault::NotOfType) => Err(DocumentFault::Refused(ImportRefusal::NotOfType)),
        Err(DocFault::NoMemory) => Err(DocumentFault::NoMemory),
    }
}
