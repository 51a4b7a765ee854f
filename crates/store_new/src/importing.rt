//! The command `import`.
ghost use Rattle.std.specs.Prelude.{◌≡◌, ◌≤◌, ◌++◌, length, true, IfOk, IfSome, IsErrOf, MatchResult, Ok, Some};
ghost use Rattle.command_ends.specs.Statuses.{IsStatusAmong, import_statuses};
ghost use Rattle.answer_text.specs.Lines.{ok_line};
ghost use Rattle.doc_values.specs.Documents.{DocTree, doc_tree};
ghost use Rattle.doc_values.specs.Types.{height};
ghost use Rattle.doc_values.specs.Typing.{has};
ghost use Rattle.edit_json.specs.WordJson.{counts_fit};
ghost use Rattle.edit_module.specs.Action.{act};
ghost use Rattle.edit_module.specs.Views.{entry_tree, word_tree};
ghost use Rattle.edit_session.specs.Step.{IsInStep, document_on, step};
ghost use Rattle.edit_session.specs.Views.{triple_tree};
ghost use Rattle.run_answers.specs.Answers.{state_lines};
ghost use Rattle.run_answers.specs.ItemRuns.{triple_at_first};
ghost use Rattle.lens_core.specs.LensOf.{IsLensOf};
ghost use Rattle.lens_core.specs.Sides.{near};
ghost use Rattle.lens_forms.specs.Forms.{form_tree, left_type, right_type};
ghost use Rattle.lens_forms.specs.declared.limits.TheConstants.{GREATEST_HEIGHT};
ghost use Rattle.program_terms.specs.Views.{program_tree};
ghost use Rattle.texts.specs.declared.side.Side.TheVariants.{Right};
ghost use Rattle.lens_io.specs.Calls.{SourceFailed, SinkFailed, DiskFailed};
ghost use Rattle.store_new.specs.NewEnds.{Completes, Ends, KeepsStore, RefusesAtOnce};
ghost use Rattle.store_new.specs.Found.{document_of_found};
ghost use Rattle.store_new.specs.ImportReading.{ReadsImport};
ghost use Rattle.store_new.specs.ScriptReading.{IsUnread};
ghost use Rattle.store_new.specs.Scripts.{one_program};
ghost use Rattle.store_new.specs.Import.{Imports, RefusesImport, import_command};
ghost use Rattle.store_new.specs.Making.{EndsPlan};
ghost use Rattle.store_new.specs.NewRooms.{PlanHasNoRoom, ScriptHasNoRoom};
ghost use Rattle.store_new.specs.ImportStores.{EndsImport, IsEntryText, IsFoundStore, IsImportStore, MakesDocument};
ghost use Rattle.store_run.specs.Devices.{devices_of};

use crate::document::{DocumentFault, Found, document_of, find_lines};
use crate::scripts::status_at;
use crate::{LOG_EXISTS, StoreText, Unread, first_session, give_line, make_store, refuse_program};
use answer_text::ok_line;
use command_ends::Status;
use doc_values::Doc;
use edit_inverse::construct;
use edit_module::{Change, Entry, Word};
use edit_session::{Session, StepFault};
use lens_core::EditLens;
use lens_io::{Disk, Payloads, Sink, Source, TakeFault};
use lens_types::Typed;
use program_accepted::Accepted;
use run_answers::state_lines;
use script_input::{Head, accepted_part, piece_buffer, read_head};
use std::alloc::{AllocError, Global};
use store_records::{change_payload, program_payload};
use texts::{Bytes, Side};

// A script as `import` reads it.
#[derive(Drop)]
struct ImportScript {
    accepted: Accepted,
    found: Found,
}

// The payload of an entry, and the lines that are written once it is stored.
#[derive(Drop)]
struct EntryText {
    payload: Bytes,
    lines: Vec<u8>,
}

/// Makes a store that represents the left document of a script, and writes its answer line and its state lines.
///
/// The disk is tested before anything is read, and the script is read to its end, unless its program part is refused,
/// which is done as soon as that is whole. Its journal part has one line that is not blank: a document of the left
/// type. The store then holds two payloads: the program, as after `init`, and the entry of the left side whose word
/// makes the document from the initial one.
///
/// - `imports`: after `Done` the script was read to its end, the disk was empty, it holds the two payloads, and each
///   image that a crash now may leave does, too. They represent a consistent triple, whose left document is the one
///   that was read. The line `ok 1 right WORD`, with the translated word, and the state lines of the triple were
///   written.
/// - `refuses`: after `SomeRefused` the script was read to its end, and `import refused: REASON` was written. The
///   reasons, in their order: `no-document`, if all lines are blank; `extra-line`, if more than one is not;
///   `line-too-long`, `not-json`, and `not-of-type`. The disk is as before.
/// - `ends`: what was taken, what was written and what the disk holds after each status. After `NoMemory` the disk is
///   as before, or holds a log without a record or with the program alone. The same is so at the line
///   `store refused: log-full`, which comes if the log would have more than 2^63 - 1 bytes. At each other refusal line
///   the disk is as before. After `DiskFault` it may hold any bytes. After `SinkFault` at a line that is not a refusal
///   the store is made with both records.
/// - `at_once`: `ProgramRefused` comes only if the program part is whole and refused: the separator has come with the
///   last call of the source, so that at most the rest of its block was read, or the source is at its end. If the
///   separator has come and the part is refused, the status is `ProgramRefused`, or the sink failed or memory ran out,
///   whatever stands behind the separator.
/// - `exists`: if the disk is not empty, nothing is taken from the source, and nothing is written to the disk. The line
///   `store refused: log-exists` is written, unless the disk or the sink fails.
/// - `statuses`: it ends by one of nine statuses, whatever the disk holds.
/// - `source_fault`, `sink_fault`, `disk_fault`: these statuses come only if that device failed.
/// - `room`: over a disk whose room is known, `DiskFault` comes only if the script was read to its end, and the disk
///   has no room for the mark of a log and its gate, or for the log of the first of the two payloads or of both, and
///   the gate behind it.
/// - `complete`: let no device fail, the disk be empty, the script have at most 2^30 bytes, and the log have room. If
///   the program part is accepted, the store is made or the document is refused. If it is not, the program part is
///   refused. Or memory ran out.
pub fn import<S: Source, K: Sink, D: Disk>(
    alloc: Global,
    source: &mut S,
    sink: &mut K,
    disk: &mut D,
) -> Status
    ensures imports { result ≡ Status.Done
        → Imports S.Source K.Sink D.Disk (devices_of source.old sink.old disk.old)
        (devices_of source.new sink.new disk.new) }
    ensures refuses { result ≡ Status.SomeRefused
        → RefusesImport S.Source K.Sink D.Disk (devices_of source.old sink.old disk.old)
        (devices_of source.new sink.new disk.new) }
    ensures ends { Ends S.Source K.Sink D.Disk import_command
        (devices_of source.old sink.old disk.old) (devices_of source.new sink.new disk.new) result }
    ensures at_once { RefusesAtOnce one_program S.Source source.old source.new result }
    ensures exists { KeepsStore S.Source K.Sink D.Disk
        (devices_of source.old sink.old disk.old) (devices_of source.new sink.new disk.new) result }
    ensures statuses { IsStatusAmong import_statuses result }
    ensures source_fault { result ≡ Status.SourceFault → SourceFailed S.Source source.old source.new }
    ensures sink_fault { result ≡ Status.SinkFault → SinkFailed K.Sink sink.old sink.new }
    ensures disk_fault { result ≡ Status.DiskFault → DiskFailed D.Disk disk.old disk.new }
    ensures room { result ≡ Status.DiskFault
        → IfSome (D.room disk.old) (ScriptHasNoRoom S.Source import_command source.old source.new) }
    ensures complete { Completes S.Source K.Sink D.Disk import_command
        (devices_of source.old sink.old disk.old) (devices_of source.new sink.new disk.new) result }
{
    match disk.len() {
        Ok(0) => import_empty(alloc, source, sink, disk),
        Ok(_) => give_line(sink, LOG_EXISTS, Status::StoreRefused),
        Err(_) => Status::DiskFault,
    }
}

// `import` on an empty disk.
fn import_empty<S: Source, K: Sink, D: Disk>(
    alloc: Global,
    source: &mut S,
    sink: &mut K,
    disk: &mut D,
) -> Status
    requires empty { IfSome (D.content disk.old) (λ bytes. length bytes ≡ 0) }
    ensures ends { Ends S.Source K.Sink D.Disk import_command
        (devices_of source.old sink.old disk.old) (devices_of source.new sink.new disk.new) result }
    ensures source_fault { result ≡ Status.SourceFault → SourceFailed S.Source source.old source.new }
    ensures sink_fault { result ≡ Status.SinkFault → SinkFailed K.Sink sink.old sink.new }
    ensures disk_fault { result ≡ Status.DiskFault → DiskFailed D.Disk disk.old disk.new }
    ensures room { result ≡ Status.DiskFault
        → IfSome (D.room disk.old) (ScriptHasNoRoom S.Source import_command source.old source.new) }
{
    match read_import(alloc, source) {
        Ok(script) => import_script(alloc, &script, sink, disk),
        Err(Unread::Refused(refused)) => refuse_program(alloc, refused, sink),
        Err(Unread::Stopped(fault)) => status_at(fault),
    }
}

// The program of a script and the lines of its journal part that are not blank. It is read to its end.
fn read_import<S: Source>(alloc: Global, source: &mut S) -> Result<ImportScript, Unread>
    ensures script { MatchResult result
        (λ s. ReadsImport S.Source source.old source.new
        (program_tree s.accepted.program) (form_tree s.accepted.lens) s.found)
        (IsUnread S.Source source.old source.new) }
    ensures cause { IsErrOf result (Unread.Stopped TakeFault.SourceFault)
        → SourceFailed S.Source source.old source.new }
{
    let Ok(mut piece) = piece_buffer(alloc) else {
        return Err(Unread::Stopped(TakeFault::NoMemory));
    };
    match read_head(alloc, source, &mut piece) {
        Ok(Head::Whole(program)) => match accepted_part(alloc, &program) {
            Ok(accepted) => Ok(ImportScript {
                accepted,
                found: Found::Nothing,
            }),
            Err(refused) => Err(Unread::Refused(refused)),
        },
        Ok(Head::Separated(program, input)) => match accepted_part(alloc, &program) {
            Ok(accepted) => match find_lines(input, source, &mut piece) {
                Ok(found) => Ok(ImportScript { accepted, found }),
                Err(fault) => Err(Unread::Stopped(fault)),
            },
            Err(refused) => Err(Unread::Refused(refused)),
        },
        Err(fault) => Err(Unread::Stopped(fault)),
    }
}

// Makes the store of a program and a document, or refuses the document.
fn import_script<K: Sink, D: Disk>(
    alloc: Global,
    script: &ImportScript,
    sink: &mut K,
    disk: &mut D,
) -> Status
    ensures ends { EndsImport K.Sink D.Disk (sink.old, disk.old) (sink.new, disk.new)
        (program_tree script.now.accepted.program) (form_tree script.now.accepted.lens)
        (document_of_found (left_type (form_tree script.now.accepted.lens)) script.now.found) result }
    ensures sink_fault { result ≡ Status.SinkFault → SinkFailed K.Sink sink.old sink.new }
    ensures disk_fault { result ≡ Status.DiskFault → DiskFailed D.Disk disk.old disk.new }
    ensures room { result ≡ Status.DiskFault → IfSome (D.room disk.old)
        (PlanHasNoRoom (IsFoundStore (program_tree script.now.accepted.program) (form_tree script.now.accepted.lens)
        (document_of_found (left_type (form_tree script.now.accepted.lens)) script.now.found))) }
{
    match document_of(alloc, script.accepted.lens.left(), &script.found) {
        Ok(doc) => bring(alloc, &script.accepted, doc, sink, disk),
        Err(DocumentFault::Refused(refusal)) => {
            give_line(sink, refusal.line(), Status::SomeRefused)
        }
        Err(DocumentFault::NoMemory) => Status::NoMemory,
    }
}

// Makes the store of a program and a document.
fn bring<K: Sink, D: Disk>(
    alloc: Global,
    accepted: &Accepted,
    doc: Doc,
    sink: &mut K,
    disk: &mut D,
) -> Status
    requires typed { has (left_type (form_tree accepted.now.lens)) (doc_tree doc) ≡ true }
    ensures ends { EndsPlan K.Sink D.Disk (sink.old, disk.old) (sink.new, disk.new)
        (IsImportStore (program_tree accepted.now.program) (form_tree accepted.now.lens) (doc_tree doc)) result }
    ensures sink_fault { result ≡ Status.SinkFault → SinkFailed K.Sink sink.old sink.new }
    ensures disk_fault { result ≡ Status.DiskFault → DiskFailed D.Disk disk.old disk.new }
    ensures room { result ≡ Status.DiskFault → IfSome (D.room disk.old)
        (PlanHasNoRoom (IsImportStore (program_tree accepted.now.program) (form_tree accepted.now.lens)
        (doc_tree doc))) }
{
    let Ok(store) = import_store(alloc, accepted, doc) else {
        return Status::NoMemory;
    };
    make_store(alloc, &store.payloads, &store.lines, sink, disk)
}

// The two payloads and the lines of a program and a document.
fn import_store(alloc: Global, accepted: &Accepted, doc: Doc) -> Result<StoreText, AllocError>
    requires typed { has (left_type (form_tree accepted.now.lens)) (doc_tree doc) ≡ true }
    ensures { IfOk result (λ s. IsImportStore (program_tree accepted.now.program) (form_tree accepted.now.lens)
        (doc_tree doc) s.payloads s.lines.items) }
{
    let program = program_payload(alloc, &accepted.program)?;
    let entry = entry_text(alloc, &accepted.lens, doc)?;
    let payloads = Vec::from_array(alloc, [program, entry.payload])?;
    Ok(StoreText {
        payloads: Payloads::from_vec(payloads),
        lines: entry.lines,
    })
}

// The payload of the entry that makes a document, and the lines that are written then.
fn entry_text(alloc: Global, lens: &Typed, doc: Doc) -> Result<EntryText, AllocError>
    requires typed { has (left_type (form_tree lens.now)) (doc_tree doc) ≡ true }
    ensures { IfOk result (λ e. IsEntryText (form_tree lens.now) (doc_tree doc) e.payload e.lines.items) }
{
    let mut session = first_session(alloc, lens)?;
    let text = text_of_step(alloc, lens, &mut session, doc);
    drop(session);
    text
}

// The same, over a session at its first triple.
fn text_of_step<L: EditLens>(
    alloc: Global,
    lens: &Typed,
    session: &mut Session<L>,
    doc: Doc,
) -> Result<EntryText, AllocError>
    requires of_form { IsLensOf (L.left_type session.old.lens) (L.right_type session.old.lens)
        (L.start session.old.lens) (L.holds session.old.lens) (L.carried session.old.lens)
        (form_tree lens.now) }
    requires first { triple_tree session.old.triple ≡ triple_at_first (form_tree lens.now) }
    requires typed { has (left_type (form_tree lens.now)) (doc_tree doc) ≡ true }
    ensures { IfOk result (λ e. IsEntryText (form_tree lens.now) (doc_tree doc) e.payload e.lines.items) }
{
    types_are_low(lens);
    let entry = document_entry(alloc, lens, doc)?;
    let word = step_applied(session, &entry)?;
    let payload = change_payload(alloc, &Change::One(entry))?;
    let lines = lines_after(alloc, lens, session, word)?;
    Ok(EntryText { payload, lines })
}

// The types of a lens are low enough that the JSON reader reads their changes back.
fn types_are_low(lens: &Typed)
    ensures left { height (left_type (form_tree lens.now)) ≤ GREATEST_HEIGHT }
    ensures right { height (right_type (form_tree lens.now)) ≤ GREATEST_HEIGHT }
{
    let (_left, _right) = (lens.left(), lens.right());
}

// The entry of the left side whose word makes a document from the initial one. The document is dropped.
fn document_entry(alloc: Global, lens: &Typed, doc: Doc) -> Result<Entry, AllocError>
    requires typed { has (left_type (form_tree lens.now)) (doc_tree doc) ≡ true }
    ensures { IfOk result (λ e. MakesDocument (form_tree lens.now) (doc_tree doc) (entry_tree e)) }
{
    let word = construct(alloc, lens.left(), &doc)?;
    Ok(Entry {
        side: Side::Left,
        word,
    })
}

// Steps a session by an entry that applies. Returns the translated word.
fn step_applied<L: EditLens>(session: &mut Session<L>, entry: &Entry) -> Result<Word, AllocError>
    requires applies { (x : DocTree)
        × (act (near entry.now.side (L.left_type session.old.lens) (L.right_type session.old.lens))
        (word_tree entry.now.word) (document_on entry.now.side (triple_tree session.old.triple)) ≡ Ok x) }
    ensures steps { IfOk result (λ word. step (L.left_type session.old.lens) (L.right_type session.old.lens)
        (L.carried session.old.lens) (triple_tree session.old.triple) (entry_tree entry.now)
        ≡ Some (Ok (triple_tree session.new.triple, word_tree word))) }
    ensures consistent { IsInStep (L.holds session.new.lens) (triple_tree session.new.triple) }
    ensures lens { session.new.lens ≡ session.old.lens }
{
    match session.step(entry) {
        Ok(word) => Ok(word),
        Err(StepFault::NoApply { .. }) => unreachable!(),
        Err(StepFault::NoMemory) => Err(AllocError),
    }
}

// The line `ok 1 right WORD`, and the state lines of a session. The word is dropped in between.
fn lines_after<L: EditLens>(
    alloc: Global,
    lens: &Typed,
    session: &Session<L>,
    word: Word,
) -> Result<Vec<u8>, AllocError>
    requires of_form { IsLensOf (L.left_type session.now.lens) (L.right_type session.now.lens)
        (L.start session.now.lens) (L.holds session.now.lens) (L.carried session.now.lens)
        (form_tree lens.now) }
    requires counts { counts_fit (word_tree word) ≡ true }
    ensures { IfOk result (λ lines. lines.items
        ≡ ok_line 1 Right (word_tree word) ++ state_lines (form_tree lens.now) (triple_tree session.now.triple)) }
{
    let answer = ok_line(alloc, 1, Side::Right, &word)?;
    drop(word);
    let state = state_lines(alloc, lens, session)?;
    let mut lines = answer.into_vec();
    lines.extend_from_slice(&state)?;
    Ok(lines)
}
