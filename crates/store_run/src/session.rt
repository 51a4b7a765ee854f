//! What a store needs of its session: calls, definitions and laws.
ghost use Rattle.std.specs.Prelude.{◌≡◌, List, ℕ, ◌+◌, ◌∷◌, ◌++◌, [], IfOk, OnOk, MatchResult, Ok, Some, None, not};
ghost use Rattle.std.specs.Prelude.{is_some};
ghost use Rattle.std.specs.declared.option.Option.{Option};
ghost use Rattle.std.specs.declared.result.Result.{Result};
ghost use Rattle.edit_journal.specs.declared.line.Line.{Line};
ghost use Rattle.store_run.specs.OkLines.{IsAnswer, AreOtherLines};
ghost use Rattle.store_run.specs.Reopening.{IsReopenFault};
ghost use Rattle.store_run.specs.declared.session.StoredAnswer.{StoredAnswer};
ghost use Rattle.store_run.specs.declared.session.ReopenFault.{ReopenFault};

use edit_journal::Line;
use lens_io::Payloads;
use std::alloc::{AllocError, Global};
use texts::Bytes;

/// The answer to an item of a journal.
#[derive(Drop)]
pub struct StoredAnswer {
    /// The answer line, with its line feed.
    pub line: Bytes,
    /// The payload of the change, if it was accepted.
    pub payload: Option<Bytes>,
}

impl StoredAnswer {
    /// Whether the item was refused.
    pub fn is_refused(&self) -> bool
        ensures { result ≡ not (is_some self.now.payload) }
    {
        self.payload.is_none()
    }
}

/// A stored session that was opened.
#[derive(Drop)]
pub struct Opened<A> {
    /// The session, in the state for which the payloads stand.
    pub session: A,
    /// The version record, if it is still to be stored.
    pub version: Option<Bytes>,
    /// How many of the payloads are of changes.
    pub count: u64,
}

/// Why payloads stand for no session. Records are numbered from 1, and the fault is that of the first record that has
/// one.
#[derive(Clone, Copy, Debug, PartialEq, Eq)]
pub enum ReopenFault {
    /// The record is not one that may stand there.
    BadRecord { number: u64 },
    /// The record is a snapshot whose documents and complements are not consistent.
    NotConsistent { number: u64 },
    /// Memory ran out, which says nothing of the payloads.
    NoMemory,
}

/// A session that payloads can stand for: its calls, and the laws that tie them to the payloads.
pub trait StoredSession: Sized {
    /// What the payloads of a store stand for: the lens and its triple, or the lenses of a hub and its documents.
    ghost State: { Type 0 };

    /// The state of this session.
    ghost state: { Self → State };

    /// What the line with this number makes of a state: the next state, and the answer.
    ghost answer: { State → ℕ → Line → Option (State × StoredAnswer) };

    /// What holds of a step that was made: its payload is one that is read back, and so on.
    ghost is_step: { State → ℕ → Line → State × StoredAnswer → Type 0 };

    /// The state lines.
    ghost state_text: { State → List ℕ };

    /// The payload of the snapshot of a state.
    ghost snapshot_text: { State → List ℕ };

    /// What holds of a state of which a snapshot was made: its payload is one that is read back, and so on.
    ghost has_snapshot: { State → Type 0 };

    /// How many payloads are of changes.
    ghost count_of: { List (List ℕ) → ℕ };

    /// The state for which payloads stand, with the version record if it is not among them; or why they stand for none.
    ghost stands_for: { List (List ℕ) → Result (State × Option (List ℕ)) ReopenFault };

    /// The session for which payloads stand. The fault is the one that the definition gives, or running out of memory.
    fn reopen(alloc: Global, payloads: &Payloads) -> Result<Opened<Self>, ReopenFault>
        ensures stands { MatchResult result
            (λ o. stands_for payloads.now ≡ Ok (state o.session, o.version))
            (IsReopenFault (stands_for payloads.now)) }
        ensures count { IfOk result (λ o. o.count ≡ count_of payloads.now) };

    /// The payload of the snapshot. The only error is running out of memory.
    fn snapshot(&self, alloc: Global) -> Result<Bytes, AllocError>
        ensures text { IfOk result (λ payload. payload ≡ snapshot_text (state self.now)) }
        ensures has { OnOk result (has_snapshot (state self.now)) };

    /// Answers the item with this number. The only error is running out of memory.
    fn answer(
        &mut self,
        alloc: Global,
        number: u64,
        line: &Line,
    ) -> Result<StoredAnswer, AllocError>
        ensures answer { IfOk result (λ a.
            answer (state self.old) number line.now ≡ Some (state self.new, a)) }
        ensures step { IfOk result (λ a. is_step (state self.old) number line.now (state self.new, a)) }
        ensures is_answer { IfOk result IsAnswer };

    /// The state lines. The only error is running out of memory.
    fn state_lines(&self, alloc: Global) -> Result<Bytes, AllocError>
        ensures text { IfOk result (λ text. text ≡ state_text (state self.now)) }
        ensures lines { IfOk result AreOtherLines };

    /// The version record changes nothing but the version.
    ghost version_stands: { (ps : List (List ℕ)) (t : State) (v : List ℕ)
        → stands_for ps ≡ Ok (t, Some v) → stands_for (ps ++ v ∷ []) ≡ Ok (t, None) };

    /// The payload of a change that was accepted stands for its step.
    ghost change_stands: { (ps : List (List ℕ)) (t t' : State)
        (n : ℕ) (line : Line) (a : StoredAnswer) (p : List ℕ)
        → stands_for ps ≡ Ok (t, None) → answer t n line ≡ Some (t', a)
        → is_step t n line (t', a) → a.payload ≡ Some p
        → stands_for (ps ++ p ∷ []) ≡ Ok (t', None) };

    /// The version record is not one of a change.
    ghost version_counts: { (ps : List (List ℕ)) (t : State) (v : List ℕ)
        → stands_for ps ≡ Ok (t, Some v) → count_of (ps ++ v ∷ []) ≡ count_of ps };

    /// The payload of a change that was accepted counts one.
    ghost change_counts: { (ps : List (List ℕ)) (t t' : State)
        (n : ℕ) (line : Line) (a : StoredAnswer) (p : List ℕ)
        → stands_for ps ≡ Ok (t, None) → answer t n line ≡ Some (t', a)
        → is_step t n line (t', a) → a.payload ≡ Some p
        → count_of (ps ++ p ∷ []) ≡ count_of ps + 1 };

    /// A snapshot is not one of a change.
    ghost snapshot_counts: { (ps : List (List ℕ)) (t : State)
        → stands_for ps ≡ Ok (t, None) → has_snapshot t
        → count_of (ps ++ snapshot_text t ∷ []) ≡ count_of ps };

    /// An item that is refused leaves the state.
    ghost refused_stays: { (t t' : State) (n : ℕ) (line : Line) (a : StoredAnswer)
        → answer t n line ≡ Some (t', a) → a.payload ≡ None → t' ≡ t };

    /// A snapshot leaves the state.
    ghost snapshot_stands: { (ps : List (List ℕ)) (t : State)
        → stands_for ps ≡ Ok (t, None) → has_snapshot t
        → stands_for (ps ++ snapshot_text t ∷ []) ≡ Ok (t, None) };
}
