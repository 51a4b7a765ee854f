//! The payloads of a store that is made anew, and the line that says so.
ghost use Rattle.std.specs.Prelude.{◌≡◌, ◌∷◌, ◌++◌, [], List, ℕ, Ok, Some, IfOk, MatchResult};
ghost use Rattle.std.specs.declared.option.Option.{Option};
ghost use Rattle.store_run.specs.Making.{IsMakingFault};
ghost use Rattle.store_run.specs.Refusals.{refusal_of_payloads};
ghost use Rattle.store_run.specs.declared.refusals.StoreRefusal.{StoreRefusal};
ghost use Rattle.store_copy.specs.NewPayloads.{IsAllowed, IsCompacted, IsCopied, IsPlanned, IsTakenBack};
ghost use Rattle.store_copy.specs.Unmade.{unmade_by};

use crate::lines::{back_line, compacted_line, copied_line};
use crate::session::RemadeSession;
use lens_io::Payloads;
use std::alloc::{AllocError, Global};
use store_new::StoreText;
use store_run::{MakingFault, ReopenFault, StoreRefusal, StoredSession};
use texts::Bytes;

/// What a command makes of a store.
#[derive(Clone, Copy, Debug, PartialEq, Eq)]
pub(crate) enum Remaking {
    /// A store of its state alone.
    Compact,
    /// A store of the same records.
    Copy,
    /// A store of the same records that goes back to the state after one of them.
    Back { number: usize },
}

/// The payloads of the new store, and the line that says so.
///
/// - `Refused`: if and only if the payloads stand for no session, for their reason.
/// - `NoMemory`: only if memory ran out.
pub(crate) fn new_payloads<A: RemadeSession + Drop>(
    alloc: Global,
    way: Remaking,
    payloads: Payloads,
) -> Result<StoreText, MakingFault>
    ensures made { (t : A.State) (version : Option (List ℕ)) → A.stands_for payloads ≡ Ok (t, version)
        → IsAllowed way
        → MatchResult result
        (λ text. IsPlanned A.StoredSession A.beginning A.earlier way payloads t version
        text.payloads text.lines.items)
        (λ fault. fault ≡ MakingFault.NoMemory) }
    ensures refused { (reason : StoreRefusal)
        → refusal_of_payloads (A.stands_for payloads) ≡ Some reason
        → MatchResult result (λ _. ⊥) (IsMakingFault (Some reason)) }
{
    match A::reopen(alloc, &payloads) {
        Ok(opened) => text_of(alloc, way, &opened.session, payloads),
        Err(fault) => Err(unmade(fault)),
    }
}

// What payloads that stand for no session mean for the store.
fn unmade(fault: ReopenFault) -> MakingFault
    ensures { result ≡ unmade_by fault }
{
    match fault {
        ReopenFault::BadRecord { number } => MakingFault::Refused(StoreRefusal::BadRecord {
            number,
        }),
        ReopenFault::NotConsistent { number } => MakingFault::Refused(StoreRefusal::NotConsistent {
            number,
        }),
        ReopenFault::NoMemory => MakingFault::NoMemory,
    }
}

// The same of payloads that stand for the state of this session.
fn text_of<A: RemadeSession + Drop>(
    alloc: Global,
    way: Remaking,
    session: &A,
    payloads: Payloads,
) -> Result<StoreText, MakingFault>
    ensures { (version : Option (List ℕ))
        → A.stands_for payloads ≡ Ok (A.state session.now, version) → IsAllowed way
        → MatchResult result
        (λ text. IsPlanned A.StoredSession A.beginning A.earlier way payloads (A.state session.now) version
        text.payloads text.lines.items)
        (λ fault. fault ≡ MakingFault.NoMemory) }
{
    match way {
        Remaking::Compact => compacted(alloc, session, &payloads),
        Remaking::Copy => copied::<A>(alloc, payloads),
        Remaking::Back { number } => taken_back::<A>(alloc, number, payloads),
    }
}

// A store of the state alone.
fn compacted<A: RemadeSession>(
    alloc: Global,
    session: &A,
    payloads: &Payloads,
) -> Result<StoreText, MakingFault>
    ensures { (version : Option (List ℕ))
        → A.stands_for payloads.now ≡ Ok (A.state session.now, version) → MatchResult result
        (λ text. IsCompacted A.StoredSession A.beginning payloads.now (A.state session.now) version
        text.payloads text.lines.items)
        (λ fault. fault ≡ MakingFault.NoMemory) }
{
    let made = with_one_more(A::beginning(alloc, payloads)?, session.snapshot(alloc)?)?;
    let lines = compacted_line(alloc, payloads.as_slice().len(), made.len())?;
    Ok(StoreText {
        payloads: Payloads::from_vec(made),
        lines,
    })
}

// These payloads, and one behind them.
fn with_one_more(payloads: Vec<Bytes>, payload: Bytes) -> Result<Vec<Bytes>, AllocError>
    ensures { IfOk result (λ made. made.items ≡ payloads.items ++ payload ∷ []) }
{
    let mut made = payloads;
    made.push(payload)?;
    Ok(made)
}

// A store of the same records.
fn copied<A: RemadeSession>(alloc: Global, payloads: Payloads) -> Result<StoreText, MakingFault>
    ensures { (t : A.State) (version : Option (List ℕ)) → A.stands_for payloads ≡ Ok (t, version)
        → MatchResult result
        (λ text. IsCopied A.StoredSession payloads t version text.payloads text.lines.items)
        (λ fault. fault ≡ MakingFault.NoMemory) }
{
    let lines = copied_line(alloc, payloads.as_slice().len())?;
    Ok(StoreText { payloads, lines })
}

// A store of the same records that goes back to the state after the one with this number.
fn taken_back<A: RemadeSession + Drop>(
    alloc: Global,
    number: usize,
    payloads: Payloads,
) -> Result<StoreText, MakingFault>
    ensures { (t : A.State) (version : Option (List ℕ)) → A.stands_for payloads ≡ Ok (t, version)
        → IsAllowed (Remaking.Back number)
        → MatchResult result
        (λ text. IsTakenBack A.StoredSession A.earlier number payloads t version text.payloads text.lines.items)
        (λ fault. fault ≡ MakingFault.NoMemory) }
{
    let front = A::earlier(alloc, number, &payloads)?;
    match A::reopen(alloc, &front) {
        Ok(opened) => with_snapshot(alloc, number, &opened.session, payloads),
        Err(fault) => Err(unmade(fault)),
    }
}

/// The same bytes, in a value of their own. The only error is running out of memory.
pub(crate) fn same_bytes(alloc: Global, bytes: &[u8]) -> Result<Bytes, AllocError>
    ensures { IfOk result (λ same. same ≡ bytes.now) }
{
    Ok(Bytes::from_vec(bytes.to_vec(alloc)?))
}

// The payloads, and the snapshot of the state of a session, to which the store goes back.
fn with_snapshot<A: RemadeSession>(
    alloc: Global,
    number: usize,
    session: &A,
    payloads: Payloads,
) -> Result<StoreText, MakingFault>
    ensures { (t : A.State) (version due : Option (List ℕ)) → A.stands_for payloads ≡ Ok (t, version)
        → A.stands_for (A.earlier number payloads) ≡ Ok (A.state session.now, due)
        → IsAllowed (Remaking.Back number)
        → MatchResult result
        (λ text. IsTakenBack A.StoredSession A.earlier number payloads t version text.payloads text.lines.items)
        (λ fault. fault ≡ MakingFault.NoMemory) }
{
    let made = with_one_more(payloads.into_vec(), session.snapshot(alloc)?)?;
    let lines = back_line(alloc, number)?;
    Ok(StoreText {
        payloads: Payloads::from_vec(made),
        lines,
    })
}
