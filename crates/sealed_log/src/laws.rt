//! What seals notice, as laws. Each function does nothing: its clauses are the laws.
ghost use Rattle.std.specs.Prelude.{◌≡◌, ◌≢◌, ◌↔◌, ◌+◌, ◌^◌, ◌<◌, ℕ, List, ◌∷◌, ◌++◌, length, Ok, Err, None, Some};
ghost use Rattle.std.specs.List.{AllByRecursion};
ghost use Rattle.record_sums.specs.Bursts.{DifferInOneByte, DifferWithin, IsBytes};
ghost use Rattle.gate_log.specs.LogBytes.{payloads};
ghost use Rattle.sealed_log.specs.SealedLists.{last_seal, last_seal_from, sealed, sealed_from, unsealed};
ghost use Rattle.sealed_log.specs.SealedLogs.{HoldsSealed, sealed_log_of};
ghost use Rattle.sealed_log.specs.SealedRecords.{opened_record, seal_of, sealed_record};

/// What is sealed is unsealed to the same payloads, and nothing else is.
pub fn sealed_lists_unseal()
    ensures back { (held : List (List ℕ)) → unsealed (sealed held) ≡ Ok held }
    ensures only { (stored held : List (List ℕ)) → unsealed stored ≡ Ok held
        → stored ≡ sealed held }
{}

/// A log holds the records that payloads are sealed as if and only if it is read as these payloads.
pub fn sealed_logs_are_read()
    ensures { (held : List (List ℕ)) (bytes : List ℕ)
        → HoldsSealed held bytes ↔ (sealed_log_of bytes ≡ payloads held) }
{}

/// The records of more payloads are those of the first ones, and then others. So records that are left out at the end
/// are not noticed: what is left is a log that was there before.
pub fn a_prefix_is_sealed()
    ensures { (held more : List (List ℕ)) → sealed (held ++ more)
        ≡ sealed held ++ sealed_from (last_seal held) (1 + length held) more }
{}

/// A record that is changed within 32 adjacent bits is refused by its number, whatever is behind it.
pub fn a_changed_burst_is_refused()
    ensures { (held front back rest : List (List ℕ)) (it changed : List ℕ)
        → sealed held ≡ front ++ it ∷ back
        → IsBytes it → IsBytes changed → DifferWithin 32 it changed
        → unsealed (front ++ changed ∷ rest) ≡ Err (1 + length front) }
{}

/// A record with one changed byte is refused by its number, whatever is behind it.
pub fn a_changed_byte_is_refused()
    ensures { (held front back rest : List (List ℕ)) (it changed : List ℕ)
        → sealed held ≡ front ++ it ∷ back
        → IsBytes it → IsBytes changed → DifferInOneByte it changed
        → unsealed (front ++ changed ∷ rest) ≡ Err (1 + length front) }
{}

/// A record at another place than its own is refused by the number of that place, whatever is behind it. So a list is
/// refused in which a record was left out before the last one, two records were swapped, or one was repeated. The
/// record may be of another list.
pub fn a_moved_record_is_refused()
    ensures { (held front back others before behind rest : List (List ℕ)) (it : List ℕ)
        → sealed held ≡ front ++ back → sealed others ≡ before ++ it ∷ behind
        → length front ≢ length before
        → 1 + length front < 2 ^ 64 → 1 + length before < 2 ^ 64
        → unsealed (front ++ it ∷ rest) ≡ Err (1 + length front) }
{}

/// A record of another log, at its own place, is taken if and only if the seals before it are equal. Of how seldom that
/// is, nothing is claimed.
pub fn another_logs_record()
    ensures taken { (before other number : ℕ) (payload : List ℕ)
        → before < 2 ^ 32 → other < 2 ^ 32 → number < 2 ^ 64 → IsBytes payload
        → (opened_record before number (sealed_record other number payload) ≡ Some payload)
        ↔ (before ≡ other) }
    ensures refused { (before other number : ℕ) (payload : List ℕ)
        → before < 2 ^ 32 → other < 2 ^ 32 → number < 2 ^ 64 → IsBytes payload
        → before ≢ other
        → opened_record before number (sealed_record other number payload) ≡ None }
{}

/// Records behind different seals have different seals again, if their payloads are the same.
///
/// - `chain`: so it is for all payloads that follow.
/// - `begin`: payloads that differ within 32 adjacent bits have different seals. So no later record of one log fits the
///   other, if only one payload differs so.
pub fn different_seals_stay_different()
    ensures chain { (before other number : ℕ) (held : List (List ℕ))
        → before < 2 ^ 32 → other < 2 ^ 32 → number + length held < 2 ^ 64
        → AllByRecursion IsBytes held → before ≢ other
        → last_seal_from before number held ≢ last_seal_from other number held }
    ensures begin { (before number : ℕ) (one other : List ℕ)
        → number < 2 ^ 64 → IsBytes one → IsBytes other → DifferWithin 32 one other
        → seal_of before number one ≢ seal_of before number other }
{}
