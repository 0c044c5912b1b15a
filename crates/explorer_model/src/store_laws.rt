//! Laws of the store file. Each is the contract of a function that has nothing to do.
ghost use Rattle.std.specs.Prelude.{◌≡◌, ◌≢◌, ◌<◌, ◌≤◌, ℕ, List, ◌∷◌, ◌++◌, length, All, Some, Ok};
ghost use Rattle.explorer_model.specs.declared.archive.Batch.{Batch};
ghost use Rattle.explorer_model.specs.StoreFile.{
  CanStand,
  IsStorable,
  IsStoreOf,
  front_of,
  records_of,
  records_at,
  payload_of,
  batch_in,
  store_of,
  journal_of,
  gate_limit,
};

/// What is written is read: a batch from its payload, and payloads and journals from a file with
/// a gate behind them that is not open, whatever follows it.
pub fn what_is_stored_is_read()
    ensures batch { (batch : Batch) → IsStorable batch → batch_in (payload_of batch) ≡ Some batch }
    ensures records { (most format : ℕ) (payloads : List (List ℕ)) (gate : ℕ) (rest : List ℕ)
        → CanStand most format payloads → gate ≢ 1
        → records_of most format (front_of format payloads ++ gate ∷ rest)
        ≡ Ok (records_at 12 payloads) }
    ensures journal { (file : List ℕ) (journal : List Batch) → IsStoreOf journal file
        → length (store_of journal) ≤ gate_limit → journal_of file ≡ Ok journal }
{}

/// Nothing else is read: bytes in which a batch or a journal is found are those written for it.
pub fn what_is_read_was_stored()
    ensures batch { (payload : List ℕ) (batch : Batch) → All (λ b. b < 256) payload
        → batch_in payload ≡ Some batch → IsStorable batch × (payload ≡ payload_of batch) }
    ensures journal { (file : List ℕ) (journal : List Batch) → All (λ b. b < 256) file
        → journal_of file ≡ Ok journal → IsStoreOf journal file }
{}
