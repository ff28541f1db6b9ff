//! What the definitions of peers give on worked cases, computed from them. Times are milliseconds.

ghost use Rattle.std.specs.Prelude.{◌≡◌, ℕ, ◌∷◌, [], true, false, Ok, Err};
ghost use Rattle.proxy_streams.specs.Peers.{Bytes, Ended, prefix_taken_by_write, read_outcome_of_result};
ghost use Rattle.proxy_streams.specs.Resets.{is_broken_connection_error, is_end_after_reset, is_reset_error};
ghost use Rattle.proxy_streams.specs.Silence.{end_is_silent};
ghost use Rattle.std.specs.declared.io.ErrorKind.TheVariants.{ConnectionReset, ConnectionRefused, BrokenPipe, TimedOut};

/// What a read and a write told. A time is over where it was passed, and not where it is just reached; an end of which
/// something has to be read isn't silent, but where it doesn't take what it has to take first. A connection that was
/// reset had been made, and one that was refused or took too long hadn't; behind a broken pipe an end was read before.
pub fn worked_peer_read_outcomes()
    ensures end { read_outcome_of_result (Ok 0) (1 ∷ []) ≡ Ended }
    ensures bytes { read_outcome_of_result (Ok 1) (1 ∷ (2 ∷ [])) ≡ Bytes (1 ∷ []) }
    ensures written { prefix_taken_by_write {E = ℕ} (Ok 1) (1 ∷ (2 ∷ [])) ≡ 1 ∷ [] }
    ensures not_written { prefix_taken_by_write {E = ℕ} (Err 0) (1 ∷ (2 ∷ [])) ≡ [] }
    ensures waits_to_be_read { end_is_silent true [] 100 0 5 ≡ false }
    ensures takes_not { end_is_silent true (1 ∷ []) 100 0 5 ≡ true }
    ensures silent { end_is_silent false [] 100 94 5 ≡ true }
    ensures silent_just { end_is_silent false [] 100 95 5 ≡ false }
    ensures was_reset { is_broken_connection_error ConnectionReset ≡ true }
    ensures was_ended { is_broken_connection_error BrokenPipe ≡ true }
    ensures was_refused { is_broken_connection_error ConnectionRefused ≡ false }
    ensures took_too_long { is_broken_connection_error TimedOut ≡ false }
    ensures is_told { is_reset_error ConnectionReset ≡ true }
    ensures is_not_told { is_reset_error BrokenPipe ≡ false }
    ensures no_end { is_end_after_reset true 0 ≡ true }
    ensures bytes_behind { is_end_after_reset true 1 ≡ false }
    ensures true_end { is_end_after_reset false 0 ≡ false }
{}
