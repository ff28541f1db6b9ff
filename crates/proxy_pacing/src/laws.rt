//! What the definitions of moments and of queues give on worked cases, computed from them.

ghost use Rattle.std.specs.Prelude.{◌≡◌, ◌∷◌, [], None, Some, true, false};
ghost use Rattle.proxy_pacing.specs.MomentOrder.{earliest_moment_if_due, with_moment, moments_without_earliest_due};
ghost use Rattle.proxy_pacing.specs.MomentOrder.{without_moment};
ghost use Rattle.proxy_pacing.specs.Queues.{first_entry_from, entries_of_stream_queue};
ghost use Rattle.proxy_pacing.specs.RestBytes.{has_no_bytes};
ghost use Rattle.proxy_pacing.specs.declared.stream_queues.ClosedStreamQueue.TheVariants.{Leaving, Lingering};
ghost use Rattle.proxy_pacing.specs.declared.stream_queues.ClosedStreamQueues.{ClosedStreamQueues};

/// The earliest stands first, and of one moment the least holder; each stands once. The earliest is due at its moment
/// and behind it, and no other is.
pub fn worked_moments()
    ensures earlier { with_moment (record { at = 3; id = 9 }) (record { at = 5; id = 1 } ∷ [])
        ≡ record { at = 3; id = 9 } ∷ (record { at = 5; id = 1 } ∷ []) }
    ensures later { with_moment (record { at = 7; id = 0 }) (record { at = 5; id = 1 } ∷ [])
        ≡ record { at = 5; id = 1 } ∷ (record { at = 7; id = 0 } ∷ []) }
    ensures of_one_moment { with_moment (record { at = 5; id = 0 }) (record { at = 5; id = 1 } ∷ [])
        ≡ record { at = 5; id = 0 } ∷ (record { at = 5; id = 1 } ∷ []) }
    ensures once { with_moment (record { at = 5; id = 1 }) (record { at = 5; id = 1 } ∷ [])
        ≡ record { at = 5; id = 1 } ∷ [] }
    ensures taken_out { without_moment (record { at = 5; id = 1 })
        (record { at = 5; id = 0 } ∷ (record { at = 5; id = 1 } ∷ [])) ≡ record { at = 5; id = 0 } ∷ [] }
    ensures another { without_moment (record { at = 5; id = 2 }) (record { at = 5; id = 1 } ∷ [])
        ≡ record { at = 5; id = 1 } ∷ [] }
    ensures due { earliest_moment_if_due 5 (record { at = 5; id = 1 } ∷ []) ≡ Some (record { at = 5; id = 1 }) }
    ensures not_due { earliest_moment_if_due 4 (record { at = 5; id = 1 } ∷ []) ≡ None }
    ensures left { moments_without_earliest_due 6 (record { at = 5; id = 1 } ∷ (record { at = 6; id = 0 } ∷ []))
        ≡ record { at = 6; id = 0 } ∷ [] }
    ensures all_left { moments_without_earliest_due 4 (record { at = 5; id = 1 } ∷ []) ≡ record { at = 5; id = 1 }
        ∷ [] }
    ensures nothing { has_no_bytes [] ≡ true }
    ensures something { has_no_bytes (0 ∷ []) ≡ false }
{}

/// Each queue is its own; the first from a stamp on may have that stamp.
pub fn worked_queues()
    ensures leaving { (q : ClosedStreamQueues) → entries_of_stream_queue Leaving q ≡ q.leaving }
    ensures lingering { (q : ClosedStreamQueues) → entries_of_stream_queue Lingering q ≡ q.lingering }
    ensures from { first_entry_from 3 ((2, 9) ∷ (5, 1) ∷ (6, 7) ∷ []) ≡ Some (5, 1) }
    ensures at { first_entry_from 5 ((2, 9) ∷ (5, 1) ∷ (6, 7) ∷ []) ≡ Some (5, 1) }
    ensures of_all { first_entry_from 0 ((2, 9) ∷ (5, 1) ∷ []) ≡ Some (2, 9) }
    ensures behind_all { first_entry_from 7 ((2, 9) ∷ (5, 1) ∷ []) ≡ None }
{}
