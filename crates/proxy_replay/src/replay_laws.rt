//! Laws that a replay refuses what its script doesn't spell. Each function's contract is a law, and its body is empty.
ghost use Rattle.std.specs.Prelude.{◌≡◌, ◌∷◌, [], Some, None};
ghost use Rattle.proxy_core.specs.Cases.{table};
ghost use Rattle.proxy_script.specs.Script as item;
ghost use Rattle.proxy_script.specs.declared.effect_list.Effect.TheVariants as effects;
ghost use Rattle.proxy_engine.specs.Happenings.{Accepts};
ghost use Rattle.proxy_engine.specs.Due.{Wakes};
ghost use Rattle.proxy_engine.specs.Executions.{Took, Worked};
ghost use Rattle.proxy_replay.specs.Played.{initial_play_state, effects_of_acts, happening_of_item, moment_after_item};
ghost use Rattle.proxy_replay.specs.Runs.{steps_of_acts};
ghost use Rattle.proxy_replay.specs.OneReplay.{WholeReplayHasOnlyThatText, NoWholeReplayBeforeTheEnd};
ghost use Rattle.proxy_replay.specs.OneReplay.{NoReadFaultAtTheEnd};
ghost use Rattle.proxy_replay.specs.OneReplay.{NothingIsWrittenForARefusedTable};

use hx_allow::laws::reading_of_a_table_is_unique;
use proxy_engine::laws::{an_act_is_done_in_one_way, one_act_is_due_first};
use proxy_script::laws::items_are_found_as_they_are_spelled;

/// A whole script is replayed with no other text than that of its play, and not before its end; no read fails at the
/// end; and nothing is written where the table is refused.
pub fn a_replay_writes_no_altered_text()
    ensures text { WholeReplayHasOnlyThatText }
    ensures whole { NoWholeReplayBeforeTheEnd }
    ensures read { NoReadFaultAtTheEnd }
    ensures refused { NothingIsWrittenForARefusedTable }
{
    one_act_is_due_first();
    an_act_is_done_in_one_way();
    reading_of_a_table_is_unique();
    items_are_found_as_they_are_spelled();
}

/// What items do: a moment stands from its item on, a happening is taken, the table and a moment happen to nobody. Acts
/// stand in order, and as steps the latest first, at the moment that stands. A play begins with the room of its table,
/// at moment 0.
pub fn worked_plays_of_items()
    ensures moment { moment_after_item 5 (item.Moment 9) ≡ 9 }
    ensures stays { moment_after_item 5 (item.Happens (Accepts 1)) ≡ 5 }
    ensures of_the_table { moment_after_item 5 (item.Table []) ≡ 5 }
    ensures happens { happening_of_item (item.Happens (Accepts 1)) ≡ Some (Accepts 1) }
    ensures table_says_nothing { happening_of_item (item.Table []) ≡ None }
    ensures moment_says_nothing { happening_of_item (item.Moment 9) ≡ None }
    ensures in_order { effects_of_acts (record { act = Wakes 0; effects = effects.Close 1 ∷ [] }
        ∷ record { act = Wakes 1; effects = effects.Close 2 ∷ [] } ∷ []) ≡ effects.Close 1 ∷ effects.Close 2 ∷ [] }
    ensures steps { steps_of_acts 7 (record { act = Wakes 0; effects = [] } ∷ record { act = Wakes 1; effects = [] }
        ∷ [])
        (Took (Accepts 1) ∷ []) ≡ Worked 7 (Wakes 1) [] ∷ Worked 7 (Wakes 0) [] ∷ Took (Accepts 1) ∷ [] }
    ensures room { (initial_play_state table).model.core.limit ≡ table.capacity }
    ensures from_0 { (initial_play_state table).now ≡ 0 }
{}
