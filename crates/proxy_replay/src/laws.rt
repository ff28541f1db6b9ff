//! Laws on the definitions that the contracts cite.
ghost use Rattle.std.specs.Prelude.{ℕ, List};
ghost use Rattle.hx_allow.specs.TableLines.{Table};
ghost use Rattle.hx_store.specs.Stored.{Stored};
ghost use Rattle.proxy_engine.specs.Beginnings.{ResponsesMayBeHeldAtStart};
ghost use Rattle.proxy_script.specs.Script.{ItemModel as Item};
ghost use Rattle.proxy_script.specs.declared.effect_list.Effect.{Effect};
ghost use Rattle.proxy_replay.specs.Played.{PlayState, ItemsArePlayed, initial_play_state, play_state_over_store};
ghost use Rattle.proxy_replay.specs.Closes.{NoEffectFollowsAClose, NoEffectFollowsAGoneClient};
ghost use Rattle.proxy_replay.specs.Closes.{EachEndedLinkIsDroppedOnce};
ghost use Rattle.proxy_replay.specs.Runs.{PlayOverEmptyStoreIsAGoodRun, PlayIsAGoodRunOverAStore, ScriptHasOnePlay};
ghost use Rattle.proxy_replay.specs.Replay.{ReplayHasOneText};

pub use crate::replay_laws::{a_replay_writes_no_altered_text, worked_plays_of_items};
use hx_allow::laws::reading_of_a_table_is_unique;
use proxy_engine::laws::{
    an_act_has_three_effects_at_most, an_act_is_done_in_one_way, each_drop_is_emitted,
    effects_name_open_ends, ended_connections_and_links_stay_ended, one_act_is_due_first,
};
use proxy_script::laws::items_are_found_as_they_are_spelled;

/// Whatever a script plays, the steps of the core that its items lead to, in their order and at their moments, are a
/// good run with the headline: each outcome is that of its case over what is held by the count over the steps before
/// it, and what was written is what the steps gave. So it is over a store that was kept, too.
pub fn each_play_is_a_good_run()
    ensures empty { (table : Table) → (items : List Item) → (effects : List Effect) → (last : PlayState)
        → ItemsArePlayed (initial_play_state table) items effects last
        → PlayOverEmptyStoreIsAGoodRun table items effects last }
    ensures over { (table : Table) → (held : List Stored) → (first : ℕ) → (items : List Item)
        → (effects : List Effect) → (last : PlayState) → ResponsesMayBeHeldAtStart table held first
        → ItemsArePlayed (play_state_over_store table held first) items effects last
        → PlayIsAGoodRunOverAStore table held first items effects last }
{}

/// A script has one play, and so one text of its effects.
pub fn a_script_has_one_play()
    ensures play { ScriptHasOnePlay }
    ensures text { ReplayHasOneText }
{
    one_act_is_due_first();
    an_act_is_done_in_one_way();
    reading_of_a_table_is_unique();
    items_are_found_as_they_are_spelled();
}

/// Whatever a script plays, nothing goes to a client after the close of its connection, and none is closed twice.
pub fn no_effect_follows_a_close()
    ensures { NoEffectFollowsAClose }
{
    effects_name_open_ends();
    ended_connections_and_links_stay_ended();
    an_act_has_three_effects_at_most();
}

/// Whatever a script plays, no effect names a client's connection once it went away.
pub fn no_effect_follows_a_gone_client()
    ensures { NoEffectFollowsAGoneClient }
{
    effects_name_open_ends();
    ended_connections_and_links_stay_ended();
    an_act_has_three_effects_at_most();
}

/// Whatever a script plays, each link that ends is dropped, and once; after that no effect names it.
pub fn each_link_is_dropped_once()
    ensures { EachEndedLinkIsDroppedOnce }
{
    effects_name_open_ends();
    ended_connections_and_links_stay_ended();
    an_act_has_three_effects_at_most();
    each_drop_is_emitted();
}
