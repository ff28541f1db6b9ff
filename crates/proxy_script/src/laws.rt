//! What the grammar and the reading of scripts say of each other.
ghost use Rattle.std.specs.Prelude.{◌≡◌, ◌++◌, List, ℕ, Bool};
ghost use Rattle.proxy_script.specs.Script.{ItemModel, item_spelling, ItemCanBeSpelled, ItemIsAllowedAtPosition};
ghost use Rattle.proxy_script.specs.Script.{leading_item};
ghost use Rattle.proxy_script.specs.Script.{Found};

pub use crate::script_cases::{
    worked_effects_are_spelled, worked_items_are_read, worked_items_are_spelled,
    worked_unfinished_items, wrong_items_are_refused,
};

/// What is found is spelled so and stands here, and what is spelled so and stands here is found, whatever
/// follows it.
pub fn items_are_found_as_they_are_spelled()
    ensures found { (first : Bool) (bytes rest : List ℕ) (h : ItemModel) → leading_item first bytes ≡ Found h rest
        → (bytes ≡ item_spelling h ++ rest) × ItemCanBeSpelled h × ItemIsAllowedAtPosition first h }
    ensures again { (first : Bool) (h : ItemModel) (rest : List ℕ) → ItemCanBeSpelled h
        → ItemIsAllowedAtPosition first h
        → leading_item first (item_spelling h ++ rest) ≡ Found h rest }
{}
