//! What `check` tells of a table: what a request meets in it, what becomes of an answer, which questions it answers
//! otherwise than expected, and which requests of a log it decides otherwise than another table.
#![tactic(auto)]

mod checking;
mod comparing;
mod meeting;
mod questions;
mod trial;

pub use crate::checking::print_check_of_table;
pub use crate::comparing::print_comparison_of_tables;
pub use crate::meeting::{RequestToCheck, parse_question};
pub use crate::questions::ask_all_questions;
pub use crate::trial::{AnswerTrial, answer_has_only_field_lines};
