//! Rows and cases: whole runs of the proxy.
//!
//! A row NAME is a script, NAME.script, and the text of its effects, NAME.effects. Where the replay is to end by a
//! fault, NAME.stderr has its line and NAME.status the exit status. A case NAME.case has both in one, written for
//! people; data/examples/README.md has its form. Each is played once more with all bytes one at a time, and over a
//! shelf that is a list: the text is to be the same. A line a row and a case is printed, folder by folder in the order
//! of names: the rows of a folder first, and then its cases.

mod case_lines;
mod cases;
pub mod folder;
mod form;
mod pieces;
mod played;
mod rows;
mod scenario;
mod statements;
