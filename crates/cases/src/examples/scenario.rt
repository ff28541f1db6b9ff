//! A case as a whole: what happens in it, and what is expected behind each of it.

use super::case_lines::Entry;
use super::form::{CaseFault, FormFault};
use super::statements::{Statement, read_statement};
use crate::text::{Effect, FIRST_TABLE};
use proxy_script::Item;
use std::alloc::{AllocError, Global};

/// A statement, and its line.
#[derive(Clone, Copy)]
pub struct Said<'a> {
    pub line: usize,
    pub statement: Statement<'a>,
}

fn is_table(statement: Statement<'_>) -> bool {
    matches!(statement, Statement::Plays(Item::Config(_)))
}

fn is_stop(statement: Statement<'_>) -> bool {
    matches!(statement, Statement::Expects(Effect::Stop(_)))
}

fn happens(statement: Statement<'_>) -> bool {
    matches!(statement, Statement::Plays(_))
}

/// Adds a statement, the table of the first run in front of the first where that is none.
fn add<'a>(said: &mut Vec<Said<'a>>, next: Said<'a>) -> Result<(), FormFault> {
    match said.last() {
        Some(before) if is_stop(before.statement) => return Err(FormFault::Late),
        Some(_) if is_table(next.statement) => return Err(FormFault::Table),
        Some(_) => {}
        None if is_table(next.statement) => {}
        None => {
            let table = Said {
                line: next.line,
                statement: Statement::Plays(Item::Config(FIRST_TABLE.as_bytes())),
            };
            said.push(table).map_err(AllocError::from)?;
        }
    }
    said.push(next).map_err(AllocError::from)?;
    Ok(())
}

/// What a case says, the table first.
pub fn scenario<'a>(alloc: Global, entries: &'a [Entry<'a>]) -> Result<Vec<Said<'a>>, CaseFault> {
    let mut said = Vec::new(alloc);
    let mut is_empty = true;
    let mut expects_nothing = true;
    for entry in entries {
        let line = entry.line;
        let statement = read_statement(entry).map_err(|fault| CaseFault::Form(line, fault))?;
        add(&mut said, Said { line, statement }).map_err(|fault| CaseFault::Form(line, fault))?;
        if happens(statement) {
            is_empty = false;
        } else {
            expects_nothing = false;
        }
    }
    if is_empty {
        return Err(CaseFault::Form(1, FormFault::Nothing));
    }
    if expects_nothing {
        return Err(CaseFault::Form(1, FormFault::Unexpecting));
    }
    Ok(said)
}
