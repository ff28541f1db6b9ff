//! The trials: scripts are made, replayed and checked.

use super::check::check_run;
use super::counts::Counts;
use super::log::Log;
use super::tables::RandomTable;
use super::world::{Stopped, World};
use super::wrong::Wrong;
use proxy_replay::{ReplayFault, replay, replay_over_list_shelf};
use std::alloc::Global;
use std::io;

/// Where the choices begin: another number makes another script.
const FIRST_CHOICE: u64 = 20_261_123;

const HAPPENINGS: usize = 10_000;

fn make(alloc: Global, table: RandomTable) -> Result<Log, Stopped> {
    let mut world = World::new(alloc, table, FIRST_CHOICE)?;
    for _ in 0..HAPPENINGS {
        world.step()?;
    }
    Ok(world.into_log())
}

/// How many happenings come between two restarts.
const BETWEEN_RESTARTS: usize = 40;

/// The same by processes that go on one after another, each over the store that the one before has written.
fn make_with_restarts(alloc: Global, table: RandomTable) -> Result<Log, Stopped> {
    let mut world = World::new(alloc, table, FIRST_CHOICE)?;
    for _ in 0..HAPPENINGS / BETWEEN_RESTARTS {
        for _ in 0..BETWEEN_RESTARTS {
            world.step()?;
        }
        world.leave_all()?;
        world = world.restarted()?;
    }
    Ok(world.into_log())
}

/// Prints how much went past the store, where something did.
fn print_past_the_store<R: Print>(rt: &R, counts: &Counts) -> io::Result<()> {
    let (past, fresh, taking) = (counts.past, counts.past_fresh, counts.past_taking);
    if past == 0 {
        return Ok(());
    }
    println!(rt;
        "{past} forwards past the store: {fresh} for what was fresh by the last answer, {taking} took away what was stored"
    )
}

/// Prints what words on caching came to, where the table has some.
fn print_words<R: Print>(rt: &R, counts: &Counts) -> io::Result<()> {
    let (given, explained, cookies) = (counts.given, counts.explained, counts.cookies_unstored);
    if explained == 0 {
        return Ok(());
    }
    println!(rt;
        "{given} stored by a given lifetime, {explained} say why they aren't stored, {cookies} of them for a cookie"
    )?;
    let (stale, collapsed) = (counts.waited_for_stale, counts.collapsed_stale);
    let forward = stale.saturating_sub(collapsed);
    println!(rt;
        "{stale} waited for what is stale, as far as answers told it: {collapsed} to a stored response and {forward} to a forward"
    )
}

/// Prints how many waited, and what came of it.
fn print_waiting<R: Print>(rt: &R, counts: &Counts) -> io::Result<()> {
    let (waited, wakings, gone) = (counts.waited, counts.wakings, counts.waiters_gone);
    let (collapsed, forward) = (counts.collapsed, counts.woken_forward);
    let overdue = counts.overdue;
    let released = collapsed.saturating_add(forward).saturating_sub(overdue);
    println!(rt;
        "{waited} waited: {released} released by {wakings} others, {overdue} since they had waited long enough, {collapsed} to a stored response and {forward} to a forward; {gone} went away"
    )
}

/// Prints what the check came to.
fn note_event<R: Print + Eprint>(
    rt: &R,
    checked: Result<Counts, Wrong>,
    happenings: usize,
) -> io::Result<bool> {
    match checked {
        Ok(counts) => {
            println!(rt; "{happenings} happenings: the property holds")?;
            println!(rt; "{counts}")?;
            print_waiting(rt, &counts)?;
            print_past_the_store(rt, &counts)?;
            print_words(rt, &counts)?;
            Ok(true)
        }
        Err(Wrong::OutOfMemory) => {
            eprintln!(rt; "no memory")?;
            Ok(false)
        }
        Err(Wrong::Rule(rule, number)) => {
            println!(rt; "{rule}: {number}")?;
            Ok(false)
        }
    }
}

/// The text of a replay, and of one over a shelf that is a list.
fn replayed(alloc: Global, script: &[u8]) -> Result<(Vec<u8>, Vec<u8>), ReplayFault> {
    let mut reader = script;
    let mut text = Vec::new(alloc);
    replay(alloc, &mut reader, &mut text)?;
    let mut reader = script;
    let mut listed = Vec::new(alloc);
    replay_over_list_shelf(alloc, &mut reader, &mut listed)?;
    Ok((text, listed))
}

/// Replays what happened, and prints what the check of it comes to.
fn judge<R: Print + Eprint + AllocGlobal>(rt: &R, log: &Log) -> io::Result<bool> {
    let (text, listed) = match replayed(rt.alloc(), log.script.as_slice()) {
        Ok(texts) => texts,
        Err(fault) => {
            println!(rt; "the replay ended: {fault}")?;
            return Ok(false);
        }
    };
    if text.as_slice() != listed.as_slice() {
        println!(rt; "over a list it differs")?;
        return Ok(false);
    }
    note_event(
        rt,
        check_run(rt.alloc(), log, text.as_slice()),
        log.steps.len(),
    )
}

fn play<R: Print + Eprint + AllocGlobal>(rt: &R, table: RandomTable) -> io::Result<bool> {
    match make(rt.alloc(), table) {
        Ok(log) => judge(rt, &log),
        Err(stopped) => {
            eprintln!(rt; "no script: {stopped}")?;
            Ok(false)
        }
    }
}

/// Whether processes that go on one after another do what one alone does.
fn restart<R: Print + Eprint + AllocGlobal>(rt: &R, table: RandomTable) -> io::Result<bool> {
    let log = match make_with_restarts(rt.alloc(), table) {
        Ok(log) => log,
        Err(stopped) => {
            eprintln!(rt; "no script: {stopped}")?;
            return Ok(false);
        }
    };
    let (text, listed) = match replayed(rt.alloc(), log.script.as_slice()) {
        Ok(texts) => texts,
        Err(fault) => {
            println!(rt; "the replay ended: {fault}")?;
            return Ok(false);
        }
    };
    let effects = log.effects.as_slice();
    if text.as_slice() != effects || listed.as_slice() != effects {
        println!(rt; "with restarts it differs")?;
        return Ok(false);
    }
    let restarts = HAPPENINGS / BETWEEN_RESTARTS;
    println!(rt; "{restarts} restarts: what one process does alone")?;
    Ok(true)
}

/// Prints of each trial whether the property holds, or what doesn't, and tells whether it does in all.
pub fn run<R: Print + Eprint + AllocGlobal>(rt: &R) -> io::Result<bool> {
    let with_cache = play(rt, RandomTable::WithCache)?;
    let partly_without = play(rt, RandomTable::PartlyWithout)?;
    let with_words = play(rt, RandomTable::WithWords)?;
    let mut restarted = true;
    for table in [
        RandomTable::WithCache,
        RandomTable::PartlyWithout,
        RandomTable::WithWords,
    ] {
        restarted = restart(rt, table)? && restarted;
    }
    Ok(with_cache && partly_without && with_words && restarted)
}
