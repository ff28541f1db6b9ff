//! What `check` tells of a table that is read: how many lines it has, what in it has no effect, and what a request
//! meets.

use crate::meeting::{RequestToCheck, TableVerdict, target_of, verdict_in_table};
use crate::questions::stored_or_not_word;
use crate::trial::{AnswerTrial, try_origin_answer};
use http::Method;
use hx_allow::{MOST_LINES, Table, Verdict};
use hx_fields::Bytes;
use hx_policy::Policy;
use hx_target::{Key, Target, TargetFault};
use proxy_files::{CommandFailure, print_store_memory};
use std::alloc::AllocError;
use std::rt::Files;
use std::{io, str};

fn default_or_word(is_default: bool, word: &'static str) -> &'static str {
    if is_default { "" } else { word }
}

fn gives_a_lifetime(policy: Policy) -> bool {
    policy.lifetime.is_some() || policy.error_lifetime.is_some()
}

/// Whether a line gives a lifetime, and to no request with a cookie.
fn withholds_from_cookies(policy: Policy) -> bool {
    gives_a_lifetime(policy) && !policy.gives_to_cookies
}

/// Whether a line gives a lifetime, and to no response with Set-Cookie.
fn withholds_from_set_cookie(policy: Policy) -> bool {
    gives_a_lifetime(policy) && !policy.gives_to_set_cookie
}

/// Tells a word of a line that has seconds.
fn print_seconds<R: Print>(rt: &R, key: &str, seconds: Option<u32>) -> io::Result<()> {
    match seconds {
        Some(seconds) => println!(rt; "    {key} = {seconds}"),
        None => Ok(()),
    }
}

/// Tells how stale what is sent may be while one asks the origin about it, and where that is nothing.
fn print_stale_while_revalidate<R: Print>(rt: &R, policy: Policy) -> io::Result<()> {
    match policy.stale_while_revalidate {
        Some(seconds) if policy.sends_while_revalidating => {
            println!(rt; "    stale-while-revalidate = {seconds}")
        }
        Some(seconds) => println!(rt;
            "    stale-while-revalidate = {seconds}, which has no effect without wait = \"missing-or-stale\""
        ),
        None => Ok(()),
    }
}

/// Tells the words of a line that allows.
fn print_policy<R: Print>(rt: &R, policy: Policy) -> io::Result<()> {
    if !policy.caches {
        return println!(rt; "    cache = \"off\"");
    }
    println!(rt; "    cache = \"on\"")?;
    print_seconds(rt, "lifetime", policy.lifetime)?;
    print_seconds(rt, "error-lifetime", policy.error_lifetime)?;
    print_seconds(rt, "lifetime-most", policy.lifetime_most)?;
    print_seconds(rt, "stale-if-error", policy.stale_if_error)?;
    print_stale_while_revalidate(rt, policy)?;
    for word in [
        default_or_word(policy.stores_cookies, "set-cookie = \"not-stored\""),
        default_or_word(!policy.removes_set_cookie, "set-cookie = \"removed\""),
        default_or_word(
            !withholds_from_set_cookie(policy),
            "an answer with Set-Cookie is given no lifetime",
        ),
        default_or_word(!withholds_from_cookies(policy), "cookies = \"private\""),
        default_or_word(policy.stores_errors, "errors = \"not-stored\""),
        default_or_word(policy.heeds_requests, "request-directives = \"ignored\""),
        default_or_word(!policy.waits_for_stale, "wait = \"missing-or-stale\""),
        default_or_word(!policy.explains_storing, "explain = \"storing\""),
        default_or_word(policy.forwards_conditions, "conditions = \"answered\""),
        default_or_word(!policy.fills_ranges, "ranges = \"filled\""),
        default_or_word(
            policy.forwards_ranges || policy.fills_ranges,
            "ranges = \"served\"",
        ),
    ] {
        if !word.is_empty() {
            println!(rt; "    {word}")?;
        }
    }
    Ok(())
}

/// Tells a word of a line that has names.
fn print_names<R: Print>(rt: &R, key: &str, names: &[Bytes]) -> io::Result<()> {
    if names.is_empty() {
        return Ok(());
    }
    print!(rt; "    {key} = [")?;
    let mut front = "";
    for name in names {
        let name = str::from_utf8(name.as_slice()).unwrap_or("-");
        print!(rt; "{front}\"{name}\"")?;
        front = ", ";
    }
    println!(rt; "]")
}

/// Tells where a line refuses requests that loop.
fn print_loops<R: Print>(rt: &R, config: &Table, line: u16) -> io::Result<()> {
    if config.refuses_loops(line) {
        println!(rt; "    loops = \"refused\"")?;
    }
    Ok(())
}

/// Tells which line decides on a request, and what it says.
fn print_verdict<R: Print>(
    rt: &R,
    config: &Table,
    text: &str,
    method: &Method,
    target: &Target,
) -> io::Result<()> {
    match config.judge_target(method, target) {
        Verdict::Allowed(route) => {
            let line = route.number;
            println!(rt;
                "{text} is allowed by line {line}, origin {}",
                config.origin(line)
            )?;
            print_policy(rt, config.line_policy(line))?;
            print_names(rt, "session-cookies", config.session_cookies(line))?;
            print_names(rt, "vary", config.vary(line))?;
            print_loops(rt, config, line)?;
            print_seconds(rt, "origin-timeout", config.origin_timeout(line))?;
            print_seconds(rt, "wait-timeout", config.wait_timeout(line))
        }
        Verdict::DeniedBy(line) if config.purges(line) => println!(rt;
            "{text} is denied by line {line}, which purges for a request that shows its key"
        ),
        Verdict::DeniedBy(line) => println!(rt; "{text} is denied by line {line}"),
        Verdict::NoLine => println!(rt; "{text} is denied: no line allows it"),
        Verdict::Looped(line) => println!(rt; "{text} is refused by line {line} as a loop"),
        Verdict::Purged(line) => println!(rt; "{text} is purged by line {line}"),
    }
}

/// Tells the key of a request, by which a stored response is found, and where its scheme can't come.
fn print_key<R: Print>(rt: &R, question: &RequestToCheck<'_>, key: &Key) -> io::Result<()> {
    let host = str::from_utf8(key.host.as_slice()).unwrap_or("-");
    let path = str::from_utf8(key.path_query.as_slice()).unwrap_or("-");
    println!(rt; "    key {host}:{}{path}", key.port)?;
    if question.is_secure() {
        println!(rt;
            "    https comes by a front alone, which takes it away; a request that names it itself is refused: scheme"
        )?;
    }
    Ok(())
}

/// Tells what becomes of an answer to a request, if that is allowed.
fn print_tried<R: Print + AllocGlobal>(
    rt: &R,
    config: &Table,
    question: &RequestToCheck<'_>,
    trial: &AnswerTrial<'_>,
) -> Result<(), CommandFailure> {
    let TableVerdict::Allowed(_) = verdict_in_table(rt.alloc(), config, question)? else {
        return Ok(());
    };
    let tried = try_origin_answer(rt.alloc(), question, trial)?;
    let (reason, word) = (tried.reason.as_str(), stored_or_not_word(tried.is_stored));
    match println!(rt; "    with this answer: {word}, {reason}") {
        Ok(()) => Ok(()),
        Err(_) => Err(CommandFailure::Write(None)),
    }
}

/// Tells what a request meets.
fn print_answer<R: Print + AllocGlobal>(
    rt: &R,
    config: &Table,
    question: &RequestToCheck<'_>,
) -> Result<(), CommandFailure> {
    let Ok(method) = Method::from_bytes(rt.alloc(), question.method.as_bytes()) else {
        return Err(CommandFailure::Usage(None));
    };
    let shown = match target_of(rt.alloc(), question) {
        Ok(target) => match print_verdict(rt, config, question.text, &method, &target) {
            Ok(()) => print_key(rt, question, &target.key),
            Err(e) => Err(e),
        },
        Err(TargetFault::OutOfMemory) => return Err(CommandFailure::NoMemory),
        Err(fault) => println!(rt;
            "{} is refused before the table is asked: {fault}",
            question.text
        ),
    };
    match shown {
        Ok(()) => Ok(()),
        Err(_) => Err(CommandFailure::Write(None)),
    }
}

/// Tells each line that is never reached, and a limit that has no effect.
fn print_idle<R: Print>(rt: &R, config: &Table) -> io::Result<()> {
    for line in 1..=MOST_LINES {
        if let Some(first) = config.first_line_that_covers_line(line) {
            println!(rt; "line {line} is never reached: line {first} takes all of it")?;
        }
    }
    if config.max_stored() > config.max_body() {
        println!(rt;
            "max_stored is above max_body: what is larger than max_body isn't stored either"
        )?;
    }
    Ok(())
}

fn print_table<R: Print + Files + AllocGlobal>(rt: &R, config: &Table) -> io::Result<()> {
    println!(rt; "ok {} lines", config.lines())?;
    print_store_memory(rt, config)?;
    print_idle(rt, config)
}

/// Tells what a table says, and what a request meets where one is asked about, and an answer to it.
pub fn print_check_of_table<R: Print + Files + AllocGlobal>(
    rt: &R,
    config: &Table,
    question: Option<&RequestToCheck<'_>>,
    trial: Option<&AnswerTrial<'_>>,
) -> Result<(), CommandFailure> {
    match print_table(rt, config) {
        Ok(()) => {}
        Err(_) => return Err(CommandFailure::Write(None)),
    }
    let Some(question) = question else {
        return Ok(());
    };
    print_answer(rt, config, question)?;
    match trial {
        Some(trial) => print_tried(rt, config, question, trial),
        None => Ok(()),
    }
}
