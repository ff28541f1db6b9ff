//! What the command line asks for, done.

use crate::command_line::{
    CheckOptions, CommandForm, ServeOptions, VERSION, command_form_of, read,
};
use crate::commit::commit_of;
use crate::fault::Fault;
use crate::serving::serve;
use clap::Error;
use clap::error::ErrorKind;
use hx_allow::Table;
use proxy_check::{
    AnswerTrial, ask_all_questions, print_check_of_table, print_comparison_of_tables,
};
use proxy_files::{
    CommandFailure, config_of, fault_of, read_questions, read_table, system_call_words,
};
use std::io::{BufReader, IsTerminal};
use std::net::Net;
use std::process::ExitCode;
use std::random::RandomSource;
use std::rt::{Clock, Env, Files};
use std::{env, fs, io};

/// Unix seconds now; 0 where the clock can't be read, or before 1970.
fn seconds_now<R: Clock>(rt: &R) -> u64 {
    match rt.since_1970() {
        Ok(now) => now.as_secs(),
        Err(_) => 0,
    }
}

/// The table in a file.
fn table_in<R: Files + AllocGlobal>(rt: &R, path: &str) -> Result<Table, CommandFailure> {
    let table = read_table(rt, path)?;
    config_of(rt.alloc(), table.as_slice())
}

/// Checks a table, and tells what it says, what it would change, and which questions it answers otherwise.
fn check<R: Files + Print + Clock + AllocGlobal>(
    rt: &R,
    checking: &CheckOptions<'_>,
) -> Result<(), CommandFailure> {
    let table = read_table(rt, checking.table)?;
    let config = config_of(rt.alloc(), table.as_slice())?;
    let trial = AnswerTrial {
        table: table.as_slice(),
        now: seconds_now(rt),
        answer: checking.answer.unwrap_or(""),
    };
    let told = if checking.answer.is_some() {
        Some(&trial)
    } else {
        None
    };
    print_check_of_table(rt, &config, checking.question.as_ref(), told)?;
    if let Some((old, log)) = checking.against {
        print_comparison_of_tables(rt, &config, &table_in(rt, old)?, log)?;
    }
    match checking.questions {
        Some(path) => ask_all_questions(rt, &config, read_questions(rt, path)?.as_str(), &trial),
        None => Ok(()),
    }
}

/// Prints the program's name and version, and the commit that it was built from, where that is known.
fn print_version<R: Print>(rt: &R, commit: &str) -> io::Result<()> {
    if commit.is_empty() {
        println!(rt; "revcache {VERSION}")
    } else {
        println!(rt; "revcache {VERSION} ({commit})")
    }
}

/// What the words ask for in place of a form: help, which the library prints, or the version; else they are at fault.
fn explain<R: Files + Print + Eprint + AllocGlobal>(
    rt: &R,
    error: &Error,
) -> Result<(), CommandFailure> {
    match error.kind() {
        ErrorKind::DisplayHelp => match error.print(rt) {
            Ok(()) => Ok(()),
            Err(_) => Err(CommandFailure::Write(None)),
        },
        ErrorKind::DisplayVersion => match print_version(rt, commit_of(rt)?.as_str()) {
            Ok(()) => Ok(()),
            Err(_) => Err(CommandFailure::Write(None)),
        },
        ErrorKind::OutOfMemory => Err(CommandFailure::NoMemory),
        _ => Err(CommandFailure::Usage(format!(in rt.alloc(); "{error}").ok())),
    }
}

/// Tells who sits at a terminal what is waited for.
fn print_what_is_awaited<R: Input + Eprint>(rt: &R)
where
    <R as Input>::Reader: IsTerminal,
{
    if rt.reader().is_terminal() {
        let _ = eprintln!(rt;
            "a script is read from here, to its end (Ctrl-D); revcache --help shows what else there is"
        );
    }
}

/// Why the program ends early, and whether its standard output is kept for the log.
#[derive(Drop)]
struct EndedEarly {
    fault: Fault,
    is_quiet: bool,
}

/// Of a fault before it is known what is asked for. Where memory was refused that may be a replay, whose standard
/// output has its effects alone.
impl From<CommandFailure> for EndedEarly {
    fn from(fault: CommandFailure) -> EndedEarly {
        let is_quiet = match &fault {
            CommandFailure::NoMemory => true,
            _ => false,
        };
        EndedEarly {
            fault: Fault::Command(fault),
            is_quiet,
        }
    }
}

fn checked<R: Files + Print + Clock + AllocGlobal>(
    rt: &R,
    checking: &CheckOptions<'_>,
) -> Result<(), EndedEarly> {
    match check(rt, checking) {
        Ok(()) => Ok(()),
        Err(fault) => Err(EndedEarly {
            fault: Fault::Command(fault),
            is_quiet: false,
        }),
    }
}

fn served<R>(rt: &R, service: &ServeOptions<'_>) -> Result<(), EndedEarly>
where
    R: Files + Print + Eprint + AllocGlobal + Net + Clock + RandomSource,
{
    match serve(rt, service) {
        Ok(()) => Ok(()),
        Err(fault) => Err(EndedEarly {
            fault,
            is_quiet: service.log == Some("-"),
        }),
    }
}

/// Replays standard input to standard output, over the store of a file if one is named.
fn replayed<R: Files + Input + Print + Eprint + AllocGlobal>(
    rt: &R,
    store: Option<&str>,
) -> Result<ExitCode, EndedEarly> {
    let Some(path) = store else {
        return Ok(proxy_replay::program::run_script(rt));
    };
    match store_reader(rt, path) {
        Ok(reader) => Ok(proxy_replay::program::run_script_over_store(rt, reader)),
        Err(fault) => Err(EndedEarly {
            fault: Fault::Command(fault),
            is_quiet: true,
        }),
    }
}

/// What gives the bytes of a store's file.
fn store_reader<R: Files + AllocGlobal>(
    rt: &R,
    path: &str,
) -> Result<BufReader<R::File>, CommandFailure> {
    match fs::open(rt, path) {
        Ok(file) => match BufReader::new(rt.alloc(), file) {
            Ok(reader) => Ok(reader),
            Err(_) => Err(CommandFailure::NoMemory),
        },
        Err(e) => {
            let words = system_call_words(rt.alloc(), "the store ", path, " can't be opened", &e);
            Err(fault_of(&e, CommandFailure::Read(words)))
        }
    }
}

/// Does what is asked for; a replay tells its own exit status.
fn do_form<R>(rt: &R, form: &CommandForm<'_>) -> Result<ExitCode, EndedEarly>
where
    R: Files + Env + Input + Print + Eprint + AllocGlobal + Net + Clock + RandomSource,
    <R as Input>::Reader: IsTerminal,
{
    match form {
        CommandForm::Replay => {
            print_what_is_awaited(rt);
            return Ok(proxy_replay::program::run(rt));
        }
        CommandForm::ReplayOver(store) => {
            print_what_is_awaited(rt);
            return replayed(rt, *store);
        }
        CommandForm::Check(checking) => checked(rt, checking)?,
        CommandForm::Serve(service) => served(rt, service)?,
    }
    Ok(ExitCode::SUCCESS)
}

/// Does what the words ask for.
fn do_command<R>(rt: &R, words: &[String]) -> Result<ExitCode, EndedEarly>
where
    R: Files + Env + Input + Print + Eprint + AllocGlobal + Net + Clock + RandomSource,
    <R as Input>::Reader: IsTerminal,
{
    match read(rt.alloc(), words) {
        Ok(matches) => do_form(rt, &command_form_of(rt.alloc(), &matches)?),
        Err(error) => {
            explain(rt, &error)?;
            Ok(ExitCode::SUCCESS)
        }
    }
}

/// The words of the command line.
fn command_line_words<R: Env + AllocGlobal>(rt: &R) -> Result<Vec<String>, CommandFailure> {
    match env::args(rt) {
        Ok(args) => Ok(args.collect(rt.alloc())?),
        Err(e) => Err(fault_of(&e, CommandFailure::Usage(None))),
    }
}

fn run_or_fail<R>(rt: &R) -> Result<ExitCode, EndedEarly>
where
    R: Files + Env + Input + Print + Eprint + AllocGlobal + Net + Clock + RandomSource,
    <R as Input>::Reader: IsTerminal,
{
    let words = command_line_words(rt)?;
    do_command(rt, words.as_slice())
}

/// Does what the command line asks for: without a word, replays standard input to standard output.
pub fn run<R>(rt: &R) -> ExitCode
where
    R: Files + Env + Input + Print + Eprint + AllocGlobal + Net + Clock + RandomSource,
    <R as Input>::Reader: IsTerminal,
{
    match run_or_fail(rt) {
        Ok(status) => status,
        Err(EndedEarly { fault, is_quiet }) => {
            // Where standard output or standard error fails too there is nobody left to tell.
            let status = fault.exit_status();
            let _ = eprintln!(rt; "{fault}");
            if !is_quiet {
                let _ = fault.explain(rt);
            }
            ExitCode::from(status)
        }
    }
}
