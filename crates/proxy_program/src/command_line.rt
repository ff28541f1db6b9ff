//! The forms of the command line.

use clap::builder::ValueParser;
use clap::{Arg, ArgAction, ArgMatches, Command, Error};
use proxy_check::{RequestToCheck, answer_has_only_field_lines, parse_question};
use proxy_files::CommandFailure;
use proxy_server::{Limits, ListenAt};
use std::alloc::Global;
use std::net::SocketAddr;

/// The program's version.
pub(crate) const VERSION: &str = "0.2.0";

/// The most seconds of a time-out that can be asked for: a day.
const LONGEST_TIMEOUT: u64 = 86_400;

/// The most connections of clients that can be asked for.
const MOST_CONNECTIONS: u64 = 1_048_576;

/// The most links to one origin that can be asked for.
const MOST_ORIGIN_CONNECTIONS: u64 = 65_536;

/// The most bytes of requests and answers in progress that can be asked for: a tebibyte.
const MOST_CONTENT: u64 = 1_099_511_627_776;

/// Milliseconds of a second.
const SECOND: u64 = 1000;

static ON_AND_OFF: [&str; 2] = ["on", "off"];

/// How a server is to serve.
#[derive(Clone, Copy)]
pub(crate) struct ServeOptions<'a> {
    pub(crate) table: &'a str,
    pub(crate) listen: ListenAt,
    /// How many turns it serves; without it, it stays until it is stopped.
    pub(crate) turns: Option<u32>,
    /// Its bounds, but for those of contents, which the table has.
    pub(crate) limits: Limits,
    /// Where this file is, no more connections are taken, and what is open is finished.
    pub(crate) drain: Option<&'a str>,
    /// How long that may take, in seconds.
    pub(crate) drain_timeout: u64,
    /// The file that what happens is recorded in.
    pub(crate) record: Option<&'a str>,
    /// The file to which a line about each reply is added; a dash is standard output.
    pub(crate) log: Option<&'a str>,
    /// The file that has the figures.
    pub(crate) stats: Option<&'a str>,
    /// The file that keeps the store over a restart.
    pub(crate) store: Option<&'a str>,
}

/// How a table is to be checked.
#[derive(Clone, Copy)]
pub(crate) struct CheckOptions<'a> {
    pub(crate) table: &'a str,
    /// What a request meets.
    pub(crate) question: Option<RequestToCheck<'a>>,
    /// A file of questions, with what is expected of each.
    pub(crate) questions: Option<&'a str>,
    /// What an origin answers to what is asked.
    pub(crate) answer: Option<&'a str>,
    /// Another table, and a log of whose requests it is told which they decide differently.
    pub(crate) against: Option<(&'a str, &'a str)>,
}

/// What the words ask for.
#[derive(Clone, Copy)]
pub(crate) enum CommandForm<'a> {
    /// A script is replayed.
    Replay,
    /// A script is replayed over the store of this file, if one is named.
    ReplayOver(Option<&'a str>),
    /// A table is checked.
    Check(CheckOptions<'a>),
    /// Clients are served.
    Serve(ServeOptions<'a>),
}

fn command<'a>(alloc: Global, name: &'a str) -> Command<'a> {
    Command::new(alloc, name).disable_help_subcommand(true)
}

/// A word that has to be there.
fn required_word<'a>(alloc: Global, name: &'a str, help: &'a str) -> Arg<'a> {
    Arg::new(alloc, name)
        .value_name("FILE")
        .help(help)
        .required(true)
        .action(ArgAction::Set)
}

/// An option with a value.
fn option_with_value<'a>(alloc: Global, name: &'a str, value: &'a str, help: &'a str) -> Arg<'a> {
    Arg::new(alloc, name)
        .long(name)
        .value_name(value)
        .help(help)
        .action(ArgAction::Set)
}

/// The words of an option that has a value: its name first, its help last.
#[derive(Clone, Copy)]
enum OptionWords {
    /// And what stands for its text.
    Text(&'static str, &'static str, &'static str),
    /// And the number where it doesn't stand.
    Seconds(&'static str, &'static str, &'static str),
    /// A number from 1 to the greatest.
    Number {
        name: &'static str,
        value: &'static str,
        most: u64,
        default: Option<&'static str>,
        help: &'static str,
    },
}

fn option_of<'a>(alloc: Global, words: &OptionWords) -> Arg<'a> {
    match *words {
        OptionWords::Text(name, value, help) => option_with_value(alloc, name, value, help),
        OptionWords::Seconds(name, default, help) => {
            option_with_value(alloc, name, "SECONDS", help)
                .default_value(default)
                .value_parser(ValueParser::unsigned(1, LONGEST_TIMEOUT))
        }
        OptionWords::Number {
            name,
            value,
            most,
            default,
            help,
        } => {
            let option = option_with_value(alloc, name, value, help).value_parser(
                ValueParser::unsigned(1, most),
            );
            match default {
                Some(default) => option.default_value(default),
                None => option,
            }
        }
    }
}

/// Adds options to a command.
fn with_options<'a>(
    alloc: Global,
    command: Command<'a>,
    options: &[OptionWords],
) -> Result<Command<'a>, Error> {
    let mut command = command;
    for words in options {
        command = command.arg(option_of(alloc, words))?;
    }
    Ok(command)
}

static CHECK_OPTIONS: [OptionWords; 5] = [
    OptionWords::Text(
        "ask",
        "REQUEST",
        "a method, a blank and a URL: tells which line decides, and its words",
    ),
    OptionWords::Text(
        "ask-file",
        "QUESTIONS",
        "a file of lines as 'GET http://h.example/a => line 3': tells which are answered otherwise",
    ),
    OptionWords::Text(
        "answer",
        "LINES",
        "an origin's answer to what is asked, as 'Cache-Control: max-age=60' or '404 | Set-Cookie: a=b': tells whether it is stored",
    ),
    OptionWords::Text(
        "against",
        "OLD",
        "another table: tells which requests of --log are decided otherwise than by that",
    ),
    OptionWords::Text("log", "FILE", "a log of the server, for --against"),
];

fn check<'a>(alloc: Global) -> Result<Command<'a>, Error> {
    let command = command(alloc, "check")
        .about(
            "Checks an operator's table: how many lines it has, which are never reached, what a request meets",
        )
        .arg(required_word(alloc, "table", "the table"))?
        .after_help(CHECK_HELP);
    with_options(alloc, command, &CHECK_OPTIONS)
}

/// What stands behind the options of a command, and of the program.
const STATUSES: &str = "Exit statuses:
  0   done
  1   a script, a file, an address, the clock or memory is at fault
  2   the table is at fault
  64  the command line is at fault

A line on standard error names a fault; what it was about, and what to do, stands on standard output.";

const CHECK_HELP: &str = "Example:
  revcache check /etc/revcache/table.toml --ask 'GET http://shop.example/cart'
  revcache check /etc/revcache/table.toml --ask 'GET http://shop.example/' --answer 'Cache-Control: max-age=60'
  revcache check new.toml --against /etc/revcache/table.toml --log /var/log/revcache/access.log

What may stand behind => of a question: line N, denied, denied by line N, no line, refused, stored, not stored.
The last two are of --answer, or of a line in front as 'answer: Cache-Control: max-age=60'.

Exit statuses:
  0   the table is good
  1   a file or memory is at fault
  2   the table is at fault
  3   a question of --ask-file is answered otherwise
  64  the command line is at fault";

const SERVE_HELP: &str = "Example:
  revcache serve /etc/revcache/table.toml --listen 127.0.0.1:8080 --log /var/log/revcache/access.log

Exit statuses:
  0   it was drained, or its turns are over
  1   a file, an address, the clock or memory is at fault
  2   the table is at fault
  64  the command line is at fault

A line on standard error names a fault; what it was about, and what to do, stands on standard output, unless the log
is there. Seconds are whole ones, 1 to 86400.";

/// Where it listens.
fn listen_option<'a>(alloc: Global) -> Arg<'a> {
    option_with_value(
        alloc,
        "listen",
        "ADDRESS",
        "an IPv4 address and a port, of which 0 lets the system choose; or fd:N, a listening socket that was handed on",
    )
    .required(true)
}

/// How many connections there may be.
static CONNECTION_OPTIONS: [OptionWords; 2] = [
    OptionWords::Number {
        name: "connections",
        value: "N",
        most: MOST_CONNECTIONS,
        default: Some("16384"),
        help: "connections of clients, 1 to 1048576; beyond them the one that is idle for the longest is closed",
    },
    OptionWords::Number {
        name: "origin-connections",
        value: "N",
        most: MOST_ORIGIN_CONNECTIONS,
        default: Some("1024"),
        help: "connections to one origin, 1 to 65536; a request beyond them is refused at once, as by the origin",
    },
];

/// Whether a silent origin is asked by one request at a time.
fn origin_probe_option<'a>(alloc: Global) -> Arg<'a> {
    option_with_value(
        alloc,
        "origin-probe",
        "WORD",
        "on or off: whether an origin that three times didn't answer is asked by one request at a time",
    )
    .default_value("on")
    .value_parser(ValueParser::Names(&ON_AND_OFF))
}

/// How much may be in progress, and the earlier name of that.
static CONTENT_OPTIONS: [OptionWords; 2] = [
    OptionWords::Number {
        name: "content-limit",
        value: "BYTES",
        most: MOST_CONTENT,
        default: Some("1073741824"),
        help: "bytes of requests and answers in progress, of all of them; beyond it the largest is cut off",
    },
    OptionWords::Number {
        name: "unsent-limit",
        value: "BYTES",
        most: MOST_CONTENT,
        default: None,
        help: "the earlier name of --content-limit",
    },
];

/// For how long it serves.
static TURNS: [OptionWords; 1] = [OptionWords::Number {
    name: "turns",
    value: "N",
    most: 4_294_967_295,
    default: None,
    help: "ends after so many turns, 1 to 4294967295; without it the server stays until it is stopped",
}];

/// How long clients may take.
static CLIENT_TIMES: [OptionWords; 3] = [
    OptionWords::Seconds(
        "client-timeout",
        "60",
        "how long a client that waits for nothing may send and take no byte",
    ),
    OptionWords::Seconds(
        "request-timeout",
        "30",
        "how long a request may take to come whole, from its first byte on",
    ),
    OptionWords::Seconds(
        "abandon-timeout",
        "5",
        "how long a client that has sent its end may wait for its answer",
    ),
];

/// How long origins may take.
static ORIGIN_TIMES: [OptionWords; 3] = [
    OptionWords::Seconds(
        "connect-timeout",
        "5",
        "how long a connection to an origin may take to be made",
    ),
    OptionWords::Seconds(
        "origin-timeout",
        "60",
        "how long an origin may send no byte",
    ),
    OptionWords::Seconds(
        "exchange-timeout",
        "300",
        "how long an exchange with an origin may take in all",
    ),
];

/// The files that a server looks for or writes.
static FILES: [OptionWords; 6] = [
    OptionWords::Text(
        "drain",
        "FILE",
        "where this file is, takes no more connections, finishes what is open, and ends",
    ),
    OptionWords::Seconds("drain-timeout", "30", "how long that may take"),
    OptionWords::Text(
        "record",
        "FILE",
        "writes what happens into a new file as a script, up to 16777216 bytes; %s is the moment of the start. What --store holds at first stays beside it, as FILE.store",
    ),
    OptionWords::Text(
        "log",
        "FILE",
        "adds a line about each reply to a file; - is standard output",
    ),
    OptionWords::Text(
        "stats",
        "FILE",
        "writes figures once a second, in Prometheus' text format",
    ),
    OptionWords::Text(
        "store",
        "FILE",
        "keeps what is stored over a restart: written at the end of a drain, read and taken away at the start",
    ),
];

/// What is served, and how much of it.
fn served<'a>(alloc: Global) -> Result<Command<'a>, Error> {
    let command = command(alloc, "serve")
        .about("Serves clients by a table, until it is stopped")
        .after_help(SERVE_HELP)
        .arg(required_word(alloc, "table", "the table"))?
        .arg(listen_option(alloc))?
        .next_help_heading("Bounds");
    let command = with_options(alloc, command, &CONNECTION_OPTIONS)?;
    let command = command.arg(origin_probe_option(alloc))?;
    let command = with_options(alloc, command, &CONTENT_OPTIONS)?.next_help_heading("For tests");
    with_options(alloc, command, &TURNS)
}

fn serve<'a>(alloc: Global) -> Result<Command<'a>, Error> {
    let command = served(alloc)?.next_help_heading("Times of clients");
    let command = with_options(alloc, command, &CLIENT_TIMES)?;
    let command = command.next_help_heading("Times of origins");
    let command = with_options(alloc, command, &ORIGIN_TIMES)?;
    with_options(alloc, command.next_help_heading("Files"), &FILES)
}

/// A replay over a store, as a server that read one records.
fn replay<'a>(alloc: Global) -> Result<Command<'a>, Error> {
    let command = command(alloc, "replay")
        .about(
            "Replays the script on standard input, as without a command, over a store that was kept",
        )
        .arg(option_with_value(
            alloc,
            "store",
            "FILE",
            "what is held at first: the file that stands beside a record, as RECORD.store; it is only read",
        ))?
        .after_help(STATUSES);
    Ok(command)
}

/// Adds a command to the program, once it is made.
fn with_command<'a>(
    program: Command<'a>,
    command: Result<Command<'a>, Error>,
) -> Result<Command<'a>, Error> {
    match command {
        Ok(command) => Ok(program.subcommand(command)?),
        Err(e) => Err(e),
    }
}

fn program<'a>(alloc: Global) -> Result<Command<'a>, Error> {
    let program = command(alloc, "revcache")
        .version(VERSION)
        .about(
            "A caching reverse proxy for HTTP/1.1; without a command, replays the script on standard input",
        )
        .after_help(STATUSES);
    let program = with_command(program, check(alloc))?;
    let program = with_command(program, serve(alloc))?;
    with_command(program, replay(alloc))
}

/// The descriptor of a socket that was handed on: `fd:` and its number, without leading zeros, 3 at least. Those below
/// are standard input, output and error.
fn descriptor_of(text: &str) -> Option<i32> {
    let number = text.strip_prefix("fd:")?;
    if number.starts_with('0') || number.starts_with('+') {
        return None;
    }
    match number.parse::<i32>() {
        Ok(fd) if fd >= 3 => Some(fd),
        _ => None,
    }
}

/// Where clients connect to.
fn listen_at(text: &str) -> Option<ListenAt> {
    match descriptor_of(text) {
        Some(fd) => Some(ListenAt::Descriptor(fd)),
        None => Some(ListenAt::Address(address_of(text)?)),
    }
}

/// An address as in a table: four numbers and a port, without leading zeros. The port may be 0.
fn address_of(text: &str) -> Option<SocketAddr> {
    let (_, port) = text.rsplit_once(':')?;
    if port.len() > 1 && port.starts_with('0') {
        return None;
    }
    match text.parse::<SocketAddr>() {
        Ok(address) if address.is_ipv4() => Some(address),
        _ => None,
    }
}

/// A number of seconds, in milliseconds.
fn milliseconds_of(matches: &ArgMatches<'_>, name: &str) -> Option<u64> {
    Some(matches.get_one::<u64>(name)?.saturating_mul(SECOND))
}

/// How much may be in progress, by either name.
fn content_of(matches: &ArgMatches<'_>) -> Option<usize> {
    match matches.get_one::<usize>("unsent-limit") {
        Some(limit) => Some(limit),
        None => matches.get_one::<usize>("content-limit"),
    }
}

/// The bounds, but for those of contents, which the table has.
fn limits_of(matches: &ArgMatches<'_>) -> Option<Limits> {
    Some(Limits {
        connections: matches.get_one::<usize>("connections")?,
        origin_connections: matches.get_one::<u64>("origin-connections")?,
        origin_probe: matches.get_str("origin-probe")? == "on",
        client_timeout: milliseconds_of(matches, "client-timeout")?,
        request_timeout: milliseconds_of(matches, "request-timeout")?,
        abandon_timeout: milliseconds_of(matches, "abandon-timeout")?,
        connect_timeout: milliseconds_of(matches, "connect-timeout")?,
        origin_timeout: milliseconds_of(matches, "origin-timeout")?,
        exchange_timeout: milliseconds_of(matches, "exchange-timeout")?,
        content: content_of(matches)?,
    })
}

fn service_of<'a>(matches: &ArgMatches<'a>, listen: ListenAt) -> Option<ServeOptions<'a>> {
    Some(ServeOptions {
        table: matches.get_str("table")?,
        listen,
        turns: matches.get_one::<u32>("turns"),
        limits: limits_of(matches)?,
        drain: matches.get_str("drain"),
        drain_timeout: matches.get_one::<u64>("drain-timeout")?,
        record: matches.get_str("record"),
        log: matches.get_str("log"),
        stats: matches.get_str("stats"),
        store: matches.get_str("store"),
    })
}

/// That a text is no address to listen on.
fn address_fault(alloc: Global, text: &str) -> CommandFailure {
    let words = format!(in alloc;
        "error: invalid value '{text}' for '--listen <ADDRESS>': an IPv4 address and a port, as in 127.0.0.1:8080, or a socket that was handed on, as in fd:3"
    );
    CommandFailure::Usage(words.ok())
}

/// The service that is asked for.
fn serve_of<'a>(
    alloc: Global,
    matches: &ArgMatches<'a>,
) -> Result<CommandForm<'a>, CommandFailure> {
    let Some(text) = matches.get_str("listen") else {
        return Err(CommandFailure::Usage(None));
    };
    let Some(listen) = listen_at(text) else {
        return Err(address_fault(alloc, text));
    };
    match service_of(matches, listen) {
        Some(service) => Ok(CommandForm::Serve(service)),
        None => Err(CommandFailure::Usage(None)),
    }
}

/// What a check asks for.
fn check_of<'a>(
    alloc: Global,
    matches: &ArgMatches<'a>,
) -> Result<CommandForm<'a>, CommandFailure> {
    let Some(path) = matches.get_str("table") else {
        return Err(CommandFailure::Usage(None));
    };
    let against = match (matches.get_str("against"), matches.get_str("log")) {
        (Some(table), Some(log)) => Some((table, log)),
        (None, None) => None,
        _ => return Err(against_fault(alloc)),
    };
    let question = match matches.get_str("ask") {
        Some(text) => match parse_question(text) {
            Some(question) => Some(question),
            None => return Err(question_fault(alloc, text)),
        },
        None => None,
    };
    let answer = matches.get_str("answer");
    if let Some(text) = answer {
        if !answer_has_only_field_lines(text) {
            return Err(answer_fault(alloc, text));
        }
    }
    Ok(CommandForm::Check(CheckOptions {
        table: path,
        question,
        questions: matches.get_str("ask-file"),
        answer,
        against,
    }))
}

/// What is said of one of the two options that belong together.
fn against_fault(alloc: Global) -> CommandFailure {
    let words = format!(in alloc; "error: '--against <OLD>' and '--log <FILE>' go together");
    CommandFailure::Usage(words.ok())
}

/// What is said of a text that is no answer.
fn answer_fault(alloc: Global, text: &str) -> CommandFailure {
    let words = format!(in alloc;
        "error: invalid value '{text}' for '--answer <LINES>': lines of a head with | between them, and a status in front if it isn't 200, as in '404 | Cache-Control: max-age=60'"
    );
    CommandFailure::Usage(words.ok())
}

/// What is said of a text that is no request.
fn question_fault(alloc: Global, text: &str) -> CommandFailure {
    let words = format!(in alloc;
        "error: invalid value '{text}' for '--ask <REQUEST>': a method, a blank and a URL, as in 'GET http://h.example/a'"
    );
    CommandFailure::Usage(words.ok())
}

/// What the words ask for.
pub(crate) fn command_form_of<'a>(
    alloc: Global,
    matches: &ArgMatches<'a>,
) -> Result<CommandForm<'a>, CommandFailure> {
    match matches.subcommand() {
        None => Ok(CommandForm::Replay),
        Some(("replay", inner)) => Ok(CommandForm::ReplayOver(inner.get_str("store"))),
        Some(("check", inner)) => check_of(alloc, inner),
        Some((_, inner)) => serve_of(alloc, inner),
    }
}

/// Reads the words of a command line, the program's name first.
pub(crate) fn read<'a>(alloc: Global, words: &'a [String]) -> Result<ArgMatches<'a>, Error> {
    program(alloc)?.try_get_matches_from(words)
}
