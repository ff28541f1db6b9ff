//! Serving: the table, the listener, the record and the log, and then turn after turn.
ghost use Rattle.std.specs.Prelude.{◌≡◌, [], IfOk, None};
ghost use Rattle.proxy_engine.specs.Beginnings.{ResponsesMayBeHeldAtStart};
ghost use Rattle.proxy_program.specs.Seeds.{SeedIsHashOfRandomKeys};

use crate::command_line::ServeOptions;
use crate::commit::commit_of;
use crate::fault::Fault;
use crate::figures::{Figures, FixedFacts};
use crate::heap::keep_freed_memory;
use crate::process::process_start;
use crate::warnings::Warnings;
use crate::watch::{ServerRunState, ShutdownWatch};
use hx_allow::{MOST_LINES, Table};
use hx_store::{IndexedShelf, Shelf};
use proxy_files::{
    CommandFailure, Journal, KeptStore, LogTarget, StatsFile, config_of,
    connections_within_descriptors, descriptors_allowed, descriptors_wanted, fault_of, megabytes,
    memory_allowed, most_bytes_held_beside_store, most_store_bytes, open_log_file, read_table,
    system_call_words, warn_of_other_writer,
};
use proxy_kept_store::a_server_may_begin_empty;
use proxy_server::{
    CountedShelf, Limits, ListenAt, LiveSockets, Recorder, ServeFault, Server, StoreCounts,
};
use std::alloc::AllocError;
use std::fs::OpenOptions;
use std::hash::{BuildHasher, Hasher, RandomState};
use std::io;
use std::io::{ErrorKind, Write};
use std::net::{IpAddr, Net, SocketAddr, SocketAddrV4};
use std::os::unix::fs::OpenOptionsExt;
use std::random::RandomSource;
use std::rt::{Clock, Files};

/// The name of a record, if one is asked for: `%s` in it is the moment, in Unix seconds.
fn record_name<R: Clock + AllocGlobal>(
    rt: &R,
    path: Option<&str>,
) -> Result<Option<String>, Fault> {
    let Some(path) = path else {
        return Ok(None);
    };
    let Some((front, back)) = path.split_once("%s") else {
        return Ok(Some(String::from_str(rt.alloc(), path)?));
    };
    let Ok(now) = rt.since_1970() else {
        return Err(Fault::from(ServeFault::Clock));
    };
    let seconds = now.as_secs();
    Ok(Some(format!(in rt.alloc(); "{front}{seconds}{back}")?))
}

/// A record in a new file of this name, if one is asked for. A file that is there stays as it is.
fn record_of<R: Files + AllocGlobal>(
    rt: &R,
    name: Option<&str>,
    table: &[u8],
) -> Result<Option<Recorder<R::File>>, Fault> {
    let Some(name) = name else {
        return Ok(None);
    };
    let mut how = OpenOptions::new();
    // It holds what was sent, passwords included: nobody else is to read it.
    how.write(true).create_new(true).mode(0o600);
    match how.open(rt, name) {
        Ok(file) => Ok(Some(Recorder::begin(rt.alloc(), file, table)?)),
        Err(e) => Err(Fault::from(record_fault(rt, name, &e))),
    }
}

/// Why a record can't be begun.
fn record_fault<R: AllocGlobal>(rt: &R, name: &str, error: &io::Error) -> CommandFailure {
    let hint = if error.kind() == ErrorKind::AlreadyExists {
        " is never written over: take another name, or %s in it for the moment of the start"
    } else {
        " can't be begun"
    };
    let words = system_call_words(rt.alloc(), "the record ", name, hint, error);
    fault_of(error, CommandFailure::Write(words))
}

/// The bounds, cut to the descriptors that are allowed where the system tells.
fn within_descriptors(limits: Limits, allows: Option<u64>) -> Limits {
    let Some(allows) = allows else {
        return limits;
    };
    let mut limits = limits;
    let most = connections_within_descriptors(allows, limits.origin_connections);
    limits.connections = limits
        .connections
        .min(usize::try_from(most).unwrap_or(usize::MAX));
    limits
}

/// Tells on which address it listens, and where fewer descriptors are allowed than may be wanted.
fn announce<R: Eprint>(rt: &R, address: SocketAddr, asked: &Limits, allows: Option<u64>) {
    // Where standard error fails there is nobody left to tell.
    let _ = eprintln!(rt; "listening on {address}");
    let Some(allows) = allows else {
        return;
    };
    let wants = descriptors_wanted(asked.connections as u64, asked.origin_connections);
    let taken = within_descriptors(*asked, Some(allows)).connections;
    if allows < wants {
        let _ = eprintln!(rt;
            "warning: {allows} descriptors are allowed, and up to {wants} may be wanted: at most {taken} connections of clients are taken"
        );
    }
}

/// Tells how much its bounds allow to be held, and where that is more than there is.
fn announce_memory<R: Files + Eprint + AllocGlobal>(rt: &R, stored: u64, held: u64) {
    let most = stored.saturating_add(held);
    let (all, stored, held) = (megabytes(most), megabytes(stored), megabytes(held));
    let _ = eprintln!(rt;
        "at most {all} MB are held: {stored} of stored responses, {held} of what is in progress and connections"
    );
    match memory_allowed(rt) {
        Some(allowed) if allowed.bytes() < most => {
            let (bound, owner) = (megabytes(allowed.bytes()), allowed.owner());
            let _ = eprintln!(rt;
                "warning: that is more than the {bound} MB that {owner}: lower capacity, max_stored, max_store, --content-limit or --connections"
            );
        }
        _ => {}
    }
}

/// Whether who connects to an origin comes to this server: its own address, or this machine's own where it listens on
/// all addresses.
fn comes_back(origin: SocketAddrV4, address: SocketAddr) -> bool {
    let is_own = IpAddr::V4(*origin.ip()) == address.ip();
    let is_any = address.ip().is_unspecified() && origin.ip().is_loopback();
    origin.port() == address.port() && (is_own || is_any)
}

/// Tells of each line whose requests come back to this server.
fn warn_of_loops<R: Eprint>(rt: &R, config: &Table, address: SocketAddr) {
    for line in 1..=MOST_LINES {
        if config
            .origin_address(line)
            .is_some_and(|it| comes_back(it, address))
        {
            let end = if config.refuses_loops(line) {
                "twice, and are refused then"
            } else {
                "until connections run out"
            };
            let _ = eprintln!(rt;
                "warning: the origin of line {line} is this server itself: its requests come back {end}"
            );
        }
    }
}

/// Serves as many turns as are asked for, or until it is to end. Lines about replies are written after each turn.
fn serve_turns<'a, R, S: Shelf + Drop, P: Write + Drop>(
    rt: &R,
    turns: u64,
    watch: ShutdownWatch<'_>,
    server: &mut Server<'a, S, R, R::File>,
    journal: &mut Option<Journal<R::File, P>>,
    figures: &mut Option<Figures<'_>>,
) -> Result<(), Fault>
where
    R: Net + Clock + Files + Print + Eprint + AllocGlobal,
{
    let mut watch = watch;
    let mut log_reported = false;
    let mut warnings = Warnings::new();
    for _ in 0..turns {
        // What a turn that ended early left undone is done in the next one.
        let turned = server.wait_and_serve_turn(rt)?;
        warnings.warn_of_turn(rt, server, &turned);
        let lost = write_log(server, journal);
        if lost > 0 && !log_reported {
            log_reported = true;
            let _ = eprintln!(rt; "log fault");
            let _ = watch.explain_lost_log_lines(rt, journal);
        }
        if let Some(figures) = figures {
            figures.follow(rt, server, lost);
        }
        warnings.look(rt, server);
        match watch.look(rt, server, journal) {
            ServerRunState::On => {}
            ServerRunState::Draining => {
                let _ = eprintln!(rt; "draining");
                if let Some(path) = watch.left_drain_file() {
                    let _ = eprintln!(rt;
                        "warning: {path} was there at the start, so it ends at once: remove that file before a start"
                    );
                }
            }
            ServerRunState::Over => return Ok(()),
        }
    }
    Ok(())
}

/// Writes the lines of a turn; answers how many lines were lost since the start.
fn write_log<'a, S: Shelf + Drop, R: Net, F: Write + Drop, P: Write + Drop>(
    server: &mut Server<'a, S, R, F>,
    journal: &mut Option<Journal<F, P>>,
) -> u64 {
    let Some(journal) = journal else {
        return 0;
    };
    let Some(lines) = server.log() else {
        return 0;
    };
    journal.write(lines.as_slice());
    let lost = lines.lost().saturating_add(journal.lost());
    server.clear_log();
    lost
}

/// Where the lines of a log go, if one is kept.
fn journal_of<R: Files + AllocGlobal, P: Write + Drop>(
    rt: &R,
    path: Option<&str>,
    print: P,
) -> Result<Option<Journal<R::File, P>>, CommandFailure> {
    match path {
        None => Ok(None),
        Some("-") => Ok(Some(Journal::new(LogTarget::Print(print)))),
        Some(path) => match open_log_file(rt, path) {
            Ok(file) => Ok(Some(Journal::new(LogTarget::File(file)))),
            Err(e) => {
                let words = system_call_words(rt.alloc(), "the log ", path, " can't be opened", &e);
                Err(fault_of(&e, CommandFailure::Write(words)))
            }
        },
    }
}

/// Where the figures go, if they are asked for, and that they are counted.
fn figures_of<'a, 'n, R: Net + Clock + Files + AllocGlobal>(
    rt: &R,
    path: Option<&'a str>,
    config: &Table,
    store: &'a StoreCounts,
    sockets: &mut LiveSockets<'n, R>,
) -> Result<Option<Figures<'a>>, Fault> {
    let Some(path) = path else {
        return Ok(None);
    };
    let Ok(now) = rt.since_1970() else {
        return Err(Fault::from(ServeFault::Clock));
    };
    sockets.start_counting_replies(config)?;
    let whole = now.as_secs().saturating_mul(1000);
    let began = whole.saturating_add(u64::from(now.subsec_millis()));
    let file = StatsFile::new(rt, path)?;
    let facts = FixedFacts {
        began,
        process_began: process_start(rt, began),
        most_descriptors: descriptors_allowed(rt),
        capacity: config.capacity() as u64,
        capacity_bytes: config.max_store(),
    };
    let commit = commit_of(rt)?;
    Ok(Some(Figures::new(file, facts, commit, store)))
}

/// A number that nobody can foresee, for what tells variants apart before they are looked at.
fn seed_of<R: RandomSource + AllocGlobal>(rt: &R) -> Result<u64, CommandFailure>
    ensures { IfOk result SeedIsHashOfRandomKeys }
{
    match RandomState::new(rt) {
        Ok(state) => Ok(state.build_hasher().finish()),
        Err(e) => {
            let words = system_call_words(
                rt.alloc(),
                "",
                "",
                "the system gives no number by chance",
                &e,
            );
            Err(CommandFailure::Read(words))
        }
    }
}

/// Why clients can't connect.
fn listen_fault<R: AllocGlobal>(rt: &R, at: ListenAt, error: &io::Error) -> Fault {
    let words = match at {
        ListenAt::Address(address) => format!(in rt.alloc();
            "{address} can't be listened on: {error}"
        ),
        ListenAt::Descriptor(fd) => format!(in rt.alloc();
            "fd:{fd} is no TCP socket over IPv4 that was bound and listens: {error}"
        ),
    };
    if error.kind() == ErrorKind::OutOfMemory {
        return Fault::Command(CommandFailure::NoMemory);
    }
    Fault::Socket(words.ok())
}

/// The sockets where clients connect.
fn sockets_of<'n, R: Net + AllocGlobal>(
    rt: &'n R,
    listen: ListenAt,
    limits: Limits,
) -> Result<LiveSockets<'n, R>, Fault> {
    match LiveSockets::listen(rt, rt.alloc(), listen, limits) {
        Ok(sockets) => Ok(sockets),
        Err(e) => Err(listen_fault(rt, listen, &e)),
    }
}

/// What is told of a server at its start.
#[derive(Clone, Copy)]
struct Start<'a> {
    address: SocketAddr,
    /// Bytes that the store takes at most, and those that are held beside it.
    stored: u64,
    held: u64,
    /// The descriptors that are allowed, where the system tells.
    allows: Option<u64>,
    /// The name of the record, if one is written.
    record: Option<&'a str>,
}

/// What is written about the replies and the server, where it is asked for.
struct Reports<'a, F: Write + Drop, P: Write + Drop> {
    journal: Option<Journal<F, P>>,
    figures: Option<Figures<'a>>,
}

/// One call drops it, wherever that is.
impl<'a, F: Write + Drop, P: Write + Drop> Drop for Reports<'a, F, P> {
    fn drop(self) {
        let Reports {
            journal: _,
            figures: _,
        } = self;
    }
}

/// Opens the files of the log and the figures, and has the sockets count for them.
fn reports_of<'a, 'n, R: Net + Clock + Files + AllocGlobal, P: Write + Drop>(
    rt: &R,
    service: &ServeOptions<'a>,
    config: &Table,
    store: &'a StoreCounts,
    sockets: &mut LiveSockets<'n, R>,
    print: P,
) -> Result<Reports<'a, R::File, P>, Fault> {
    let journal = journal_of(rt, service.log, print)?;
    if journal.is_some() {
        sockets.start_keeping_log_lines(config)?;
    }
    let figures = figures_of(rt, service.stats, config, store, sockets)?;
    Ok(Reports { journal, figures })
}

/// Serves until its end, and tells then how many lines of the log were lost.
fn serve_to_its_end<'a, R, S: Shelf + Drop, P: Write + Drop>(
    rt: &R,
    service: &ServeOptions<'_>,
    server: &mut Server<'a, S, R, R::File>,
    reports: &mut Reports<'_, R::File, P>,
) -> Result<(), Fault>
where
    R: Net + Clock + Files + Print + Eprint + AllocGlobal,
{
    let turns = service.turns.map_or(u64::MAX, u64::from);
    let watch = ShutdownWatch::new(service.drain, service.drain_timeout, service.log);
    let served = serve_turns(
        rt,
        turns,
        watch,
        server,
        &mut reports.journal,
        &mut reports.figures,
    );
    let lost = write_log(server, &mut reports.journal);
    if lost > 0 {
        let _ = eprintln!(rt; "log fault {lost}");
    }
    if let Some(figures) = &mut reports.figures {
        // They have the last turn, too.
        let _ = figures.write(rt, server, lost);
    }
    served
}

/// The file of the store, if one is asked for.
fn kept_store_of<'a, R: AllocGlobal>(
    rt: &R,
    path: Option<&'a str>,
    record: Option<&str>,
) -> Result<Option<KeptStore<'a>>, AllocError> {
    match path {
        Some(path) => Ok(Some(KeptStore::new(rt, path, record)?)),
        None => Ok(None),
    }
}

/// Fills an empty shelf with what was kept, if a file is asked for and can be used; answers the serial that the next
/// stored response gets. With no file it is 1, and the shelf stays empty.
fn first_serial<R: Files + Eprint + AllocGlobal, S: Shelf>(
    rt: &R,
    kept: &Option<KeptStore<'_>>,
    config: &Table,
    shelf: &mut S,
) -> Result<u64, CommandFailure>
    requires empty { S.entries shelf.old ≡ [] }
    requires capacity { S.limit shelf.old ≡ config.now.capacity }
    ensures may { IfOk result (λ first. ResponsesMayBeHeldAtStart config.now (S.entries shelf.new) first) }
    ensures unasked { kept.now ≡ None → IfOk result (λ first. first ≡ 1) }
    ensures stays { kept.now ≡ None → S.entries shelf.new ≡ [] }
    ensures limit { S.limit shelf.new ≡ S.limit shelf.old }
{
    a_server_may_begin_empty();
    match kept {
        Some(kept) => kept.restore(rt, config, shelf),
        None => Ok(1),
    }
}

/// Writes the store of a server that ends, if a file is asked for. Where a request is still open it isn't written: its
/// answer may be one that drops what is held.
fn keep_store<'a, R: Net + Files + Eprint + AllocGlobal, S: Shelf + Drop>(
    rt: &R,
    kept: &Option<KeptStore<'_>>,
    server: Server<'a, S, R, R::File>,
) -> Result<(), Fault> {
    let Some(kept) = kept else {
        return Ok(());
    };
    let open = server.open_requests();
    if open > 0 {
        let _ = eprintln!(rt; "warning: the store isn't kept: {open} requests were still open");
        return Ok(());
    }
    let (mut shelf, next) = server.into_shelf_and_next_serial();
    if let Some(next) = next {
        kept.write(rt, &mut shelf, next)?;
    }
    Ok(())
}

/// A server over an empty shelf, or over what was kept: the file is taken away then, so nothing else may keep the
/// server from its start.
fn server_of<'n, R: Net + Files + Eprint + AllocGlobal, S: Shelf + Drop>(
    rt: &'n R,
    kept: &Option<KeptStore<'_>>,
    config: Table,
    shelf: S,
    sockets: LiveSockets<'n, R>,
    record: Option<Recorder<R::File>>,
) -> Result<Server<'n, S, R, R::File>, Fault>
    requires empty { S.entries shelf ≡ [] }
    requires capacity { S.limit shelf ≡ config.capacity }
{
    let mut shelf = shelf;
    let first = first_serial(rt, kept, &config, &mut shelf)?;
    Ok(Server::with_store(rt.alloc(), config, shelf, first, sockets, record))
}

/// Tells of a server at its start. What was read of a kept store is removed before the first request is read.
fn open_doors<'n, R: Net + Files + Eprint + AllocGlobal, S: Shelf + Drop>(
    rt: &R,
    service: &ServeOptions<'_>,
    start: &Start<'_>,
    kept: &Option<KeptStore<'_>>,
    server: &Server<'n, S, R, R::File>,
    figures: &Option<Figures<'_>>,
) {
    if let Some(figures) = figures {
        // Where they can't be written, as on a full disk, that is told after the first turn.
        let _ = figures.write(rt, server, 0);
    }
    announce_memory(rt, start.stored, start.held);
    if let Some(kept) = kept {
        kept.forget(rt);
    }
    announce(rt, start.address, &service.limits, start.allows);
}

/// Runs a server from its start to its end, and keeps its store then.
fn run_server<'n, R, S: Shelf + Drop, P: Write + Drop>(
    rt: &R,
    service: &ServeOptions<'_>,
    start: &Start<'_>,
    kept: &Option<KeptStore<'_>>,
    server: Server<'n, S, R, R::File>,
    reports: &mut Reports<'_, R::File, P>,
) -> Result<(), Fault>
where
    R: Net + Clock + Files + Print + Eprint + AllocGlobal,
{
    let mut server = server;
    keep_freed_memory(rt.alloc());
    open_doors(rt, service, start, kept, &server, &reports.figures);
    serve_to_its_end(rt, service, &mut server, reports)?;
    keep_store(rt, kept, server)
}

/// Serves by a table over sockets, once its files are open.
fn serve_table<'n, R: Net + Clock + Files + Print + Eprint + AllocGlobal + RandomSource>(
    rt: &'n R,
    service: &ServeOptions<'_>,
    config: Table,
    sockets: LiveSockets<'n, R>,
    record: Option<Recorder<R::File>>,
    start: &Start<'_>,
) -> Result<(), Fault> {
    let mut sockets = sockets;
    let store = StoreCounts::new();
    let mut reports = reports_of(rt, service, &config, &store, &mut sockets, io::writer(rt))?;
    warn_of_loops(rt, &config, start.address);
    warn_of_other_writer(rt, service.stats, start.address);
    let kept = kept_store_of(rt, service.store, start.record)?;
    let shelf = IndexedShelf::seeded(rt.alloc(), config.capacity(), seed_of(rt)?)?;
    let shelf = CountedShelf::new(shelf, &store);
    let server = server_of(rt, &kept, config, shelf, sockets, record)?;
    run_server(rt, service, start, &kept, server, &mut reports)
}

/// Serves as the command line says.
pub(crate) fn serve<R: Net + Clock + Files + Print + Eprint + AllocGlobal + RandomSource>(
    rt: &R,
    service: &ServeOptions<'_>,
) -> Result<(), Fault> {
    let table = read_table(rt, service.table)?;
    let config = config_of(rt.alloc(), table.as_slice())?;
    let allows = descriptors_allowed(rt);
    let limits = within_descriptors(service.limits, allows);
    let sockets = sockets_of(rt, service.listen, limits)?;
    let name = record_name(rt, service.record)?;
    let name = match &name {
        Some(name) => Some(name.as_str()),
        None => None,
    };
    let record = record_of(rt, name, table.as_slice())?;
    let start = Start {
        address: sockets.address(),
        stored: most_store_bytes(&config),
        held: most_bytes_held_beside_store(limits.content, limits.connections),
        allows,
        record: name,
    };
    serve_table(rt, service, config, sockets, record, &start)
}
