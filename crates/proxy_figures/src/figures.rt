//! The page of figures: what a server counts and holds, in Prometheus' text format.
//!
//! A label's value is of a closed list, a status, or the address of an origin in the operator's table.

ghost use Rattle.std.specs.Prelude.{◌≡◌, true, false};

use crate::accept_counts::ConnectionAttemptCounts;
use crate::counted_shelf::StoreCounts;
use crate::endings::ClientEndCounts;
use crate::link_timeouts::LinkTimeouts;
use crate::not_stored::{ALL_STORING_RULES, storing_rule_name};
use crate::origins::{FAILURE_KIND_LABELS, Origin, Origins, STATUS_CLASS_LABELS};
use crate::page::{Kind, Page, SingleSample};
use crate::process::{ProcessFigures, push_process};
use crate::reply_counts::{
    FIRST_STATUS, ReplyCounts, ReplyTimes, STATUS_COUNT, TIME_BOUNDS_IN_SECONDS,
};
use crate::sorts::{ALL_CAUSES, ALL_DETAILS, ALL_REASONS, Detail, Reason};
use crate::turn_counts::Turns;
use crate::unanswered::{ALL_UNANSWERED_CAUSES, UnansweredCounts};
use itoa::Buffer;
use std::alloc::{AllocError, Global};

/// What a server can't know of itself.
#[derive(Clone, Copy)]
pub struct ProgramFacts<'a> {
    pub version: &'a str,
    /// The commit that the program was built from; empty where that isn't known.
    pub commit: &'a str,
    /// When it began, in milliseconds since 1970.
    pub began: u64,
    /// The most responses that are stored, and the most bytes that they weigh together, where those are bounded.
    pub capacity: u64,
    pub capacity_bytes: Option<u64>,
    /// What the store counts.
    pub store: &'a StoreCounts,
    /// Lines of the log that couldn't be written.
    pub lost_lines: u64,
    /// What the system tells of the process.
    pub process: ProcessFigures,
}

/// Connections of clients.
#[derive(Clone, Copy)]
pub struct ClientFigures<'a> {
    /// How many are open, and how many of those that were closed still wait for their clients.
    pub open: usize,
    pub closing: usize,
    /// The most that are open.
    pub limit: usize,
    pub accepts: &'a ConnectionAttemptCounts,
    pub endings: &'a ClientEndCounts,
    /// Requests that were never answered.
    pub unanswered: &'a UnansweredCounts,
    /// Bytes of replies that wait for clients.
    pub unsent: usize,
}

/// Links to origins.
#[derive(Clone, Copy)]
pub struct LinkFigures<'a> {
    pub timeouts: &'a LinkTimeouts,
    pub origins: &'a Origins,
    /// For how many milliseconds the oldest is open; 0 where there is none.
    pub oldest: u64,
}

/// Whether what happens is recorded.
#[derive(Clone, Copy, PartialEq, Eq)]
pub enum RecordState {
    NoRecord,
    Writing,
    /// The record has ended before the limit of a script.
    Ended,
}

impl RecordState {
    /// By whether a record is written, and whether one has ended.
    pub fn of(is_recording: bool, has_ended: bool) -> RecordState
        ensures writing { is_recording ≡ true → result ≡ RecordState.Writing }
        ensures ended { is_recording ≡ false → has_ended ≡ true → result ≡ RecordState.Ended }
        ensures none { is_recording ≡ false → has_ended ≡ false → result ≡ RecordState.NoRecord }
    {
        match (is_recording, has_ended) {
            (true, _) => RecordState::Writing,
            (false, true) => RecordState::Ended,
            (false, false) => RecordState::NoRecord,
        }
    }
}

/// What a server counts and holds.
#[derive(Clone, Copy)]
pub struct Figures<'a> {
    pub about: &'a ProgramFacts<'a>,
    /// The address that it listens on.
    pub listen: &'a str,
    /// When the page is written, in milliseconds since 1970.
    pub now: u64,
    pub turns: &'a Turns,
    pub is_draining: bool,
    /// Replies, where they are counted.
    pub replies: Option<&'a ReplyCounts>,
    pub clients: ClientFigures<'a>,
    pub links: LinkFigures<'a>,
    /// Bytes of requests and answers in progress, and of replies that wait for clients; and the most of them.
    pub held: usize,
    pub held_limit: usize,
    /// Lines of the log that were made.
    pub log_lines: u64,
    pub record: RecordState,
}

/// The program, and when it began.
fn push_program(page: &mut Page<'_>, about: &ProgramFacts<'_>, now: u64) -> Result<(), AllocError> {
    let name = "revcache_build_info";
    page.family(name, Kind::Gauge, "The program that runs.")?;
    page.sample_with_two_labels(
        name,
        ("version", about.version),
        ("commit", about.commit),
        1,
    )?;
    page.single_time_family(
        "revcache_start_time_seconds",
        Kind::Gauge,
        "When the server began, in Unix seconds.",
        about.began,
    )?;
    page.single_time_family(
        "revcache_stats_time_seconds",
        Kind::Gauge,
        "When this page was written, in Unix seconds.",
        now,
    )
}

fn push_store_bounds(page: &mut Page<'_>, about: &ProgramFacts<'_>) -> Result<(), AllocError> {
    page.single_sample_family(
        "revcache_store_capacity_responses",
        Kind::Gauge,
        "The most responses that are stored.",
        about.capacity,
    )?;
    if let Some(bytes) = about.capacity_bytes {
        page.single_sample_family(
            "revcache_store_capacity_bytes",
            Kind::Gauge,
            "The most bytes that stored responses weigh together.",
            bytes,
        )?;
    }
    Ok(())
}

/// What the store holds, and what went of it.
fn push_store(page: &mut Page<'_>, store: &StoreCounts) -> Result<(), AllocError> {
    let families = [
        SingleSample {
            name: "revcache_store_responses",
            kind: Kind::Gauge,
            help: "Responses that are stored.",
            n: store.held(),
        },
        SingleSample {
            name: "revcache_store_bytes",
            kind: Kind::Gauge,
            help: "Bytes that they weigh together: contents, heads, targets, and 1200 each.",
            n: store.weight(),
        },
        SingleSample {
            name: "revcache_store_evictions_total",
            kind: Kind::Counter,
            help: "Stored responses that went since the store was full.",
            n: store.evicted(),
        },
        SingleSample {
            name: "revcache_store_evicted_seconds_total",
            kind: Kind::Counter,
            help: "Seconds for which those had been stored, since they were received or freshened.",
            n: store.evicted_seconds(),
        },
        SingleSample {
            name: "revcache_store_removals_total",
            kind: Kind::Counter,
            help: "Stored responses that were replaced, invalidated, or not kept behind a 304.",
            n: store.removed(),
        },
    ];
    page.single_sample_families(&families)
}

fn push_reason(
    page: &mut Page<'_>,
    replies: &ReplyCounts,
    reason: Reason,
) -> Result<(), AllocError> {
    for detail in ALL_DETAILS {
        let n = replies.replies_with_reason(reason, *detail);
        if n > 0 || *detail == Detail::Nothing {
            page.sample_with_two_labels(
                "revcache_requests_total",
                ("reason", reason.name()),
                ("detail", detail.name()),
                n,
            )?;
        }
    }
    Ok(())
}

fn push_reasons(page: &mut Page<'_>, replies: &ReplyCounts) -> Result<(), AllocError> {
    page.family(
        "revcache_requests_total",
        Kind::Counter,
        "Requests that were answered, by what Cache-Status or Refusal says.",
    )?;
    for reason in ALL_REASONS {
        push_reason(page, replies, *reason)?;
    }
    Ok(())
}

/// Answers that were stored, and requests that were sent them without one of their own.
fn push_stored(page: &mut Page<'_>, replies: &ReplyCounts) -> Result<(), AllocError> {
    page.single_sample_family(
        "revcache_collapsed_requests_total",
        Kind::Counter,
        "Requests that waited for the answer to another one and were sent what was stored of it.",
        replies.collapsed,
    )?;
    page.single_sample_family(
        "revcache_stored_responses_total",
        Kind::Counter,
        "Answers of origins that were stored.",
        replies.stored,
    )
}

/// Answers that weren't stored, where a line tells by which rule.
fn push_storing_rules(page: &mut Page<'_>, replies: &ReplyCounts) -> Result<(), AllocError> {
    let name = "revcache_not_stored_responses_total";
    page.family(
        name,
        Kind::Counter,
        "Answers of origins that were not stored, by storing rule, of lines that tell it.",
    )?;
    for rule in ALL_STORING_RULES {
        let n = replies.replies_with_storing_rule(*rule);
        page.sample_with_label(name, "rule", storing_rule_name(*rule), n)?;
    }
    Ok(())
}

fn push_statuses(page: &mut Page<'_>, replies: &ReplyCounts) -> Result<(), AllocError> {
    let name = "revcache_responses_total";
    page.family(name, Kind::Counter, "Replies to clients by status.")?;
    for i in 0..STATUS_COUNT {
        let status = FIRST_STATUS + i as u16;
        let n = replies.replies_with_status(status);
        if n > 0 {
            let mut digits = Buffer::new();
            page.sample_with_label(name, "code", digits.format(status), n)?;
        }
    }
    Ok(())
}

fn push_causes(page: &mut Page<'_>, replies: &ReplyCounts) -> Result<(), AllocError> {
    let name = "revcache_refusals_total";
    page.family(
        name,
        Kind::Counter,
        "Replies that the proxy made by itself, by cause.",
    )?;
    for cause in ALL_CAUSES {
        let n = replies.replies_with_cause(*cause);
        page.sample_with_label(name, "cause", cause.name(), n)?;
    }
    Ok(())
}

/// The names of the samples of a histogram.
#[derive(Clone, Copy)]
struct Histogram<'a> {
    bucket: &'a str,
    sum: &'a str,
    count: &'a str,
}

const REQUEST_TIMES: Histogram<'static> = Histogram {
    bucket: "revcache_request_duration_seconds_bucket",
    sum: "revcache_request_duration_seconds_sum",
    count: "revcache_request_duration_seconds_count",
};

const EXCHANGE_TIMES: Histogram<'static> = Histogram {
    bucket: "revcache_origin_exchange_duration_seconds_bucket",
    sum: "revcache_origin_exchange_duration_seconds_sum",
    count: "revcache_origin_exchange_duration_seconds_count",
};

/// The samples of a histogram that have this label.
fn push_times(
    page: &mut Page<'_>,
    names: Histogram<'_>,
    whose: (&str, &str),
    times: &ReplyTimes,
) -> Result<(), AllocError> {
    let mut sum = 0u64;
    for i in 0..TIME_BOUNDS_IN_SECONDS.len() {
        sum = sum.saturating_add(times.buckets[i]);
        page.sample_with_two_labels(names.bucket, whose, ("le", TIME_BOUNDS_IN_SECONDS[i]), sum)?;
    }
    sum = sum.saturating_add(times.buckets[TIME_BOUNDS_IN_SECONDS.len()]);
    page.sample_with_two_labels(names.bucket, whose, ("le", "+Inf"), sum)?;
    page.time_with_label(names.sum, whose.0, whose.1, times.sum)?;
    page.sample_with_label(names.count, whose.0, whose.1, sum)
}

fn push_request_times(page: &mut Page<'_>, replies: &ReplyCounts) -> Result<(), AllocError> {
    page.family(
        "revcache_request_duration_seconds",
        Kind::Histogram,
        "From the first byte of a request to the turn in which its reply was written.",
    )?;
    push_times(
        page,
        REQUEST_TIMES,
        ("source", "store"),
        &replies.from_store,
    )?;
    push_times(
        page,
        REQUEST_TIMES,
        ("source", "origin"),
        &replies.from_origin,
    )?;
    push_times(
        page,
        REQUEST_TIMES,
        ("source", "proxy"),
        &replies.from_proxy,
    )
}

fn push_replies(page: &mut Page<'_>, replies: &ReplyCounts) -> Result<(), AllocError> {
    push_reasons(page, replies)?;
    push_stored(page, replies)?;
    push_storing_rules(page, replies)?;
    push_statuses(page, replies)?;
    push_causes(page, replies)?;
    push_request_times(page, replies)
}

fn push_endings(page: &mut Page<'_>, endings: &ClientEndCounts) -> Result<(), AllocError> {
    let samples = [
        ("room", endings.for_room),
        ("content-limit", endings.for_content),
        ("memory", endings.for_memory),
    ];
    page.labelled_family(
        "revcache_connections_cut_total",
        Kind::Counter,
        "Connections of clients that were closed early, but for time-outs.",
        "cause",
        &samples,
    )
}

fn push_timeouts(
    page: &mut Page<'_>,
    endings: &ClientEndCounts,
    links: &LinkTimeouts,
) -> Result<(), AllocError> {
    let samples = [
        ("client", endings.client_timeouts),
        ("request", endings.request_timeouts),
        ("abandon", endings.abandon_timeouts),
        ("connect", links.connect),
        ("origin", links.silence),
        ("exchange", links.exchange),
    ];
    page.labelled_family(
        "revcache_timeouts_total",
        Kind::Counter,
        "Time-outs, by the option that bounds them.",
        "kind",
        &samples,
    )
}

/// Connections of clients, by where they stand.
fn push_states(page: &mut Page<'_>, clients: &ClientFigures<'_>) -> Result<(), AllocError> {
    let samples = [
        ("open", clients.open as u64),
        ("closing", clients.closing as u64),
    ];
    page.labelled_family(
        "revcache_connections",
        Kind::Gauge,
        "Connections of clients that are open, by what they do.",
        "state",
        &samples,
    )?;
    page.single_sample_family(
        "revcache_connections_limit",
        Kind::Gauge,
        "The most connections of clients that are open.",
        clients.limit as u64,
    )
}

/// How connections of clients were taken.
fn push_accepted(page: &mut Page<'_>, accepts: &ConnectionAttemptCounts) -> Result<(), AllocError> {
    page.single_sample_family(
        "revcache_connections_accepted_total",
        Kind::Counter,
        "Connections of clients that were taken.",
        accepts.accepted,
    )?;
    let samples = [
        ("full", accepts.full),
        ("descriptors", accepts.no_descriptor),
        ("memory", accepts.no_memory),
        ("other", accepts.failed),
    ];
    page.labelled_family(
        "revcache_connections_refused_total",
        Kind::Counter,
        "Looks at the queue of the listener that could take nobody, by cause.",
        "cause",
        &samples,
    )
}

/// Links that could not be begun, for what the system lacks.
fn push_links_not_begun(
    page: &mut Page<'_>,
    accepts: &ConnectionAttemptCounts,
) -> Result<(), AllocError> {
    page.single_sample_family(
        "revcache_links_without_descriptor_total",
        Kind::Counter,
        "Connections to origins that could not be begun since no descriptor was left.",
        accepts.no_link,
    )?;
    page.single_sample_family(
        "revcache_links_without_port_total",
        Kind::Counter,
        "Connections to origins that could not be begun since no local port was left.",
        accepts.no_port,
    )
}

/// Requests that were never answered.
fn push_unanswered(page: &mut Page<'_>, unanswered: &UnansweredCounts) -> Result<(), AllocError> {
    let name = "revcache_unanswered_requests_total";
    page.family(
        name,
        Kind::Counter,
        "Requests that were never answered, by cause.",
    )?;
    for cause in ALL_UNANSWERED_CAUSES {
        page.sample_with_label(name, "cause", cause.name(), unanswered.with(*cause))?;
    }
    Ok(())
}

/// Bytes of clients.
fn push_bytes(page: &mut Page<'_>, figures: &Figures<'_>) -> Result<(), AllocError> {
    let families = [
        SingleSample {
            name: "revcache_client_received_bytes_total",
            kind: Kind::Counter,
            help: "Bytes that were read from clients.",
            n: figures.clients.endings.received,
        },
        SingleSample {
            name: "revcache_client_sent_bytes_total",
            kind: Kind::Counter,
            help: "Bytes for clients that the system took.",
            n: figures.clients.endings.written,
        },
        SingleSample {
            name: "revcache_client_unsent_bytes",
            kind: Kind::Gauge,
            help: "Bytes of replies that wait for clients.",
            n: figures.clients.unsent as u64,
        },
        SingleSample {
            name: "revcache_content_bytes",
            kind: Kind::Gauge,
            help: "Bytes of requests and answers in progress, and of replies that wait for clients.",
            n: figures.held as u64,
        },
        SingleSample {
            name: "revcache_content_limit_bytes",
            kind: Kind::Gauge,
            help: "The most bytes of requests and answers in progress, and of replies that wait for clients.",
            n: figures.held_limit as u64,
        },
    ];
    page.single_sample_families(&families)
}

fn push_clients(page: &mut Page<'_>, figures: &Figures<'_>) -> Result<(), AllocError> {
    let clients = &figures.clients;
    push_states(page, clients)?;
    push_accepted(page, clients.accepts)?;
    push_links_not_begun(page, clients.accepts)?;
    push_endings(page, clients.endings)?;
    push_unanswered(page, clients.unanswered)?;
    push_timeouts(page, clients.endings, figures.links.timeouts)?;
    push_bytes(page, figures)
}

/// A count of each origin.
#[derive(Clone, Copy, PartialEq, Eq)]
enum Count {
    Begun,
    Open,
    Received,
    Sent,
    /// 1 where it is asked by one request at a time.
    Silent,
}

fn count_of(origin: &Origin, count: Count) -> u64 {
    match count {
        Count::Begun => origin.begun,
        Count::Open => origin.open,
        Count::Received => origin.received,
        Count::Sent => origin.written,
        Count::Silent => u64::from(origin.is_silent()),
    }
}

/// A family that has a sample of each origin.
#[derive(Clone, Copy)]
struct OriginFamily<'a> {
    name: &'a str,
    kind: Kind,
    help: &'a str,
    count: Count,
}

const ORIGIN_LINKS: &[OriginFamily<'static>] = &[
    OriginFamily {
        name: "revcache_origin_exchanges_total",
        kind: Kind::Counter,
        help: "Links to an origin that were begun.",
        count: Count::Begun,
    },
    OriginFamily {
        name: "revcache_origin_exchanges",
        kind: Kind::Gauge,
        help: "Links to an origin that are open.",
        count: Count::Open,
    },
];

const ORIGIN_SILENCE: &[OriginFamily<'static>] = &[OriginFamily {
    name: "revcache_origin_silent",
    kind: Kind::Gauge,
    help: "Whether an origin is asked by one request at a time, since it doesn't answer.",
    count: Count::Silent,
}];

const ORIGIN_BYTES: &[OriginFamily<'static>] = &[
    OriginFamily {
        name: "revcache_origin_received_bytes_total",
        kind: Kind::Counter,
        help: "Bytes that were read from an origin.",
        count: Count::Received,
    },
    OriginFamily {
        name: "revcache_origin_sent_bytes_total",
        kind: Kind::Counter,
        help: "Bytes for an origin that the system took.",
        count: Count::Sent,
    },
];

fn push_counts(
    page: &mut Page<'_>,
    origins: &Origins,
    families: &[OriginFamily<'_>],
) -> Result<(), AllocError> {
    for family in families {
        page.family(family.name, family.kind, family.help)?;
        for origin in origins.as_slice() {
            let n = count_of(origin, family.count);
            page.sample_with_label(family.name, "origin", origin.name(), n)?;
        }
    }
    Ok(())
}

fn push_answers(page: &mut Page<'_>, origins: &Origins) -> Result<(), AllocError> {
    let name = "revcache_origin_responses_total";
    page.family(
        name,
        Kind::Counter,
        "Answers of an origin, by the hundred of their status.",
    )?;
    for origin in origins.as_slice() {
        for i in 0..STATUS_CLASS_LABELS.len() {
            let code = ("code", STATUS_CLASS_LABELS[i]);
            page.sample_with_two_labels(name, ("origin", origin.name()), code, origin.answers[i])?;
        }
    }
    Ok(())
}

fn push_failures(page: &mut Page<'_>, origins: &Origins) -> Result<(), AllocError> {
    let name = "revcache_origin_failures_total";
    page.family(
        name,
        Kind::Counter,
        "Exchanges with an origin that failed, by kind.",
    )?;
    for origin in origins.as_slice() {
        for i in 0..FAILURE_KIND_LABELS.len() {
            let kind = ("kind", FAILURE_KIND_LABELS[i]);
            page.sample_with_two_labels(name, ("origin", origin.name()), kind, origin.failures[i])?;
        }
    }
    Ok(())
}

/// Connects to an origin that were refused at once.
fn push_refused_connects(page: &mut Page<'_>, origins: &Origins) -> Result<(), AllocError> {
    let name = "revcache_origin_connections_refused_total";
    page.family(
        name,
        Kind::Counter,
        "Connections to an origin that were refused at once, by cause.",
    )?;
    for origin in origins.as_slice() {
        let whose = ("origin", origin.name());
        page.sample_with_two_labels(name, whose, ("cause", "limit"), origin.refused_beyond_bound)?;
        page.sample_with_two_labels(name, whose, ("cause", "silent"), origin.while_silent)?;
    }
    Ok(())
}

/// Seconds of the links to an origin that have ended.
fn push_exchange_seconds(page: &mut Page<'_>, origins: &Origins) -> Result<(), AllocError> {
    let name = "revcache_origin_exchange_seconds_total";
    page.family(
        name,
        Kind::Counter,
        "Seconds of the links to an origin that have ended.",
    )?;
    for origin in origins.as_slice() {
        page.time_with_label(name, "origin", origin.name(), origin.times.sum)?;
    }
    Ok(())
}

fn push_exchange_times(page: &mut Page<'_>, origins: &Origins) -> Result<(), AllocError> {
    page.family(
        "revcache_origin_exchange_duration_seconds",
        Kind::Histogram,
        "How long the links to an origin lasted that have ended.",
    )?;
    for origin in origins.as_slice() {
        push_times(
            page,
            EXCHANGE_TIMES,
            ("origin", origin.name()),
            &origin.times,
        )?;
    }
    Ok(())
}

fn push_origins(page: &mut Page<'_>, origins: &Origins) -> Result<(), AllocError> {
    push_counts(page, origins, ORIGIN_LINKS)?;
    push_answers(page, origins)?;
    push_failures(page, origins)?;
    push_refused_connects(page, origins)?;
    push_counts(page, origins, ORIGIN_SILENCE)?;
    push_exchange_seconds(page, origins)?;
    push_exchange_times(page, origins)?;
    push_counts(page, origins, ORIGIN_BYTES)
}

/// The record's state.
fn push_record(page: &mut Page<'_>, record: RecordState) -> Result<(), AllocError> {
    let samples = [
        ("none", u64::from(record == RecordState::NoRecord)),
        ("writing", u64::from(record == RecordState::Writing)),
        ("ended", u64::from(record == RecordState::Ended)),
    ];
    page.labelled_family(
        "revcache_record_state",
        Kind::Gauge,
        "Whether what happens is recorded.",
        "state",
        &samples,
    )
}

fn push_log(page: &mut Page<'_>, added: u64, lost: u64) -> Result<(), AllocError> {
    page.single_sample_family(
        "revcache_log_lines_total",
        Kind::Counter,
        "Lines of the log that were made.",
        added,
    )?;
    page.single_sample_family(
        "revcache_log_lost_lines_total",
        Kind::Counter,
        "Lines of the log that could not be written, or had no memory.",
        lost,
    )
}

fn push_turns(page: &mut Page<'_>, turns: &Turns, is_draining: bool) -> Result<(), AllocError> {
    page.single_sample_family(
        "revcache_turns_total",
        Kind::Counter,
        "Turns that were served.",
        turns.served,
    )?;
    let samples = [
        ("listener", turns.without_listener),
        ("memory", turns.without_memory),
    ];
    page.labelled_family(
        "revcache_turns_cut_total",
        Kind::Counter,
        "Turns that ended early, by cause.",
        "cause",
        &samples,
    )?;
    page.single_sample_family(
        "revcache_draining",
        Kind::Gauge,
        "Whether the server is to end and takes no more connections.",
        u64::from(is_draining),
    )
}

/// What the program and the system tell.
fn push_server_facts(page: &mut Page<'_>, figures: &Figures<'_>) -> Result<(), AllocError> {
    let about = figures.about;
    push_program(page, about, figures.now)?;
    push_process(page, &about.process)?;
    push_store_bounds(page, about)?;
    push_store(page, about.store)?;
    push_turns(page, figures.turns, figures.is_draining)
}

/// What was done for clients, and what origins did.
fn push_served(page: &mut Page<'_>, figures: &Figures<'_>) -> Result<(), AllocError> {
    if let Some(replies) = figures.replies {
        push_replies(page, replies)?;
    }
    push_clients(page, figures)?;
    push_origins(page, figures.links.origins)?;
    page.single_time_family(
        "revcache_oldest_exchange_age_seconds",
        Kind::Gauge,
        "For how long the oldest link to an origin is open.",
        figures.links.oldest,
    )?;
    push_log(page, figures.log_lines, figures.about.lost_lines)?;
    push_record(page, figures.record)
}

impl<'a> Figures<'a> {
    /// The page of figures. Its only error is out of memory.
    pub fn page(&self, alloc: Global) -> Result<Vec<u8>, AllocError> {
        let mut page = Page::new(alloc, self.listen);
        push_server_facts(&mut page, self)?;
        push_served(&mut page, self)?;
        Ok(page.into_text())
    }
}
