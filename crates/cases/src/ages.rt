//! Directives of Cache-Control, and how old and how fresh a stored response is.

ghost use Rattle.std.specs.Prelude.{◌≡◌};
ghost use Rattle.hx_directives.specs.Occurrences.{occurrences_of};

use crate::case_file::Case;
use crate::field_lines::fields_of;
use crate::lines::{Fault, Line};
use crate::parts::Part;
use crate::reuse::{before_purge, purged};
use hx_age::{Lifetime, Times, current_age, is_fresh, lifetime_shortened_by_purge, staleness, ttl};
use hx_directives::{Directive, Directives, MaxStale, Seconds};
use hx_fields::Fields;
use std::alloc::AllocError;

fn write_seconds(text: &mut String, seconds: Seconds) -> Result<(), AllocError> {
    match seconds {
        Seconds::Absent => text.push_str("absent"),
        Seconds::Bad => text.push_str("bad"),
        Seconds::Repeated => text.push_str("repeated"),
        Seconds::Value(seconds) => write!(text, "{seconds}"),
    }
}

fn write_max_stale(text: &mut String, accepted: MaxStale) -> Result<(), AllocError> {
    match accepted {
        MaxStale::Absent => text.push_str("none"),
        MaxStale::Any => text.push_str("any"),
        MaxStale::UpTo(seconds) => write!(text, "up to {seconds}"),
    }
}

fn write_presence(text: &mut String, is_there: bool) -> Result<(), AllocError> {
    text.push_str(if is_there { "present" } else { "absent" })
}

/// Writes what is told of the directive that a line names.
fn write_directive(text: &mut String, which: Line<'_>, found: &Directives) -> Result<(), Fault> {
    match which.text {
        "seconds of max-age" => write_seconds(text, found.seconds(Directive::MaxAge))?,
        "seconds of s-maxage" => write_seconds(text, found.seconds(Directive::SMaxage))?,
        "max-stale" => write_max_stale(text, found.max_stale())?,
        "private" => write_presence(text, found.has(Directive::Private))?,
        "no-store" => write_presence(text, found.has(Directive::NoStore))?,
        "no-cache" => write_presence(text, found.has(Directive::NoCache))?,
        _ => return Err(which.fault("no directive that is told of")),
    }
    Ok(())
}

/// What is told of the directive that the front names.
pub fn directives(text: &mut String, front: &[Line<'_>], case: &Case<'_>) -> Result<(), Fault> {
    let [which] = front else {
        return Err(case.label.fault("the group's front names no directive"));
    };
    let fields = fields_of(*text.allocator(), case.input)?;
    let found = Directives::of(*text.allocator(), &fields)?;
    write_directive(text, *which, &found)
}

/// When a response was asked for and when it came, and when a purge expired it: `asked for at 105, came at 110`, and
/// perhaps `, purged at 120`.
fn moments_of(text: &str) -> Option<(u64, u64, Option<u64>)> {
    let (text, purged_at) = before_purge(text)?;
    let (asked, came) = text
        .strip_prefix("asked for at ")?
        .split_once(", came at ")?;
    let (asked, came) = (asked.parse::<u64>().ok()?, came.parse::<u64>().ok()?);
    Some((asked, came, purged_at))
}

fn lifetime_of(fields: &Fields, directives: &Directives) -> Lifetime
    requires { directives.now ≡ occurrences_of fields.now }
{
    Lifetime::of(fields, directives)
}

fn write_age(text: &mut String, lifetime: Lifetime, age: u32) -> Result<(), AllocError> {
    if lifetime.explicit {
        write!(text, "age {age}, lifetime {}", lifetime.seconds)?;
    } else {
        write!(text, "age {age}, no lifetime")?;
    }
    write!(text, ", ttl {}", ttl(lifetime, age))?;
    if is_fresh(lifetime, age) {
        text.push_str(", fresh")
    } else {
        write!(text, ", stale by {}", staleness(lifetime, age))
    }
}

fn write_age_at(text: &mut String, response: &Part<'_>, now: u64) -> Result<(), Fault> {
    let Some((asked, came, purged_at)) = moments_of(response.head.text) else {
        return Err(
            response
                .head
                .fault("not `asked for at SECOND, came at SECOND`"),
        );
    };
    let times = purged(Times::of(&response.fields, asked, came), purged_at);
    let directives = Directives::of(*text.allocator(), &response.fields)?;
    let lifetime = lifetime_shortened_by_purge(&times, lifetime_of(&response.fields, &directives));
    Ok(write_age(text, lifetime, current_age(&times, now))?)
}

/// How old and how fresh a response is at a moment.
pub fn ages(text: &mut String, label: Line<'_>, parts: &[Part<'_>]) -> Result<(), Fault> {
    let [response, moment] = parts else {
        return Err(label.fault("not a response and a moment"));
    };
    if moment.fields.len() > 0 {
        return Err(moment.head.fault("field lines behind a moment"));
    }
    let second = moment.head.text.strip_prefix("at ").unwrap_or("");
    let Ok(now) = second.parse::<u64>() else {
        return Err(moment.head.fault("not `at SECOND`"));
    };
    write_age_at(text, response, now)
}
