//! The directives of one message.
//!
//! They are read once, in order; each question is answered over the whole list.

ghost use Rattle.std.specs.Prelude.{◌≡◌, ◌++◌, ◌∷◌, [], IfOk, OnOk, MatchOption};
ghost use Rattle.std.specs.List.{filter_map};
ghost use Rattle.hx_fields.specs.Names.{members_of_value};
ghost use Rattle.hx_directives.specs.Occurrences.{occurrence_of_member, directives_of_field_line, occurrences_of};
ghost use Rattle.hx_directives.specs.Answers.{directive_occurs, arguments_of_directive, seconds_of_directive};
ghost use Rattle.hx_directives.specs.Answers.{first_valid_seconds};
ghost use Rattle.hx_directives.specs.Answers.{max_stale};

use crate::answers::{MaxStale, Seconds};
use crate::arguments::Argument;
use crate::limits::SHORTEST_DIRECTIVE_NAME_BYTES;
use crate::names::Directive;
use crate::occurrences::{Occurrence, occurrence_of_member};
use hx_fields::{Field, Fields, is_same_name, next_long_member};
use smallvec::SmallVec;
use std::alloc::{AllocError, Global};
use std::marker::Model;

/// The directives of a message. Two take no memory of their own: most messages have no more.
#[derive(Drop)]
pub struct Directives {
    found: SmallVec<Occurrence, 2>,
}

impl Model for Directives {
    ghost use Rattle.std.specs.Prelude.{List};
    ghost use Rattle.hx_directives.specs.declared.occurrences.Occurrence.{Occurrence};

    ghost Value = { List Occurrence };

    ghost view = { λ d. d.found.items };
}

impl Directives {
    /// Those that occur in a message's Cache-Control lines. Fails only where memory runs out.
    pub fn of(alloc: Global, fields: &Fields) -> Result<Directives, AllocError>
        ensures { IfOk result (λ d. d ≡ occurrences_of fields.now) }
    {
        let mut found = SmallVec::new(alloc);
        for line in fields.as_slice() {
            push_line(alloc, &mut found, line)?;
        }
        Ok(Directives { found })
    }

    /// Whether a directive occurs, whatever its argument.
    pub fn has(&self, directive: Directive) -> bool
        ensures { result ≡ directive_occurs self.now directive }
    {
        self.found
            .as_slice()
            .iter()
            .any(|o| o.directive == directive)
    }

    /// The seconds of a directive that is to occur once.
    pub fn seconds(&self, directive: Directive) -> Seconds
        ensures { result ≡ seconds_of_directive self.now directive }
    {
        match first_argument_of(self.found.as_slice(), directive) {
            None => Seconds::Absent,
            Some((argument, rest)) => match first_argument_of(rest, directive) {
                Some(_) => Seconds::Repeated,
                None => match argument {
                    Argument::Delta(n) => Seconds::Value(n),
                    _ => Seconds::Bad,
                },
            },
        }
    }

    /// The first valid seconds of a directive; invalid ones are ignored.
    pub fn first_valid_seconds(&self, directive: Directive) -> Option<u32>
        ensures { result ≡ first_valid_seconds self.now directive }
    {
        for o in self.found.as_slice() {
            if let Argument::Delta(n) = o.argument {
                if o.directive == directive {
                    return Some(n);
                }
            }
        }
        None
    }

    /// How stale a response a request accepts.
    pub fn max_stale(&self) -> MaxStale
        ensures { result ≡ max_stale self.now }
    {
        for o in self.found.as_slice() {
            if o.directive == Directive::MaxStale {
                match o.argument {
                    Argument::Absent => return MaxStale::Any,
                    Argument::Delta(n) => return MaxStale::UpTo(n),
                    Argument::Other => {}
                }
            }
        }
        MaxStale::Absent
    }

    /// A copy. Fails only where memory runs out.
    pub fn copy(&self, alloc: Global) -> Result<Directives, AllocError>
        ensures { IfOk result (λ d. d ≡ self.now) }
    {
        Ok(Directives {
            found: SmallVec::from_slice(alloc, self.found.as_slice())?,
        })
    }
}

/// Puts the directives of a line at the end; another line than Cache-Control has none.
fn push_line(
    alloc: Global,
    found: &mut SmallVec<Occurrence, 2>,
    line: &Field,
) -> Result<(), AllocError>
    ensures { OnOk result (found.new.items ≡ found.old.items ++ directives_of_field_line line.now) }
{
    if is_same_name(line.name(), b"Cache-Control") {
        push_value(alloc, found, line.value())?;
    }
    Ok(())
}

/// Puts the directives of a line's value at the end.
fn push_value(
    alloc: Global,
    found: &mut SmallVec<Occurrence, 2>,
    value: &[u8],
) -> Result<(), AllocError>
    ensures { OnOk result
        (found.new.items ≡ found.old.items ++ filter_map occurrence_of_member (members_of_value value.now)) }
{
    let mut rest = value;
    while let Some((member, after)) = next_long_member(rest, SHORTEST_DIRECTIVE_NAME_BYTES) {
        if let Some(occurrence) = occurrence_of_member(alloc, member)? {
            found.push(occurrence)?;
        }
        rest = after;
    }
    Ok(())
}

/// The first argument of a directive, and the occurrences after it.
fn first_argument_of(
    found: &[Occurrence],
    directive: Directive,
) -> Option<(Argument, &[Occurrence])>
    ensures { MatchOption result (arguments_of_directive found.now directive ≡ [])
        (λ r. arguments_of_directive found.now directive ≡ r.0 ∷ arguments_of_directive r.1.now directive) }
{
    for (i, o) in found.iter().enumerate() {
        if o.directive == directive {
            return Some((o.argument, &found[i + 1..]));
        }
    }
    None
}
