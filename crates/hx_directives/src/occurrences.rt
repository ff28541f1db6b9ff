//! From members of Cache-Control to directives.

ghost use Rattle.std.specs.Prelude.{◌≡◌, ◌<◌, length, position, IfOk, IfSome, option_copied};
ghost use Rattle.hx_directives.specs.Occurrences.{is_equals_sign, member_name, member_argument, occurrence_of_member};

use crate::arguments::{Argument, seconds_of_argument};
use crate::names::{Directive, directive_of};
use hx_fields::trim_blanks;
use std::alloc::{AllocError, Global};

/// A directive with its argument.
#[derive(Clone, Copy, Debug, Default, PartialEq, Eq)]
pub struct Occurrence {
    pub directive: Directive,
    pub argument: Argument,
}

/// The directive that a member spells.
pub fn occurrence_of_member(alloc: Global, member: &[u8]) -> Result<Option<Occurrence>, AllocError>
    ensures { IfOk result (λ o. o ≡ occurrence_of_member member.now) }
{
    // What is no token spells no directive, since each directive's name is one.
    let (name, argument) = name_and_argument(member);
    match directive_of(name) {
        Some(directive) => Ok(Some(Occurrence {
            directive,
            argument: seconds_of_argument(alloc, argument)?,
        })),
        None => Ok(None),
    }
}

/// The name and the argument of a member.
fn name_and_argument(member: &[u8]) -> (&[u8], Option<&[u8]>)
    ensures name { result.0.now ≡ member_name member.now }
    ensures argument { option_copied result.1 ≡ member_argument member.now }
{
    match index_of_equals(member) {
        Some(i) => (
            trim_blanks(&member[..i]),
            Some(trim_blanks(&member[i + 1..])),
        ),
        None => (trim_blanks(member), None),
    }
}

/// Where the first `=` stands.
fn index_of_equals(member: &[u8]) -> Option<usize>
    ensures first { result ≡ position is_equals_sign member.now }
    ensures within { IfSome result (λ i. i < length member.now) }
{
    member.iter().position(|b| *b == b'=')
}
