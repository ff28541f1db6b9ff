//! The tags that a response names, and the one that a request to purge asks for. No function here allocates.
ghost use Rattle.std.specs.Prelude.{◌≡◌, ◌==◌, ◌||◌, not, length, is_some};
ghost use Rattle.std.specs.List.{list_all};
ghost use Rattle.std.specs.Option.{option_copied};
ghost use Rattle.hx_fields.specs.Names.{is_blank, members_of_value};
ghost use Rattle.hx_allow.specs.Tags.{is_cache_tag, purge_tag_of_request, purge_tag_or_none};
ghost use Rattle.hx_allow.specs.Tags.{comparisons_left_unless_found, comparisons_left_behind_fields};
ghost use Rattle.hx_allow.specs.Tags.{response_names_tag};

use hx_fields::{Field, Fields, is_same_name, next_member};

/// How many tags of a response are looked at.
const MOST_TAGS: usize = 64;

fn may_stand_in_a_tag(b: u8) -> bool
    ensures { result ≡ not (is_blank b || (b == 44)) }
{
    b != b' ' && b != b'\t' && b != b','
}

fn may_stand_in_tags(text: &[u8]) -> bool
    ensures { result ≡ list_all (λ b. not (is_blank b || (b == 44))) text.now }
{
    text.iter().all(|b| may_stand_in_a_tag(*b))
}

/// Whether a text may be a tag.
fn is_cache_tag(text: &[u8]) -> bool
    ensures { result ≡ is_cache_tag text.now }
{
    !text.is_empty() && may_stand_in_tags(text)
}

/// Whether the lines of a request ask for one tag, or for none.
pub(crate) fn asks_for_one_purge_tag_or_none(fields: &Fields) -> bool
    ensures { result ≡ is_some (purge_tag_of_request fields.now) }
{
    match fields.value(b"Purge-Tag") {
        None => true,
        Some(_) => purge_tag_or_none(fields).is_some(),
    }
}

/// The tag that a request to purge asks for.
pub fn purge_tag_or_none(fields: &Fields) -> Option<&[u8]>
    ensures { option_copied result ≡ purge_tag_or_none fields.now }
{
    match fields.only_value(b"Purge-Tag") {
        None => None,
        Some(value) => {
            if is_cache_tag(value) {
                Some(value)
            } else {
                None
            }
        }
    }
}

/// How many more members may be looked at after those of this value, unless one of them is the tag or they are too
/// many.
fn comparisons_left_unless_found(tag: &[u8], value: &[u8], left: usize) -> Option<usize>
    ensures { result ≡ comparisons_left_unless_found tag.now left (members_of_value value.now) }
{
    let mut rest = value;
    let mut left = left;
    while let Some((member, behind)) = next_member(rest) {
        if left == 0 || tag == member {
            return None;
        }
        left -= 1;
        rest = behind;
    }
    Some(left)
}

fn comparisons_left_behind_fields(tag: &[u8], fields: &[Field]) -> Option<usize>
    ensures { result ≡ comparisons_left_behind_fields tag.now 64 fields.now }
{
    let mut left = MOST_TAGS;
    for line in fields {
        if is_same_name(line.name(), b"Cache-Tag") {
            left = comparisons_left_unless_found(tag, line.value(), left)?;
        }
    }
    Some(left)
}

/// Whether the lines of a response name a tag. At most 64 members of Cache-Tag are looked at: of more each is named.
pub fn response_names_tag(tag: &[u8], fields: &Fields) -> bool
    ensures { result ≡ response_names_tag tag.now fields.now }
{
    comparisons_left_behind_fields(tag, fields.as_slice()).is_none()
}
