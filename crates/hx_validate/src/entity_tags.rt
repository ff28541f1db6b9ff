//! Entity tags, and when two are equal (RFC 9110, section 8.8.3).
//!
//! The grammar and both comparisons are in `specs/EntityTags.antt`. No function here takes memory.
ghost use Rattle.std.specs.Prelude.{◌≡◌, option_copied, option_map, is_some};
ghost use Rattle.std.specs.List.{list_all};
ghost use Rattle.hx_validate.specs.EntityTags.{without_first_and_last, is_tag_byte, opaque_tag_of, strong_eq};
ghost use Rattle.hx_validate.specs.EntityTags.{entity_tag_of, tagged, weak_eq};

/// An entity tag of a field value.
#[derive(Clone, Copy)]
pub(crate) struct EntityTag<'a> {
    pub(crate) weak: bool,
    /// What stands between the quotes.
    pub(crate) opaque: &'a [u8],
}

impl<'a> EntityTag<'a> {
    /// The entity tag that a value is, if it is one.
    pub(crate) fn of(value: &'a [u8]) -> Option<EntityTag<'a>>
        ensures { option_map (λ tag. tagged tag.weak tag.opaque.now) result ≡ entity_tag_of value.now }
    {
        match value.strip_prefix(b"W/") {
            Some(rest) => EntityTag::with(true, rest),
            None => EntityTag::with(false, value),
        }
    }

    fn with(weak: bool, text: &'a [u8]) -> Option<EntityTag<'a>>
        ensures { option_map (λ tag. tagged tag.weak tag.opaque.now) result
            ≡ option_map (tagged weak) (opaque_tag_of text.now) }
    {
        match opaque_tag_of(text) {
            Some(opaque) => Some(EntityTag { weak, opaque }),
            None => None,
        }
    }
}

/// What stands between the quotes of an opaque tag.
fn opaque_tag_of(text: &[u8]) -> Option<&[u8]>
    ensures { option_copied result ≡ opaque_tag_of text.now }
{
    match text {
        [b'"', opaque @ .., b'"'] if are_tag_bytes(opaque) => Some(opaque),
        _ => None,
    }
}

fn are_tag_bytes(text: &[u8]) -> bool
    ensures { result ≡ list_all is_tag_byte text.now }
{
    text.iter().all(|b| is_tag_byte(*b))
}

fn is_tag_byte(b: u8) -> bool
    ensures { result ≡ is_tag_byte b }
{
    b == 0x21 || (0x23 <= b && b <= 0x7e) || 0x80 <= b
}

/// Whether two values are entity tags, neither weak, with equal opaque parts (RFC 9110, section 8.8.3.2).
pub fn strong_eq(a: &[u8], b: &[u8]) -> bool
    ensures { result ≡ strong_eq a.now b.now }
{
    match (EntityTag::of(a), EntityTag::of(b)) {
        (Some(a), Some(b)) => !a.weak && !b.weak && a.opaque == b.opaque,
        _ => false,
    }
}

/// Whether two values are entity tags with equal opaque parts, weak or not (RFC 9110, section 8.8.3.2).
pub fn weak_eq(a: &[u8], b: &[u8]) -> bool
    ensures { result ≡ weak_eq a.now b.now }
{
    match (EntityTag::of(a), EntityTag::of(b)) {
        (Some(a), Some(b)) => a.opaque == b.opaque,
        _ => false,
    }
}
