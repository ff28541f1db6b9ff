//! How often the Via of a request names a proxy. No function here takes memory.
ghost use Rattle.std.specs.Prelude.{◌≡◌, ◌≤◌, ◌<◌, ◌+◌, ◌^◌, length, nat_le, if◌then◌else◌};
ghost use Rattle.std.specs.List.{prefix_len};
ghost use Rattle.hx_fields.specs.Names.{is_blank};
ghost use Rattle.hx_allow.specs.Via.{via_place_after_byte, is_list_comma_at, is_via_word_byte, without_leading_blanks};
ghost use Rattle.hx_allow.specs.Via.{received_by_of_via_member};
ghost use Rattle.hx_allow.specs.Via.{number_of_enclosing_comments, via_member_names_proxy, times_in_via_line};
ghost use Rattle.hx_allow.specs.Via.{times_in_via};
ghost use Rattle.hx_allow.specs.Via.{via_names_proxy_twice};

use hx_fields::{Field, is_same_name};

/// Where a byte of a line of Via stands.
#[derive(Clone, Copy, PartialEq, Eq)]
pub(crate) enum ViaLineParseState {
    Outside,
    Quoted,
    /// In quotes, behind a backslash.
    QuotedPair,
    /// In a comment that is in so many others.
    Comment(usize),
    /// There, behind a backslash.
    CommentPair(usize),
}

fn place_in_comment(around: usize, b: u8) -> ViaLineParseState
    requires { around + 1 < 2 ^ 64 }
    ensures { result ≡ via_place_after_byte (ViaLineParseState.Comment around) b }
{
    match b {
        b'(' => ViaLineParseState::Comment(around + 1),
        b')' if around == 0 => ViaLineParseState::Outside,
        b')' => ViaLineParseState::Comment(around - 1),
        b'\\' => ViaLineParseState::CommentPair(around),
        _ => ViaLineParseState::Comment(around),
    }
}

/// Where the byte behind this one stands.
fn via_place_after_byte(place: ViaLineParseState, b: u8) -> ViaLineParseState
    requires { number_of_enclosing_comments place + 1 < 2 ^ 64 }
    ensures { result ≡ via_place_after_byte place b }
{
    match place {
        ViaLineParseState::Outside => match b {
            b'"' => ViaLineParseState::Quoted,
            b'(' => ViaLineParseState::Comment(0),
            _ => ViaLineParseState::Outside,
        },
        ViaLineParseState::Quoted => match b {
            b'"' => ViaLineParseState::Outside,
            b'\\' => ViaLineParseState::QuotedPair,
            _ => ViaLineParseState::Quoted,
        },
        ViaLineParseState::QuotedPair => ViaLineParseState::Quoted,
        ViaLineParseState::Comment(around) => place_in_comment(around, b),
        ViaLineParseState::CommentPair(around) => ViaLineParseState::Comment(around),
    }
}

fn is_list_comma_at(place: ViaLineParseState, b: u8) -> bool
    ensures { result ≡ is_list_comma_at place b }
{
    match place {
        ViaLineParseState::Outside => b == b',',
        _ => false,
    }
}

fn is_blank(b: u8) -> bool
    ensures { result ≡ is_blank b }
{
    b == b' ' || b == b'\t'
}

fn is_via_word_byte(b: u8) -> bool
    ensures { result ≡ is_via_word_byte b }
{
    !(is_blank(b) || b == b'(')
}

fn leading_blanks(text: &[u8]) -> usize
    ensures count { result ≡ prefix_len is_blank text.now }
    ensures bound { result ≤ length text.now }
{
    let mut n = 0;
    while n < text.len() && is_blank(text[n]) {
        n += 1;
    }
    n
}

fn word_len(text: &[u8]) -> usize
    ensures count { result ≡ prefix_len is_via_word_byte text.now }
    ensures bound { result ≤ length text.now }
{
    let mut n = 0;
    while n < text.len() && is_via_word_byte(text[n]) {
        n += 1;
    }
    n
}

fn without_leading_blanks(text: &[u8]) -> &[u8]
    ensures { result.now ≡ without_leading_blanks text.now }
{
    &text[leading_blanks(text)..]
}

/// By whom a member says that the request was received.
fn received_by_of_via_member(member: &[u8]) -> &[u8]
    ensures { result.now ≡ received_by_of_via_member member.now }
{
    let protocol = without_leading_blanks(member);
    let rest = without_leading_blanks(&protocol[word_len(protocol)..]);
    &rest[..word_len(rest)]
}

fn via_member_names_proxy(name: &[u8], member: &[u8]) -> bool
    ensures { result ≡ via_member_names_proxy name.now member.now }
{
    is_same_name(received_by_of_via_member(member), name)
}

fn one_if_named(name: &[u8], member: &[u8]) -> usize
    ensures times { result ≡ (if via_member_names_proxy name.now member.now then 1 else 0) }
    ensures bound { result ≤ 1 }
{
    if via_member_names_proxy(name, member) {
        1
    } else {
        0
    }
}

/// How many members of a line name a proxy.
fn times_in_via_line(name: &[u8], value: &[u8]) -> usize
    ensures times { result ≡ times_in_via_line name.now value.now }
    ensures bound { result ≤ length value.now + 1 }
{
    let mut place = ViaLineParseState::Outside;
    let mut start = 0;
    let mut found = 0;
    let mut i = 0;
    while i < value.len() {
        let b = value[i];
        if is_list_comma_at(place, b) {
            found += one_if_named(name, &value[start..i]);
            start = i + 1;
        }
        place = via_place_after_byte(place, b);
        i += 1;
    }
    found + one_if_named(name, &value[start..])
}

/// Whether these lines name a proxy so often, once or twice.
fn is_named(name: &[u8], fields: &[Field], least: usize) -> bool
    requires { (1 ≤ least) × (least ≤ 2) }
    ensures { result ≡ nat_le least (times_in_via name.now fields.now) }
{
    let mut found = 0;
    for line in fields {
        if is_same_name(line.name(), b"Via") {
            found += times_in_via_line(name, line.value());
            if found >= least {
                return true;
            }
        }
    }
    false
}

/// Whether a request with these lines was here twice already.
pub(crate) fn via_names_proxy_twice(name: &[u8], fields: &[Field]) -> bool
    ensures { result ≡ via_names_proxy_twice name.now fields.now }
{
    is_named(name, fields, 2)
}

/// Whether a request with these lines was here already.
pub(crate) fn via_names_proxy(name: &[u8], fields: &[Field]) -> bool
    ensures { result ≡ nat_le 1 (times_in_via name.now fields.now) }
{
    is_named(name, fields, 1)
}
