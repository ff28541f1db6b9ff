//! The directives that a rule reads.
//!
//! Their names are in `specs/Occurrences.antt`. Any other directive is dropped.

ghost use Rattle.std.specs.Prelude.{◌≡◌};
ghost use Rattle.hx_directives.specs.Occurrences.{directive_of};

use hx_fields::is_same_name;

/// A directive of a request or a response (RFC 9111, sections 5.2.1 and 5.2.2; RFC 5861).
#[derive(Clone, Copy, Debug, Default, PartialEq, Eq)]
pub enum Directive {
    /// Also what an unused place of a list holds, which nobody sees.
    #[default]
    MaxAge,
    SMaxage,
    MaxStale,
    MinFresh,
    StaleIfError,
    StaleWhileRevalidate,
    NoCache,
    NoStore,
    OnlyIfCached,
    MustRevalidate,
    ProxyRevalidate,
    MustUnderstand,
    Private,
    Public,
}

/// The directive that a name spells, without case.
pub fn directive_of(name: &[u8]) -> Option<Directive>
    ensures { result ≡ directive_of name.now }
{
    if is_same_name(name, b"max-age") {
        Some(Directive::MaxAge)
    } else if is_same_name(name, b"s-maxage") {
        Some(Directive::SMaxage)
    } else if is_same_name(name, b"max-stale") {
        Some(Directive::MaxStale)
    } else if is_same_name(name, b"min-fresh") {
        Some(Directive::MinFresh)
    } else if is_same_name(name, b"stale-if-error") {
        Some(Directive::StaleIfError)
    } else if is_same_name(name, b"stale-while-revalidate") {
        Some(Directive::StaleWhileRevalidate)
    } else if is_same_name(name, b"no-cache") {
        Some(Directive::NoCache)
    } else if is_same_name(name, b"no-store") {
        Some(Directive::NoStore)
    } else if is_same_name(name, b"only-if-cached") {
        Some(Directive::OnlyIfCached)
    } else if is_same_name(name, b"must-revalidate") {
        Some(Directive::MustRevalidate)
    } else if is_same_name(name, b"proxy-revalidate") {
        Some(Directive::ProxyRevalidate)
    } else if is_same_name(name, b"must-understand") {
        Some(Directive::MustUnderstand)
    } else if is_same_name(name, b"private") {
        Some(Directive::Private)
    } else if is_same_name(name, b"public") {
        Some(Directive::Public)
    } else {
        None
    }
}
