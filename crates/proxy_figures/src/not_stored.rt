//! Answers that weren't stored, by storing rule: those of a line of the table that tells it.
ghost use Rattle.std.specs.Prelude.{◌≡◌};
ghost use Rattle.hx_storable.specs.StoringRuleNames.{storing_rule_word};
ghost use Rattle.proxy_figures.specs.NotStored.{storing_rule_place};

use hx_storable::StoreRule;

/// All of them, each at its place.
pub(crate) const ALL_STORING_RULES: &[StoreRule] = &[
    StoreRule::Operator,
    StoreRule::Method,
    StoreRule::Bypass,
    StoreRule::Status,
    StoreRule::MustUnderstand,
    StoreRule::ResponseNoStore,
    StoreRule::RequestNoStore,
    StoreRule::Private,
    StoreRule::Authorization,
    StoreRule::NothingAllows,
    StoreRule::VaryStar,
    StoreRule::ConnectionField,
    StoreRule::NothingToReuse,
    StoreRule::TooLarge,
    StoreRule::Overtaken,
    StoreRule::Serials,
    StoreRule::SetCookie,
    StoreRule::ErrorStatus,
    StoreRule::RequestCookie,
];

/// How many there are.
pub(crate) const STORING_RULE_COUNT: usize = ALL_STORING_RULES.len();

/// Where the answers of a storing rule are counted.
pub(crate) fn storing_rule_place(rule: StoreRule) -> usize
    ensures { result ≡ storing_rule_place rule }
{
    match rule {
        StoreRule::Operator => 0,
        StoreRule::Method => 1,
        StoreRule::Bypass => 2,
        StoreRule::Status => 3,
        StoreRule::MustUnderstand => 4,
        StoreRule::ResponseNoStore => 5,
        StoreRule::RequestNoStore => 6,
        StoreRule::Private => 7,
        StoreRule::Authorization => 8,
        StoreRule::NothingAllows => 9,
        StoreRule::VaryStar => 10,
        StoreRule::ConnectionField => 11,
        StoreRule::NothingToReuse => 12,
        StoreRule::TooLarge => 13,
        StoreRule::Overtaken => 14,
        StoreRule::Serials => 15,
        StoreRule::SetCookie => 16,
        StoreRule::ErrorStatus => 17,
        StoreRule::RequestCookie => 18,
    }
}

/// The word of a storing rule.
pub(crate) fn storing_rule_name(rule: StoreRule) -> &'static str
    ensures { result.now ≡ storing_rule_word rule }
{
    match rule {
        StoreRule::Operator => "operator",
        StoreRule::Method => "method",
        StoreRule::Bypass => "bypass",
        StoreRule::Status => "status",
        StoreRule::MustUnderstand => "must-understand",
        StoreRule::ResponseNoStore => "no-store",
        StoreRule::RequestNoStore => "request-no-store",
        StoreRule::Private => "private",
        StoreRule::Authorization => "authorization",
        StoreRule::NothingAllows => "nothing-allows",
        StoreRule::VaryStar => "vary-star",
        StoreRule::ConnectionField => "connection-field",
        StoreRule::NothingToReuse => "no-lifetime",
        StoreRule::TooLarge => "too-large",
        StoreRule::Overtaken => "overtaken",
        StoreRule::Serials => "no-serial",
        StoreRule::SetCookie => "set-cookie",
        StoreRule::ErrorStatus => "error-status",
        StoreRule::RequestCookie => "request-cookie",
    }
}
