//! A request that went forward, or waits for the answer to another, and isn't answered yet.
ghost use Rattle.std.specs.Prelude.{◌≡◌, Some};
ghost use Rattle.proxy_core.specs.LeadingOn.{waiter_after_abandon};
ghost use Rattle.proxy_core.specs.Scopes.{scope_without_tag, scope_of_target_alone};
ghost use Rattle.proxy_core.specs.State.{exchange_gone_forward, exchange_overtaken_if_in_scope};
ghost use Rattle.proxy_core.specs.State.{exchange_released_from_leader, exchange_released_by_timeout};

use crate::open::as_next_leader::{NextLeader, stage_after_leader};
use crate::open::leading::waits_for;
use crate::open::stage::Stage;
use crate::steps::condition::Condition;
use hx_allow::{PurgeScope, RouteOverLine, Table};
use hx_hop::Asked;
use hx_reuse::ReuseRule;
use hx_target::Key;
use hx_vary::FieldNames;

/// An open exchange.
pub struct Exchange {
    pub id: u64,
    pub asked: Asked,
    /// The line of the table that allowed it, and whether it goes past the store over that.
    pub line: RouteOverLine,
    /// The fields that count as if the Vary of its answer named them: those of its line when it arrived.
    pub vary: FieldNames,
    /// What is stored of its answer has no Set-Cookie, as its line said when it arrived (RFC 9111, section 7.3).
    pub removes_set_cookie: bool,
    /// The rule at arrival, or when it was woken. It is named in the answer even if the store has changed since.
    pub rule: ReuseRule,
    /// The held response that this rule names.
    pub named: Option<u64>,
    /// When it last went forward, or began to wait, in Unix seconds (RFC 9111, section 4.2.3: request_time).
    pub request_time: u64,
    /// The held response that its latest request asks about, with the proxy's conditions.
    pub condition: Option<Condition>,
    /// Whether its key was invalidated since (RFC 9111, section 4.4).
    pub overtaken: bool,
    /// Whether the request has no-store: its answer isn't stored (RFC 9111, section 5.2.1.5).
    pub no_store: bool,
    pub stage: Stage,
}

impl Exchange {
    /// Its request.
    pub(crate) fn into_request_view(self) -> Asked
        ensures { result ≡ self.asked }
    {
        let Exchange {
            id: _,
            asked,
            line: _,
            vary: _,
            removes_set_cookie: _,
            rule: _,
            named: _,
            request_time: _,
            condition: _,
            overtaken: _,
            no_store: _,
            stage: _,
        } = self;
        asked
    }

    /// Its request goes forward, with this rule, the held response that it names, and these conditions of the proxy.
    pub(crate) fn go_forward(
        &mut self,
        now: u64,
        rule: ReuseRule,
        named: Option<u64>,
        condition: Option<Condition>,
    )
        ensures { self.new ≡ exchange_gone_forward now rule named condition self.old }
    {
        self.rule = rule;
        self.named = named;
        self.request_time = now;
        self.condition = condition;
        self.overtaken = false;
        self.stage = Stage::Forwarded;
    }

    /// It waits no longer, if it waited for the exchange of this id.
    pub(crate) fn release(&mut self, leader: u64)
        ensures { self.new ≡ exchange_released_from_leader leader self.old }
    {
        if waits_for(self.stage, leader) {
            self.stage = Stage::Released;
        }
    }

    /// The client of the exchange of this id has gone. If it waited for that one it waits for the next leader, or may
    /// be woken.
    pub(crate) fn lead_on(&mut self, config: &Table, next: NextLeader, leader: u64)
        ensures { self.new ≡ waiter_after_abandon config.now (Some next) leader self.old }
    {
        if waits_for(self.stage, leader) {
            self.stage = stage_after_leader(config, next, self);
        }
    }

    /// Its time to wait is over.
    pub(crate) fn stop_waiting(&mut self)
        ensures { self.new ≡ exchange_released_by_timeout self.old }
    {
        self.stage = Stage::Released;
    }

    /// Marks it, if it is of a key that was invalidated (RFC 9111, section 4.4).
    pub(crate) fn overtake(&mut self, key: &Key)
        ensures { self.new ≡ exchange_overtaken_if_in_scope (scope_of_target_alone key.now) self.old }
    {
        if self.asked.target.key.is_same(key) {
            self.overtaken = true;
        }
    }

    /// Marks it, if its target is within the scope of a purge that was asked for a key.
    pub(crate) fn overtake_within(&mut self, reach: PurgeScope, asked: &Key)
        ensures { self.new ≡ exchange_overtaken_if_in_scope (scope_without_tag reach asked.now) self.old }
    {
        if reach.has(asked, &self.asked.target.key) {
            self.overtaken = true;
        }
    }
}

/// One call drops it, wherever that is.
impl Drop for Exchange {
    fn drop(self) {
        let Exchange {
            id: _,
            asked: _,
            line: _,
            vary: _,
            removes_set_cookie: _,
            rule: _,
            named: _,
            request_time: _,
            condition: _,
            overtaken: _,
            no_store: _,
            stage: _,
        } = self;
    }
}
