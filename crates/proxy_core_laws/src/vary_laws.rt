//! Laws on the fields that a line names for Vary. Each function's contract is a law, and its body is empty.
ghost use Rattle.proxy_core_laws.specs.Varied.{SentResponseHasTheRequestsVaryValues};
ghost use Rattle.proxy_core_laws.specs.Varied.{OpenExchangeHasTheVaryNamesOfItsLine};

/// Whoever is sent what was stored over a line that names fields for Vary has the same values of these fields as the
/// request had that it was stored for, or was validated for last (RFC 9111, section 4.1).
pub fn a_sent_response_has_the_requests_vary_values()
    ensures sent { SentResponseHasTheRequestsVaryValues }
    ensures named { OpenExchangeHasTheVaryNamesOfItsLine }
{}
