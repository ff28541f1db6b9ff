//! What the table says of requests with cookies that its lines name: each function's contract is a law, and its body is
//! empty.
ghost use Rattle.std.specs.Prelude.{◌≡◌, ◌||◌, ◌++◌, ◌∷◌, List, [], ℕ, true, bytes_eq};
ghost use Rattle.std.specs.List.{list_any, list_all};
ghost use Rattle.hx_fields.specs.Line.{Field};
ghost use Rattle.hx_target.specs.declared.targets.Target.{Target};
ghost use Rattle.hx_allow.specs.Cookies.{has_cookie_among, line_has_cookie_among, CookiePair, is_cookie_pair};
ghost use Rattle.hx_allow.specs.Cookies.{cookie_field_value};
ghost use Rattle.hx_allow.specs.TableLines.{Table};
ghost use Rattle.hx_allow.specs.Matching.{session_cookies_of, route_over_line, verdict_of, verdict_of_request};
ghost use Rattle.hx_allow.specs.declared.verdicts.RouteOverLine.{RouteOverLine};
ghost use Rattle.hx_allow.specs.declared.verdicts.Verdict.TheVariants.{Allowed};

/// A line of Cookie that is written as RFC 6265, section 4.2.1 says is read so: it has a cookie of some names exactly
/// where one of its pairs has one of them, byte by byte. Several lines count together, and no names are none of them.
pub fn a_cookie_field_is_read_as_it_is_written()
    ensures written { (names : List (List ℕ)) (pair : CookiePair) (more : List CookiePair)
        → list_all is_cookie_pair (pair ∷ more) ≡ true → line_has_cookie_among names (cookie_field_value pair more)
        ≡ list_any (λ (p : CookiePair). list_any (λ name. bytes_eq name p.name) names) (pair ∷ more) }
    ensures together { (names : List (List ℕ)) (fields more : List Field) → has_cookie_among names (fields ++ more)
        ≡ (has_cookie_among names fields || has_cookie_among names more) }
{}

/// A request that is allowed goes over the line that its method and its target say, and past the store exactly where it
/// has one of the cookies that the line names. Over a line that names none each goes as before.
pub fn a_request_goes_past_the_store_by_its_cookies()
    ensures exactly { (table : Table) (method : List ℕ) (target : Target) (fields : List Field) (route : RouteOverLine)
        → verdict_of_request table method target fields ≡ Allowed route
        → route.past_store ≡ has_cookie_among (session_cookies_of table.lines route.number) fields }
    ensures line { (table : Table) (method : List ℕ) (target : Target) (fields : List Field) (route : RouteOverLine)
        → verdict_of_request table method target fields ≡ Allowed route
        → verdict_of table.lines method target ≡ Allowed (route_over_line route.number) }
    ensures without { (table : Table) (method : List ℕ) (target : Target) (fields : List Field) (route : RouteOverLine)
        → session_cookies_of table.lines route.number ≡ []
        → verdict_of_request table method target fields ≡ Allowed route → route ≡ route_over_line route.number }
{}
