//! What an operator reads of each fault, computed from the rows of the keys: each function's
//! contract is the cases, and its body is empty.
ghost use Rattle.std.specs.Prelude.{◌≡◌, ℕ, List, codes};
ghost use Rattle.hx_allow.specs.FaultTexts.{fault_text, requirement_of_fault};
ghost use Rattle.hx_allow.specs.declared.config_faults.TableFault.TheVariants.{NotToml, UnknownKey, BadName};
ghost use Rattle.hx_allow.specs.declared.config_faults.TableFault.TheVariants.{BadNumber};
ghost use Rattle.hx_allow.specs.declared.config_faults.TableFault.TheVariants.{BadHost, BadMethod, BadPath, BadOrigin};
ghost use Rattle.hx_allow.specs.declared.config_faults.TableFault.TheVariants.{NoLines, OutOfMemory, BadCache};
ghost use Rattle.hx_allow.specs.declared.config_faults.TableFault.TheVariants.{BadWord, MethodInLowerCase, StarInPath};
ghost use Rattle.hx_allow.specs.declared.config_faults.LineOption.TheVariants.{Lifetime, ErrorLifetime, StaleIfError};
ghost use Rattle.hx_allow.specs.declared.config_faults.LineOption.TheVariants.{SetCookie, Errors, RequestDirectives};
ghost use Rattle.hx_allow.specs.declared.config_faults.LineOption.TheVariants.{Wait, Explain, Conditions};
ghost use Rattle.hx_allow.specs.declared.config_faults.LineOption.TheVariants.{LifetimeMost, Cookies, Loops};
ghost use Rattle.hx_allow.specs.declared.config_faults.LineOption.TheVariants.{SessionCookies, StaleWhileRevalidate};
ghost use Rattle.hx_allow.specs.declared.config_faults.LineOption.TheVariants.{Vary, WaitTimeout};
ghost use Rattle.hx_allow.specs.declared.config_faults.LineOption.TheVariants.{OriginTimeout, PurgeKey, Ranges};
ghost use Rattle.hx_allow.specs.declared.config_faults.NumberKey.TheVariants.{Version, Capacity, MaxBody, MaxStored};
ghost use Rattle.hx_allow.specs.declared.config_faults.NumberKey.TheVariants.{MaxStore};

/// What has to stand at the top of a table.
pub fn worked_requirements_at_the_top()
    ensures not_toml { requirement_of_fault NotToml ≡ codes "the table is no TOML, has a key twice, or has more than 1048576 bytes; look for a quote or bracket that is missing" }
    ensures unknown_key { (key : List ℕ) → requirement_of_fault (UnknownKey key) ≡ codes "a key isn't known where it stands; correct its spelling or delete it: behind [[line]] keys belong to that line; cache needs version = 2, 3 or 4, lifetime, stale-if-error, set-cookie, errors, request-directives, wait and explain need version = 3 or 4, and max_store, error-lifetime, lifetime-most, cookies, session-cookies, conditions, loops, stale-while-revalidate, vary, origin-timeout, key, ranges and wait-timeout need version = 4" }
    ensures bad_name { requirement_of_fault BadName ≡ codes "name has to be a lower-case letter and at most 31 of a-z, 0-9 and -, in quotes" }
    ensures no_lines { requirement_of_fault NoLines ≡ codes "a table has 1 to 256 lines, or 1 to 4096 in version 4, each of which begins with [[line]]" }
    ensures out_of_memory { requirement_of_fault OutOfMemory ≡ codes "no memory is left for the table" }
    ensures version { requirement_of_fault (BadNumber Version) ≡ codes "version has to be 1, 2, 3 or 4, without quotes" }
    ensures capacity { requirement_of_fault (BadNumber Capacity) ≡ codes "capacity has to be a whole number from 1 to 65536, without quotes" }
    ensures max_body { requirement_of_fault (BadNumber MaxBody) ≡ codes "max_body has to be a whole number from 0 to 16777216, without quotes" }
    ensures max_stored { requirement_of_fault (BadNumber MaxStored) ≡ codes "max_stored has to be a whole number from 0 to 16777216, without quotes" }
    ensures max_store { requirement_of_fault (BadNumber MaxStore) ≡ codes "max_store has to be a whole number from 65536 to 1099511627776, without quotes, and no less than max_stored" }
{}

/// What has to stand in a line.
pub fn worked_requirements_of_line_keys()
    ensures bad_host { (line : ℕ) → requirement_of_fault (BadHost line) ≡ codes "host has to be \"*\" or one host in lower case, without a port, an IPv6 address in brackets; in version 4 also \"*.\" and a name for the hosts below it, or a list of 1 to 32 of these" }
    ensures bad_method { (line : ℕ) → requirement_of_fault (BadMethod line) ≡ codes "methods has to be a list of 1 to 32, each \"*\" or a method of at most 15 bytes, but not CONNECT, TRACE or OPTIONS" }
    ensures bad_path { (line : ℕ) → requirement_of_fault (BadPath line) ≡ codes "path has to begin with / and not to end with it, but for / itself; no ?, #, blank, byte above 7E, segment . or .., or % without two hexadecimal digits behind it; in version 4 also a list of 1 to 32 of these" }
    ensures bad_origin { (line : ℕ) → requirement_of_fault (BadOrigin line) ≡ codes "origin has to be \"deny\" or an IPv4 address and a port, as in \"127.0.0.1:8081\"; in version 4 also \"purge\"" }
    ensures method_in_lower_case { (line : ℕ) → requirement_of_fault (MethodInLowerCase line) ≡ codes "a method has a letter in lower case; methods compare with their case, so write GET and not get" }
    ensures star_in_path { (line : ℕ) → requirement_of_fault (StarInPath line) ≡ codes "path has a *, which is that character and no pattern; leave it out: a path matches itself and all below it" }
    ensures bad_cache { (line : ℕ) → requirement_of_fault (BadCache line) ≡ codes "cache has to be \"on\" or \"off\", and not to stand in a line that denies or purges" }
{}

/// What has to stand at a word of version 3 or 4.
pub fn worked_requirements_of_word_keys()
    ensures lifetime { (line : ℕ) → requirement_of_fault (BadWord line Lifetime) ≡ codes "lifetime has to be a whole number of seconds from 1 to 2147483648, without quotes, in a line that has an origin and its cache on" }
    ensures error_lifetime { (line : ℕ) → requirement_of_fault (BadWord line ErrorLifetime) ≡ codes "error-lifetime has to be a whole number of seconds from 1 to 2147483648, without quotes, in a line that has an origin and its cache on" }
    ensures lifetime_most { (line : ℕ) → requirement_of_fault (BadWord line LifetimeMost) ≡ codes "lifetime-most has to be a whole number of seconds from 1 to 2147483648, without quotes, in a line that has an origin and its cache on" }
    ensures stale_if_error { (line : ℕ) → requirement_of_fault (BadWord line StaleIfError) ≡ codes "stale-if-error has to be a whole number of seconds from 0 to 2147483648, without quotes, in a line that has an origin and its cache on" }
    ensures set_cookie { (line : ℕ) → requirement_of_fault (BadWord line SetCookie) ≡ codes "set-cookie has to be \"stored\" or \"not-stored\", in version 4 also \"removed\", in a line that has an origin and its cache on" }
    ensures cookies { (line : ℕ) → requirement_of_fault (BadWord line Cookies) ≡ codes "cookies has to be \"private\" or \"shared\", in a line that has an origin and its cache on" }
    ensures session_cookies { (line : ℕ) → requirement_of_fault (BadWord line SessionCookies) ≡ codes "session-cookies has to be a list of 1 to 16 names, each of letters, digits and !#$%&'*+-.^_`|~, but not \"*\", in a line that has an origin and its cache on" }
    ensures errors { (line : ℕ) → requirement_of_fault (BadWord line Errors) ≡ codes "errors has to be \"stored\" or \"not-stored\", in a line that has an origin and its cache on" }
    ensures request_directives { (line : ℕ) → requirement_of_fault (BadWord line RequestDirectives) ≡ codes "request-directives has to be \"heeded\" or \"ignored\", in a line that has an origin and its cache on" }
    ensures wait { (line : ℕ) → requirement_of_fault (BadWord line Wait) ≡ codes "wait has to be \"missing\" or \"missing-or-stale\", in a line that has an origin and its cache on" }
    ensures explain { (line : ℕ) → requirement_of_fault (BadWord line Explain) ≡ codes "explain has to be \"reuse\" or \"storing\", in a line that has an origin and its cache on" }
    ensures conditions { (line : ℕ) → requirement_of_fault (BadWord line Conditions) ≡ codes "conditions has to be \"answered\" or \"forwarded\", in a line that has an origin and its cache on" }
    ensures stale_while_revalidate { (line : ℕ) → requirement_of_fault (BadWord line StaleWhileRevalidate) ≡ codes "stale-while-revalidate has to be a whole number of seconds from 0 to 2147483648, without quotes, in a line that has an origin and its cache on" }
    ensures vary { (line : ℕ) → requirement_of_fault (BadWord line Vary) ≡ codes "vary has to be a list of 1 to 8 names, each of letters, digits and !#$%&'*+-.^_`|~, but not \"*\", in a line that has an origin and its cache on" }
    ensures origin_timeout { (line : ℕ) → requirement_of_fault (BadWord line OriginTimeout) ≡ codes "origin-timeout has to be a whole number of seconds from 1 to 86400, without quotes, and not to stand in a line that denies or purges" }
    ensures key { (line : ℕ) → requirement_of_fault (BadWord line PurgeKey) ≡ codes "key has to be 16 to 64 letters and digits, in quotes, in a line with origin = \"purge\" and in no other" }
    ensures ranges { (line : ℕ) → requirement_of_fault (BadWord line Ranges) ≡ codes "ranges has to be \"served\", \"forwarded\" or \"filled\", in a line that has an origin and its cache on" }
    ensures wait_timeout { (line : ℕ) → requirement_of_fault (BadWord line WaitTimeout) ≡ codes "wait-timeout has to be a whole number of seconds from 1 to 86400, without quotes, in a line that has an origin and its cache on" }
    ensures loops { (line : ℕ) → requirement_of_fault (BadWord line Loops) ≡ codes "loops has to be \"refused\" or \"forwarded\", and not to stand in a line that denies or purges" }
{}

/// A fault of a line begins with its number.
pub fn worked_places_of_faults()
    ensures of_a_line { fault_text (BadOrigin 12) ≡ codes "in [[line]] number 12 origin has to be \"deny\" or an IPv4 address and a port, as in \"127.0.0.1:8081\"; in version 4 also \"purge\"" }
    ensures of_a_path { fault_text (StarInPath 2) ≡ codes "in [[line]] number 2 path has a *, which is that character and no pattern; leave it out: a path matches itself and all below it" }
    ensures of_the_table { fault_text NoLines ≡ codes "a table has 1 to 256 lines, or 1 to 4096 in version 4, each of which begins with [[line]]" }
{}
