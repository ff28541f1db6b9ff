//! Worked cases of lines and heads, of RFC 9112.
ghost use Rattle.std.specs.Prelude.{◌≡◌, ℕ, List, [], ◌∷◌, ◌++◌, codes};
ghost use Rattle.hx_fields.specs.Line.{Field};
ghost use Rattle.hx_framing_laws.specs.Lines.{IsFieldLine, IsRequestLine, IsStatusLine};
ghost use Rattle.hx_framing_laws.specs.Heads.{IsRequestHead, IsResponseHead};
ghost use Rattle.hx_framing_laws.specs.Examples.{field_of_name_and_value, example_request_text};
ghost use Rattle.hx_framing_laws.specs.Examples.{example_request_text_with_bare_lf};
ghost use Rattle.hx_framing_laws.specs.Examples.{example_request_head};
ghost use Rattle.hx_framing_laws.specs.Examples.{example_response_text, example_response_head};

/// Heads of RFC 9112 are heads, also with what this proxy takes beside it.
pub fn worked_heads()
    ensures request { IsRequestHead example_request_text example_request_head }
    ensures otherwise { IsRequestHead example_request_text_with_bare_lf example_request_head }
    ensures response { IsResponseHead example_response_text example_response_head }
{}

/// What is no field line by RFC 9112, sections 5.1 and 5.2, and RFC 9110, section 5.5.
pub fn worked_field_lines()
    ensures plain { IsFieldLine (codes "Accept: a, b") (field_of_name_and_value (codes "Accept") (codes "a, b")) }
    ensures tight { IsFieldLine (codes "Accept:a:b") (field_of_name_and_value (codes "Accept") (codes "a:b")) }
    ensures blank_before_colon { (f : Field) → ¬ (IsFieldLine (codes "Host : a") f) }
    ensures folded { (f : Field) → ¬ (IsFieldLine (codes " folded: a") f) }
    ensures no_name { (f : Field) → ¬ (IsFieldLine (codes ": a") f) }
    ensures no_colon { (f : Field) → ¬ (IsFieldLine (codes "Host") f) }
    ensures control { (f : Field) → ¬ (IsFieldLine (codes "Host: a" ++ 0 ∷ []) f) }
    ensures bare_return { (f : Field) → ¬ (IsFieldLine (codes "Host: a\rb") f) }
    ensures feed { (f : Field) → ¬ (IsFieldLine (codes "Host: a\nb") f) }
    ensures delete { (f : Field) → ¬ (IsFieldLine (codes "Host: a" ++ 127 ∷ []) f) }
    ensures blank_at_the_end { ¬ (IsFieldLine (codes "Host: a ") (field_of_name_and_value (codes "Host") (codes "a "))) }
    ensures blank_in_front { ¬ (IsFieldLine (codes "Host: a") (field_of_name_and_value (codes "Host") (codes " a"))) }
{}

/// What is no request line by RFC 9112, sections 2.3 and 3.
pub fn worked_request_lines()
    ensures plain { IsRequestLine (codes "GET / HTTP/1.0") (codes "GET") (codes "/") 0 }
    ensures two_spaces { (m t : List ℕ) (n : ℕ) → ¬ (IsRequestLine (codes "GET  / HTTP/1.1") m t n) }
    ensures space_behind { (m t : List ℕ) (n : ℕ) → ¬ (IsRequestLine (codes "GET / HTTP/1.1 ") m t n) }
    ensures space_in_target { (m t : List ℕ) (n : ℕ) → ¬ (IsRequestLine (codes "GET /a b HTTP/1.1") m t n) }
    ensures version_2 { (m t : List ℕ) (n : ℕ) → ¬ (IsRequestLine (codes "GET / HTTP/2.0") m t n) }
    ensures version_1_2 { (m t : List ℕ) (n : ℕ) → ¬ (IsRequestLine (codes "GET / HTTP/1.2") m t n) }
    ensures small_letters { (m t : List ℕ) (n : ℕ) → ¬ (IsRequestLine (codes "GET / http/1.1") m t n) }
    ensures no_version { (m t : List ℕ) (n : ℕ) → ¬ (IsRequestLine (codes "GET /") m t n) }
    ensures no_token { (m t : List ℕ) (n : ℕ) → ¬ (IsRequestLine (codes "G(T / HTTP/1.1") m t n) }
{}
