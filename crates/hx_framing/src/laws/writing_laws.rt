//! Laws on what is written: it is read back. They hold of the definitions, so each body is empty.
ghost use Rattle.std.specs.Prelude.{◌≡◌, ◌<◌, ◌≤◌, ◌^◌, ◌++◌, ◌∷◌, [], ℕ, Bool, List, Some, None, codes, decimal};
ghost use Rattle.std.specs.Prelude.{length, take, drop, true, false};
ghost use Rattle.std.specs.Char.{is_ascii_digit};
ghost use Rattle.std.specs.List.{list_all};
ghost use Rattle.std.specs.Str.Parse.{digits_value};
ghost use Rattle.httparse.specs.Grammar.{RequestHead};
ghost use Rattle.hx_fields.specs.FieldLines.{has_field, values_of, without_named};
ghost use Rattle.hx_framing.specs.declared.messages.Request.{Request};
ghost use Rattle.hx_framing.specs.Examples.{first_forwarded_request};
ghost use Rattle.hx_framing.specs.Head.{IsHeadOfRequest, head_of_parsed_request};
ghost use Rattle.hx_framing.specs.HeadEnd.{head_length, most_head_bytes};
ghost use Rattle.hx_framing.specs.Reading.{Spelled};
ghost use Rattle.hx_framing.specs.RequestReading.{ReadsAs};
ghost use Rattle.hx_framing.specs.ResponseReading.{ReadsAs as ReadsResponse};
ghost use Rattle.hx_framing.specs.Text.{request_text, content_bytes};
ghost use Rattle.hx_framing.specs.Written.{RequestIsWritable, request_head_text, request_head_sent};
ghost use Rattle.hx_framing.specs.Written.{request_fields_sent, connection_close_field, request_as_read_back};
ghost use Rattle.hx_framing.specs.WrittenResponse.{ResponseIsWritable, SentResponse, response_as_read_back};
ghost use Rattle.hx_framing.specs.WrittenResponse.{sent_response_text};

/// The head that is written is one, and has just the parts that were written.
pub fn written_request_head_is_read_back()
    ensures { (r : Request) → RequestIsWritable r → (h : RequestHead) × IsHeadOfRequest (request_head_text r) h
        × (head_of_parsed_request h ≡ request_head_sent r) }
{}

/// It ends where the content begins, whatever follows.
pub fn written_request_head_ends_at_its_content()
    ensures size { (r : Request) → RequestIsWritable r → (rest : List ℕ)
        → head_length (take most_head_bytes (request_text r ++ rest)) ≡ Some (length (request_head_text r)) }
    ensures head { (r : Request) → (rest : List ℕ)
        → take (length (request_head_text r)) (request_text r ++ rest) ≡ request_head_text r }
    ensures behind { (r : Request) → (rest : List ℕ)
        → drop (length (request_head_text r)) (request_text r ++ rest) ≡ content_bytes r.content ++ rest }
{}

/// The fields that are sent tell the content's length, and nothing else of it.
pub fn written_content_length_is_read_back()
    ensures none { (r : Request) → RequestIsWritable r → r.content ≡ None
        → values_of (request_fields_sent r) (codes "content-length") ≡ [] }
    ensures some { (r : Request) → (content : List ℕ) → RequestIsWritable r → r.content ≡ Some content
        → values_of (request_fields_sent r) (codes "content-length") ≡ decimal (length content) ∷ [] }
    ensures digits { (n : ℕ) → n < 2 ^ 64 → list_all is_ascii_digit (decimal n) ≡ true }
    ensures number { (n : ℕ) → n < 2 ^ 64 → (0 < length (decimal n)) × (digits_value 10 (decimal n) ≡ n) }
    ensures coding { (r : Request) → RequestIsWritable r
        → has_field (request_fields_sent r) (codes "transfer-encoding") ≡ false }
    ensures expectation { (r : Request) → RequestIsWritable r
        → has_field (request_fields_sent r) (codes "expect") ≡ false }
{}

/// Without the length fields they are those that were written, and the line that closes the connection.
pub fn written_fields_are_read_back()
    ensures length { (r : Request) → RequestIsWritable r
        → without_named (request_fields_sent r) (codes "content-length") ≡ r.fields ++ connection_close_field ∷ [] }
    ensures coding { (r : Request) → RequestIsWritable r
        → without_named (r.fields ++ connection_close_field ∷ []) (codes "transfer-encoding")
        ≡ r.fields ++ connection_close_field ∷ [] }
{}

/// The request is read back, with the line that closes the connection, and what follows it is left.
pub fn written_request_is_read_back()
    ensures { (r : Request) → (max_body : ℕ) → (ended : Bool) → (continue_sent : Bool) → (rest : List ℕ)
        → RequestIsWritable r → length (content_bytes r.content) ≤ max_body
        → ReadsAs max_body ended continue_sent (request_text r ++ rest) (Spelled (request_as_read_back r) rest) }
{}

/// There are such requests: the one of the first run is one.
pub fn worked_request_is_writable()
    ensures { RequestIsWritable first_forwarded_request }
{}

/// A response is read back too, by a reader that knows whether it answers a HEAD, and what follows
/// it is left: so a client takes what is sent for one response.
pub fn written_response_is_read_back()
    ensures { (to_head : Bool) → (m : SentResponse) → (max_body : ℕ) → (ended : Bool) → (rest : List ℕ)
        → ResponseIsWritable to_head m → length m.content ≤ max_body
        → ReadsResponse max_body to_head ended (sent_response_text m ++ rest)
        (Spelled (response_as_read_back to_head m) rest) }
{}
