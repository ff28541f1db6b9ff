//! Laws on what a head gives: its fields, names and values, are its lines. They hold of the
//! definitions, so each body is empty.
ghost use Rattle.std.specs.Prelude.{◌≡◌, ◌≤◌, ℕ, Bool, List, Some, Ok, take, false, codes};
ghost use Rattle.hx_fields.specs.Line.{Field};
ghost use Rattle.hx_fields.specs.FieldLines.{has_field};
ghost use Rattle.hx_framing.specs.declared.heads.request_head.Head.{Head};
ghost use Rattle.hx_framing.specs.declared.heads.status_head.StatusHead.{StatusHead};
ghost use Rattle.hx_framing.specs.declared.messages.Request.{Request};
ghost use Rattle.hx_framing.specs.declared.messages.Response.{Response};
ghost use Rattle.hx_framing.specs.GivenFields.{LineSpellsField, HeadGivesFields, LineSpellsRequestLine};
ghost use Rattle.hx_framing.specs.GivenFields.{LineSpellsStatusLine};
ghost use Rattle.hx_framing.specs.Head as requests;
ghost use Rattle.hx_framing.specs.StatusHead as responses;
ghost use Rattle.hx_framing.specs.Lengths.{without_length_fields};
ghost use Rattle.hx_framing.specs.HeadEnd.{head_length, most_head_bytes};
ghost use Rattle.hx_framing.specs.Version.{start_line};
ghost use Rattle.hx_framing.specs.Reading.{Spelled};
ghost use Rattle.hx_framing.specs.RequestReading as request;
ghost use Rattle.hx_framing.specs.ResponseReading as response;

/// The fields of a request's head are its lines, in order, each a name, a colon and a value with
/// white space around it; its first line is the method, the target and the version.
pub fn fields_of_request_heads_are_their_lines()
    ensures fields { (bytes : List ℕ) → (head : Head) → requests.RequestHeadIsJudged bytes (Ok head)
        → HeadGivesFields bytes head.fields }
    ensures first { (bytes : List ℕ) → (head : Head) → requests.RequestHeadIsJudged bytes (Ok head)
        → LineSpellsRequestLine (start_line bytes) head }
{}

/// The same of a response, whose first line is the version and the status.
pub fn fields_of_response_heads_are_their_lines()
    ensures fields { (bytes : List ℕ) → (head : StatusHead) → responses.ResponseHeadIsJudged bytes (Ok head)
        → HeadGivesFields bytes head.fields }
    ensures first { (bytes : List ℕ) → (head : StatusHead) → responses.ResponseHeadIsJudged bytes (Ok head)
        → LineSpellsStatusLine (start_line bytes) head }
{}

/// What a reader gives of a head are the fields that its lines spell, but for the length fields: of
/// a request at the front of its stream, of a response behind the interim ones.
pub fn readers_give_the_fields_of_heads()
    ensures requests { (max_body : ℕ) → (ended : Bool) → (continue_sent : Bool) → (bytes : List ℕ) → (given : Request)
        → (rest : List ℕ)
        → request.ReadsAs max_body ended continue_sent bytes (Spelled given rest)
        → (n : ℕ) × (head_length (take most_head_bytes bytes) ≡ Some n)
        × ((fields : List Field) × HeadGivesFields (take n bytes) fields
        × (given.fields ≡ without_length_fields fields)) }
    ensures responses { (max_body : ℕ) → (to_head : Bool) → (ended : Bool) → (bytes : List ℕ) → (given : Response)
        → (rest : List ℕ)
        → response.ReadsAs max_body to_head ended bytes (Spelled given rest)
        → (sizes : List ℕ) × (front : List ℕ) × response.SkipsInterimResponses bytes sizes front
        × ((n : ℕ) × (head_length (take most_head_bytes front) ≡ Some n)
        × ((fields : List Field) × HeadGivesFields (take n front) fields
        × (given.fields ≡ without_length_fields fields))) }
{}

/// A request that is read is of HTTP/1.0 or HTTP/1.1, and no line of a message speaks of its content's length.
pub fn messages_read_have_no_length_fields()
    ensures minor { (max_body : ℕ) → (ended : Bool) → (continue_sent : Bool) → (bytes : List ℕ) → (given : Request)
        → (rest : List ℕ)
        → request.ReadsAs max_body ended continue_sent bytes (Spelled given rest) → given.minor ≤ 1 }
    ensures request { (max_body : ℕ) → (ended : Bool) → (continue_sent : Bool) → (bytes : List ℕ) → (given : Request)
        → (rest : List ℕ)
        → request.ReadsAs max_body ended continue_sent bytes (Spelled given rest)
        → (has_field given.fields (codes "content-length") ≡ false) × (has_field given.fields (codes "transfer-encoding") ≡ false) }
    ensures response { (max_body : ℕ) → (to_head : Bool) → (ended : Bool) → (bytes : List ℕ) → (given : Response)
        → (rest : List ℕ)
        → response.ReadsAs max_body to_head ended bytes (Spelled given rest)
        → (has_field given.fields (codes "content-length") ≡ false) × (has_field given.fields (codes "transfer-encoding") ≡ false) }
{}

/// A line spells one field at most, and the lines of a head give one list of fields.
pub fn fields_of_head_lines_are_unique()
    ensures line { (line : List ℕ) → (f : Field) → (g : Field) → LineSpellsField line f → LineSpellsField line g → f
        ≡ g }
    ensures head { (bytes : List ℕ) → (fs : List Field) → (gs : List Field) → HeadGivesFields bytes fs
        → HeadGivesFields bytes gs
        → fs ≡ gs }
{}
