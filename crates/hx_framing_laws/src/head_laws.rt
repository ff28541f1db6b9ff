//! The laws: each function's contract is one, and its body is empty.
ghost use Rattle.hx_framing_laws.specs.Judged.{TakenRequestHeadsAreValid, GrammaticalRequestHeadsAreTaken};
ghost use Rattle.hx_framing_laws.specs.Judged.{RefusedTextsAreNoRequestHeads, RequestHeadOfATextIsUnique};
ghost use Rattle.hx_framing_laws.specs.Judged.{UngrammaticalRequestHeadsAreRefused};
ghost use Rattle.hx_framing_laws.specs.Judged.{UngrammaticalResponseHeadsAreRefused};
ghost use Rattle.hx_framing_laws.specs.Judged.{ReadRequestsBeginWithTheirHeads, RequestHeadsInFrontAreRead};
ghost use Rattle.hx_framing_laws.specs.Judged.{RequestHeadsBeyondLimitsAreRefused};
ghost use Rattle.hx_framing_laws.specs.Judged.{TakenResponseHeadsAreValid, GrammaticalResponseHeadsAreTaken};
ghost use Rattle.hx_framing_laws.specs.Judged.{RefusedTextsAreNoResponseHeads, ResponseHeadOfATextIsUnique};
ghost use Rattle.hx_framing_laws.specs.Judged.{ReadResponsesBeginWithTheirHeads, FinalResponseHeadsInFrontAreRead};
ghost use Rattle.hx_framing_laws.specs.Judged.{InterimHeadsInFrontAreSkipped, ResponseHeadsBeyondLimitsAreRefused};
ghost use Rattle.hx_framing_laws.specs.Judged.{FieldValuesHaveNoOuterBlanks, TrimmedTextsAreFieldValues};

/// What is taken as a request's head is one by the ABNF of RFC 9112, with this method, target, version and these field
/// lines, in order; each such text of at most 100 field lines is taken as it, and any other is refused.
pub fn request_heads_taken_are_those_of_the_grammar()
    ensures written { TakenRequestHeadsAreValid }
    ensures taken { GrammaticalRequestHeadsAreTaken }
    ensures refused { RefusedTextsAreNoRequestHeads }
    ensures others { UngrammaticalRequestHeadsAreRefused }
    ensures once { RequestHeadOfATextIsUnique }
{}

/// A request that a reader gives begins with such a head of at most 100 field lines and 32,768 bytes and has its parts;
/// and such a head in front of a stream is read, whatever stands behind it, and refused where it has more of these.
pub fn a_read_request_begins_with_its_head()
    ensures read { ReadRequestsBeginWithTheirHeads }
    ensures front { RequestHeadsInFrontAreRead }
    ensures beyond { RequestHeadsBeyondLimitsAreRefused }
{}

/// The same of a response's head: a version, a status of three digits, and field lines.
pub fn response_heads_taken_are_those_of_the_grammar()
    ensures written { TakenResponseHeadsAreValid }
    ensures taken { GrammaticalResponseHeadsAreTaken }
    ensures refused { RefusedTextsAreNoResponseHeads }
    ensures others { UngrammaticalResponseHeadsAreRefused }
    ensures once { ResponseHeadOfATextIsUnique }
{}

/// A response that a reader gives begins, behind the interim ones, with such a head within the same limits; and the
/// head of a final response in front is read, that of an interim one passed over.
pub fn a_read_response_begins_with_its_head()
    ensures read { ReadResponsesBeginWithTheirHeads }
    ensures front { FinalResponseHeadsInFrontAreRead }
    ensures interim { InterimHeadsInFrontAreSkipped }
    ensures beyond { ResponseHeadsBeyondLimitsAreRefused }
{}

/// A field value of the standard's is a text of its characters that has no space and no tab at its ends, and each such
/// text is one.
pub fn field_values_have_no_blanks_at_their_ends()
    ensures trimmed { FieldValuesHaveNoOuterBlanks }
    ensures each { TrimmedTextsAreFieldValues }
{}
