//! The first words of a script's lines.
ghost use Rattle.std.specs.Prelude.{◌≡◌, find, bytes_eq};
ghost use Rattle.hx_status.specs.Refusals.{fail_kind_word};
ghost use Rattle.proxy_script.specs.ScriptLines.{word_text, words, link_failures};

use hx_status::FailKind;

/// The first word of a line.
#[derive(Clone, Copy)]
pub enum Word {
    Config,
    At,
    Accept,
    Client,
    Link,
    End,
    Gone,
    Retire,
    Overdue,
    Shut,
    Fail,
}

/// The word that a text is.
pub fn word_of(text: &[u8]) -> Option<Word>
    ensures { result ≡ find (λ word. bytes_eq text.now (word_text word)) words }
{
    if text == b"config".as_slice() {
        Some(Word::Config)
    } else if text == b"at".as_slice() {
        Some(Word::At)
    } else if text == b"accept".as_slice() {
        Some(Word::Accept)
    } else if text == b"client".as_slice() {
        Some(Word::Client)
    } else if text == b"link".as_slice() {
        Some(Word::Link)
    } else if text == b"end".as_slice() {
        Some(Word::End)
    } else if text == b"gone".as_slice() {
        Some(Word::Gone)
    } else if text == b"retire".as_slice() {
        Some(Word::Retire)
    } else if text == b"overdue".as_slice() {
        Some(Word::Overdue)
    } else if text == b"shut".as_slice() {
        Some(Word::Shut)
    } else if text == b"fail".as_slice() {
        Some(Word::Fail)
    } else {
        None
    }
}

/// The kind of a link's failure that a text names.
pub fn failure_of(text: &[u8]) -> Option<FailKind>
    ensures { result ≡ find (λ kind. bytes_eq text.now (fail_kind_word kind)) link_failures }
{
    if text == b"refused".as_slice() {
        Some(FailKind::Refused)
    } else if text == b"timed-out".as_slice() {
        Some(FailKind::TimedOut)
    } else if text == b"closed".as_slice() {
        Some(FailKind::Closed)
    } else {
        None
    }
}
