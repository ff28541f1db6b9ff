//! What a purge does with what it takes. No function here takes memory.
ghost use Rattle.std.specs.Prelude.{◌≡◌, bytes_eq};
ghost use Rattle.hx_allow.specs.PurgeModes.{purge_mode_of_request, request_purge_mode_or_remove};

use hx_fields::Fields;

/// What a purge does with the responses that it takes.
#[derive(Clone, Copy, Debug, PartialEq, Eq, Hash)]
pub enum PurgeMode {
    /// They are held no more.
    Remove,
    /// They are held, and stale from the purge on.
    Stale,
}

/// What a request asks for, unless two lines ask for it or another word.
pub(crate) fn purge_mode_of_request(fields: &Fields) -> Option<PurgeMode>
    ensures { result ≡ purge_mode_of_request fields.now }
{
    match fields.value(b"Purge-Mode") {
        None => Some(PurgeMode::Remove),
        Some(_) => match fields.only_value(b"Purge-Mode") {
            None => None,
            Some(word) => {
                if word == b"stale".as_slice() {
                    Some(PurgeMode::Stale)
                } else {
                    None
                }
            }
        },
    }
}

/// What a request that purges does with what it takes: without a word that is known it removes it.
pub fn request_purge_mode_or_remove(fields: &Fields) -> PurgeMode
    ensures { result ≡ request_purge_mode_or_remove fields.now }
{
    match purge_mode_of_request(fields) {
        None => PurgeMode::Remove,
        Some(mode) => mode,
    }
}
