//! Of some held responses the preferred one: one with a Vary before one without, and then the most recent.
ghost use Rattle.std.specs.Prelude.{◌≡◌, option_copied};
ghost use Rattle.std.specs.List.{filter_map};
ghost use Rattle.hx_store.specs.Shelf.{find_entry_of_serial};
ghost use Rattle.hx_reuse.specs.Chosen.{is_more_recent, is_preferred_over, preferred_of_two, most_preferred_response};

use hx_store::{Entry, Shelf};

fn is_more_recent(a: &Entry, b: &Entry) -> bool
    ensures { result ≡ is_more_recent a.now b.now }
{
    b.times.date < a.times.date || (b.times.date == a.times.date && b.serial < a.serial)
}

fn is_preferred_over(a: &Entry, b: &Entry) -> bool
    ensures { result ≡ is_preferred_over a.now b.now }
{
    match (
        a.nominated.nominates_any_field(),
        b.nominated.nominates_any_field(),
    ) {
        (true, false) => true,
        (false, true) => false,
        _ => is_more_recent(a, b),
    }
}

fn preferred_of_two<'a>(best: Option<&'a Entry>, entry: &'a Entry) -> Option<&'a Entry>
    ensures { option_copied result ≡ preferred_of_two (option_copied best.entry) entry.now }
{
    match best {
        None => Some(entry),
        Some(best) => {
            if is_preferred_over(entry, best) {
                Some(entry)
            } else {
                Some(best)
            }
        }
    }
}

/// The preferred one of the held responses with these serials.
pub(crate) fn preferred_of_serials<'a, S: Shelf>(shelf: &'a S, serials: &[u64]) -> Option<&'a Entry>
    ensures { option_copied result
        ≡ most_preferred_response (filter_map (λ s. find_entry_of_serial s (S.entries shelf.now)) serials.now) }
{
    let mut best = None;
    for serial in serials {
        if let Some(entry) = shelf.peek(*serial) {
            best = preferred_of_two(best, entry);
        }
    }
    best
}
