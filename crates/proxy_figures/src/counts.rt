//! Counts, which only rise.
ghost use Rattle.std.specs.Prelude.{◌≡◌, unwrap_or, slice_get};
ghost use Rattle.proxy_figures.specs.Counts.{count_plus_one, count_plus_one_if, count_plus, counts_with_one_more};

/// One more, up to the most that a count has.
pub fn count_plus_one(n: u64) -> u64
    ensures { result ≡ count_plus_one n }
{
    if n < u64::MAX { n + 1 } else { u64::MAX }
}

/// One more where something is so.
pub(crate) fn count_plus_one_if(is_so: bool, n: u64) -> u64
    ensures { result ≡ count_plus_one_if is_so n }
{
    if is_so { count_plus_one(n) } else { n }
}

/// So many more, up to the most that a count has.
pub fn count_plus(n: u64, more: u64) -> u64
    ensures { result ≡ count_plus n more }
{
    n.saturating_add(more)
}

/// Counts one more at a place; where there is none, nothing.
pub(crate) fn count(counts: &mut [u64], at: usize)
    ensures { counts.new ≡ counts_with_one_more counts.old at }
{
    if at < counts.len() {
        counts[at] = count_plus_one(counts[at]);
    }
}

/// What stands at a place of counts; 0 where there is none.
pub(crate) fn count_at(counts: &[u64], at: usize) -> u64
    ensures { result ≡ unwrap_or (slice_get counts.now at) 0 }
{
    match counts.get(at) {
        Some(n) => *n,
        None => 0,
    }
}
