//! Exchanges that are open: what each keeps, how it is found, and who waits for whom.

pub(crate) mod arrivals_by_key;
pub(crate) mod as_next_leader;
pub(crate) mod awaited;
pub(crate) mod exchange;
pub(crate) mod exchanges;
pub(crate) mod ids;
pub(crate) mod key_index;
pub(crate) mod leading;
pub(crate) mod released;
pub(crate) mod serial_numbers;
pub(crate) mod stage;
pub(crate) mod wait_index;
