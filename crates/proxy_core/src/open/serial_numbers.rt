//! Serials are given out once, in ascending order.
ghost use Rattle.std.specs.Prelude.{◌≡◌};
ghost use Rattle.proxy_core.specs.State.{serial_after_this};

/// The serial after this one, if one is left.
pub(crate) fn serial_after(serial: u64) -> Option<u64>
    ensures { result ≡ serial_after_this serial }
{
    if serial < u64::MAX {
        Some(serial + 1)
    } else {
        None
    }
}
