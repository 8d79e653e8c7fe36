//! Which payload limits are allowed.

ghost use Rattle.std.specs.Prelude.{◌≡◌};
ghost use Rattle.dsd_addresses.specs.Limits.{fault_of_limit};
ghost use Rattle.dsd_addresses.specs.Remotes.{remote_text};

use crate::{LimitFault, RemoteAddr};

/// Why a payload limit, in bytes, is refused for an address, or none where it is allowed.
pub fn limit_fault(limit: u64, to: &RemoteAddr) -> Option<LimitFault>
    ensures { result ≡ fault_of_limit limit (remote_text to.now) }
{
    match to {
        _ if limit < 6 => Some(LimitFault::Low(limit)),
        RemoteAddr::Udp(_) if limit > 65_527 => Some(LimitFault::Udp(limit)),
        _ if limit > 4_294_967_295 => Some(LimitFault::Bound(limit)),
        _ => None,
    }
}
