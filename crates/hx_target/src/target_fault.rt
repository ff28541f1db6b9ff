//! Why a target is refused.
ghost use Rattle.std.specs.Prelude.{◌≡◌};
ghost use Rattle.hx_target.specs.declared.target_fault.TargetFault.TheVariants.{OutOfMemory};

use std::alloc::AllocError;
use std::fmt;
use std::fmt::Formatter;

/// Why a target is refused, in the order in which the faults are looked for: of those that stand the first
/// is answered.
#[derive(Clone, Copy, Debug, PartialEq, Eq, Hash)]
pub enum TargetFault {
    /// The text is no target in origin form or in absolute form.
    Form,
    /// The scheme isn't `http`.
    Scheme,
    /// There is no Host line or more than one, or the host in it or in the authority is invalid.
    Host,
    /// A port, in the Host line or in the authority, is neither empty nor one to five digits of a value from 1
    /// to 65535.
    Port,
    /// The authority has an `@`.
    Userinfo,
    /// The path has a `%` without two hexadecimal digits.
    Escape,
    /// A segment of the table path is `.` or `..`.
    DotSegment,
    /// The target has more than 8,192 bytes.
    TooLong,
    /// Memory ran out.
    OutOfMemory,
}

impl From<AllocError> for TargetFault {
    ghost from_gives = { λ _ e. e ≡ OutOfMemory };

    fn from(_e: AllocError) -> TargetFault {
        TargetFault::OutOfMemory
    }
}

impl fmt::Display for TargetFault {
    ghost use Rattle.std.specs.Prelude.{Some};
    ghost use Rattle.hx_target.specs.FaultTexts.{fault_text};

    ghost output = { λ fault. Some (fault_text fault) };

    fn fmt<W: fmt::Write>(&self, f: &mut Formatter<W>) -> fmt::Result {
        f.write_str(match self {
            TargetFault::Form =>
                "a target has to begin with / or http://, and to be visible ASCII without #",
            TargetFault::Scheme => "the scheme of a target has to be http",
            TargetFault::Host =>
                "there has to be one Host line, whose host is of letters, digits, -, . and _, or an IPv6 address in brackets",
            TargetFault::Port =>
                "a port has to be a number from 1 to 65535, of at most five digits, or to be left out",
            TargetFault::Userinfo => "the authority of a target may not have an @",
            TargetFault::Escape => "two hexadecimal digits have to stand behind each % of a path",
            TargetFault::DotSegment => "no segment of a path may be . or .., escaped or not",
            TargetFault::TooLong => "a target may have at most 8192 bytes",
            TargetFault::OutOfMemory => "no memory is left for the target",
        })
    }
}
