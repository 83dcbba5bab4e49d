ghost use Rattle.std.specs.Prelude.{◌≡◌};
ghost use Rattle.input_reading.specs.Recovery.{class_of};

use cluster_types::exit_codes::{
    ERR_ARGS, ERR_CONFIGURED, ERR_INSTALLED, ERR_PERM, ERR_UNIMPLEMENTED,
};

/// How a resource is recovered after an operation with a bad exit code (Pacemaker Administration, "How are OCF Return Codes Interpreted?").
#[derive(Clone, Copy, Debug, PartialEq, Eq)]
pub enum Recovery {
    /// The failure is counted.
    Soft,
    /// The resource isn't tried again on this node.
    Hard,
    /// The resource isn't tried again on any node.
    Fatal,
}

/// The recovery after a bad exit code: `Hard` for 2 to 5, `Fatal` for 6, `Soft` for all others.
pub fn class_of(code: u8) -> Recovery
    ensures { result ≡ class_of code }
{
    match code {
        ERR_ARGS | ERR_UNIMPLEMENTED | ERR_PERM | ERR_INSTALLED => Recovery::Hard,
        ERR_CONFIGURED => Recovery::Fatal,
        _ => Recovery::Soft,
    }
}
