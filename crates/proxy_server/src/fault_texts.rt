//! Why a server ends or nothing more is recorded, in words for the operator. No text takes memory.
ghost use Rattle.std.specs.Prelude.{◌≡◌};
ghost use Rattle.proxy_server.specs.FaultTexts.{record_fault_text, serve_fault_text};

use crate::server::ServeFault;
use proxy_record::RecordFault;
use std::fmt;
use std::fmt::Formatter;

fn record_fault_text(fault: RecordFault) -> &'static str
    ensures { result.now ≡ record_fault_text fault }
{
    match fault {
        RecordFault::Write =>
            "the record can't be written; make room on its disk, or serve without a record",
        RecordFault::NoMemory =>
            "no memory is left for the record; give the proxy more, or serve without a record",
    }
}

fn serve_fault_text(fault: ServeFault) -> &'static str
    ensures { result.now ≡ serve_fault_text fault }
{
    match fault {
        ServeFault::Socket =>
            "the system can't tell which sockets are ready; look at its journal, and start the proxy anew",
        ServeFault::Clock =>
            "the clock of the system can't be read; mend it, and start the proxy anew",
        ServeFault::Record(fault) => record_fault_text(fault),
        ServeFault::Spent => "no number of a link is left; start the proxy anew",
    }
}

impl fmt::Display for ServeFault {
    ghost use Rattle.std.specs.Prelude.{Some};
    ghost use Rattle.proxy_server.specs.FaultTexts.{serve_fault_text};

    ghost output = { λ fault. Some (serve_fault_text fault) };

    fn fmt<W: fmt::Write>(&self, f: &mut Formatter<W>) -> fmt::Result {
        f.write_str(serve_fault_text(*self))
    }
}
