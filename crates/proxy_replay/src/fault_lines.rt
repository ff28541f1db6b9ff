//! The line that names a fault on standard error, and the program's exit status. Neither takes memory.
ghost use Rattle.std.specs.Prelude.{◌≡◌, Some, codes, ◌++◌};
ghost use Rattle.std.specs.Fmt.{WritesOnOk};
ghost use Rattle.proxy_replay.specs.FaultLines.{byte_made_printable, key_made_printable, table_fault_line};
ghost use Rattle.proxy_replay.specs.FaultLines.{engine_fault_line};
ghost use Rattle.proxy_replay.specs.FaultLines.{store_fault_line, fault_line, exit_status_of};

use crate::replay_fault::ReplayFault;
use hx_allow::TableFault;
use proxy_engine::EngineFault;
use proxy_store_file::StoreReadFault;
use std::fmt;
use std::fmt::Formatter;

fn byte_made_printable(byte: u8) -> u8
    ensures { result ≡ byte_made_printable byte }
{
    if 0x21 <= byte && byte <= 0x7e {
        byte
    } else {
        b'?'
    }
}

/// Writes the bytes of a key, those that aren't printable as question marks.
fn write_key<W: fmt::Write>(f: &mut Formatter<W>, key: &[u8]) -> fmt::Result
    ensures { WritesOnOk W.write_str_gives f.old result (key_made_printable key.now) f.new }
{
    for byte in key {
        f.write_char(char::from(byte_made_printable(*byte)))?;
    }
    Ok(())
}

fn write_table_fault<W: fmt::Write>(f: &mut Formatter<W>, fault: &TableFault) -> fmt::Result
    ensures { WritesOnOk W.write_str_gives f.old result (table_fault_line fault.now) f.new }
{
    match fault {
        TableFault::NotToml => f.write_str("config fault 1"),
        TableFault::UnknownKey(key) => {
            f.write_str("config fault 2 key ")?;
            write_key(f, key.as_slice())
        }
        TableFault::BadName => f.write_str("config fault 3"),
        TableFault::BadNumber(key) => {
            f.write_str("config fault 4 key ")?;
            f.write_str(key.as_str())
        }
        TableFault::BadHost(line) => write!(f, "config fault 5 line {line}"),
        TableFault::BadMethod(line) => write!(f, "config fault 6 line {line}"),
        TableFault::BadPath(line) => write!(f, "config fault 7 line {line}"),
        TableFault::BadOrigin(line) => write!(f, "config fault 8 line {line}"),
        TableFault::NoLines => f.write_str("config fault 9"),
        TableFault::OutOfMemory => f.write_str("no memory"),
        TableFault::BadCache(line) => write!(f, "config fault 11 line {line}"),
        TableFault::BadWord(line, word) => {
            write!(f, "config fault 12 line {line} key ")?;
            f.write_str(word.as_str())
        }
        TableFault::MethodInLowerCase(line) => write!(f, "config fault 13 line {line}"),
        TableFault::StarInPath(line) => write!(f, "config fault 14 line {line}"),
    }
}

fn write_store_fault<W: fmt::Write>(f: &mut Formatter<W>, fault: StoreReadFault) -> fmt::Result
    ensures { WritesOnOk W.write_str_gives f.old result (store_fault_line fault) f.new }
{
    match fault {
        StoreReadFault::NotAStore => f.write_str("store fault 1"),
        StoreReadFault::Version => f.write_str("store fault 2"),
        StoreReadFault::Entries => f.write_str("store fault 3"),
        StoreReadFault::Short(n) => write!(f, "store fault 4 behind {n}"),
        StoreReadFault::Entry(n, _) => write!(f, "store fault 5 response {n}"),
        StoreReadFault::Serial(n) => write!(f, "store fault 6 response {n}"),
        StoreReadFault::Weight(n) => write!(f, "store fault 7 response {n}"),
        StoreReadFault::Digest => f.write_str("store fault 8"),
        StoreReadFault::Long => f.write_str("store fault 9"),
        StoreReadFault::Read => f.write_str("store fault 10"),
        StoreReadFault::OutOfMemory => f.write_str("no memory"),
    }
}

fn engine_text(fault: EngineFault) -> &'static str
    ensures { result.now ≡ engine_fault_line fault }
{
    match fault {
        EngineFault::WrongNumber => "engine fault 1",
        EngineFault::NotAccepted => "engine fault 2",
        EngineFault::OutOfMemory => "no memory",
        EngineFault::Spent => "engine fault 4",
        EngineFault::NotWaiting => "engine fault 5",
    }
}

impl fmt::Display for ReplayFault {
    ghost use Rattle.std.specs.Prelude.{Some};
    ghost use Rattle.proxy_replay.specs.FaultLines.{fault_line};

    ghost output = { λ fault. Some (fault_line fault) };

    fn fmt<W: fmt::Write>(&self, f: &mut Formatter<W>) -> fmt::Result {
        match self {
            ReplayFault::Config(fault) => write_table_fault(f, fault),
            ReplayFault::Store(fault) => write_store_fault(f, *fault),
            ReplayFault::Line(line) => write!(f, "script fault line {line}"),
            ReplayFault::Engine(fault) => f.write_str(engine_text(*fault)),
            ReplayFault::Read => f.write_str("read fault"),
            ReplayFault::Write => f.write_str("write fault"),
            ReplayFault::OutOfMemory => f.write_str("no memory"),
        }
    }
}

impl ReplayFault {
    /// The program's exit status: 2 where the table is at fault, else 1.
    pub fn exit_status(&self) -> u8
        ensures { result ≡ exit_status_of self.now }
    {
        match self {
            ReplayFault::Config(TableFault::OutOfMemory) => 1,
            ReplayFault::Config(_) => 2,
            ReplayFault::Store(_) => 1,
            ReplayFault::Line(_) => 1,
            ReplayFault::Engine(_) => 1,
            ReplayFault::Read => 1,
            ReplayFault::Write => 1,
            ReplayFault::OutOfMemory => 1,
        }
    }
}
