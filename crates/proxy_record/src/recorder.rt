//! A record of what happens, as a script: the operator's table, and then each happening at its moment.
ghost use Rattle.std.specs.Prelude.{◌≡◌, IfOk, OnOk};
ghost use Rattle.std.specs.Io.KnownBytes.{Appends};
ghost use Rattle.proxy_script.specs.Happenings.{model_of_happening};
ghost use Rattle.proxy_record.specs.Records.{TextIsAddedOrRecordEnds, RecordBeginsWithTable, HappeningIsRecorded};
ghost use Rattle.proxy_record.specs.Records.{items_of_happening};
ghost use Rattle.proxy_record.specs.Records.{text_of_items, ended_record};

use proxy_script::{Happening, Item, MOST_SCRIPT_BYTES, item_text};
use std::alloc::{AllocError, Global};
use std::io::Write;
use std::marker::Model;

/// Why nothing more can be recorded.
#[derive(Clone, Copy, Debug, PartialEq, Eq)]
pub enum RecordFault {
    /// The writer failed.
    Write,
    /// Memory ran out.
    NoMemory,
}

impl From<AllocError> for RecordFault {
    fn from(_error: AllocError) -> RecordFault {
        RecordFault::NoMemory
    }
}

/// Writes what happens behind a table. It ends by itself where one more happening would pass the limit of a script.
pub struct Recorder<W: Write + Drop> {
    alloc: Global,
    writer: W,
    /// The bytes written.
    len: usize,
    /// The moment that was written last.
    moment: u64,
    over: bool,
}

/// One call drops it, wherever that is.
impl<W: Write + Drop> Drop for Recorder<W> {
    fn drop(self) {
        let Recorder {
            alloc: _,
            writer: _,
            len: _,
            moment: _,
            over: _,
        } = self;
    }
}

impl<W: Write + Drop> Model for Recorder<W> {
    ghost use Rattle.std.specs.Prelude.{◌≤◌};
    ghost use Rattle.proxy_script.specs.declared.limits.TheConstants.{MOST_SCRIPT_BYTES};
    ghost use Rattle.proxy_record.specs.Records.{RecordSoFar};

    ghost Value = { RecordSoFar };

    ghost view = { λ r. record { held = W.contents r.writer; len = r.len; moment = r.moment; over = r.over } };

    ghost invariant = { λ r. r.len ≤ MOST_SCRIPT_BYTES };
}

fn put<W: Write>(writer: &mut W, text: &[u8]) -> Result<(), RecordFault>
    ensures { OnOk result (Appends (W.contents writer.old) (W.contents writer.new) text.now) }
{
    match writer.write_all(text) {
        Ok(()) => Ok(()),
        Err(_) => Err(RecordFault::Write),
    }
}

/// The text of a happening, behind its moment where that is another than the last.
fn text_of_items(
    alloc: Global,
    last: u64,
    now: u64,
    happening: Happening<'_>,
) -> Result<Vec<u8>, AllocError>
    ensures { IfOk result (λ text. text.items ≡ text_of_items
        (items_of_happening last now (model_of_happening happening.entry))) }
{
    let mut happens = item_text(alloc, Item::Happens(happening))?;
    if now == last {
        return Ok(happens);
    }
    let mut text = item_text(alloc, Item::At(now))?;
    text.append(&mut happens)?;
    Ok(text)
}

impl<W: Write + Drop> Recorder<W> {
    /// Begins a record with the bytes of the operator's table.
    pub fn begin(alloc: Global, writer: W, table: &[u8]) -> Result<Recorder<W>, RecordFault>
        ensures { IfOk result (RecordBeginsWithTable (W.contents writer) table.now) }
    {
        let text = item_text(alloc, Item::Config(table))?;
        let mut recorder = Recorder {
            alloc,
            writer,
            len: 0,
            moment: 0,
            over: false,
        };
        recorder.add(text.as_slice(), 0)?;
        Ok(recorder)
    }

    /// Whether the record has ended.
    pub fn is_over(&self) -> bool
        ensures { result ≡ self.now.over }
    {
        self.over
    }

    /// Ends the record: nothing that happens from now on is recorded.
    pub fn end(&mut self)
        ensures { self.new ≡ ended_record self.old }
    {
        self.over = true;
    }

    /// Adds a text whole, up to a moment, unless the record has ended or ends here.
    fn add(&mut self, text: &[u8], moment: u64) -> Result<(), RecordFault>
        ensures { OnOk result (TextIsAddedOrRecordEnds self.old text.now moment self.new) }
    {
        if self.over {
            return Ok(());
        }
        if text.len() > MOST_SCRIPT_BYTES - self.len {
            self.over = true;
            return Ok(());
        }
        put(&mut self.writer, text)?;
        self.len += text.len();
        self.moment = moment;
        Ok(())
    }

    /// Records what happens at a moment, unless the record has ended or ends here.
    pub fn happens(&mut self, now: u64, happening: Happening<'_>) -> Result<(), RecordFault>
        ensures { OnOk result (HappeningIsRecorded self.old now (model_of_happening happening.entry) self.new) }
    {
        if self.over {
            return Ok(());
        }
        let text = text_of_items(self.alloc, self.moment, now, happening)?;
        self.add(text.as_slice(), now)
    }
}
