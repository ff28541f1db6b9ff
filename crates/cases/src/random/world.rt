//! Clients and origins that act at random, and the engine that tells them what links there are.
ghost use Rattle.std.specs.Prelude.{◌<◌};

use super::answers::{Question, push_answer};
use super::dice::Dice;
use super::life::Life;
use super::log::{Log, Occurred, Step};
use super::requests::{Asked, push_request};
use super::tables::RandomTable;
use super::told::{is_told, is_told_of};
use crate::text::push_item;
use hx_allow::Table;
use hx_status::{FailKind, ReplyData};
use hx_store::ListShelf;
use proxy_engine::{Engine, EngineFault, Work};
use proxy_kept_store::read_kept_store;
use proxy_script::{Effect, Happening, Item, effects_text};
use proxy_store_file::{StoreReadFault, WriteFault, write_and_empty_store};
use std::alloc::{AllocError, Global};
use std::{fmt, mem};

/// The most connections that are open at a time.
const MOST_OPEN: usize = 16;

/// More acts than one happening can make due.
const MOST_ACTS: u32 = 10_000;

/// The last moment of the trial.
const LAST_MOMENT: u64 = 80_000;

/// Why no script was made.
#[derive(Clone, Copy)]
pub enum Stopped {
    OutOfMemory,
    /// The engine refused what happened, or the table.
    Refused,
    /// The engine found always more to do.
    Restless,
    /// Something is open that nobody waits for, or a store isn't read as it was written.
    NoRestart,
    /// A replay over the store that a process began with does something else.
    OtherReplay,
    /// An effect tells something else of a reply than its bytes or its request say.
    ToldOtherwise,
}

impl From<AllocError> for Stopped {
    fn from(_: AllocError) -> Self {
        Stopped::OutOfMemory
    }
}

impl From<EngineFault> for Stopped {
    fn from(fault: EngineFault) -> Self {
        match fault {
            EngineFault::OutOfMemory => Stopped::OutOfMemory,
            _ => Stopped::Refused,
        }
    }
}

impl fmt::Display for Stopped {
    fn fmt<W: fmt::Write>(&self, f: &mut fmt::Formatter<W>) -> fmt::Result {
        f.write_str(match self {
            Stopped::OutOfMemory => "no memory",
            Stopped::Refused => "the engine refuses what happened",
            Stopped::Restless => "the engine comes to no rest",
            Stopped::NoRestart => "no process goes on over its store",
            Stopped::OtherReplay => "a replay over a store does something else",
            Stopped::ToldOtherwise =>
                "an effect tells something else of a reply than its bytes or its request say",
        })
    }
}

/// An open connection of a client.
struct Caller {
    number: u64,
    /// How many requests it has begun.
    begun: u64,
    /// How many of them were answered.
    answered: u64,
    /// What of its requests isn't sent yet.
    rest: Vec<u8>,
    /// How many bytes it has sent that count: those before its end.
    sent: usize,
    /// Behind how many bytes each of its requests is whole.
    wholes: Vec<usize>,
    has_ended: bool,
}

// By hand, here and below, so that a scope that ends is one call to the prover and not the drop of each part.
impl Drop for Caller {
    fn drop(self) {
        let Caller {
            number: _,
            begun: _,
            answered: _,
            rest: _,
            sent: _,
            wholes: _,
            has_ended: _,
        } = self;
    }
}

impl Caller {
    fn new(alloc: Global, number: u64) -> Self {
        Caller {
            number,
            begun: 0,
            answered: 0,
            rest: Vec::new(alloc),
            sent: 0,
            wholes: Vec::new(alloc),
            has_ended: false,
        }
    }

    /// So many bytes more were sent.
    fn note_sent(&mut self, count: usize) {
        if !self.has_ended {
            self.sent = self.sent.saturating_add(count);
        }
    }

    /// What is told where the client sent something.
    fn occurred(&self) -> Occurred {
        let mut whole = 0u64;
        for end in &self.wholes {
            if *end <= self.sent {
                whole = whole.saturating_add(1);
            }
        }
        Occurred::Client(self.number, whole)
    }

    /// Begins a request, which is sent behind the rest.
    fn begin(&mut self, alloc: Global, dice: &mut Dice) -> Result<Asked, AllocError> {
        self.begun = self.begun.saturating_add(1);
        let mut asked = Asked::random(dice, self.number, self.begun);
        let mut text = String::new(alloc);
        push_request(&mut text, dice, &asked)?;
        asked.note_fields(text.as_bytes());
        self.rest.extend_from_slice(text.as_bytes())?;
        self.wholes.push(self.sent.saturating_add(self.rest.len()))?;
        Ok(asked)
    }
}

/// An open link to an origin.
struct Link {
    number: u64,
    question: Question,
    has_begun: bool,
    /// What of its answer isn't sent yet.
    rest: Vec<u8>,
}

impl Drop for Link {
    fn drop(self) {
        let Link {
            number: _,
            question: _,
            has_begun: _,
            rest: _,
        } = self;
    }
}

impl Link {
    /// Begins the answer.
    fn begin(&mut self, alloc: Global, dice: &mut Dice) -> Result<(), AllocError> {
        self.has_begun = true;
        let mut text = String::new(alloc);
        push_answer(&mut text, dice, &self.question)?;
        self.rest.extend_from_slice(text.as_bytes())
    }
}

pub struct World {
    alloc: Global,
    dice: Dice,
    engine: Engine<ListShelf>,
    now: u64,
    callers: Vec<Caller>,
    links: Vec<Link>,
    accepted: u64,
    forwarded: u64,
    /// The connection whose client sent something last.
    sender: u64,
    life: Life,
    log: Log,
}

impl Drop for World {
    fn drop(self) {
        drop(self.into_log());
    }
}

/// The next piece of what is to be sent, often all of it.
fn cut_piece(dice: &mut Dice, rest: &mut Vec<u8>) -> Result<Vec<u8>, AllocError> {
    let whole = rest.len();
    let length = match dice.below(4) {
        0 => dice.below(20),
        1 => dice.below(whole),
        _ => whole,
    };
    let tail = rest.split_off(length.min(whole))?;
    Ok(mem::replace(rest, tail))
}

/// What happens at a connection or a link that is over, where they are.
fn happening_at_an_ended_end(
    roll: usize,
    n: u64,
    l: u64,
    is_open: bool,
    is_linked: bool,
) -> Option<(Happening<'static>, Occurred)> {
    match roll {
        0 if !is_open => Some((
            Happening::Client(n, b"GET /late HTTP/1.1\r\n"),
            Occurred::Late,
        )),
        1 if !is_open => Some((Happening::End(n), Occurred::Late)),
        2 if !is_open => Some((Happening::Gone(n), Occurred::Gone(n))),
        _ if is_linked => None,
        3 => Some((Happening::Fail(l, FailKind::Closed), Occurred::Late)),
        4 => Some((Happening::Shut(l), Occurred::Late)),
        _ => Some((Happening::Link(l, b"late"), Occurred::Late)),
    }
}

/// The file of the store of a process that ends.
fn written(alloc: Global, engine: Engine<ListShelf>) -> Result<Vec<u8>, Stopped> {
    let (mut shelf, next) = engine.into_shelf_and_next_serial();
    let Some(next) = next else {
        return Err(Stopped::NoRestart);
    };
    let mut file = Vec::new(alloc);
    match write_and_empty_store(alloc, next, &mut shelf, &mut file) {
        Ok(()) => Ok(file),
        Err(WriteFault::OutOfMemory) => Err(Stopped::OutOfMemory),
        Err(_) => Err(Stopped::NoRestart),
    }
}

/// A process that begins with the file of a store.
fn begun(alloc: Global, table: &[u8], file: &[u8]) -> Result<Engine<ListShelf>, Stopped> {
    let config = match Table::read(alloc, table) {
        Ok(config) => config,
        Err(_) => return Err(Stopped::Refused),
    };
    let mut shelf = ListShelf::new(alloc, config.capacity());
    let mut reader = file;
    match read_kept_store(alloc, &config, &mut shelf, &mut reader) {
        Ok(first) => Ok(Engine::with_store(alloc, config, shelf, first, 1)),
        Err(StoreReadFault::OutOfMemory) => Err(Stopped::OutOfMemory),
        Err(_) => Err(Stopped::NoRestart),
    }
}

impl World {
    /// Nothing has happened yet; the script has its table.
    pub fn new(alloc: Global, table: RandomTable, beginning: u64) -> Result<Self, Stopped> {
        let text = table.text(alloc)?;
        let config = match Table::read(alloc, text.as_bytes()) {
            Ok(config) => config,
            Err(_) => return Err(Stopped::Refused),
        };
        let shelf = ListShelf::new(alloc, config.capacity());
        let mut log = Log::new(alloc, table);
        push_item(&mut log.script, Item::Config(text.as_bytes()))?;
        Ok(World {
            alloc,
            dice: Dice::new(beginning),
            engine: Engine::new(alloc, config, shelf, 1, 1),
            now: 0,
            callers: Vec::new(alloc),
            links: Vec::new(alloc),
            accepted: 0,
            forwarded: 0,
            sender: 0,
            life: Life::begin(alloc, text.as_bytes(), 0, 0, 0, None)?,
            log,
        })
    }

    /// What happened, and what was done.
    pub fn into_log(self) -> Log {
        let World {
            alloc: _,
            dice: _,
            engine: _,
            now: _,
            callers: _,
            links: _,
            accepted: _,
            forwarded: _,
            sender: _,
            life: _,
            log,
        } = self;
        log
    }

    /// All clients go away, so nothing is open.
    pub fn leave_all(&mut self) -> Result<(), Stopped> {
        for _ in 0..MOST_OPEN {
            let Some(caller) = self.callers.pop() else {
                return Ok(());
            };
            let number = caller.number;
            self.happen(Happening::Gone(number), Occurred::Gone(number))?;
        }
        Ok(())
    }

    /// Another process goes on over the store that this one has written, where nothing is open.
    pub fn restarted(self) -> Result<World, Stopped> {
        let moment = self.moment();
        let World {
            alloc,
            dice,
            engine,
            now,
            callers,
            links,
            accepted,
            forwarded,
            sender,
            life,
            log,
        } = self;
        if engine.open_exchanges() > 0 || !links.is_empty() {
            return Err(Stopped::NoRestart);
        }
        if !life.is_replayed(alloc) {
            return Err(Stopped::OtherReplay);
        }
        let text = log.table.text(alloc)?;
        let file = written(alloc, engine)?;
        let engine = begun(alloc, text.as_bytes(), file.as_slice())?;
        let life = Life::begin(
            alloc,
            text.as_bytes(),
            moment,
            accepted,
            forwarded,
            Some(file),
        )?;
        Ok(World {
            alloc,
            dice,
            engine,
            now,
            callers,
            links,
            accepted,
            forwarded,
            sender,
            life,
            log,
        })
    }

    /// One more happening.
    pub fn step(&mut self) -> Result<(), Stopped> {
        if self.dice.once_in(5) {
            self.change_moment()?;
        }
        let roll = self.dice.below(100);
        if self.callers.is_empty() || (roll < 8 && self.callers.len() < MOST_OPEN) {
            return self.accept();
        }
        match roll {
            0..=3 => self.client_leaves(),
            4..=7 => self.link_ends(),
            8 => self.connection_retires(),
            9 => self.too_late(),
            10 => self.wait_ends(),
            11..=54 => self.client_sends(),
            _ if self.links.is_empty() => self.client_sends(),
            _ => self.origin_sends(),
        }
    }

    /// The moment goes forward, or at times back. That is no happening.
    fn change_moment(&mut self) -> Result<(), Stopped> {
        let seconds = self.dice.below(6) as u64;
        self.now = match self.dice.below(10) {
            0 => self.now.saturating_sub(seconds),
            1 => self.now.saturating_add(10 * seconds),
            _ => self.now.saturating_add(seconds),
        };
        let moment = self.moment();
        push_item(&mut self.log.script, Item::At(moment))?;
        self.life.note_moment(moment)?;
        Ok(())
    }

    fn moment(&self) -> u64
        ensures { result < 253402300800 }
    {
        self.now.min(LAST_MOMENT)
    }

    fn accept(&mut self) -> Result<(), Stopped> {
        self.accepted = self.accepted.saturating_add(1);
        let number = self.accepted;
        let caller = Caller::new(self.alloc, number);
        self.callers.push(caller).map_err(AllocError::from)?;
        self.happen(Happening::Accept(number), Occurred::Accepted(number))
    }

    /// A client sends a piece of a request, of a new one where the last was sent whole.
    fn client_sends(&mut self) -> Result<(), Stopped> {
        let i = self.dice.below(self.callers.len());
        let Some(caller) = self.callers.get_mut(i) else {
            return self.accept();
        };
        if caller.rest.is_empty() || self.dice.once_in(8) {
            let asked = caller.begin(self.alloc, &mut self.dice)?;
            self.log.asked.push(asked).map_err(AllocError::from)?;
        }
        let number = caller.number;
        self.sender = number;
        let piece = cut_piece(&mut self.dice, &mut caller.rest)?;
        caller.note_sent(piece.len());
        let occurred = caller.occurred();
        self.happen(Happening::Client(number, piece.as_slice()), occurred)
    }

    /// An origin sends a piece of its answer, and closes where all of it was sent.
    fn origin_sends(&mut self) -> Result<(), Stopped> {
        let i = self.dice.below(self.links.len());
        let Some(link) = self.links.get_mut(i) else {
            return self.accept();
        };
        let number = link.number;
        if !link.has_begun {
            link.begin(self.alloc, &mut self.dice)?;
        } else if link.rest.is_empty() {
            return self.happen(Happening::Shut(number), Occurred::Link(number));
        }
        let piece = cut_piece(&mut self.dice, &mut link.rest)?;
        self.happen(
            Happening::Link(number, piece.as_slice()),
            Occurred::Link(number),
        )
    }

    /// Where the client stands that leaves: often the one that sent something last, whose request may wait.
    fn leaver(&mut self) -> usize {
        if self.dice.once_in(2) {
            for (i, caller) in self.callers.iter().enumerate() {
                if caller.number == self.sender {
                    return i;
                }
            }
        }
        self.dice.below(self.callers.len())
    }

    /// A client sends no more, or goes away.
    fn client_leaves(&mut self) -> Result<(), Stopped> {
        let i = self.leaver();
        let Some(caller) = self.callers.get_mut(i) else {
            return self.accept();
        };
        let number = caller.number;
        if self.dice.once_in(2) {
            caller.has_ended = true;
            let occurred = caller.occurred();
            return self.happen(Happening::End(number), occurred);
        }
        self.callers.retain(|caller| caller.number != number);
        self.happen(Happening::Gone(number), Occurred::Gone(number))
    }

    /// The proxy wants to end a connection.
    fn connection_retires(&mut self) -> Result<(), Stopped> {
        let i = self.dice.below(self.callers.len());
        let Some(caller) = self.callers.get(i) else {
            return self.accept();
        };
        let number = caller.number;
        self.happen(Happening::Retire(number), Occurred::Retired(number))
    }

    /// The request of a client has waited long enough, of the first that waits from some place on.
    fn wait_ends(&mut self) -> Result<(), Stopped> {
        let from = self.dice.below(self.callers.len());
        for i in 0..self.callers.len() {
            let place = from.saturating_add(i).checked_rem(self.callers.len());
            let caller = place.and_then(|place| self.callers.get(place));
            let Some(number) = caller.map(|it| it.number) else {
                break;
            };
            if self.is_overdue(number)? {
                return self.went(Happening::Overdue(number), Occurred::Overdue(number));
            }
        }
        self.client_sends()
    }

    /// The engine takes that the request of a client has waited long enough, if it waits.
    fn is_overdue(&mut self, number: u64) -> Result<bool, Stopped> {
        let Some(own) = self.life.own(Happening::Overdue(number)) else {
            return Ok(false);
        };
        match self.engine.take(self.alloc, own) {
            Ok(()) => Ok(true),
            Err(EngineFault::NotWaiting) => Ok(false),
            Err(fault) => Err(Stopped::from(fault)),
        }
    }

    /// A link fails, or its origin closes it.
    fn link_ends(&mut self) -> Result<(), Stopped> {
        let i = self.dice.below(self.links.len());
        let Some(link) = self.links.get(i) else {
            return self.client_sends();
        };
        let number = link.number;
        let happening = match self.dice.below(4) {
            0 => Happening::Fail(number, FailKind::Refused),
            1 => Happening::Fail(number, FailKind::TimedOut),
            2 => Happening::Fail(number, FailKind::Closed),
            _ => Happening::Shut(number),
        };
        self.happen(happening, Occurred::Link(number))
    }

    /// Something happens at an end that is over.
    fn too_late(&mut self) -> Result<(), Stopped> {
        let n = (self.dice.below(self.accepted as usize) as u64).saturating_add(1);
        let l = (self.dice.below(self.forwarded as usize) as u64).saturating_add(1);
        let is_open = self.callers.iter().any(|caller| caller.number == n);
        let is_linked = self.forwarded == 0 || self.links.iter().any(|link| link.number == l);
        match happening_at_an_ended_end(self.dice.below(6), n, l, is_open, is_linked) {
            Some((happening, occurred)) => self.happen(happening, occurred),
            None => self.client_sends(),
        }
    }

    /// Takes what happened, and writes it.
    fn happen(&mut self, happening: Happening<'_>, occurred: Occurred) -> Result<(), Stopped> {
        // What is told of an end that another process had is told to nobody.
        if let Some(own) = self.life.own(happening) {
            self.engine.take(self.alloc, own)?;
        }
        self.went(happening, occurred)
    }

    /// Writes what was taken, and does what is due.
    fn went(&mut self, happening: Happening<'_>, occurred: Occurred) -> Result<(), Stopped> {
        push_item(&mut self.log.script, Item::Happens(happening))?;
        let before = self.log.effects.len();
        if self.life.note(happening)? {
            self.settle()?;
        }
        let length = self.log.effects.len().saturating_sub(before);
        let now = self.moment();
        self.log
            .steps
            .push(Step {
                occurred,
                now,
                length,
            })
            .map_err(AllocError::from)?;
        Ok(())
    }

    /// Does all that is due.
    fn settle(&mut self) -> Result<(), Stopped> {
        let now = self.moment();
        for _ in 0..MOST_ACTS {
            match self.engine.work(self.alloc, now)? {
                Work::Idle => return Ok(()),
                Work::Did(effects) => self.see(effects)?,
            }
        }
        Err(Stopped::Restless)
    }

    /// Writes effects, and learns from them which ends there are.
    fn see(&mut self, effects: Vec<Effect>) -> Result<(), Stopped> {
        let mut effects = effects;
        self.life.renumber(self.alloc, effects.as_mut_slice())?;
        let text = effects_text(self.alloc, effects.as_slice())?;
        self.log.effects.extend_from_slice(text.as_slice())?;
        for effect in &effects {
            self.note_effect(effect)?;
        }
        Ok(())
    }

    fn note_effect(&mut self, effect: &Effect) -> Result<(), Stopped> {
        match effect {
            Effect::Client(number, bytes, replied) => {
                self.note_reply(*number, bytes.as_slice(), replied.as_ref())?;
            }
            Effect::Forward(number, _, bytes) => self.open(*number, bytes.as_slice())?,
            Effect::Close(number) => self.callers.retain(|caller| caller.number != *number),
            Effect::Drop(number) => self.links.retain(|link| link.number != *number),
        }
        Ok(())
    }

    /// A reply goes to a client: the next of its requests is answered. An interim response, of which nothing is told,
    /// answers none.
    fn note_reply(
        &mut self,
        number: u64,
        bytes: &[u8],
        replied: Option<&ReplyData>,
    ) -> Result<(), Stopped> {
        let Some(replied) = replied else {
            return match bytes.starts_with(b"HTTP/1.1 100 ") {
                true => Ok(()),
                false => Err(Stopped::ToldOtherwise),
            };
        };
        let Some(caller) = self.callers.iter_mut().find(|it| it.number == number) else {
            return Err(Stopped::ToldOtherwise);
        };
        caller.answered = caller.answered.saturating_add(1);
        let ordinal = caller.answered;
        let asked = self
            .log
            .asked
            .iter()
            .rev()
            .find(|it| it.connection == number && it.ordinal == ordinal);
        let is_of_it = match asked {
            Some(asked) => is_told_of(replied, asked),
            None => false,
        };
        if is_of_it && is_told(self.alloc, bytes, &replied.about)? {
            Ok(())
        } else {
            Err(Stopped::ToldOtherwise)
        }
    }

    /// There is a new link, with this request.
    fn open(&mut self, number: u64, request: &[u8]) -> Result<(), Stopped> {
        self.forwarded = number;
        let link = Link {
            number,
            question: Question::read(self.alloc, request)?,
            has_begun: false,
            rest: Vec::new(self.alloc),
        };
        self.links.push(link).map_err(AllocError::from)?;
        Ok(())
    }
}
