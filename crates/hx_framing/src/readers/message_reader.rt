//! A reader of the messages of a stream, whatever their kind is: of the requests of a connection, or of the response
//! on a link. What it answers is said in `specs/RequestStream.antt` and `specs/ResponseStream.antt`, of every stream
//! that it stands for (`specs/RequestState.antt`, `specs/ResponseState.antt`).
ghost use Rattle.std.specs.Prelude.{◌≡◌, ◌+◌, ◌*◌, ◌≤◌, [], true, false, IsOk, IfOk, OnOk, OnErr, length};
ghost use Rattle.hx_framing.specs.declared.messages.Request.{Request};
ghost use Rattle.hx_framing.specs.Progress.{Progress, empty_stream_progress, progress_after_piece, progress_after_end};
ghost use Rattle.hx_framing.specs.Progress.{progress_after_answer, weight_used_by_answer};
ghost use Rattle.hx_framing.specs.RequestStream.{StreamSpells};

use crate::contents::content::{Content, ContentProgress};
use crate::frame_fault::FrameFault;
use crate::heads::request_head::Head;
use crate::heads::status_head::StatusHead;
use crate::messages::Next;
use crate::readers::message_head::MessageHead;
use crate::readers::progress::{MessageProgress, ReaderPhase, UnreadStreamBytes};
use crate::readers::unread::Unread;
use std::alloc::{AllocError, Global};
use std::fmt::{self, Debug, Formatter};
use std::marker::Model;
use std::mem::{drop, replace};

/// A reader of a stream of messages whose heads are H.
pub struct MessageReader<H: MessageHead> {
    max_body: u64,
    to_head: bool,
    unread: Unread,
    ended: bool,
    phase: ReaderPhase<H>,
}

/// A reader of a stream of requests.
pub type RequestReader = MessageReader<Head>;

/// A reader of a stream of one response.
pub type ResponseReader = MessageReader<StatusHead>;

/// One call drops it, wherever that is.
impl<H: MessageHead> Drop for MessageReader<H> {
    fn drop(self) {
        let MessageReader {
            max_body: _,
            to_head: _,
            unread: _,
            ended: _,
            phase: _,
        } = self;
    }
}

impl<H: MessageHead> Model for MessageReader<H> {
    ghost use Rattle.hx_framing.specs.ReaderState.{ReaderState};
    ghost use Rattle.hx_framing.specs.ReaderSteps.{ReaderLaws};

    ghost Value = { ReaderState H };

    ghost view = { λ r. record {
      max_body = r.max_body;
      to_head = r.to_head;
      unread = r.unread.items;
      spare = r.unread.spare;
      ended = r.ended;
      phase = r.phase;
    } };

    // The laws of its kind are proved where a reader is made, and hold of each one.
    ghost invariant = { λ r. ReaderLaws H.kind };
}

impl<H: MessageHead> Debug for MessageReader<H> {
    fn fmt<W: fmt::Write>(&self, f: &mut Formatter<W>) -> fmt::Result {
        f.debug_struct("MessageReader").finish_non_exhaustive()
    }
}

impl MessageReader<Head> {
    ghost use Rattle.hx_framing.specs.RequestState.{ReaderRepresentsStream, weight};

    /// A reader of an empty stream. Contents have at most `max_body` bytes.
    pub fn new(alloc: Global, max_body: u64) -> RequestReader
        ensures represents { ReaderRepresentsStream result (empty_stream_progress max_body false) }
        ensures weight { weight result ≤ 1 }
    {
        MessageReader {
            max_body,
            to_head: false,
            unread: Unread::new(alloc),
            ended: false,
            phase: ReaderPhase::BeforeHead,
        }
    }

    /// Whether each byte of the stream belongs to a request that was given: nothing of a next one has come.
    pub fn is_between_requests(&self) -> bool
        ensures { (p : Progress Request) → ReaderRepresentsStream self.now p → result ≡ true
            → StreamSpells p.max_body p.stream p.given [] }
    {
        self.has_begun_none()
    }
}

impl MessageReader<StatusHead> {
    ghost use Rattle.hx_framing.specs.ResponseState.{ReaderRepresentsStream, weight};

    /// A reader of an empty stream. A content has at most `max_body` bytes; `to_head` says that it
    /// answers a HEAD.
    pub fn new(alloc: Global, max_body: u64, to_head: bool) -> ResponseReader
        ensures represents { ReaderRepresentsStream result (empty_stream_progress max_body to_head) }
        ensures weight { weight result ≡ 0 }
    {
        MessageReader {
            max_body,
            to_head,
            unread: Unread::new(alloc),
            ended: false,
            phase: ReaderPhase::BeforeHead,
        }
    }
}

impl<H: MessageHead> MessageReader<H> {
    ghost use Rattle.hx_framing.specs.declared.readers.progress.ReaderPhase.TheVariants as phase;
    ghost use Rattle.hx_framing.specs.declared.frame_fault.FrameFault.{FrameFault};
    ghost use Rattle.hx_framing.specs.ReaderSteps.{StepsTo, HeadProgressLeadsReaderOn, answer_of_progress};
    ghost use Rattle.hx_framing.specs.ReaderSteps.{number_of_bytes_taken};
    ghost use Rattle.hx_framing.specs.ReaderSteps.{state_after_progress};
    ghost use Rattle.hx_framing.specs.ReaderState.{kept, KeepsOnlyUnfinished};

    /// Makes room, so that one `feed` of at most n bytes finds its memory. An `Err` changes nothing.
    pub fn reserve(&mut self, n: usize) -> Result<(), AllocError>
        ensures ok { OnOk result (n ≤ self.new.spare) }
        ensures same { self.new ≡ record self.old { spare = self.new.spare } }
        ensures err { OnErr result (self.new ≡ self.old) }
    {
        self.unread.reserve(n)
    }

    /// Gives back the room that was made and isn't used, where no byte is kept. A later `feed` allocates anew.
    /// This call allocates nothing.
    pub fn release_room(&mut self, alloc: Global)
        ensures same { self.new ≡ record self.old { spare = self.new.spare } }
        ensures released { self.old.unread ≡ [] → self.new.spare ≡ 0 }
    {
        self.unread.release_room(alloc)
    }

    /// Takes the next piece of the stream, before `finish`. An `Err` changes nothing.
    pub fn feed(&mut self, piece: &[u8]) -> Result<(), AllocError>
        ensures represents { OnOk result ((p : Progress H.Message) → H.kind.ReaderRepresentsStream self.old p
            → p.ended ≡ false → H.kind.ReaderRepresentsStream self.new (progress_after_piece p piece.now)) }
        ensures weight { H.kind.weight self.new ≤ H.kind.weight self.old + 2 * length piece.now }
        ensures given { self.old.phase ≡ phase.Given → self.new ≡ self.old }
        ensures faulty { (fault : FrameFault) → self.old.phase ≡ phase.Faulty fault → self.new ≡ self.old }
        ensures reserved { length piece.now ≤ self.old.spare → IsOk result }
        ensures err { OnErr result (self.new ≡ self.old) }
    {
        match &self.phase {
            ReaderPhase::BeforeHead => self.unread.extend(piece),
            ReaderPhase::InContent(_, _) => self.unread.extend(piece),
            // What follows the only message or a fault doesn't count.
            ReaderPhase::Given => Ok(()),
            ReaderPhase::Faulty(_) => Ok(()),
        }
    }

    /// The stream has ended. Nothing is allocated.
    pub fn finish(&mut self)
        ensures represents { (p : Progress H.Message) → H.kind.ReaderRepresentsStream self.old p
            → H.kind.ReaderRepresentsStream self.new (progress_after_end p) }
        ensures weight { H.kind.weight self.new ≤ H.kind.weight self.old + 1 }
        ensures same { self.new ≡ record self.old { ended = true } }
    {
        self.ended = true;
    }

    /// Whether the stream has ended.
    pub fn has_ended(&self) -> bool
        ensures { (p : Progress H.Message) → H.kind.ReaderRepresentsStream self.now p → result ≡ p.ended }
    {
        self.ended
    }

    /// Whether a look tells that nothing is due yet: each byte belongs to a message that was given, and more may come.
    pub fn is_quiet(&self) -> bool
        ensures { result ≡ true → (p : Progress H.Message) → H.kind.ReaderRepresentsStream self.now p
            → H.kind.Answers p Next.More }
    {
        self.has_begun_none() && !self.ended
    }

    /// Nothing has come of a next message.
    fn has_begun_none(&self) -> bool
        ensures phase { result ≡ true → self.now.phase ≡ phase.BeforeHead }
        ensures unread { result ≡ true → self.now.unread ≡ [] }
    {
        matches!(&self.phase, ReaderPhase::BeforeHead) && self.unread.len() == 0
    }

    /// What is due after the messages given. An `Err` changes nothing. Out of memory hides neither the end nor a
    /// refusal of bytes that are no head; a fault behind a head it may hide, since the head is copied first.
    pub fn next(&mut self, alloc: Global) -> Result<Next<H::Message>, AllocError>
        ensures answers { IfOk result (λ answer. (p : Progress H.Message) → H.kind.ReaderRepresentsStream self.old p
            → H.kind.Answers p answer) }
        ensures represents { IfOk result (λ answer. (p : Progress H.Message) → H.kind.ReaderRepresentsStream self.old p
            → H.kind.ReaderRepresentsStream self.new (progress_after_answer p answer)) }
        ensures weight { IfOk result (λ answer. H.kind.weight self.new + weight_used_by_answer answer
            ≤ H.kind.weight self.old) }
        ensures due { IfOk result (λ answer. H.kind.DueIsWeighed (H.kind.weight self.new) answer) }
        ensures unfinished { IfOk result (λ answer. answer ≡ Next.More → KeepsOnlyUnfinished self.new) }
        ensures room { self.old.spare ≤ self.new.spare }
        ensures memory_last { OnErr result ((p : Progress H.Message) → H.kind.ReaderRepresentsStream self.old p
            → H.kind.OutOfMemoryIsAllowed p) }
        ensures err { OnErr result (self.new ≡ self.old) }
    {
        self.step(alloc)
    }

    /// How many bytes of the stream it keeps, but for those of a content. After `More` they are at most 32,768.
    pub fn kept(&self) -> usize
        ensures { result ≡ length (kept self.now) }
    {
        self.unread.len()
    }

    /// Answers what is due, as `next` says it.
    fn step(&mut self, alloc: Global) -> Result<Next<H::Message>, AllocError>
        ensures steps { IfOk result (λ answer. StepsTo H.kind self.old answer self.new) }
        ensures room { self.old.spare ≤ self.new.spare }
        ensures memory_last { OnErr result ((p : Progress H.Message) → H.kind.ReaderRepresentsStream self.old p
            → H.kind.OutOfMemoryIsAllowed p) }
        ensures err { OnErr result (self.new ≡ self.old) }
    {
        match replace(&mut self.phase, ReaderPhase::BeforeHead) {
            ReaderPhase::BeforeHead => {
                let found = self.look(alloc)?;
                Ok(self.pass(found))
            }
            ReaderPhase::InContent(head, content) => self.read_content(alloc, head, content),
            ReaderPhase::Given => {
                self.phase = ReaderPhase::Given;
                Ok(Next::End)
            }
            ReaderPhase::Faulty(fault) => {
                self.phase = ReaderPhase::Faulty(fault);
                Ok(Next::Refused(fault))
            }
        }
    }

    /// What stands at the front of the unread bytes, before a continue was given.
    fn look(&mut self, alloc: Global) -> Result<MessageProgress<H, H::Message>, AllocError>
        requires { self.old.phase ≡ phase.BeforeHead }
        ensures found { IfOk result (HeadProgressLeadsReaderOn H.kind self.old) }
        ensures memory_last { OnErr result ((p : Progress H.Message) → H.kind.ReaderRepresentsStream self.old p
            → H.kind.OutOfMemoryIsAllowed p) }
        ensures same { self.new ≡ self.old }
    {
        let head_length = self.unread.head_length();
        let rest = UnreadStreamBytes {
            max_body: self.max_body,
            ended: self.ended,
            bytes: self.unread.as_slice(),
        };
        H::read_next_head(alloc, &rest, self.to_head, head_length)
    }

    /// Goes on after what was found before a head.
    fn pass(&mut self, found: MessageProgress<H, H::Message>) -> Next<H::Message>
        requires within { number_of_bytes_taken found ≤ length self.old.unread }
        requires waiting { self.old.phase ≡ phase.BeforeHead }
        requires open { answer_of_progress found ≡ Next.More
            → KeepsOnlyUnfinished (state_after_progress H.kind self.old self.old.spare found) }
        ensures answer { result ≡ answer_of_progress found }
        ensures state { self.new ≡ state_after_progress H.kind self.old self.new.spare found }
        ensures room { self.old.spare ≤ self.new.spare }
    {
        match found {
            MessageProgress::Incomplete(n) => {
                self.unread.take_front(n);
                Next::More
            }
            MessageProgress::NeedsContinue(head, content, n) => {
                self.unread.take_front(n);
                self.phase = ReaderPhase::InContent(head, content);
                Next::NeedsContinue
            }
            MessageProgress::InContent(head, content, n) => {
                self.unread.take_front(n);
                self.unread.note_no_line_feed();
                self.phase = ReaderPhase::InContent(head, content);
                Next::More
            }
            MessageProgress::Message(message, n) => {
                self.unread.take_front(n);
                self.phase = H::behind_message();
                Next::Message(message)
            }
            MessageProgress::Faulty(fault) => {
                self.phase = ReaderPhase::Faulty(fault);
                Next::Refused(fault)
            }
            MessageProgress::Ended => Next::End,
        }
    }

    /// What is due in the content behind a head.
    fn read_content(
        &mut self,
        alloc: Global,
        head: H,
        mut content: Content,
    ) -> Result<Next<H::Message>, AllocError>
        ensures steps { IfOk result (λ answer.
            StepsTo H.kind (record self.old { phase = phase.InContent head content }) answer self.new) }
        ensures room { self.old.spare ≤ self.new.spare }
        ensures memory_last { OnErr result ((p : Progress H.Message)
            → H.kind.ReaderRepresentsStream (record self.old { phase = phase.InContent head content }) p
            → H.kind.OutOfMemoryIsAllowed p) }
        ensures err { OnErr result (self.new ≡ record self.old { phase = phase.InContent head content }) }
    {
        let ended = self.ended;
        match self
            .unread
            .read_content(alloc, &mut content, ended, H::is_closed_by(ended))
        {
            Err(error) => {
                self.phase = ReaderPhase::InContent(head, content);
                Err(error)
            }
            Ok(ContentProgress::Incomplete(_)) => {
                self.phase = ReaderPhase::InContent(head, content);
                Ok(Next::More)
            }
            Ok(ContentProgress::Faulty(fault)) => {
                self.phase = ReaderPhase::Faulty(fault);
                Ok(Next::Refused(fault))
            }
            Ok(ContentProgress::Whole(whole, _)) => {
                drop(content);
                self.phase = H::behind_message();
                Ok(Next::Message(head.into_message(alloc, self.to_head, whole)))
            }
        }
    }
}
