//! The page of figures of a server: what it counts and holds.

use crate::server::Server;
use hx_store::Shelf;
use proxy_figures::{ClientFigures, Figures, LinkFigures, ProgramFacts, RecordState};
use proxy_log::Lines;
use std::alloc::{AllocError, Global};
use std::io::Write;
use std::net::Net;

impl<'a, S: Shelf + Drop, R: Net, W: Write + Drop> Server<'a, S, R, W> {
    /// The page of figures. Its only error is out of memory. Replies are counted where the sockets keep counts.
    pub fn stats(&self, alloc: Global, about: &ProgramFacts<'_>) -> Result<Vec<u8>, AllocError> {
        let sockets = &self.ends.sockets;
        let (clients, links) = (&sockets.clients, &sockets.links);
        let listen = sockets.address().to_string(alloc)?;
        let figures = Figures {
            about,
            listen: listen.as_str(),
            now: sockets.moment.max(about.began),
            turns: &sockets.turns,
            is_draining: sockets.is_draining(),
            replies: sockets.replies.as_ref(),
            clients: ClientFigures {
                open: clients.open_count(),
                closing: clients.closing_count(),
                limit: sockets.limits.connections,
                accepts: &sockets.accept_counts,
                endings: &clients.endings,
                unanswered: &clients.unanswered,
                unsent: clients.unsent(),
            },
            links: LinkFigures {
                timeouts: &links.timeouts,
                origins: &links.origins,
                oldest: links.oldest_link_milliseconds(sockets.now),
            },
            held: clients.held().saturating_add(links.held()),
            held_limit: sockets.limits.content,
            log_lines: sockets.log().map_or(0, Lines::added),
            record: RecordState::of(self.ends.is_recording(), self.ends.has_ended()),
        };
        figures.page(alloc)
    }
}
