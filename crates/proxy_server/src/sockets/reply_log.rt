//! What is told of each reply, and of each request that never had one: its line in the log, and what it counts as.
ghost use Rattle.std.specs.Prelude.{◌≡◌};

use crate::sockets::live_sockets::LiveSockets;
use hx_status::ReplyData;
use proxy_ends::{Reply, UnansweredDeparture};
use proxy_figures::reply_sort_of;
use proxy_log::LoggedRequest;
use std::mem::replace;
use std::net::Net;

impl<'a, R: Net> LiveSockets<'a, R> {
    /// Adds the line about a client that went with a request that isn't answered. One that is open had gone forward on
    /// this link, and asks for this.
    pub(crate) fn log_departure(
        &mut self,
        departure: Option<UnansweredDeparture>,
        link: Option<u64>,
        request: Option<LoggedRequest<'_>>,
    )
        ensures { self.new ≡ record self.old { log = self.new.log } }
    {
        let (Some(lines), Some(departure)) = (&mut self.log, departure) else {
            return;
        };
        let took = departure.milliseconds_taken(self.now);
        let origin = self.links.origin_of(link);
        let name = self.links.origins.name(origin).as_bytes();
        departure.log(request, self.moment, took, name, lines);
    }

    /// Counts lines about clients that have gone for which there was no memory.
    pub(crate) fn count_lost_lines(&mut self) {
        let lost = replace(&mut self.clients.lost_lines, 0);
        if let Some(lines) = &mut self.log {
            for _ in 0..lost {
                lines.count_lost_line();
            }
        }
    }

    /// Counts a reply that took so many milliseconds, and adds the line about it, to the client of this key.
    pub(crate) fn count_and_log_reply(&mut self, key: usize, replied: &ReplyData, took: u64)
        ensures calls { self.new.calls ≡ self.old.calls }
    {
        let about = &replied.about;
        let origin = self.line_origins.place(about.origin_line);
        if let Some(replies) = &mut self.replies {
            let sort = reply_sort_of(&about.told);
            replies.add(about.status, &sort, took);
            if let Some(place) = origin {
                self.links.origins.answered(place, about.status, &sort);
            }
        }
        let (Some(lines), Some(client)) = (&mut self.log, self.clients.streams.get_mut(key)) else {
            return;
        };
        let reply = Reply {
            moment: self.moment,
            replied,
            took,
            origin: self.links.origins.name(origin).as_bytes(),
        };
        (**client).log_reply(&reply, lines);
    }
}
