ghost use Rattle.std.specs.Prelude.{◌≡◌, ◌+◌, ◌<◌, ◌++◌, IfSome, OnOk, length, option_to_list};
ghost use Rattle.txn_post.specs.Mail.{can_be_served, changing, delivering, found_awaited, found_lasting, found_unserved, keeping, letter_at, losing, no_mail, opened, out_at, outs_among, outs_of, as_sent, as_slept, place_of, refusing, sending, sleeping, taking, waking, IsMail, IsNext, IsSentAt, IsSleptAt};

use crate::lanes::Lanes;
use crate::letter::Letter;
use crate::room::{make_room, put_last};
use std::alloc::Global;
use std::marker::Model;
use txn_kv::{Items, NoMemory, Reply, Request, Target, Ticket};
use txn_report::{SentNote, SleepNote};

/// Where what a ticket names stands: among the requests that were sent, or among the sleeps.
#[derive(Clone, Copy, Debug, PartialEq, Eq)]
pub enum Place {
    Sent(usize),
    Slept(usize),
}

/// The requests and sleeps of a run, in order, and the tickets that name them.
#[derive(Debug, Drop)]
pub struct Post {
    sent: Vec<SentNote>,
    /// One for each request that was sent.
    letters: Vec<Letter>,
    sleeps: Vec<SleepNote>,
    /// For each sleep whether it still lasts.
    lasting: Vec<bool>,
    tickets: Lanes,
}

impl Model for Post {
    ghost use Rattle.txn_post.specs.Mail.{IsMail, Mail};

    ghost Value = { Mail };

    ghost view = { λ p. record { sent = p.sent.items; letters = p.letters.items; sleeps = p.sleeps.items; lasting = p.lasting.items; tickets = p.tickets } };

    ghost invariant = { λ p. IsMail (record { sent = p.sent.items; letters = p.letters.items; sleeps = p.sleeps.items; lasting = p.lasting.items; tickets = p.tickets }) };
}

impl Post {
    /// Nothing is sent, and there is no line. Takes no memory.
    pub fn new(alloc: Global) -> Post
        ensures { result ≡ no_mail }
    {
        Post {
            sent: Vec::new(alloc),
            letters: Vec::new(alloc),
            sleeps: Vec::new(alloc),
            lasting: Vec::new(alloc),
            tickets: Lanes::new(alloc),
        }
    }

    /// One line more.
    pub fn open(&mut self) -> Result<(), NoMemory>
        ensures { OnOk result (self.new ≡ opened self.old) }
    {
        let alloc = *self.sent.allocator();
        self.tickets.open(alloc)?;
        Ok(())
    }

    /// What was sent, in order.
    pub fn sent(&self) -> &[SentNote]
        ensures value { result.now ≡ self.now.sent }
        ensures mail { IsMail self.now }
    {
        self.sent.as_slice()
    }

    /// Sends a request under the next ticket of a line, in the step of the line `at`.
    pub fn send(
        &mut self,
        ticket: Ticket,
        at: u64,
        to: Target,
        request: Request,
        askers: Items<u64>,
    ) -> Result<(), NoMemory>
        requires { IsNext self.old ticket }
        ensures { OnOk result (self.new ≡ sending (record { ticket = ticket; at = at; to = to; request = request; askers = askers }) self.old) }
    {
        make_room(&mut self.letters)?;
        make_room(&mut self.sent)?;
        let place = Place::Sent(self.sent.len());
        self.tickets.name(&ticket, place)?;
        put_last(&mut self.letters, Letter::new());
        put_last(
            &mut self.sent,
            SentNote {
                ticket,
                at,
                to,
                request,
                askers,
            },
        );
        Ok(())
    }

    /// Begins a sleep under the next ticket of a line, in the step of the line `at`.
    pub fn sleep(&mut self, ticket: Ticket, at: u64) -> Result<(), NoMemory>
        requires { IsNext self.old ticket }
        ensures { OnOk result (self.new ≡ sleeping (record { ticket = ticket; at = at }) self.old) }
    {
        make_room(&mut self.lasting)?;
        make_room(&mut self.sleeps)?;
        let place = Place::Slept(self.sleeps.len());
        self.tickets.name(&ticket, place)?;
        put_last(&mut self.lasting, true);
        put_last(&mut self.sleeps, SleepNote { ticket, at });
        Ok(())
    }

    /// Where what the ticket names stands, if it names something.
    fn find(&self, ticket: &Ticket) -> Option<Place>
        ensures exact { result ≡ place_of self.now.tickets ticket.now }
        ensures mail { IsMail self.now }
    {
        self.tickets.place_of(ticket)
    }

    /// Where the request that the ticket names stands.
    fn find_sent(&self, ticket: &Ticket) -> Option<usize>
        ensures exact { result ≡ as_sent (place_of self.now.tickets ticket.now) }
        ensures found { IfSome result (IsSentAt self.now ticket.now) }
    {
        match self.find(ticket) {
            Some(Place::Sent(place)) => Some(place),
            Some(Place::Slept(_)) | None => None,
        }
    }

    /// Where the request stands that the ticket names and whose reply was not taken, refused or lost.
    pub fn find_awaited(&self, ticket: &Ticket) -> Option<usize>
        ensures exact { result ≡ found_awaited self.now ticket.now }
        ensures found { IfSome result (IsSentAt self.now ticket.now) }
    {
        let place = self.find_sent(ticket)?;
        if self.letters[place].awaited {
            Some(place)
        } else {
            None
        }
    }

    /// Where the request stands that the ticket names and that the store may handle.
    pub fn find_unserved(&self, ticket: &Ticket) -> Option<usize>
        ensures exact { result ≡ found_unserved self.now ticket.now }
        ensures found { IfSome result (IsSentAt self.now ticket.now) }
    {
        let place = self.find_sent(ticket)?;
        if self.can_be_served(place) {
            Some(place)
        } else {
            None
        }
    }

    /// Where the sleep that the ticket names stands.
    fn find_slept(&self, ticket: &Ticket) -> Option<usize>
        ensures exact { result ≡ as_slept (place_of self.now.tickets ticket.now) }
        ensures found { IfSome result (IsSleptAt self.now ticket.now) }
    {
        match self.find(ticket) {
            Some(Place::Slept(place)) => Some(place),
            Some(Place::Sent(_)) | None => None,
        }
    }

    /// Where the sleep stands that the ticket names and that has not ended.
    pub fn find_lasting(&self, ticket: &Ticket) -> Option<usize>
        ensures exact { result ≡ found_lasting self.now ticket.now }
        ensures found { IfSome result (IsSleptAt self.now ticket.now) }
    {
        let place = self.find_slept(ticket)?;
        if self.lasting[place] {
            Some(place)
        } else {
            None
        }
    }

    /// Whether the store may handle the request: it neither did nor was too busy to.
    pub fn can_be_served(&self, place: usize) -> bool
        requires { place < length self.now.sent }
        ensures { result ≡ can_be_served self.now place }
    {
        self.letters[place].can_be_served()
    }

    /// The store handled the request, and its reply is kept.
    pub fn keep(&mut self, place: usize, reply: Reply)
        requires { place < length self.old.sent }
        ensures { self.new ≡ changing (keeping reply) place self.old }
    {
        self.letters[place].keep(reply);
    }

    /// The store handled the request, and its client takes the reply.
    pub fn deliver(&mut self, place: usize)
        requires { place < length self.old.sent }
        ensures { self.new ≡ changing delivering place self.old }
    {
        self.letters[place].deliver();
    }

    /// The client takes the reply that is kept, if one is.
    pub fn take_kept(&mut self, place: usize) -> Option<Reply>
        requires { place < length self.old.sent }
        ensures reply { result ≡ (letter_at self.old place).kept }
        ensures taken { self.new ≡ changing taking place self.old }
    {
        self.letters[place].take_kept()
    }

    /// The store is too busy to look at the request, and its client is told so.
    pub fn refuse(&mut self, place: usize)
        requires { place < length self.old.sent }
        ensures { self.new ≡ changing refusing place self.old }
    {
        self.letters[place].refuse();
    }

    /// The client is told that no reply will come. The store may still handle the request.
    pub fn lose(&mut self, place: usize)
        requires { place < length self.old.sent }
        ensures { self.new ≡ changing losing place self.old }
    {
        self.letters[place].lose();
    }

    /// The sleep ends.
    pub fn wake(&mut self, place: usize)
        requires { place < length self.old.sleeps }
        ensures { self.new ≡ waking place self.old }
    {
        self.lasting[place] = false;
    }

    /// The ticket of what stands at a place of a line, if it is out.
    fn out_at(&self, place: Place) -> Option<Ticket>
        ensures { result ≡ out_at self.now place }
    {
        match place {
            Place::Sent(place) => match (self.sent.get(place), self.letters.get(place)) {
                (Some(note), Some(letter)) if letter.awaited => Some(note.ticket),
                _ => None,
            },
            Place::Slept(place) => match (self.sleeps.get(place), self.lasting.get(place)) {
                (Some(note), Some(lasting)) if *lasting => Some(note.ticket),
                _ => None,
            },
        }
    }

    /// Notes the ticket of what stands at a place, if it is out.
    fn push_out(&self, place: Place, outs: &mut Vec<Ticket>) -> Result<(), NoMemory>
        ensures { OnOk result (outs.new.items ≡ outs.old.items ++ option_to_list (out_at self.now place)) }
    {
        if let Some(ticket) = self.out_at(place) {
            outs.push(ticket)?;
        }
        Ok(())
    }

    /// Notes the tickets of what stands at places and is out.
    fn push_outs_among(&self, places: &[Place], outs: &mut Vec<Ticket>) -> Result<(), NoMemory>
        ensures { OnOk result (outs.new.items ≡ outs.old.items ++ outs_among self.now places.now) }
    {
        for place in places {
            self.push_out(*place, outs)?;
        }
        Ok(())
    }

    /// Notes the tickets of a line that are out, in the order of their numbers, and those of its heartbeat last. Lines are counted
    /// from 0 here.
    pub fn push_outs(&self, line: usize, outs: &mut Vec<Ticket>) -> Result<(), NoMemory>
        requires calls { line < length self.now.tickets.calls }
        requires beats { line < length self.now.tickets.beats }
        ensures { OnOk result (outs.new.items ≡ outs.old.items ++ outs_of self.now (line + 1)) }
    {
        self.push_outs_among(self.tickets.calls(line), outs)?;
        self.push_outs_among(self.tickets.beats(line), outs)
    }

    /// The requests, and the sleeps, of the whole run. Takes no memory.
    pub fn into_notes(self) -> (Items<SentNote>, Items<SleepNote>)
        ensures sent { result.0 ≡ self.sent }
        ensures sleeps { result.1 ≡ self.sleeps }
        ensures mail { IsMail self }
    {
        (Items::from_vec(self.sent), Items::from_vec(self.sleeps))
    }
}
