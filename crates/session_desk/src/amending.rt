//! Who answers messages from a ledger.
ghost use Rattle.std.specs.Prelude.{◌≡◌, ◌≤◌, ◌<◌, ◌+◌, ◌++◌, ◌∷◌, [], All, List, ℕ, length, map};
ghost use Rattle.std.specs.Prelude.{IfOk, IfErr, OnOk, vec_capacity};
ghost use Rattle.turn_lock.specs.Seats.{IsAtRest};
ghost use Rattle.scr_reader.specs.Again.{IsFitItem};
ghost use Rattle.scr_replies.specs.Replies.{asks_of, reply_text, bad_text};
ghost use Rattle.scr_replies.specs.Received.{AreFor};
ghost use Rattle.session_desk.specs.Begun.{HasBroken, TakesFit};
ghost use Rattle.holding_book.specs.declared.answer.Entry.{Entry as EntryValue};
ghost use Rattle.session_desk.specs.Stopped.{StopsAt};
ghost use Rattle.session_desk.specs.Seen.{SeenGoesOn, IsLedgerHistory};
ghost use Rattle.session_desk.specs.Private.Amended.{HasAnswers, HasOneAnswer, HasLeft};
ghost use Rattle.session_desk.specs.Private.Amended.{StopsAnswer};

use crate::responder::{AnswerFault, Responder};
use crate::time_slices::LinkSlices;
use holding_book::laws::answer_lines;
use holding_book::{Answer, Entry};
use scr_reader::laws::{one_run, read_items_can_be_asked, read_lines_fit};
use scr_reader::{Item, Message, Placed};
use scr_replies::{Received, put_bad, receive, reply_message};
use season_days::Season;
use slot_ledger::{Beside, EnterFault, SharedLedger, SharedPass};
use slot_text::{Memory, Station};
use std::alloc::Global;
use std::sync::Wait;
use worker_gate::Gate;

/// A caller of a desk: the desk's season and airport, the caller's number, and how many entries
/// there may be with those that were found before. Proofs alone have values of it.
pub struct DeskCaller {
    pub season: Season,
    pub airport: Station,
    pub caller: u32,
    pub most: u32,
}

/// The gate of one worker, as it amends. A responder promises nothing of threads, so this asks for
/// no `Sync`.
pub(crate) trait LineGate {
    /// The worker is about to amend one line of a message.
    fn before_line(&self);
}

/// A worker at a gate.
#[derive(Drop)]
pub(crate) struct AtGate<'a, G: Gate> {
    pub gate: &'a G,
    pub worker: u32,
}

impl<'a, G: Gate> LineGate for AtGate<'a, G> {
    fn before_line(&self) {
        self.gate.before_line(self.worker);
    }
}

/// Who answers the messages of one caller: each item is an ask of the ledger.
#[derive(Drop)]
pub(crate) struct Amending<'a, 'b, R: Wait, G: LineGate, B: Beside> {
    pub rt: &'a R,
    pub gate: &'a G,
    pub ledger: &'a SharedLedger<B>,
    pub season: Season,
    pub airport: Station,
    pub caller: u32,
    pub slices: LinkSlices<'b>,
}

impl<'a, 'b, R: Wait, G: LineGate, B: Beside> Responder for Amending<'a, 'b, R, G, B> {
    ghost use Rattle.session_desk.specs.Begun.{IsAnsweredBy, IsBegunBy, HasBroken, TakesFit};
    ghost use Rattle.session_desk.specs.Begun.{ledger_caller};
    ghost use Rattle.session_desk.specs.Stopped.{StopsAt};
    ghost use Rattle.session_desk.specs.Seen.{IsLedgerHistory};

    type Entry = Entry;

    type Pass = SharedPass<B>;

    type About = DeskCaller;

    ghost own = { λ pass. B.read pass.own };

    ghost seen = { λ pass. B.read pass.seen };

    ghost legal = { λ a history. IsLedgerHistory a.ledger.now.origin.start history };

    ghost ready = { λ a pass. IsAtRest a.ledger.now pass × (pass.number ≡ a.caller)
        × (a.season ≡ a.ledger.now.origin.start.declaration.season)
        × (a.airport ≡ a.ledger.now.origin.start.declaration.airport)
        × TakesFit B.takes a.ledger.now.origin a.caller };

    ghost about = { λ a. ledger_caller (B.found a.ledger.now.origin.beside)
        a.ledger.now.origin.start a.caller };

    ghost answers = { IsAnsweredBy };

    ghost begins = { IsBegunBy (HasBroken B.broken) };

    ghost stopped = { λ a pass fault.
        StopsAt B.read B.broken a.ledger.now.origin.start.most pass.seen fault };

    fn piece_came(&self, whole: bool) {
        self.slices.piece_came(whole);
    }

    fn piece_done(&self, whole: bool) {
        self.slices.piece_done(whole);
    }

    fn answer(
        &self,
        pass: &mut SharedPass<B>,
        alloc: Global,
        lines: &[u8],
    ) -> Result<Vec<u8>, AnswerFault> {
        one_run();
        read_lines_fit();
        read_items_can_be_asked();
        match receive(alloc, self.season, self.airport, lines) {
            Ok(Received::Good(message)) => self.reply(pass, alloc, &message),
            Ok(Received::Bad { line }) => bad_reply(alloc, line),
            Err(Memory) => Err(AnswerFault::Memory),
        }
    }
}

/// The text for a message with a bad line.
fn bad_reply(alloc: Global, line: u32) -> Result<Vec<u8>, AnswerFault>
    ensures text { IfOk result (λ text. text.items ≡ bad_text line) }
    ensures fault { IfErr result (λ fault. fault ≡ AnswerFault.Memory) }
{
    let mut text = Vec::new(alloc);
    match put_bad(alloc, &mut text, line) {
        Ok(()) => Ok(text),
        Err(Memory) => Err(AnswerFault::Memory),
    }
}

impl<'a, 'b, R: Wait, G: LineGate, B: Beside> Amending<'a, 'b, R, G, B> {
    /// Answers a good message.
    fn reply(
        &self,
        pass: &mut SharedPass<B>,
        alloc: Global,
        message: &Message,
    ) -> Result<Vec<u8>, AnswerFault>
        requires rest { IsAtRest self.now.ledger.now pass.old }
        requires caller { pass.old.number ≡ self.now.caller }
        requires season { message.now.season
            ≡ self.now.ledger.now.origin.start.declaration.season }
        requires takes { TakesFit B.takes self.now.ledger.now.origin self.now.caller }
        requires items { All (λ placed. IsFitItem message.now.season placed.item)
            message.now.items }
        ensures rest { IsAtRest self.now.ledger.now pass.new }
        ensures caller { pass.new.number ≡ self.now.caller }
        ensures seen { SeenGoesOn (IsLedgerHistory self.now.ledger.now.origin.start)
            (B.read pass.old.seen) (B.read pass.new.seen) }
        ensures stopped { IfErr result (StopsAt B.read B.broken
            self.now.ledger.now.origin.start.most pass.new.seen) }
        ensures ok { IfOk result (λ text. (entries : List EntryValue)
            × (B.read pass.new.own ≡ B.read pass.old.own ++ entries)
            × AreFor self.now.caller (asks_of message.now) entries
            × (text.items ≡ reply_text message.now (map (λ (e : EntryValue). e.answer) entries))) }
        ensures err { IfErr result (λ fault.
            HasLeft (HasBroken B.broken)
            (B.found self.now.ledger.now.origin.beside + self.now.ledger.now.origin.start.most)
            self.now.caller fault message.now.items (B.read pass.old.own) (B.read pass.new.own)) }
    {
        match self.amend_all(pass, alloc, message.items.items()) {
            Ok(answers) => match reply_message(alloc, message, &answers) {
                Ok(text) => Ok(text),
                Err(Memory) => Err(AnswerFault::Memory),
            },
            Err(fault) => Err(fault),
        }
    }

    /// Asks item by item.
    fn amend_all(
        &self,
        pass: &mut SharedPass<B>,
        alloc: Global,
        items: &[Placed],
    ) -> Result<Vec<Answer>, AnswerFault>
        requires rest { IsAtRest self.now.ledger.now pass.old }
        requires caller { pass.old.number ≡ self.now.caller }
        requires takes { TakesFit B.takes self.now.ledger.now.origin self.now.caller }
        requires items { All (λ placed.
            IsFitItem self.now.ledger.now.origin.start.declaration.season placed.item) items.now }
        ensures rest { IsAtRest self.now.ledger.now pass.new }
        ensures caller { pass.new.number ≡ self.now.caller }
        ensures seen { SeenGoesOn (IsLedgerHistory self.now.ledger.now.origin.start)
            (B.read pass.old.seen) (B.read pass.new.seen) }
        ensures stopped { IfErr result (StopsAt B.read B.broken
            self.now.ledger.now.origin.start.most pass.new.seen) }
        ensures ok { IfOk result (λ answers.
            HasAnswers self.now.ledger.now.origin.start.declaration.season self.now.caller
            items.now (B.read pass.old.own) (B.read pass.new.own) answers.items) }
        ensures err { IfErr result (λ fault.
            HasLeft (HasBroken B.broken)
            (B.found self.now.ledger.now.origin.beside + self.now.ledger.now.origin.start.most)
            self.now.caller fault items.now (B.read pass.old.own) (B.read pass.new.own)) }
    {
        let mut answers = match Vec::with_capacity(alloc, items.len()) {
            Ok(answers) => answers,
            Err(_) => return Err(AnswerFault::Memory),
        };
        for placed in items {
            match self.amend_one(pass, alloc, &placed.item, &mut answers) {
                Ok(()) => {}
                Err(fault) => return Err(fault),
            }
        }
        Ok(answers)
    }

    /// One ask.
    fn amend_one(
        &self,
        pass: &mut SharedPass<B>,
        alloc: Global,
        ask: &Item,
        answers: &mut Vec<Answer>,
    ) -> Result<(), AnswerFault>
        requires rest { IsAtRest self.now.ledger.now pass.old }
        requires caller { pass.old.number ≡ self.now.caller }
        requires takes { TakesFit B.takes self.now.ledger.now.origin self.now.caller }
        requires ask { IsFitItem self.now.ledger.now.origin.start.declaration.season ask.now }
        requires room { length answers.old.items < vec_capacity answers.old }
        ensures rest { IsAtRest self.now.ledger.now pass.new }
        ensures caller { pass.new.number ≡ self.now.caller }
        ensures seen { SeenGoesOn (IsLedgerHistory self.now.ledger.now.origin.start)
            (B.read pass.old.seen) (B.read pass.new.seen) }
        ensures stopped { IfErr result (StopsAt B.read B.broken
            self.now.ledger.now.origin.start.most pass.new.seen) }
        ensures kept { vec_capacity answers.new ≡ vec_capacity answers.old }
        ensures ok { OnOk result
            (HasOneAnswer self.now.ledger.now.origin.start.declaration.season self.now.caller
            ask.now (B.read pass.old.own) (B.read pass.new.own) answers.old.items
            answers.new.items) }
        ensures own { IfErr result (λ _. B.read pass.new.own ≡ B.read pass.old.own) }
        ensures fault { IfErr result
            (StopsAnswer (HasBroken B.broken)
            (B.found self.now.ledger.now.origin.beside
            + self.now.ledger.now.origin.start.most)) }
    {
        answer_lines();
        self.slices.wait(self.rt);
        self.gate.before_line();
        self.slices.begin_ask(self.rt);
        match self.ledger.amend(self.rt, alloc, pass, ask) {
            Ok(answer) => {
                self.slices.end_ask();
                answers.push_reserved(answer);
                Ok(())
            }
            Err(EnterFault::Full { length }) => {
                self.slices.end_ask();
                Err(AnswerFault::Full { length })
            }
            Err(EnterFault::Broken { faults }) => {
                self.slices.end_ask();
                Err(AnswerFault::Broken { faults })
            }
            Err(EnterFault::Memory) => {
                self.slices.end_ask();
                Err(AnswerFault::Memory)
            }
        }
    }
}
