//! The book.

ghost use Rattle.std.specs.Prelude.{◌≡◌, ◌↔◌, ◌+◌, ◌<◌, ◌≤◌, ◌^◌, length, slice_get, Some, None, IsSome, IsNone, IsTrue, IfOk, OnOk, IfErr, IfSome};
ghost use Rattle.std.specs.Option.{ForSome};
ghost use Rattle.season_days.specs.Capacity.{capacity_of, declared_resources};
ghost use Rattle.season_days.specs.declared.declaration.TheConstants.{HIGHEST_NIGHT_LIMIT};
ghost use Rattle.scr_reader.specs.Printed.{LineFits};
ghost use Rattle.holding_book.specs.declared.book.TheConstants.{MOST_NEW_FLIGHTS};
ghost use Rattle.holding_book.specs.Books.{SlotBook, IsBook, places_of, clashes_with};
ghost use Rattle.holding_book.specs.Left.{left_of};
ghost use Rattle.holding_book.specs.Asks.{CanAsk, outcome, reply, next};
ghost use Rattle.holding_book.specs.Replied.{HasAnswerLines};
ghost use Rattle.holding_book.specs.Private.Steps.{IsAskStep};
ghost use Rattle.holding_book.specs.Hints.{new_line, best_line};
ghost use Rattle.holding_book.specs.Private.Changes.{changed_book, IsChange};
ghost use Rattle.holding_book.specs.Starts.{start_book, HasFeasibleChoices};

use crate::answer::Answer;
use crate::change::{Change, put_lists};
use crate::finding::clashes_with_held;
use crate::holding::Holding;
use crate::laws::{answer_lines, next_fits};
use crate::loads::Loads;
use crate::places::Places;
use crate::room::Room;
use crate::start::{final_states, start_holdings, take_all};
use crate::step::AskStep;
use crate::steps::{best_line, hinted_step, step_of};
use cert_format::Certificate;
use scr_reader::{Code, Flight, Item, Line};
use season_days::Declaration;
use series_model::Submission;
use series_model::laws::{feasible_fits, option_bounds, spelled_alternatives, timed_movements};
use slot_text::Memory;
use std::alloc::Global;
use std::marker::Model;

/// For how many flights room is made before a change: two of the holding that is replaced, and two
/// of the one that is new.
pub const MOST_NEW_FLIGHTS: u32 = 4;

/// What a search found for the line of an N or B ask: the line at the cheapest alternative that
/// fits.
#[derive(Clone, Copy, Debug, PartialEq, Eq)]
pub struct Hint {
    pub best: Option<Line>,
}

// The line of an N or B ask.
fn new_line(ask: &Item) -> Option<Line>
    ensures { result ≡ new_line ask.now }
{
    match ask {
        Item::One(line) if matches!(line.code, Code::N | Code::B) => Some(*line),
        _ => None,
    }
}

/// Whether an ask is an N or B line, for which an offer may be searched.
pub fn asks_new(ask: &Item) -> bool
    ensures { IsTrue result ↔ IsSome (new_line ask.now) }
{
    match ask {
        Item::One(line) => matches!(line.code, Code::N | Code::B),
        _ => false,
    }
}

/// A declaration and the holdings of its season, which together fit.
///
/// Beside the holdings it keeps what each resource has left, four bytes each, and for each flight
/// the places of its holdings. Contracts see the declaration and the holdings, and for how many
/// further flights there is room without memory.
#[derive(Drop)]
pub struct Book {
    loads: Loads,
    holdings: Vec<Holding>,
    places: Places,
}

impl Model for Book {
    ghost use Rattle.holding_book.specs.Books.{BookView};

    ghost Value = { BookView };

    ghost use Rattle.holding_book.specs.Private.Kept.{IsKeptBook};

    ghost view = { λ b. record {
      book = record { declaration = b.loads.declaration; holdings = b.holdings.items };
      spare = b.places.spare;
    } };

    ghost invariant = { λ b. IsKeptBook b.loads b.holdings.items b.places };
}

impl Book {
    /// The book with which amendments begin: what the stages of a certificate gave to the units, in
    /// the order of the file. The choices are feasible, as those of a valid certificate are.
    ///
    /// One step a resource, and for each unit as many as its slots use.
    pub fn of(alloc: Global, submission: &Submission, cert: &Certificate) -> Result<Book, Memory>
        requires stages { length cert.now.stages ≤ 4 }
        requires feasible { HasFeasibleChoices submission.now cert.now }
        ensures { IfOk result (λ book. book.book ≡ start_book submission.now cert.now) }
    {
        feasible_fits();
        timed_movements();
        spelled_alternatives();
        option_bounds();
        let states = final_states(alloc, submission, cert)?;
        let holdings = start_holdings(alloc, &states)?;
        let mut loads = Loads::of(alloc, submission.declaration())?;
        take_all(alloc, &mut loads, &holdings)?;
        let places = Places::of(alloc, &holdings)?;
        Ok(Book {
            loads,
            holdings,
            places,
        })
    }

    /// The same book again: one step a resource and a holding.
    pub fn copy(&self, alloc: Global) -> Result<Book, Memory>
        ensures { IfOk result (λ copy. copy.book ≡ self.now.book) }
    {
        let loads = self.loads.copy(alloc)?;
        let holdings = Vec::from_slice(alloc, &self.holdings)?;
        let places = Places::of(alloc, &holdings)?;
        Ok(Book {
            loads,
            holdings,
            places,
        })
    }

    /// The declaration, which keeps the limits of a capacity file.
    pub fn declaration(&self) -> &Declaration
        ensures value { result.now ≡ self.now.book.declaration }
        ensures book { IsBook self.now.book }
    {
        self.loads.declaration()
    }

    /// The holdings in the order of the book.
    pub fn holdings(&self) -> &[Holding]
        ensures { result.now ≡ self.now.book.holdings }
    {
        &self.holdings
    }

    /// How many holdings there are.
    pub fn count(&self) -> u32
        ensures { result ≡ length self.now.book.holdings }
    {
        self.holdings.len() as u32
    }

    /// The n-th holding in the order of the book, from 0.
    pub fn holding(&self, n: u32) -> &Holding
        requires { n < length self.now.book.holdings }
        ensures { Some result.now ≡ slice_get self.now.book.holdings n }
    {
        &self.holdings[n as usize]
    }

    /// The places of the holdings that have the flight as arrival or departure, rising, as
    /// `holding` counts them. It takes no memory.
    pub fn places(&self, flight: &Flight) -> &[u32]
        ensures { result.now ≡ places_of flight.now self.now.book.holdings }
    {
        self.places.of_flight(flight)
    }

    /// Whether a line clashes with one of the holdings: has a common date with it, and the same
    /// arrival flight or the same departure flight. One step a holding of its flights.
    pub fn clashes(&self, line: &Line) -> bool
        ensures { result
            ≡ clashes_with self.now.book.declaration.season line.now self.now.book.holdings }
    {
        let season = &self.loads.declaration().season;
        clashes_with_held(season, line, &self.holdings, &self.places)
    }

    /// What all holdings leave of a resource's limit, as the book keeps it: one step.
    pub fn left(&self, resource: u32) -> u32
        requires { resource < declared_resources (capacity_of self.now.book.declaration) }
        ensures value { result ≡ left_of self.now.book resource }
        ensures few { result ≤ HIGHEST_NIGHT_LIMIT }
    {
        self.loads.left(resource)
    }

    /// The line at the cheapest alternative at which it fits beside the holdings, the first of
    /// several; none where it fits at none.
    pub fn best_option(&self, alloc: Global, line: &Line) -> Result<Option<Line>, Memory>
        requires { LineFits self.now.book.declaration.season line.now }
        ensures { IfOk result (λ best. best ≡ best_line self.now.book line.now) }
    {
        best_line(alloc, &self.loads, &self.holdings, line)
    }

    /// What `best_option` answers for the line of an N or B ask; none for any other ask.
    pub fn hint(&self, alloc: Global, ask: &Item) -> Result<Option<Hint>, Memory>
        requires { CanAsk self.now.book.declaration ask.now }
        ensures some { IfOk result (λ hint. IsSome hint ↔ IsSome (new_line ask.now)) }
        ensures best { IfOk result (λ hint. IfSome hint (λ found. ForSome (new_line ask.now)
            (λ line. found.best ≡ best_line self.now.book line))) }
    {
        let Some(line) = new_line(ask) else {
            return Ok(None);
        };
        let best = self.best_option(alloc, &line)?;
        Ok(Some(Hint { best }))
    }

    /// Makes ready what the ask will change: the answer, and all memory that the change takes. The
    /// holdings stay as they are, also after want of memory.
    pub fn prepare(&mut self, alloc: Global, ask: &Item) -> Result<Room, Memory>
        requires ask { CanAsk self.old.book.declaration ask.now }
        requires few { length self.old.book.holdings + 4 < 2 ^ 32 }
        ensures stays { self.new.book ≡ self.old.book }
        ensures book { IfOk result (λ room. room.book ≡ self.old.book) }
        ensures ask { IfOk result (λ room. room.ask ≡ ask.now) }
        ensures spare { OnOk result (MOST_NEW_FLIGHTS ≤ self.new.spare) }
    {
        let step = step_of(alloc, &mut self.loads, &self.holdings, &self.places, ask)?;
        self.make_room(ask, step)
    }

    /// The same, where `hint` has answered this for the ask on this book: nothing is searched.
    pub fn prepare_with(&mut self, alloc: Global, ask: &Item, hint: Hint) -> Result<Room, Memory>
        requires ask { CanAsk self.old.book.declaration ask.now }
        requires few { length self.old.book.holdings + 4 < 2 ^ 32 }
        requires new { IsSome (new_line ask.now) }
        requires hint { ForSome (new_line ask.now) (λ line.
            hint.best ≡ best_line self.old.book line) }
        ensures stays { self.new.book ≡ self.old.book }
        ensures book { IfOk result (λ room. room.book ≡ self.old.book) }
        ensures ask { IfOk result (λ room. room.ask ≡ ask.now) }
        ensures spare { OnOk result (MOST_NEW_FLIGHTS ≤ self.new.spare) }
    {
        let Some(line) = new_line(ask) else {
            unreachable!()
        };
        let step = hinted_step(
            alloc,
            &self.loads,
            &self.holdings,
            &self.places,
            &line,
            hint.best,
        )?;
        self.make_room(ask, step)
    }

    // Makes room for the flights of a change, and keeps what was made ready for the ask.
    fn make_room(&mut self, ask: &Item, step: AskStep) -> Result<Room, Memory>
        requires ask { CanAsk self.old.book.declaration ask.now }
        requires step { IsAskStep self.old.book (outcome self.old.book ask.now) step }
        ensures stays { self.new.book ≡ self.old.book }
        ensures book { IfOk result (λ room. room.book ≡ self.old.book) }
        ensures ask { IfOk result (λ room. room.ask ≡ ask.now) }
        ensures spare { OnOk result (MOST_NEW_FLIGHTS ≤ self.new.spare) }
    {
        next_fits();
        self.places.reserve(MOST_NEW_FLIGHTS)?;
        Ok(Room::new(self, ask, step))
    }

    /// Answers the ask and changes the book, with the room that was made for this ask on this book.
    /// It takes no memory: `prepare` and `prepare_with` leave room for so many further flights.
    pub fn apply_with(&mut self, ask: &Item, room: Room) -> Answer
        requires book { room.book ≡ self.old.book }
        requires ask { room.ask ≡ ask.now }
        requires spare { MOST_NEW_FLIGHTS ≤ self.old.spare }
        ensures answer { result ≡ reply self.old.book ask.now }
        ensures book { self.new.book ≡ next self.old.book ask.now }
    {
        let (answer, change) = room.into_parts();
        if let Some(change) = change {
            self.change(change);
        }
        answer
    }

    // Makes a change that was made ready.
    fn change(&mut self, change: Change)
        requires change { IsChange self.old.book change }
        requires spare { MOST_NEW_FLIGHTS ≤ self.old.spare }
        ensures { self.new.book ≡ changed_book self.old.book change }
    {
        self.places.move_all(change.at, change.count);
        put_lists(&mut self.places, change.lists);
        self.loads.give_back(&change.freed);
        self.loads.take(&change.taken);
        self.holdings = change.holdings;
    }

    /// Answers the ask and changes the book. After want of memory it is as before.
    pub fn apply(&mut self, alloc: Global, ask: &Item) -> Result<Answer, Memory>
        requires ask { CanAsk self.old.book.declaration ask.now }
        requires few { length self.old.book.holdings + 4 < 2 ^ 32 }
        ensures answer { IfOk result (λ answer. answer ≡ reply self.old.book ask.now) }
        ensures lines { IfOk result (λ answer.
            HasAnswerLines self.old.book.declaration.season ask.now answer) }
        ensures book { OnOk result (self.new.book ≡ next self.old.book ask.now) }
        ensures stays { IfErr result (λ _. self.new.book ≡ self.old.book) }
    {
        answer_lines();
        self.declaration();
        let room = self.prepare(alloc, ask)?;
        Ok(self.apply_with(ask, room))
    }
}
