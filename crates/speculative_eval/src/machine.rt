//! The state of a worker: what it calls for, and what becomes of it.

ghost use Rattle.std.specs.Prelude.{◌≡◌, ◌<◌, ◌≤◌, ◌*◌, ◌/◌, Some, None, ◌∷◌, IfOk, IfSome, List};
ghost use Rattle.cell_words.specs.declared.TheConstants.{WORDS};
ghost use Rattle.cell_values.specs.declared.TheConstants.{MAX_BOOK_CELLS};
ghost use Rattle.cell_values.specs.Texts.{Texts};
ghost use Rattle.cell_values.specs.Values.{IsShownOf};
ghost use Rattle.claim_core.specs.Pending.{IsPending};
ghost use Rattle.worker_machine.specs.declared.state.Entry.{Entry as OnStack};
ghost use Rattle.worker_machine.specs.Evaluation.{pop};
ghost use Rattle.worker_machine.specs.States.{State, known_at, start, top_result};
ghost use Rattle.worker_machine.specs.Machine.{next, next_top, next_known, next_store, next_needed, next_answered, after_change, settle, action_from, begins_at, after, after_word, after_claim, after_load_tag, after_load_value, push_cell, learn_cell, with_word, with_tag, store_after};
ghost use Rattle.worker_machine.specs.Machine as machine;
ghost use Rattle.worker_machine.specs.Runs.{IsSettled};
ghost use Rattle.demand_stack.specs.StackSeen.{AreStored, IsKnownTop, IsUnknownTop, ask_entry};
ghost use Rattle.speculative_eval.specs.Performs.{FitsTag};
ghost use Rattle.speculative_eval.specs.Machines.{job_of, state_of, SameTask, IsWorking, IsCalled, CanNote, CanBecome, CanPush, CanLearn};

use crate::read_words::ReadWords;
use cell_values::{Addr, Shown};
use cell_words::{CellWord, record_tag, record_value, record_words, tag_words};
use claim_core::{Claim, Event, Publish};
use demand_spec::{Asked, Results};
use demand_stack::DemandStack;
use result_list::ResultList;
use std::alloc::{AllocError, Global};
use workbook_core::{BookWith, Workbook};
use worker_machine::{Action, Change, Doing, Entry, Next, Store};

// The tag words of a cell that leads into a cycle, and of one that is on a cycle.
const TO_CYCLE: u64 = 7;

const CYCLE: u64 = 6;

/// A worker's number, how many workers there are, and all that the worker notes.
#[derive(Drop)]
pub(crate) struct Machine<'b> {
    pub(crate) number: u8,
    workers: u8,
    pub(crate) demands: DemandStack<'b>,
    held: Option<Store>,
    doing: Doing,
    words: ReadWords,
}

// The first cell that a worker looks at: those of all workers are spread evenly.
fn first_cell(number: u8, cells: usize, workers: u8) -> u32
    requires { (number < workers) × (cells ≤ MAX_BOOK_CELLS) }
    ensures value { result ≡ number * cells / workers }
    ensures few { result ≤ cells }
{
    u32::from(number) * cells as u32 / u32::from(workers)
}

// The result of a cell that this claimer is owed goes into a record.
fn store_step(cell: u32, claimer: u8, shown: Shown, held: Option<Store>) -> Next
    requires { (ts : Texts) × IsShownOf ts shown }
    ensures step { result ≡ next_store cell claimer shown held }
    ensures fits { FitsTag result (Some shown) }
{
    let Some(store) = held else {
        return Next::Do(Action::TakeRecord);
    };
    let rec = store.rec;
    if store.stored < record_words(shown) {
        let word = record_value(shown, store.stored);
        return Next::Do(Action::StoreValue {
            rec,
            k: store.stored,
            word,
        });
    }
    if store.tagged {
        return Next::Do(Action::Publish { cell, rec, claimer });
    }
    let word = record_tag(shown);
    Next::Do(Action::StoreTag { rec, word })
}

// A record in which nothing is stored for the top cell.
fn fresh_store(rec: u32) -> Store
    ensures { result ≡ machine.fresh_store rec }
{
    Store {
        rec,
        stored: 0,
        tagged: false,
    }
}

// The top cell is known.
fn known_step(entry: Entry, shown: Shown, held: Option<Store>) -> Next
    requires { (ts : Texts) × IsShownOf ts shown }
    ensures step { (s : State) → s.held ≡ held → result ≡ next_known s entry.cell shown entry.owed }
    ensures fits { FitsTag result (Some shown) }
{
    match entry.owed {
        None => Next::Alter(Change::Take),
        Some(claimer) => store_step(entry.cell, claimer, shown, held),
    }
}

impl<'b> Machine<'b> {
    /// The list of what it knows.
    pub(crate) fn into_results(self) -> ResultList
        ensures { result ≡ self.entry.demands.known }
    {
        let Machine {
            number: _,
            workers: _,
            demands,
            held: _,
            doing: _,
            words: _,
        } = self;
        demands.into_results()
    }

    /// A machine that has done nothing and knows nothing.
    #[tactic(auto, unfolding(worker_machine::specs::Machine::begins_at))]
    pub(crate) fn new(
        alloc: Global,
        number: u8,
        workers: u8,
        book: &'b Workbook,
        cells: &'b [Addr],
        stored: &'b Results,
    ) -> Result<Machine<'b>, AllocError>
        requires pending { IsPending book.now.book cells.now }
        requires number { number < workers }
        requires stored { AreStored (record { book = book.now.book; cells = cells.now }) stored.now.entries }
        ensures job { IfOk result (λ m. job_of m ≡ record { pending = record { book = book.now.book; cells = cells.now }; worker = number; workers = workers }) }
        ensures state { IfOk result (λ m. state_of m ≡ start (job_of m)) }
        ensures first { IfOk result (λ m. m.demands.first ≡ begins_at (job_of m)) }
    {
        let first = first_cell(number, cells.len(), workers);
        Ok(Machine {
            number,
            workers,
            demands: DemandStack::new(alloc, BookWith::new(book), cells, stored, first)?,
            held: None,
            doing: Doing::Free,
            words: ReadWords::new(),
        })
    }

    // The top cell needs the cell with this number, or a cell that is not pending.
    fn needed_step(&self, number: Option<u32>) -> Next
        ensures { result ≡ next_needed (state_of self.now) number }
    {
        let Some(cell) = number else {
            return Next::Alter(Change::Learn(Shown::ToCycle));
        };
        if self.demands.known(cell).is_some() {
            return Next::Alter(Change::Learn(Shown::ToCycle));
        }
        if self.demands.is_on_stack(cell) {
            Next::Alter(Change::Close { cell })
        } else {
            Next::Do(Action::Look { cell })
        }
    }

    // The top cell is not known.
    fn asked_step(&mut self) -> Next
        requires { (f : OnStack) × IsUnknownTop self.old.demands f }
        ensures step { (f : OnStack) → IsUnknownTop self.old.demands f → result ≡ next_answered (job_of self.old) (state_of self.old) (ask_entry self.old.demands f) }
        ensures fits { FitsTag result None }
        ensures same { self.new ≡ self.old }
    {
        match self.demands.ask() {
            Asked::Val(value) => Next::Alter(Change::Learn(Shown::Val(value))),
            Asked::Needs(at) => self.needed_step(self.demands.number_of(at)),
        }
    }

    // The stack has this top.
    fn top_step(&mut self, entry: Entry) -> Next
        requires { (rest : List OnStack) × (self.old.demands.stack ≡ entry ∷ rest) }
        ensures step { result ≡ next_top (job_of self.old) (state_of self.old) entry (known_at (state_of self.old) entry.cell) }
        ensures fits { FitsTag result (top_result self.old.demands.known self.old.demands.stack) }
        ensures same { self.new ≡ self.old }
    {
        match self.demands.known(entry.cell) {
            Some(shown) => known_step(entry, shown, self.held),
            None => self.asked_step(),
        }
    }

    // What the state calls for.
    #[tactic(auto, unfolding(worker_machine::specs::Machine::next))]
    fn next_step(&mut self) -> Next
        ensures step { result ≡ next (job_of self.old) (state_of self.old) }
        ensures fits { FitsTag result (top_result self.old.demands.known self.old.demands.stack) }
        ensures same { self.new ≡ self.old }
    {
        match self.doing {
            Doing::Claiming { cell } => Next::Do(Action::Claim { cell }),
            Doing::ReadingTag { cell: _, rec } => Next::Do(Action::LoadTag { rec }),
            Doing::ReadingValue {
                cell: _,
                rec,
                tag: _,
            } => Next::Do(Action::LoadValue {
                rec,
                k: self.words.len(),
            }),
            Doing::Free => match self.demands.top() {
                None => Next::Rest,
                Some(entry) => self.top_step(entry),
            },
        }
    }

    // What changes without a step.
    fn alter(&mut self, change: Change)
        requires { IsCalled self.old change }
        ensures state { state_of self.new ≡ after_change (state_of self.old) change }
        ensures task { SameTask self.old self.new }
    {
        match change {
            Change::Take => self.demands.pop(),
            Change::Learn(shown) => self.demands.learn_top(shown),
            Change::Close { cell } => self.demands.close(cell),
        }
    }

    /// Makes all changes before a step, and tells what the state calls for then.
    pub(crate) fn settle(&mut self) -> Next
        requires { IsWorking self.old }
        ensures state { state_of self.new ≡ settle (job_of self.old) (state_of self.old) }
        ensures task { SameTask self.old self.new }
        ensures next { result ≡ next (job_of self.new) (state_of self.new) }
        ensures fits { FitsTag result (top_result self.new.demands.known self.new.demands.stack) }
        ensures settled { IsSettled (job_of self.new) (state_of self.new) }
    {
        loop {
            match self.next_step() {
                Next::Alter(change) => self.alter(change),
                next => return next,
            }
        }
    }

    /// The step of a settled state, where this is what it calls for and the hint.
    pub(crate) fn choose(&mut self, next: Next, hint: Option<u32>) -> Option<Action>
        requires { self.old.demands.first ≡ begins_at (job_of self.old) }
        ensures action { result ≡ action_from (job_of self.old) (state_of self.old) hint next }
        ensures same { self.new ≡ self.old }
    {
        match next {
            Next::Alter(_) => None,
            Next::Do(action) => Some(action),
            Next::Rest => {
                let cell = match hint {
                    Some(cell) => cell,
                    None => self.demands.first_unknown()?,
                };
                Some(Action::Look { cell })
            }
        }
    }

    // Puts a cell on the stack.
    fn push(&mut self, cell: u32, owed: Option<u8>)
        requires { CanPush self.old.demands cell }
        ensures state { state_of self.new ≡ push_cell cell owed (state_of self.old) }
        ensures task { SameTask self.old self.new }
    {
        self.doing = Doing::Free;
        self.demands.push(Entry { cell, owed });
    }

    // Notes the result of a cell.
    fn learn(&mut self, cell: u32, shown: Shown)
        requires { CanLearn self.old.demands cell shown }
        ensures state { state_of self.new ≡ learn_cell cell shown (state_of self.old) }
        ensures task { SameTask self.old self.new }
    {
        self.doing = Doing::Free;
        self.demands.learn(cell, shown);
    }

    // Notes a cell's word.
    fn note_word(&mut self, cell: u32, word: CellWord)
        requires { CanBecome self.old (after_word (state_of self.old) cell word) }
        ensures state { state_of self.new ≡ after_word (state_of self.old) cell word }
        ensures task { SameTask self.old self.new }
    {
        match word {
            CellWord::Stale => self.doing = Doing::Claiming { cell },
            CellWord::Claimed(claimer) => self.push(cell, Some(claimer)),
            CellWord::Done { rec, .. } => self.doing = Doing::ReadingTag { cell, rec },
        }
    }

    // Notes what a claim found.
    fn note_claim(&mut self, cell: u32, answer: Claim)
        requires { CanBecome self.old (after_claim (job_of self.old) (state_of self.old) cell answer) }
        ensures state { state_of self.new ≡ after_claim (job_of self.old) (state_of self.old) cell answer }
        ensures task { SameTask self.old self.new }
    {
        match answer {
            Claim::Won => self.push(cell, Some(self.number)),
            Claim::Found(word) => self.note_word(cell, word),
        }
    }

    // Notes the tag word of the record that is read. Of another worker's cycle only that a cell leads into
    // it is believed; a cell of a cycle is walked again.
    fn note_tag(&mut self, tag: u64)
        requires { CanBecome self.old (after_load_tag (state_of self.old) tag (state_of self.old).phase) }
        ensures state { state_of self.new ≡ after_load_tag (state_of self.old) tag (state_of self.old).phase }
        ensures task { SameTask self.old self.new }
    {
        let Doing::ReadingTag { cell, rec } = self.doing else {
            return;
        };
        if tag == TO_CYCLE {
            self.learn(cell, Shown::ToCycle);
        } else if tag == CYCLE {
            self.push(cell, None);
        } else {
            self.words.clear();
            self.doing = Doing::ReadingValue { cell, rec, tag };
        }
    }

    // Notes the next value word of the record that is read.
    fn note_value(&mut self, word: u64)
        requires { CanBecome self.old (after_load_value (state_of self.old) word (state_of self.old).phase) }
        ensures state { state_of self.new ≡ after_load_value (state_of self.old) word (state_of self.old).phase }
        ensures task { SameTask self.old self.new }
    {
        let Doing::ReadingValue { cell, rec: _, tag } = self.doing else {
            return;
        };
        self.words.push(word);
        if self.words.len() < tag_words(tag) {
            return;
        }
        match self.words.shown(tag) {
            Some(shown) => self.learn(cell, shown),
            None => self.push(cell, None),
        }
    }

    // Notes that the word which is stored now is stored.
    fn note_stored(&mut self)
        requires { IfSome self.old.held (λ h. h.stored < WORDS) }
        ensures state { state_of self.new ≡ record (state_of self.old) { held = with_word self.old.held } }
        ensures task { SameTask self.old self.new }
    {
        if let Some(store) = &mut self.held {
            store.stored += 1;
        }
    }

    fn note_tagged(&mut self)
        ensures state { state_of self.new ≡ record (state_of self.old) { held = with_tag self.old.held } }
        ensures task { SameTask self.old self.new }
    {
        if let Some(store) = &mut self.held {
            store.tagged = true;
        }
    }

    // Notes a publish of the top cell: the record is given away where it won, and else kept.
    fn note_publish(&mut self, rec: u32, answer: Publish)
        requires { (f : OnStack) × IsKnownTop self.old.demands f }
        ensures state { state_of self.new ≡ record (state_of self.old) { stack = pop self.old.demands.stack; held = store_after answer rec } }
        ensures task { SameTask self.old self.new }
    {
        self.demands.pop();
        self.held = match answer {
            Publish::Won => None,
            Publish::Lost { .. } => Some(fresh_store(rec)),
        };
    }

    /// Notes an event.
    pub(crate) fn note(&mut self, event: Event)
        requires { CanNote self.old event }
        ensures state { state_of self.new ≡ after (job_of self.old) (state_of self.old) event }
        ensures task { SameTask self.old self.new }
    {
        match event {
            Event::Look { cell, seen } => self.note_word(cell, seen),
            Event::Claim { cell, answer } => self.note_claim(cell, answer),
            Event::TakeRecord { rec } => self.held = Some(fresh_store(rec)),
            Event::StoreValue { .. } => self.note_stored(),
            Event::StoreTag { .. } => self.note_tagged(),
            Event::Publish { rec, answer, .. } => self.note_publish(rec, answer),
            Event::LoadTag { word, .. } => self.note_tag(word),
            Event::LoadValue { word, .. } => self.note_value(word),
        }
    }
}
