//! The shared round: its eight steps, and a worker's pass.

ghost use Rattle.std.specs.Prelude.{◌≡◌, ℕ, ◌+◌, ◌*◌, ◌<◌, ◌≤◌, ◌^◌, [], ◌∷◌, map, length, slice_index_or, slice_index, Some, IsNone, IsSome, is_some, IfOk, OnOk, All, vec_len, vec_capacity};
ghost use Rattle.std.specs.Slots.{slots_items, slots_len, IsFull};
ghost use Rattle.cell_words.specs.declared.cell_word.CellWord.{CellWord};
ghost use Rattle.cell_words.specs.Words.{Codes};
ghost use Rattle.cell_words.specs.Records.{tag_of, value_of, record_words, IsShown};
ghost use Rattle.claim_core.specs.Words.{value_place};
ghost use Rattle.claim_core.specs.Pending.{IsPending};
ghost use Rattle.claim_core.specs.HeldRecords.{listed, record_of};

use crate::event::{Claim, Publish};
use crate::job::Job;
use crate::outcome::Outcome;
use crate::rule::{
    Claims, Deals, DealsIdle, Gathers, GivesTurn, Learns, LoadsTag, LoadsValue, Looks, Publishes,
    RoundKey, RoundRule, StoresTag, StoresValue, Stubs, Takes, TakesTurn,
};
use crate::view::View;
use atomic_table::{Closed, Seat, Table};
use cell_values::Addr;
use cell_words::{CellWord, WORDS};
use demand_spec::BookView;
use std::alloc::{AllocError, Global};
use std::marker::Model;

/// A worker's token for one round: what the worker has seen there, and the record that it holds.
#[derive(Drop)]
pub struct Pass {
    worker: u8,
    taken: Option<u32>,
    seat: Seat<(), View>,
}

impl Model for Pass {
    ghost use Rattle.std.specs.Prelude.{◌≡◌, [], ◌∷◌, map};
    ghost use Rattle.claim_core.specs.HeldRecords.{listed, record_of};
    ghost use Rattle.claim_core.specs.Passes.{PassSeen};

    ghost Value = { PassSeen };

    ghost use Rattle.claim_core.specs.BookCode.{book_code};
    ghost use Rattle.std.specs.Coded.{codes};

    ghost coded = { Prim.hlevel (codes, book_code) };

    ghost view = { λ p. record { worker = p.worker; taken = p.taken; table = p.seat.table_id; view = p.seat.me.0 } };

    ghost invariant = { λ p. (p.seat.me.0.numbers ≡ p.worker ∷ []) × (p.seat.me.1 ≡ []) × (map record_of p.seat.me.0.held ≡ listed p.taken) };
}

/// The turn of a round whose passes step one at a time, in an order that is given: who has it may step,
/// and knows the words as they stand.
#[derive(Drop)]
pub struct Turn {
    seat: Seat<(), View>,
}

impl Model for Turn {
    ghost use Rattle.std.specs.Prelude.{◌≡◌, []};
    ghost use Rattle.claim_core.specs.Rule.{setup_of, HasTurn};
    ghost use Rattle.claim_core.specs.Passes.{TurnSeen};

    ghost Value = { TurnSeen };

    ghost use Rattle.claim_core.specs.BookCode.{book_code};
    ghost use Rattle.std.specs.Coded.{codes};

    ghost coded = { Prim.hlevel (codes, book_code) };

    ghost view = { λ t. record { setup = setup_of t.seat.me.0; table = t.seat.table_id; words = t.seat.me.0.words } };

    ghost invariant = { λ t. (t.seat.me.0.numbers ≡ []) × (t.seat.me.0.events ≡ []) × (t.seat.me.0.held ≡ []) × (t.seat.me.1 ≡ []) × HasTurn t.seat.me.0 };
}

/// The shared words of one recalculation: a counter of the records that are taken, a word for each
/// cell, and for each record a tag word and its value words. There are as many records as cells and
/// workers together.
#[derive(Drop)]
pub struct Round<'b, B: BookView> {
    table: Table<(), View, RoundKey<'b, B>, RoundRule<B>, Global>,
    job: Job<'b, B>,
    workers: u8,
    // What `close` hands out, so that it takes no memory.
    cells: Vec<Addr>,
    room: Vec<CellWord>,
}

impl<'b, B: BookView> Model for Round<'b, B> {
    ghost use Rattle.std.specs.Prelude.{◌≡◌, ◌≤◌, [], length, vec_capacity};
    ghost use Rattle.cell_values.specs.declared.TheConstants.{MAX_BOOK_CELLS};
    ghost use Rattle.claim_core.specs.Words.{round_size};
    ghost use Rattle.claim_core.specs.Passes.{RoundSeen};

    ghost Value = { RoundSeen };

    ghost use Rattle.claim_core.specs.BookCode.{book_code};
    ghost use Rattle.std.specs.Coded.{codes};

    ghost coded = { Prim.hlevel (codes, book_code) };

    ghost view = { λ r. record { setup = record { book = B.book r.job.book.now; cells = r.job.cells.now; workers = r.workers }; table = r.table.shared.table_id } };

    ghost invariant = { λ r. (r.table.shared.key.job ≡ r.job) × (r.table.shared.key.workers ≡ r.workers) × (r.table.shared.table_id.words ≡ round_size (length r.job.cells.now) r.workers) × (r.table.shared.table_id.slots ≡ 0) × (r.room.items ≡ []) × (length r.job.cells.now ≤ vec_capacity r.room) × (r.cells.items ≡ r.job.cells.now) × (length r.job.cells.now ≤ MAX_BOOK_CELLS) × (1 ≤ r.workers) × (r.workers ≤ 64) };
}

impl Pass {
    /// The worker's number, from 0.
    pub fn worker(&self) -> u8
        ensures { result ≡ self.now.worker }
    {
        self.worker
    }
}

impl<'b, B: BookView> Round<'b, B> {
    ghost use Rattle.claim_core.specs.declared.event.Event.TheVariants as ev;
    ghost use Rattle.cell_words.specs.declared.cell_word.CellWord.TheVariants as word;
    ghost use Rattle.claim_core.specs.Table.{count_from, first_words};
    ghost use Rattle.claim_core.specs.Passes.{Belongs, IsPassOf, Stays, IsFresh, IsIdle, IsGiven, IsTurnOf, waiting, number, joined, ListsClaims, ListsPublishes, SeesAllDone};
    ghost use Rattle.claim_core.specs.Rule.{setup_of, HasTurn, cell_in, WorkersBelow, shown_in, LostTo, AgreesLost, Each, Agrees, AgreesAfter, InRound, AnswerInRound, Seen, SeenDone, OwnEvents, Fits, is_done};
    ghost use Rattle.claim_core.specs.Steps.{grown, rec_of, HasSpelt, claim_answer, publish_answer, taken_after, kept_back, given_on, in_turn, idle};

    /// The number of workers. It is no step.
    pub fn workers(&self) -> u8
        ensures number { result ≡ self.now.setup.workers }
        ensures range { (1 ≤ result) × (result ≤ 64) }
        ensures pending { IsPending self.now.setup.book self.now.setup.cells }
    {
        self.workers
    }

    // Where the tag word of a record lies.
    fn tag_place(&self, rec: u32) -> usize
        requires { rec < length self.now.setup.cells + self.now.setup.workers }
        ensures { result ≡ 1 + (length self.now.setup.cells + rec) }
    {
        1 + (self.cells.len() + rec as usize)
    }

    // Where the value word `k` of a record lies.
    fn value_place(&self, rec: u32, k: u32) -> usize
        requires { (rec < length self.now.setup.cells + self.now.setup.workers) × (k < WORDS) }
        ensures { result ≡ 1 + (length self.now.setup.cells + (length self.now.setup.cells + self.now.setup.workers + value_place rec k)) }
    {
        let cells = self.cells.len();
        let before = cells + (cells + self.workers as usize);
        1 + before + (rec as usize * WORDS as usize + k as usize)
    }

    /// One look at a cell's word. It never goes behind what the pass has seen there.
    pub fn look(&self, pass: &mut Pass, i: u32) -> CellWord
        requires { IsPassOf self.now pass.old × (i < length self.now.setup.cells) }
        ensures pass { Stays self.now pass.old pass.new }
        ensures step { pass.new.view ≡ grown (ev.Look i result) pass.old.view }
        ensures later { Each pass.old.view.events (Agrees i result) }
        ensures numbers { InRound pass.old.view result }
        ensures exact { HasTurn pass.old.view → result ≡ cell_in pass.old.view.words i }
        ensures taken { pass.new.taken ≡ pass.old.taken }
    {
        let word = self
            .table
            .shared
            .load::<Looks>(&mut pass.seat, i as usize + 1);
        known_word(word)
    }

    /// One claim of a cell. `Found` comes exactly where the word was not stale.
    pub fn claim(&self, pass: &mut Pass, i: u32) -> Claim
        requires { IsPassOf self.now pass.old × (i < length self.now.setup.cells) }
        ensures pass { Stays self.now pass.old pass.new }
        ensures step { pass.new.view ≡ grown (ev.Claim i result) pass.old.view }
        ensures later { Each pass.old.view.events (AgreesAfter i result) }
        ensures numbers { AnswerInRound pass.old.view result }
        ensures exact { HasTurn pass.old.view → result ≡ claim_answer (cell_in pass.old.view.words i) }
        ensures taken { pass.new.taken ≡ pass.old.taken }
    {
        let word = self.table.shared.compare_exchange::<Claims>(
            &mut pass.seat,
            i as usize + 1,
            0,
            u64::from(pass.worker) + 1,
        );
        Claim::at(known_word(word))
    }

    /// Takes a record: the next one that nobody has taken.
    pub fn take_record(&self, pass: &mut Pass) -> u32
        requires { IsPassOf self.now pass.old × IsNone pass.old.taken }
        ensures pass { Stays self.now pass.old pass.new }
        ensures taken { pass.new.taken ≡ Some result }
        ensures number { result < length self.now.setup.cells + self.now.setup.workers }
        ensures step { pass.new.view ≡ grown (ev.TakeRecord result) pass.old.view }
        ensures exact { HasTurn pass.old.view → result ≡ pass.old.view.words.counter }
    {
        let number = self.table.shared.fetch_add::<Takes>(&mut pass.seat, 0, 1);
        let taken = number as u32;
        pass.taken = Some(taken);
        taken
    }

    /// Stores the value word `k` of the record that the pass holds.
    pub fn store_value(&self, pass: &mut Pass, k: u32, word: u64)
        requires { IsPassOf self.now pass.old × IsSome pass.old.taken × (k < WORDS) }
        ensures pass { Stays self.now pass.old pass.new × (pass.new.taken ≡ pass.old.taken) }
        ensures step { pass.new.view ≡ grown (ev.StoreValue (rec_of pass.old.view.held) k word) pass.old.view }
    {
        let Some(taken) = pass.taken else {
            unreachable!()
        };
        let at = self.value_place(taken, k);
        self.table
            .shared
            .store::<StoresValue>(&mut pass.seat, at, word);
    }

    /// Stores the tag word of the record that the pass holds.
    pub fn store_tag(&self, pass: &mut Pass, word: u64)
        requires { IsPassOf self.now pass.old × IsSome pass.old.taken }
        ensures pass { Stays self.now pass.old pass.new × (pass.new.taken ≡ pass.old.taken) }
        ensures step { pass.new.view ≡ grown (ev.StoreTag (rec_of pass.old.view.held) word) pass.old.view }
    {
        let Some(taken) = pass.taken else {
            unreachable!()
        };
        let at = self.tag_place(taken);
        self.table
            .shared
            .store::<StoresTag>(&mut pass.seat, at, word);
    }

    /// Publishes a cell that was seen claimed by this worker, with the record that the pass holds, in
    /// which the words of what the book shows at the cell are stored. `Lost` comes exactly where the
    /// cell was done.
    pub fn publish(&self, pass: &mut Pass, i: u32, claimer: u8) -> Publish
        requires pass { IsPassOf self.now pass.old × (i < length self.now.setup.cells) × (claimer < self.now.setup.workers) }
        requires seen { Seen pass.old.view i (word.Claimed claimer) }
        requires spelt { IsSome pass.old.taken × HasSpelt (shown_in self.now.setup i) pass.old.view }
        ensures pass { Stays self.now pass.old pass.new }
        ensures step { pass.new.view ≡ grown (ev.Publish i (rec_of pass.old.view.held) result) pass.old.view }
        ensures taken { pass.new.taken ≡ taken_after result pass.old.taken }
        ensures lost { LostTo claimer pass.old.view result }
        ensures later { Each pass.old.view.events (AgreesLost i result) }
        ensures exact { HasTurn pass.old.view → result ≡ publish_answer (cell_in pass.old.view.words i) }
    {
        let Some(rec) = pass.taken else {
            unreachable!()
        };
        let done = CellWord::Done {
            publisher: pass.worker,
            claimer,
            rec,
        };
        let word = self.table.shared.compare_exchange::<Publishes>(
            &mut pass.seat,
            i as usize + 1,
            u64::from(claimer) + 1,
            done.encode(),
        );
        let answer = Publish::at(known_word(word));
        pass.taken = answer.left(pass.taken);
        answer
    }

    /// Loads the tag word of a record.
    pub fn load_tag(&self, pass: &mut Pass, rec: u32) -> u64
        requires { IsPassOf self.now pass.old × (rec < length self.now.setup.cells + self.now.setup.workers) }
        ensures pass { Stays self.now pass.old pass.new × (pass.new.taken ≡ pass.old.taken) }
        ensures step { pass.new.view ≡ grown (ev.LoadTag rec result) pass.old.view }
        ensures shown { (i : ℕ) → SeenDone pass.old.view i rec → (result ≡ tag_of (shown_in self.now.setup i)) × IsShown (shown_in self.now.setup i) }
        ensures exact { HasTurn pass.old.view → result ≡ slice_index pass.old.view.words.tags rec }
    {
        let at = self.tag_place(rec);
        self.table.shared.load::<LoadsTag>(&mut pass.seat, at)
    }

    /// Loads the value word `k` of a record.
    pub fn load_value(&self, pass: &mut Pass, rec: u32, k: u32) -> u64
        requires { IsPassOf self.now pass.old × (rec < length self.now.setup.cells + self.now.setup.workers) × (k < WORDS) }
        ensures pass { Stays self.now pass.old pass.new × (pass.new.taken ≡ pass.old.taken) }
        ensures step { pass.new.view ≡ grown (ev.LoadValue rec k result) pass.old.view }
        ensures shown { (i : ℕ) → SeenDone pass.old.view i rec → k < record_words (shown_in self.now.setup i) → (result ≡ value_of (shown_in self.now.setup i) k) × IsShown (shown_in self.now.setup i) }
        ensures exact { HasTurn pass.old.view → result ≡ slice_index pass.old.view.words.values (value_place rec k) }
    {
        let at = self.value_place(rec, k);
        self.table.shared.load::<LoadsValue>(&mut pass.seat, at)
    }

    // A seat with the next number, split off the opening seat.
    fn cut_seat(&self, seat: &mut Seat<(), View>, at_once: bool) -> Seat<(), View>
        requires { (seat.old.table_id ≡ self.now.table) × (seat.old.me.0.events ≡ []) × (seat.old.me.0.held ≡ []) × (1 ≤ seat.old.me.0.parts) }
        ensures seat { (seat.new.table_id ≡ self.now.table) × (seat.new.me ≡ (kept_back at_once seat.old.me.0, seat.old.me.1)) }
        ensures given { (result.table_id ≡ self.now.table) × (result.me ≡ (given_on at_once seat.old.me.0, [])) }
    {
        if at_once {
            self.table.shared.split_seat::<Deals>(seat)
        } else {
            self.table.shared.split_seat::<DealsIdle>(seat)
        }
    }

    // The next pass.
    fn deal(&self, seat: &mut Seat<(), View>, worker: u8, at_once: bool) -> Pass
        requires { (seat.old.table_id ≡ self.now.table) × (seat.old.me ≡ (waiting at_once self.now worker, [])) × (worker < self.now.setup.workers) × (worker < 64) }
        ensures pass { IsGiven at_once self.now result × (result.worker ≡ worker) }
        ensures seat { (seat.new.table_id ≡ self.now.table) × (seat.new.me ≡ (waiting at_once self.now (worker + 1), [])) }
    {
        let given = self.cut_seat(seat, at_once);
        Pass {
            worker,
            taken: None,
            seat: given,
        }
    }

    fn deal_all(
        &self,
        alloc: Global,
        seat: &mut Seat<(), View>,
        at_once: bool,
    ) -> Result<Vec<Pass>, AllocError>
        requires { (seat.old.table_id ≡ self.now.table) × (seat.old.me ≡ (waiting at_once self.now 0, [])) }
        ensures passes { IfOk result (λ v. All (IsGiven at_once self.now) v.items × (map number v.items ≡ count_from self.now.setup.workers 0)) }
        ensures seat { OnOk result ((seat.new.table_id ≡ self.now.table) × (seat.new.me ≡ (waiting at_once self.now self.now.setup.workers, []))) }
    {
        let mut passes = Vec::with_capacity(alloc, self.workers as usize)?;
        for w in 0..self.workers {
            passes.push(self.deal(seat, w, at_once))?;
        }
        Ok(passes)
    }

    // A round, its passes, and the seat that all of them were split off.
    fn open_with(
        alloc: Global,
        job: Job<'b, B>,
        workers: u8,
        at_once: bool,
    ) -> Result<(Round<'b, B>, Vec<Pass>, Seat<(), View>), AllocError>
        requires { (1 ≤ workers) × (workers ≤ 64) }
        ensures round { IfOk result (λ t. (t.0.setup.book ≡ B.book job.entry.book.now) × (t.0.setup.cells ≡ job.entry.cells.now) × (t.0.setup.workers ≡ workers)) }
        ensures passes { IfOk result (λ t. All (IsGiven at_once t.0) t.1.items × (map number t.1.items ≡ count_from workers 0)) }
        ensures seat { IfOk result (λ t. (t.2.table_id ≡ t.0.table) × (t.2.me ≡ (waiting at_once t.0 workers, []))) }
    {
        let cells = job.cells.len();
        let records = cells + workers as usize;
        let size = 1 + (cells + (records + records * WORDS as usize));
        let words = vec![in alloc; 0u64; size]?;
        let copied = Vec::from_slice(alloc, job.cells)?;
        let room = Vec::with_capacity(alloc, cells)?;
        let key = RoundKey { job, workers };
        let (table, mut seat) = Table::of_words(alloc, words.as_slice(), &key)?;
        let round = Round {
            table,
            job,
            workers,
            cells: copied,
            room,
        };
        let passes = round.deal_all(alloc, &mut seat, at_once)?;
        Ok((round, passes, seat))
    }

    /// Opens a round of these cells, with a pass for each worker.
    pub fn open(
        alloc: Global,
        job: Job<'b, B>,
        workers: u8,
    ) -> Result<(Round<'b, B>, Vec<Pass>), AllocError>
        requires { (1 ≤ workers) × (workers ≤ 64) }
        ensures round { IfOk result (λ t. (t.0.setup.book ≡ B.book job.entry.book.now) × (t.0.setup.cells ≡ job.entry.cells.now) × (t.0.setup.workers ≡ workers)) }
        ensures passes { IfOk result (λ t. All (IsFresh t.0) t.1.items × (map number t.1.items ≡ count_from workers 0)) }
    {
        let (round, passes, _) = Round::open_with(alloc, job, workers, true)?;
        Ok((round, passes))
    }

    /// The same, for passes that step one at a time: each only while it has the turn.
    pub fn open_in_order(
        alloc: Global,
        job: Job<'b, B>,
        workers: u8,
    ) -> Result<(Round<'b, B>, Vec<Pass>, Turn), AllocError>
        requires { (1 ≤ workers) × (workers ≤ 64) }
        ensures round { IfOk result (λ t. (t.0.setup.book ≡ B.book job.entry.book.now) × (t.0.setup.cells ≡ job.entry.cells.now) × (t.0.setup.workers ≡ workers)) }
        ensures passes { IfOk result (λ t. All (IsIdle t.0) t.1.items × (map number t.1.items ≡ count_from workers 0)) }
        ensures turn { IfOk result (λ t. IsTurnOf t.0 t.2 × (t.2.words ≡ first_words t.0.setup)) }
    {
        let (round, passes, seat) = Round::open_with(alloc, job, workers, false)?;
        Ok((round, passes, Turn { seat }))
    }

    /// Gives the turn to a pass.
    pub fn take_turn(&self, pass: &mut Pass, turn: Turn)
        requires { Belongs self.now pass.old × IsTurnOf self.now turn }
        ensures pass { Stays self.now pass.old pass.new × (pass.new.taken ≡ pass.old.taken) }
        ensures view { pass.new.view ≡ in_turn turn.words pass.old.view }
    {
        let Turn { seat } = turn;
        self.table
            .shared
            .join_seat::<TakesTurn>(&mut pass.seat, seat);
    }

    /// Takes the turn from a pass.
    pub fn give_turn(&self, pass: &mut Pass) -> Turn
        requires { Belongs self.now pass.old × HasTurn pass.old.view }
        ensures pass { Belongs self.now pass.new × (pass.new.worker ≡ pass.old.worker) × (pass.new.taken ≡ pass.old.taken) }
        ensures view { pass.new.view ≡ idle pass.old.view }
        ensures turn { IsTurnOf self.now result × (result.words ≡ pass.old.view.words) }
    {
        let seat = self.table.shared.split_seat::<GivesTurn>(&mut pass.seat);
        Turn { seat }
    }

    // What the rule knows of a seat's own view.
    fn learn(&self, seat: &mut Seat<(), View>)
        requires { seat.old.table_id ≡ self.now.table }
        ensures { (seat.new.table_id ≡ self.now.table) × (seat.new.me ≡ seat.old.me) × OwnEvents seat.old.me.0 }
    {
        self.table.shared.load::<Learns>(seat, 0);
    }

    // One seat that has taken in all these passes.
    fn gather(&self, mut passes: Vec<Pass>) -> Seat<(), View>
        requires { All (Belongs self.now) passes.items × (0 < vec_len passes) }
        ensures { (result.table_id ≡ self.now.table) × (result.me.0 ≡ joined passes.items) × Each passes.items (λ p. OwnEvents p.view) × (setup_of result.me.0 ≡ self.now.setup) }
    {
        let Some(last) = passes.pop() else {
            unreachable!()
        };
        let Pass {
            worker: _,
            taken: _,
            mut seat,
        } = last;
        self.learn(&mut seat);
        while let Some(pass) = passes.pop() {
            let Pass {
                worker: _,
                taken: _,
                seat: mut other,
            } = pass;
            self.learn(&mut other);
            self.table.shared.join_seat::<Gathers>(&mut seat, other);
        }
        seat
    }

    // A seat that keeps what the round is over.
    fn cut_stub(&self, seat: &mut Seat<(), View>) -> Seat<(), View>
        requires { seat.old.table_id ≡ self.now.table }
        ensures { (seat.new.table_id ≡ self.now.table) × (seat.new.me.0 ≡ seat.old.me.0) × (setup_of result.me.0 ≡ setup_of seat.old.me.0) }
    {
        self.table.shared.split_seat::<Stubs>(seat)
    }

    /// Ends the round. It takes all passes.
    pub fn close(self, passes: Vec<Pass>) -> Outcome
        requires { All (Belongs self) passes.items × (vec_len passes ≡ self.setup.workers) }
        ensures over { result.setup ≡ self.entry.setup }
        ensures count { length result.words ≡ length self.entry.setup.cells }
        ensures claims { Each passes.items (ListsClaims result.words) }
        ensures publishes { Each passes.items (ListsPublishes result.words) }
        ensures stands { Each passes.items (λ p. Each p.view.events (Fits result.words)) }
        ensures numbers { Each result.words (WorkersBelow self.entry.setup.workers) }
        ensures done { Each passes.items (λ p. SeesAllDone (length result.words) p.view → Each result.words (λ c. is_done c ≡ 1)) }
    {
        let mut seat = self.gather(passes);
        let stub = self.cut_stub(&mut seat);
        let Round {
            table,
            job,
            workers,
            cells,
            room,
        } = self;
        let closed = table.close_with(seat);
        let words = read_words(&closed, job.cells.len(), room);
        closed.free();
        Outcome::of(words, cells, workers, stub)
    }
}

// The cell word that a word of the round codes.
fn known_word(word: u64) -> CellWord
    requires { (c : CellWord) × Codes word c }
    ensures { Codes word result }
{
    let Some(found) = CellWord::decode(word) else {
        unreachable!()
    };
    found
}

// The cell words of a closed table.
fn read_words(closed: &Closed<(), Global>, count: usize, mut words: Vec<CellWord>) -> Vec<CellWord>
    requires table { (count < slots_len closed.now.words) × IsFull closed.now.words }
    requires coded { (k : ℕ) → k < count → (c : CellWord) × Codes (slice_index (slots_items closed.now.words) (k + 1)) c }
    requires room { (words.items ≡ []) × (count ≤ vec_capacity words) }
    ensures count { length result.items ≡ count }
    ensures coded { (k : ℕ) (d : CellWord) → k < count → Codes (slice_index (slots_items closed.now.words) (k + 1)) (slice_index_or result.items k d) }
{
    for k in 0..count {
        let word = closed.word(k + 1);
        words.push_reserved(known_word(word));
    }
    words
}
