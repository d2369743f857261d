//! A client of two cells and two passes.

ghost use Rattle.std.specs.Prelude.{◌≡◌, ◌+◌, ◌<◌, ◌≤◌, [], map, length, slice_index, Some, All, IsNone, IsSome, IfSome, MatchOption};
ghost use Rattle.cell_words.specs.declared.cell_word.CellWord.TheVariants as word;
ghost use Rattle.cell_words.specs.declared.TheConstants.{WORDS};
ghost use Rattle.cell_words.specs.Records.{record_words, tag_of, value_of};
ghost use Rattle.claim_core.specs.declared.event.Claim.TheVariants as answer;
ghost use Rattle.claim_core.specs.declared.event.Publish.TheVariants as publish;
ghost use Rattle.cell_values.specs.Addresses.{same_addr};
ghost use Rattle.cell_values.specs.Values.{IsShownOf};
ghost use Rattle.claim_core.specs.Rule.{Seen, SeenDone, shown_in, cell_in};
ghost use Rattle.claim_core.specs.Steps.{HasSpelt, rec_of};
ghost use Rattle.claim_core.specs.Passes.{IsPassOf, IsFresh, IsIdle, IsTurnOf, Stays, number};
ghost use Rattle.claim_core.specs.Table.{count_from, first_words};
ghost use Rattle.claim_core.specs.TestClient.{SeesMore, IsClaimed, SawDone, Carries, Starts, Waits, Turns, two_words};

use crate::{Claim, Job, Pass, Publish, Round, Turn};
use cell_values::{Addr, Shown, Value};
use cell_words::{CellWord, read_record, record_tag, record_value, record_words, tag_words};
use demand_spec::BookView;
use std::process::Abort;
use std::thread::{Threads, join_mut};

// `=7` in A1 and `=TRUE` in A2.
struct TwoCells;

const FIRST: Addr = Addr {
    sheet: 0,
    row: 1,
    col: 1,
};

const SECOND: Addr = Addr {
    sheet: 0,
    row: 2,
    col: 1,
};

const SEVEN: Shown = Shown::Val(Value::Number(7));

const TRUTH: Shown = Shown::Val(Value::Bool(true));

fn same(a: Addr, b: Addr) -> bool
    ensures { result ≡ same_addr a b }
{
    a.sheet == b.sheet && (a.row == b.row && a.col == b.col)
}

impl BookView for TwoCells {
    ghost use Rattle.claim_core.specs.Table.{count_from};
    ghost use Rattle.claim_core.specs.TestClient.{two_cells};

    ghost book = { λ _. two_cells };

    fn has_formula(&self, at: Addr) -> bool {
        same(at, FIRST) || same(at, SECOND)
    }
}

fn done(publisher: u8, claimer: u8, rec: u32) -> CellWord {
    CellWord::Done {
        publisher,
        claimer,
        rec,
    }
}

// A look at the cell finds this word.
fn sees<'b, B: BookView, R: Abort>(
    rt: &R,
    round: &Round<'b, B>,
    pass: &mut Pass,
    i: u32,
    word: CellWord,
)
    requires { IsPassOf round.now pass.old × (i < length round.now.setup.cells) }
    ensures pass { Stays round.now pass.old pass.new × (pass.new.taken ≡ pass.old.taken) }
    ensures more { SeesMore pass.old.view pass.new.view }
{
    assert!(rt; round.look(pass, i) == word);
}

// A claim of the cell wins.
fn wins<'b, B: BookView, R: Abort>(
    rt: &R,
    round: &Round<'b, B>,
    pass: &mut Pass,
    i: u32,
    worker: u8,
)
    requires { IsPassOf round.now pass.old × (i < length round.now.setup.cells) × (pass.old.worker ≡ worker) }
    ensures pass { Stays round.now pass.old pass.new × (pass.new.taken ≡ pass.old.taken) }
    ensures seen { Seen pass.new.view i (word.Claimed worker) }
{
    let Claim::Won = round.claim(pass, i) else {
        panic!(rt; "the claim was lost")
    };
}

// A claim of the cell finds it claimed by this worker.
fn finds<'b, B: BookView, R: Abort>(
    rt: &R,
    round: &Round<'b, B>,
    pass: &mut Pass,
    i: u32,
    claimer: u8,
)
    requires { IsPassOf round.now pass.old × (i < length round.now.setup.cells) }
    ensures pass { Stays round.now pass.old pass.new × (pass.new.taken ≡ pass.old.taken) }
    ensures seen { Seen pass.new.view i (word.Claimed claimer) }
{
    let Claim::Found(CellWord::Claimed(found)) = round.claim(pass, i) else {
        panic!(rt; "the cell was not claimed")
    };
    assert!(rt; found == claimer);
}

// Takes a record.
fn takes<'b, B: BookView>(round: &Round<'b, B>, pass: &mut Pass) -> u32
    requires { IsPassOf round.now pass.old × IsNone pass.old.taken }
    ensures pass { Stays round.now pass.old pass.new × IsSome pass.new.taken }
    ensures more { SeesMore pass.old.view pass.new.view }
{
    round.take_record(pass)
}

// Writes what is shown, a value of the book's texts or a mark, into the record that is held.
fn spells<'b, B: BookView>(round: &Round<'b, B>, pass: &mut Pass, shown: Shown)
    requires pass { IsPassOf round.now pass.old × IsSome pass.old.taken }
    requires texts { IsShownOf round.now.setup.book.texts shown }
    ensures pass { Stays round.now pass.old pass.new × IsSome pass.new.taken }
    ensures more { SeesMore pass.old.view pass.new.view }
    ensures spelt { HasSpelt shown pass.new.view }
{
    for k in 0..record_words(shown) {
        round.store_value(pass, k, record_value(shown, k));
    }
    round.store_tag(pass, record_tag(shown));
}

// A publish of the cell gives this answer.
fn publishes<'b, B: BookView, R: Abort>(
    rt: &R,
    round: &Round<'b, B>,
    pass: &mut Pass,
    i: u32,
    claimer: u8,
    answer: Publish,
)
    requires pass { IsPassOf round.now pass.old × (i < length round.now.setup.cells) × (claimer < round.now.setup.workers) }
    requires seen { Seen pass.old.view i (word.Claimed claimer) }
    requires spelt { IsSome pass.old.taken × HasSpelt (shown_in round.now.setup i) pass.old.view }
    ensures pass { Stays round.now pass.old pass.new }
{
    assert!(rt; round.publish(pass, i, claimer) == answer);
}

// Looks at a cell. Where it is done, the words of its record say what the book shows there.
fn reads<'b, B: BookView>(round: &Round<'b, B>, pass: &mut Pass, i: u32) -> Option<Shown>
    requires { IsPassOf round.now pass.old × (i < length round.now.setup.cells) }
    ensures pass { Stays round.now pass.old pass.new × (pass.new.taken ≡ pass.old.taken) }
    ensures shown { IfSome result (λ s. s ≡ shown_in round.now.setup i) }
{
    let CellWord::Done { rec, .. } = round.look(pass, i) else {
        return None;
    };
    decodes(round, pass, i, rec)
}

// Loads the words of the record with which a cell was seen done, and decodes them.
fn decodes<'b, B: BookView>(
    round: &Round<'b, B>,
    pass: &mut Pass,
    i: u32,
    rec: u32,
) -> Option<Shown>
    requires { IsPassOf round.now pass.old × (rec < length round.now.setup.cells + round.now.setup.workers) × SeenDone pass.old.view i rec }
    ensures pass { Stays round.now pass.old pass.new × (pass.new.taken ≡ pass.old.taken) }
    ensures shown { result ≡ Some (shown_in round.now.setup i) }
{
    let tag = round.load_tag(pass, rec);
    let first = loads_word(round, pass, i, rec, tag, 0);
    let second = loads_word(round, pass, i, rec, tag, 1);
    let third = loads_word(round, pass, i, rec, tag, 2);
    let fourth = loads_word(round, pass, i, rec, tag, 3);
    let fifth = loads_word(round, pass, i, rec, tag, 4);
    let sixth = loads_word(round, pass, i, rec, tag, 5);
    let seventh = loads_word(round, pass, i, rec, tag, 6);
    read_record(tag, &[first, second, third, fourth, fifth, sixth, seventh])
}

// A value word of that record. It is 0 where the tag says that it is not stored.
fn loads_word<'b, B: BookView>(
    round: &Round<'b, B>,
    pass: &mut Pass,
    i: u32,
    rec: u32,
    tag: u64,
    k: u32,
) -> u64
    requires pass { IsPassOf round.now pass.old × (rec < length round.now.setup.cells + round.now.setup.workers) × SeenDone pass.old.view i rec }
    requires tag { tag ≡ tag_of (shown_in round.now.setup i) }
    requires word { k < WORDS }
    ensures pass { Stays round.now pass.old pass.new × (pass.new.taken ≡ pass.old.taken) }
    ensures seen { SeenDone pass.new.view i rec }
    ensures word { result ≡ value_of (shown_in round.now.setup i) k }
{
    let _cell = i;
    if tag_words(tag) <= k {
        return 0;
    }
    round.load_value(pass, rec, k)
}

// One pass after the other.
fn one_by_one<'b, B: BookView, R: Abort>(
    rt: &R,
    round: &Round<'b, B>,
    a: &mut Pass,
    b: &mut Pass,
    first: Shown,
    second: Shown,
)
    requires a { Starts round.now a.old 0 }
    requires b { Starts round.now b.old 1 }
    requires shown { (first ≡ shown_in round.now.setup 0) × (second ≡ shown_in round.now.setup 1) }
    requires texts { IsShownOf round.now.setup.book.texts first × IsShownOf round.now.setup.book.texts second }
    ensures { IsPassOf round.now a.new × IsPassOf round.now b.new }
{
    sees(rt, round, a, 0, CellWord::Stale);
    wins(rt, round, a, 0, 0);
    assert!(rt; takes(round, a) == 0);
    spells(round, a, first);
    publishes(rt, round, a, 0, 0, Publish::Won);
    sees(rt, round, b, 0, done(0, 0, 0));
    assert!(rt; reads(round, b, 0) == Some(first));
    wins(rt, round, b, 1, 1);
    assert!(rt; takes(round, b) == 1);
    spells(round, b, second);
    publishes(rt, round, b, 1, 1, Publish::Won);
}

// Both at the first cell, where the second pass publishes what the first has claimed.
fn at_once<'b, B: BookView, R: Abort>(
    rt: &R,
    round: &Round<'b, B>,
    a: &mut Pass,
    b: &mut Pass,
    first: Shown,
    second: Shown,
)
    requires a { Starts round.now a.old 0 }
    requires b { Starts round.now b.old 1 }
    requires shown { (first ≡ shown_in round.now.setup 0) × (second ≡ shown_in round.now.setup 1) }
    requires texts { IsShownOf round.now.setup.book.texts first × IsShownOf round.now.setup.book.texts second }
    ensures { IsPassOf round.now a.new × IsPassOf round.now b.new }
{
    sees(rt, round, b, 0, CellWord::Stale);
    wins(rt, round, a, 0, 0);
    finds(rt, round, b, 0, 0);
    assert!(rt; takes(round, b) == 0);
    assert!(rt; takes(round, a) == 1);
    spells(round, a, first);
    spells(round, b, first);
    publishes(rt, round, b, 0, 0, Publish::Won);
    let lost = Publish::Lost {
        publisher: 1,
        claimer: 0,
        rec: 0,
    };
    publishes(rt, round, a, 0, 0, lost);
    assert!(rt; reads(round, a, 0) == Some(first));
}

// Each claims a cell and publishes the other's.
fn crossed<'b, B: BookView, R: Abort>(
    rt: &R,
    round: &Round<'b, B>,
    a: &mut Pass,
    b: &mut Pass,
    first: Shown,
    second: Shown,
)
    requires a { Starts round.now a.old 0 }
    requires b { Starts round.now b.old 1 }
    requires shown { (first ≡ shown_in round.now.setup 0) × (second ≡ shown_in round.now.setup 1) }
    requires texts { IsShownOf round.now.setup.book.texts first × IsShownOf round.now.setup.book.texts second }
    ensures { IsPassOf round.now a.new × IsPassOf round.now b.new }
{
    wins(rt, round, b, 1, 1);
    wins(rt, round, a, 0, 0);
    finds(rt, round, b, 0, 0);
    assert!(rt; takes(round, b) == 0);
    spells(round, b, first);
    publishes(rt, round, b, 0, 0, Publish::Won);
    finds(rt, round, a, 1, 1);
    assert!(rt; takes(round, a) == 1);
    spells(round, a, second);
    publishes(rt, round, a, 1, 1, Publish::Won);
    sees(rt, round, a, 0, done(1, 0, 0));
    sees(rt, round, b, 1, done(0, 1, 1));
}

// The first pass, in its turn, looks at the first cell, claims it, takes a record and writes it; two value words are enough.
fn claims_first<'b, B: BookView>(
    round: &Round<'b, B>,
    a: &mut Pass,
    turn: Turn,
    shown: Shown,
) -> (CellWord, Claim, u32, Turn)
    requires pass { Waits round.now a.old 0 × IsNone a.old.taken }
    requires shown { IsShownOf round.now.setup.book.texts shown × (record_words shown ≤ 2) }
    requires turn { Turns round.now turn (two_words 0 word.Stale word.Stale 0 0 0) }
    ensures pass { Waits round.now a.new 0 × (a.new.taken ≡ Some 0) × (rec_of a.new.view.held ≡ 0) }
    ensures seen { Seen a.new.view 0 (word.Claimed 0) × HasSpelt shown a.new.view }
    ensures found { (result.0 ≡ word.Stale) × (result.1 ≡ answer.Won) × (result.2 ≡ 0) }
    ensures turn { Turns round.now result.3 (two_words 1 (word.Claimed 0) word.Stale (tag_of shown) (value_of shown 0) (value_of shown 1)) }
{
    round.take_turn(a, turn);
    let seen = round.look(a, 0);
    let claim = round.claim(a, 0);
    let taken = round.take_record(a);
    round.store_value(a, 0, record_value(shown, 0));
    round.store_value(a, 1, record_value(shown, 1));
    round.store_tag(a, record_tag(shown));
    let turn = round.give_turn(a);
    (seen, claim, taken, turn)
}

// The first pass, in its turn, publishes the first cell.
fn publishes_first<'b, B: BookView>(
    round: &Round<'b, B>,
    a: &mut Pass,
    turn: Turn,
    shown: Shown,
) -> (Publish, Turn)
    requires pass { Waits round.now a.old 0 × (a.old.taken ≡ Some 0) × (rec_of a.old.view.held ≡ 0) × (shown ≡ shown_in round.now.setup 0) }
    requires seen { Seen a.old.view 0 (word.Claimed 0) × HasSpelt shown a.old.view }
    requires turn { Turns round.now turn (two_words 1 (word.Claimed 0) word.Stale (tag_of shown) (value_of shown 0) (value_of shown 1)) }
    ensures pass { Waits round.now a.new 0 }
    ensures found { result.0 ≡ publish.Won }
    ensures turn { Turns round.now result.1 (two_words 1 (word.Done 0 0 0) word.Stale (tag_of shown) (value_of shown 0) (value_of shown 1)) }
{
    round.take_turn(a, turn);
    let answer = round.publish(a, 0, 0);
    let turn = round.give_turn(a);
    (answer, turn)
}

// The second pass, in its turn, looks at the first cell.
fn looks_second<'b, B: BookView>(round: &Round<'b, B>, b: &mut Pass, turn: Turn) -> (CellWord, Turn)
    requires { Waits round.now b.old 1 × IsTurnOf round.now turn }
    ensures pass { Waits round.now b.new 1 }
    ensures found { result.0 ≡ cell_in turn.words 0 }
    ensures turn { Turns round.now result.1 turn.words }
{
    round.take_turn(b, turn);
    let seen = round.look(b, 0);
    let turn = round.give_turn(b);
    (seen, turn)
}

// The second pass, in its turn, claims the first cell and loads the words of the first record.
fn loads_second<'b, B: BookView>(
    round: &Round<'b, B>,
    b: &mut Pass,
    turn: Turn,
) -> (Claim, u64, u64, Turn)
    requires pass { Waits round.now b.old 1 × IsTurnOf round.now turn }
    requires done { cell_in turn.words 0 ≡ word.Done 0 0 0 }
    ensures pass { Waits round.now b.new 1 }
    ensures found { (result.0 ≡ answer.Found (word.Done 0 0 0)) × (result.1 ≡ slice_index turn.words.tags 0) × (result.2 ≡ slice_index turn.words.values 1) }
    ensures turn { Turns round.now result.3 turn.words }
{
    round.take_turn(b, turn);
    let claim = round.claim(b, 0);
    let tag = round.load_tag(b, 0);
    let value = round.load_value(b, 0, 1);
    let turn = round.give_turn(b);
    (claim, tag, value, turn)
}

// Two passes in turns, from all words 0 on: what each step finds is what the steps before it made of the words.
fn by_turns<'b, B: BookView>(
    round: &Round<'b, B>,
    a: &mut Pass,
    b: &mut Pass,
    turn: Turn,
    shown: Shown,
) -> (CellWord, CellWord, Publish, CellWord, u64)
    requires passes { Waits round.now a.old 0 × IsNone a.old.taken × Waits round.now b.old 1 × (shown ≡ shown_in round.now.setup 0) }
    requires shown { IsShownOf round.now.setup.book.texts shown × (record_words shown ≤ 2) }
    requires turn { Turns round.now turn (first_words round.now.setup) }
    ensures passes { Waits round.now a.new 0 × Waits round.now b.new 1 }
    ensures found { (result.0 ≡ word.Stale) × (result.1 ≡ word.Claimed 0) × (result.2 ≡ publish.Won) × (result.3 ≡ word.Done 0 0 0) × (result.4 ≡ tag_of shown) }
{
    let (first, _, _, turn) = claims_first(round, a, turn, shown);
    let (second, turn) = looks_second(round, b, turn);
    let (answer, turn) = publishes_first(round, a, turn, shown);
    let (third, turn) = looks_second(round, b, turn);
    let (_, tag, _, _) = loads_second(round, b, turn);
    (first, second, answer, third, tag)
}

// Looks at a cell and claims it where it is stale: the claimer, or none where it is done.
fn find_claimer<'b, B: BookView>(round: &Round<'b, B>, pass: &mut Pass, i: u32) -> Option<u8>
    requires { IsPassOf round.now pass.old × (i < length round.now.setup.cells) }
    ensures pass { Stays round.now pass.old pass.new × (pass.new.taken ≡ pass.old.taken) }
    ensures found { MatchOption result (SawDone pass.new.view i) (λ c. IsClaimed pass.new.view i round.now.setup.workers c) }
{
    match round.look(pass, i) {
        CellWord::Stale => match round.claim(pass, i) {
            Claim::Won => Some(pass.worker()),
            Claim::Found(CellWord::Claimed(c)) => Some(c),
            Claim::Found(_) => None,
        },
        CellWord::Claimed(c) => Some(c),
        CellWord::Done { .. } => None,
    }
}

// Sees to it that the cell is done, and sees it so.
fn settle<'b, B: BookView>(round: &Round<'b, B>, pass: &mut Pass, i: u32, shown: Shown)
    requires { Carries round.now pass.old i shown × IsNone pass.old.taken }
    ensures { IsPassOf round.now pass.new × SawDone pass.new.view i }
{
    let Some(claimer) = find_claimer(round, pass, i) else {
        return;
    };
    takes(round, pass);
    spells(round, pass, shown);
    round.publish(pass, i, claimer);
}

// Both passes settle the first cell, each in a thread of its own.
fn two_threads<'b, B: BookView, R: Threads + Sync>(
    rt: &R,
    round: &Round<'b, B>,
    a: &mut Pass,
    b: &mut Pass,
    shown: Shown,
)
    requires a { Carries round.now a.old 0 shown × IsNone a.old.taken }
    requires b { Carries round.now b.old 0 shown × IsNone b.old.taken }
    ensures a { IsPassOf round.now a.new × SawDone a.new.view 0 }
    ensures b { IsPassOf round.now b.new × SawDone b.new.view 0 }
{
    join_mut(
        rt,
        &mut || -> ()
            requires { Carries round.now a.now 0 shown × IsNone a.now.taken }
            ensures { IsPassOf round.entry.now a.exit.now × SawDone a.exit.now.view 0 }
        { settle(round, a, 0, shown) },
        &mut || -> ()
            requires { Carries round.now b.now 0 shown × IsNone b.now.taken }
            ensures { IsPassOf round.entry.now b.exit.now × SawDone b.exit.now.view 0 }
        { settle(round, b, 0, shown) },
    );
}

// The two passes of a round of two cells that was just opened.
fn both_passes<'b, B: BookView, R: Abort>(
    rt: &R,
    round: &Round<'b, B>,
    passes: &mut Vec<Pass>,
) -> (Pass, Pass)
    requires passes { All (IsFresh round.now) passes.old.items × (map number passes.old.items ≡ count_from 2 0) }
    requires round { (length round.now.setup.cells ≡ 2) × (round.now.setup.workers ≡ 2) }
    ensures passes { Starts round.now result.0 0 × Starts round.now result.1 1 }
    ensures rest { passes.new.items ≡ [] }
{
    let b = passes.pop().expect(rt, "a second pass");
    let a = passes.pop().expect(rt, "a first pass");
    (a, b)
}

// Closes the round. Its words are these then.
fn closes<'b, B: BookView, R: Abort>(
    rt: &R,
    round: Round<'b, B>,
    mut passes: Vec<Pass>,
    a: Pass,
    b: Pass,
    words: (CellWord, CellWord),
)
    requires passes { IsPassOf round a × IsPassOf round b × (passes.items ≡ []) }
    requires round { (length round.setup.cells ≡ 2) × (round.setup.workers ≡ 2) }
{
    passes.push(a).expect(rt, "room");
    passes.push(b).expect(rt, "room");
    let outcome = round.close(passes);
    assert!(rt; outcome.len() == 2);
    assert!(rt; outcome.workers() == 2);
    assert!(rt; outcome.cell(1) == SECOND);
    assert!(rt; outcome.word(0) == words.0);
    assert!(rt; outcome.word(1) == words.1);
}

// The two passes of a round of two cells that was opened to be stepped in an order.
fn both_idle<'b, B: BookView, R: Abort>(
    rt: &R,
    round: &Round<'b, B>,
    passes: &mut Vec<Pass>,
) -> (Pass, Pass)
    requires passes { All (IsIdle round.now) passes.old.items × (map number passes.old.items ≡ count_from 2 0) }
    requires round { (length round.now.setup.cells ≡ 2) × (round.now.setup.workers ≡ 2) }
    ensures passes { Waits round.now result.0 0 × IsNone result.0.taken × Waits round.now result.1 1 }
    ensures rest { passes.new.items ≡ [] }
{
    let b = passes.pop().expect(rt, "a second pass");
    let a = passes.pop().expect(rt, "a first pass");
    (a, b)
}

#[test]
fn two_passes_by_turns(rt: HostRuntime) {
    let cells = [FIRST, SECOND];
    let job = Job::new(&TwoCells, &cells);
    let (round, mut passes, turn) = Round::open_in_order(rt.alloc(), job, 2).expect(&rt, "memory");
    let (mut a, mut b) = both_idle(&rt, &round, &mut passes);
    let (first, second, answer, third, tag) = by_turns(&round, &mut a, &mut b, turn, SEVEN);
    assert!(rt; first == CellWord::Stale);
    assert!(rt; second == CellWord::Claimed(0));
    assert!(rt; answer == Publish::Won);
    assert!(rt; third == done(0, 0, 0));
    assert!(rt; tag == 1);
}

#[test]
fn an_opened_round(rt: HostRuntime) {
    let cells = [FIRST, SECOND];
    let job = Job::new(&TwoCells, &cells);
    let (round, mut passes) = Round::open(rt.alloc(), job, 2).expect(&rt, "memory");
    let (a, mut b) = both_passes(&rt, &round, &mut passes);
    assert!(rt; round.workers() == 2);
    assert!(rt; a.worker() == 0);
    assert!(rt; b.worker() == 1);
    assert!(rt; round.look(&mut b, 0) == CellWord::Stale);
}

#[test]
fn one_pass_after_the_other(rt: HostRuntime) {
    let cells = [FIRST, SECOND];
    let job = Job::new(&TwoCells, &cells);
    let (round, mut passes) = Round::open(rt.alloc(), job, 2).expect(&rt, "memory");
    let (mut a, mut b) = both_passes(&rt, &round, &mut passes);
    one_by_one(&rt, &round, &mut a, &mut b, SEVEN, TRUTH);
    closes(&rt, round, passes, a, b, (done(0, 0, 0), done(1, 1, 1)));
}

#[test]
fn two_passes_at_once(rt: HostRuntime) {
    let cells = [FIRST, SECOND];
    let job = Job::new(&TwoCells, &cells);
    let (round, mut passes) = Round::open(rt.alloc(), job, 2).expect(&rt, "memory");
    let (mut a, mut b) = both_passes(&rt, &round, &mut passes);
    at_once(&rt, &round, &mut a, &mut b, SEVEN, TRUTH);
    closes(&rt, round, passes, a, b, (done(1, 0, 0), CellWord::Stale));
}

#[test]
fn two_passes_crossed(rt: HostRuntime) {
    let cells = [FIRST, SECOND];
    let job = Job::new(&TwoCells, &cells);
    let (round, mut passes) = Round::open(rt.alloc(), job, 2).expect(&rt, "memory");
    let (mut a, mut b) = both_passes(&rt, &round, &mut passes);
    crossed(&rt, &round, &mut a, &mut b, SEVEN, TRUTH);
    closes(&rt, round, passes, a, b, (done(1, 0, 0), done(0, 1, 1)));
}

#[test]
fn two_threads_at_one_cell(rt: HostRuntime) {
    let cells = [FIRST, SECOND];
    let job = Job::new(&TwoCells, &cells);
    let (round, mut passes) = Round::open(rt.alloc(), job, 2).expect(&rt, "memory");
    let (mut a, mut b) = both_passes(&rt, &round, &mut passes);
    two_threads(&rt, &round, &mut a, &mut b, SEVEN);
    let word = round.look(&mut a, 0);
    assert!(rt; matches!(word, CellWord::Done { .. }));
    assert!(rt; reads(&round, &mut a, 0) == Some(SEVEN));
    closes(&rt, round, passes, a, b, (word, CellWord::Stale));
}
