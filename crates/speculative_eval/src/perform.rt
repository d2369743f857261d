//! The eight kinds of step, behind one call.

ghost use Rattle.std.specs.Prelude.{◌≡◌};
ghost use Rattle.claim_core.specs.Rule.{HasTurn};
ghost use Rattle.claim_core.specs.Steps.{grown};
ghost use Rattle.claim_core.specs.Passes.{IsPassOf, Stays};
ghost use Rattle.worker_machine.specs.States.{State, top_result};
ghost use Rattle.worker_machine.specs.RoundSteps.{IsEvent, IsTold};
ghost use Rattle.worker_machine.specs.Found.{found};
ghost use Rattle.speculative_eval.specs.Performs.{CanDo, TagFits, taken_by};

use claim_core::{Event, Pass, Round};
use workbook_core::Workbook;
use worker_machine::Action;

/// Makes the step.
pub(crate) fn perform(round: &Round<'_, Workbook>, pass: &mut Pass, action: Action) -> Event
    requires { IsPassOf round.now pass.old × CanDo round.now pass.old action }
    ensures pass { Stays round.now pass.old pass.new }
    ensures step { pass.new.view ≡ grown result pass.old.view }
    ensures taken { pass.new.taken ≡ taken_by result pass.old.taken }
    ensures event { IsEvent action result }
    ensures told { (s : State) → TagFits action (top_result s.known s.stack) → IsTold pass.old.view s result }
    ensures found { HasTurn pass.old.view → result ≡ found pass.old.view.words action }
{
    match action {
        Action::Look { cell } => Event::Look {
            cell,
            seen: round.look(pass, cell),
        },
        Action::Claim { cell } => Event::Claim {
            cell,
            answer: round.claim(pass, cell),
        },
        Action::TakeRecord => Event::TakeRecord {
            rec: round.take_record(pass),
        },
        Action::StoreValue { rec, k, word } => {
            round.store_value(pass, k, word);
            Event::StoreValue { rec, k, word }
        }
        Action::StoreTag { rec, word } => {
            round.store_tag(pass, word);
            Event::StoreTag { rec, word }
        }
        Action::Publish { cell, rec, claimer } => Event::Publish {
            cell,
            rec,
            answer: round.publish(pass, cell, claimer),
        },
        Action::LoadTag { rec } => Event::LoadTag {
            rec,
            word: round.load_tag(pass, rec),
        },
        Action::LoadValue { rec, k } => Event::LoadValue {
            rec,
            k,
            word: round.load_value(pass, rec, k),
        },
    }
}
