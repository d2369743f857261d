//! How many words of a closed round name each worker.

ghost use Rattle.std.specs.Prelude.{◌≡◌, length, replicate, sum, Some};
ghost use Rattle.claim_core.specs.Rule.{Each, WorkersBelow, is_done, claimer_is, publisher_is};
ghost use Rattle.parallel_evaluation.specs.Summaries.{counts, CountsRound};

use crate::summary::{Counts, Summary};
use cell_words::CellWord;
use claim_core::Outcome;

// Counts the words by claimer and by publisher.
fn count_words(outcome: &Outcome, claimed: &mut Counts, published: &mut Counts)
    requires claimed { claimed.old ≡ replicate outcome.now.setup.workers 0 }
    requires published { published.old ≡ replicate outcome.now.setup.workers 0 }
    requires numbers { Each outcome.now.words (WorkersBelow outcome.now.setup.workers) }
    requires done { Each outcome.now.words (λ c. is_done c ≡ 1) }
    ensures claimed { (claimed.new ≡ counts claimer_is outcome.now.setup.workers outcome.now.words) × (sum claimed.new ≡ length outcome.now.setup.cells) }
    ensures published { (published.new ≡ counts publisher_is outcome.now.setup.workers outcome.now.words) × (sum published.new ≡ length outcome.now.setup.cells) }
{
    for i in 0..outcome.len() {
        let CellWord::Done {
            publisher,
            claimer,
            rec: _,
        } = outcome.word(i)
        else {
            unreachable!()
        };
        claimed.add(claimer);
        published.add(publisher);
    }
}

/// The summary of a round whose cells are all done, over counts that are 0.
pub(crate) fn summary_of(outcome: Outcome, mut claimed: Counts, mut published: Counts) -> Summary
    requires claimed { claimed ≡ replicate outcome.setup.workers 0 }
    requires published { published ≡ replicate outcome.setup.workers 0 }
    requires numbers { Each outcome.words (WorkersBelow outcome.setup.workers) }
    requires done { Each outcome.words (λ c. is_done c ≡ 1) }
    ensures pending { result.pending ≡ length outcome.setup.cells }
    ensures outcome { result.outcome ≡ Some outcome }
    ensures counts { CountsRound outcome.setup.workers outcome.words result }
{
    count_words(&outcome, &mut claimed, &mut published);
    Summary {
        pending: outcome.len(),
        claimed,
        published,
        outcome: Some(outcome),
    }
}
