ghost use Rattle.std.specs.Prelude.{◌≡◌, ◌≤◌, ◌<◌, ◌↔◌, ℕ, IsTrue, length, slice_index_or, []};
ghost use Rattle.std.specs.List.{All};
ghost use Rattle.hull_book.specs.Scripts.{calls_of};
ghost use Rattle.hull_book.specs.Answers.{answers_in};
ghost use Rattle.hull_text.specs.ReportText.{AreAnswered, IsReport};

use hull_book::{Answer, Phase, Report};

/// Whether a worker has so many calls in all phases.
fn has_calls(workers: u8, worker: u8, phases: &[Phase], count: usize) -> bool
    requires worker { worker < workers }
    requires jobs { All (λ phase. length phase ≡ workers) phases.now }
    ensures { IsTrue result ↔ (count ≡ length (calls_of worker phases.now)) }
{
    let mut left = count;
    let mut rest = phases;
    while let Some((phase, after)) = rest.split_first() {
        let calls = phase.calls(worker).len();
        if left < calls {
            return false;
        }
        left -= calls;
        rest = after;
    }
    left == 0
}

/// Whether the workers' answers are as many as their calls.
fn are_answered(workers: u8, phases: &[Phase], answers: &[Vec<Answer>]) -> bool
    requires jobs { All (λ phase. length phase ≡ workers) phases.now }
    requires each { length answers.now ≡ workers }
    ensures { IsTrue result ↔ AreAnswered workers phases.now (answers_in answers.now) }
{
    for (worker, list) in answers.iter().enumerate() {
        if !has_calls(workers, worker as u8, phases, list.len()) {
            return false;
        }
    }
    true
}

/// Whether the pieces of a report fit together, as `write_report` requires: a list of answers and a ledger for each
/// worker, and an answer for each call.
pub fn report_fits(report: &Report<'_>) -> bool
    ensures { IsTrue result ↔ IsReport report.now.script.now
        (answers_in report.now.answers.now) report.now.ledgers.now }
{
    let workers = report.script.workers();
    if report.answers.len() != usize::from(workers)
        || report.ledgers.len() != usize::from(workers)
    {
        return false;
    }
    are_answered(workers, report.script.phases(), report.answers)
}
