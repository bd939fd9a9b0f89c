//! What a summary counts of events.

ghost use Rattle.std.specs.Prelude.{◌≡◌};
ghost use Rattle.um_trace.specs.Summary.{counts, events_that};

use um_base::{Act, Answer, Event};

/// What is counted.
#[derive(Clone, Copy)]
pub enum Counted {
    /// Lines that are begun.
    Begins,
    Checks,
    /// Checks that aren't ok.
    Refused,
    Fatals,
    /// Work on an object that waits.
    Waits,
    Recycles,
}

/// Whether an act is counted.
#[tactic(auto, unfolding(crate::specs::Summary::counts))]
fn counts(counted: Counted, act: &Act) -> bool
    ensures { result ≡ counts counted act.now }
{
    match counted {
        Counted::Begins => matches!(act, Act::Begin { .. }),
        Counted::Checks => matches!(act, Act::Check { .. }),
        Counted::Refused => matches!(
            act,
            Act::Check {
                verdict: Some(_),
                ..
            }
        ),
        Counted::Fatals => matches!(act, Act::Fatal { .. }),
        Counted::Waits => matches!(
            act,
            Act::Work {
                answer: Answer::Wait,
                ..
            }
        ),
        Counted::Recycles => matches!(act, Act::Recycle { .. }),
    }
}

/// How many events are counted.
pub fn events_that(counted: Counted, events: &[Event]) -> usize
    ensures { result ≡ events_that counted events.now }
{
    let mut count = 0;
    for event in events {
        count += counts(counted, &event.act) as usize;
    }
    count
}
