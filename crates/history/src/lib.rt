//! A day's calls one after the other, and what holds after every list of them.

#![tactic(auto)]

ghost use Rattle.std.specs.Prelude.{◌≡◌, List, map, IfOk, MatchResult};
ghost use Rattle.day.specs.Requests.{request_of};
ghost use Rattle.day.specs.States.{state_of};
ghost use Rattle.history.specs.Runs.{Opening, Event, Run, play, events, with_events};
ghost use Rattle.history.specs.Laws.{TakenExactlyWhen, BillTakenExactlyWhen, BalancesAreBills, AddsUpToZero, FiguresDependOnHoldingsAlone};

use day::{Answer, Call, OpenDay};
use std::alloc::{AllocError, Global};

// Makes the calls, and hands back their answers, one for one. Where memory for the answers is wanting, no call is made.
pub fn replay(
    heap: Global,
    day: &mut OpenDay<'_>,
    calls: &[Call<'_>],
) -> Result<Vec<Answer>, AllocError>
    ensures leaves { MatchResult result (λ v. state_of day.new ≡ play (state_of day.old) (map request_of calls.now)) (λ _. state_of day.new ≡ state_of day.old) }
    ensures answers { IfOk result (λ v. v.items ≡ map (λ e. e.answer) (events (state_of day.old) (map request_of calls.now))) }
    ensures calls { map (λ e. e.request) (events (state_of day.old) (map request_of calls.now)) ≡ map request_of calls.now }
    ensures run { IfOk result (λ v. (o : Opening) (es : List Event) → Run o es (state_of day.old) → Run o (with_events es (events (state_of day.old) (map request_of calls.now))) (state_of day.new)) }
    ensures taken { TakenExactlyWhen }
    ensures bills { BillTakenExactlyWhen }
    ensures balances { BalancesAreBills }
    ensures zero { AddsUpToZero }
    ensures holdings { FiguresDependOnHoldingsAlone }
{
    // All memory is asked for before the first call, so each answer finds its room. A loop, since what the closure of a chain
    // changes is not known after it.
    let mut given = Vec::with_capacity(heap, calls.len())?;
    for call in calls {
        given.push_reserved(day.make(call));
    }
    Ok(given)
}
