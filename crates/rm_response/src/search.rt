// The search for ticks into which work fits beside loads (after Bini and Buttazzo 2004).
ghost use Rattle.std.specs.Prelude.{◌≡◌, ◌≤◌, ◌<◌, ◌+◌, ◌-◌, ◌^◌, IsTrue, IsFalse, IfSome, MatchOption, length, max, All};
ghost use Rattle.dvs_base.specs.Widths.{u64_end};
ghost use Rattle.dvs_base.specs.declared.limits.TheConstants.{MOST_TASKS};
ghost use Rattle.task_model.specs.declared.limits.TheConstants.{LONGEST_PERIOD};
ghost use Rattle.rm_response.specs.Supplies.{IsDone, IsMore};
ghost use Rattle.rm_response.specs.Loads.{AreLoads, AreSearched, HasRate, release_before, work_of};
ghost use Rattle.rm_response.specs.Fits.{NoneFits, FindsFit, SearchesFit, NoneBefore, IsFirstFit, IsRelaxedBy, AreNodes};

use crate::inputs::{Load, Search, Span, Supply};
use crate::left::Left;
use crate::loads::{held, work_of};
use crate::supply::most_in;

// Whether `rest` units are too many for `most` ticks at the speed, or for what the rates of the loads leave of the
// supply.
fn is_beyond(supply: Supply, left: Left<'_>, rest: u128, most: u64) -> bool
    requires rates { All (HasRate supply.hyper) left.loads.now }
    requires low_ticks { most ≤ LONGEST_PERIOD }
    ensures none { IsTrue result → NoneFits supply left.entry.loads.now rest 0 (most + 1) }
    ensures within { IsFalse result → IsDone supply rest most }
    ensures low { IsFalse result → rest ≤ u64_end }
{
    let spare = supply.units.saturating_sub(left.rates);
    rest > most_in(supply, most) || spare * u128::from(most) < rest * u128::from(supply.hyper)
}

// Whether `rest` units fit into `ticks` ticks beside the work of the loads.
pub(crate) fn fits(supply: Supply, loads: &[Load], rest: u128, ticks: u64) -> bool
    requires few { length loads.now ≤ MOST_TASKS }
    requires low_rest { rest ≤ u64_end }
    requires low_ticks { ticks ≤ LONGEST_PERIOD }
    ensures yes { IsTrue result → IsDone supply (rest + work_of loads.now ticks) ticks }
    ensures no { IsFalse result → IsMore supply (rest + work_of loads.now ticks) ticks }
{
    let work = rest + work_of(loads, ticks);
    work <= most_in(supply, ticks)
        && work * u128::from(supply.hyper) <= supply.units * u128::from(ticks)
}

// The first ticks of a span raised to those that the work of `rest` units and of the loads in them takes, at most
// `steps` times (the iteration of Joseph and Pandya 1986); one more than the last if they pass it.
pub(crate) fn raised(supply: Supply, loads: &[Load], rest: u128, span: Span, steps: u32) -> u64
    requires few { length loads.now ≤ MOST_TASKS }
    requires low_rest { rest ≤ u64_end }
    ensures { NoneBefore supply loads.now rest span.first span.last result }
{
    let mut first = span.first;
    for _ in 0..steps {
        let work = rest + work_of(loads, first);
        if work > most_in(supply, span.last) {
            return span.last + 1;
        }
        let next = (work * u128::from(supply.hyper)).div_ceil(supply.units);
        if next > u128::from(span.last) {
            return span.last + 1;
        }
        if next <= u128::from(first) {
            return first;
        }
        first = next as u64;
    }
    first
}

// The ticks of a span after the last release of a load before the last of them and, if that is in the span, those of the
// period before it.
fn periods(load: Load, span: Span) -> (Span, Option<Span>)
    ensures after { result.0.first ≡ max span.first (release_before span.last load + 1) }
    ensures last { result.0.last ≡ span.last }
    ensures before { MatchOption result.1 (release_before span.last load < span.first)
        (λ e. (e.first ≡ max span.first (release_before span.last load + 1 - load.period))
        × (e.last ≡ release_before span.last load)) }
{
    let release = (span.last - 1) / load.period * load.period;
    if release < span.first {
        return (span, None);
    }
    let begun = Span {
        first: release + 1,
        last: span.last,
    };
    let ended = Span {
        first: span.first.max((release + 1).saturating_sub(load.period)),
        last: release,
    };
    (begun, Some(ended))
}

// The relaxed search of the node for the loads that are left, if there is one, and the loads that count there with their
// jobs.
fn relaxed_search<'a>(whole: Supply, left: Left<'a>) -> Option<(Search, Left<'a>)>
    requires some { 1 ≤ length left.loads.now }
    requires nodes { AreNodes whole left.loads.now left.nodes.now }
    ensures { IfSome result (λ r. IsRelaxedBy whole left.entry.loads.now r.0 r.1) }
{
    let node = left.nodes.get(left.loads.len())?;
    if node.count == 0 {
        return None;
    }
    let search = Search {
        whole,
        low: node.supply,
        tail: node.tail,
    };
    Some((search, Left::of(node.heavy(), &[])))
}

// One of the ticks of the span into which `rest` units fit beside the work of the loads, if any. If at most `tail` loads
// are left, what the low supply lacks of the whole one in the first of the ticks counts as work. Otherwise the first
// load is taken away: in the period that has the last of the ticks, and in the one before it. If it has a release in the
// span, the node for the loads can refuse first.
pub(crate) fn fitting_by(search: Search, left: Left<'_>, rest: u128, span: Span) -> Option<u64>
    requires loads { AreSearched search left.loads.now }
    requires nodes { AreNodes search.whole left.loads.now left.nodes.now }
    ensures { SearchesFit search left.entry.loads.now rest span.first span.last result }
{
    if is_beyond(search.low, left, rest, span.last) {
        return None;
    }
    let Some((load, others)) = left.split_first() else {
        return Some(span.last);
    };
    if left.loads.len() <= search.tail {
        let whole = Search::by(search.whole);
        let lack = search.lack(span.first);
        return fitting_by(whole, left.without_nodes(), rest + lack, span);
    }
    let (begun, ended) = periods(load, span);
    let Some(ended) = ended else {
        return fitting_by(search, others, rest + held(load, span.last), begun);
    };
    if let Some((relaxed, heavy)) = relaxed_search(search.whole, left)
        && fitting_by(relaxed, heavy, rest, span).is_none()
    {
        return None;
    }
    let found = fitting_by(search, others, rest + held(load, span.last), begun);
    if found.is_some() {
        return found;
    }
    fitting_by(search, others, rest + held(load, ended.last), ended)
}

// One of the ticks of the span into which `rest` units fit beside the work of the loads, if any.
pub(crate) fn fitting(supply: Supply, left: Left<'_>, rest: u128, span: Span) -> Option<u64>
    requires loads { AreLoads supply left.loads.now }
    requires nodes { AreNodes supply left.loads.now left.nodes.now }
    ensures { FindsFit supply left.entry.loads.now rest span.first span.last result }
{
    fitting_by(Search::by(supply), left, rest, span)
}

// The first of the ticks of the span into which `rest` units fit beside the work of the loads; one more than the last
// if there is none.
pub(crate) fn first_fitting(supply: Supply, left: Left<'_>, rest: u128, span: Span) -> u64
    requires loads { AreLoads supply left.loads.now }
    requires nodes { AreNodes supply left.loads.now left.nodes.now }
    ensures { IsFirstFit supply left.entry.loads.now rest span.first span.last result }
{
    let Some(mut high) = fitting(supply, left, rest, span) else {
        return span.last + 1;
    };
    let mut low = span.first;
    while low < high {
        let middle = low + (high - low) / 2;
        let half = Span {
            first: low,
            last: middle,
        };
        match fitting(supply, left, rest, half) {
            Some(ticks) => high = ticks,
            None => low = middle + 1,
        }
    }
    high
}
