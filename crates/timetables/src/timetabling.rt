// The timetable, once for every measure. Weights and begins are lent slices, gone through by the numbers of the places.
ghost use Rattle.std.specs.Prelude.{◌≡◌, ◌<◌, ◌≤◌, length, if◌then◌else◌};
ghost use Rattle.cards.specs.Cards.{size_of, precedes_of};
ghost use Rattle.timetables.specs.Timetable.{greater_of, Greatest, sum, by_place, OnlyOne, Written, Timetabled};

use crate::measure::Measure;
use cards::Card;
use sheets::TooShort;

// The greater of two values.
fn greater<M: Measure + Copy>(a: M, b: M) -> M
    ensures { result ≡ greater_of M.scale a b }
{
    if a.at_most(&b) { b } else { a }
}

// The sum of the begin and the weight of place `u`.
fn sum_at<M: Measure + Copy>(weights: &[M], begins: &[M], u: usize) -> M
    requires weighed { u < length weights.now }
    requires begun { u < length begins.now }
    ensures { result ≡ sum M.scale (by_place M.scale weights.now) (by_place M.scale begins.now) u }
{
    begins[u].plus(weights[u])
}

// The begin of place `v` once place `u` is looked at too: it waits for the sum of `u` where `u` precedes it.
fn begin_after<M: Measure + Copy>(
    card: &Card,
    weights: &[M],
    begins: &[M],
    u: usize,
    v: usize,
    begin: M,
) -> M
    requires weighed { u < length weights.now }
    requires begun { u < length begins.now }
    ensures { result ≡ (if precedes_of card.now u v then greater_of M.scale begin (sum M.scale (by_place M.scale weights.now) (by_place M.scale begins.now) u) else begin) }
{
    if card.precedes(u, v) {
        greater(begin, sum_at(weights, begins, u))
    } else {
        begin
    }
}

// When place `v` begins: at the greatest sum of a predecessor's begin and weight, or at zero. Only lower places precede it.
fn begin_of<M: Measure + Copy>(card: &Card, weights: &[M], begins: &[M], v: usize) -> M
    requires weighed { v ≤ length weights.now }
    requires begun { v ≤ length begins.now }
    ensures { Greatest M.scale (λ u. precedes_of card.now u v) (sum M.scale (by_place M.scale weights.now) (by_place M.scale begins.now)) v result }
{
    let mut begin = M::zero();
    for u in 0..v {
        begin = begin_after(card, weights, begins, u, v, begin);
    }
    begin
}

// Writes the begins of the places in turn, and answers the greatest sum of a begin and a weight.
fn fill<M: Measure + Copy>(card: &Card, weights: &[M], begins: &mut [M]) -> M
    requires weighed { size_of card.now ≤ length weights.now }
    requires room { size_of card.now ≤ length begins.old }
    ensures { Written M.scale (size_of card.now) (precedes_of card.now) weights.now begins.old begins.new result }
{
    let mut end = M::zero();
    for v in 0..card.count() {
        begins[v] = begin_of(card, weights, begins, v);
        end = greater(end, sum_at(weights, begins, v));
    }
    end
}

// Writes when each place of the card begins at the earliest, and answers the end. The weights are given by place.
pub fn timetable<M: Measure + Copy>(
    card: &Card,
    weights: &[M],
    begins: &mut [M],
) -> Result<M, TooShort>
    ensures { Timetabled M.scale (size_of card.now) (precedes_of card.now) weights.now begins.old begins.new result }
{
    let count = card.count();
    if weights.len() < count || begins.len() < count {
        return Err(TooShort { needed: count });
    }
    Ok(fill(card, weights, begins))
}

// In every measure, places and their weights have one timetable.
pub fn only_one_timetable<M: Measure>()
    ensures { OnlyOne M.scale }
{}
