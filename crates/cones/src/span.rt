// Spans: the places in one, its members, and its descent from level to level.
ghost use Rattle.std.specs.Prelude.{◌≡◌, ◌≤◌};
ghost use Rattle.wavelets.specs.Cone.{within, member, next, span_at};

use planes::level::Level;
use wavelets::Span;

// Whether a place lies in a span.
pub fn is_within(span: Span, place: usize) -> bool
    ensures is_from_first_to_last { result ≡ within span place }
{
    span.first <= place && place <= span.last
}

// Whether a place of a line is a member of a span: an even place reaches two places beyond the span, an odd place one.
pub fn is_member(side: usize, span: Span, place: usize) -> bool
    ensures is_within_reach_on_the_line { result ≡ member side span place }
{
    let reach = 2 - place % 2;
    span.first.saturating_sub(reach) <= place
        && place <= span.last.saturating_add(reach)
        && place < side
}

// The span of the next level: the halves of the even members.
pub fn next_span(side: usize, span: Span) -> Span
    ensures is_the_next_span { result ≡ next side span }
{
    let first = span.first.saturating_sub(2);
    let last = span.last.saturating_add(2).min(side.saturating_sub(1));
    Span {
        first: (first + 1) / 2,
        last: last / 2,
    }
}

// The span at a level, worked out from the span at the level below, down to the span itself at level 0.
pub(crate) fn span_at(side: usize, span: Span, level: usize) -> Span
    requires a_level { level ≤ 5 }
    ensures is_the_span_at_the_level { result ≡ span_at side span level }
{
    if level == 0 {
        span
    } else {
        let below = Level { number: level - 1 };
        next_span(below.side(side), span_at(side, span, below.number))
    }
}
