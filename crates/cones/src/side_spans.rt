// The spans of one side at every level, worked out once.
ghost use Rattle.std.specs.Prelude.{◌≡◌};
ghost use Rattle.wavelets.specs.Lifting.{size};
ghost use Rattle.wavelets.specs.Cone.{within, member, span_at};
ghost use Rattle.cones.specs.Spans.{spans_of};

use crate::span::{is_member, is_within, span_at};
use planes::level::Level;
use std::array;
use wavelets::Span;

// The rows of a rectangle on a side of so many rows, or its columns: the span at level 0, and those at the levels 0 to 5.
#[derive(Clone, Copy, Drop)]
pub struct SideSpans {
    pub side: usize,
    pub span: Span,
    pub spans: [Span; 6],
    ghost are_those_of_the_levels: { spans ≡ spans_of side span },
}

impl SideSpans {
    pub fn new(side: usize, span: Span) -> SideSpans
        ensures is_of_the_side { result.side ≡ side }
        ensures is_of_the_span { result.span ≡ span }
    {
        let spans = array::from_fn(|level| span_at(side, span, level));
        SideSpans { side, span, spans }
    }

    // The span at a level.
    pub fn at(&self, level: Level) -> Span
        ensures is_the_span_at_the_level { result ≡ span_at self.now.side self.now.span level.number }
    {
        self.spans[level.number]
    }

    // Whether a place of a level's lattice lies in the span of that level.
    pub fn is_within(&self, level: Level, place: usize) -> bool
        ensures is_within_the_levels_span { result ≡ within (span_at self.now.side self.now.span level.number) place }
    {
        is_within(self.at(level), place)
    }

    // Whether a place of a level's lattice is a member of the span of that level.
    pub fn is_member(&self, level: Level, place: usize) -> bool
        ensures is_a_member_of_the_levels_span { result ≡ member (size level.number self.now.side) (span_at self.now.side self.now.span level.number) place }
    {
        is_member(level.side(self.side), self.at(level), place)
    }
}
