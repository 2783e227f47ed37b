// The transform as mathematics. specs/ has the definitions and the statements; each function here has a theorem as its contract,
// and does nothing when called.
#![tactic(auto)]

ghost use Rattle.wavelets.specs.Cases.{AddingTheTransformOfTheChangeGives, TransformingTheEditedRowGives, WorkedCasesHold, drifted, settled};
ghost use Rattle.wavelets.specs.Cone.{depth, in_cone, next};
ghost use Rattle.wavelets.specs.Counts.{same_bit, same_number};
ghost use Rattle.wavelets.specs.Lifting.{Lawful, five_three, forward, inverse, s_transform};
ghost use Rattle.wavelets.specs.Theorems.{ALevelGrowsAtMost, ALineOfOneStays, AStepMayBeDoneInPlace, EditsStayIn, ForwardReadsNothingOutside, ForwardStaysWithin, HasTheHalvesOfTheEvenMembers, IsTheLargest, LiftsAsTheStandard, NoDifferencesMeansAgreement, NoFactorServesBelow, PuttingAnewGivesTheEditedTransform, StepsGrowAtMost, Undoes, UndoesAsTheStandard, UndoingPassesThroughTheStepsOfLifting, UndoingReadsNothingOutside, UndoingStaysWithin, UndoingToALevelLeavesItsRounds, UndoingToALevelShowsItsResolution};

// A first and a last place on a line.
#[derive(Clone, Copy, Drop)]
pub struct Span {
    pub first: usize,
    pub last: usize,
}

// For any amounts, any size and any number of levels.
pub fn each_direction_undoes_the_other()
    ensures the_inverse_undoes_the_transform { Undoes inverse forward }
    ensures the_transform_undoes_the_inverse { Undoes forward inverse }
{}

// The cells of a transform, undone down to level k, show resolution k of the picture.
pub fn undoing_to_a_level_shows_its_resolution()
    ensures leaves_the_rounds_below { UndoingToALevelLeavesItsRounds }
    ensures shows_the_resolution { UndoingToALevelShowsItsResolution }
{}

// So what is known of the numbers on the way forward is known of them on the way back.
pub fn undoing_passes_through_the_steps_of_lifting()
    ensures step_for_step { UndoingPassesThroughTheStepsOfLifting }
{}

// Whichever of the other places are done already, a place gets the same number.
pub fn a_step_may_be_done_in_place()
    ensures in_any_order { AStepMayBeDoneInPlace }
{}

// An amount is never larger in size than the larger of its two neighbours.
pub fn both_kernels_keep_the_law()
    ensures five_three_keeps_it { Lawful five_three }
    ensures s_transform_keeps_it { Lawful s_transform }
{}

// For every lawful kernel: two-, three-, six- and ninefold in the four steps of a level; nine is reached.
pub fn a_level_grows_numbers_at_most_ninefold()
    ensures step_by_step { StepsGrowAtMost 2 3 6 9 }
    ensures level_by_level { ALevelGrowsAtMost 9 }
    ensures by_no_smaller_factor { NoFactorServesBelow 9 }
{}

// For every lawful kernel and every picture within the budget, after each round and after each step of a round.
pub fn the_budget_holds_at_every_step()
    ensures forward_stays_within_it { ForwardStaysWithin 2147483647 }
    ensures undoing_stays_within_it { UndoingStaysWithin 2147483647 }
{}

// Where two pictures agree outside a rectangle, their transforms agree outside its cone.
pub fn edits_stay_in_their_cone()
    ensures transforms_agree_outside_the_cone { EditsStayIn in_cone }
{}

// Cells that are a picture's transform become the edited picture's by putting those of the cone.
pub fn putting_the_cone_anew_gives_the_edited_transform()
    ensures cells_are_the_edited_transform { PuttingAnewGivesTheEditedTransform in_cone }
{}

// Planes that agree on the plate have transforms that agree on the plate.
pub fn nothing_outside_the_plate_is_read()
    ensures by_forward { ForwardReadsNothingOutside }
    ensures by_undoing { UndoingReadsNothingOutside }
{}

// Place m is in the next span exactly where place 2m is a member.
pub fn the_next_span_has_the_halves_of_the_even_members()
    ensures exactly_these { HasTheHalvesOfTheEvenMembers next }
{}

// Of the numbers k up to L such that 2^k divides both the row and the column.
pub fn the_depth_is_the_largest()
    ensures of_those_up_to_the_levels { IsTheLargest depth }
{}

// A count of differences is 0 exactly when the planes agree.
pub fn no_differences_means_the_planes_agree()
    ensures of_numbers { NoDifferencesMeansAgreement same_number }
    ensures of_bits { NoDifferencesMeansAgreement same_bit }
{}

// Our 5/3 is that of JPEG 2000, which reflects a line at its ends.
pub fn the_rule_for_a_missing_neighbour_is_symmetric_extension()
    ensures in_lifting { LiftsAsTheStandard five_three }
    ensures in_undoing { UndoesAsTheStandard five_three }
    ensures one_number_stays { ALineOfOneStays }
{}

// Each case of the list in specs/Cases.antt.
pub fn worked_cases_hold()
    ensures every_case_of_the_list { WorkedCasesHold }
{}

// The transform rounds, so the transform of a change cannot be added to the cells: one of them would be a unit too high.
pub fn adding_the_transform_of_the_change_drifts()
    ensures the_edited_row_has_these_cells { TransformingTheEditedRowGives settled }
    ensures adding_gives_one_unit_more { AddingTheTransformOfTheChangeGives drifted }
{}
