// The law by which a script's buffers need not be longer than the largest plate.
ghost use Rattle.workshop_job.specs.Buffers.{LongerBuffersChangeNoVerdict, LongerOutputsChangeNoSheet};

// A settlement or a preview whose buffers are cut to the area of the largest plate is accepted or declined as with the whole ones, and a sheet
// whose output is cut to the longest sheet.
pub fn longer_buffers_change_no_verdict()
    ensures after_every_list_of_calls { LongerBuffersChangeNoVerdict }
    ensures of_any_sheet { LongerOutputsChangeNoSheet }
{}
