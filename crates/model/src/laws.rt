// The law of the plain plate over whole lists of calls.
ghost use Rattle.model.specs.Laws.{ThePlainPlateIsWhatItsHistorySays};

// By the calls of any list and their verdicts: which plan, which picture and which bits the plain plate has after it.
pub fn the_plain_plate_is_what_its_history_says()
    ensures after_every_list_of_calls { ThePlainPlateIsWhatItsHistorySays }
{}
