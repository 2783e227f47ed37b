// The law of the search by which a fault names the first of several wrong places.
ghost use Rattle.faults.specs.Tables.{TheFirstIndexIsTheFirst};

pub fn the_first_index_is_the_first()
    ensures the_first_index_is_the_first { TheFirstIndexIsTheFirst }
{}
