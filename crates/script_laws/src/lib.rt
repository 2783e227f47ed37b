// What is written is read: theorems, each the contract of a function that does nothing when called.
#![tactic(auto)]

ghost use Rattle.script_laws.specs.Laws.{DecimalNumbersAreRead, SpacedWordsAreRead, EndedLinesAreRead, WhatIsWrittenIsRead};

pub fn decimal_numbers_are_read()
    ensures decimal_numbers_are_read { DecimalNumbersAreRead }
{}

pub fn spaced_words_are_read()
    ensures spaced_words_are_read { SpacedWordsAreRead }
{}

pub fn ended_lines_are_read()
    ensures ended_lines_are_read { EndedLinesAreRead }
{}

pub fn what_is_written_is_read()
    ensures what_is_written_is_read { WhatIsWrittenIsRead }
{}
