ghost use Rattle.command_table.specs.Laws.{NamesAreDistinct, NamesAreLowerCase, EachRowIsFound, FoundStandsInTable};

/// No two commands of the table have the same name.
pub fn names_are_distinct()
    ensures { NamesAreDistinct }
{}

/// Each name of the table is in lower case.
pub fn names_are_lower_case()
    ensures { NamesAreLowerCase }
{}

/// Each command is found by its name in any case.
pub fn each_row_is_found()
    ensures { EachRowIsFound }
{}

/// An entry found by a name is in the table, and has that name.
pub fn found_stands_in_table()
    ensures { FoundStandsInTable }
{}
