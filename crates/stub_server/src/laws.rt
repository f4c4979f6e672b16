ghost use Rattle.stub_server.specs.Laws.{SetKeyHasItsValue, RemovedKeyHasNoValue, KeysStayDistinct, NumberHasOneSpelling};

/// A key that was set has its new value, and all other keys keep theirs.
pub fn a_set_key_has_its_value()
    ensures { SetKeyHasItsValue }
{}

/// Removed keys have no value, and all other keys keep theirs.
pub fn a_removed_key_has_no_value()
    ensures { RemovedKeyHasNoValue }
{}

/// After each request each key is in the map at most once.
pub fn keys_stay_distinct()
    ensures { KeysStayDistinct }
{}

/// Bytes that are read as a number are the decimal spelling of that number and of no other.
pub fn a_number_has_one_spelling()
    ensures { NumberHasOneSpelling }
{}
