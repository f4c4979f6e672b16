ghost use Rattle.splitter.specs.Laws.{CommandsKeepLimits, PartsAreCommands, PartsAreOfCommands, PartsKeepLimits, PartsAreReadBack, PlanTextsArePlain, JoinsOfPlainValuesArePlain, EachStreamAsks, OneAsking, RequestsGoOn};

/// A command has as many parts as its join asks for. Each is a command with its key.
pub fn parts_are_commands()
    ensures { PartsAreCommands }
{}

/// The parts of a command within a client's limits are too. None has a longer text.
pub fn parts_keep_limits()
    ensures { PartsKeepLimits }
{}

/// The parts of a command are those of the commands sent to hosts for it.
pub fn parts_are_of_commands()
    ensures { PartsAreOfCommands }
{}

/// The commands sent to hosts for a command within a client's limits are too. None has a longer text.
pub fn commands_keep_limits()
    ensures { CommandsKeepLimits }
{}

/// A host that reads with a client's limits reads a part's text as that part, if the split command is within them.
pub fn parts_are_read_back()
    ensures { PartsAreReadBack }
{}

/// The proxy's own answers can be written.
pub fn plan_texts_are_plain()
    ensures { PlanTextsArePlain }
{}

/// The join of writable values is writable.
pub fn joins_of_plain_values_are_plain()
    ensures { JoinsOfPlainValuesArePlain }
{}

/// The bytes of a client's stream give one list of requests: its values in order, followed by a broken one if the next
/// byte is refused.
pub fn streams_ask_one_list()
    ensures some { EachStreamAsks }
    ensures one { OneAsking }
{}

/// A stream cut behind some of its values gives these, then the requests of the rest.
pub fn requests_go_on()
    ensures { RequestsGoOn }
{}
