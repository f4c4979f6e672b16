ghost use Rattle.proxy_history.specs.Laws.{BeginningsAreLegal, EpochsEndByFaults, FaultsRaiseEpochs, FewAreOut, NoneIsSentTwice, OutcomesStay, OwnersStay, PartsHaveArrived, RepliesAreInOrder, RepliesWereAsked, SentPartsArrived, ValuesAreOwn};
ghost use Rattle.proxy_history.specs.CauseLaws.{FinishingTakesNothing, NotReadyMeans};
ghost use Rattle.proxy_history.specs.CommandLaws.{CommandsHaveTheirParts, OutcomesAreAsPlanned};
ghost use Rattle.proxy_history.specs.EjectionLaws.{EjectionsChooseHostsAlone};
ghost use Rattle.proxy_history.specs.HandingLaws.{ClosedGetsNothing, HandedIsItsOutcome, RepliesGoOutOnce};
ghost use Rattle.proxy_history.specs.LimitLaws.{LimitsHold};
ghost use Rattle.proxy_history.specs.RefusalLaws.{RefusalsMean};
ghost use Rattle.proxy_history.specs.StepLaws.{AnswersFit, EpochsArePresent, OpeningsComeFirst, UnopenedHaveNoSteps};
ghost use Rattle.proxy_history.specs.SendingLaws.{EachTakenSends, NothingElseIsSent, UnsentPartsWait, UpstreamIsWhatWasSent, WaitingIsInOrder};

/// Each beginning of a legal history is legal.
pub fn beginnings_are_legal()
    ensures { BeginningsAreLegal }
{}

/// Each event has an answer of its kind.
pub fn answers_fit()
    ensures { AnswersFit }
{}

/// A taken part, a reply and a fault have their host's epoch at that time.
pub fn epochs_are_present()
    ensures { EpochsArePresent }
{}

/// A connection's steps come after its opening.
pub fn openings_come_first()
    ensures { OpeningsComeFirst }
{}

/// An unopened connection has no steps.
pub fn unopened_have_no_steps()
    ensures { UnopenedHaveNoSteps }
{}

/// The cause of a refusal holds.
pub fn refusals_mean()
    ensures { RefusalsMean }
{}

/// Handing out is refused as not ready exactly if the connection is open and has no unwritten command, or its next one
/// has no outcome yet.
pub fn not_ready_means()
    ensures { NotReadyMeans }
{}

/// A connection that finishes accepts no further command.
pub fn finishing_takes_nothing()
    ensures { FinishingTakesNothing }
{}

/// The outcome of a command never changes.
pub fn outcomes_stay()
    ensures { OutcomesStay }
{}

/// Each command has all parts of its plan, in their order.
pub fn commands_have_their_parts()
    ensures { CommandsHaveTheirParts }
{}

/// A command's outcome is the proxy's own answer, or the join of its parts' values once each has one.
pub fn outcomes_are_as_planned()
    ensures { OutcomesAreAsPlanned }
{}

/// The replies handed out are the outcomes in the order of the commands, none missing.
pub fn replies_are_in_order()
    ensures { RepliesAreInOrder }
{}

/// Each reply handed out is the outcome of its connection's next command.
pub fn handed_is_its_outcome()
    ensures { HandedIsItsOutcome }
{}

/// Each command's reply is handed out by at most one step.
pub fn replies_go_out_once()
    ensures { RepliesGoOutOnce }
{}

/// After its close a connection has no event, and gets nothing more.
pub fn closed_gets_nothing()
    ensures { ClosedGetsNothing }
{}

/// Each part is the part of its number of a command that arrived. It has for good the host that owned its key then, or
/// `no upstream host` if there was none. It has `proxy busy` exactly if 1,024 parts waited for that host when its turn
/// within its command came.
pub fn parts_have_arrived()
    ensures { PartsHaveArrived }
{}

/// A part waits for a host exactly if it arrived for it without a value, the host had no fault since, the part
/// wasn't sent, and its connection isn't closed.
pub fn unsent_parts_wait()
    ensures { UnsentPartsWait }
{}

/// Parts wait in the order of their arrival, and those of one command in the plan's.
pub fn waiting_is_in_order()
    ensures { WaitingIsInOrder }
{}

/// Each `Taken` sends the first part that waits for its host.
pub fn each_taken_sends()
    ensures { EachTakenSends }
{}

/// Only a `Taken` of a host in an epoch changes what was sent to it in that epoch.
pub fn nothing_else_is_sent()
    ensures { NothingElseIsSent }
{}

/// The output to a host in an epoch is the texts sent to it.
pub fn upstream_is_what_was_sent()
    ensures { UpstreamIsWhatWasSent }
{}

/// Each part sent has arrived.
pub fn sent_parts_arrived()
    ensures { SentPartsArrived }
{}

/// No part is sent twice.
pub fn none_is_sent_twice()
    ensures { NoneIsSentTwice }
{}

/// In each epoch a host gives at most as many replies as parts were sent.
pub fn replies_were_asked()
    ensures { RepliesWereAsked }
{}

/// A part's value is the one that it got at its arrival, its own host's reply in its own place, or `upstream
/// failure` if that host had a fault in the part's epoch before that reply.
pub fn values_are_own()
    ensures { ValuesAreOwn }
{}

/// An epoch is over exactly if the history has a fault of its host in that epoch.
pub fn epochs_end_by_faults()
    ensures { EpochsEndByFaults }
{}

/// A host's epoch changes exactly by its faults.
pub fn faults_raise_epochs()
    ensures { FaultsRaiseEpochs }
{}

/// At most as many hosts are out as the limit allows.
pub fn few_are_out()
    ensures { FewAreOut }
{}

/// A key goes to its owner among all hosts if that is usable.
pub fn owners_stay()
    ensures { OwnersStay }
{}

/// Whatever outlier detection has seen, each event is refused or answered alike, except for the hosts of parts and for
/// what the answer says of hosts.
pub fn ejections_choose_hosts_alone()
    ensures { EjectionsChooseHostsAlone }
{}

/// Open connections, unwritten commands, waiting parts, and the journal's steps and payload keep their limits.
pub fn limits_hold()
    ensures { LimitsHold }
{}
