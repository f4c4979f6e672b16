ghost use Rattle.std.specs.Prelude.{Option};
ghost use Rattle.atomic_table.specs.Table.{State};
ghost use Rattle.ticket_gate.specs.declared.view.View.{View};
ghost use Rattle.ticket_gate.specs.Rule.{GateRule};
ghost use Rattle.ticket_gate.specs.PlainRule.{PlainRule};

use crate::recorded::Recorded;

/// The rule that each atomic step keeps. No two places hold one ticket or one number. At most one place is inside.
/// There is one legal journal; each place has seen a beginning of it, with all its own steps.
pub fn rule_in_plain_sentences<S: Recorded>()
    ensures { (c : S.Setting) (s : State (Option S) (View S.Event S.Answer S.Setting))
        → GateRule S.journal S.setting S.legal c s → PlainRule S.journal S.setting S.legal c s }
{}
