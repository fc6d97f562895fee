//! Tasks that go on side by side: a record changes its own task alone, and what another task may do next it may still do. The
//! definitions stand in `specs/`; here are the laws. A law is the contract of a function that does nothing.
#![tactic(auto)]

ghost use Rattle.flow_core_laws.specs.OwnTask.{RecordsChangeOwnTask};
ghost use Rattle.flow_core_laws.specs.SameBytes.{AsksTheSame, SendsTheSame};
ghost use Rattle.flow_core_laws.specs.StaysEnabled.{RecordsStayEnabled};
ghost use Rattle.flow_core_laws.specs.BothOrders.{BothOrdersShowTheSame, OthersChangeTheSame};
ghost use Rattle.flow_core_laws.specs.BothSend.{BothMaySend};
ghost use Rattle.flow_core_laws.specs.Exchanged.{NeighboursMayBeExchanged};
ghost use Rattle.flow_core_laws.specs.Renumbered.{BothOrdersGoOn, OthersChangeTheSameRenumbered};
ghost use Rattle.flow_core_laws.specs.Results.{WritesAreResults};
ghost use Rattle.flow_core_laws.specs.FitValues.{ConstantsAreDeclared, ConstantsStay, ValuesFitKinds};
ghost use Rattle.flow_core_laws.specs.ReadInScope.{TasksReadInScope};
ghost use Rattle.flow_core_laws.specs.UsedNames.{UsedNamesAreDeclared};

use cacao_check::results_fit;

/// A record changes its own task, makes tasks below it and scopes inside it, and leaves every other task, scope and issue as it
/// was. After it each record of another task may still come next, a Send and an Ask with the number and the bytes of then.
pub fn apart_law()
    ensures own_task { RecordsChangeOwnTask }
    ensures stays_enabled { RecordsStayEnabled }
    ensures same_send { SendsTheSame }
    ensures same_ask { AsksTheSame }
{}

/// In a state of a run, what a record changes rests on its own task and on what it reads: a record of another task that writes
/// none of that leaves it the very same. So where neither reads or writes what the other writes, and they open apart, both orders
/// go on and show the same, and in a run two such neighbours may be exchanged. Where both open scopes or make tasks, each changes
/// the same in both orders but for the numbers of what it opens; a Send has the same content under the number of then.
pub fn orders_law()
    ensures frame { OthersChangeTheSame }
    ensures both_orders { BothOrdersShowTheSame }
    ensures exchanged { NeighboursMayBeExchanged }
    ensures renumbered { OthersChangeTheSameRenumbered }
    ensures both_go_on { BothOrdersGoOn }
    ensures both_send { BothMaySend }
    ensures results { WritesAreResults }
{}

/// In each state of a run a name is declared for a task as the regions of its playbook say where it stands: outside its step as seen
/// from its scope, and as the step sees it from the step's. Its value is unset or of the declared kind, and a constant keeps the text
/// that its scope opened with.
pub fn scopes_law()
    ensures tasks { TasksReadInScope }
    ensures used { UsedNamesAreDeclared }
    ensures values { ValuesFitKinds }
    ensures constants { ConstantsStay }
    ensures declared { ConstantsAreDeclared }
{
    results_fit();
}
