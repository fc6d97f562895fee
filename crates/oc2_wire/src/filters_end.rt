// The end of the filters.
ghost use Rattle.std.specs.Prelude.{◌≡◌, ◌≢◌, ◌≤◌, ℕ, false, List, Err, IsTrue, IsErrOf};
ghost use Rattle.cacao_site.specs.Counts.{Rose};
ghost use Rattle.cacao_site.specs.LinkCalls.{GainsAll};
ghost use Rattle.cacao_site.specs.declared.parcel.Parcel.{Parcel};
ghost use Rattle.oc2_wire_laws.specs.Ends.{IsFiltersStart};
ghost use Rattle.oc2_wire_laws.specs.Since.{FiltersKeepSince};
ghost use Rattle.oc2_wire_site.specs.ReadLines.{KeepsLinesSince, mark_now};
ghost use Rattle.oc2_wire_site.specs.WireOf.{wire_of};
ghost use Rattle.oc2_wire.specs.Answering.{Served, TellsLink};
ghost use Rattle.oc2_wire.specs.FilterTurns.{EndedInTurns};
ghost use Rattle.oc2_wire.specs.Reading.{FiltersKeepByLines};
ghost use Rattle.oc2_wire.specs.Turns.{Goes};

use crate::commands::take_command;
use crate::error::WireError;
use crate::handing::{answer_command, is_sound, of_opening, open_filters};
use crate::tally::Tally;
use cacao_site::Site;
use oc2_wire_laws::filter_laws;
use oc2_wire_link::Link;
use oc2_wire_site::{LinkState, WireSite, wire_law};
use std::alloc::Global;

/// Opens the filters' files, and handles commands up to the end.
fn serve<S: Site, K: Link>(alloc: Global, wire: &mut WireSite<S, K>) -> Result<u32, WireError>
    requires answering { (wire_of S.view K.view wire.old).asking ≡ false }
    requires whole { (wire_of S.view K.view wire.old).lines.state ≡ LinkState.Whole }
    ensures { EndedInTurns result (wire_of S.view K.view wire.old) (wire_of S.view K.view wire.new) }
{
    let first = wire.passed();
    is_sound(wire);
    let mut filters = match open_filters(alloc, wire) {
        Ok(filters) => filters,
        Err(error) => return Err(of_opening(error)),
    };
    let mut tally = Tally {
        acted: 0,
        repeated: 0,
    };
    loop {
        match take_command(wire, first, tally.repeated) {
            Ok(Some(parcel)) => match answer_command(&mut filters, wire, &parcel) {
                Ok(acted) => tally.count(acted),
                Err(error) => return Err(error),
            },
            Ok(None) => return Ok(tally.acted),
            Err(error) => return Err(error),
        }
    }
}

/// Serves the filters of agents 1 to 16 to the other end of a wire: it opens their files, and hands each command that it takes to the
/// filter of its agent, at the present moment, up to the end of input. It answers how many acts were appended.
///
/// `Disk`, `Damaged`, `Limit` and `Memory` have the causes of a session. `TooLong` and `Link` tell what broke the link. `Flooded` comes
/// where the lines passed over and the commands handled without a new act are 1,000,000 or more; this is tested behind each take, before
/// the command is handled. It waits for the other end.
pub fn serve_agent<S: Site, K: Link>(
    alloc: Global,
    wire: &mut WireSite<S, K>,
) -> Result<u32, WireError>
    requires answering { (wire_of S.view K.view wire.old).asking ≡ false }
    requires whole { (wire_of S.view K.view wire.old).lines.state ≡ LinkState.Whole }
    ensures served { Served result (wire_of S.view K.view wire.old) (wire_of S.view K.view wire.new) }
    ensures keeps { IsTrue (wire_of S.view K.view wire.old).site.disk.told → IsFiltersStart (wire_of S.view K.view wire.old).site
        → FiltersKeepSince (wire_of S.view K.view wire.old).site (wire_of S.view K.view wire.new).site }
    ensures disk { IsErrOf result WireError.Disk → Rose (wire_of S.view K.view wire.old).site.disk.faults (wire_of S.view K.view wire.new).site.disk.faults }
    ensures steady { result ≢ Err WireError.Disk → (wire_of S.view K.view wire.new).site.disk.faults ≡ (wire_of S.view K.view wire.old).site.disk.faults }
    ensures answering { (wire_of S.view K.view wire.new).asking ≡ false }
    ensures lines { (wire_of S.view K.view wire.old).lines.passed ≤ (wire_of S.view K.view wire.new).lines.passed }
    // Each command that it took was answered in its turn, at the moment that the clock told right behind its take.
    ensures turns { Goes result (wire_of S.view K.view wire.old) (wire_of S.view K.view wire.new) }
    // Unless it was flooded, which is told first, what broke the link is told.
    ensures link { result ≢ Err WireError.Flooded → TellsLink result (wire_of S.view K.view wire.new) }
    // Where the wire was just made or marked, the commands that it took are those of the lines `c` that it read; and what this end promises
    // holds in words of these lines.
    ensures read { (wire_of S.view K.view wire.old).mark ≡ mark_now (wire_of S.view K.view wire.old)
        → (taken puts : List (ℕ × Parcel))
        → GainsAll (wire_of S.view K.view wire.old).site.link.taken taken (wire_of S.view K.view wire.new).site.link.taken
        → GainsAll (wire_of S.view K.view wire.old).site.link.puts puts (wire_of S.view K.view wire.new).site.link.puts
        → KeepsLinesSince (wire_of S.view K.view wire.old) (wire_of S.view K.view wire.new) taken puts }
    ensures by_lines { (wire_of S.view K.view wire.old).mark ≡ mark_now (wire_of S.view K.view wire.old)
        → IsTrue (wire_of S.view K.view wire.old).site.disk.told → IsFiltersStart (wire_of S.view K.view wire.old).site
        → ∥ FiltersKeepByLines (wire_of S.view K.view wire.old) (wire_of S.view K.view wire.new) ∥₁ }
{
    wire_law();
    filter_laws();
    wire.law();
    let result = serve(alloc, wire);
    wire.law();
    result
}
