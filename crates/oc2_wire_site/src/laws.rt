// What holds of wires.
ghost use Rattle.oc2_wire_site.specs.ReadLines.{LinesGoOn, MarkedKeepLines};

/// A wire that was just made or marked is known again by its label behind any calls on it, and then the parcels taken and put in between
/// tell of the lines that it read and sent. What it read up to a later moment begins with what it read up to an earlier one. The function
/// does nothing; its contract is the law.
pub fn wire_law()
    ensures marked { MarkedKeepLines }
    ensures goes_on { LinesGoOn }
{}
