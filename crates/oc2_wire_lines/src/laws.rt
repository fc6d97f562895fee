// What holds of lines.
ghost use Rattle.oc2_wire_lines.specs.Laws.{LinesSpellOne, LinesReadOneWay, CarriedReadBack};
ghost use Rattle.oc2_wire_lines.specs.Laws.{FrontsHaveSentLines, LinesAreCutOneWay, LinesStay};

/// A line is that of at most one parcel, and what it is at an end is one thing. The line of each parcel that a line can
/// carry has one line feed, at its end, has at most 1,048,610 bytes, and reads back as that parcel. Bytes have lines in one
/// way, which stay where more bytes come; and what a front of the bytes sent has are lines that were sent. The function does
/// nothing; its contract is the law.
pub fn lines_law()
    ensures spell_one { LinesSpellOne }
    ensures read_one_way { LinesReadOneWay }
    ensures carried_read_back { CarriedReadBack }
    ensures one_way { LinesAreCutOneWay }
    ensures stay { LinesStay }
    ensures sent { FrontsHaveSentLines }
{}
