// What the layout of a journal settles.
ghost use Rattle.run_journal.specs.Laws.{OneList, LayoutStands, NoListWhereDamaged, OnePlace, StandsOrDamaged};

/// An image stands for exactly one list, or is damaged at exactly one place.
pub fn layout_law()
    ensures one_list { OneList }
    ensures layout_stands { LayoutStands }
    ensures damaged { NoListWhereDamaged }
    ensures one_place { OnePlace }
    ensures stands_or_damaged { StandsOrDamaged }
{}
