// Laws over lists of pairs. The function does nothing; its contract is the law.
ghost use Rattle.base_dues.specs.Laws.{DuesAreOne, RisingKeepsMoments};

/// Two rising lists of pairs in which each number has the same moment are equal, and a list keeps the moments of its numbers
/// where it is put in rising order. So a set of dues is the rising list of the pairs that a function of the number gives.
pub fn dues_are_one()
    ensures one { DuesAreOne }
    ensures rising { RisingKeepsMoments }
{}
