// What holds of numbers in decimal.
ghost use Rattle.base_decimals.specs.Laws.{NumbersReadBack, NumbersAreSpelled, IntegersReadBack, IntegersAreSpelled};

/// A text is a number's exactly where it is what the number is written as, and the number is within the bounds. The
/// function does nothing; its contract is the law.
pub fn decimal_law()
    ensures numbers_read_back { NumbersReadBack }
    ensures numbers_are_spelled { NumbersAreSpelled }
    ensures integers_read_back { IntegersReadBack }
    ensures integers_are_spelled { IntegersAreSpelled }
{}
