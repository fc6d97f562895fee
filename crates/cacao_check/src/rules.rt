// The rules of sense by their names.
ghost use Rattle.std.specs.Prelude.{◌≡◌, ◌≤◌};
ghost use Rattle.cacao_check.specs.Sense.{sense_number};

/// A rule on books that are well shaped.
#[derive(Clone, Copy, PartialEq, Eq)]
pub enum SenseRule {
    K13,
    K14,
    K15,
    K16,
    K17,
    K18,
    K19,
    K20,
    K21,
    K22,
    K23,
    K24,
    K25,
}

/// The number of a rule.
pub(crate) fn number_of(rule: SenseRule) -> u8
    ensures { result ≡ sense_number rule }
{
    match rule {
        SenseRule::K13 => 13,
        SenseRule::K14 => 14,
        SenseRule::K15 => 15,
        SenseRule::K16 => 16,
        SenseRule::K17 => 17,
        SenseRule::K18 => 18,
        SenseRule::K19 => 19,
        SenseRule::K20 => 20,
        SenseRule::K21 => 21,
        SenseRule::K22 => 22,
        SenseRule::K23 => 23,
        SenseRule::K24 => 24,
        SenseRule::K25 => 25,
    }
}

/// The rule with a number.
pub(crate) fn rule_of(number: u8) -> SenseRule
    requires least { 13 ≤ number }
    requires most { number ≤ 25 }
    ensures { sense_number result ≡ number }
{
    match number {
        13 => SenseRule::K13,
        14 => SenseRule::K14,
        15 => SenseRule::K15,
        16 => SenseRule::K16,
        17 => SenseRule::K17,
        18 => SenseRule::K18,
        19 => SenseRule::K19,
        20 => SenseRule::K20,
        21 => SenseRule::K21,
        22 => SenseRule::K22,
        23 => SenseRule::K23,
        24 => SenseRule::K24,
        _ => SenseRule::K25,
    }
}
