// A step and the cluster in which it is drawn.
ghost use Rattle.std.specs.Prelude.{◌≡◌};
ghost use Rattle.cacao_book.specs.Books.{step_of};
ghost use Rattle.cacao_json.specs.Tree.{pair_data};

use crate::marks::Mark;
use cacao_book::Step;
use cacao_json::Pair;

/// A step, as it stands in the tree and as it was read, the key of the control step in whose cluster it is drawn, and what is marked there.
#[derive(Drop)]
pub(crate) struct Placed<'a> {
    pub pair: &'a Pair,
    pub step: &'a Step,
    pub home: Option<&'a str>,
    pub mark: Mark,
    pub ghost is_read: { step.now ≡ step_of (pair_data pair.now) },
}
