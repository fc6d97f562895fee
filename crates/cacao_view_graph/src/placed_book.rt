// A playbook and its steps.
ghost use Rattle.std.specs.Prelude.{◌≡◌};
ghost use Rattle.cacao_book.specs.Books.{book as book_of};
ghost use Rattle.cacao_json.specs.Tree.{data_of};

use crate::placed::Placed;
use cacao_book::Book;
use cacao_json::Tree;

/// A playbook, as a tree and as it was read, and its steps in order.
#[derive(Drop)]
pub(crate) struct PlacedBook<'a> {
    pub tree: &'a Tree,
    pub book: &'a Book,
    pub steps: Vec<Placed<'a>>,
    pub ghost is_read: { book.now ≡ book_of (data_of tree.now) },
}
