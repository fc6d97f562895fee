// From texts of playbooks and bindings to their trees, and from trees to playbooks and canonical texts.
ghost use Rattle.std.specs.Prelude.{◌≡◌, ◌≤◌, Some, IfOk, IfErr, OnOk, All, length, map};
ghost use Rattle.cacao_json.specs.Tree.{data_of};
ghost use Rattle.cacao_json.specs.Reading.{tree};
ghost use Rattle.cacao_text.specs.Canon.{book_text};
ghost use Rattle.cacao_book.specs.Books.{book};
ghost use Rattle.cacao_book.specs.Steps.{AreSteps};
ghost use Rattle.flow_core_rules.specs.Bindings.{bindings_of, bind_text};
ghost use Rattle.flow_core_setup.specs.Setups.{IsReadable, AreAccepted};
ghost use Rattle.flow_core_setup.specs.SetupReading.{AreTreesOf, RefusesText, RefusesBooks, RefusesBindText, RefusesTrees, RefusesRule};

use crate::setup_errors::SetupError;
use cacao_check::{CheckError, Checked, Mode, read_books};
use cacao_json::{JsonError, Pairs, Tree, read_tree};
use cacao_site::Bytes;
use cacao_text::{canonical, canonical_book};
use run_records::BytesList;
use std::alloc::{AllocError, Global};

// The tree of the text with this number.
fn read_text(alloc: Global, text: &Bytes, file: u32) -> Result<Tree, SetupError>
    requires { IsReadable text.now }
    ensures ok { IfOk result (λ t. tree text.now ≡ Some (data_of t)) }
    ensures err { IfErr result (RefusesText text.now file) }
{
    match read_tree(alloc, text.as_slice()) {
        Ok(tree) => Ok(tree),
        Err(JsonError::Memory) => Err(SetupError::Memory),
        Err(error) => Err(SetupError::Unreadable { file, error }),
    }
}

/// The trees of the texts of playbooks, in order, up to the first that has none.
pub(crate) fn read_trees(alloc: Global, texts: &[Bytes]) -> Result<Vec<Tree>, SetupError>
    requires few { length texts.now ≤ 16 }
    requires readable { All IsReadable texts.now }
    ensures ok { IfOk result (λ trees. AreTreesOf texts.now (map data_of trees.items)) }
    ensures err { IfErr result (RefusesBooks texts.now) }
{
    let mut trees = Vec::new(alloc);
    for n in 0..texts.len() {
        let tree = match read_text(alloc, &texts[n], n as u32) {
            Ok(tree) => tree,
            Err(refusal) => return Err(refusal),
        };
        trees.push(tree)?;
    }
    Ok(trees)
}

/// The tree of the text of bindings, whose number among the texts is `file`; that of no bindings where the text is empty.
pub(crate) fn read_bindings(alloc: Global, bind: &Bytes, file: u32) -> Result<Tree, SetupError>
    requires { IsReadable bind.now }
    ensures ok { IfOk result (λ t. bindings_of bind.now ≡ Some (data_of t)) }
    ensures err { IfErr result (RefusesBindText bind.now file) }
{
    if bind.is_empty() {
        return Ok(Tree::Members(Pairs::new(alloc)));
    }
    read_text(alloc, bind, file)
}

// The break of a rule of playbooks.
fn rule_break(error: CheckError) -> SetupError
    ensures { RefusesRule error result }
{
    match error {
        CheckError::Broken(told) => SetupError::Broken(told),
        CheckError::Memory => SetupError::Memory,
    }
}

/// The playbooks of the trees, which break no rule in the mode of runs, or the first break.
pub(crate) fn judge(alloc: Global, trees: &[Tree]) -> Result<Checked, SetupError>
    requires some { 1 ≤ length trees.now }
    requires few { length trees.now ≤ 16 }
    ensures books { IfOk result (λ checked. checked.books ≡ map book (map data_of trees.now)) }
    ensures accepted { OnOk result (AreAccepted (map data_of trees.now)) }
    ensures steps { IfOk result (λ checked. All (λ one. AreSteps one.steps) checked.books) }
    ensures err { IfErr result (RefusesTrees (map data_of trees.now)) }
{
    match read_books(alloc, trees, Mode::Run) {
        Ok(checked) => Ok(checked),
        Err(error) => Err(rule_break(error)),
    }
}

// The canonical text of a playbook without its signatures.
fn book_bytes(alloc: Global, tree: &Tree) -> Result<Bytes, AllocError>
    ensures { IfOk result (λ text. text ≡ book_text (data_of tree.now)) }
{
    let text = canonical_book(alloc, tree)?;
    Ok(Bytes::from_vec(text.into_vec()))
}

/// The canonical texts of playbooks without their signatures.
pub(crate) fn canonical_texts(alloc: Global, trees: &[Tree]) -> Result<BytesList, AllocError>
    ensures { IfOk result (λ texts. texts ≡ map book_text (map data_of trees.now)) }
{
    let mut texts = Vec::new(alloc);
    for tree in trees {
        texts.push(book_bytes(alloc, tree)?)?;
    }
    Ok(BytesList::from_vec(texts))
}

/// The canonical text of bindings; the empty one where the text that was read is empty.
pub(crate) fn canonical_bind(alloc: Global, bind: &Bytes, tree: &Tree) -> Result<Bytes, AllocError>
    ensures { IfOk result (λ text. text ≡ bind_text bind.now (data_of tree.now)) }
{
    if bind.is_empty() {
        return Ok(Bytes::from_vec(Vec::new(alloc)));
    }
    let text = canonical(alloc, tree)?;
    Ok(Bytes::from_vec(text.into_vec()))
}
