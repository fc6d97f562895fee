// What a run is given: accepted playbooks and bindings.
ghost use Rattle.std.specs.Prelude.{◌≡◌, ◌<◌, ◌≤◌, length, map, All, Some, IfOk, IfErr, option_map, option_and_then, unwrap_or, position, find, slice_get};
ghost use Rattle.std.specs.Bool.{OnTrue};
ghost use Rattle.std.specs.Option.{option_copied};
ghost use Rattle.std.specs.Str.{bytes_eq};
ghost use Rattle.cacao_cond.specs.Trees.{tree_of};
ghost use Rattle.cacao_json.specs.Tree.{data_of};
ghost use Rattle.cacao_book.specs.Steps.{IsInKeyOrder, place_of};
ghost use Rattle.cacao_check.specs.Fits.{FitsKind};
ghost use Rattle.flow_core_rules.specs.Givens.{Given, book_at, step_at, number_of_step, book_with as book_under};
ghost use Rattle.flow_core_rules.specs.Places.{filter_of as filter_in};
ghost use Rattle.flow_core_rules.specs.Accepted.{Accepted};
ghost use Rattle.flow_core_rules.specs.Bindings.{bindings_of};
ghost use Rattle.flow_core_setup.specs.Setups.{AreAccepted, IsReadable, IsSetup, condition_at, content_at};
ghost use Rattle.flow_core_setup.specs.SetupGivens.{AreInOrder, PartsOf};
ghost use Rattle.flow_core_setup.specs.SetupReading.{AreTreesOf, RefusesTexts};
ghost use Rattle.flow_core_texts.specs.Contents.{content_data};
ghost use Rattle.flow_core_texts.specs.Questions.{question_text};
ghost use Rattle.flow_core_texts.specs.Wordings.{step_said, step_words};

use crate::bindings::{Bound, read_bound};
use crate::hints::{Hints, read_hints};
use crate::setup_errors::SetupError;
use crate::setup_reading::{canonical_bind, canonical_texts, judge, read_bindings, read_trees};
use cacao_book::{Book, Step, find_place};
use cacao_check::{Checked, Parts, sound_gives};
use cacao_cond::Cond;
use cacao_json::{Text, Tree};
use cacao_site::Bytes;
use cacao_text::canonical_law;
use cacao_vars::{Name, Word};
use flow_core_rules::conditions_are_spelled;
use flow_core_texts::{BookWords, Content, Phrase, StepWords, read_words};
use run_records::BytesList;
use std::alloc::Global;
use std::marker::Model;

/// The playbooks that a run is given, with what was read of their steps and with their canonical texts, and what was bound. The
/// first playbook is run; it may call the others. Only `read` makes one. Playbooks and steps have numbers from 0, steps in the
/// order of their keys.
pub struct Setup {
    checked: Checked,
    texts: BytesList,
    bind: Bytes,
    agents: Vec<(Text, u8)>,
    variables: Vec<(Name, Word)>,
    words: Vec<BookWords>,
    hints: Vec<Hints>,
}

// (by hand, and not by derive: so a drop is one call in the proofs of all who own one)
impl Drop for Setup {
    fn drop(self) {
        let Self {
            checked: _,
            texts: _,
            bind: _,
            agents: _,
            variables: _,
            words: _,
            hints: _,
        } = self;
    }
}

impl Model for Setup {
    ghost use Rattle.flow_core_rules.specs.Givens.{Given};

    ghost Value = { Given };

    ghost use Rattle.flow_core_setup.specs.Setups.{IsSetup};
    ghost use Rattle.flow_core_setup.specs.SetupGivens.{given_by};

    ghost view = { λ s. given_by s.checked.books s.texts s.bind s.agents.items s.variables.items };

    ghost use Rattle.flow_core_texts.specs.Wordings.{AreWordsOf};

    ghost invariant = { λ s. IsSetup (given_by s.checked.books s.texts s.bind s.agents.items s.variables.items) × AreWordsOf s.checked.books s.words.items };
}

/// What holds of each setup: its canonical texts are accepted and give it again, it can be run, it has 1 to 16 playbooks of at
/// most 4,096 steps each, and its texts are short enough to be read. The function does nothing; its contract is the law.
pub fn setup_law(setup: &Setup)
    ensures { IsSetup setup.now }
{
    let _ = setup.texts.as_slice();
}

fn has_key(step: &Step, key: &Text) -> bool
    ensures { result ≡ bytes_eq step.now.key key.now }
{
    step.key.text() == key.text()
}

// Whether the step with this key stands here.
fn stands_at(steps: &[Step], place: usize, key: &Text) -> bool
    requires { IsInKeyOrder steps.now }
    ensures place { OnTrue result (place_of steps.now key.now ≡ Some place) }
    ensures within { OnTrue result (place < length steps.now) }
{
    match steps.get(place) {
        Some(step) => has_key(step, key),
        None => false,
    }
}

// The number of the step with this key, and how many steps there are where none has it. The place that is given is tried first.
fn place_in(steps: &[Step], first: usize, key: &Text) -> usize
    requires few { length steps.now ≤ 4096 }
    requires order { IsInKeyOrder steps.now }
    ensures place { result ≡ unwrap_or (place_of steps.now key.now) (length steps.now) }
    ensures within { result ≤ 4096 }
{
    if stands_at(steps, first, key) {
        return first;
    }
    match find_place(steps, key.text()) {
        Some(place) => place,
        None => steps.len(),
    }
}

fn has_id(book: &Book, id: &Text) -> bool
    ensures { result ≡ bytes_eq book.now.id id.now }
{
    book.id.text() == id.text()
}

// The number of the first playbook with this identifier.
fn find_book(books: &[Book], id: &Text) -> Option<usize>
    ensures { result ≡ position (λ book. bytes_eq book.id id.now) books.now }
{
    books.iter().position(|book| has_id(book, id))
}

// What is bound to an agent or a target.
fn find_bound<'a>(agents: &'a [(Text, u8)], to: &str) -> Option<&'a (Text, u8)>
    requires { AreInOrder agents.now }
    ensures { option_copied result ≡ find (λ entry. bytes_eq entry.0 to.now) agents.now }
{
    match agents.binary_search_by(|bound| bound.0.text().cmp(to)) {
        Ok(place) => Some(&agents[place]),
        Err(_) => None,
    }
}

// What was read of the playbook at this place, if there is one.
fn book_words_in(words: &[BookWords], book: u32) -> Option<&BookWords>
    ensures { option_copied result ≡ slice_get words.now book }
{
    words.get(book as usize)
}

// What was read of the step at this place, if there is one.
fn step_words_in(steps: &[StepWords], step: u32) -> Option<&StepWords>
    ensures { option_copied result ≡ slice_get steps.now step }
{
    steps.get(step as usize)
}

// The content at this place, if there is one.
fn content_in(contents: &[Option<Content>], command: u32) -> Option<&Content>
    ensures { option_map (λ content. content_data content.now) result ≡ option_and_then (λ content. option_map content_data content) (slice_get contents.now command) }
{
    match contents.get(command as usize) {
        Some(content) => content.as_ref(),
        None => None,
    }
}

// The text for an operator at this place, if there is one.
fn question_in(questions: &[Option<Phrase>], command: u32) -> Option<&Phrase>
    ensures { option_copied result ≡ option_and_then (λ question. question) (slice_get questions.now command) }
{
    match questions.get(command as usize) {
        Some(question) => question.as_ref(),
        None => None,
    }
}

impl Setup {
    /// What texts of 1 to 16 playbooks, the first of which is run, and a text of bindings (none where it is empty) give a run. Each has at
    /// most 1,048,576 bytes. They are refused exactly where a text has no tree, a rule of playbooks is broken in the mode of runs, or a
    /// rule of bindings is broken, in this order, and the refusal names the first such text, the first break or the least rule; or
    /// where memory is wanted.
    pub fn read(alloc: Global, books: &[Bytes], bind: &Bytes) -> Result<Setup, SetupError>
        requires some { 1 ≤ length books.now }
        requires few { length books.now ≤ 16 }
        requires readable { All IsReadable books.now }
        requires readable_bind { IsReadable bind.now }
        ensures ok { IfOk result (λ setup. Accepted AreAccepted FitsKind books.now bind.now setup) }
        ensures err { IfErr result (RefusesTexts books.now bind.now) }
    {
        let trees = match read_trees(alloc, books) {
            Ok(trees) => trees,
            Err(refusal) => return Err(refusal),
        };
        let bindings = match read_bindings(alloc, bind, books.len() as u32) {
            Ok(bindings) => bindings,
            Err(refusal) => return Err(refusal),
        };
        Setup::read_by_trees(alloc, books, bind, trees.as_slice(), &bindings)
    }

    // The same by the trees of the texts. (It only borrows them: so their drops are proved once.)
    fn read_by_trees(
        alloc: Global,
        books: &[Bytes],
        bind: &Bytes,
        trees: &[Tree],
        bindings: &Tree,
    ) -> Result<Setup, SetupError>
        requires some { 1 ≤ length books.now }
        requires few { length books.now ≤ 16 }
        requires readable { All IsReadable books.now }
        requires readable_bind { IsReadable bind.now }
        requires trees { AreTreesOf books.now (map data_of trees.now) }
        requires bindings { bindings_of bind.now ≡ Some (data_of bindings.now) }
        ensures ok { IfOk result (λ setup. Accepted AreAccepted FitsKind books.now bind.now setup) }
        ensures err { IfErr result (RefusesTexts books.now bind.now) }
    {
        let checked = match judge(alloc, trees) {
            Ok(checked) => checked,
            Err(refusal) => return Err(refusal),
        };
        let bound = match read_bound(alloc, bindings, &checked.book(0).variables) {
            Ok(bound) => bound,
            Err(refusal) => return Err(refusal),
        };
        let texts = canonical_texts(alloc, trees)?;
        let bind = canonical_bind(alloc, bind, bindings)?;
        let words = read_words(alloc, &checked)?;
        let hints = read_hints(alloc, &checked)?;
        sound_gives();
        canonical_law();
        let Bound { agents, variables } = bound;
        Ok(Setup {
            checked,
            texts,
            bind,
            agents,
            variables,
            words,
            hints,
        })
    }

    /// The playbooks in order. It takes no memory.
    pub fn books(&self) -> &[Book]
        ensures { result.now ≡ self.now.books }
    {
        self.checked.books()
    }

    /// The canonical texts of the playbooks without their signatures (RFC 8785). It takes no memory.
    pub fn texts(&self) -> &[Bytes]
        ensures { result.now ≡ self.now.texts }
    {
        self.texts.as_slice()
    }

    /// The canonical text of the bindings; the empty text where there are none. It takes no memory.
    pub fn bind(&self) -> &Bytes
        ensures { result.now ≡ self.now.bind }
    {
        &self.bind
    }

    /// The texts that are bound to variables of the first playbook. It takes no memory.
    pub fn variables(&self) -> &[(Name, Word)]
        ensures { result.now ≡ self.now.variables }
    {
        self.variables.as_slice()
    }

    /// The playbook with this number. It takes no memory.
    pub fn book(&self, book: u32) -> Option<&Book>
        ensures { option_copied result ≡ book_at self.now book }
    {
        self.checked.books().get(book as usize)
    }

    /// The step with these numbers. It takes no memory.
    pub fn step(&self, book: u32, step: u32) -> Option<&Step>
        ensures { option_copied result ≡ step_at self.now book step }
    {
        let book = self.book(book)?;
        book.steps.as_slice().get(step as usize)
    }

    // Where the step with this key may stand.
    fn hint(&self, book: u32, key: &Text) -> usize {
        match self.hints.get(book as usize) {
            Some(hints) => hints.place_of(key.text()),
            None => 0,
        }
    }

    /// The number of the step with this key: the count of the playbook's steps where none has it, and 0 where there is no such
    /// playbook. It takes no memory.
    pub fn number_of_step(&self, book: u32, key: &Text) -> u32
        ensures number { result ≡ number_of_step self.now book key.now }
        ensures within { result ≤ 4096 }
    {
        let first = self.hint(book, key);
        match self.book(book) {
            Some(book) => place_in(book.steps.as_slice(), first, key) as u32,
            None => 0,
        }
    }

    /// The key of the step that follows a failure of the playbook's run, if there is one. It takes no memory.
    pub fn exception(&self, book: u32) -> Option<&Text>
        ensures { option_copied result ≡ option_and_then (λ b. b.exception) (book_at self.now book) }
    {
        self.book(book)?.exception.as_ref()
    }

    /// The first playbook with this identifier, and its number. It takes no memory.
    pub fn book_with(&self, id: &Text) -> Option<(u32, &Book)>
        ensures { option_map (λ found. (found.0, found.1.now)) result ≡ book_under self.now id.now }
    {
        let books = self.checked.books();
        let Some(number) = find_book(books, id) else {
            return None;
        };
        let Some(book) = books.get(number) else {
            return None;
        };
        Some((number as u32, book))
    }

    /// The number of the filter that is bound to an agent or a target, from 1 to 16; 1 where none is. It takes no memory.
    pub fn filter_of(&self, to: &Text) -> u8
        ensures filter { result ≡ filter_in self.now.agents to.now }
        ensures least { 1 ≤ result }
        ensures most { result ≤ 16 }
    {
        match find_bound(self.agents.as_slice(), to.text()) {
            Some(bound) => bound.1,
            None => 1,
        }
    }

    // What was read of the step with these numbers.
    fn parts(&self, book: u32, step: u32) -> Option<&Parts>
        ensures { PartsOf self.now (step_at self.now book step) (option_copied result) }
    {
        let Some(found) = self.book(book) else {
            return None;
        };
        if found.steps.as_slice().len() <= step as usize {
            return None;
        }
        Some(self.checked.parts(book, step))
    }

    /// The condition of a step, as it was read when the setup was; None where the step has none. It takes no memory.
    pub fn condition(&self, book: u32, step: u32) -> Option<&Cond>
        ensures { option_map (λ cond. tree_of cond.now) result ≡ condition_at self.now book step }
    {
        conditions_are_spelled();
        let Some(parts) = self.parts(book, step) else {
            return None;
        };
        parts.condition.as_ref()
    }

    // What the commands of a step say.
    fn step_words(&self, book: u32, step: u32) -> Option<&StepWords>
        ensures { option_map step_words (option_copied result) ≡ option_map step_said (step_at self.now book step) }
    {
        let Some(words) = book_words_in(self.words.as_slice(), book) else {
            return None;
        };
        step_words_in(words.steps.as_slice(), step)
    }

    /// The content of a step's command, as it was read when the setup was; None where there is none, and of a command for an operator.
    /// Commands have numbers from 0. It takes no memory.
    pub fn content(&self, book: u32, step: u32, command: u32) -> Option<&Content>
        ensures { option_map (λ content. content_data content.now) result ≡ content_at self.now book step command }
    {
        let Some(words) = self.step_words(book, step) else {
            return None;
        };
        content_in(words.contents.as_slice(), command)
    }

    /// The text of a step's command for an operator, as it was read when the setup was; None where there is none, and of a command
    /// for filters. It takes no memory.
    pub fn question(&self, book: u32, step: u32, command: u32) -> Option<&Phrase>
        ensures { option_copied result ≡ question_text self.now book step command }
    {
        let Some(words) = self.step_words(book, step) else {
            return None;
        };
        question_in(words.questions.as_slice(), command)
    }
}
