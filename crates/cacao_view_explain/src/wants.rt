// What the rules of shape want of a member.
use cacao_book_shape::decoded;
use cacao_ids::{Id, Stamp};
use cacao_json::{Pair, Tree, member, text_of, whole_of};
use cacao_vars::{Name, whole_reference};
use std::alloc::{AllocError, Global};

/// What is wanted of the value of a member.
#[derive(Clone, Copy)]
pub(crate) enum Wants {
    Playbook,
    Version,
    Text,
    MaybeText,
    PlaybookId,
    Id,
    Stamp,
    Whole,
    Variables,
    Definitions,
    Steps,
    Type,
    Commands,
    Targets,
    InArgs,
    OutArgs,
    Condition,
    NextSteps,
    Cases,
    Contents,
}

impl Wants {
    /// What is said where the value is another one.
    pub(crate) fn says(self) -> &'static str {
        match self {
            Wants::Playbook => "the text `playbook` is wanted",
            Wants::Version => "the text `cacao-2.0` is wanted",
            Wants::Text => "a text is wanted",
            Wants::MaybeText => "a text is wanted, or no such member",
            Wants::PlaybookId => "an identifier `playbook--UUID` is wanted, the UUID in lower case",
            Wants::Id => "an identifier TYPE--UUID is wanted, in lower case",
            Wants::Stamp => "a stamp as 2026-01-31T12:00:00.000Z is wanted, of a day that exists",
            Wants::Whole => "a whole number from 0 to 2147483647 is wanted, in milliseconds",
            Wants::Variables =>
                "variables are wanted: `__name__` with a type, a value that is a text, and flags",
            Wants::Definitions => "an object is wanted whose names are identifiers",
            Wants::Steps =>
                "an object of 1 to 4096 steps is wanted, each an object under an identifier",
            Wants::Type =>
                "start, end, action, playbook-action, parallel, if-condition, while-condition or switch-condition is wanted",
            Wants::Commands => "a list of 1 to 64 commands is wanted, each an object with a type",
            Wants::Targets => "a list of at most 64 texts is wanted",
            Wants::InArgs => "a list of at most 64 names of variables is wanted",
            Wants::OutArgs => "a list of at most 3 names of variables is wanted",
            Wants::Condition => "a text of at most 2048 bytes is wanted",
            Wants::NextSteps => "a list of 1 to 64 texts is wanted",
            Wants::Cases => "an object of 1 to 64 texts is wanted",
            Wants::Contents =>
                "each openc2-http command has at most one of content, a text, and content_b64, the padded base64 of a text",
        }
    }

    /// Whether the member may be absent.
    pub(crate) fn may_be_absent(self) -> bool {
        matches!(
            self,
            Wants::MaybeText
                | Wants::Whole
                | Wants::Variables
                | Wants::Definitions
                | Wants::Targets
                | Wants::InArgs
                | Wants::OutArgs
                | Wants::Contents
        )
    }

    /// Whether the value is as it is wanted.
    pub(crate) fn fits(self, alloc: Global, tree: &Tree) -> Result<bool, AllocError> {
        match self {
            Wants::Playbook => Ok(is_this(tree, "playbook")),
            Wants::Version => Ok(is_this(tree, "cacao-2.0")),
            Wants::Text | Wants::MaybeText => Ok(text_of(tree).is_some()),
            Wants::PlaybookId => is_playbook_id(alloc, tree),
            Wants::Id => is_id(alloc, tree),
            Wants::Stamp => is_stamp(alloc, tree),
            Wants::Whole => Ok(is_short_whole(tree)),
            Wants::Variables => self.fits_members(alloc, tree, 0, 1024),
            Wants::Definitions => self.fits_members(alloc, tree, 0, usize::MAX),
            Wants::Steps => self.fits_members(alloc, tree, 1, 4096),
            Wants::Type => Ok(is_type(tree)),
            Wants::Commands => self.fits_list(alloc, tree, 1, 64),
            Wants::Targets => self.fits_list(alloc, tree, 0, 64),
            Wants::InArgs => self.fits_list(alloc, tree, 0, 64),
            Wants::OutArgs => self.fits_list(alloc, tree, 0, 3),
            Wants::Condition => Ok(is_short(tree, 2048)),
            Wants::NextSteps => self.fits_list(alloc, tree, 1, 64),
            Wants::Cases => self.fits_members(alloc, tree, 1, 64),
            Wants::Contents => self.fits_list(alloc, tree, 0, usize::MAX),
        }
    }

    /// Whether the name of a member is as it is wanted.
    pub(crate) fn fits_name(self, alloc: Global, name: &str) -> Result<bool, AllocError> {
        match self {
            Wants::Variables => Ok(Name::fits(name)),
            Wants::Definitions | Wants::Steps => is_id_text(alloc, name),
            _ => Ok(true),
        }
    }

    /// Whether the value of a member is.
    pub(crate) fn fits_value(self, tree: &Tree) -> bool {
        match self {
            Wants::Variables => is_declaration(tree),
            Wants::Steps => matches!(tree, Tree::Members(_)),
            Wants::Cases => text_of(tree).is_some(),
            _ => true,
        }
    }

    /// Whether the value is an object with so many members, each as it is wanted.
    fn fits_members(
        self,
        alloc: Global,
        tree: &Tree,
        least: usize,
        most: usize,
    ) -> Result<bool, AllocError> {
        let pairs = members_of(tree);
        if !matches!(tree, Tree::Members(_)) || pairs.len() < least || pairs.len() > most {
            return Ok(false);
        }
        for pair in pairs {
            if !self.fits_name(alloc, pair.name.text())? || !self.fits_value(&pair.tree) {
                return Ok(false);
            }
        }
        Ok(true)
    }

    /// Whether an item of a list is as it is wanted.
    pub(crate) fn fits_item(self, alloc: Global, item: &Tree) -> Result<bool, AllocError> {
        match self {
            Wants::Commands => Ok(is_command(item)),
            Wants::Contents => has_content(alloc, item),
            Wants::InArgs | Wants::OutArgs => Ok(is_argument(item)),
            Wants::Targets | Wants::NextSteps => Ok(text_of(item).is_some()),
            _ => Ok(true),
        }
    }

    /// Whether the value is a list with so many items, each as it is wanted.
    fn fits_list(
        self,
        alloc: Global,
        tree: &Tree,
        least: usize,
        most: usize,
    ) -> Result<bool, AllocError> {
        let items = items_of(tree);
        if !matches!(tree, Tree::List(_)) || items.len() < least || items.len() > most {
            return Ok(false);
        }
        for item in items {
            if !self.fits_item(alloc, item)? {
                return Ok(false);
            }
        }
        Ok(true)
    }
}

fn is_this(tree: &Tree, word: &str) -> bool {
    match text_of(tree) {
        Some(text) => text.text() == word,
        None => false,
    }
}

fn is_short(tree: &Tree, most: usize) -> bool {
    match text_of(tree) {
        Some(text) => text.text().len() <= most,
        None => false,
    }
}

/// Whether the text is an identifier.
fn is_id_text(alloc: Global, text: &str) -> Result<bool, AllocError> {
    let id = Id::read(alloc, text)?;
    Ok(id.is_some())
}

fn is_id(alloc: Global, tree: &Tree) -> Result<bool, AllocError> {
    match text_of(tree) {
        Some(text) => is_id_text(alloc, text.text()),
        None => Ok(false),
    }
}

fn is_playbook_id(alloc: Global, tree: &Tree) -> Result<bool, AllocError> {
    match text_of(tree) {
        Some(text) => match Id::read(alloc, text.text())? {
            Some(id) => Ok(id.object_type() == "playbook"),
            None => Ok(false),
        },
        None => Ok(false),
    }
}

fn is_stamp(alloc: Global, tree: &Tree) -> Result<bool, AllocError> {
    match text_of(tree) {
        Some(text) => {
            let stamp = Stamp::read(alloc, text.text())?;
            Ok(stamp.is_some())
        }
        None => Ok(false),
    }
}

fn is_short_whole(tree: &Tree) -> bool {
    match whole_of(tree) {
        Some(number) => number >= 0 && number <= 2_147_483_647,
        None => false,
    }
}

fn is_flag_or_absent(tree: &Tree, name: &str) -> bool {
    match member(tree, name) {
        Some(Tree::Flag(_)) => true,
        Some(_) => false,
        None => true,
    }
}

/// Whether the value is the declaration of a variable.
fn is_declaration(tree: &Tree) -> bool {
    let has_type = match member(tree, "type") {
        Some(kind) => is_short(kind, 64) && !is_this(kind, ""),
        None => false,
    };
    let has_value = match member(tree, "value") {
        Some(value) => is_short(value, 4096),
        None => true,
    };
    has_type
        && has_value
        && is_flag_or_absent(tree, "constant")
        && is_flag_or_absent(tree, "external")
}

fn is_type(tree: &Tree) -> bool {
    is_this(tree, "start")
        || is_this(tree, "end")
        || is_this(tree, "action")
        || is_this(tree, "playbook-action")
        || is_this(tree, "parallel")
        || is_this(tree, "if-condition")
        || is_this(tree, "while-condition")
        || is_this(tree, "switch-condition")
}

/// The members of an object; none where the value is none.
pub(crate) fn members_of(tree: &Tree) -> &[Pair] {
    match tree {
        Tree::Members(pairs) => pairs.as_slice(),
        _ => &[],
    }
}

/// The items of a list; none where the value is none.
pub(crate) fn items_of(tree: &Tree) -> &[Tree] {
    match tree {
        Tree::List(items) => items.as_slice(),
        _ => &[],
    }
}

/// Whether the value is the name of a variable, or a reference to it.
fn is_argument(tree: &Tree) -> bool {
    match text_of(tree) {
        Some(text) => Name::fits(text.text()) || whole_reference(text.text()).is_some(),
        None => false,
    }
}

/// Whether the value is an object with a type.
fn is_command(tree: &Tree) -> bool {
    match member(tree, "type") {
        Some(kind) => text_of(kind).is_some(),
        None => false,
    }
}

/// Whether the command has a content as an openc2-http command has it.
fn has_content(alloc: Global, command: &Tree) -> Result<bool, AllocError> {
    let is_openc2 = match member(command, "type") {
        Some(kind) => is_this(kind, "openc2-http"),
        None => false,
    };
    if !is_openc2 {
        return Ok(true);
    }
    let content = member(command, "content");
    match member(command, "content_b64") {
        None => match content {
            Some(content) => Ok(text_of(content).is_some()),
            None => Ok(true),
        },
        Some(encoded) => match text_of(encoded) {
            Some(text) => {
                let text = decoded(alloc, text.text())?;
                Ok(text.is_some() && content.is_none())
            }
            None => Ok(false),
        },
    }
}
