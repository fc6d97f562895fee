// How many bytes filled texts have, told before memory is taken for them.
//
// `left` are the bytes that are left of a limit. Each function takes from them the bytes of a part, and where there are
// fewer, all.
ghost use Rattle.std.specs.Prelude.{◌≡◌, ◌-◌, ◌<◌, ◌==◌, length, flat_map, option_map, if◌then◌else◌};
ghost use Rattle.serde_json.specs.Data.{array};
ghost use Rattle.serde_json.specs.Find.{of_integer};
ghost use Rattle.cacao_text.specs.Canon.{escaped, whole_text, canon};
ghost use Rattle.flow_core_rules.specs.Values.{text_at};
ghost use Rattle.flow_core_rules.specs.Filled.{replaced, filled_string, filled, filled_items, filled_members, addressed};
ghost use Rattle.flow_core_texts.specs.Contents.{content_data};
ghost use Rattle.flow_core_tables.specs.TableFacts.{lists_of};
ghost use Rattle.flow_core_values.specs.RunFacts.{IsWell};
ghost use Rattle.flow_core_values.specs.Completed.{completed_args};
ghost use Rattle.flow_core_values.specs.Sizes.{text_bytes, is_set, member_bytes, members_bytes, id_bytes};

use crate::run::{Run, Sight};
use cacao_vars::Name;
use flow_core_texts::{Content, Contents, Entries, Entry, Phrase};
use itoa::Buffer;

/// Members of an object whose values the rules set, whatever stands there: they are counted apart.
#[derive(Clone, Copy)]
pub(crate) enum Setting {
    /// None.
    Nothing,
    /// The identifier and the arguments of a command.
    Command,
    /// What the arguments ask for.
    Args,
}

// The bytes of `{"response_requested":"complete"}`.
const COMPLETE: usize = 33;

// The bytes of `"command_id":".",` and of `"args":,`.
const ID: usize = 17;

const ARGS: usize = 8;

fn take(left: &mut usize, bytes: usize)
    ensures { left.new ≡ left.old - bytes }
{
    *left = left.saturating_sub(bytes);
}

// How many bytes stand for a byte inside a string.
#[tactic(auto, unfolding(cacao_text::specs::Canon::escaped))]
fn width(byte: u8) -> usize
    ensures { result ≡ length (escaped byte) }
{
    match byte {
        8 | 9 | 10 | 12 | 13 | 34 | 92 => 2,
        0..=31 => 6,
        _ => 1,
    }
}

fn take_quoted(left: &mut usize, text: &[u8])
    ensures { left.new ≡ left.old - length (flat_map escaped text.now) }
{
    for byte in text {
        if *left == 0 {
            return;
        }
        take(left, width(*byte));
    }
}

fn take_text(left: &mut usize, text: &str, quoted: bool)
    ensures { left.new ≡ left.old - text_bytes quoted text.now }
{
    if quoted {
        take_quoted(left, text.as_bytes());
    } else {
        take(left, text.len());
    }
}

fn take_whole(left: &mut usize, number: i64)
    ensures { left.new ≡ left.old - length (whole_text (of_integer number)) }
{
    let mut buffer = Buffer::new();
    take(left, buffer.format(number).len());
}

// The identifier of a command, with its name and a comma.
fn take_id(left: &mut usize, run: u64, issue: u32)
    ensures { left.new ≡ left.old - id_bytes run issue }
{
    take(left, ID);
    let mut buffer = Buffer::new();
    take_text(left, buffer.format(run), true);
    let mut buffer = Buffer::new();
    take_text(left, buffer.format(issue), true);
}

// The brackets of so many parts, where each part has a comma or a bracket behind it.
fn brackets(parts: usize) -> usize
    ensures { result ≡ (if parts == 0 then 2 else 1) }
{
    if parts == 0 { 2 } else { 1 }
}

impl Setting {
    fn has(self, name: &str) -> bool
        ensures { result ≡ is_set self name.now }
    {
        match self {
            Setting::Nothing => false,
            Setting::Command => name == "command_id" || name == "args",
            Setting::Args => name == "response_requested",
        }
    }
}

impl Run {
    fn take_value(&self, left: &mut usize, scope: u32, name: &Name, quoted: bool)
        requires well { IsWell self.now }
        requires there { scope < length self.now.tables.opened.scopes }
        ensures { left.new ≡ left.old - text_bytes quoted (text_at (lists_of self.now.tables) scope name.now) }
    {
        let sight = Sight {
            opening: None,
            scope,
        };
        let Some(text) = self.value(sight, name) else {
            return;
        };
        take_text(left, text.text(), quoted);
    }

    /// A text whose references are replaced, inside a string or as it is.
    pub(crate) fn take_replaced(&self, left: &mut usize, scope: u32, phrase: &Phrase, quoted: bool)
        requires well { IsWell self.now }
        requires there { scope < length self.now.tables.opened.scopes }
        ensures { left.new ≡ left.old - text_bytes quoted (replaced (lists_of self.now.tables) scope phrase.now) }
    {
        let (references, rest) = phrase.parts();
        for reference in references {
            take_text(left, reference.before.text(), quoted);
            self.take_value(left, scope, &reference.name, quoted);
        }
        take_text(left, rest, quoted);
    }

    fn take_filled_text(&self, left: &mut usize, scope: u32, phrase: &Phrase)
        requires well { IsWell self.now }
        requires there { scope < length self.now.tables.opened.scopes }
        ensures { left.new ≡ left.old - length (canon (filled_string (lists_of self.now.tables) scope phrase.now)) }
    {
        match self.whole_number(scope, phrase) {
            Some(number) => take_whole(left, number),
            None => {
                take(left, 2);
                self.take_replaced(left, scope, phrase, true);
            }
        }
    }

    #[cycle(sizing)]
    fn take_filled(&self, left: &mut usize, scope: u32, content: &Content)
        requires well { IsWell self.now }
        requires there { scope < length self.now.tables.opened.scopes }
        ensures { left.new ≡ left.old - length (canon (filled (lists_of self.now.tables) scope (content_data content.now))) }
    {
        match content {
            Content::Null => take(left, 4),
            Content::Flag(flag) => take(left, if *flag { 4 } else { 5 }),
            Content::Whole(number) => take_whole(left, *number),
            Content::Text(phrase) => self.take_filled_text(left, scope, phrase),
            Content::List(items) => self.take_items(left, scope, items),
            Content::Members(entries) => {
                take(left, brackets(entries.as_slice().len()));
                self.take_entries(left, scope, entries, Setting::Nothing);
            }
        }
    }

    #[cycle(sizing)]
    fn take_items(&self, left: &mut usize, scope: u32, items: &Contents)
        requires well { IsWell self.now }
        requires there { scope < length self.now.tables.opened.scopes }
        ensures { left.new ≡ left.old - length (canon (array (filled_items (lists_of self.now.tables) scope items.now))) }
    {
        let contents = items.as_slice();
        take(left, brackets(contents.len()));
        for content in contents {
            take(left, 1);
            self.take_filled(left, scope, content);
        }
    }

    #[cycle(sizing)]
    fn take_entry(&self, left: &mut usize, scope: u32, entry: &Entry, setting: Setting)
        requires well { IsWell self.now }
        requires there { scope < length self.now.tables.opened.scopes }
        ensures { left.new ≡ left.old - member_bytes setting entry.now.name (filled (lists_of self.now.tables) scope (content_data entry.now.content)) }
    {
        if setting.has(entry.name.text()) {
            return;
        }
        take(left, 4);
        take_text(left, entry.name.text(), true);
        self.take_filled(left, scope, &entry.content);
    }

    #[cycle(sizing)]
    fn take_entries(&self, left: &mut usize, scope: u32, entries: &Entries, setting: Setting)
        requires well { IsWell self.now }
        requires there { scope < length self.now.tables.opened.scopes }
        ensures { left.new ≡ left.old - members_bytes setting (filled_members (lists_of self.now.tables) scope entries.now) }
    {
        let members = entries.as_slice();
        for entry in members {
            self.take_entry(left, scope, entry, setting);
        }
    }

    // The arguments of a command by those that it has, if it has any.
    fn take_args(&self, left: &mut usize, scope: u32, args: Option<&Content>)
        requires well { IsWell self.now }
        requires there { scope < length self.now.tables.opened.scopes }
        ensures { left.new ≡ left.old
            - length (canon (completed_args (option_map (λ content. filled (lists_of self.now.tables) scope (content_data content.now)) args.entry))) }
    {
        let Some(content) = args else {
            take(left, COMPLETE);
            return;
        };
        let Content::Members(entries) = content else {
            self.take_filled(left, scope, content);
            return;
        };
        let _ = entries.as_slice();
        take(left, COMPLETE);
        self.take_entries(left, scope, entries, Setting::Args);
    }

    /// The command with this content, for the next issue.
    pub(crate) fn take_command(&self, left: &mut usize, scope: u32, content: &Content)
        requires well { IsWell self.now }
        requires there { scope < length self.now.tables.opened.scopes }
        ensures { left.new ≡ left.old - length (canon (addressed self.now.number (length self.now.tables.issues.items)
            (filled (lists_of self.now.tables) scope (content_data content.now)))) }
    {
        let Content::Members(entries) = content else {
            self.take_filled(left, scope, content);
            return;
        };
        let _ = entries.as_slice();
        take(left, 1);
        take_id(left, self.number, self.tables.issues.len() as u32);
        take(left, ARGS);
        self.take_args(left, scope, entries.member("args"));
        self.take_entries(left, scope, entries, Setting::Command);
    }
}
