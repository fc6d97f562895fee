// What was wanted in the place of words that have no reading.
ghost use Rattle.std.specs.Prelude.{◌≡◌, IsTrue};
ghost use Rattle.cacao_view_words.specs.Texts.{is_line};
ghost use Rattle.cacao_view_words.specs.Wants.{wanted_line};

/// What the line says where a word is wanted that begins the words.
pub(crate) const WANTED_FIRST: &str =
    "words not understood: help, version, log, graph, explain or preflight is wanted first; cacao-view help says more\n";

/// And where one word of the programs, or no word more, is wanted behind `help`.
pub(crate) const WANTED_TOPIC: &str =
    "words not understood: help takes no word more, or one word of cacao or of cacao-view; cacao-view help lists them\n";

/// And where no word more is wanted.
pub(crate) const WANTED_NO_MORE: &str = "words not understood: version takes no word more\n";

/// And where `--json` or the name of a file may stand.
pub(crate) const WANTED_LOG: &str =
    "words not understood: log takes --json and the name of an engine's file, each at most once\n";

/// And where names of playbooks alone may stand.
pub(crate) const WANTED_GRAPH: &str =
    "words not understood: graph takes no word more, or the name of a playbook and then those of others\n";

/// And where a rule or playbooks are wanted.
pub(crate) const WANTED_RULE: &str =
    "words not understood: explain takes one rule, K1 to K25 or B1 to B3, or names of playbooks\n";

/// And where playbooks are wanted behind `preflight`.
pub(crate) const WANTED_PLAYBOOK: &str =
    "words not understood: preflight takes names of playbooks, and --bind with the name of bindings at most once\n";

/// What was wanted where the words have no reading.
#[derive(Clone, Copy)]
pub enum Wanted {
    /// A word that begins them.
    First,
    /// Behind `help`, a word of one of the programs, or none.
    Topic,
    /// Behind `version`, nothing.
    NoMore,
    /// Behind `log`, at most `--json` and the name of a file.
    Log,
    /// Behind `graph`, the names of playbooks.
    Graph,
    /// Behind `explain`, a rule or playbooks.
    Rule,
    /// Behind `preflight`, playbooks.
    Playbook,
}

impl Wanted {
    /// The line that says so, with its line feed.
    pub fn line(self) -> &'static str
        ensures value { result.now ≡ wanted_line self }
        ensures whole { IsTrue (is_line result.now) }
    {
        match self {
            Wanted::First => WANTED_FIRST,
            Wanted::Topic => WANTED_TOPIC,
            Wanted::NoMore => WANTED_NO_MORE,
            Wanted::Log => WANTED_LOG,
            Wanted::Graph => WANTED_GRAPH,
            Wanted::Rule => WANTED_RULE,
            Wanted::Playbook => WANTED_PLAYBOOK,
        }
    }
}
