// The words of which help tells.
ghost use Rattle.std.specs.Prelude.{◌≡◌, drop, take};
ghost use Rattle.cacao_view_words.specs.Texts.{AreLines, lines_in};
ghost use Rattle.cacao_view_words.specs.Topics.{all_words, first_named, topic_in, topic_lines, topics, version_lines};

use crate::topic_texts::{
    ALL_WORDS, AUDIT, CANON, CHECK, DECIDE, EXPLAIN, FILTERS, FLEET, GRAPH, HELP, LOG, PAIR,
    PREFLIGHT, REHEARSE, RULES, RUN, SHADOW, SHOW, VERSION, VERSION_LINES,
};

/// A word of one of the two programs.
#[derive(Clone, Copy)]
pub enum Topic {
    Canon,
    Check,
    Run,
    Pair,
    Filters,
    Fleet,
    Show,
    Rules,
    Decide,
    Shadow,
    Audit,
    Rehearse,
    Help,
    Version,
    Log,
    Graph,
    Explain,
    Preflight,
}

impl Topic {
    /// What there is to know of the word, a line each: what stands behind it, what it does, its options, and its statuses.
    pub fn lines(self) -> &'static [&'static str]
        ensures value { lines_in result.now ≡ topic_lines self }
        ensures whole { AreLines (lines_in result.now) }
    {
        match self {
            Topic::Canon => CANON,
            Topic::Check => CHECK,
            Topic::Run => RUN,
            Topic::Pair => PAIR,
            Topic::Filters => FILTERS,
            Topic::Fleet => FLEET,
            Topic::Show => SHOW,
            Topic::Rules => RULES,
            Topic::Decide => DECIDE,
            Topic::Shadow => SHADOW,
            Topic::Audit => AUDIT,
            Topic::Rehearse => REHEARSE,
            Topic::Help => HELP,
            Topic::Version => VERSION,
            Topic::Log => LOG,
            Topic::Graph => GRAPH,
            Topic::Explain => EXPLAIN,
            Topic::Preflight => PREFLIGHT,
        }
    }
}

/// The word, if it is one of the two programs'.
pub(crate) fn topic_in(word: &str) -> Option<Topic>
    ensures { result ≡ topic_in word.now }
{
    match first_topic(word) {
        Some(topic) => Some(topic),
        None => later_topic(word),
    }
}

/// The word, if it is none of the first six.
fn later_topic(word: &str) -> Option<Topic>
    ensures { result ≡ first_named word.now (drop 6 topics) }
{
    match more_topic(word) {
        Some(topic) => Some(topic),
        None => view_topic(word),
    }
}

/// The word, if it is one of the first six of `cacao`.
fn first_topic(word: &str) -> Option<Topic>
    ensures { result ≡ first_named word.now (take 6 topics) }
{
    if word == "canon" {
        return Some(Topic::Canon);
    }
    if word == "check" {
        return Some(Topic::Check);
    }
    if word == "run" {
        return Some(Topic::Run);
    }
    if word == "pair" {
        return Some(Topic::Pair);
    }
    if word == "filters" {
        return Some(Topic::Filters);
    }
    if word == "fleet" {
        return Some(Topic::Fleet);
    }
    None
}

/// The word, if it is one of the other six of `cacao`.
fn more_topic(word: &str) -> Option<Topic>
    ensures { result ≡ first_named word.now (take 6 (drop 6 topics)) }
{
    if word == "show" {
        return Some(Topic::Show);
    }
    if word == "rules" {
        return Some(Topic::Rules);
    }
    if word == "decide" {
        return Some(Topic::Decide);
    }
    if word == "shadow" {
        return Some(Topic::Shadow);
    }
    if word == "audit" {
        return Some(Topic::Audit);
    }
    if word == "rehearse" {
        return Some(Topic::Rehearse);
    }
    None
}

/// The word, if it is one of the program that only looks.
fn view_topic(word: &str) -> Option<Topic>
    ensures { result ≡ first_named word.now (drop 12 topics) }
{
    if word == "help" {
        return Some(Topic::Help);
    }
    if word == "version" {
        return Some(Topic::Version);
    }
    if word == "log" {
        return Some(Topic::Log);
    }
    if word == "graph" {
        return Some(Topic::Graph);
    }
    if word == "explain" {
        return Some(Topic::Explain);
    }
    if word == "preflight" {
        return Some(Topic::Preflight);
    }
    None
}

/// What help says of all words of both programs, a line each.
pub fn all_words() -> &'static [&'static str]
    ensures value { lines_in result.now ≡ all_words }
    ensures whole { AreLines (lines_in result.now) }
{
    ALL_WORDS
}

/// The version, and of which standards, a line each.
pub fn version_lines() -> &'static [&'static str]
    ensures value { lines_in result.now ≡ version_lines }
    ensures whole { AreLines (lines_in result.now) }
{
    VERSION_LINES
}
