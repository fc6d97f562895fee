// What a filter answers to a command.
ghost use Rattle.std.specs.Prelude.{◌≡◌, ◌≤◌, ℕ, IfOk, OnOk, OnErr};
ghost use Rattle.slpf_rules.specs.declared.rules.Rule.{Rule};
ghost use Rattle.oc2_msg.specs.declared.commands.Command.TheVariants as command;
ghost use Rattle.oc2_msg.specs.declared.reasons.Reason.TheVariants as reason;
ghost use Rattle.oc2_msg.specs.Ranges.{InRange};
ghost use Rattle.slpf_rules.specs.Replies.{said, refused, puts, answer_command};

use crate::adding::{number_for, start_of, stop_of};
use crate::rules::Rule;
use crate::table::Table;
use cacao_json::Text;
use oc2_msg::{Command, FeatureList, Reason, Refusal, Response};
use std::alloc::{AllocError, Global};

fn said(alloc: Global, status: u16, rule: u32, text: Reason) -> Response
    ensures { result ≡ said status rule text }
{
    Response {
        status,
        rule,
        text,
        features: FeatureList::new(alloc),
    }
}

/// The response to a command that `read_command` refuses. It takes no memory.
pub fn refused(alloc: Global, refusal: &Refusal) -> Response
    ensures { result ≡ refused refusal.now }
{
    said(alloc, refusal.status, 0, refusal.text)
}

fn queried(alloc: Global, features: &FeatureList) -> Result<Response, AllocError>
    ensures { IfOk result (λ response. response
        ≡ record { status = 200; rule = 0; text = reason.Empty; features = features.now }) }
{
    let features = Vec::from_slice(alloc, features.as_slice())?;
    Ok(Response {
        status: 200,
        rule: 0,
        text: Reason::Empty,
        features: FeatureList::from_vec(features),
    })
}

impl Table {
    /// Answers a command at a moment, in milliseconds, and acts on it. A number that is held, a full table and a
    /// table without a next number are responses of status 500, a number to delete that is not held one of 404.
    /// Where memory is wanted, nothing changes.
    pub fn answer(&mut self, command: &Command, moment: u64) -> Result<Response, AllocError>
        requires range { InRange command.now }
        requires moment { moment ≤ 9_000_000_000_000_000 }
        ensures response { IfOk result (λ response. response ≡ (answer_command self.old command.now moment).0) }
        ensures rules { OnOk result (self.new ≡ (answer_command self.old command.now moment).1) }
        ensures err { OnErr result (self.new ≡ self.old) }
    {
        match command {
            Command::Rule {
                deny,
                flow,
                direction,
                drop,
                insert,
                start,
                stop,
                duration,
            } => {
                let begin = start_of(*start, *stop, *duration, moment);
                let rule = Rule {
                    number: 0,
                    deny: *deny,
                    direction: *direction,
                    flow: *flow,
                    drop: *drop,
                    start: begin,
                    stop: stop_of(*stop, *duration, begin),
                };
                self.put(*insert, rule, moment)
            }
            Command::Delete { number } => Ok(self.answer_delete(*number)),
            Command::Update { name } => Ok(self.answer_update(name)),
            Command::Query { features } => queried(self.allocator(), features),
        }
    }

    /// The response that `answer` gives to a command, which is the same at each moment. Nothing changes.
    pub fn foresee(&self, command: &Command) -> Result<Response, AllocError>
        ensures { IfOk result (λ response. (moment : ℕ) → response ≡ (answer_command self.now command.now moment).0) }
    {
        match command {
            Command::Rule { insert, .. } => Ok(self.foresee_put(*insert)),
            Command::Delete { number } => Ok(self.foresee_delete(*number)),
            Command::Update { name } => Ok(self.foresee_update(name)),
            Command::Query { features } => queried(self.allocator(), features),
        }
    }

    fn foresee_put(&self, insert: Option<u32>) -> Response
        ensures { (rule : Rule) → result ≡ (puts self.now insert rule).0 }
    {
        match number_for(insert, self.rules()) {
            Ok(number) => said(self.allocator(), 200, number, Reason::Empty),
            Err(text) => said(self.allocator(), 500, 0, text),
        }
    }

    fn foresee_delete(&self, number: u32) -> Response
        ensures { result ≡ (answer_command self.now (command.Delete number) 0).0 }
    {
        if self.rules().holds(number) {
            said(self.allocator(), 200, 0, Reason::Empty)
        } else {
            said(self.allocator(), 404, 0, Reason::RuleNotHeld)
        }
    }

    fn foresee_update(&self, name: &Text) -> Response
        ensures { result ≡ (answer_command self.now (command.Update name.now) 0).0 }
    {
        if name.text() == "empty.rules" {
            said(self.allocator(), 200, 0, Reason::Empty)
        } else {
            said(self.allocator(), 500, 0, Reason::UnknownFile)
        }
    }

    fn put(&mut self, insert: Option<u32>, rule: Rule, moment: u64) -> Result<Response, AllocError>
        ensures response { IfOk result (λ response. response ≡ (puts self.old insert rule).0) }
        ensures rules { OnOk result (self.new ≡ (puts self.old insert rule).1) }
        ensures err { OnErr result (self.new ≡ self.old) }
    {
        match number_for(insert, self.rules()) {
            Ok(number) => {
                self.add(Rule { number, ..rule }, moment)?;
                Ok(said(self.allocator(), 200, number, Reason::Empty))
            }
            Err(text) => Ok(said(self.allocator(), 500, 0, text)),
        }
    }

    fn answer_delete(&mut self, number: u32) -> Response
        ensures response { result ≡ (answer_command self.old (command.Delete number) 0).0 }
        ensures rules { self.new ≡ (answer_command self.old (command.Delete number) 0).1 }
    {
        if self.delete(number) {
            said(self.allocator(), 200, 0, Reason::Empty)
        } else {
            said(self.allocator(), 404, 0, Reason::RuleNotHeld)
        }
    }

    fn answer_update(&mut self, name: &Text) -> Response
        ensures response { result ≡ (answer_command self.old (command.Update name.now) 0).0 }
        ensures rules { self.new ≡ (answer_command self.old (command.Update name.now) 0).1 }
    {
        if name.text() == "empty.rules" {
            self.clear();
            said(self.allocator(), 200, 0, Reason::Empty)
        } else {
            said(self.allocator(), 500, 0, Reason::UnknownFile)
        }
    }
}
