// The single edits of the tables of a run.
ghost use Rattle.std.specs.Prelude.{◌≡◌, ◌<◌, ℕ, suc, false, length};
ghost use Rattle.flow_core_rules.specs.Givens.{Given};
ghost use Rattle.flow_core_rules.specs.Edits.{opens, writes, makes, moves, issues, closes, upgrades, shown_edited, declared_texts};
ghost use Rattle.flow_core_rules.specs.Changes.{is_waiting};
ghost use Rattle.flow_core_tables.specs.Fits.{IsNewTask, IsMove, IsNewIssue};
ghost use Rattle.flow_core_tables.specs.TableFacts.{lists_of, seen_with, HasTables, HasRoom};

use crate::present::Present;
use crate::tables::{Tables, Wait};
use crate::tables_parts::{add, expect, has_failed, settle, tell, told, watch};
use cacao_vars::{Name, Scope, Word};
use flow_core_rules::{Issue, IssuePhase, Task};
use flow_core_setup::Setup;

impl Tables {
    // Opens a scope.
    pub(crate) fn open(&mut self, scope: Scope, texts: Present)
        requires declared { texts ≡ declared_texts scope.vars }
        requires room { HasRoom 1 self.old }
        ensures lists { lists_of self.new ≡ shown_edited (opens scope.parent scope.vars) (lists_of self.old) }
        ensures tables { (given : Given) → HasTables (seen_with given (lists_of self.old)) self.old
            → HasTables (seen_with given (lists_of self.new)) self.new }
        ensures room { (k : ℕ) → HasRoom (suc k) self.old → HasRoom k self.new }
    {
        self.opened.push(scope, texts);
    }

    // Writes a text to a name of a scope.
    pub(crate) fn write(&mut self, scope: u32, name: &Name, worth: Word)
        requires within { scope < length self.old.opened.texts }
        ensures lists { lists_of self.new ≡ shown_edited (writes scope name.now worth) (lists_of self.old) }
        ensures tables { (given : Given) → HasTables (seen_with given (lists_of self.old)) self.old
            → HasTables (seen_with given (lists_of self.new)) self.new }
        ensures room { (k : ℕ) → HasRoom (suc k) self.old → HasRoom k self.new }
    {
        self.opened.write(scope, name, worth);
    }

    // Makes a task.
    pub(crate) fn make(&mut self, setup: &Setup, task: Task)
        requires fits { IsNewTask (lists_of self.old) task }
        requires tables { HasTables (seen_with setup.now (lists_of self.old)) self.old }
        requires tasks { length self.old.tasks.items < 4_294_967_295 }
        requires room { HasRoom 1 self.old }
        ensures lists { lists_of self.new ≡ shown_edited (makes task) (lists_of self.old) }
        ensures tables { HasTables (seen_with setup.now (lists_of self.new)) self.new }
        ensures room { (k : ℕ) → HasRoom (suc k) self.old → HasRoom k self.new }
    {
        let number = self.tasks.len() as u32;
        add(&mut self.tasks, task);
        add(
            &mut self.waits,
            Wait {
                open: 0,
                failed: false,
            },
        );
        expect(&mut self.waits, &mut self.ready, task.parent);
        settle(&mut self.ready, &mut self.delays, setup, number, task);
    }

    // Puts a task in the place of what it was.
    pub(crate) fn move_to(&mut self, setup: &Setup, t: u32, new: Task)
        requires fits { IsMove (lists_of self.old) t new }
        requires tables { HasTables (seen_with setup.now (lists_of self.old)) self.old }
        requires tasks { length self.old.tasks.items < 4_294_967_295 }
        requires room { HasRoom 1 self.old }
        ensures lists { lists_of self.new ≡ shown_edited (moves t new) (lists_of self.old) }
        ensures tables { HasTables (seen_with setup.now (lists_of self.new)) self.new }
        ensures room { (k : ℕ) → HasRoom (suc k) self.old → HasRoom k self.new }
    {
        let parent = told(new);
        let failed = has_failed(new);
        self.tasks[t as usize] = new;
        self.waits[t as usize] = Wait {
            open: 0,
            failed: false,
        };
        settle(&mut self.ready, &mut self.delays, setup, t, new);
        tell(&mut self.waits, &mut self.ready, parent, failed);
    }

    // Adds an issue.
    pub(crate) fn issue(&mut self, setup: &Setup, issue: Issue)
        requires fits { IsNewIssue (lists_of self.old) issue }
        requires tables { HasTables (seen_with setup.now (lists_of self.old)) self.old }
        requires issues { length self.old.issues.items < 4_294_967_295 }
        requires room { HasRoom 1 self.old }
        ensures lists { lists_of self.new ≡ shown_edited (issues issue) (lists_of self.old) }
        ensures tables { HasTables (seen_with setup.now (lists_of self.new)) self.new }
        ensures room { (k : ℕ) → HasRoom (suc k) self.old → HasRoom k self.new }
    {
        let number = self.issues.len() as u32;
        let task = self.tasks[issue.task as usize];
        watch(
            &mut self.deadlines,
            &mut self.questions,
            setup,
            task,
            number,
            &issue,
        );
        add(&mut self.issues, issue);
    }

    // Ends an issue.
    pub(crate) fn close(&mut self, n: u32, end: IssuePhase)
        requires within { n < length self.old.issues.items }
        requires over { is_waiting end ≡ false }
        ensures lists { lists_of self.new ≡ shown_edited (closes n end) (lists_of self.old) }
        ensures tables { (given : Given) → HasTables (seen_with given (lists_of self.old)) self.old
            → HasTables (seen_with given (lists_of self.new)) self.new }
        ensures room { (k : ℕ) → HasRoom (suc k) self.old → HasRoom k self.new }
    {
        self.issues[n as usize].phase = end;
        self.deadlines.remove(n);
        self.questions.remove(n);
    }

    // The run goes on with operators.
    pub(crate) fn upgrade(&mut self)
        ensures lists { lists_of self.new ≡ shown_edited upgrades (lists_of self.old) }
        ensures tables { (given : Given) → HasTables (seen_with given (lists_of self.old)) self.old
            → HasTables (seen_with given (lists_of self.new)) self.new }
        ensures room { (k : ℕ) → HasRoom (suc k) self.old → HasRoom k self.new }
    {
        self.is_upgraded = true;
    }
}
