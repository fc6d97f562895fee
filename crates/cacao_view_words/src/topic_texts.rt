// What help says: of all words, and of each.

/// Of all words of both programs, a line each.
pub(crate) const ALL_WORDS: &[&str] = &[
    "cacao canon BOOK: says the canonical text of a playbook, as in: cacao canon a.json\n",
    "cacao check BOOK [LIBRARY..]: says whether playbooks are accepted, or which rule they break first, as in: cacao check a.json b.json\n",
    "cacao run --run N [--steps N] [--bind FILE] [--answers FILE] BOOK [LIBRARY..]: begins run N of a playbook or goes on with it, as in: cacao run --run 7 a.json\n",
    "cacao pair --run N [--steps N] [--bind FILE] [--answers FILE] BOOK [LIBRARY..]: does what run does, with the filters in a process of their own, as in: cacao pair --run 7 a.json\n",
    "cacao filters: is that process, which says its port and answers the commands that come, as in: cacao filters\n",
    "cacao fleet [--steps N] RUN BOOK [RUN BOOK ..]: begins runs side by side over the same filters or goes on with them, as in: cacao fleet 7 a.json 8 b.json\n",
    "cacao show: says how the run in this folder stands, as in: cacao show\n",
    "cacao rules AGENT: says the rules that a filter holds, as in: cacao rules 1\n",
    "cacao decide AGENT PACKETS: says what a filter decides for packets, as in: cacao decide 1 p.txt\n",
    "cacao shadow AGENT: says which rules of a filter never decide, as in: cacao shadow 1\n",
    "cacao audit ENGINE [AGENT FILE ..]: says whether the files of a run agree, as in: cacao audit engine.journal 1 agent-01.journal\n",
    "cacao rehearse N: makes a playbook of N positions and runs it in memory, as in: cacao rehearse 3\n",
    "cacao-view help [WORD]: says these lines, or what there is to know of one word, as in: cacao-view help run\n",
    "cacao-view version: says the version, and of which standards, as in: cacao-view version\n",
    "cacao-view log [--json] [ENGINE]: says the records of a run again, as in: cacao-view log --json\n",
    "cacao-view graph BOOK [LIBRARY..]: says playbooks as a picture in DOT, as in: cacao-view graph a.json\n",
    "cacao-view graph: says the run that engine.journal keeps as such a picture, as in: cacao-view graph\n",
    "cacao-view explain RULE: says a rule and how a break of it is usually mended, as in: cacao-view explain K22\n",
    "cacao-view explain BOOK [LIBRARY..]: says where the first break of playbooks is, and what is at fault, as in: cacao-view explain a.json b.json\n",
    "cacao-view preflight [--bind FILE] BOOK [LIBRARY..]: says what cacao run would refuse, and warns of what it would take, as in: cacao-view preflight a.json\n",
];

pub(crate) const CANON: &[&str] = &[
    "cacao canon BOOK\n",
    "Says the canonical text (RFC 8785) of the JSON text in the file BOOK, without the member signatures of its top object. It reads BOOK and no other file.\n",
    "Status 0: it was said. 3: the file could not be read. 4: there is no such file. 5: it is not JSON, has a name twice, or has a number that is not whole. 11: it is longer than 1,048,576 bytes.\n",
    "Status 2: the words were not understood. 9: a line could not be written. 10: memory was wanted.\n",
];

pub(crate) const CHECK: &[&str] = &[
    "cacao check BOOK [LIBRARY..]\n",
    "Says accepted where the playbooks together break none of the rules K1 to K25, to be read and not to be run, else the first rule that they break: cacao-view explain tells of a rule. At most 16 playbooks.\n",
    "Status 0: accepted. 1: a rule is broken. 3, 4, 5 and 11: as for cacao canon, of the first file at fault; 11 also where there are more than 16 playbooks.\n",
    "Status 2: the words were not understood. 9: a line could not be written. 10: memory was wanted.\n",
];

pub(crate) const RUN: &[&str] = &[
    "cacao run --run N [--steps N] [--bind FILE] [--answers FILE] BOOK [LIBRARY..]\n",
    "Begins run N of the playbook BOOK in this folder, or goes on with it, with the playbooks that it may call. Says a line for each record that it appends to engine.journal, and then how it ended. The same words again go on where a call was cut off.\n",
    "--run N: the run's number, 1 to 9,007,199,254,740,991. --steps N: the most records of this call, 1,000,000,000 where it is not given.\n",
    "--bind FILE: which agent is which filter, 1 to 16, and texts of external variables. An agent that is not bound is filter 1. --answers FILE: lines RUN ISSUE STATUS TEXT of what operators answered.\n",
    "Status 0: ended ok. 6: ended failed. 7: paused, as many records as --steps allows. 14: waits for a moment. 15: too many messages changed nothing. 16: waits for an operator's answer.\n",
    "Status 1: a rule K1 to K25 or B1 to B3 is broken. 3, 4 and 5: a file could not be read, is not there, or has no reading. 8: the disk failed. 11: a limit would be passed. 12: the files are those of another run or of other playbooks. 13: a file is damaged.\n",
    "Status 2: the words were not understood. 9: a line could not be written. 10: memory was wanted.\n",
];

pub(crate) const PAIR: &[&str] = &[
    "cacao pair --run N [--steps N] [--bind FILE] [--answers FILE] BOOK [LIBRARY..]\n",
    "Does what cacao run does, and says its lines, with the filters in a process of their own: it starts cacao filters in this folder, and commands and replies go between the two as lines over a socket of this machine. Where that breaks, the run goes on alone: commands without a reply expire.\n",
    "The options are those of cacao run. Use a run's number once: what the filters did under it before is not seen.\n",
    "The statuses are those of cacao run. 17: the other process could not be started, connected to or waited for.\n",
];

pub(crate) const FILTERS: &[&str] = &[
    "cacao filters\n",
    "Says port P, waits for one connection to that port of this machine, opens the files of all sixteen filters in this folder, and answers the commands that come, a line each, up to the end of input. cacao pair starts it, and it may be started by hand.\n",
    "Status 0: the input ended. 8: the disk failed. 11: a line was too long, or a limit would be passed. 13: a file is damaged. 15: too many lines changed nothing. 17: it could not listen or accept, or the connection failed.\n",
    "Status 2: the words were not understood. 9: a line could not be written. 10: memory was wanted.\n",
];

pub(crate) const FLEET: &[&str] = &[
    "cacao fleet [--steps N] RUN BOOK [RUN BOOK ..]\n",
    "Begins 1 to 16 runs in this folder, or goes on with them, side by side over the same filters. RUN is the number of a run, as of cacao run --run, and BOOK its playbook, which stands alone, without bindings: every agent is filter 1. The first run keeps engine.journal, the next ones keep engine-01.journal to engine-15.journal. Says a line for each record, behind the number of its run, and then how the runs ended. The same words again go on where a call was cut off.\n",
    "--steps N: the most records of this call, of all runs together, 1,000,000,000 where it is not given.\n",
    "Status 0: all runs ended ok. 6: all ended, and the run that is named failed. 7: paused, as many records as --steps allows. 14: waits for a moment. 15: too many messages changed nothing. 16: waits for an operator's answer.\n",
    "Status 1: a rule K1 to K25 is broken, book B being the pair's place from 0. 3, 4 and 5: a file could not be read, is not there, or has no reading. 8: the disk failed. 11: a limit would be passed. 12: the files are those of other runs or of other playbooks. 13: a file is damaged.\n",
    "Status 2: the words were not understood. 9: a line could not be written. 10: memory was wanted.\n",
];

pub(crate) const SHOW: &[&str] = &[
    "cacao show\n",
    "Says how the run stands that engine.journal in this folder keeps: no run, or its number, how many records it has, the moment of the last one, each task, issue and variable, and the state, a line each. It writes nothing.\n",
    "Status 0: it was said. 8: the disk failed. 11: the run has more than 1,000,000 tasks. 13: the file is damaged.\n",
    "Status 2: the words were not understood. 9: a line could not be written. 10: memory was wanted.\n",
];

pub(crate) const RULES: &[&str] = &[
    "cacao rules AGENT\n",
    "Says the rules that the filter of AGENT, 1 to 16, holds by its file agent-NN.journal in this folder, a line each: NUMBER VERDICT DIRECTION FLOW START STOP DROP. A filter without a file holds none. It writes nothing.\n",
    "Status 0: they were said. 8: the disk failed. 13: the file is damaged.\n",
    "Status 2: the words were not understood. 9: a line could not be written. 10: memory was wanted.\n",
];

pub(crate) const DECIDE: &[&str] = &[
    "cacao decide AGENT PACKETS\n",
    "Says what the filter of AGENT, 1 to 16, decides for each packet of the file PACKETS: allow N or deny N, N the number of the rule that decides, or - where none does. A line of the file is MOMENT DIRECTION PROTOCOL SOURCE PORT DESTINATION PORT. It writes nothing.\n",
    "Status 0: it was said. 3, 4, 5 and 11: the file could not be read, is not there, has a line that is no packet, or is longer than 1,048,576 bytes. 8: the disk failed. 13: the filter's file is damaged.\n",
    "Status 2: the words were not understood. 9: a line could not be written. 10: memory was wanted.\n",
];

pub(crate) const SHADOW: &[&str] = &[
    "cacao shadow AGENT\n",
    "Says which rules of the filter of AGENT, 1 to 16, never decide, since an earlier one by itself decides wherever they would: RULE by EARLIER, a line each. It writes nothing.\n",
    "Status 0: they were said. 8: the disk failed. 13: the filter's file is damaged.\n",
    "Status 2: the words were not understood. 9: a line could not be written. 10: memory was wanted.\n",
];

pub(crate) const AUDIT: &[&str] = &[
    "cacao audit ENGINE [AGENT FILE ..]\n",
    "Says whether the engine's file ENGINE and the files of filters, each behind its agent's number, stand for a run and for acts that agree, or where they first do not. It reads the files by their names, so it may be asked of copies.\n",
    "Status 0: they agree. 18: they do not. 3, 4 and 11: a file could not be read, is not there, or is longer than 67,108,864 bytes; 11 also where the run has more than 1,000,000 tasks.\n",
    "Status 2: the words were not understood. 9: a line could not be written. 10: memory was wanted.\n",
];

pub(crate) const REHEARSE: &[&str] = &[
    "cacao rehearse N\n",
    "Makes a playbook with N positions, 1 to 1,000, runs it on a site in memory of its own, and says what was counted. It touches no file.\n",
    "Status 0: the rehearsal ended ok. 1, 6 and 11: as for cacao run, of the rehearsal.\n",
    "Status 2: the words were not understood. 9: a line could not be written. 10: memory was wanted.\n",
];

pub(crate) const HELP: &[&str] = &[
    "cacao-view help [WORD]\n",
    "Says a line for each word of cacao and of cacao-view, or what there is to know of WORD: what stands behind it, its options, and its statuses. --help, -h and no words at all are the same as help.\n",
    "Status 0: it was said. 2: there is no such word. 9: a line could not be written. 10: memory was wanted.\n",
];

pub(crate) const VERSION: &[&str] = &[
    "cacao-view version\n",
    "Says the version, and of which standards. --version is the same.\n",
    "Status 0: it was said. 2: there were more words. 9: a line could not be written. 10: memory was wanted.\n",
];

pub(crate) const LOG: &[&str] = &[
    "cacao-view log [--json] [ENGINE]\n",
    "Says the records that engine.journal in this folder keeps, or the file ENGINE, a line each, as cacao run said them; with --json an object a line. It writes nothing.\n",
    "Each object has kind, moment, number and run. A begin has books and bind too, a walk task and step, a send task, issue, agent and command, a reply issue, status, rule and text, an expire issue, an upgrade version, an ask task, issue and question, a told issue, status and answer.\n",
    "Status 0: they were said. 3 and 4: the file ENGINE could not be read, or is not there. 8: the disk failed. 11: the file is longer than 67,108,864 bytes, or the run has more than 1,000,000 tasks. 13: the file is damaged.\n",
    "Status 2: the words were not understood. 9: a line could not be written. 10: memory was wanted.\n",
];

pub(crate) const GRAPH: &[&str] = &[
    "cacao-view graph BOOK [LIBRARY..]\n",
    "Says the playbooks, where they together break none of the rules K1 to K25, as a picture in DOT, the language of Graphviz: cacao-view graph a.json | dot -Tsvg -o a.svg. Each playbook and each region of a control step is a cluster, each step a node, each link an edge. At most 16 playbooks. It reads their files and no other.\n",
    "Status 0: it was said. 1, 3, 4, 5 and 11: as for cacao check.\n",
    "cacao-view graph\n",
    "Says the run that engine.journal in this folder keeps as such a picture of its playbooks: each step with how often it was walked, the tasks that stand there or ended failed there, and the issues that were sent from it, as cacao show says them; a step that was never walked is pale.\n",
    "Status 0: it was said. 8, 11 and 13: as for cacao show.\n",
    "Status 2: the words were not understood. 9: a line could not be written. 10: memory was wanted.\n",
];

pub(crate) const EXPLAIN: &[&str] = &[
    "cacao-view explain RULE\n",
    "Says the sentence of a rule, K1 to K25 of playbooks or B1 to B3 of bindings, and how a break of it is usually mended, a line each. cacao check and cacao run name the rule that is broken.\n",
    "Status 0: it was said. 9: a line could not be written. 10: memory was wanted.\n",
    "cacao-view explain BOOK [LIBRARY..]\n",
    "Says what cacao check says of these playbooks, and before it what is at fault and where: the step and its name, the member or the link, its line and column, and the rule; of a text that is not JSON where, and what was expected. A playbook whose file has the name of a rule, or a letter K, k, B or b and digits, is given as ./K22.\n",
    "What breaks K13 or K18, which hold only where a playbook is to be run, or a rule of bindings, is told by cacao-view preflight, without a place.\n",
    "Status 0, 1, 3, 4, 5, 9, 10 and 11: as for cacao check. 2: the words were not understood.\n",
];

pub(crate) const PREFLIGHT: &[&str] = &[
    "cacao-view preflight [--bind FILE] BOOK [LIBRARY..]\n",
    "Says what cacao run would refuse of these playbooks and these bindings before its first record, as run would say it. Else warns, a line each: an agent that is not bound, a binding of an agent that no playbook defines, an external variable that nothing gives a value, a command that filters refuse whatever the values are, a member of a step that CACAO does not name, a step that no path reaches. It opens no file of a run.\n",
    "--bind FILE: which agent is which filter, 1 to 16, and texts of external variables of BOOK. --bind FILE, --bind=FILE and -- may stand where cacao run takes them.\n",
    "Status 0: by these files alone cacao run would begin, and only what its folder holds may still refuse it (another run, damaged files, a run number that is used); the last line has the number of warnings. 1: a rule K1 to K25 or B1 to B3 is broken. 3, 4, 5 and 11: as for cacao check, of the first file at fault.\n",
    "Status 2: the words were not understood. 9: a line could not be written. 10: memory was wanted.\n",
];

/// What `version` says.
pub(crate) const VERSION_LINES: &[&str] = &[
    "cacao and cacao-view 1\n",
    "playbooks of CACAO 2.0; commands of OpenC2 1.0 with the actuator profile SLPF 1.0; canonical JSON by RFC 8785\n",
];
