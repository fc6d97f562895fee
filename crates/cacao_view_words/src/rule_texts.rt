// What is said of each rule: its sentence, and how a break of it is usually mended, a line each. `docs/RULES.md` and `docs/WORKFLOW.md` have
// the words that they use (region, sees, kind).

pub(crate) const K1: &[&str] = &[
    "K1 (of the playbook): the text is an object whose type is `playbook` and whose spec_version is `cacao-2.0`.\n",
    "Mend: write \"type\": \"playbook\" and \"spec_version\": \"cacao-2.0\"; a playbook of CACAO 1.0 or 1.1 has to be rewritten for 2.0.\n",
];

pub(crate) const K2: &[&str] = &[
    "K2 (of the playbook): id is an identifier `playbook--UUID`, created_by is an identifier, created and modified are stamps, and name is a text.\n",
    "Mend: add the member that is missing; a UUID is in lower case, and a stamp reads as 2026-01-31T12:00:00.000Z, in UTC.\n",
];

pub(crate) const K3: &[&str] = &[
    "K3 (of the playbook): playbook_variables is an object of variables, and agent_definitions and target_definitions are objects whose names are identifiers.\n",
    "Mend: name each variable `__name__` and give it a type; name each agent and target by its type, two hyphens and a UUID.\n",
];

pub(crate) const K4: &[&str] = &[
    "K4 (of the playbook): workflow_start is a text, workflow_exception is one if it is there, and workflow is an object of 1 to 4,096 steps, each an object under an identifier.\n",
    "Mend: name the first step in workflow_start, and name each step by its type, two hyphens and a UUID.\n",
];

pub(crate) const K5: &[&str] = &[
    "K5 (of a step): type is start, end, action, playbook-action, parallel, if-condition, while-condition or switch-condition.\n",
    "Mend: correct the type; the types `single` and `playbook` of CACAO 1 are `action` and `playbook-action` now.\n",
];

pub(crate) const K6: &[&str] = &[
    "K6 (of a step): delay and timeout are whole numbers of milliseconds from 0 to 2,147,483,647.\n",
    "Mend: write them in milliseconds, as 60000 for a minute, without quotes and without a fraction.\n",
];

pub(crate) const K7: &[&str] = &[
    "K7 (of a step): step_variables is an object of variables.\n",
    "Mend: name each variable `__name__`, give it a type, and a value, if it has one, as a text of at most 4,096 bytes.\n",
];

pub(crate) const K8: &[&str] = &[
    "K8 (of a step): on_completion, on_success and on_failure are texts; on_completion stands with neither of the other two; an end step has none of them, and start, action and playbook-action have on_completion or on_success.\n",
    "Mend: give the step on_completion, or on_success and perhaps on_failure; take all three from an end step.\n",
];

pub(crate) const K9: &[&str] = &[
    "K9 (of an action): commands is a list of 1 to 64 objects, each with a text as type; agent is a text; targets is a list of at most 64 texts; in_args has at most 64 and out_args at most 3 names of variables.\n",
    "Mend: add the commands and the agent; name at most three results: the status, the rule's number and the status text.\n",
];

pub(crate) const K10: &[&str] = &[
    "K10 (of an action): a command of type openc2-http has at most one of content, a text, and content_b64, the padded base64 of a text in UTF-8.\n",
    "Mend: keep one of the two; end content_b64 with `=` where it is short, and write the object itself as a text, not as an object.\n",
];

pub(crate) const K11: &[&str] = &[
    "K11 (of a playbook-action): playbook_id is an identifier, playbook_version is a text, and in_args and out_args are lists of at most 64 names of variables.\n",
    "Mend: write the id of the playbook that is called as playbook_id.\n",
];

pub(crate) const K12: &[&str] = &[
    "K12 (of a control step): parallel has next_steps, 1 to 64 texts; if-condition and while-condition have condition, a text of at most 2,048 bytes, and on_true; switch-condition has switch and cases, an object of 1 to 64 texts.\n",
    "Mend: add what the step's type wants; on_true, on_false, next_steps and cases name the first step of each branch.\n",
];

pub(crate) const K13: &[&str] = &[
    "K13 (of an action, where the playbook is to be run): each command can be sent: openc2-http has a content of at most 65,536 bytes that is the text of an object, manual has a text of at most 4,096 bytes, and there are no other types.\n",
    "Mend: replace the other commands (ssh, bash, http-api and so on) by openc2-http or manual ones; this engine sends no others.\n",
];

pub(crate) const K14: &[&str] = &[
    "K14 (of the playbook): no playbook that is given before it has its id.\n",
    "Mend: give each playbook once, and give a copied playbook an id of its own.\n",
];

pub(crate) const K15: &[&str] = &[
    "K15 (of the playbook): the step that workflow_start names is there and is a start step, and the step that workflow_exception names is there.\n",
    "Mend: correct the name, which is the whole key of the step in workflow.\n",
];

pub(crate) const K16: &[&str] = &[
    "K16 (of a step): each link leads to a step of the playbook: on_completion, on_success, on_failure, next_steps, on_true, on_false and the steps of cases.\n",
    "Mend: correct the link, or add the step; a link is the whole key of a step in workflow.\n",
];

pub(crate) const K17: &[&str] = &[
    "K17 (of an action): its agent and its targets are defined in agent_definitions or target_definitions.\n",
    "Mend: define the agent or the target under the very name that the step has.\n",
];

pub(crate) const K18: &[&str] = &[
    "K18 (of a playbook-action, where the playbook is to be run): the playbook that it calls is given.\n",
    "Mend: name the file of that playbook too, behind the first one.\n",
];

pub(crate) const K19: &[&str] = &[
    "K19 (of a playbook-action whose playbook is given): playbook_version is that playbook's modified, byte for byte, and no calls lead back to a playbook that began them.\n",
    "Mend: write that stamp, or leave playbook_version out; break the circle of calls, perhaps by a while-condition.\n",
];

pub(crate) const K20: &[&str] = &[
    "K20 (of the playbook or a step): the value of each variable that it declares is a text of the variable's kind.\n",
    "Mend: write true or false for bool, a whole number for integer and long, a net as 198.51.100.0/24 for ipv4-addr; or declare it as a string.\n",
];

pub(crate) const K21: &[&str] = &[
    "K21 (of a control step): the condition is of the grammar of conditions, and switch is one reference to a variable and nothing else.\n",
    "Mend: compare a variable with a value, as in `__severity__:value >= 7`; ISSUBSET, LIKE, NOT, decimals, and a variable against a variable are not supported here.\n",
];

pub(crate) const K22: &[&str] = &[
    "K22 (of a step): of no name that the step uses may it see that there is no declaration.\n",
    "Mend: declare the variable in step_variables, or in playbook_variables of the playbook; if it is declared, look for a misspelt name in condition, switch, in_args, out_args and the texts of the commands.\n",
];

pub(crate) const K23: &[&str] = &[
    "K23 (of a step): no declaration that it may see of a name in out_args is a constant, and those of an action's results are of fitting kinds: string, integer, long or one that is not checked for the first two, string or one that is not checked for the third.\n",
    "Mend: take \"constant\": true from the variable that is written, or change its type.\n",
];

pub(crate) const K24: &[&str] = &[
    "K24 (of a playbook-action whose playbook is given): that playbook declares each name of in_args as external, and each name of out_args, each of the kind that the step sees.\n",
    "Mend: declare the variable in the called playbook with the same type, and with \"external\": true if it is in in_args.\n",
];

pub(crate) const K25: &[&str] = &[
    "K25 (of a step): a path that goes on from it can end, and a control step does not enclose itself.\n",
    "Mend: let some path from the step come to an end step, or to a control step that leads on to nothing; take a control step out of its own branches.\n",
];

pub(crate) const B1: &[&str] = &[
    "B1 (of the bindings): they are an object of at most `agents`, identifiers with numbers from 1 to 16, and `variables`, names with texts of at most 4,096 bytes.\n",
    "Mend: write {\"agents\": {\"AGENT\": 1}, \"variables\": {\"__name__\": \"text\"}}, with each value of a variable in quotes.\n",
];

pub(crate) const B2: &[&str] = &[
    "B2 (of the bindings): the first playbook declares each bound variable as external.\n",
    "Mend: add \"external\": true to the variable in playbook_variables, or correct its name in the bindings.\n",
];

pub(crate) const B3: &[&str] = &[
    "B3 (of the bindings): the text that is bound to a variable is of the variable's kind.\n",
    "Mend: write true or false for bool, a whole number for integer and long, a net as 198.51.100.0/24 for ipv4-addr.\n",
];
