//! What is said of each fault that is more than a form.
use crate::places::Spot;
use crate::shown::Quoted;
use std::fmt;
use std::fmt::{Display, Formatter, Write};

/// What is said if nothing that was asked is wrong.
const UNKNOWN: &str = "it failed, though nothing is known to be wrong with the input";

/// By the name of a fault, or of a case of one, what is said of it. What stands in angle brackets is filled in.
static SAYINGS: [(&str, &str); 42] = [
    ("no-path", "<spot>: no node has the path <text>"),
    (
        "no-slash",
        "the path <text> of <spot> doesn't begin with a slash; the root is \"/\"",
    ),
    (
        "slash-behind",
        "the path <text> of <spot> ends with a slash",
    ),
    (
        "bad-name-in-path",
        "the path <text> of <spot> has the name <second>, but names are 1 to 32 of a to z, 0 to 9, _ and -",
    ),
    (
        "bad-length",
        "<spot> is <number> slots long, but an access has 1 to 1000",
    ),
    (
        "empty",
        r#""nodes" has no rows; the first is the root, as {"parent":null,"name":"","weight":1}"#,
    ),
    (
        "too-many",
        "\"nodes\" has <number> rows, but a tree has at most 4096",
    ),
    (
        "parent-of-root",
        "<spot> has the parent <number>, but the first row is the root, whose parent is null",
    ),
    (
        "bad-parent",
        "<spot> has the parent <number>, but a parent is an earlier row",
    ),
    (
        "out-of-order",
        "<spot> is out of order: it belongs right after nodes <number>, its parent, \
         and what is below that already; rows are in preorder",
    ),
    (
        "no-parent",
        "<spot> has the parent null, which only the first row has",
    ),
    ("too-deep", "<spot> has more than 32 rows above it"),
    (
        "name-of-root",
        "<spot> has the name <text>, but the root's name is empty",
    ),
    (
        "bad-name",
        "<spot> has the name <text>, but names are 1 to 32 of a to z, 0 to 9, _ and -",
    ),
    (
        "twice-named",
        "<spot> has the name <text>, which nodes <number> below the same parent has",
    ),
    (
        "bad-weight",
        "<spot> has the weight <number>, but a weight is 1 to 1000",
    ),
    (
        "strange",
        "<spot> does access <number>, but the list has only <other>; they count from 0",
    ),
    (
        "relock",
        "<spot> locks <text> again, but a node is locked only once",
    ),
    (
        "late-root",
        "<spot> locks the root <text> after another node; it has no parent, so a plan that locks it \
         has to lock it first",
    ),
    (
        "parent-not-held",
        "<spot> locks <text> while its parent isn't held; only the first lock needs no parent",
    ),
    ("not-held", "<spot> unlocks <text>, which isn't held then"),
    (
        "wrong-access",
        "<spot> does access <number>, but the list's next one is access <other>",
    ),
    (
        "access-not-held",
        "<spot> does access <number> while its node <text> isn't held",
    ),
    (
        "access-missing",
        "the <spot> ends before it has done access <number>, which is of <text>; it has to do the whole list",
    ),
    (
        "still-held",
        "the <spot> ends while <text> is held; what is locked has to be unlocked",
    ),
    (
        "rows",
        "<spot> is of <text>, which isn't the next forced node in the tree's order; \
         a node is forced if an access is at or below it, and no node below it has all accesses at or below it",
    ),
    (
        "no-row",
        "<spot> is missing, the row of the next forced node in the tree's order; \
         a node is forced if an access is at or below it, and no node below it has all accesses at or below it",
    ),
    (
        "sign",
        "<spot> has an amount where none may be: the first row has no \"above\" and no \"held\", \
         and a node that isn't accessed no \"first\" and no \"last\"",
    ),
    ("too-big", "<spot> has an amount above 1099511627776"),
    (
        "lock-balance",
        "<spot> isn't in balance: its \"above\" and its node's weight have to be the \"above\" \
         of its children and its own \"held\", \"first\" and \"own\", added up",
    ),
    (
        "release-balance",
        "<spot> isn't in balance: its node's weight has to be the \"held\" of its children \
         and its own \"last\" and \"own\", added up",
    ),
    (
        "value",
        "the plan costs <number>, but the flow shows only that no plan costs less than <other>",
    ),
    (
        "no-job",
        "<spot> is about job <number>, but there are only <other> jobs; they count from 0",
    ),
    (
        "ended",
        "<spot> is about job <number>, which has done its last step",
    ),
    (
        "blocked",
        "<spot> lets job <number> lock a node that job <other> holds",
    ),
    (
        "not-blocked",
        "<spot> marks job <number>, whose next step isn't a lock of a node that another job holds",
    ),
    (
        "marked",
        "<spot> marks a step of job <number> that has its mark already",
    ),
    (
        "unfinished",
        "job <number> has steps left after the last event",
    ),
    (
        "records",
        "standing: records <number> isn't what the events leave of nodes <number>",
    ),
    (
        "replies",
        "standing: replies <number> isn't what the events leave of jobs <number>",
    ),
    (
        "count-of-records",
        "\"records\" of standing has length <number>, but the number of nodes is <other>",
    ),
    (
        "count-of-replies",
        "\"replies\" of standing has length <number>, but the number of jobs is <other>",
    ),
];

/// A fault by its name, or a case of one, and what is filled in where it is told.
#[derive(Clone, Copy)]
pub(crate) struct Said<'v> {
    pub name: &'static str,
    pub spot: Spot,
    pub text: &'v str,
    pub second: &'v str,
    pub number: u64,
    pub other: i128,
}

impl Display for Said<'_> {
    fn fmt<W: Write>(&self, f: &mut Formatter<W>) -> fmt::Result {
        for part in saying(self.name).split('<') {
            match part.split_once('>') {
                Some((hole, rest)) => {
                    self.fill(f, hole)?;
                    f.write_str(rest)?;
                }
                None => f.write_str(part)?,
            }
        }
        Ok(())
    }
}

impl Said<'_> {
    fn fill<W: Write>(&self, f: &mut Formatter<W>, hole: &str) -> fmt::Result {
        match hole {
            "spot" => write!(f, "{}", self.spot),
            "text" => write!(f, "{}", Quoted(self.text)),
            "second" => write!(f, "{}", Quoted(self.second)),
            "number" => write!(f, "{}", self.number),
            _ => write!(f, "{}", self.other),
        }
    }
}

/// What is said of what has the name.
fn saying(name: &str) -> &'static str {
    for (known, saying) in &SAYINGS {
        if *known == name {
            return *saying;
        }
    }
    UNKNOWN
}
