/// A command that reads a document.
#[derive(Clone, Copy, Debug, PartialEq, Eq)]
pub enum Asked {
    Judge,
    Check,
    Plan,
    Draw,
    Run,
    Audit,
    Tree,
    Serve,
}

impl Asked {
    /// The command's word, and the members that its document has.
    pub(crate) fn reads(self) -> (&'static str, &'static [&'static str]) {
        match self {
            Asked::Judge => ("judge", &["nodes", "list", "plan"]),
            Asked::Check => ("check", &["nodes", "list", "plan", "flow"]),
            Asked::Plan => ("plan", &["nodes", "list"]),
            Asked::Draw => ("draw", &["nodes", "list"]),
            Asked::Run => ("run", &["nodes", "lists"]),
            Asked::Audit => ("audit", &["nodes", "jobs", "events"]),
            Asked::Tree => ("tree", &["nodes"]),
            Asked::Serve => ("serve", &["nodes"]),
        }
    }

    /// The members that its document may have.
    pub(crate) fn may_read(self) -> &'static [&'static str] {
        match self {
            Asked::Draw => &["version", "plan"],
            Asked::Audit => &["version", "standing"],
            _ => &["version"],
        }
    }

    /// The member of its document of this name, if it reads one.
    pub(crate) fn read_member(self, name: &str) -> Option<&'static str> {
        let (_, needed) = self.reads();
        for names in [needed, self.may_read()] {
            for known in names {
                if *known == name {
                    return Some(*known);
                }
            }
        }
        None
    }
}
