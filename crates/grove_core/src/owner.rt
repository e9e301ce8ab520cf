ghost use Rattle.std.specs.Prelude.{◌≡◌};
ghost use Rattle.grove_core.specs.Owners.{holder_of, last_holder_of};

/// Which job has a node, or had it last.
#[derive(Clone, Copy, Debug)]
pub enum Owner {
    /// No job has locked it.
    Nobody,
    /// This job holds it.
    Holder(u32),
    /// This job let it go, and none has locked it since.
    Last(u32),
}

impl Owner {
    /// The job that holds the node.
    pub fn holder(self) -> Option<u32>
        ensures { result ≡ holder_of self }
    {
        match self {
            Owner::Holder(txn) => Some(txn),
            Owner::Nobody | Owner::Last(_) => None,
        }
    }

    /// The job that was the last to lock the node.
    pub fn last(self) -> Option<u32>
        ensures { result ≡ last_holder_of self }
    {
        match self {
            Owner::Holder(txn) | Owner::Last(txn) => Some(txn),
            Owner::Nobody => None,
        }
    }
}
