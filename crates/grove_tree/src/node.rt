ghost use Rattle.std.specs.Prelude.{◌≡◌, ◌<◌, ◌^◌};

use std::marker::Model;

/// A node of a tree, by its number in preorder: the root is 0.
#[derive(Clone, Copy, Debug, Default, PartialEq, Eq, PartialOrd, Ord, Hash)]
pub struct Node {
    number: u32,
}

impl Model for Node {
    ghost use Rattle.std.specs.Prelude.{ℕ};

    ghost Value = { ℕ };

    ghost view = { λ node. node.number };

    ghost inverse = { λ number. record { number = number } };
}

impl Node {
    pub fn new(number: u32) -> Self
        ensures { result ≡ number }
    {
        Node { number }
    }

    pub fn number(self) -> u32
        ensures is_it { result ≡ self }
        ensures few { self < 2 ^ 32 }
    {
        self.number
    }
}
