// Lists of numbers.
ghost use Rattle.std.specs.Prelude.{◌≡◌, length};

use std::marker::Model;

/// Numbers in order, which contracts see as their list.
#[derive(Debug, Drop)]
pub struct Numbers {
    items: Vec<u32>,
}

/// Nodes of a graph, by their numbers from 0.
pub type Places = Numbers;

/// The level of each node, in the order of the nodes.
pub type LevelList = Numbers;

impl Model for Numbers {
    ghost use Rattle.std.specs.Prelude.{List, ℕ};
    ghost use Rattle.std.specs.Coded.{coded_list, coded_ℕ};

    ghost Value = { List ℕ };

    ghost coded = { coded_list coded_ℕ };

    ghost view = { λ numbers. numbers.items.items };
}

impl Numbers {
    /// The numbers of a `Vec`. Takes no memory.
    pub fn from_vec(items: Vec<u32>) -> Numbers
        ensures { result ≡ items.items }
    {
        Numbers { items }
    }

    /// The numbers as a `Vec`. Takes no memory.
    pub fn into_vec(self) -> Vec<u32>
        ensures { result.items ≡ self }
    {
        let Numbers { items } = self;
        items
    }

    /// The numbers in order.
    pub fn as_slice(&self) -> &[u32]
        ensures { result.now ≡ self.now }
    {
        self.items.as_slice()
    }
}
