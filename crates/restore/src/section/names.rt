//! The names that the chain lines of a section had.
ghost use Rattle.std.specs.Prelude.{◌≡◌, OnOk, OnErr};
ghost use Rattle.std.specs.FinSet as set;

use std::alloc::{AllocError, Global};
use std::collections::BTreeSet;
use std::marker::Model;

// Some names, of any bytes.
#[derive(Drop)]
pub(crate) struct Names {
    alloc: Global,
    names: BTreeSet<Vec<u8>>,
}

impl Model for Names {
    ghost use Rattle.std.specs.Prelude.{map};
    ghost use Rattle.std.specs.Coded.{coded_list, coded_ℕ};
    ghost use Rattle.std.specs.FinSet as set;
    ghost use Rattle.restore.specs.sections.Section.{Names as Set};

    ghost Value = { Set };

    ghost coded = { set.code (coded_list coded_ℕ) };

    ghost view = { λ n. set.from_list (map (λ name. name.items) n.names.keys) };
}

impl Names {
    pub(crate) fn new(alloc: Global) -> Names
        ensures { result ≡ set.empty }
    {
        Names {
            alloc,
            names: BTreeSet::new(alloc),
        }
    }

    // Whether a name is among them.
    pub(crate) fn contains(&self, name: &[u8]) -> bool
        ensures { result ≡ set.contains self.now name.now }
    {
        self.names.contains(name)
    }

    // Puts a name among them.
    pub(crate) fn insert(&mut self, name: &[u8]) -> Result<(), AllocError>
        ensures ok { OnOk result (self.new ≡ set.insert self.old name.now) }
        ensures err { OnErr result (self.new ≡ self.old) }
    {
        let key = name.to_vec(self.alloc)?;
        match self.names.insert(key) {
            Ok(_) => return Ok(()),
            Err(_) => return Err(AllocError),
        }
    }
}
