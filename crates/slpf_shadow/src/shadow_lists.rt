// Lists of shadowed rules.
ghost use Rattle.std.specs.Prelude.{◌≡◌, ◌++◌, OnOk, OnErr};
ghost use Rattle.slpf_shadow.specs.Searches.{entry};

use std::alloc::{AllocError, Global};
use std::marker::Model;

/// A rule that another one shadows.
#[derive(Clone, Copy, PartialEq, Eq)]
pub struct Shadow {
    /// The number of the rule that is shadowed.
    pub rule: u32,
    /// The least number of a rule that shadows it.
    pub by: u32,
}

/// Shadowed rules, which contracts see as their list.
#[derive(Drop)]
pub struct ShadowList {
    shadows: Vec<Shadow>,
}

impl Model for ShadowList {
    ghost use Rattle.std.specs.Prelude.{List};
    ghost use Rattle.slpf_shadow.specs.declared.shadow_lists.Shadow.{Shadow};

    ghost Value = { List Shadow };

    ghost view = { λ list. list.shadows.items };
}

impl ShadowList {
    ghost use Rattle.std.specs.Prelude.{[]};

    /// No shadowed rule. It takes no memory.
    pub fn new(alloc: Global) -> ShadowList
        ensures { result ≡ [] }
    {
        ShadowList {
            shadows: Vec::new(alloc),
        }
    }

    /// The list of a vector. It takes no memory.
    pub fn from_vec(shadows: Vec<Shadow>) -> ShadowList
        ensures { result ≡ shadows.items }
    {
        ShadowList { shadows }
    }

    /// The vector of the list. It takes no memory.
    pub fn into_vec(self) -> Vec<Shadow>
        ensures { result.items ≡ self }
    {
        self.shadows
    }

    /// The shadowed rules.
    pub fn as_slice(&self) -> &[Shadow]
        ensures { result.now ≡ self.now }
    {
        self.shadows.as_slice()
    }

    /// Adds what is said of a rule, if one shadows it. The list is unchanged where memory is wanted.
    pub(crate) fn add(&mut self, rule: u32, by: Option<u32>) -> Result<(), AllocError>
        ensures ok { OnOk result (self.new ≡ self.old ++ entry rule by) }
        ensures err { OnErr result (self.new ≡ self.old) }
    {
        match by {
            Some(by) => {
                self.shadows.push(Shadow { rule, by })?;
                Ok(())
            }
            None => Ok(()),
        }
    }
}
