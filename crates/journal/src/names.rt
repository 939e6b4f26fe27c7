// The names that a journal has bound to handles.
ghost use Rattle.std.specs.Prelude.{◌≡◌, ℕ, List, Some, None, MatchResult};
ghost use Rattle.journal.specs.Bindings.{handle_of, Rebinds, Keeps, meant};

use journal_words::command::Operand;
use std::alloc::{AllocError, Global};
use std::collections::BTreeMap;

#[derive(Drop)]
pub struct Names {
    handles: BTreeMap<String, u32>,
}

impl Names {
    // No name is bound.
    pub fn new(heap: Global) -> Names
        ensures { (w : List ℕ) → handle_of result w ≡ None }
    {
        Names {
            handles: BTreeMap::new(heap),
        }
    }

    // The handle that the name is bound to.
    pub fn find(&self, name: &str) -> Option<u32>
        ensures { result ≡ handle_of self.now name.now }
    {
        self.handles.get(name).copied()
    }

    // The handle that an operand means: its number, or what its name is bound to.
    pub fn handle(&self, operand: Operand<'_>) -> Option<u32>
        ensures { result ≡ meant self.now operand.entry }
    {
        match operand {
            Operand::Number(handle) => Some(handle),
            Operand::Name(name) => self.find(name),
        }
    }

    // Binds the name to the handle, in place of what it was bound to; without memory for it, all stays.
    #[tactic(auto, using(std::proofs::lemmas::Map::Text::text_keys))]
    pub fn bind(&mut self, heap: Global, name: &str, handle: u32) -> Result<(), AllocError>
        ensures { MatchResult result (λ _. Rebinds self.old name.now (Some handle) self.new) (λ _. Keeps self.old self.new) }
    {
        let key = String::from_str(heap, name)?;
        self.handles.insert(key, handle)?;
        Ok(())
    }

    // Leaves the name unbound.
    #[tactic(auto, using(std::proofs::lemmas::Map::Text::text_keys))]
    pub fn unbind(&mut self, name: &str)
        ensures { Rebinds self.old name.now None self.new }
    {
        let _was = self.handles.remove(name);
    }
}
