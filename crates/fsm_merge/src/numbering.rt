// Old states that become new ones.
ghost use Rattle.std.specs.Prelude.{◌≡◌};
ghost use Rattle.fsm_merge.specs.Merged.{is_kept};
ghost use Rattle.fsm_merge.specs.Numbering.{nth};

/// Which new state each old one becomes, and which old state is kept for each new one: the least of those that become it.
#[derive(Clone, Copy)]
pub struct Numbering<'a> {
    pub state_of: &'a [u32],
    pub kept: &'a [u32],
}

// Number k of a list, and 0 past its end.
fn nth(numbers: &[u32], k: u32) -> u32
    ensures { result ≡ nth numbers.now k }
{
    numbers.get(k as usize).copied().unwrap_or(0)
}

impl Numbering<'_> {
    /// The new state that an old one becomes. Takes no memory.
    pub fn new_state(&self, state: u32) -> u32
        ensures { result ≡ nth self.now.state_of.now state }
    {
        nth(self.state_of, state)
    }

    /// Whether an old state is the one that is kept. Takes no memory.
    pub fn keeps(&self, state: u32) -> bool
        ensures { result ≡ is_kept self.now.state_of.now self.now.kept.now state }
    {
        nth(self.kept, self.new_state(state)) == state
    }
}
