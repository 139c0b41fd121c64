//! The hooks INPUT, FORWARD and OUTPUT, where a packet meets the table.
ghost use Rattle.std.specs.Prelude.{◌≡◌, Some, IfSome};

/// Where a packet meets the table: in one of the three built-in chains of the `filter` table of iptables(8).
#[derive(Clone, Copy, Debug, PartialEq, Eq)]
pub enum Hook {
    /// The chain INPUT: packets for this host.
    Input,
    /// The chain FORWARD: packets that pass through.
    Forward,
    /// The chain OUTPUT: packets of this host.
    Output,
}

impl Hook {
    ghost use Rattle.fields.specs.declared.packet.hook.Hook.{Hook};
    ghost use Rattle.fields.specs.Hook.{name, all_hooks, hook_of};

    /// Each hook, in the order of a listing.
    pub const ALL: [Hook; 3] = [Hook::Input, Hook::Forward, Hook::Output];

    /// The hook of this name, in upper case.
    pub fn read(text: &[u8]) -> Option<Hook>
        ensures value { result ≡ hook_of text.now }
        ensures sound { IfSome result (λ h. text.now ≡ name h) }
        ensures complete { (h : Hook) → text.now ≡ name h → result ≡ Some h }

        // `Hook::ALL` has each hook, in the order of a listing.
        ensures order { Self.ALL ≡ all_hooks }
    {
        Hook::ALL.into_iter().find(|hook| hook.name() == text)
    }

    /// The name of the built-in chain.
    pub fn name(self) -> &'static [u8]
        ensures { result.now ≡ name self }
    {
        match self {
            Hook::Input => b"INPUT",
            Hook::Forward => b"FORWARD",
            Hook::Output => b"OUTPUT",
        }
    }
}
