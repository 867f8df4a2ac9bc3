// An open block of a transfer (src/sender/block.rs).
ghost use Rattle.std.specs.Prelude.{◌≡◌};
ghost use Rattle.sizes.specs.Partition.{symbols_in};
ghost use Rattle.sender.specs.EncoderCalls.{no_open, is_empty};

use sizes::numbers::{Esi, Sbn};
use sizes::partition::Partition;

// A block, and the next symbol of it.
#[repr(C)]
#[derive(Clone, Copy)]
pub struct Open {
    pub sbn: Sbn,
    pub esi: Esi,
}

// No block: zeros.
pub fn no_open() -> Open
    ensures { result ≡ no_open }
{
    Open {
        sbn: Sbn(0),
        esi: Esi(0),
    }
}

// How many symbols a block has.
#[tactic(auto, using(sizes::proofs::Lengths::in_large, sizes::proofs::Lengths::in_small))]
pub fn nb_source_symbols(p: Partition, k: Sbn) -> u64
    ensures { result ≡ symbols_in p k }
{
    if (k.0 as u64) < p.nb_a_large {
        p.large
    } else {
        p.small
    }
}

impl Open {
    // Has it no symbol left?
    #[tactic(auto, unfolding(crate::specs::EncoderCalls::is_empty))]
    pub fn is_empty(&self, p: Partition) -> bool
        ensures { result ≡ is_empty p self.now }
    {
        nb_source_symbols(p, self.sbn) <= self.esi.0 as u64
    }
}
