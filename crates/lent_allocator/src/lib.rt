// An allocator that the host owns and lends: each call changes what stands behind the reference, and answers.
#![tactic(auto)]

ghost use Rattle.std.specs.Prelude.{true};
ghost use Rattle.sizes.specs.Allocator.{ValidAllocator, dropped_of, Gives, Becomes};

use sizes::refusal::Refusal;
use sizes::toiallocator::ToiAllocator;

// A loose reservation of the stored next number.
pub fn reserve(a: &mut ToiAllocator) -> Result<u64, Refusal>
    requires { ValidAllocator a.old }
    ensures { Gives true a.old (record { answer = result; allocator = a.new }) }
{
    a.allocate(true)
}

// A loose reservation is let go.
pub fn release(a: &mut ToiAllocator, toi: u64) -> Result<(), Refusal>
    requires { ValidAllocator a.old }
    ensures { Becomes (dropped_of true toi a.old) (record { answer = result; allocator = a.new }) }
{
    a.release(toi)
}
