// For the measurements only: the sum of two runs of limbs, for a C program to time.
#![tactic(auto)]

ghost use Rattle.run.specs.Sum.{Added};

// Adds the operand and a carry into the target, as far as the target goes. Returns the carry out.
#[unsafe(no_mangle)]
pub extern "C" fn bench_run_add_into(target: &mut [u64], operand: &[u64], carry: bool) -> bool
    ensures { Added target.old operand.now carry target.new result }
{
    run::add_into(target, operand, carry)
}
