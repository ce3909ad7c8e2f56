// Demands 1 and 3 as promises of the Rattle run and of the Rattle step themselves: that a refusal leaves no trace but the marks of its
// fetch, and that one member's pages never show in another's figure. Each is the public entry and nothing more; what it ensures beside the
// entry's own equation follows from that equation, by the laws of the crate demand.
#![tactic(auto)]

ghost use Rattle.std.specs.Prelude.{◌≡◌};
ghost use Rattle.machine.specs.Machine.{given, outcome, cpu_in, step_outcome, run_outcome};
ghost use Rattle.demand.specs.Plain.{plain_step, plain_run};
ghost use Rattle.demand.specs.DemandOne.{CleanStep, CleanRun};
ghost use Rattle.demand.specs.DemandThree.{PagesKeep};

use machine::Reply;

// The run. `clean` is demand 1, `pages` demand 3.
pub fn run(
    mem: &mut [u8],
    map: &mut [u16],
    regs: &mut [u32],
    pc: u32,
    code: u32,
    mask: u32,
    budget: u32,
) -> Reply
    ensures whole { outcome result mem.new map.new regs.new ≡ run_outcome budget (given mem.old map.old regs.old pc code mask) }
    ensures clean { CleanRun budget (given mem.old map.old regs.old pc code mask) (outcome result mem.new map.new regs.new) }
    ensures pages { PagesKeep (given mem.old map.old regs.old pc code mask) (outcome result mem.new map.new regs.new) (plain_run budget (cpu_in (given mem.old map.old regs.old pc code mask))) }
{
    engine::run(mem, map, regs, pc, code, mask, budget)
}

// The single step.
pub fn step(
    mem: &mut [u8],
    map: &mut [u16],
    regs: &mut [u32],
    pc: u32,
    code: u32,
    mask: u32,
) -> Reply
    ensures whole { outcome result mem.new map.new regs.new ≡ step_outcome (given mem.old map.old regs.old pc code mask) }
    ensures clean { CleanStep (given mem.old map.old regs.old pc code mask) (outcome result mem.new map.new regs.new) }
    ensures pages { PagesKeep (given mem.old map.old regs.old pc code mask) (outcome result mem.new map.new regs.new) (plain_step (cpu_in (given mem.old map.old regs.old pc code mask))) }
{
    engine::step(mem, map, regs, pc, code, mask)
}
