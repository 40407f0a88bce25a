// The shift program on a longer feed, whose output tools/shift_model.py worked out on its own. It is a crate of its own
// since a program has one input and one expected output.
#![tactic(auto)]

use report::program::run;

fn main(rt: HostRuntime) -> anyhow::Result<()> {
    run(&rt)
}
