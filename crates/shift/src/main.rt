// A shift of a kiln: feeds standard input to a station of four posts and prints what became of each record.
#![tactic(auto)]

use report::program::run;

fn main(rt: HostRuntime) -> anyhow::Result<()> {
    run(&rt)
}
