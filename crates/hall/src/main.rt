// The hall's console, over standard input and output.
#![tactic(auto)]

fn main(rt: HostRuntime) -> anyhow::Result<()> {
    console::serve(&rt)
}
