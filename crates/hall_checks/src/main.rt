// The hall's console again, since a program has one script: this one is run on a table of messages with their answers.
#![tactic(auto)]

fn main(rt: HostRuntime) -> anyhow::Result<()> {
    console::serve(&rt)
}
