// A walk through the store, from a setting's bytes up, printed step by step.
#![tactic(auto)]

mod alignment_part;
mod cluster_part;
mod crossing_part;
mod quorum_part;
mod settings_part;

fn walk(rt: &HostRuntime) -> anyhow::Result<()> {
    settings_part::walk(rt)?;
    quorum_part::walk(rt)?;
    cluster_part::walk(rt)?;
    crossing_part::walk(rt, rt.alloc())?;
    alignment_part::walk(rt, rt.alloc())
}

fn main(rt: HostRuntime) -> anyhow::Result<()> {
    walk(&rt)
}
