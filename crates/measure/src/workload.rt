// The workloads by their names.
use std::error::Error;
use std::fmt;
use std::str::FromStr;

/// What is done in each turn.
///
/// An enum, and no closure: the name is looked at before anything is made, and each workload takes other parts.
#[derive(Clone, Copy, Debug, PartialEq, Eq)]
pub(crate) enum Workload {
    New,
    Write,
    Read,
    Query,
    Store,
    Silent,
    Heard,
    Ignored,
    Turned,
    Finished,
    Forged,
    Drop,
    Collect,
    Sign,
    Verify,
    Inline,
}

/// No workload has that name.
#[derive(Clone, Copy, Debug)]
pub(crate) struct UnknownWorkload;

impl fmt::Display for UnknownWorkload {
    fn fmt<W: fmt::Write>(&self, f: &mut fmt::Formatter<W>) -> fmt::Result {
        f.write_str("no such workload")
    }
}

impl Error for UnknownWorkload {}

impl FromStr for Workload {
    type Err = UnknownWorkload;

    fn from_str(name: &str) -> Result<Workload, UnknownWorkload> {
        Ok(match name {
            "new" => Workload::New,
            "write" => Workload::Write,
            "read" => Workload::Read,
            "query" => Workload::Query,
            "store" => Workload::Store,
            "silent" => Workload::Silent,
            "heard" => Workload::Heard,
            "ignored" => Workload::Ignored,
            "turned" => Workload::Turned,
            "finished" => Workload::Finished,
            "forged" => Workload::Forged,
            "drop" => Workload::Drop,
            "collect" => Workload::Collect,
            "sign" => Workload::Sign,
            "verify" => Workload::Verify,
            "inline" => Workload::Inline,
            _ => return Err(UnknownWorkload),
        })
    }
}
