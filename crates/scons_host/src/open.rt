//! A call of SConscript whose scripts are being read.
use py_heap::Value;
use py_host::{Place, Scope};
use scons_base::EnvId;
use scons_decls::Given;
use std::collections::VecDeque;

#[derive(Drop)]
pub struct OpenCall {
    pub place: Place,
    pub env: EnvId,
    /// The scripts that are still to be read.
    pub files: VecDeque<Given>,
    /// More than one script was asked for.
    pub several: bool,
    /// What the call exports to its scripts.
    pub exports: Scope,
    pub variant: Option<Given>,
    pub duplicate: bool,
    /// What the scripts that have ended returned.
    pub answers: Vec<Value>,
    /// What the script that runs has returned.
    pub returned: Value,
}
