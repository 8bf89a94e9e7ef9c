//! Records.
ghost use Rattle.std.specs.Prelude.{◌≡◌, ◌++◌, Ok, IfOk, OnOk};

use crate::content::Digest;
use scons_base::{Listing, Memory, PathText, Paths, Texts};
use world_api::{Hash, Work};

/// A dependency as it was recorded: its name, the digest of what it held, none where no file stood there, and its time
/// of change where the rule goes by times.
#[derive(Debug, Drop)]
pub struct Dep {
    pub name: PathText,
    pub digest: Option<Digest>,
    pub stamp: Option<u64>,
}

/// What is recorded of a rule that was built.
#[derive(Debug, Drop)]
pub struct Rec {
    pub work: Work,
    /// What its digests are made by.
    pub hash: Hash,
    pub targets: Paths,
    pub signed: Texts,
    pub deps: Listing<Dep>,
}

/// The record of an action and its dependencies.
pub fn rec_of(
    work: Work,
    hash: Hash,
    targets: Paths,
    signed: Texts,
    deps: Listing<Dep>,
) -> Result<Rec, Memory>
    ensures { result ≡ Ok (record { work = work; hash = hash; targets = targets; signed = signed; deps = deps }) }
{
    Ok(Rec {
        work,
        hash,
        targets,
        signed,
        deps,
    })
}

impl Dep {
    pub fn copy(&self) -> Result<Dep, Memory>
        ensures { IfOk result (λ dep. dep ≡ self.now) }
    {
        Ok(Dep {
            name: self.name.copy()?,
            digest: self.digest,
            stamp: self.stamp,
        })
    }
}

impl Rec {
    pub fn copy(&self) -> Result<Rec, Memory>
        ensures { IfOk result (λ rec. rec ≡ self.now) }
    {
        let signed = self.signed.copy()?;
        let targets = self.targets.copy()?.into_vec();
        let mut deps = Vec::new(*targets.allocator());
        push_copies(&mut deps, self.deps.as_slice())?;
        Ok(Rec {
            work: self.work,
            hash: self.hash,
            targets: Paths::new(targets),
            signed,
            deps: Listing::new(deps),
        })
    }
}

fn push_copies(copies: &mut Vec<Dep>, deps: &[Dep]) -> Result<(), Memory>
    ensures { OnOk result (copies.new.items ≡ copies.old.items ++ deps.now) }
{
    for dep in deps {
        copies.push(dep.copy()?)?;
    }
    Ok(())
}
