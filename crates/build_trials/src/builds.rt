//! Builds that begin with what a world has, which itself stays as it is.
use crate::idle::IdleWorld;
use scons_base::Text;
use world_mem::Files;

/// Builds with the same words that begin with the files and signature banks of a world.
#[derive(Drop)]
pub(crate) struct Builds<'a> {
    pub(crate) world: &'a IdleWorld,
    pub(crate) words: &'a [Text],
    /// The files that such a build leaves without banks.
    clean: Files,
}

impl<'a> Builds<'a> {
    pub(crate) fn new(world: &'a IdleWorld, words: &'a [Text]) -> Option<Builds<'a>> {
        let clean = clean_files(world, words)?;
        Some(Builds {
            world,
            words,
            clean,
        })
    }

    /// Whether a world has the files of a clean build.
    pub(crate) fn are_clean(&self, world: &IdleWorld) -> bool {
        match world.inner.files() {
            Ok(files) => files.as_slice() == self.clean.as_slice(),
            Err(_) => false,
        }
    }
}

fn clean_files(world: &IdleWorld, words: &[Text]) -> Option<Files> {
    let mut clean = world.anew(&[], &[], Vec::new(world.alloc))?;
    clean.status(words)?;
    clean.inner.files().ok()
}
