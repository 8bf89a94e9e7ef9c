//! Scripts that read scripts, and variant directories.
ghost use Rattle.std.specs.Prelude.{◌≡◌, ◌≢◌, Ok, Err, IfOk, IfErr, OnOk, Some, option_copied};
ghost use Rattle.scons_decls.specs.State.{declared_of};
ghost use Rattle.scons_decls.specs.Scripts as spec;

use crate::declarations::Declarations;
use crate::expand::{dir_of, file_of};
use crate::fault::NameFault;
use crate::given::Given;
use scons_base::limits::SCRIPT_DEPTH_LIMIT;
use scons_base::{EnvId, PathText, Paths};

/// Where a script is looked for, and the directory from which its texts are read.
#[derive(Drop)]
pub struct ScriptPlace {
    pub dir: PathText,
    /// The files that may be the script: the first that is there is read.
    pub candidates: Paths,
}

impl Declarations {
    /// Where the script of `SConscript(file, variant_dir, duplicate)` stands. Its directory becomes the source of the
    /// variant directory, if one is given.
    pub fn find_script(
        &mut self,
        env: EnvId,
        file: &Given,
        variant: Option<&Given>,
        duplicate: bool,
    ) -> Result<ScriptPlace, NameFault>
        ensures ok { IfOk result (λ p. spec.found_script (declared_of self.old) env.0 file.now
            (option_copied variant.entry) duplicate ≡ Ok (p, declared_of self.new)) }
        ensures fault { IfErr result (λ e. e ≢ NameFault.Memory
            → spec.found_script (declared_of self.old) env.0 file.now (option_copied variant.entry) duplicate ≡ Err e) }
    {
        let path = file_of(self, env, file, "SConscript")?;
        let path = match variant {
            Some(variant) => self.enter_variant(env, path, variant, duplicate)?,
            None => path,
        };
        self.script_at(path)
    }

    /// The path of a script on the variant side.
    fn enter_variant(
        &mut self,
        env: EnvId,
        path: PathText,
        variant: &Given,
        duplicate: bool,
    ) -> Result<PathText, NameFault>
        ensures ok { IfOk result (λ p. spec.entered (declared_of self.old) env.0 path (Some variant.now) duplicate
            ≡ Ok (p, declared_of self.new)) }
        ensures fault { IfErr result (λ e. e ≢ NameFault.Memory
            → spec.entered (declared_of self.old) env.0 path (Some variant.now) duplicate ≡ Err e) }
    {
        let dir = dir_of(self, env, variant, "SConscript")?;
        let source = PathText::read(self.alloc, path.dir())?;
        self.locals.variants.add(&dir, &source, duplicate)?;
        match path.moved(&source, &dir)? {
            Some(path) => Ok(path),
            None => Ok(path),
        }
    }

    fn script_at(&self, path: PathText) -> Result<ScriptPlace, NameFault>
        ensures ok { IfOk result (λ p. spec.script_at (declared_of self.now) path ≡ Ok p) }
        ensures fault { IfErr result (λ e. e ≢ NameFault.Memory → spec.script_at (declared_of self.now) path ≡ Err e) }
    {
        let dir = PathText::read(self.alloc, path.dir())?;
        let source = self.locals.variants.source_of(&self.locals.top, &path)?;
        let copied = self.is_copied(&path);
        let mut candidates = Paths::new(Vec::new(self.alloc));
        match source {
            None => candidates.push(path)?,
            Some(source) if copied => {
                candidates.push(source)?;
                candidates.push(path)?;
            }
            Some(source) => {
                candidates.push(path)?;
                candidates.push(source)?;
            }
        }
        Ok(ScriptPlace { dir, candidates })
    }

    /// Whether a path lies in a variant directory with copies.
    pub(crate) fn is_copied(&self, path: &PathText) -> bool
        ensures { result ≡ spec.is_copied (declared_of self.now) path.now }
    {
        match self.locals.variants.variant_of(path) {
            Some(variant) => variant.duplicate,
            None => false,
        }
    }

    /// A script begins whose texts are read from this directory.
    pub fn begin_script(&mut self, dir: &PathText) -> Result<(), NameFault>
        ensures ok { OnOk result (spec.begun (declared_of self.old) dir.now ≡ Ok (declared_of self.new)) }
        ensures fault { IfErr result (λ e. e ≢ NameFault.Memory → spec.begun (declared_of self.old) dir.now ≡ Err e) }
    {
        if self.outer_dirs.len() > SCRIPT_DEPTH_LIMIT as usize {
            return Err(NameFault::ScriptDepth);
        }
        let dir = dir.copy()?;
        self.outer_dirs.push(self.locals.dir.copy()?)?;
        self.locals.dir = dir;
        Ok(())
    }

    /// The script that runs has ended.
    pub fn end_script(&mut self)
        ensures { declared_of self.new ≡ spec.ended (declared_of self.old) }
    {
        if let Some(dir) = self.outer_dirs.pop() {
            self.locals.dir = dir;
        }
    }
}
