//! The variant directories of a project.
ghost use Rattle.std.specs.Prelude.{◌≡◌, IfOk};

use crate::fault::VariantFault;
use crate::nesting::{is_nested, is_there, stands, variant_of};
use scons_base::{Memory, PathFault, PathText, Paths};
use std::alloc::Global;
use std::marker::Model;

/// A directory for built files, and the directory of their sources.
#[derive(Debug, Drop)]
pub struct Variant {
    pub dir: PathText,
    pub source: PathText,
    /// Whether sources are copied into the variant directory before they are used.
    pub duplicate: bool,
}

impl Variant {
    ghost use Rattle.std.specs.Prelude.{Some};
    ghost use Rattle.variant_dirs.specs.Variants.{source_in, IsSpelled};

    pub fn copy(&self) -> Result<Variant, Memory>
        ensures { IfOk result (λ v. v ≡ self.now) }
    {
        Ok(Variant {
            dir: self.dir.copy()?,
            source: self.source.copy()?,
            duplicate: self.duplicate,
        })
    }

    /// The source of a path in this variant directory, in its one spelling.
    fn source_of(&self, top: &PathText, path: &PathText) -> Result<Option<PathText>, Memory>
        ensures path { IfOk result (λ p. p ≡ source_in top.now path.now (Some self.now)) }
        ensures spelled { IfOk result (IsSpelled top.now) }
    {
        match path.moved(&self.dir, &self.source)? {
            Some(source) => Ok(Some(source.spelled(top)?)),
            None => Ok(None),
        }
    }
}

/// The variant directories of a project.
#[derive(Debug, Drop)]
pub struct Variants {
    variants: Vec<Variant>,
}

impl Model for Variants {
    ghost use Rattle.std.specs.Prelude.{List};
    ghost use Rattle.variant_dirs.specs.declared.variants.Variant.{Variant};

    ghost Value = { List Variant };

    ghost use Rattle.variant_dirs.specs.Variants.{AreApart};

    ghost view = { λ v. v.variants.items };

    ghost invariant = { λ v. AreApart v.variants.items };
}

impl Variants {
    ghost use Rattle.std.specs.Prelude.{◌≡◌, ◌≢◌, ◌++◌, ◌∷◌, [], None, Some, true, IfOk, IfErr, OnOk, OnErr, option_copied};
    ghost use Rattle.std.specs.Option.{option_to_list};
    ghost use Rattle.scons_base.specs.Resolve.{spelling, resolved, resolve_fault, IsResolved};
    ghost use Rattle.variant_dirs.specs.Variants.{variant_of, variants_with, source_of, uncopied_in, searched, add_fault, added, is_apart_from, IsBadName, IsSpelled, AreSpelled};

    pub fn new(alloc: Global) -> Variants
        ensures { result ≡ [] }
    {
        Variants {
            variants: Vec::new(alloc),
        }
    }

    pub fn as_slice(&self) -> &[Variant]
        ensures { result.now ≡ self.now }
    {
        self.variants.as_slice()
    }

    pub fn copy(&self) -> Result<Variants, Memory>
        ensures { IfOk result (λ v. v ≡ self.now) }
    {
        let mut variants = Vec::with_capacity(*self.variants.allocator(), self.variants.len())?;
        for variant in &self.variants {
            variants.push(variant.copy()?)?;
        }
        Ok(Variants { variants })
    }

    /// Makes a directory the variant directory of another one. An equal one again changes nothing.
    #[tactic(auto, using(crate::proofs::Apart::is_apart))]
    pub fn add(
        &mut self,
        dir: &PathText,
        source: &PathText,
        duplicate: bool,
    ) -> Result<(), VariantFault>
        ensures ok { OnOk result (self.new ≡ added self.old dir.now source.now duplicate) }
        ensures no_fault { OnOk result (add_fault self.old dir.now source.now duplicate ≡ None) }
        ensures fault { IfErr result (λ e. e ≢ VariantFault.Memory
            → add_fault self.old dir.now source.now duplicate ≡ Some e) }
        ensures err { OnErr result (self.new ≡ self.old) }
    {
        let variants = self.variants.as_slice();
        if is_there(variants, dir, source, duplicate) {
            return Ok(());
        }
        if is_nested(variants, dir, source) {
            return Err(VariantFault::Nested);
        }
        if stands(variants, dir) {
            return Err(VariantFault::Twice);
        }
        self.push(dir, source, duplicate)?;
        Ok(())
    }

    #[tactic(auto, using(crate::proofs::Apart::stay_apart))]
    fn push(&mut self, dir: &PathText, source: &PathText, duplicate: bool) -> Result<(), Memory>
        requires { is_apart_from self.old dir.now ≡ true }
        ensures ok { OnOk result (self.new
            ≡ self.old ++ record { dir = dir.now; source = source.now; duplicate = duplicate } ∷ []) }
        ensures err { OnErr result (self.new ≡ self.old) }
    {
        self.variants.push(Variant {
            dir: dir.copy()?,
            source: source.copy()?,
            duplicate,
        })?;
        Ok(())
    }

    /// The variant directory that a path lies in: the directory itself lies in it too. A path lies in one at most.
    pub fn variant_of(&self, path: &PathText) -> Option<&Variant>
        ensures first { option_copied result ≡ variant_of self.now path.now }
        ensures only { option_to_list (option_copied result) ≡ variants_with self.now path.now }
    {
        variant_of(self.variants.as_slice(), path)
    }

    /// The source of a path, taken once, in its one spelling where `top` is the top directory. There is none where the path
    /// lies in no variant directory, or where its source would be too long for a path.
    pub fn source_of(&self, top: &PathText, path: &PathText) -> Result<Option<PathText>, Memory>
        ensures path { IfOk result (λ p. p ≡ source_of self.now top.now path.now) }
        ensures spelled { IfOk result (IsSpelled top.now) }
    {
        match self.variant_of(path) {
            Some(variant) => variant.source_of(top, path),
            None => Ok(None),
        }
    }

    /// Where a name is looked for that stands in the directory `dir`: the path that it names, and then, in a variant
    /// directory without copies, the source of that path.
    pub fn search(&self, top: &PathText, dir: &PathText, name: &str) -> Result<Paths, VariantFault>
        ensures ok { IfOk result (λ p. p ≡ searched self.now top.now (resolved top.now dir.now name.now)) }
        ensures no_fault { IfOk result (λ _. resolve_fault top.now dir.now name.now ≡ None) }
        ensures fault { IfErr result (λ e. e ≢ VariantFault.Memory
            → IsBadName (resolve_fault top.now dir.now name.now) e) }
        ensures spelled { IfOk result (AreSpelled top.now) }
    {
        let alloc = *self.variants.allocator();
        let path = match PathText::resolve(alloc, top, dir, name) {
            Ok(path) => path,
            Err(PathFault::Memory) => return Err(VariantFault::Memory),
            Err(fault) => return Err(VariantFault::BadName(fault)),
        };
        Ok(self.with_source(top, path)?)
    }

    /// Where a path is looked for, in its one spelling: at itself, and then, in a variant directory without copies, at its
    /// source.
    pub fn searched(&self, top: &PathText, path: &PathText) -> Result<Paths, Memory>
        ensures paths { IfOk result (λ p. p ≡ searched self.now top.now (spelling top.now path.now)) }
        ensures spelled { IfOk result (AreSpelled top.now) }
    {
        self.with_source(top, path.spelled(top)?)
    }

    fn with_source(&self, top: &PathText, path: PathText) -> Result<Paths, Memory>
        requires { IsResolved top.now path }
        ensures paths { IfOk result (λ p. p ≡ searched self.now top.now path) }
        ensures spelled { IfOk result (AreSpelled top.now) }
    {
        let source = self.uncopied_source(top, &path)?;
        let mut paths = Paths::new(Vec::new(*self.variants.allocator()));
        paths.push(path)?;
        if let Some(source) = source {
            paths.push(source)?;
        }
        Ok(paths)
    }

    fn uncopied_source(&self, top: &PathText, path: &PathText) -> Result<Option<PathText>, Memory>
        ensures path { IfOk result (λ p. option_to_list p ≡ uncopied_in top.now path.now (variant_of self.now path.now)) }
        ensures spelled { IfOk result (IsSpelled top.now) }
    {
        match self.variant_of(path) {
            Some(variant) if !variant.duplicate => variant.source_of(top, path),
            _ => Ok(None),
        }
    }
}
