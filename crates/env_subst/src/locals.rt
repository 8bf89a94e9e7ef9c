//! What the lines of a rule know beside the environment.
ghost use Rattle.std.specs.Prelude.{◌≡◌, IfOk};

use scons_base::{Memory, PathText, Text};
use variant_dirs::Variants;

/// A node, and its source file where it lies in a variant directory: elsewhere its own path.
#[derive(Debug, Drop)]
pub struct Named {
    pub path: PathText,
    pub src: PathText,
}

/// What a rule's lines know beside the environment.
#[derive(Debug, Drop)]
pub struct Locals {
    pub targets: Vec<Named>,
    pub sources: Vec<Named>,
    /// What `$SMARTLINK` stands for.
    pub smartlink: Text,
    /// The directory that search paths are read from.
    pub dir: PathText,
    /// The absolute path of the top directory.
    pub top: PathText,
    pub variants: Variants,
}
