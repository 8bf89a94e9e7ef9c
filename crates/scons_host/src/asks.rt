//! What the host asks of the world. It looks at files, and changes none.
ghost use Rattle.std.specs.Prelude.{◌≡◌, ◌≢◌, Err, IfOk, OnOk, OnErr};
ghost use Rattle.scons_host.specs.Causes.{TreeFailsOn};
ghost use Rattle.scons_host.specs.Shown.{Shown, SamePaths, IsKindOf, IsRead};
ghost use Rattle.world_api.specs.Looks.{LooksAtFiles};

use scons_base::{PathText, Paths};
use world_api::{AskRefusal, Content, Fault, Kind, ReadRefusal, World};

pub fn top_of<W: World>(world: &mut W) -> Result<PathText, AskRefusal>
    ensures shown { Shown W.meaning world.old world.new (λ f. IfOk result (λ path. path ≡ f.top)) }
    ensures looks { LooksAtFiles W.meaning world.old world.new }
    ensures kept { result ≢ Err AskRefusal.Fault → W.meaning.counts world.new ≡ W.meaning.counts world.old }
    ensures rose { result ≡ Err AskRefusal.Fault → TreeFailsOn W.meaning world.old world.new }
{
    world.top_path()
}

pub fn kind_of<W: World>(world: &mut W, path: &PathText) -> Result<Kind, Fault>
    ensures shown { Shown W.meaning world.old world.new (λ f. IfOk result (IsKindOf (f.tree path.now))) }
    ensures looks { LooksAtFiles W.meaning world.old world.new }
    ensures kept { OnOk result (W.meaning.counts world.new ≡ W.meaning.counts world.old) }
    ensures rose { OnErr result (TreeFailsOn W.meaning world.old world.new) }
{
    world.kind(path)
}

pub fn bytes_of<W: World>(
    world: &mut W,
    path: &PathText,
    limit: u64,
) -> Result<Content, ReadRefusal>
    ensures shown { Shown W.meaning world.old world.new (λ f. IsRead limit (f.tree path.now) result) }
    ensures looks { LooksAtFiles W.meaning world.old world.new }
    ensures kept { result ≢ Err ReadRefusal.Fault → W.meaning.counts world.new ≡ W.meaning.counts world.old }
    ensures rose { result ≡ Err ReadRefusal.Fault → TreeFailsOn W.meaning world.old world.new }
{
    world.read_file(path, limit)
}

pub fn files_of<W: World>(world: &mut W, dir: &PathText) -> Result<Paths, AskRefusal>
    ensures shown { Shown W.meaning world.old world.new (λ f. IfOk result (λ paths. SamePaths paths (f.listed dir.now))) }
    ensures looks { LooksAtFiles W.meaning world.old world.new }
    ensures kept { result ≢ Err AskRefusal.Fault → W.meaning.counts world.new ≡ W.meaning.counts world.old }
    ensures rose { result ≡ Err AskRefusal.Fault → TreeFailsOn W.meaning world.old world.new }
{
    world.list(dir)
}
