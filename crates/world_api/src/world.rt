//! Files, and jobs that make files.
ghost use Rattle.std.specs.Prelude.{◌≡◌, ◌≢◌, ◌<◌, ◌≤◌, List, ℕ, [], Some, None, false, length, IsTrue, IfOk, IfErr, IfSome, OnOk, OnErr, Contains};
ghost use Rattle.scons_base.specs.Parts.{is_absolute};
ghost use Rattle.world_api.specs.Around.{IsRunningTarget, IsUnused};
ghost use Rattle.world_api.specs.Calls.{Asks, MakesDir, Removes, CanStart, IsClosed, IsOpen};
ghost use Rattle.world_api.specs.Causes.{TreeFails, StartFails, HasOutcomeCause};
ghost use Rattle.world_api.specs.Laws.{HasMetFiles, HasNoneClosed, StartsJob, EndsJob};
ghost use Rattle.world_api.specs.Meaning.{Told, Recalls, BanksKept, Throughout, Meanwhile};
ghost use Rattle.world_api.specs.Reads.{IsOver, IsListing, kind_of, stamp_of};

use crate::disk::Disk;
use crate::job::{Ended, Job};
use crate::refusal::{AskRefusal, Fault, ReadRefusal};
use scons_base::{Blob, PathText, Paths};

/// The bytes of a file, or `None` where none stands.
pub type Content = Option<Blob>;

/// What stands at a path.
#[derive(Clone, Copy, Debug, PartialEq, Eq)]
pub enum Kind {
    Absent,
    File,
    Dir,
}

/// Files, and jobs that make files, beside the banks of a disk. No call of a world touches the banks.
pub trait World: Disk {
    /// The absolute path of the top directory, in which relative paths lie.
    fn top_path(&mut self) -> Result<PathText, AskRefusal>
        ensures top { Self.meaning.tells self.new → IfOk result (λ path. path ≡ (Self.meaning.around self.new).top) }
        ensures absolute { IfOk result (λ path. IsTrue (is_absolute path)) }

        ensures around { Self.meaning.tells self.new → Asks (Self.meaning.around self.old) (Self.meaning.around self.new) }
        ensures banks { Self.meaning.tells self.new → BanksKept Self.meaning self.old self.new }
        ensures told { Told Self.meaning self.old self.new }
        ensures recalls { Recalls Self.meaning self.old self.new }
        ensures time { Throughout Self.meaning self.old self.new (Meanwhile Self.meaning self.old self.new) }
        ensures kept { result ≢ Err AskRefusal.Fault → Self.meaning.counts self.new ≡ Self.meaning.counts self.old }
        ensures rose { result ≡ Err AskRefusal.Fault → TreeFails (Self.meaning.counts self.old) (Self.meaning.counts self.new) };

    /// Whether a file stands at a path, or a directory.
    fn kind(&mut self, path: &PathText) -> Result<Kind, Fault>
        ensures kind { Self.meaning.tells self.new → IfOk result (λ kind. kind ≡ kind_of (Self.meaning.around self.new) path.now) }
        ensures shut { IsClosed (Self.meaning.closed self.old) path.now → IfOk result (λ kind. kind ≡ Kind.Absent) }

        ensures around { Self.meaning.tells self.new → Asks (Self.meaning.around self.old) (Self.meaning.around self.new) }
        ensures banks { Self.meaning.tells self.new → BanksKept Self.meaning self.old self.new }
        ensures told { Told Self.meaning self.old self.new }
        ensures recalls { Recalls Self.meaning self.old self.new }
        ensures time { Throughout Self.meaning self.old self.new (Meanwhile Self.meaning self.old self.new) }
        ensures kept { OnOk result (Self.meaning.counts self.new ≡ Self.meaning.counts self.old) }
        ensures rose { OnErr result (TreeFails (Self.meaning.counts self.old) (Self.meaning.counts self.new)) };

    /// Reads a file whole, unless it has more than `limit` bytes.
    fn read_file(&mut self, path: &PathText, limit: u64) -> Result<Content, ReadRefusal>
        ensures content { Self.meaning.tells self.new → IfOk result (λ content. content ≡ (Self.meaning.around self.new).tree path.now) }
        ensures within { IfOk result (λ content. IfSome content (λ bytes. length bytes ≤ limit)) }
        ensures large { Self.meaning.tells self.new → IfErr result (IsOver ((Self.meaning.around self.new).tree path.now)) }
        ensures over { IfErr result (λ refusal. (size : ℕ) → refusal ≡ ReadRefusal.TooLarge size → limit < size) }
        ensures shut { IsClosed (Self.meaning.closed self.old) path.now → IfOk result (λ content. content ≡ None) }

        ensures around { Self.meaning.tells self.new → Asks (Self.meaning.around self.old) (Self.meaning.around self.new) }
        ensures banks { Self.meaning.tells self.new → BanksKept Self.meaning self.old self.new }
        ensures told { Told Self.meaning self.old self.new }
        ensures recalls { Recalls Self.meaning self.old self.new }
        ensures time { Throughout Self.meaning self.old self.new (Meanwhile Self.meaning self.old self.new) }
        ensures kept { result ≢ Err ReadRefusal.Fault → Self.meaning.counts self.new ≡ Self.meaning.counts self.old }
        ensures rose { result ≡ Err ReadRefusal.Fault → TreeFails (Self.meaning.counts self.old) (Self.meaning.counts self.new) };

    /// The files directly in a directory, in no stated order; none where there is no such directory. A file whose name
    /// can't be spelled as a path isn't listed.
    fn list(&mut self, dir: &PathText) -> Result<Paths, AskRefusal>
        ensures files { Self.meaning.tells self.new → IfOk result (IsListing (Self.meaning.around self.new) dir.now) }
        ensures shut { IfOk result (λ paths. (path : List ℕ) → Contains paths path → IsClosed (Self.meaning.closed self.old) path → ⊥) }

        ensures around { Self.meaning.tells self.new → Asks (Self.meaning.around self.old) (Self.meaning.around self.new) }
        ensures banks { Self.meaning.tells self.new → BanksKept Self.meaning self.old self.new }
        ensures told { Told Self.meaning self.old self.new }
        ensures recalls { Recalls Self.meaning self.old self.new }
        ensures time { Throughout Self.meaning self.old self.new (Meanwhile Self.meaning self.old self.new) }
        ensures kept { result ≢ Err AskRefusal.Fault → Self.meaning.counts self.new ≡ Self.meaning.counts self.old }
        ensures rose { result ≡ Err AskRefusal.Fault → TreeFails (Self.meaning.counts self.old) (Self.meaning.counts self.new) };

    /// When a file last changed, in nanoseconds; `None` where no file stands.
    fn stamp(&mut self, path: &PathText) -> Result<Option<u64>, Fault>
        ensures stamp { Self.meaning.tells self.new → IfOk result (λ stamp. stamp ≡ stamp_of (Self.meaning.around self.new) path.now) }
        ensures shut { IsClosed (Self.meaning.closed self.old) path.now → IfOk result (λ stamp. stamp ≡ None) }

        ensures around { Self.meaning.tells self.new → Asks (Self.meaning.around self.old) (Self.meaning.around self.new) }
        ensures banks { Self.meaning.tells self.new → BanksKept Self.meaning self.old self.new }
        ensures told { Told Self.meaning self.old self.new }
        ensures recalls { Recalls Self.meaning self.old self.new }
        ensures time { Throughout Self.meaning self.old self.new (Meanwhile Self.meaning self.old self.new) }
        ensures kept { OnOk result (Self.meaning.counts self.new ≡ Self.meaning.counts self.old) }
        ensures rose { OnErr result (TreeFails (Self.meaning.counts self.old) (Self.meaning.counts self.new)) };

    /// Makes a directory, and those above it that don't stand.
    fn make_dir(&mut self, path: &PathText) -> Result<(), AskRefusal>
        requires { IsClosed (Self.meaning.closed self.old) path.now → ⊥ }
        ensures made { Self.meaning.tells self.new → OnOk result (MakesDir path.now (Self.meaning.around self.old) (Self.meaning.around self.new)) }
        ensures refused { Self.meaning.tells self.new → OnErr result (Asks (Self.meaning.around self.old) (Self.meaning.around self.new)) }

        ensures banks { Self.meaning.tells self.new → BanksKept Self.meaning self.old self.new }
        ensures told { Told Self.meaning self.old self.new }
        ensures recalls { Recalls Self.meaning self.old self.new }
        ensures time { Throughout Self.meaning self.old self.new (Meanwhile Self.meaning self.old self.new) }
        ensures kept { result ≢ Err AskRefusal.Fault → Self.meaning.counts self.new ≡ Self.meaning.counts self.old }
        ensures rose { result ≡ Err AskRefusal.Fault → TreeFails (Self.meaning.counts self.old) (Self.meaning.counts self.new) };

    /// Removes a file. Where none stands it is well too.
    fn remove(&mut self, path: &PathText) -> Result<(), Fault>
        requires { Self.meaning.tells self.old → IsUnused (Self.meaning.around self.old).running path.now }
        ensures gone { Self.meaning.tells self.new → OnOk result ((Self.meaning.around self.new).tree path.now ≡ None) }

        ensures around { Self.meaning.tells self.new → Removes path.now (Self.meaning.around self.old) (Self.meaning.around self.new) }
        ensures banks { Self.meaning.tells self.new → BanksKept Self.meaning self.old self.new }
        ensures told { Told Self.meaning self.old self.new }
        ensures recalls { Recalls Self.meaning self.old self.new }
        ensures time { Throughout Self.meaning self.old self.new (Meanwhile Self.meaning self.old self.new) }
        ensures kept { OnOk result (Self.meaning.counts self.new ≡ Self.meaning.counts self.old) }
        ensures rose { OnErr result (TreeFails (Self.meaning.counts self.old) (Self.meaning.counts self.new)) };

    /// Starts a job. A refusal drops it.
    fn start(&mut self, job: Job) -> Result<(), AskRefusal>
        requires free { Self.meaning.tells self.old → CanStart job (Self.meaning.around self.old) }
        requires reachable { IsOpen (Self.meaning.closed self.old) job }
        ensures started { Self.meaning.tells self.new → OnOk result (StartsJob Self.meaning job self.old self.new) }
        ensures refused { Self.meaning.tells self.new → OnErr result (Asks (Self.meaning.around self.old) (Self.meaning.around self.new)) }

        ensures banks { Self.meaning.tells self.new → BanksKept Self.meaning self.old self.new }
        ensures told { Told Self.meaning self.old self.new }
        ensures recalls { Recalls Self.meaning self.old self.new }
        ensures time { Throughout Self.meaning self.old self.new (Meanwhile Self.meaning self.old self.new) }
        ensures kept { result ≢ Err AskRefusal.Fault → Self.meaning.counts self.new ≡ Self.meaning.counts self.old }
        ensures rose { result ≡ Err AskRefusal.Fault → StartFails (Self.meaning.counts self.old) (Self.meaning.counts self.new) };

    /// Waits until one of the running jobs ends.
    fn wait(&mut self) -> Ended
        requires { Self.meaning.tells self.old → (Self.meaning.around self.old).running ≢ [] }

        ensures around { Self.meaning.tells self.new → EndsJob Self.meaning result self.old self.new }
        ensures banks { Self.meaning.tells self.new → BanksKept Self.meaning self.old self.new }
        ensures told { Told Self.meaning self.old self.new }
        ensures recalls { Recalls Self.meaning self.old self.new }
        ensures time { Throughout Self.meaning self.old self.new (Meanwhile Self.meaning self.old self.new) }
        ensures cause { HasOutcomeCause result.outcome (Self.meaning.counts self.old) (Self.meaning.counts self.new) };

    /// What a file holds that no running job writes has been met.
    ghost held: { HasMetFiles Self.meaning };

    /// Nothing stands at or below a closed directory.
    ghost shut: { HasNoneClosed Self.meaning };
}
