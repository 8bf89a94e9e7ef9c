//! Calls of a world, counted, and those that are to fail.
ghost use Rattle.std.specs.Prelude.{◌≡◌, ◌<◌, ℕ, [], None, Some};
ghost use Rattle.world_mem.specs.declared.calls.Call.{Call};
ghost use Rattle.world_mem.specs.CallCounts.{place_of, count_of, counted, verdict_of, is_listed, burned};

/// A call of a disk or of a world.
#[derive(Clone, Copy, Debug, PartialEq, Eq)]
pub enum Call {
    Size,
    ReadAt,
    WriteAt,
    Sync,
    TopPath,
    Kind,
    ReadFile,
    List,
    Stamp,
    MakeDir,
    Remove,
    Start,
    Wait,
}

/// What becomes of a call: it goes on, is listed as one that fails, or comes when the fuse is spent.
#[derive(Clone, Copy, Debug, PartialEq, Eq)]
pub enum Verdict {
    Goes,
    Listed,
    Spent,
}

/// How often each call was made, which calls fail, and after how many further calls all do. The pair of a call and a
/// number is the call of that number, counted from 0.
#[derive(Drop)]
pub struct Calls {
    made: [u64; 13],
    failing: Vec<(Call, u32)>,
    fuse: Option<u32>,
}

fn place_of(call: Call) -> usize
    ensures place { result ≡ place_of call }
    ensures within { result < 13 }
{
    match call {
        Call::Size => 0,
        Call::ReadAt => 1,
        Call::WriteAt => 2,
        Call::Sync => 3,
        Call::TopPath => 4,
        Call::Kind => 5,
        Call::ReadFile => 6,
        Call::List => 7,
        Call::Stamp => 8,
        Call::MakeDir => 9,
        Call::Remove => 10,
        Call::Start => 11,
        Call::Wait => 12,
    }
}

impl Calls {
    pub fn new(failing: Vec<(Call, u32)>) -> Calls
        ensures failing { result.failing ≡ failing }
        ensures fuse { result.fuse ≡ None }
        ensures none { (call : Call) → count_of call result ≡ 0 }
    {
        Calls {
            made: [0; 13],
            failing,
            fuse: None,
        }
    }

    pub fn count(&self, call: Call) -> u64
        ensures { result ≡ count_of call self.now }
    {
        self.made[place_of(call)]
    }

    /// Counts a call, and says what becomes of it.
    pub fn next(&mut self, call: Call) -> Verdict
        ensures verdict { result ≡ verdict_of call self.old }
        ensures counted { self.new ≡ counted call self.old }
    {
        let place = place_of(call);
        let number = self.made[place];
        self.made[place] = number.saturating_add(1);
        match self.fuse {
            Some(0) => Verdict::Spent,
            fuse => {
                self.fuse = burned(fuse);
                if is_listed(&self.failing, call, number) {
                    Verdict::Listed
                } else {
                    Verdict::Goes
                }
            }
        }
    }

    /// After so many further calls every call fails.
    pub fn set_fuse(&mut self, calls: u32)
        ensures { self.new ≡ record self.old { fuse = Some calls } }
    {
        self.fuse = Some(calls);
    }

    /// No call fails any more.
    pub fn spare(&mut self)
        ensures made { self.new.made ≡ self.old.made }
        ensures failing { self.new.failing.items ≡ [] }
        ensures fuse { self.new.fuse ≡ None }
    {
        self.failing.clear();
        self.fuse = None;
    }
}

fn burned(fuse: Option<u32>) -> Option<u32>
    ensures { result ≡ burned fuse }
{
    fuse.map(|left| left.saturating_sub(1))
}

fn is_listed(failing: &[(Call, u32)], call: Call, number: u64) -> bool
    ensures { result ≡ is_listed failing.now call number }
{
    failing.iter().any(|(name, place)| *name == call && u64::from(*place) == number)
}
