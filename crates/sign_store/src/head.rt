//! The head of a bank, and which bank counts.
ghost use Rattle.std.specs.Prelude.{◌≡◌};
ghost use Rattle.sign_store.specs.Heads.{head_of, live_head, chosen, other_bank};

use deciders::Version;
use world_api::Bank;

/// The bytes of a head: its gate, the mark and the generation.
pub(crate) const HEAD_LEN: usize = 17;

pub(crate) const MARK: [u8; 8] = *b"SCONSIG2";

/// The mark of version 1, which is read and not written.
const FIRST_MARK: [u8; 8] = *b"SCONSIG1";

/// What a live bank says of itself.
#[derive(Clone, Copy, PartialEq, Eq)]
pub(crate) struct Edition {
    pub version: Version,
    pub generation: u64,
}

/// What stands in front of a bank.
#[derive(Clone, Copy, PartialEq, Eq)]
pub(crate) enum Head {
    /// Too short to be live.
    Short,
    /// A gate is there, and it is closed.
    Closed,
    /// Live, and of no version.
    Foreign,
    Live(Edition),
}

/// The bank that counts.
#[derive(Clone, Copy, PartialEq, Eq)]
pub(crate) enum Choice {
    None,
    Foreign(Bank),
    Live(Bank, Edition),
}

/// What a bank, or its first 18 bytes, says.
pub(crate) fn head_of(front: &[u8]) -> Head
    ensures { result ≡ head_of front.now }
{
    if front.len() <= HEAD_LEN {
        return Head::Short;
    }
    if front[0] != 1 {
        return Head::Closed;
    }
    let generation = u64::from_be_bytes([
        front[9], front[10], front[11], front[12], front[13], front[14], front[15], front[16],
    ]);
    live_head(&front[1..9], generation)
}

/// What a live bank says. One of version 1 has a generation that can follow, since its map moves into the other bank.
fn live_head(mark: &[u8], generation: u64) -> Head
    ensures { result ≡ live_head mark.now generation }
{
    if mark[..] == MARK[..] {
        return Head::Live(Edition {
            version: Version::Two,
            generation,
        });
    }
    if mark[..] == FIRST_MARK[..] && generation < u64::MAX {
        return Head::Live(Edition {
            version: Version::One,
            generation,
        });
    }
    Head::Foreign
}

/// The live bank of the greater generation, A at a tie. A live bank of no version is refused, A first.
pub(crate) fn chosen(a: Head, b: Head) -> Choice
    ensures { result ≡ chosen a b }
{
    match (a, b) {
        (Head::Foreign, _) => Choice::Foreign(Bank::A),
        (_, Head::Foreign) => Choice::Foreign(Bank::B),
        (Head::Live(first), Head::Live(second)) if first.generation < second.generation => {
            Choice::Live(Bank::B, second)
        }
        (Head::Live(first), _) => Choice::Live(Bank::A, first),
        (_, Head::Live(second)) => Choice::Live(Bank::B, second),
        _ => Choice::None,
    }
}

pub(crate) fn other(bank: Bank) -> Bank
    ensures { result ≡ other_bank bank }
{
    match bank {
        Bank::A => Bank::B,
        Bank::B => Bank::A,
    }
}
