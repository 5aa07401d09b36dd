//! What is kept of the observations of each tracklet, so that none is searched for.

ghost use Rattle.std.specs.Prelude.{◌≡◌, ◌+◌, ◌^◌, ◌<◌, ◌≤◌, ◌==◌, None, Some, if◌then◌else◌, vec_len, vec_capacity};
ghost use Rattle.tracklet_file.specs.Chains.{chain_after, links_after};

/// What is kept of a tracklet's observations.
#[derive(Clone, Copy, Debug, PartialEq, Eq)]
pub struct Chain {
    /// The number of the first of them; 0 where there is none.
    pub first: u64,
    /// The number of the last of them; 0 where there is none.
    pub last: u64,
    /// How many of them are live.
    pub live: u64,
}

/// What is kept of a tracklet after a live observation with this number is added to it.
pub(crate) fn extend(chain: Chain, number: u64) -> Chain
    requires { chain.live + 1 < 2 ^ 64 }
    ensures { result ≡ chain_after chain number }
{
    Chain {
        first: if chain.first == 0 {
            number
        } else {
            chain.first
        },
        last: number,
        live: chain.live + 1,
    }
}

/// One link more, and to its number leads the link of the last observation of its tracklet, where there is one.
pub(crate) fn link(links: &mut Vec<u64>, last: u64, number: u64)
    requires room { vec_len links.old < vec_capacity links.old }
    requires there { last ≤ vec_len links.old }
    ensures links { links.new.items ≡ links_after links.old.items last number }
    ensures len { vec_len links.new ≡ vec_len links.old + 1 }
    ensures capacity { vec_capacity links.new ≡ vec_capacity links.old }
{
    links.push_reserved(0);
    if last > 0 {
        links[(last - 1) as usize] = number;
    }
}

/// The number, where it isn't 0.
pub(crate) fn some_number(number: u64) -> Option<u64>
    ensures { result ≡ (if number == 0 then None else Some number) }
{
    if number == 0 { None } else { Some(number) }
}
