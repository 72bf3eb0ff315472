// What each core has asked for, in lent words.
ghost use Rattle.std.specs.Prelude.{◌≡◌, ℕ, ◌<◌, length};
ghost use Rattle.directory.specs.Directory as known;
ghost use Rattle.directory.specs.Directory.{busy, unhurried};
ghost use Rattle.directory.specs.Words.{request_in, request_of, requests_of, stage_in};

use cache::index::SlotIndex;
use cache::slot::Access;
use words::table::{Table, at};

// How far a request is: it waits for its start; those who have the line are probed; or the line is fetched from memory.
#[derive(Clone, Copy)]
pub enum Stage {
    Queued,
    Probing,
    Fetching,
}

impl From<u32> for Stage {
    ghost from_gives = { λ word stage. stage ≡ stage_in word };

    fn from(word: u32) -> Stage {
        match word {
            0 => Stage::Queued,
            1 => Stage::Probing,
            _ => Stage::Fetching,
        }
    }
}

impl From<Stage> for u32 {
    ghost from_gives = { λ stage word. stage_in word ≡ stage };

    fn from(stage: Stage) -> u32 {
        match stage {
            Stage::Queued => 0,
            Stage::Probing => 1,
            Stage::Fetching => 2,
        }
    }
}

// A line that a core has asked for, and the slot of its cache that it is for.
#[derive(Clone, Copy)]
pub struct Request {
    pub line: u32,
    pub access: Access,
    pub slot: SlotIndex,
    pub stage: Stage,
}

// What each core has asked for.
pub struct Requests;

impl Table for Requests {
    type Value = Option<Request>;

    const SIZE: usize = 5;

    ghost SIZE = { 5 };

    ghost Meaning = { known.Request };

    ghost means = { request_of };

    ghost said = { λ k words. request_of k (request_in words) };

    fn read(block: &[u32]) -> Option<Request> {
        if block[0] == 0 {
            return None;
        }
        Some(Request {
            line: block[1],
            access: Access::from(block[2]),
            slot: SlotIndex::from(block[3]),
            stage: Stage::from(block[4]),
        })
    }

    fn write(block: &mut [u32], request: Option<Request>) {
        match request {
            Some(request) => block.copy_from_slice(&[
                1,
                request.line,
                u32::from(request.access),
                request.slot.number() as u32,
                u32::from(request.stage),
            ]),
            None => block[0] = 0,
        }
    }
}

// Whether core k's request is for the line, and under way.
fn is_busy(requests: &[u32], k: usize, line: u32) -> bool
    requires { (k < 4) × (length requests.now ≡ 20) }
    ensures { result ≡ busy (requests_of requests.now k) line }
{
    at::<Requests>(requests, k).is_some_and(|request| !matches!(request.stage, Stage::Queued)
        && request.line == line)
}

// Whether no request for the line is under way.
pub fn is_unhurried(requests: &[u32], line: u32) -> bool
    requires { length requests.now ≡ 20 }
    ensures { result ≡ unhurried (requests_of requests.now) line 4 }
{
    (0..4).all(|k| !is_busy(requests, k, line))
}
