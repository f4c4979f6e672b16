ghost use Rattle.std.specs.Prelude.{◌≡◌, ◌↔◌, [], IsTrue, IfOk, OnErr};
ghost use Rattle.std.specs.List.{All};
ghost use Rattle.proxy_serve_core.specs.StalledBids.{IsAtMost, Wins, own_bid, since_of, standing_beside, stands, with_bid};

use std::alloc::{AllocError, Global};
use std::marker::Model;

/// A bid stands for so many milliseconds, unless it is made again.
pub const BID_STANDS_MS: u64 = 400;

/// A bid wins once bids have stood for so many milliseconds, in which each worker has looked at its clients.
pub const BID_WAITS_MS: u64 = 200;

/// A worker's stalled client for which most bytes wait, told to the others.
#[derive(Clone, Copy, Debug, PartialEq, Eq, Drop)]
pub struct StalledBid {
    /// Whose it is.
    pub bidder: u64,
    /// The bytes that wait for its client.
    pub bytes: u64,
    /// Since when bids have stood without a break, in milliseconds.
    pub since: u64,
    /// When it was made last, in milliseconds.
    pub at: u64,
}

impl StalledBid {
    fn stands(&self, now: u64) -> bool
        ensures { result ≡ stands now self.now }
    {
        now.saturating_sub(self.at) < BID_STANDS_MS
    }
}

/// Which worker is to close a stalled client: each bids what waits for its own greatest.
#[derive(Drop)]
pub struct StalledBids {
    bids: Vec<StalledBid>,
}

impl Model for StalledBids {
    ghost use Rattle.std.specs.Prelude.{List};
    ghost use Rattle.proxy_serve_core.specs.declared.stalled_bids.StalledBid.{StalledBid};

    ghost Value = { List StalledBid };

    ghost view = { λ b. b.bids.items };
}

impl StalledBids {
    /// There is none.
    pub fn new(alloc: Global) -> StalledBids
        ensures { result ≡ [] }
    {
        StalledBids {
            bids: Vec::new(alloc),
        }
    }

    /// Takes in how many bytes wait for the bidder's greatest stalled client; 0: none is stalled. True: that client is to be
    /// closed, as for no other one more bytes wait. Without memory its bid is not among them.
    pub fn bid(&mut self, bidder: u64, bytes: u64, now: u64) -> Result<bool, AllocError>
        ensures ok { IfOk result (λ wins. (self.new ≡ with_bid bidder bytes now self.old)
            × (IsTrue wins ↔ Wins now (own_bid bidder bytes now self.old) self.new)) }
        ensures err { OnErr result (self.new ≡ standing_beside bidder now self.old) }
    {
        let own = StalledBid {
            bidder,
            bytes,
            since: since_of(&self.bids, now),
            at: now,
        };
        keep_standing(&mut self.bids, bidder, now);
        self.bids.push(own)?;
        Ok(self.wins(own, now))
    }

    fn wins(&self, own: StalledBid, now: u64) -> bool
        ensures { IsTrue result ↔ Wins now own self.now }
    {
        own.bytes > 0
            && now.saturating_sub(own.since) >= BID_WAITS_MS
            && is_at_most(&self.bids, own.bytes)
    }
}

fn keep_standing(bids: &mut Vec<StalledBid>, bidder: u64, now: u64)
    ensures { bids.new.items ≡ standing_beside bidder now bids.old.items }
{
    bids.retain(|bid| bid.stands(now) && bid.bidder != bidder);
}

// A client may go from worker to worker while its generations change, so it isn't asked whose bid stands. Now, if none does.
fn since_of(bids: &[StalledBid], now: u64) -> u64
    ensures { result ≡ since_of now bids.now }
{
    for bid in bids {
        if bid.bytes > 0 && bid.stands(now) {
            return bid.since;
        }
    }
    now
}

fn is_at_most(bids: &[StalledBid], bytes: u64) -> bool
    ensures { IsTrue result ↔ All (IsAtMost bytes) bids.now }
{
    for bid in bids {
        if bid.bytes > bytes {
            return false;
        }
    }
    true
}
