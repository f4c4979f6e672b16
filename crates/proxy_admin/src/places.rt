//! Which visitor has to go where too many are there.
ghost use Rattle.std.specs.Prelude.{◌≡◌, ◌<◌, ◌≤◌, ◌⊎◌, ℕ, None, IfSome, IfNone};
ghost use Rattle.slab.specs.Slab.{get, slab_len};
ghost use Rattle.proxy_admin.specs.Visits.{IsOldest};

use crate::visitor::Visitor;
use limits::MAX_VISITORS;
use slab::Slab;

/// The visitor that has been idle longest.
fn oldest(visitors: &Slab<Visitor>) -> Option<usize>
    ensures oldest { IfSome result (IsOldest visitors.now) }
    ensures nobody { IfNone result ((key : ℕ) → get visitors.now key ≡ None) }
{
    let (mut oldest, mut least) = (None, u64::MAX);
    for key in 0..visitors.capacity() {
        if let Some(visitor) = visitors.get(key) {
            if visitor.moved() <= least {
                oldest = Some(key);
                least = visitor.moved();
            }
        }
    }
    oldest
}

/// Makes place for one more visitor: where `MAX_VISITORS` are there, the one idle longest has to go.
pub(crate) fn make_place(visitors: &mut Slab<Visitor>)
    ensures free { slab_len visitors.old ≤ MAX_VISITORS → slab_len visitors.new < MAX_VISITORS }
    ensures spare { slab_len visitors.old < MAX_VISITORS → visitors.new ≡ visitors.old }
    ensures oldest { (key : ℕ) → (get visitors.new key ≡ get visitors.old key)
        ⊎ (IsOldest visitors.old key × (get visitors.new key ≡ None)) }
{
    if visitors.len() < MAX_VISITORS {
        return;
    }
    if let Some(key) = oldest(visitors) {
        drop(visitors.try_remove(key));
    }
}
