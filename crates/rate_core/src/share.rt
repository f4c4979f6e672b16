ghost use Rattle.std.specs.Prelude.{◌≡◌, ◌≤◌, ◌↔◌, IsNone, IfSome};
ghost use Rattle.rate_core.specs.Rate.{rate_of};

/// The share `ok` of `total`, in millionths, rounded down. None if `total` is 0.
pub fn rate(ok: u32, total: u32) -> Option<u32>
    requires { ok ≤ total }
    ensures value { result ≡ rate_of ok total }
    ensures none { IsNone result ↔ (total ≡ 0) }
    ensures within { IfSome result (λ share. share ≤ 1000000) }
{
    if total == 0 {
        return None;
    }
    Some((1_000_000 * u64::from(ok) / u64::from(total)) as u32)
}
