ghost use Rattle.std.specs.Prelude.{◌≡◌, ◌+◌, ◌-◌, ◌≤◌, ◌++◌, ℕ, List, length, vec_len, vec_capacity, OnOk};

use std::alloc::AllocError;

/// Bytes that grow at their end.
pub(crate) trait Sink {
    ghost written: { Self → List ℕ };

    // How many more it takes for certain.
    ghost room: { Self → ℕ };

    fn reserve(&mut self, more: usize) -> Result<(), AllocError>
        ensures written { written self.new ≡ written self.old }
        ensures room { OnOk result (more ≤ room self.new) };

    fn put_reserved(&mut self, bytes: &[u8])
        requires { length bytes.now ≤ room self.old }
        ensures written { written self.new ≡ written self.old ++ bytes.now }
        ensures room { room self.old ≤ room self.new + length bytes.now };
}

impl Sink for Vec<u8> {
    ghost written = { λ v. v.items };

    ghost room = { λ v. vec_capacity v - vec_len v };

    #[inline(always)]
    fn reserve(&mut self, more: usize) -> Result<(), AllocError> {
        Vec::reserve(self, more)
    }

    #[inline(always)]
    fn put_reserved(&mut self, bytes: &[u8]) {
        if self.extend_from_slice(bytes).is_err() {
            prove!(false);
        }
    }
}
