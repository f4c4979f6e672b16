/// Numbers that look random (xorshift, 64 bits). The seed may not be 0.
#[derive(Clone, Copy)]
pub struct Numbers(pub u64);

impl Numbers {
    /// A number below n, or 0 if n is 0.
    pub fn below(&mut self, n: u64) -> u64 {
        let mut x = self.0;
        x ^= x << 13;
        x ^= x >> 7;
        x ^= x << 17;
        self.0 = x;
        (x >> 11).checked_rem(n).unwrap_or(0)
    }

    /// Whether a number below n is 0.
    pub fn chance(&mut self, n: u64) -> bool {
        self.below(n) == 0
    }

    /// One of the texts, or the empty one if there is none.
    pub fn one_of(&mut self, texts: &[&'static str]) -> &'static str {
        let place = self.below(texts.len() as u64) as usize;
        texts.get(place).copied().unwrap_or("")
    }
}
