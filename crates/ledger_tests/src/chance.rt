//! Numbers by chance.

/// Random numbers, which begin with this seed.
#[derive(Drop)]
pub(crate) struct Chance(pub(crate) u64);

impl Chance {
    /// A random number below the limit, which is not 0.
    pub(crate) fn below(&mut self, limit: u64) -> u64 {
        // The next number is made of the last one by a product and a sum (a linear congruential generator), and its upper bits are taken.
        let product = self.0.wrapping_mul(6_364_136_223_846_793_005);
        self.0 = product.wrapping_add(1_442_695_040_888_963_407);
        (self.0 >> 33) % limit.max(1)
    }
}
