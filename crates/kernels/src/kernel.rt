// What a kernel is.
ghost use Rattle.std.specs.Prelude.{◌≡◌, ℕ, ◌≤◌};
ghost use Rattle.wavelets.specs.Lifting.{Amounts, Lawful};

// Two functions of a left and a right neighbour, and a code by which files name the kernel. An amount of two 32-bit numbers may be
// as large as +2^31, so it is wider than they are.
pub trait Kernel {
    // The two functions, over all whole numbers.
    ghost amounts: { Self → Amounts };

    ghost code: { Self → ℕ };

    // What is taken from an odd place.
    fn predict(&self, left: i32, right: i32) -> i64
        ensures is_the_predict_amount { result ≡ (amounts self.now).predict left right };

    // What is added to an even place.
    fn update(&self, left: i32, right: i32) -> i64
        ensures is_the_update_amount { result ≡ (amounts self.now).update left right };

    fn code(&self) -> u8
        ensures is_the_code { result ≡ code self.now };

    // An amount is never larger in size than the larger of the two neighbours.
    ghost lawful: { (kernel : Self) → Lawful (amounts kernel) };

    ghost coded: { (kernel : Self) → (1 ≤ code kernel) × (code kernel ≤ 255) };
}
