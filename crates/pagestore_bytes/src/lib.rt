// Numbers in bytes, little-endian.
#![tactic(auto)]

ghost use Rattle.std.specs.Prelude.{◌≡◌, ℕ, ◌+◌, ◌≤◌, length, replicate};
ghost use Rattle.pagestore_bytes.specs.Bytes.{le_at, le_bytes, put};

// A number that is stored in bytes.
pub trait Number: Copy {
    // How many bytes it takes, and which number it is.
    ghost width: { ℕ };

    ghost value: { Self → ℕ };

    fn zero() -> Self
        ensures { value result ≡ 0 };

    // The number whose bytes begin at an index.
    fn read(s: &[u8], at: usize) -> Self
        requires { at + width ≤ length s.now }
        ensures { value result ≡ le_at width s.now at };

    // Stores its bytes from an index on.
    fn write(self, s: &mut [u8], at: usize)
        requires { at + width ≤ length s.old }
        ensures { s.new ≡ put s.old at (le_bytes width (value self)) };
}

impl Number for u8 {
    ghost width = { 1 };

    ghost value = { λ x. x };

    fn zero() -> u8 {
        0
    }

    #[tactic(auto, unfolding(crate::specs::Bytes::le_at))]
    fn read(s: &[u8], at: usize) -> u8 {
        s[at]
    }

    #[tactic(auto, unfolding(crate::specs::Bytes::put, crate::specs::Bytes::le_bytes))]
    fn write(self, s: &mut [u8], at: usize) {
        s[at] = self;
    }
}

impl Number for u16 {
    ghost width = { 2 };

    ghost value = { λ x. x };

    fn zero() -> u16 {
        0
    }

    #[tactic(auto, unfolding(crate::specs::Bytes::le_at))]
    fn read(s: &[u8], at: usize) -> u16 {
        u16::from_le_bytes([s[at], s[at + 1]])
    }

    fn write(self, s: &mut [u8], at: usize) {
        s[at..at + 2].copy_from_slice(&self.to_le_bytes());
    }
}

impl Number for u32 {
    ghost width = { 4 };

    ghost value = { λ x. x };

    fn zero() -> u32 {
        0
    }

    #[tactic(auto, unfolding(crate::specs::Bytes::le_at))]
    fn read(s: &[u8], at: usize) -> u32 {
        u32::from_le_bytes([s[at], s[at + 1], s[at + 2], s[at + 3]])
    }

    fn write(self, s: &mut [u8], at: usize) {
        s[at..at + 4].copy_from_slice(&self.to_le_bytes());
    }
}

// Every byte becomes 0.
pub fn clear(s: &mut [u8])
    ensures { s.new ≡ replicate (length s.old) 0 }
{
    s.fill(0);
}
